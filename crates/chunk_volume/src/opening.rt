// Opening a volume: a walk over its log that folds its records.
ghost use Rattle.std.specs.Prelude.{◌≡◌, ◌≢◌, ◌+◌, ◌<◌, ◌^◌, ◌∷◌, ◌≤◌, ℕ, List, Bool, true, length, nat_le, slice_index, IfOk, OnOk};
ghost use Rattle.fault_count.specs.Counts.{HandsOn};
ghost use Rattle.site_forms.specs.Halves.{half_number};
ghost use Rattle.device_pieces.specs.Pieces.{Shows};
ghost use Rattle.device_pieces.specs.Quiet.{Quiet};
ghost use Rattle.chunk_log.specs.declared.errors.LogError.TheVariants.{RackFault as LogFault};
ghost use Rattle.chunk_volume.specs.declared.errors.VolError.TheVariants.{RackFault};
ghost use Rattle.chunk_volume.specs.Folding.{GathersLog, FoldsLog, FoldsBody, FoldsNext, IsFolded, IsUnfoldable, IsUndamaged, IsFrontOf, ReadsFront, NamesDevice, is_front_half};
ghost use Rattle.chunk_volume.specs.Pieces.{bytes_at};
ghost use Rattle.chunk_volume.specs.VolumeInside.{StandBefore};

use crate::errors::VolError;
use crate::records::{CHUNK_FRONT, chunk_in, chunk_name, file_in, names_in};
use chunk_log::{Log, LogError, Place};
use device_pieces::Piece;
use file_names::file_name_of;
use seed_model::NoMemory;
use std::alloc::Global;
use volume_disk::Rack;
use volume_index::Index;

/// What the records of a log fold to, from the first to the last, read by a piece of its device.
pub(crate) fn gather<R: Rack>(
    alloc: Global,
    rack: &mut R,
    piece: &mut Piece,
    log: &Log,
) -> Result<Index, VolError>
    requires { piece.old.device ≡ log.now.device }
    ensures cause { HandsOn RackFault (R.faults rack.old) (R.faults rack.new) result }
    ensures honest { R.honest rack.new ≡ R.honest rack.old }
    ensures answers { GathersLog log.now.device result }
    ensures within { IfOk result (λ index. StandBefore log.now.end index.places index.shape.chunks) }
    ensures quiet { R.honest rack.old ≡ true → Quiet R.moment R.left_since rack.old rack.new (R.disk rack.old) (R.disk rack.new) }
    ensures folds { R.honest rack.old ≡ true → Shows (R.disk rack.old log.now.device).image piece.old → FoldsLog (R.disk rack.old log.now.device).image log.now.end result }
{
    let mut index = Index::new(alloc);
    let mut body = Vec::new(alloc);
    let mut at = 0;
    'records: while at < log.end() {
        let Some(place) = log.walk_by(rack, piece, at)? else {
            return Ok(index);
        };
        if !fold_next(alloc, rack, piece, log, place, &mut body, &mut index)? {
            return Err(VolError::Damage {
                device: log.device(),
                at,
            });
        }
        at = place.next;
    }
    Ok(index)
}

// Folds the body at a place; false where it is no record, or does not fold. The Half record in front of a log is passed.
fn fold_next<R: Rack>(
    alloc: Global,
    rack: &mut R,
    piece: &mut Piece,
    log: &Log,
    place: Place,
    body: &mut Vec<u8>,
    index: &mut Index,
) -> Result<bool, VolError>
    requires device { piece.old.device ≡ log.now.device }
    requires begins { 5 ≤ place.at }
    requires some { 1 ≤ place.len }
    requires within { place.at + place.len ≤ log.now.end }
    requires low { place.at + place.len < 2 ^ 40 }
    ensures cause { HandsOn RackFault (R.faults rack.old) (R.faults rack.new) result }
    ensures honest { R.honest rack.new ≡ R.honest rack.old }
    ensures answers { GathersLog log.now.device result }
    ensures within { (gate : ℕ) → place.at ≡ gate + 5 → StandBefore gate index.old.places index.old.shape.chunks
        → IfOk result (λ is. is ≡ true → StandBefore (place.at + place.len) index.new.places index.new.shape.chunks) }
    ensures device { piece.new.device ≡ log.now.device }
    ensures quiet { R.honest rack.old ≡ true → Quiet R.moment R.left_since rack.old rack.new (R.disk rack.old) (R.disk rack.new) }
    ensures shows { R.honest rack.old ≡ true → Shows (R.disk rack.old log.now.device).image piece.old → Shows (R.disk rack.old log.now.device).image piece.new }
    ensures undamaged { R.honest rack.old ≡ true → Shows (R.disk rack.old log.now.device).image piece.old → place.at + place.len ≤ length (R.disk rack.old log.now.device).image → IsUndamaged result }
    ensures folds { (gate : ℕ) → R.honest rack.old ≡ true → Shows (R.disk rack.old log.now.device).image piece.old → place.at ≡ gate + 5 → place.at + place.len ≤ length (R.disk rack.old log.now.device).image
        → IfOk result (FoldsNext gate index.old index.new (bytes_at (R.disk rack.old log.now.device).image place.at place.len)) }
{
    let front = read_front(rack, piece, log, place)?;
    if is_in_front(&front, place) {
        return Ok(true);
    }
    if front[0] == 1 {
        return Ok(fold_chunk(&front, place, index)?);
    }
    fold_whole(alloc, rack, piece, log, place, body, index)
}

// The first 33 bytes of a body, or all of a shorter one with zeros behind it.
fn read_front<R: Rack>(
    rack: &mut R,
    piece: &mut Piece,
    log: &Log,
    place: Place,
) -> Result<[u8; 33], LogError>
    requires device { piece.old.device ≡ log.now.device }
    requires within { place.at + place.len ≤ log.now.end }
    ensures cause { HandsOn LogFault (R.faults rack.old) (R.faults rack.new) result }
    ensures honest { R.honest rack.new ≡ R.honest rack.old }
    ensures named { NamesDevice log.now.device result }
    ensures device { piece.new.device ≡ log.now.device }
    ensures quiet { R.honest rack.old ≡ true → Quiet R.moment R.left_since rack.old rack.new (R.disk rack.old) (R.disk rack.new) }
    ensures shows { R.honest rack.old ≡ true → Shows (R.disk rack.old log.now.device).image piece.old → Shows (R.disk rack.old log.now.device).image piece.new }
    ensures front { R.honest rack.old ≡ true → Shows (R.disk rack.old log.now.device).image piece.old → ReadsFront (R.disk rack.old log.now.device).image place.at place.len result }
{
    let mut front = [0; 33];
    let count = place.len.min(CHUNK_FRONT) as usize;
    log.read_body_by(rack, piece, place.at, &mut front[..count])?;
    Ok(front)
}

// Whether a body that begins so is the Half record in front of a log.
#[tactic(auto, using(crate::proofs::Foldings::not_in_front, crate::proofs::Foldings::in_front))]
fn is_in_front(front: &[u8; 33], place: Place) -> bool
    ensures { (gate : ℕ) (body : List ℕ) → place.at ≡ gate + 5 → length body ≡ place.len → IsFrontOf front.now body → result ≡ is_front_half gate body }
{
    if place.at != 5 {
        return false;
    }
    is_half(front, place.len)
}

// Whether a body that begins so, and has so many bytes, is a Half record with a generation.
fn is_half(front: &[u8; 33], len: u32) -> bool
    ensures { (body : List ℕ) → length body ≡ len → IsFrontOf front.now body → result ≡ nat_le 1 (half_number body) }
{
    let mut number = [0; 8];
    number.copy_from_slice(&front[1..9]);
    len == 9 && front[0] == 32 && 1 <= u64::from_be_bytes(number)
}

// Folds the record of a chunk, from its first bytes.
fn fold_chunk(front: &[u8; 33], place: Place, index: &mut Index) -> Result<bool, NoMemory>
    requires kind { slice_index front.now 0 ≡ 1 }
    requires low { place.at + place.len < 2 ^ 40 }
    ensures within { (gate : ℕ) → place.at ≡ gate + 5 → StandBefore gate index.old.places index.old.shape.chunks
        → IfOk result (λ is. is ≡ true → StandBefore (place.at + place.len) index.new.places index.new.shape.chunks) }
    ensures folds { (gate : ℕ) (body : List ℕ) → place.at ≡ gate + 5 → length body ≡ place.len → IsFrontOf front.now body → IfOk result (FoldsBody gate index.old index.new body) }
{
    let Some(name) = chunk_in(front, place.len) else {
        return Ok(false);
    };
    if index.extent(&name).is_some() {
        return Ok(false);
    }
    let front_len = u64::from(CHUNK_FRONT);
    index.add_chunk(&name, place.at + front_len, place.len - CHUNK_FRONT)?;
    Ok(true)
}

// Reads a body that is no chunk's, and folds its record.
fn fold_whole<R: Rack>(
    alloc: Global,
    rack: &mut R,
    piece: &mut Piece,
    log: &Log,
    place: Place,
    body: &mut Vec<u8>,
    index: &mut Index,
) -> Result<bool, VolError>
    requires device { piece.old.device ≡ log.now.device }
    requires within { place.at + place.len ≤ log.now.end }
    ensures cause { HandsOn RackFault (R.faults rack.old) (R.faults rack.new) result }
    ensures honest { R.honest rack.new ≡ R.honest rack.old }
    ensures answers { GathersLog log.now.device result }
    ensures within { (gate : ℕ) → place.at ≡ gate + 5 → StandBefore gate index.old.places index.old.shape.chunks
        → IfOk result (λ is. is ≡ true → StandBefore (place.at + place.len) index.new.places index.new.shape.chunks) }
    ensures device { piece.new.device ≡ log.now.device }
    ensures quiet { R.honest rack.old ≡ true → Quiet R.moment R.left_since rack.old rack.new (R.disk rack.old) (R.disk rack.new) }
    ensures shows { R.honest rack.old ≡ true → Shows (R.disk rack.old log.now.device).image piece.old → Shows (R.disk rack.old log.now.device).image piece.new }
    ensures undamaged { R.honest rack.old ≡ true → Shows (R.disk rack.old log.now.device).image piece.old → place.at + place.len ≤ length (R.disk rack.old log.now.device).image → IsUndamaged result }
    ensures folds { (gate : ℕ) → R.honest rack.old ≡ true → Shows (R.disk rack.old log.now.device).image piece.old → slice_index (bytes_at (R.disk rack.old log.now.device).image place.at place.len) 0 ≢ 1
        → IfOk result (FoldsBody gate index.old index.new (bytes_at (R.disk rack.old log.now.device).image place.at place.len)) }
{
    read_whole(rack, piece, log, place, body)?;
    Ok(fold_body(alloc, body.as_slice(), index)?)
}

// Reads a body in the place of another.
fn read_whole<R: Rack>(
    rack: &mut R,
    piece: &mut Piece,
    log: &Log,
    place: Place,
    body: &mut Vec<u8>,
) -> Result<(), VolError>
    requires device { piece.old.device ≡ log.now.device }
    requires within { place.at + place.len ≤ log.now.end }
    ensures cause { HandsOn RackFault (R.faults rack.old) (R.faults rack.new) result }
    ensures honest { R.honest rack.new ≡ R.honest rack.old }
    ensures answers { GathersLog log.now.device result }
    ensures device { piece.new.device ≡ log.now.device }
    ensures quiet { R.honest rack.old ≡ true → Quiet R.moment R.left_since rack.old rack.new (R.disk rack.old) (R.disk rack.new) }
    ensures shows { R.honest rack.old ≡ true → Shows (R.disk rack.old log.now.device).image piece.old → Shows (R.disk rack.old log.now.device).image piece.new }
    ensures undamaged { R.honest rack.old ≡ true → Shows (R.disk rack.old log.now.device).image piece.old → place.at + place.len ≤ length (R.disk rack.old log.now.device).image → IsUndamaged result }
    ensures long { OnOk result (length body.new.items ≡ place.len) }
    ensures bytes { R.honest rack.old ≡ true → Shows (R.disk rack.old log.now.device).image piece.old → OnOk result (body.new.items ≡ bytes_at (R.disk rack.old log.now.device).image place.at place.len) }
{
    if body.resize(place.len as usize, 0).is_err() {
        return Err(VolError::Memory);
    }
    match log.read_body_by(rack, piece, place.at, body.as_mut_slice()) {
        Ok(()) => Ok(()),
        Err(LogError::RackFault) => Err(VolError::RackFault),
        Err(LogError::Damage { device, at }) => Err(VolError::Damage { device, at }),
    }
}

// Folds the record of a body that is no chunk's.
fn fold_body(alloc: Global, body: &[u8], index: &mut Index) -> Result<bool, NoMemory>
    ensures folded { (gate : ℕ) → IfOk result (λ is. is ≡ true → IsFolded gate index.old index.new body.now) }
    ensures folds { (gate : ℕ) → slice_index body.now 0 ≢ 1 → IfOk result (FoldsBody gate index.old index.new body.now) }
{
    let Some((kind, rest)) = body.split_first() else {
        return Ok(false);
    };
    match *kind {
        2 => fold_file(alloc, rest, index),
        3 => Ok(fold_drop_file(rest, index)),
        4 => Ok(fold_drop_chunk(rest, index)),
        _ => Ok(false),
    }
}

// Folds the record of a file.
fn fold_file(alloc: Global, rest: &[u8], index: &mut Index) -> Result<bool, NoMemory>
    ensures { (gate : ℕ) → IfOk result (FoldsBody gate index.old index.new (2 ∷ rest.now)) }
{
    let Some((name, bytes)) = file_in(rest) else {
        return Ok(false);
    };
    let chunks = names_in(alloc, bytes)?;
    if !index.may_add_file(name, chunks.as_slice()) {
        return Ok(false);
    }
    let Ok(name) = String::from_str(alloc, name) else {
        return Err(NoMemory);
    };
    index.add_file(name, chunks)?;
    Ok(true)
}

// Folds the record that drops a file.
fn fold_drop_file(rest: &[u8], index: &mut Index) -> bool
    ensures { (gate : ℕ) → FoldsBody gate index.old index.new (3 ∷ rest.now) result }
{
    let _files = index.file_count();
    let Some(name) = file_name_of(rest) else {
        return false;
    };
    let Some(place) = index.find(name) else {
        return false;
    };
    index.drop_file(place);
    true
}

// Folds the record that drops a chunk.
fn fold_drop_chunk(rest: &[u8], index: &mut Index) -> bool
    ensures { (gate : ℕ) → FoldsBody gate index.old index.new (4 ∷ rest.now) result }
{
    let Some(name) = chunk_name(rest) else {
        return false;
    };
    if !index.may_drop_chunk(&name) {
        return false;
    }
    index.drop_chunk(&name);
    true
}
