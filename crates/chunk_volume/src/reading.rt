// Reading the bytes of chunks from the device.
ghost use Rattle.std.specs.Prelude.{◌≡◌, ◌+◌, ◌≤◌, ◌↔◌, true, length, take, drop, IfOk};
ghost use Rattle.fault_count.specs.Counts.{HandsOn};
ghost use Rattle.device_pieces.specs.Quiet.{Quiet};
ghost use Rattle.chunk_log.specs.declared.errors.LogError.TheVariants.{RackFault as LogFault};
ghost use Rattle.chunk_volume.specs.declared.errors.VolError.TheVariants.{RackFault};
ghost use Rattle.chunk_volume.specs.Pieces.{Judges, ReadsPiece, FindsPiece, ComparesTo};

use crate::errors::VolError;
use chunk_log::{Log, LogError};
use sha2::{Digest, Sha256};
use volume_disk::Rack;
use volume_index::Extent;

/// What bytes of a device said: their digest, and whether they were those they were compared with.
#[derive(Clone, Copy)]
pub(crate) struct Compared {
    pub found: [u8; 32],
    pub is_same: bool,
}

// How many bytes are compared at a time.
const PIECE: usize = 4096;

/// Reads the bytes of a chunk in the place of others, and judges them by its name.
pub(crate) fn read_piece<R: Rack>(
    rack: &mut R,
    log: &Log,
    extent: Extent,
    name: &[u8; 32],
    piece: &mut Vec<u8>,
) -> Result<(), VolError>
    requires { extent.at + extent.len ≤ log.now.end }
    ensures cause { HandsOn RackFault (R.faults rack.old) (R.faults rack.new) result }
    ensures honest { R.honest rack.new ≡ R.honest rack.old }
    ensures quiet { R.honest rack.old ≡ true → Quiet R.moment R.left_since rack.old rack.new (R.disk rack.old) (R.disk rack.new) }
    ensures reads { ReadsPiece log.now.device extent.at extent.len name.now piece.new.items result }
    ensures bytes { R.honest rack.old ≡ true → FindsPiece (R.disk rack.old log.now.device).image extent.at extent.len piece.new.items result }
{
    if piece.resize(extent.len as usize, 0).is_err() {
        return Err(VolError::Memory);
    }
    match log.read_body(rack, extent.at, piece.as_mut_slice()) {
        Ok(()) => judge(name, piece.as_slice()),
        Err(LogError::RackFault) => Err(VolError::RackFault),
        Err(LogError::Damage { device, at }) => Err(VolError::Damage { device, at }),
    }
}

// Whether bytes have this name.
fn judge(name: &[u8; 32], bytes: &[u8]) -> Result<(), VolError>
    ensures { Judges name.now bytes.now result }
{
    let found = Sha256::digest(bytes);
    if found != *name {
        return Err(VolError::BadChunk { name: *name, found });
    }
    Ok(())
}

/// Compares the bytes of a chunk with others, a piece at a time, without memory for all of them.
pub(crate) fn compare<R: Rack>(
    rack: &mut R,
    log: &Log,
    extent: Extent,
    others: &[u8],
) -> Result<Compared, LogError>
    requires { extent.at + extent.len ≤ log.now.end }
    ensures cause { HandsOn LogFault (R.faults rack.old) (R.faults rack.new) result }
    ensures honest { R.honest rack.new ≡ R.honest rack.old }
    ensures quiet { R.honest rack.old ≡ true → Quiet R.moment R.left_since rack.old rack.new (R.disk rack.old) (R.disk rack.new) }
    ensures length { IfOk result (λ c. c.is_same ≡ true → length others.now ≡ extent.len) }
    ensures bytes { R.honest rack.old ≡ true → ComparesTo (R.disk rack.old log.now.device).image log.now.device extent.at extent.len others.now result }
{
    let _end = log.end();
    let len = extent.len as usize;
    let mut hasher = Sha256::new();
    let mut is_same = others.len() == len;
    let mut done = 0;
    'pieces: while done < len {
        let count = (len - done).min(PIECE);
        let mut piece = [0; PIECE];
        let part = &mut piece[..count];
        log.read_body(rack, extent.at + done as u64, part)?;
        is_same = goes_on(is_same, others, done, part);
        hasher.update(&*part);
        done += count;
    }
    Ok(Compared {
        found: hasher.finalize(),
        is_same,
    })
}

// Whether bytes that are the same up to a place have a piece there too.
fn goes_on(is_same: bool, bytes: &[u8], at: usize, piece: &[u8]) -> bool
    requires { 1 ≤ length piece.now }
    ensures { (result ≡ true) ↔ ((is_same ≡ true) × (take (length piece.now) (drop at bytes.now) ≡ piece.now)) }
{
    if !is_same || bytes.len() < at || bytes.len() - at < piece.len() {
        return false;
    }
    &bytes[at..at + piece.len()] == piece
}
