// Volumes over a log.
ghost use Rattle.std.specs.Prelude.{◌≡◌, ℕ, List, ◌^◌, ◌<◌, ◌≤◌, ◌*◌, ◌+◌, true, false, length, slice_get, Some, IfOk, OnOk, IsOk};
ghost use Rattle.fault_count.specs.Counts.{HandsOn};
ghost use Rattle.file_names.specs.FileNames.{IsFileName};
ghost use Rattle.sha2.specs.Sha256.{sha256};
ghost use Rattle.std.specs.FinMap as fin_map;
ghost use Rattle.std.specs.String.{string_bytes};
ghost use Rattle.site_forms.specs.Sites.{HoldsChunk, HoldsFile};
ghost use Rattle.site_forms.specs.VolumeRecords.{IsChunk};
ghost use Rattle.site_forms.specs.VolumeRecords.VolumeRecord.{ChunkRecord, FileRecord, DropFileRecord, DropChunkRecord};
ghost use Rattle.site_forms.specs.Volumes.{Volume as FormVolume, chunk_or, holds_all, keeps_limits, may_add_file, may_drop_chunk, without_file};
ghost use Rattle.device_pieces.specs.Quiet.{Quiet};
ghost use Rattle.chunk_volume.specs.declared.errors.VolError.TheVariants.{RackFault};
ghost use Rattle.chunk_volume.specs.Adding.{PutsChunk, PutsFile, DropsFile, DropsChunk, Adds, Compares, ComparesChunk, FindsHeld, IsSame, AddsRecord, PutsChunkOn};
ghost use Rattle.chunk_volume.specs.OpeningVolumes.{AnswersVolume, OpensVolume};
ghost use Rattle.chunk_volume.specs.ReadingVolumes.{ReadsChunk, ReadsFile, FindsChunk, FindsFile, recipe_of};
ghost use Rattle.chunk_volume.specs.Pieces.{ReadsHeld, FindsPiece, JudgesHeld};
ghost use Rattle.chunk_volume.specs.Standing.{VolumeStands};
ghost use Rattle.volume_index.specs.HoldingValues.{KeepsShape, held_bytes, orphans};

use crate::errors::VolError;
use crate::framing::RecordFrame;
use crate::opening::gather;
use crate::reading::{Compared, compare, read_piece};
use crate::recipe::recipe_from;
use crate::volume_log::VolumeLog;
use chunk_log::{LogError, open_place_by};
use device_pieces::Piece;
use recipe_reader::Recipe;
use seed_model::NoMemory;
use std::alloc::Global;
use std::marker::Model;
use volume_disk::Rack;
use volume_index::{Extent, Holding};

// How long a record's body may be before more room is made.
const FIRST_BODY: u32 = 4_129;

// How many bytes of a log stand from the gate of a chunk's record on up to its bytes: the gate, the length of the body,
// its kind and the name.
const BEFORE_CHUNK: u64 = 38;

/// The volume of a place: its log, and what it holds. No chunk's bytes are in memory.
#[derive(Drop)]
pub struct Volume {
    alloc: Global,
    log: VolumeLog,
    holding: Holding,
    frame: RecordFrame,
}

impl Model for Volume {
    ghost use Rattle.chunk_volume.specs.VolumeValues.{VolumeValue, volume_code};
    ghost use Rattle.chunk_volume.specs.VolumeInside.{view_of, KeepsVolume};

    ghost Value = { VolumeValue };

    ghost coded = { volume_code };

    ghost view = { view_of };

    ghost invariant = { KeepsVolume };
}

impl Volume {
    /// Opens the volume of a place, 0 for A and 1 for B, whose devices may grow to `limit` bytes. The log is read by pieces
    /// of 65,536 bytes; of a chunk's record only its length and its first 33 bytes are looked at.
    pub fn open<R: Rack>(
        alloc: Global,
        rack: &mut R,
        place: u8,
        limit: u64,
    ) -> Result<Volume, VolError>
        requires place { place ≤ 1 }
        requires limit { limit ≤ 2 ^ 40 }
        ensures cause { HandsOn RackFault (R.faults rack.old) (R.faults rack.new) result }
        ensures honest { R.honest rack.new ≡ R.honest rack.old }
        ensures answers { AnswersVolume place limit result }
        ensures opened { R.honest rack.old ≡ true → OpensVolume R.moment R.left_since rack.old rack.new (R.disk rack.old) (R.disk rack.new) place result }
    {
        let mut piece = Piece::room(alloc, place)?;
        let log = open_place_by(rack, &mut piece, place, limit)?;
        let index = gather(alloc, rack, &mut piece, &log)?;
        let holding = Holding::of(index)?;
        let frame = RecordFrame::room(alloc, FIRST_BODY)?;
        Ok(Volume {
            alloc,
            log: VolumeLog::of(log),
            holding,
            frame,
        })
    }

    /// What the volume holds.
    pub fn holding(&self) -> &Holding
        ensures shape { result.now.shape ≡ self.now.shape }
        ensures keeps { KeepsShape self.now.shape }
    {
        let _files = self.holding.file_count();
        &self.holding
    }

    /// The end of the log.
    pub fn end(&self) -> u64
        ensures gate { result ≡ self.now.log.end }
        ensures below { result < 2 ^ 40 }
    {
        self.log.end()
    }

    /// The greatest size in bytes that each device of the place may grow to.
    pub fn limit(&self) -> u64
        ensures limit { result ≡ self.now.log.limit }
        ensures most { result ≤ 2 ^ 40 }
    {
        self.log.limit()
    }

    /// The device of the half in force.
    pub fn device(&self) -> u8
        ensures device { result ≡ self.now.log.device }
        ensures six { result ≤ 5 }
    {
        self.log.device()
    }

    /// The bytes of all chunks that are held.
    pub fn bytes(&self) -> u64
        ensures { result ≡ held_bytes self.now.shape }
    {
        self.holding.bytes()
    }

    /// The least name of a chunk that no file uses; none exactly where every chunk is used.
    pub fn first_orphan(&self) -> Option<[u8; 32]>
        ensures { result ≡ slice_get (orphans self.now.shape) 0 }
    {
        self.holding.first_orphan()
    }

    /// How many chunks no file would use without the file at a place. Takes time for the chunks of this file alone.
    pub fn freed_by(&mut self, place: u32) -> u64
        requires { place < fin_map.len self.old.shape.files }
        ensures same { self.new ≡ self.old }
        ensures count { (name : List ℕ) → slice_get (fin_map.keys self.old.shape.files) place ≡ Some name → result ≡ length (orphans (without_file self.old.shape name)) }
    {
        self.holding.freed_by(place)
    }

    /// Makes room for so many more chunks and files, and for records of `body` bytes: the next calls within it never
    /// answer `Memory`.
    pub fn reserve(&mut self, chunks: usize, files: usize, body: usize) -> Result<(), NoMemory>
        requires { body ≤ 16777216 }
        ensures same { IsSame self.old self.new }
        ensures chunks { OnOk result (chunks ≤ self.new.room.chunks) }
        ensures files { OnOk result (files ≤ self.new.room.files) }
        ensures body { OnOk result (body ≤ self.new.room.body) }
        ensures succeeds { chunks ≤ self.old.room.chunks → files ≤ self.old.room.files → body ≤ self.old.room.body → IsOk result }
    {
        self.holding.reserve(chunks, files)?;
        self.reserve_body(body)
    }

    /// Adds a chunk, whose name is the digest of its bytes; false where it is held with these bytes. Held bytes are
    /// compared on the device.
    pub fn put_chunk<R: Rack>(
        &mut self,
        rack: &mut R,
        name: &[u8; 32],
        bytes: &[u8],
    ) -> Result<bool, VolError>
        requires name { name.now ≡ sha256 bytes.now }
        requires chunk { IsChunk bytes.now }
        ensures cause { HandsOn RackFault (R.faults rack.old) (R.faults rack.new) result }
        ensures honest { R.honest rack.new ≡ R.honest rack.old }
        ensures volume { PutsChunk self.old self.new name.now bytes.now result }
        ensures added { R.honest rack.old ≡ true → PutsChunkOn R.moment R.left_since rack.old rack.new (R.disk rack.old) (R.disk rack.new) self.old self.new name.now bytes.now result }
    {
        if self.log.is_spent() {
            return Err(VolError::Spent);
        }
        if let Some(extent) = self.holding.extent(name) {
            self.compare_held(rack, name, extent, bytes)?;
            return Ok(false);
        }
        self.add_chunk(rack, name, bytes)?;
        Ok(true)
    }

    /// Compares bytes with those that are held under their digest, on the device. Writes nothing.
    pub fn compare_chunk<R: Rack>(
        &mut self,
        rack: &mut R,
        name: &[u8; 32],
        bytes: &[u8],
    ) -> Result<(), VolError>
        requires name { name.now ≡ sha256 bytes.now }
        requires held { HoldsChunk self.old.shape name.now }
        ensures cause { HandsOn RackFault (R.faults rack.old) (R.faults rack.new) result }
        ensures honest { R.honest rack.new ≡ R.honest rack.old }
        ensures volume { ComparesChunk self.old self.new name.now bytes.now result }
        ensures quiet { R.honest rack.old ≡ true → Quiet R.moment R.left_since rack.old rack.new (R.disk rack.old) (R.disk rack.new) }
        ensures found { (place : ℕ) (volume : FormVolume) → R.honest rack.old ≡ true → VolumeStands place self.old (R.disk rack.old) volume → FindsHeld volume name.now bytes.now result }
    {
        if self.log.is_spent() {
            return Err(VolError::Spent);
        }
        let extent = self.holding.extent(name).unwrap();
        self.compare_held(rack, name, extent, bytes)
    }

    /// Adds a file whose chunks are held.
    pub fn put_file<R: Rack>(
        &mut self,
        rack: &mut R,
        name: String,
        chunks: Vec<[u8; 32]>,
    ) -> Result<(), VolError>
        requires lawful { IsFileName (string_bytes name) }
        requires held { holds_all self.old.shape chunks.items ≡ true }
        requires short { length chunks.items ≤ 524279 }
        requires limits { keeps_limits (λ chunk. chunk_or 0 self.old.shape chunk) (fin_map.insert self.old.shape.files (string_bytes name) chunks.items) ≡ true }
        ensures cause { HandsOn RackFault (R.faults rack.old) (R.faults rack.new) result }
        ensures honest { R.honest rack.new ≡ R.honest rack.old }
        ensures volume { PutsFile self.old self.new (string_bytes name) chunks.items result }
        ensures added { R.honest rack.old ≡ true → AddsRecord R.moment R.left_since rack.old rack.new (R.disk rack.old) (R.disk rack.new) self.old self.new (FileRecord (string_bytes name) chunks.items) result }
    {
        if self.log.is_spent() {
            return Err(VolError::Spent);
        }
        if self.holding.find(name.as_str()).is_some() {
            return Err(VolError::Exists);
        }
        self.add_file(rack, name, chunks)
    }

    /// Drops a file. Its chunks stay.
    pub fn drop_file<R: Rack>(&mut self, rack: &mut R, name: &str) -> Result<(), VolError>
        ensures cause { HandsOn RackFault (R.faults rack.old) (R.faults rack.new) result }
        ensures honest { R.honest rack.new ≡ R.honest rack.old }
        ensures volume { DropsFile self.old self.new name.now result }
        ensures dropped { R.honest rack.old ≡ true → AddsRecord R.moment R.left_since rack.old rack.new (R.disk rack.old) (R.disk rack.new) self.old self.new (DropFileRecord name.now) result }
    {
        if self.log.is_spent() {
            return Err(VolError::Spent);
        }
        let Some(place) = self.holding.find(name) else {
            return Err(VolError::NoSuchFile);
        };
        self.take_file(rack, name, place)
    }

    /// Drops a chunk that no file uses.
    pub fn drop_chunk<R: Rack>(&mut self, rack: &mut R, name: &[u8; 32]) -> Result<(), VolError>
        requires { may_drop_chunk self.old.shape name.now ≡ true }
        ensures cause { HandsOn RackFault (R.faults rack.old) (R.faults rack.new) result }
        ensures honest { R.honest rack.new ≡ R.honest rack.old }
        ensures volume { DropsChunk self.old self.new name.now result }
        ensures dropped { R.honest rack.old ≡ true → AddsRecord R.moment R.left_since rack.old rack.new (R.disk rack.old) (R.disk rack.new) self.old self.new (DropChunkRecord name.now) result }
    {
        if self.log.is_spent() {
            return Err(VolError::Spent);
        }
        self.take_chunk(rack, name)
    }

    /// The bytes of a chunk, read from the device and judged by their digest.
    pub fn read_chunk<R: Rack>(&self, rack: &mut R, name: &[u8; 32]) -> Result<Vec<u8>, VolError>
        requires { HoldsChunk self.now.shape name.now }
        ensures cause { HandsOn RackFault (R.faults rack.old) (R.faults rack.new) result }
        ensures honest { R.honest rack.new ≡ R.honest rack.old }
        ensures reads { ReadsChunk self.now name.now result }
        ensures quiet { R.honest rack.old ≡ true → Quiet R.moment R.left_since rack.old rack.new (R.disk rack.old) (R.disk rack.new) }
        ensures found { (place : ℕ) (volume : FormVolume) → R.honest rack.old ≡ true → VolumeStands place self.now (R.disk rack.old) volume → FindsChunk volume name.now result }
    {
        let mut bytes = Vec::new(self.alloc);
        self.read_held(rack, name, &mut bytes)?;
        Ok(bytes)
    }

    /// The bytes of a file: those of its chunks, joined.
    pub fn read_file<R: Rack>(&self, rack: &mut R, name: &str) -> Result<Vec<u8>, VolError>
        ensures cause { HandsOn RackFault (R.faults rack.old) (R.faults rack.new) result }
        ensures honest { R.honest rack.new ≡ R.honest rack.old }
        ensures reads { ReadsFile self.now name.now result }
        ensures quiet { R.honest rack.old ≡ true → Quiet R.moment R.left_since rack.old rack.new (R.disk rack.old) (R.disk rack.new) }
        ensures found { (place : ℕ) (volume : FormVolume) → R.honest rack.old ≡ true → VolumeStands place self.now (R.disk rack.old) volume → FindsFile volume name.now result }
    {
        let Some(place) = self.holding.find(name) else {
            return Err(VolError::NoSuchFile);
        };
        let _files = self.holding.file_count();
        let list = self.holding.file_chunks(place);
        let mut bytes = Vec::new(self.alloc);
        let mut piece = Vec::new(self.alloc);
        'chunks: for chunk in list {
            self.read_held(rack, chunk, &mut piece)?;
            bytes.extend_from_slice(piece.as_slice())?;
        }
        Ok(bytes)
    }

    /// The files by name, each with its chunks by first appearance.
    pub fn recipe(&self) -> Result<Recipe, NoMemory>
        ensures { IfOk result (λ recipe. recipe ≡ recipe_of self.now.shape) }
    {
        recipe_from(self.alloc, &self.holding)
    }

    // Adds a chunk that is lacking.
    fn add_chunk<R: Rack>(
        &mut self,
        rack: &mut R,
        name: &[u8; 32],
        bytes: &[u8],
    ) -> Result<(), VolError>
        requires name { length name.now ≡ 32 }
        requires chunk { IsChunk bytes.now }
        requires lacking { ¬ HoldsChunk self.old.shape name.now }
        requires fresh { self.old.log.spent ≡ false }
        ensures cause { HandsOn RackFault (R.faults rack.old) (R.faults rack.new) result }
        ensures honest { R.honest rack.new ≡ R.honest rack.old }
        ensures volume { Adds self.old self.new (ChunkRecord name.now bytes.now) result }
        ensures added { R.honest rack.old ≡ true → AddsRecord R.moment R.left_since rack.old rack.new (R.disk rack.old) (R.disk rack.new) self.old self.new (ChunkRecord name.now bytes.now) result }
    {
        self.reserve(1, 0, 33 + bytes.len())?;
        self.frame.set_chunk(name, bytes);
        let place = self.log.end() + BEFORE_CHUNK;
        self.log.append(rack, &self.frame)?;
        self.holding
            .add_chunk(name, place, bytes.len() as u32)
            .unwrap();
        Ok(())
    }

    // Adds a file that is lacking.
    fn add_file<R: Rack>(
        &mut self,
        rack: &mut R,
        name: String,
        chunks: Vec<[u8; 32]>,
    ) -> Result<(), VolError>
        requires may { may_add_file (λ n. n) 0 self.old.shape (string_bytes name) chunks.items ≡ true }
        requires fresh { self.old.log.spent ≡ false }
        ensures cause { HandsOn RackFault (R.faults rack.old) (R.faults rack.new) result }
        ensures honest { R.honest rack.new ≡ R.honest rack.old }
        ensures volume { Adds self.old self.new (FileRecord (string_bytes name) chunks.items) result }
        ensures added { R.honest rack.old ≡ true → AddsRecord R.moment R.left_since rack.old rack.new (R.disk rack.old) (R.disk rack.new) self.old self.new (FileRecord (string_bytes name) chunks.items) result }
    {
        self.reserve(0, 1, 2 + name.len() + 32 * chunks.len())?;
        self.frame.set_file(name.as_str(), chunks.as_slice());
        self.log.append(rack, &self.frame)?;
        self.holding.add_file(name, chunks).unwrap();
        Ok(())
    }

    // Drops a file that is held.
    fn take_file<R: Rack>(&mut self, rack: &mut R, name: &str, place: u32) -> Result<(), VolError>
        requires held { slice_get (fin_map.keys self.old.shape.files) place ≡ Some name.now }
        requires fresh { self.old.log.spent ≡ false }
        ensures cause { HandsOn RackFault (R.faults rack.old) (R.faults rack.new) result }
        ensures honest { R.honest rack.new ≡ R.honest rack.old }
        ensures volume { Adds self.old self.new (DropFileRecord name.now) result }
        ensures dropped { R.honest rack.old ≡ true → AddsRecord R.moment R.left_since rack.old rack.new (R.disk rack.old) (R.disk rack.new) self.old self.new (DropFileRecord name.now) result }
    {
        let len = self.holding.file_name(place).len();
        self.reserve(0, 0, 1 + len)?;
        self.frame.set_drop_file(name);
        self.log.append(rack, &self.frame)?;
        self.holding.drop_file(place);
        Ok(())
    }

    // Drops a chunk that may be dropped.
    fn take_chunk<R: Rack>(&mut self, rack: &mut R, name: &[u8; 32]) -> Result<(), VolError>
        requires may { may_drop_chunk self.old.shape name.now ≡ true }
        requires fresh { self.old.log.spent ≡ false }
        ensures cause { HandsOn RackFault (R.faults rack.old) (R.faults rack.new) result }
        ensures honest { R.honest rack.new ≡ R.honest rack.old }
        ensures volume { Adds self.old self.new (DropChunkRecord name.now) result }
        ensures dropped { R.honest rack.old ≡ true → AddsRecord R.moment R.left_since rack.old rack.new (R.disk rack.old) (R.disk rack.new) self.old self.new (DropChunkRecord name.now) result }
    {
        self.reserve(0, 0, 33)?;
        self.frame.set_drop_chunk(name);
        self.log.append(rack, &self.frame)?;
        self.holding.drop_chunk(name);
        Ok(())
    }

    // Reads the bytes of a chunk that is held in the place of others.
    fn read_held<R: Rack>(
        &self,
        rack: &mut R,
        name: &[u8; 32],
        piece: &mut Vec<u8>,
    ) -> Result<(), VolError>
        requires { HoldsChunk self.now.shape name.now }
        ensures cause { HandsOn RackFault (R.faults rack.old) (R.faults rack.new) result }
        ensures honest { R.honest rack.new ≡ R.honest rack.old }
        ensures held { ReadsHeld self.now name.now piece.new.items result }
        ensures quiet { R.honest rack.old ≡ true → Quiet R.moment R.left_since rack.old rack.new (R.disk rack.old) (R.disk rack.new) }
        ensures bytes { (at len : ℕ) → R.honest rack.old ≡ true → fin_map.get self.now.places name.now ≡ Some at → fin_map.get self.now.shape.chunks name.now ≡ Some len
            → FindsPiece (R.disk rack.old self.now.log.device).image at len piece.new.items result }
    {
        let extent = self.holding.extent(name).unwrap();
        read_piece(rack, self.log.log(), extent, name, piece)
    }

    // Compares the bytes of a chunk that is held with others.
    fn compare_held<R: Rack>(
        &mut self,
        rack: &mut R,
        name: &[u8; 32],
        extent: Extent,
        bytes: &[u8],
    ) -> Result<(), VolError>
        requires name { name.now ≡ sha256 bytes.now }
        requires at { fin_map.get self.old.places name.now ≡ Some extent.at }
        requires len { fin_map.get self.old.shape.chunks name.now ≡ Some extent.len }
        ensures cause { HandsOn RackFault (R.faults rack.old) (R.faults rack.new) result }
        ensures honest { R.honest rack.new ≡ R.honest rack.old }
        ensures volume { Compares self.old self.new name.now bytes.now result }
        ensures quiet { R.honest rack.old ≡ true → Quiet R.moment R.left_since rack.old rack.new (R.disk rack.old) (R.disk rack.new) }
        ensures found { (place : ℕ) (volume : FormVolume) → R.honest rack.old ≡ true → VolumeStands place self.old (R.disk rack.old) volume → FindsHeld volume name.now bytes.now result }
    {
        match compare(rack, self.log.log(), extent, bytes) {
            Ok(compared) => judged(name, &compared),
            Err(LogError::Damage { .. }) => Err(VolError::Damage {
                device: self.log.device(),
                at: extent.at,
            }),
            Err(LogError::RackFault) => {
                self.log.spend();
                Err(VolError::RackFault)
            }
        }
    }

    // Makes room for a body.
    fn reserve_body(&mut self, body: usize) -> Result<(), NoMemory>
        requires { body ≤ 16777216 }
        ensures same { IsSame self.old self.new }
        ensures ok { OnOk result (body ≤ self.new.room.body) }
        ensures succeeds { body ≤ self.old.room.body → IsOk result }
    {
        if self.frame.longest() < body {
            self.frame = RecordFrame::room(self.alloc, body as u32)?;
        }
        Ok(())
    }
}

// What a comparison says of bytes under a name that is the digest of others.
fn judged(name: &[u8; 32], compared: &Compared) -> Result<(), VolError>
    ensures { JudgesHeld name.now compared.now result }
{
    if compared.is_same {
        return Ok(());
    }
    if compared.found == *name {
        return Err(VolError::Collision { name: *name });
    }
    Err(VolError::BadChunk {
        name: *name,
        found: compared.found,
    })
}
