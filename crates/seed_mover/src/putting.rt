// Files that are put.
ghost use Rattle.std.specs.Prelude.{◌≡◌, ◌^◌, ◌≤◌, true, false, Ok, length, map};
ghost use Rattle.std.specs.FinMap as fin_map;
ghost use Rattle.std.specs.String.{string_bytes};
ghost use Rattle.fault_count.specs.Counts.{HandsOn};
ghost use Rattle.file_names.specs.FileNames.{IsFileName};
ghost use Rattle.sha2.specs.Sha256.{sha256};
ghost use Rattle.site_forms.specs.VolumeRecords.{IsChunk};
ghost use Rattle.site_forms.specs.declared.phase.Phase.TheVariants.{Idle};
ghost use Rattle.seed_mover.specs.declared.errors.SiteError.TheVariants.{RackFault};
ghost use Rattle.site_forms.specs.Views.{State};
ghost use Rattle.site_core.specs.Lasting.{IsFoldedSite};
ghost use Rattle.site_runs.specs.Runs.{AddsTo};
ghost use Rattle.site_runs.specs.SiteValues.{SiteStands, shapes_in};
ghost use Rattle.seed_mover.specs.Appending.{AppendsOne};
ghost use Rattle.seed_mover.specs.Errors.{refuses};
ghost use Rattle.seed_mover.specs.Plans.{AllFit, logs_in};
ghost use Rattle.seed_mover.specs.Putting.{AreEnds, IsWithin, JudgesPut, MayPut, Puts, PutsOn, blocks_of, even_ends, put_plan};
ghost use Rattle.seed_mover.specs.PutParts.{AddsAll, AddsChunks, FindsQuietly, HasRoomForChunks, HasRoomToPut, ReadiesPut, chunk_append, chunk_plan, is_fault};
ghost use Rattle.seed_mover.specs.Through.{RunsThrough};

mod blocks;
mod ready;

use crate::entries::{Entry, Side};
use crate::errors::SiteError;
use crate::site::Site;
use blocks::{block_at, even_cuts, names_of_blocks};
use chunk_volume::Holding;
use move_journal::Phase;
use ready::ready_volume;
use volume_disk::Rack;

impl Site {
    /// Whether a file may be put under a name: no migration is open, and neither volume holds it. Takes no memory.
    pub fn may_put(&self, name: &str) -> Result<(), SiteError>
        ensures { JudgesPut self.now name.now result }
    {
        match self.phase() {
            Phase::Idle => {}
            _ => return Err(SiteError::MigrationOpen),
        }
        if holds_file(self.a().holding(), name) || holds_file(self.b().holding(), name) {
            return Err(SiteError::Exists);
        }
        Ok(())
    }

    /// Puts a file into A, in blocks of 4,096 bytes. Answers the bytes of the chunks that were added.
    pub fn put<R: Rack>(&mut self, rack: &mut R, name: &str, bytes: &[u8]) -> Result<u64, SiteError>
        requires lawful { IsFileName name.now }
        requires size { length bytes.now ≤ 2 ^ 30 }
        ensures cause { HandsOn RackFault (R.faults rack.old) (R.faults rack.new) result }
        ensures honest { R.honest rack.new ≡ R.honest rack.old }
        ensures puts { Puts self.old self.new name.now (blocks_of bytes.now (even_ends (length bytes.now))) result }
        ensures put { (s : State) → R.honest rack.old ≡ true → SiteStands self.old (R.disk rack.old) s → IsFoldedSite s → PutsOn R.disk R.moment R.left_since rack.old rack.new self.old self.new name.now bytes.now (even_ends (length bytes.now)) s result }
    {
        if self.is_spent() {
            return Err(SiteError::Spent);
        }
        if let Err(error) = self.may_put(name) {
            return Err(error);
        }
        match even_cuts(self.alloc, bytes.len()) {
            Ok(ends) => self.put_lacking(rack, name, bytes, ends.as_slice()),
            Err(_) => Err(SiteError::Memory),
        }
    }

    /// Puts a file into A, in blocks that end at these places: the last one is the length, each block has 1 to 1,048,576
    /// bytes, and there are at most 524,279 of them. Answers the bytes of the chunks that were added.
    pub fn put_cut<R: Rack>(
        &mut self,
        rack: &mut R,
        name: &str,
        bytes: &[u8],
        ends: &[u64],
    ) -> Result<u64, SiteError>
        requires lawful { IsFileName name.now }
        requires size { length bytes.now ≤ 2 ^ 30 }
        requires ends { AreEnds 0 (length bytes.now) ends.now }
        requires few { length ends.now ≤ 524279 }
        ensures cause { HandsOn RackFault (R.faults rack.old) (R.faults rack.new) result }
        ensures honest { R.honest rack.new ≡ R.honest rack.old }
        ensures puts { Puts self.old self.new name.now (blocks_of bytes.now ends.now) result }
        ensures put { (s : State) → R.honest rack.old ≡ true → SiteStands self.old (R.disk rack.old) s → IsFoldedSite s → PutsOn R.disk R.moment R.left_since rack.old rack.new self.old self.new name.now bytes.now ends.now s result }
    {
        if self.is_spent() {
            return Err(SiteError::Spent);
        }
        if let Err(error) = self.may_put(name) {
            return Err(error);
        }
        self.put_lacking(rack, name, bytes, ends)
    }

    // Puts a file that may be put: each block is hashed once.
    fn put_lacking<R: Rack>(
        &mut self,
        rack: &mut R,
        name: &str,
        bytes: &[u8],
        ends: &[u64],
    ) -> Result<u64, SiteError>
        requires lawful { IsFileName name.now }
        requires size { length bytes.now ≤ 2 ^ 30 }
        requires ends { AreEnds 0 (length bytes.now) ends.now }
        requires few { length ends.now ≤ 524279 }
        requires may { MayPut self.old name.now }
        ensures cause { HandsOn RackFault (R.faults rack.old) (R.faults rack.new) result }
        ensures honest { R.honest rack.new ≡ R.honest rack.old }
        ensures puts { Puts self.old self.new name.now (blocks_of bytes.now ends.now) result }
        ensures put { (s : State) → R.honest rack.old ≡ true → SiteStands self.old (R.disk rack.old) s → IsFoldedSite s → PutsOn R.disk R.moment R.left_since rack.old rack.new self.old self.new name.now bytes.now ends.now s result }
    {
        match names_of_blocks(self.alloc, bytes, ends) {
            Ok(names) => self.put_blocks(rack, name, bytes, ends, names),
            Err(_) => Err(SiteError::Memory),
        }
    }

    // Puts a file whose blocks have these names. All that may be refused is refused before the first record.
    fn put_blocks<R: Rack>(
        &mut self,
        rack: &mut R,
        name: &str,
        bytes: &[u8],
        ends: &[u64],
        names: Vec<[u8; 32]>,
    ) -> Result<u64, SiteError>
        requires lawful { IsFileName name.now }
        requires size { length bytes.now ≤ 2 ^ 30 }
        requires ends { AreEnds 0 (length bytes.now) ends.now }
        requires few { length ends.now ≤ 524279 }
        requires may { MayPut self.old name.now }
        requires names { names.items ≡ map sha256 (blocks_of bytes.now ends.now) }
        ensures cause { HandsOn RackFault (R.faults rack.old) (R.faults rack.new) result }
        ensures honest { R.honest rack.new ≡ R.honest rack.old }
        ensures puts { Puts self.old self.new name.now (blocks_of bytes.now ends.now) result }
        ensures put { (s : State) → R.honest rack.old ≡ true → SiteStands self.old (R.disk rack.old) s → IsFoldedSite s → PutsOn R.disk R.moment R.left_since rack.old rack.new self.old self.new name.now bytes.now ends.now s result }
    {
        if let Err(error) = self.ready_to_put(rack, name, bytes, ends, names.as_slice()) {
            return Err(error);
        }
        let Ok(file) = String::from_str(self.alloc, name) else {
            return Err(SiteError::Memory);
        };
        let before = self.a().bytes();
        match self.add_all(rack, file, bytes, ends, names) {
            Ok(()) => Ok(self.a().bytes() - before),
            Err(error) => Err(error),
        }
    }

    // Judges all that may refuse a file, and makes room in memory for its records.
    fn ready_to_put<R: Rack>(
        &mut self,
        rack: &mut R,
        name: &str,
        bytes: &[u8],
        ends: &[u64],
        names: &[[u8; 32]],
    ) -> Result<(), SiteError>
        requires lawful { IsFileName name.now }
        requires ends { AreEnds 0 (length bytes.now) ends.now }
        requires few { length ends.now ≤ 524279 }
        requires may { MayPut self.old name.now }
        requires names { names.now ≡ map sha256 (blocks_of bytes.now ends.now) }
        ensures cause { HandsOn RackFault (R.faults rack.old) (R.faults rack.new) result }
        ensures honest { R.honest rack.new ≡ R.honest rack.old }
        ensures readies { ReadiesPut self.old self.new name.now (blocks_of bytes.now ends.now) result }
        ensures ready { R.honest rack.old ≡ true → FindsQuietly R.moment R.left_since rack.old rack.new (R.disk rack.old) (R.disk rack.new) self.old (blocks_of bytes.now ends.now) result }
    {
        let done = ready_volume(self.alloc, &mut self.a, rack, name, bytes, ends, names);
        note_ready(done, &mut self.spent)
    }

    // Adds the chunks that A lacks, and then the file, to a site with room for all of them.
    fn add_all<R: Rack>(
        &mut self,
        rack: &mut R,
        file: String,
        bytes: &[u8],
        ends: &[u64],
        names: Vec<[u8; 32]>,
    ) -> Result<(), SiteError>
        requires lawful { IsFileName (string_bytes file) }
        requires ends { AreEnds 0 (length bytes.now) ends.now }
        requires few { length ends.now ≤ 524279 }
        requires may { MayPut self.old (string_bytes file) }
        requires names { names.items ≡ map sha256 (blocks_of bytes.now ends.now) }
        requires within { IsWithin self.old.a.shape (string_bytes file) (blocks_of bytes.now ends.now) }
        requires fit { AllFit (logs_in self.old) (put_plan (shapes_in self.old) (string_bytes file) (blocks_of bytes.now ends.now)) }
        requires room { HasRoomToPut self.old.a (string_bytes file) (blocks_of bytes.now ends.now) }
        ensures cause { HandsOn RackFault (R.faults rack.old) (R.faults rack.new) result }
        ensures honest { R.honest rack.new ≡ R.honest rack.old }
        ensures adds { AddsAll self.old self.new (put_plan (shapes_in self.old) (string_bytes file) (blocks_of bytes.now ends.now)) result }
        ensures added { R.honest rack.old ≡ true → RunsThrough R.disk R.moment R.left_since rack.old rack.new self.old self.new (put_plan (shapes_in self.old) (string_bytes file) (blocks_of bytes.now ends.now)) result }
    {
        if let Err(error) = self.add_chunks(rack, bytes, ends, names.as_slice()) {
            return Err(error);
        }
        self.record(rack, Side::A, Entry::File(file, names))
    }

    // Adds the chunks that A lacks.
    fn add_chunks<R: Rack>(
        &mut self,
        rack: &mut R,
        bytes: &[u8],
        ends: &[u64],
        names: &[[u8; 32]],
    ) -> Result<(), SiteError>
        requires fresh { self.old.spent ≡ false }
        requires idle { self.old.journal.phase ≡ Idle }
        requires ends { AreEnds 0 (length bytes.now) ends.now }
        requires few { length ends.now ≤ 524279 }
        requires names { names.now ≡ map sha256 (blocks_of bytes.now ends.now) }
        requires fit { AllFit (logs_in self.old) (chunk_plan self.old.a.shape (blocks_of bytes.now ends.now)) }
        requires room { HasRoomForChunks self.old.a (blocks_of bytes.now ends.now) }
        ensures cause { HandsOn RackFault (R.faults rack.old) (R.faults rack.new) result }
        ensures honest { R.honest rack.new ≡ R.honest rack.old }
        ensures adds { AddsChunks self.old self.new (blocks_of bytes.now ends.now) result }
        ensures added { R.honest rack.old ≡ true → RunsThrough R.disk R.moment R.left_since rack.old rack.new self.old self.new (chunk_plan self.old.a.shape (blocks_of bytes.now ends.now)) result }
    {
        for block in 0..ends.len() {
            if let Err(error) = self.add_chunk(rack, &names[block], block_at(bytes, ends, block)) {
                return Err(error);
            }
        }
        Ok(())
    }

    // Adds a chunk where A lacks it.
    fn add_chunk<R: Rack>(
        &mut self,
        rack: &mut R,
        name: &[u8; 32],
        own: &[u8],
    ) -> Result<(), SiteError>
        requires fresh { self.old.spent ≡ false }
        requires idle { self.old.journal.phase ≡ Idle }
        requires name { name.now ≡ sha256 own.now }
        requires chunk { IsChunk own.now }
        ensures cause { HandsOn RackFault (R.faults rack.old) (R.faults rack.new) result }
        ensures honest { R.honest rack.new ≡ R.honest rack.old }
        ensures held { fin_map.contains_key self.old.a.shape.chunks (sha256 own.now) ≡ true → (result ≡ Ok tt) × (self.new ≡ self.old) × (rack.new ≡ rack.old) }
        ensures appends { fin_map.contains_key self.old.a.shape.chunks (sha256 own.now) ≡ false → AppendsOne self.old self.new (chunk_append own.now) result }
        ensures appended { fin_map.contains_key self.old.a.shape.chunks (sha256 own.now) ≡ false → R.honest rack.old ≡ true → AddsTo R.disk R.moment R.left_since refuses rack.old rack.new self.old self.new (chunk_append own.now) result }
    {
        if self.a().holding().chunk_len(name).is_some() {
            return Ok(());
        }
        self.record(rack, Side::A, Entry::Chunk(name, own))
    }
}

// Whether a volume holds a file.
fn holds_file(holding: &Holding, name: &str) -> bool
    ensures { result ≡ fin_map.contains_key holding.now.shape.files name.now }
{
    holding.find(name).is_some()
}

// What is answered before the first record, and whether the site is spent.
fn note_ready(done: Result<(), SiteError>, spent: &mut bool) -> Result<(), SiteError>
    requires { spent.old ≡ false }
    ensures same { result ≡ done }
    ensures spent { spent.new ≡ is_fault done }
{
    if let Err(SiteError::RackFault) = &done {
        *spent = true;
    }
    done
}
