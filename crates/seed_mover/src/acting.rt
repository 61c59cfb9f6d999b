// Carrying out one action.
ghost use Rattle.std.specs.Prelude.{◌≡◌, ◌<◌, true, false, length, IfOk};
ghost use Rattle.std.specs.String.{string_bytes};
ghost use Rattle.fault_count.specs.Counts.{HandsOn};
ghost use Rattle.site_forms.specs.Phases.{names_of};
ghost use Rattle.site_forms.specs.Views.{State};
ghost use Rattle.site_core.specs.Events.{named};
ghost use Rattle.site_core.specs.Lasting.{IsFoldedSite};
ghost use Rattle.site_core.specs.Steps.{list_of};
ghost use Rattle.site_runs.specs.SiteValues.{SiteStands};
ghost use Rattle.seed_mover.specs.declared.errors.SiteError.TheVariants.{RackFault};
ghost use Rattle.seed_mover.specs.Acting.{Carries, CarriesOn, IsNext, add_to, copy_to, drop_chunk_from, drop_from, end_at, source_of};
ghost use Rattle.seed_mover.specs.Moving.{IsOnTheWay};

use crate::appending::note_volume;
use crate::entries::{Entry, Mark, Side};
use crate::errors::SiteError;
use crate::site::Site;
use chunk_volume::{Holding, Volume};
use move_journal::Phase;
use seed_model::NoMemory;
use site_core::{Action, SiteState, next_from};
use std::alloc::Global;
use volume_disk::Rack;

impl Site {
    /// The next action.
    pub(crate) fn next(&mut self) -> Action
        requires { IsOnTheWay self.old.journal.phase }
        ensures same { self.new ≡ self.old }
        ensures next { IsNext self.old result }
    {
        let state = SiteState {
            a: self.a.holding(),
            b: self.b.holding(),
            phase: self.journal.phase(),
        };
        let next = next_from(&state, &mut self.cursor);
        let SiteState {
            a: _,
            b: _,
            phase: _,
        } = state;
        next.unwrap()
    }

    /// Carries out the next action of a site that is not spent.
    pub(crate) fn carry_out<R: Rack>(
        &mut self,
        rack: &mut R,
        action: Action,
    ) -> Result<(), SiteError>
        requires fresh { self.old.spent ≡ false }
        requires next { IsNext self.old action }
        ensures cause { HandsOn RackFault (R.faults rack.old) (R.faults rack.new) result }
        ensures honest { R.honest rack.new ≡ R.honest rack.old }
        ensures carries { Carries self.old self.new action result }
        ensures carried { (s : State) → R.honest rack.old ≡ true → SiteStands self.old (R.disk rack.old) s → IsFoldedSite s → CarriesOn R.disk R.moment R.left_since rack.old rack.new self.old self.new s action result }
    {
        match action {
            Action::CopyToB(chunk) => self.copy(rack, Side::B, &chunk),
            Action::AddToB(place) => self.add(rack, Side::B, place),
            Action::DropFromA(place) => self.drop_at(rack, Side::A, place),
            Action::DropChunkA(chunk) => self.drop_next(rack, Side::A, &chunk),
            Action::Moved => self.finish(rack, Side::B),
            Action::CopyToA(chunk) => self.copy(rack, Side::A, &chunk),
            Action::AddToA(place) => self.add(rack, Side::A, place),
            Action::DropFromB(place) => self.drop_at(rack, Side::B, place),
            Action::DropChunkB(chunk) => self.drop_next(rack, Side::B, &chunk),
            Action::Undone => self.finish(rack, Side::A),
        }
    }

    // Copies a chunk to a volume from the other one.
    fn copy<R: Rack>(&mut self, rack: &mut R, side: Side, chunk: &[u8; 32]) -> Result<(), SiteError>
        requires fresh { self.old.spent ≡ false }
        requires next { IsNext self.old (copy_to side chunk.now) }
        ensures cause { HandsOn RackFault (R.faults rack.old) (R.faults rack.new) result }
        ensures honest { R.honest rack.new ≡ R.honest rack.old }
        ensures carries { Carries self.old self.new (copy_to side chunk.now) result }
        ensures carried { (s : State) → R.honest rack.old ≡ true → SiteStands self.old (R.disk rack.old) s → IsFoldedSite s → CarriesOn R.disk R.moment R.left_since rack.old rack.new self.old self.new s (copy_to side chunk.now) result }
    {
        match self.source(side).read_chunk(rack, chunk) {
            Ok(bytes) => self.record(rack, side, Entry::Chunk(chunk, bytes.as_slice())),
            Err(error) => note_volume(Err(error), &mut self.spent),
        }
    }

    // Adds a file to a volume from the other one.
    fn add<R: Rack>(&mut self, rack: &mut R, side: Side, place: u32) -> Result<(), SiteError>
        requires fresh { self.old.spent ≡ false }
        requires next { IsNext self.old (add_to side place) }
        ensures cause { HandsOn RackFault (R.faults rack.old) (R.faults rack.new) result }
        ensures honest { R.honest rack.new ≡ R.honest rack.old }
        ensures carries { Carries self.old self.new (add_to side place) result }
        ensures carried { (s : State) → R.honest rack.old ≡ true → SiteStands self.old (R.disk rack.old) s → IsFoldedSite s → CarriesOn R.disk R.moment R.left_since rack.old rack.new self.old self.new s (add_to side place) result }
    {
        let Ok(name) = name_at(self.alloc, self.journal.phase(), place) else {
            return Err(SiteError::Memory);
        };
        let Ok(chunks) = list_in(self.alloc, self.source(side).holding(), name.as_str()) else {
            return Err(SiteError::Memory);
        };
        self.record(rack, side, Entry::File(name, chunks))
    }

    // Drops a file from a volume.
    fn drop_at<R: Rack>(&mut self, rack: &mut R, side: Side, place: u32) -> Result<(), SiteError>
        requires fresh { self.old.spent ≡ false }
        requires next { IsNext self.old (drop_from side place) }
        ensures cause { HandsOn RackFault (R.faults rack.old) (R.faults rack.new) result }
        ensures honest { R.honest rack.new ≡ R.honest rack.old }
        ensures carries { Carries self.old self.new (drop_from side place) result }
        ensures carried { (s : State) → R.honest rack.old ≡ true → SiteStands self.old (R.disk rack.old) s → IsFoldedSite s → CarriesOn R.disk R.moment R.left_since rack.old rack.new self.old self.new s (drop_from side place) result }
    {
        let Ok(name) = name_at(self.alloc, self.journal.phase(), place) else {
            return Err(SiteError::Memory);
        };
        self.record(rack, side, Entry::DropFile(name.as_str()))
    }

    // Drops a chunk from a volume.
    fn drop_next<R: Rack>(
        &mut self,
        rack: &mut R,
        side: Side,
        chunk: &[u8; 32],
    ) -> Result<(), SiteError>
        requires fresh { self.old.spent ≡ false }
        requires next { IsNext self.old (drop_chunk_from side chunk.now) }
        ensures cause { HandsOn RackFault (R.faults rack.old) (R.faults rack.new) result }
        ensures honest { R.honest rack.new ≡ R.honest rack.old }
        ensures carries { Carries self.old self.new (drop_chunk_from side chunk.now) result }
        ensures carried { (s : State) → R.honest rack.old ≡ true → SiteStands self.old (R.disk rack.old) s → IsFoldedSite s → CarriesOn R.disk R.moment R.left_since rack.old rack.new self.old self.new s (drop_chunk_from side chunk.now) result }
    {
        self.record(rack, side, Entry::DropChunk(chunk))
    }

    // Records that all files are at their side: that they have moved to B, or are back in A.
    fn finish<R: Rack>(&mut self, rack: &mut R, side: Side) -> Result<(), SiteError>
        requires fresh { self.old.spent ≡ false }
        requires next { IsNext self.old (end_at side) }
        ensures cause { HandsOn RackFault (R.faults rack.old) (R.faults rack.new) result }
        ensures honest { R.honest rack.new ≡ R.honest rack.old }
        ensures carries { Carries self.old self.new (end_at side) result }
        ensures carried { (s : State) → R.honest rack.old ≡ true → SiteStands self.old (R.disk rack.old) s → IsFoldedSite s → CarriesOn R.disk R.moment R.left_since rack.old rack.new self.old self.new s (end_at side) result }
    {
        match side {
            Side::A => self.mark(rack, Mark::Undone),
            Side::B => self.mark(rack, Mark::Moved),
        }
    }

    // The volume that a side gets files from.
    fn source(&self, side: Side) -> &Volume
        ensures { result.now ≡ source_of side self.now }
    {
        match side {
            Side::A => &self.b,
            Side::B => &self.a,
        }
    }
}

// A copy of a name of a phase.
fn name_at(alloc: Global, phase: &Phase, place: u32) -> Result<String, NoMemory>
    requires { place < length (names_of phase.now) }
    ensures { IfOk result (λ name. string_bytes name ≡ named phase.now place) }
{
    match phase {
        Phase::Idle => unreachable!(),
        Phase::Moving(names) => copy_of(alloc, names.get(place)),
        Phase::Moved(names) => copy_of(alloc, names.get(place)),
        Phase::Undoing(names) => copy_of(alloc, names.get(place)),
    }
}

// A copy of a text.
fn copy_of(alloc: Global, text: &str) -> Result<String, NoMemory>
    ensures { IfOk result (λ copy. string_bytes copy ≡ text.now) }
{
    let copy = String::from_str(alloc, text)?;
    Ok(copy)
}

// A copy of the chunks of a file; no chunks where it is lacking.
fn list_in(alloc: Global, holding: &Holding, name: &str) -> Result<Vec<[u8; 32]>, NoMemory>
    ensures { IfOk result (λ list. list.items ≡ list_of holding.now.shape name.now) }
{
    match holding.find(name) {
        Some(place) => copy_list(alloc, holding.file_chunks(place)),
        None => Ok(Vec::new(alloc)),
    }
}

// A copy of a list of chunks.
fn copy_list(alloc: Global, list: &[[u8; 32]]) -> Result<Vec<[u8; 32]>, NoMemory>
    ensures { IfOk result (λ copy. copy.items ≡ list.now) }
{
    let mut copy = Vec::new(alloc);
    copy.extend_from_slice(list)?;
    Ok(copy)
}
