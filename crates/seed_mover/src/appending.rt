// One record more.
ghost use Rattle.std.specs.Prelude.{◌≡◌, ◌≢◌, Err, IsSome, true, false};
ghost use Rattle.fault_count.specs.Counts.{HandsOn};
ghost use Rattle.site_forms.specs.declared.phase.Phase.TheVariants.{Idle};
ghost use Rattle.site_forms.specs.JournalRecords.JournalRecord.{BeginRecord};
ghost use Rattle.site_forms.specs.Names.{is_distinct};
ghost use Rattle.site_forms.specs.Phases.{phase_after};
ghost use Rattle.site_forms.specs.VolumeRecords.{IsVolumeRecord};
ghost use Rattle.site_forms.specs.Volumes.{shape_after};
ghost use Rattle.chunk_volume.specs.declared.errors.VolError.TheVariants.{RackFault as VolumeFault};
ghost use Rattle.chunk_volume.specs.Adding.{Adds, AddsRecord};
ghost use Rattle.move_journal.specs.declared.errors.JournalError.TheVariants.{RackFault as JournalFault, Memory as JournalMemory};
ghost use Rattle.move_journal.specs.Marking.{Marks, AddsMark};
ghost use Rattle.site_core.specs.Events.{IsDigest, MayAppendTo};
ghost use Rattle.site_core.specs.Events.Append.{ToA, ToB, ToJournal};
ghost use Rattle.seed_mover.specs.declared.errors.SiteError.TheVariants.{RackFault, Memory};
ghost use Rattle.site_runs.specs.Runs.{AddsTo};
ghost use Rattle.site_runs.specs.SiteValues.{shapes_in};
ghost use Rattle.seed_mover.specs.Appending.{AppendsOne};
ghost use Rattle.seed_mover.specs.Errors.{refuses};
ghost use Rattle.seed_mover.specs.Entries.{NotesJournal, NotesVolume, append_to, record_of, record_of_mark, without_value};

use crate::entries::{Entry, Mark, Side};
use crate::errors::SiteError;
use crate::site::Site;
use chunk_volume::{VolError, Volume};
use move_journal::{Journal, JournalError, Names};
use site_core::Cursor;
use volume_disk::Rack;

// Adds a record that folds to a volume that is not spent.
fn add_entry<R: Rack>(volume: &mut Volume, rack: &mut R, entry: Entry<'_>) -> Result<(), VolError>
    requires fresh { volume.old.log.spent ≡ false }
    requires folds { IsSome (shape_after volume.old.shape (record_of entry)) }
    requires spelled { IsVolumeRecord (record_of entry) }
    requires digest { IsDigest (record_of entry) }
    ensures cause { HandsOn VolumeFault (R.faults rack.old) (R.faults rack.new) result }
    ensures honest { R.honest rack.new ≡ R.honest rack.old }
    ensures volume { Adds volume.old volume.new (record_of entry.entry) result }
    ensures added { R.honest rack.old ≡ true → AddsRecord R.moment R.left_since rack.old rack.new (R.disk rack.old) (R.disk rack.new) volume.old volume.new (record_of entry.entry) result }
{
    match entry {
        Entry::Chunk(name, bytes) => added(volume.put_chunk(rack, name, bytes)),
        Entry::File(name, chunks) => volume.put_file(rack, name, chunks),
        Entry::DropFile(name) => volume.drop_file(rack, name),
        Entry::DropChunk(name) => volume.drop_chunk(rack, name),
    }
}

// What is answered where a chunk was lacking.
fn added(done: Result<bool, VolError>) -> Result<(), VolError>
    ensures { result ≡ without_value done }
{
    match done {
        Ok(_) => Ok(()),
        Err(error) => Err(error),
    }
}

// Adds a mark that folds to a journal that is not spent.
fn add_mark<R: Rack>(journal: &mut Journal, rack: &mut R, mark: Mark) -> Result<(), JournalError>
    requires fresh { journal.old.log.spent ≡ false }
    requires folds { IsSome (phase_after journal.old.phase (record_of_mark mark)) }
    ensures cause { HandsOn JournalFault (R.faults rack.old) (R.faults rack.new) result }
    ensures honest { R.honest rack.new ≡ R.honest rack.old }
    ensures journal { Marks journal.old journal.new (record_of_mark mark) result }
    ensures memory { result ≢ Err JournalMemory }
    ensures added { R.honest rack.old ≡ true → AddsMark R.moment R.left_since rack.old rack.new (R.disk rack.old) (R.disk rack.new) journal.old journal.new (record_of_mark mark) result }
{
    match mark {
        Mark::Moved => journal.moved(rack),
        Mark::UndoBegin => journal.undo_begin(rack),
        Mark::Undone => journal.undone(rack),
        Mark::Accepted => journal.accepted(rack),
    }
}

/// What a site answers for a volume, and whether it is spent.
pub(crate) fn note_volume(done: Result<(), VolError>, spent: &mut bool) -> Result<(), SiteError>
    requires { spent.old ≡ false }
    ensures { NotesVolume spent.new done result }
{
    match done {
        Ok(()) => Ok(()),
        Err(VolError::RackFault) => {
            *spent = true;
            Err(SiteError::RackFault)
        }
        Err(error) => Err(SiteError::from(error)),
    }
}

// What a site answers for its journal, and whether it is spent.
fn note_journal(done: Result<(), JournalError>, spent: &mut bool) -> Result<(), SiteError>
    requires { spent.old ≡ false }
    ensures { NotesJournal spent.new done result }
{
    match done {
        Ok(()) => Ok(()),
        Err(JournalError::RackFault) => {
            *spent = true;
            Err(SiteError::RackFault)
        }
        Err(error) => Err(SiteError::from(error)),
    }
}

impl Site {
    /// Adds a record to a volume of a site that is not spent.
    pub(crate) fn record<R: Rack>(
        &mut self,
        rack: &mut R,
        side: Side,
        entry: Entry<'_>,
    ) -> Result<(), SiteError>
        requires fresh { self.old.spent ≡ false }
        requires may { MayAppendTo (shapes_in self.old) (append_to side (record_of entry)) }
        requires digest { IsDigest (record_of entry) }
        ensures cause { HandsOn RackFault (R.faults rack.old) (R.faults rack.new) result }
        ensures honest { R.honest rack.new ≡ R.honest rack.old }
        ensures appends { AppendsOne self.old self.new (append_to side (record_of entry.entry)) result }
        ensures adds { R.honest rack.old ≡ true → AddsTo R.disk R.moment R.left_since refuses rack.old rack.new self.old self.new (append_to side (record_of entry.entry)) result }
    {
        match side {
            Side::A => self.record_a(rack, entry),
            Side::B => self.record_b(rack, entry),
        }
    }

    // Adds a record to A.
    fn record_a<R: Rack>(&mut self, rack: &mut R, entry: Entry<'_>) -> Result<(), SiteError>
        requires fresh { self.old.spent ≡ false }
        requires may { MayAppendTo (shapes_in self.old) (ToA (record_of entry)) }
        requires digest { IsDigest (record_of entry) }
        ensures cause { HandsOn RackFault (R.faults rack.old) (R.faults rack.new) result }
        ensures honest { R.honest rack.new ≡ R.honest rack.old }
        ensures appends { AppendsOne self.old self.new (ToA (record_of entry.entry)) result }
        ensures adds { R.honest rack.old ≡ true → AddsTo R.disk R.moment R.left_since refuses rack.old rack.new self.old self.new (ToA (record_of entry.entry)) result }
    {
        let done = add_entry(&mut self.a, rack, entry);
        note_volume(done, &mut self.spent)
    }

    // Adds a record to B.
    fn record_b<R: Rack>(&mut self, rack: &mut R, entry: Entry<'_>) -> Result<(), SiteError>
        requires fresh { self.old.spent ≡ false }
        requires may { MayAppendTo (shapes_in self.old) (ToB (record_of entry)) }
        requires digest { IsDigest (record_of entry) }
        ensures cause { HandsOn RackFault (R.faults rack.old) (R.faults rack.new) result }
        ensures honest { R.honest rack.new ≡ R.honest rack.old }
        ensures appends { AppendsOne self.old self.new (ToB (record_of entry.entry)) result }
        ensures adds { R.honest rack.old ≡ true → AddsTo R.disk R.moment R.left_since refuses rack.old rack.new self.old self.new (ToB (record_of entry.entry)) result }
    {
        let done = add_entry(&mut self.b, rack, entry);
        note_volume(done, &mut self.spent)
    }

    /// Adds a mark to the journal of a site that is not spent.
    pub(crate) fn mark<R: Rack>(&mut self, rack: &mut R, mark: Mark) -> Result<(), SiteError>
        requires fresh { self.old.spent ≡ false }
        requires may { MayAppendTo (shapes_in self.old) (ToJournal (record_of_mark mark)) }
        ensures cause { HandsOn RackFault (R.faults rack.old) (R.faults rack.new) result }
        ensures honest { R.honest rack.new ≡ R.honest rack.old }
        ensures appends { AppendsOne self.old self.new (ToJournal (record_of_mark mark)) result }
        ensures memory { result ≢ Err Memory }
        ensures adds { R.honest rack.old ≡ true → AddsTo R.disk R.moment R.left_since refuses rack.old rack.new self.old self.new (ToJournal (record_of_mark mark)) result }
    {
        let done = add_mark(&mut self.journal, rack, mark);
        self.cursor = Cursor::start();
        note_journal(done, &mut self.spent)
    }

    /// Records that named files begin to move, on a site that is not spent.
    pub(crate) fn mark_begin<R: Rack>(
        &mut self,
        rack: &mut R,
        names: Names,
    ) -> Result<(), SiteError>
        requires fresh { self.old.spent ≡ false }
        requires idle { self.old.journal.phase ≡ Idle }
        requires distinct { is_distinct names ≡ true }
        requires may { MayAppendTo (shapes_in self.old) (ToJournal (BeginRecord names)) }
        ensures cause { HandsOn RackFault (R.faults rack.old) (R.faults rack.new) result }
        ensures honest { R.honest rack.new ≡ R.honest rack.old }
        ensures appends { AppendsOne self.old self.new (ToJournal (BeginRecord names)) result }
        ensures adds { R.honest rack.old ≡ true → AddsTo R.disk R.moment R.left_since refuses rack.old rack.new self.old self.new (ToJournal (BeginRecord names)) result }
    {
        let done = self.journal.begin(rack, names);
        self.cursor = Cursor::start();
        note_journal(done, &mut self.spent)
    }
}
