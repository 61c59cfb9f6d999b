// Migrations that begin.
ghost use Rattle.std.specs.Prelude.{◌≡◌, ◌↔◌, ◌*◌, ◌≤◌, true, false, length, Ok};
ghost use Rattle.std.specs.List.{flat_map};
ghost use Rattle.fault_count.specs.Counts.{HandsOn};
ghost use Rattle.site_forms.specs.JournalRecords.{journal_body, measured_name};
ghost use Rattle.site_forms.specs.JournalRecords.JournalRecord.{BeginRecord};
ghost use Rattle.site_forms.specs.Names.{is_distinct};
ghost use Rattle.site_forms.specs.declared.phase.Phase.TheVariants.{Idle};
ghost use Rattle.site_forms.specs.Sites.{HoldsAllNames};
ghost use Rattle.site_forms.specs.Views.{State};
ghost use Rattle.site_core.specs.Events.{shapes_of};
ghost use Rattle.site_core.specs.Lasting.{IsFoldedSite};
ghost use Rattle.site_runs.specs.Runs.{RunsFront};
ghost use Rattle.seed_mover.specs.declared.errors.SiteError.TheVariants.{RackFault};
ghost use Rattle.seed_mover.specs.Errors.{refuses};
ghost use Rattle.seed_mover.specs.Beginning.{Begins, IsReady, JudgesBegin, begin_plan};
ghost use Rattle.seed_mover.specs.BeginParts.{DropsAllUnused, HasRoomToBegin, ReadiesBegin, RunsBegin, all_unused};
ghost use Rattle.site_runs.specs.SiteValues.{shapes_in, SiteStands};

use crate::entries::Side;
use crate::errors::SiteError;
use crate::site::Site;
use chunk_volume::Holding;
use move_journal::{Names, Phase};
use volume_disk::Rack;

impl Site {
    /// Whether a migration may begin: none is open, and B holds no file. Takes no memory.
    pub fn may_begin(&self) -> Result<(), SiteError>
        ensures { JudgesBegin self.now result }
    {
        match self.journal.phase() {
            Phase::Idle => {}
            _ => return Err(SiteError::MigrationOpen),
        }
        if self.b.holding().file_count() > 0 {
            return Err(SiteError::TargetNotEmpty);
        }
        Ok(())
    }

    /// Drops the chunks of A and of B that no file uses, and records that the named files of A begin to move to B. A device
    /// that is too full shows after the records that have room.
    pub fn begin<R: Rack>(&mut self, rack: &mut R, names: Names) -> Result<(), SiteError>
        requires { is_distinct names ≡ true }
        ensures cause { HandsOn RackFault (R.faults rack.old) (R.faults rack.new) result }
        ensures honest { R.honest rack.new ≡ R.honest rack.old }
        ensures begins { Begins self.old self.new names result }
        ensures runs { (s : State) → R.honest rack.old ≡ true → SiteStands self.old (R.disk rack.old) s → IsFoldedSite s → RunsFront R.disk R.moment R.left_since refuses rack.old rack.new self.old self.new s (begin_plan (shapes_of s) names) result }
    {
        match self.ready_to_begin(&names) {
            Ok(()) => self.begin_with(rack, names),
            Err(error) => Err(error),
        }
    }

    // Whether a migration of these files may begin; then there is room for its records.
    fn ready_to_begin(&mut self, names: &Names) -> Result<(), SiteError>
        ensures { ReadiesBegin self.old self.new names.now result }
    {
        if self.spent {
            return Err(SiteError::Spent);
        }
        match self.may_begin() {
            Ok(()) => self.reserve_begin(names),
            Err(error) => Err(error),
        }
    }

    // Makes room for the records of a migration of these files, where A holds them all.
    fn reserve_begin(&mut self, names: &Names) -> Result<(), SiteError>
        requires fresh { self.old.spent ≡ false }
        requires may { JudgesBegin self.old (Ok tt) }
        ensures { ReadiesBegin self.old self.new names.now result }
    {
        if !holds_names(self.a.holding(), names) {
            return Err(SiteError::NoSuchFile);
        }
        self.a.reserve(0, 0, 33)?;
        self.b.reserve(0, 0, 33)?;
        self.journal.reserve(begin_len(names))?;
        Ok(())
    }

    // Begins a migration for which all is ready.
    fn begin_with<R: Rack>(&mut self, rack: &mut R, names: Names) -> Result<(), SiteError>
        requires ready { IsReady self.old names }
        requires distinct { is_distinct names ≡ true }
        requires room { HasRoomToBegin self.old names }
        ensures cause { HandsOn RackFault (R.faults rack.old) (R.faults rack.new) result }
        ensures honest { R.honest rack.new ≡ R.honest rack.old }
        ensures begins { RunsBegin self.old self.new names result }
        ensures begun { (s : State) → R.honest rack.old ≡ true → SiteStands self.old (R.disk rack.old) s → IsFoldedSite s → RunsFront R.disk R.moment R.left_since refuses rack.old rack.new self.old self.new s (begin_plan (shapes_in self.old) names) result }
    {
        let _count = names.len();
        match self.drop_all_unused(rack) {
            Ok(()) => self.mark_begin(rack, names),
            Err(error) => Err(error),
        }
    }

    // Drops the unused chunks of A, and then those of B.
    fn drop_all_unused<R: Rack>(&mut self, rack: &mut R) -> Result<(), SiteError>
        requires fresh { self.old.spent ≡ false }
        requires idle { self.old.journal.phase ≡ Idle }
        requires room_a { 33 ≤ self.old.a.room.body }
        requires room_b { 33 ≤ self.old.b.room.body }
        ensures cause { HandsOn RackFault (R.faults rack.old) (R.faults rack.new) result }
        ensures honest { R.honest rack.new ≡ R.honest rack.old }
        ensures drops { DropsAllUnused self.old self.new result }
        ensures dropped { (s : State) → R.honest rack.old ≡ true → SiteStands self.old (R.disk rack.old) s → IsFoldedSite s → RunsFront R.disk R.moment R.left_since refuses rack.old rack.new self.old self.new s (all_unused self.old) result }
    {
        match self.drop_unused(rack, Side::A) {
            Ok(()) => self.drop_unused(rack, Side::B),
            Err(error) => Err(error),
        }
    }
}

// Whether a volume holds all names.
fn holds_names(holding: &Holding, names: &Names) -> bool
    ensures { (result ≡ true) ↔ HoldsAllNames holding.now.shape names.now }
{
    for place in 0..names.len() {
        if holding.find(names.get(place)).is_none() {
            return false;
        }
    }
    true
}

// How long the record is that begins a migration of named files.
fn begin_len(names: &Names) -> usize
    ensures len { result ≡ length (journal_body (BeginRecord names.now)) }
    ensures some { 1 ≤ result }
    ensures most { result ≤ 16777216 }
{
    1 + names_len(names)
}

// How many bytes names take, each behind its length.
fn names_len(names: &Names) -> usize
    ensures len { result ≡ length (flat_map measured_name names.now) }
    ensures most { result ≤ 256 * 16383 }
{
    let mut len = 0;
    for place in 0..names.len() {
        len += 1 + names.get(place).len();
    }
    len
}
