// Files that are dropped.
ghost use Rattle.std.specs.Prelude.{◌≡◌, ◌+◌, ◌≤◌, true, false, length, OnOk};
ghost use Rattle.fault_count.specs.Counts.{HandsOn};
ghost use Rattle.site_forms.specs.declared.phase.Phase.TheVariants.{Idle};
ghost use Rattle.site_forms.specs.Sites.{HoldsFile};
ghost use Rattle.site_forms.specs.Views.{State};
ghost use Rattle.site_core.specs.Events.{shapes_of};
ghost use Rattle.site_core.specs.Lasting.{IsFoldedSite};
ghost use Rattle.site_runs.specs.Runs.{Runs, RunsFront};
ghost use Rattle.site_runs.specs.SiteValues.{SiteStands};
ghost use Rattle.seed_mover.specs.declared.errors.SiteError.TheVariants.{RackFault};
ghost use Rattle.seed_mover.specs.Entries.{on_side};
ghost use Rattle.seed_mover.specs.Errors.{refuses};
ghost use Rattle.seed_mover.specs.BeginParts.{RunsPlan};
ghost use Rattle.seed_mover.specs.DropParts.{DropsHeld, IsHolder, IsReadyToDrop, JudgesDrop, JudgesRoom, ReadiesDrop, drops_on};
ghost use Rattle.seed_mover.specs.Dropping.{Drops, drop_plan};
ghost use Rattle.seed_mover.specs.Running.{IsSameSite};

use crate::drop_room::judge_room;
use crate::entries::{Entry, Side};
use crate::errors::SiteError;
use crate::site::Site;
use move_journal::Phase;
use seed_model::NoMemory;
use volume_disk::Rack;

impl Site {
    /// Drops a file from A or B, and then that volume's chunks that no file uses. Answers the bytes of the chunks that were
    /// dropped.
    pub fn drop_name<R: Rack>(&mut self, rack: &mut R, name: &str) -> Result<u64, SiteError>
        ensures cause { HandsOn RackFault (R.faults rack.old) (R.faults rack.new) result }
        ensures honest { R.honest rack.new ≡ R.honest rack.old }
        ensures drops { Drops self.old self.new name.now result }
        ensures runs { (s : State) → R.honest rack.old ≡ true → SiteStands self.old (R.disk rack.old) s → IsFoldedSite s → Runs R.disk R.moment R.left_since refuses rack.old rack.new self.old self.new s (drop_plan (shapes_of s) name.now) result }
    {
        match self.ready_to_drop(name) {
            Ok(side) => self.drop_held(rack, side, name),
            Err(error) => Err(error),
        }
    }

    // From which volume a file may be dropped; then there is room for its records, on the device and in memory.
    fn ready_to_drop(&mut self, name: &str) -> Result<Side, SiteError>
        ensures { ReadiesDrop self.old self.new name.now result }
    {
        if self.spent {
            return Err(SiteError::Spent);
        }
        match self.may_drop(name) {
            Ok(side) => self.make_ready(side, name),
            Err(error) => Err(error),
        }
    }

    // Makes room in memory for the records of a file that a side holds, and judges that on its device.
    fn make_ready(&mut self, side: Side, name: &str) -> Result<Side, SiteError>
        requires fresh { self.old.spent ≡ false }
        requires idle { self.old.journal.phase ≡ Idle }
        requires holder { IsHolder side self.old name.now }
        ensures { ReadiesDrop self.old self.new name.now result }
    {
        match self.reserve_drop(side) {
            Ok(()) => {}
            Err(NoMemory) => return Err(SiteError::Memory),
        }
        match self.judge_drop(side, name) {
            Ok(()) => Ok(side),
            Err(error) => Err(error),
        }
    }

    // Whether the records of a file that a side holds have room on its device.
    fn judge_drop(&mut self, side: Side, name: &str) -> Result<(), SiteError>
        requires { HoldsFile (on_side side self.old).shape name.now }
        ensures same { self.new ≡ self.old }
        ensures room { JudgesRoom (on_side side self.old) name.now result }
    {
        match side {
            Side::A => judge_room(&mut self.a, name),
            Side::B => judge_room(&mut self.b, name),
        }
    }

    // From which volume a file may be dropped: A before B.
    fn may_drop(&self, name: &str) -> Result<Side, SiteError>
        ensures { JudgesDrop self.now name.now result }
    {
        match self.journal.phase() {
            Phase::Idle => {}
            _ => return Err(SiteError::MigrationOpen),
        }
        if self.a.holding().find(name).is_some() {
            return Ok(Side::A);
        }
        if self.b.holding().find(name).is_some() {
            return Ok(Side::B);
        }
        Err(SiteError::NoSuchFile)
    }

    // Makes room for the records of a drop.
    fn reserve_drop(&mut self, side: Side) -> Result<(), NoMemory>
        ensures same { IsSameSite self.old self.new }
        ensures room { OnOk result (256 ≤ (on_side side self.new).room.body) }
    {
        match side {
            Side::A => self.a.reserve(0, 0, 256),
            Side::B => self.b.reserve(0, 0, 256),
        }
    }

    // Drops a file for which all is ready, and then the chunks that no file uses. Answers their bytes.
    fn drop_held<R: Rack>(&mut self, rack: &mut R, side: Side, name: &str) -> Result<u64, SiteError>
        requires { IsReadyToDrop self.old side name.now }
        ensures cause { HandsOn RackFault (R.faults rack.old) (R.faults rack.new) result }
        ensures honest { R.honest rack.new ≡ R.honest rack.old }
        ensures drops { DropsHeld side self.old self.new name.now result }
        ensures runs { (s : State) → R.honest rack.old ≡ true → SiteStands self.old (R.disk rack.old) s → IsFoldedSite s → Runs R.disk R.moment R.left_since refuses rack.old rack.new self.old self.new s (drops_on side self.old name.now) result }
    {
        let before = self.volume(side).bytes();
        match self.drop_records(rack, side, name) {
            Ok(()) => Ok(before - self.volume(side).bytes()),
            Err(error) => Err(error),
        }
    }

    // Drops a file from a volume, and then the chunks that no file uses.
    fn drop_records<R: Rack>(
        &mut self,
        rack: &mut R,
        side: Side,
        name: &str,
    ) -> Result<(), SiteError>
        requires fresh { self.old.spent ≡ false }
        requires idle { self.old.journal.phase ≡ Idle }
        requires holder { IsHolder side self.old name.now }
        requires file_room { 1 + length name.now ≤ (on_side side self.old).room.body }
        requires chunk_room { 33 ≤ (on_side side self.old).room.body }
        ensures cause { HandsOn RackFault (R.faults rack.old) (R.faults rack.new) result }
        ensures honest { R.honest rack.new ≡ R.honest rack.old }
        ensures runs { RunsPlan self.old self.new (drops_on side self.old name.now) result }
        ensures dropped { (s : State) → R.honest rack.old ≡ true → SiteStands self.old (R.disk rack.old) s → IsFoldedSite s → RunsFront R.disk R.moment R.left_since refuses rack.old rack.new self.old self.new s (drops_on side self.old name.now) result }
    {
        match self.record(rack, side, Entry::DropFile(name)) {
            Ok(()) => self.drop_unused(rack, side),
            Err(error) => Err(error),
        }
    }
}
