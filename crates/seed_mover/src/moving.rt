// The calls that move a migration on.
ghost use Rattle.std.specs.Prelude.{◌≡◌, ◌⊎◌, ◌≤◌, true, false, IfOk};
ghost use Rattle.fault_count.specs.Counts.{HandsOn};
ghost use Rattle.site_forms.specs.JournalRecords.JournalRecord.{UndoBeginRecord, AcceptedRecord};
ghost use Rattle.site_forms.specs.Views.{State};
ghost use Rattle.site_core.specs.Lasting.{IsFoldedSite};
ghost use Rattle.site_runs.specs.Runs.{ActsUpTo, Runs};
ghost use Rattle.site_runs.specs.SiteValues.{SiteStands};
ghost use Rattle.seed_mover.specs.declared.errors.SiteError.TheVariants.{RackFault};
ghost use Rattle.seed_mover.specs.Errors.{refuses};
ghost use Rattle.seed_mover.specs.ManyActions.{ActsMany, FindsNoDamage, left_in};
ghost use Rattle.seed_mover.specs.Moving.{Accepts, Acts, ActsOn, IsMoved, IsMoving, IsOnTheWay, Marks, mark_plan};

use crate::entries::Mark;
use crate::errors::SiteError;
use crate::site::Site;
use move_journal::Phase;
use site_core::Action;
use volume_disk::Rack;

impl Site {
    /// Carries out the next action, while files are on the way, forth or back: one record.
    pub fn act<R: Rack>(&mut self, rack: &mut R) -> Result<Action, SiteError>
        requires { IsOnTheWay self.old.journal.phase }
        ensures cause { HandsOn RackFault (R.faults rack.old) (R.faults rack.new) result }
        ensures honest { R.honest rack.new ≡ R.honest rack.old }
        ensures acts { Acts self.old self.new result }
        ensures runs { (s : State) → R.honest rack.old ≡ true → SiteStands self.old (R.disk rack.old) s → IsFoldedSite s → ActsOn R.disk R.moment R.left_since rack.old rack.new self.old self.new s result }
    {
        if self.spent {
            return Err(SiteError::Spent);
        }
        let action = self.next();
        match self.carry_out(rack, action) {
            Ok(()) => Ok(action),
            Err(error) => Err(error),
        }
    }

    /// Carries out next actions, one after the other, at most `count`, and answers how many: fewer only where no file is on
    /// the way any more. As many as are left come to that end; they are fewer than 2^22. An error comes behind the actions
    /// that were done before it.
    pub fn act_up_to<R: Rack>(&mut self, rack: &mut R, count: u32) -> Result<u32, SiteError>
        ensures cause { HandsOn RackFault (R.faults rack.old) (R.faults rack.new) result }
        ensures honest { R.honest rack.new ≡ R.honest rack.old }
        ensures acts { ActsMany self.old self.new count result }
        ensures ends { left_in self.old ≤ count → IfOk result (λ n. ¬ IsOnTheWay self.new.journal.phase) }
        ensures runs { (s : State) → R.honest rack.old ≡ true → SiteStands self.old (R.disk rack.old) s → IsFoldedSite s → ActsUpTo R.disk R.moment R.left_since refuses rack.old rack.new self.old self.new s count result }
        ensures finds { (s : State) → R.honest rack.old ≡ true → SiteStands self.old (R.disk rack.old) s → IsFoldedSite s → FindsNoDamage result }
    {
        if self.spent {
            return Err(SiteError::Spent);
        }
        'actions: for done in 0..count {
            if !is_on_the_way(self.phase()) {
                return Ok(done);
            }
            match self.act(rack) {
                Ok(_) => {}
                Err(error) => return Err(error),
            }
        }
        Ok(count)
    }

    /// Records that a migration stays as it ended: none is open, and no file changes its volume. Takes no memory.
    pub fn accept<R: Rack>(&mut self, rack: &mut R) -> Result<(), SiteError>
        ensures cause { HandsOn RackFault (R.faults rack.old) (R.faults rack.new) result }
        ensures honest { R.honest rack.new ≡ R.honest rack.old }
        ensures accepts { Accepts self.old self.new result }
        ensures runs { (s : State) → R.honest rack.old ≡ true → SiteStands self.old (R.disk rack.old) s → IsFoldedSite s → Runs R.disk R.moment R.left_since refuses rack.old rack.new self.old self.new s (mark_plan AcceptedRecord) result }
    {
        if self.spent {
            return Err(SiteError::Spent);
        }
        match self.journal.phase() {
            Phase::Moved(_) => self.mark(rack, Mark::Accepted),
            _ => Err(SiteError::NotMoved),
        }
    }

    /// Records that the named files begin to move back, where files are moving or have moved. Takes no memory.
    pub fn record_undo<R: Rack>(&mut self, rack: &mut R) -> Result<(), SiteError>
        requires { IsMoving self.old.journal.phase ⊎ IsMoved self.old.journal.phase }
        ensures cause { HandsOn RackFault (R.faults rack.old) (R.faults rack.new) result }
        ensures honest { R.honest rack.new ≡ R.honest rack.old }
        ensures marks { Marks self.old self.new UndoBeginRecord result }
        ensures runs { (s : State) → R.honest rack.old ≡ true → SiteStands self.old (R.disk rack.old) s → IsFoldedSite s → Runs R.disk R.moment R.left_since refuses rack.old rack.new self.old self.new s (mark_plan UndoBeginRecord) result }
    {
        if self.spent {
            return Err(SiteError::Spent);
        }
        self.mark(rack, Mark::UndoBegin)
    }
}

// Whether files are on the way, forth or back.
fn is_on_the_way(phase: &Phase) -> bool
    ensures yes { result ≡ true → IsOnTheWay phase.now }
    ensures other { result ≡ false → ¬ IsOnTheWay phase.now }
{
    match phase {
        Phase::Idle => false,
        Phase::Moving(_) => true,
        Phase::Moved(_) => false,
        Phase::Undoing(_) => true,
    }
}
