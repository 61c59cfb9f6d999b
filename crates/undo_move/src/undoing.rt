// The calls that undo a migration.
ghost use Rattle.std.specs.Prelude.{◌≡◌, true};
ghost use Rattle.fault_count.specs.Counts.{HandsOn};
ghost use Rattle.site_forms.specs.Views.{State};
ghost use Rattle.site_core.specs.Lasting.{IsFoldedSite};
ghost use Rattle.site_runs.specs.Runs.{Runs};
ghost use Rattle.site_runs.specs.SiteValues.{SiteStands};
ghost use Rattle.seed_mover.specs.declared.errors.SiteError.TheVariants.{RackFault};
ghost use Rattle.seed_mover.specs.Errors.{refuses};
ghost use Rattle.seed_mover.specs.Moving.{ActsOn};
ghost use Rattle.undo_move.specs.Undoing.{BeginsUndo, IsLeft, UndoSteps, undo_plan};

use seed_mover::{Action, Phase, Site, SiteError};
use volume_disk::Rack;

/// Begins to undo a migration, where files are moving or have moved: one record. Where they are moving back already,
/// nothing is done. Answers `NothingOpen` where no migration is open. Takes no memory.
pub fn begin_undo<R: Rack>(site: &mut Site, rack: &mut R) -> Result<(), SiteError>
    ensures cause { HandsOn RackFault (R.faults rack.old) (R.faults rack.new) result }
    ensures honest { R.honest rack.new ≡ R.honest rack.old }
    ensures begins { BeginsUndo site.old site.new result }
    ensures alone { IsLeft site.old → rack.new ≡ rack.old }
    ensures runs { (s : State) → R.honest rack.old ≡ true → SiteStands site.old (R.disk rack.old) s → IsFoldedSite s → Runs R.disk R.moment R.left_since refuses rack.old rack.new site.old site.new s (undo_plan s) result }
{
    if site.is_spent() {
        return Err(SiteError::Spent);
    }
    match site.phase() {
        Phase::Idle => Err(SiteError::NothingOpen),
        Phase::Moving(_) => site.record_undo(rack),
        Phase::Moved(_) => site.record_undo(rack),
        Phase::Undoing(_) => Ok(()),
    }
}

/// Carries out the next action while files move back: one record. Answers `NothingOpen` in every other phase.
pub fn undo_step<R: Rack>(site: &mut Site, rack: &mut R) -> Result<Action, SiteError>
    ensures cause { HandsOn RackFault (R.faults rack.old) (R.faults rack.new) result }
    ensures honest { R.honest rack.new ≡ R.honest rack.old }
    ensures steps { UndoSteps site.old site.new result }
    ensures runs { (s : State) → R.honest rack.old ≡ true → SiteStands site.old (R.disk rack.old) s → IsFoldedSite s → ActsOn R.disk R.moment R.left_since rack.old rack.new site.old site.new s result }
{
    if site.is_spent() {
        return Err(SiteError::Spent);
    }
    match site.phase() {
        Phase::Undoing(_) => site.act(rack),
        _ => Err(SiteError::NothingOpen),
    }
}
