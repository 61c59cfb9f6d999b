// The law of an undo.
ghost use Rattle.std.specs.Prelude.{◌≡◌, ◌≢◌, List};
ghost use Rattle.site_forms.specs.declared.phase.Phase.TheVariants.{Idle};
ghost use Rattle.site_forms.specs.Views.{State};
ghost use Rattle.site_core.specs.Events.{Append};
ghost use Rattle.site_core.specs.Lasting.{IsFoldedSite, IsUndone};
ghost use Rattle.site_core.specs.Plans.{AreActions, after_plan};
ghost use Rattle.undo_move.specs.Undoing.{undo_plan};

/// The law of an undo: wherever it begins, and however often it is taken up again, once no migration is open any more A
/// has the files that it had at the beginning of the migration, and their chunks byte for byte, and B has nothing.
pub fn undo_laws()
    ensures undone { (s : State) (plan : List Append) → IsFoldedSite s → s.phase ≢ Idle → AreActions (after_plan s (undo_plan s)) plan → (after_plan (after_plan s (undo_plan s)) plan).phase ≡ Idle
        → IsUndone s (after_plan (after_plan s (undo_plan s)) plan) }
{}
