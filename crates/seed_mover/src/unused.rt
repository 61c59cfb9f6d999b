// Chunks that no file uses.
ghost use Rattle.std.specs.Prelude.{◌≡◌, ◌≤◌, true, false};
ghost use Rattle.fault_count.specs.Counts.{HandsOn};
ghost use Rattle.site_forms.specs.declared.phase.Phase.TheVariants.{Idle};
ghost use Rattle.site_forms.specs.Views.{State};
ghost use Rattle.site_core.specs.Lasting.{IsFoldedSite};
ghost use Rattle.site_runs.specs.Runs.{RunsFront};
ghost use Rattle.site_runs.specs.SiteValues.{SiteStands};
ghost use Rattle.seed_mover.specs.declared.errors.SiteError.TheVariants.{RackFault};
ghost use Rattle.seed_mover.specs.Errors.{refuses};
ghost use Rattle.seed_mover.specs.Entries.{on_side};
ghost use Rattle.seed_mover.specs.Unused.{DropsUnused, unused_of};

use crate::entries::{Entry, Side};
use crate::errors::SiteError;
use crate::site::Site;
use chunk_volume::Volume;
use volume_disk::Rack;

impl Site {
    /// Drops the chunks of a volume that no file uses, in the order of their names, on a site that is not spent and has room
    /// for these records.
    pub(crate) fn drop_unused<R: Rack>(&mut self, rack: &mut R, side: Side) -> Result<(), SiteError>
        requires fresh { self.old.spent ≡ false }
        requires idle { self.old.journal.phase ≡ Idle }
        requires room { 33 ≤ (on_side side self.old).room.body }
        ensures cause { HandsOn RackFault (R.faults rack.old) (R.faults rack.new) result }
        ensures honest { R.honest rack.new ≡ R.honest rack.old }
        ensures drops { DropsUnused side self.old self.new result }
        ensures dropped { (s : State) → R.honest rack.old ≡ true → SiteStands self.old (R.disk rack.old) s → IsFoldedSite s → RunsFront R.disk R.moment R.left_since refuses rack.old rack.new self.old self.new s (unused_of side self.old) result }
    {
        'chunks: while let Some(chunk) = self.volume(side).first_orphan() {
            match self.record(rack, side, Entry::DropChunk(&chunk)) {
                Ok(()) => {}
                Err(error) => return Err(error),
            }
        }
        Ok(())
    }

    /// A volume.
    pub(crate) fn volume(&self, side: Side) -> &Volume
        ensures { result.now ≡ on_side side self.now }
    {
        match side {
            Side::A => &self.a,
            Side::B => &self.b,
        }
    }
}
