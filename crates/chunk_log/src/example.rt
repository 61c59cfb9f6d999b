// Three appends on two places, as one run.
ghost use Rattle.std.specs.Prelude.{◌≡◌, ◌≤◌, ℕ, List, [], ◌∷◌, true, length, OnOk};
ghost use Rattle.fault_count.specs.Counts.{HandsOn};
ghost use Rattle.volume_disk.specs.Time.{Passes};
ghost use Rattle.site_forms.specs.Halves.{half_number};
ghost use Rattle.chunk_log.specs.LogValues.{LogValue};
ghost use Rattle.chunk_log.specs.Runs.{AllStand, HoldsPart};
ghost use Rattle.chunk_log.specs.declared.errors.AppendError.TheVariants.{RackFault};

use crate::errors::AppendError;
use crate::frame::Frame;
use crate::gated_log::Log;
use volume_disk::Rack;

/// Adds two records to the log of the first place, and one to that of the second between them. A crash at any moment
/// leaves the records after the first none, one, two or three of them.
pub fn three_appends<R: Rack>(
    rack: &mut R,
    home: &mut Log,
    away: &mut Log,
    one: &Frame,
    two: &Frame,
    three: &Frame,
) -> Result<(), AppendError>
    requires one { 1 ≤ length one.now.body }
    requires two { 1 ≤ length two.now.body }
    requires three { 1 ≤ length three.now.body }
    ensures cause { HandsOn RackFault (R.faults rack.old) (R.faults rack.new) result }
    ensures moments { (logs : ℕ → LogValue) (records : ℕ → List (List ℕ)) → R.honest rack.old ≡ true → logs 0 ≡ home.old → logs 1 ≡ away.old
        → half_number one.now.body ≡ 0 → half_number two.now.body ≡ 0 → half_number three.now.body ≡ 0 → AllStand logs records (R.disk rack.old)
        → Passes R.moment R.left_since rack.old rack.new (HoldsPart ((0, one.now.body) ∷ (1, two.now.body) ∷ (0, three.now.body) ∷ []) records) }
{
    home.append(rack, one)?;
    away.append(rack, two)?;
    home.append(rack, three)?;
    Ok(())
}
