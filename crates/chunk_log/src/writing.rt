// Writes that are made to last.
ghost use Rattle.std.specs.Prelude.{◌≡◌, ◌+◌, ◌^◌, ◌<◌, ◌≤◌, true, length};
ghost use Rattle.fault_count.specs.Counts.{HasCause};
ghost use Rattle.volume_disk.specs.declared.rack.RackError.TheVariants.{Fault};
ghost use Rattle.chunk_log.specs.Bodies.{BodyAppended};
ghost use Rattle.chunk_log.specs.PuttingDown.{PutDown};

use crate::frame::Frame;
use volume_disk::{Rack, RackError};

/// Writes and makes it last.
pub(crate) fn put_down<R: Rack>(
    rack: &mut R,
    device: u8,
    at: u64,
    bytes: &[u8],
) -> Result<(), RackError>
    requires device { device ≤ 5 }
    ensures cause { HasCause Fault (R.faults rack.old) (R.faults rack.new) result }
    ensures honest { R.honest rack.new ≡ R.honest rack.old }
    ensures calls { R.honest rack.old ≡ true → R.calls rack.new ≤ R.calls rack.old + 2 }
    ensures put_down { R.honest rack.old ≡ true → PutDown R.moment R.left_since rack.old rack.new (R.disk rack.old) (R.disk rack.new) device at bytes.now result }
{
    rack.write(device, at, bytes)?;
    rack.sync(device)
}

/// Adds the body of a frame to the log that ends at a gate: what stands behind the gate first, and the open gate once
/// that lasts.
pub(crate) fn append_at<R: Rack>(
    rack: &mut R,
    device: u8,
    gate: u64,
    frame: &Frame,
) -> Result<(), RackError>
    requires device { device ≤ 5 }
    requires gate { gate < 2 ^ 40 }
    requires set { 1 ≤ length frame.now.body }
    ensures cause { HasCause Fault (R.faults rack.old) (R.faults rack.new) result }
    ensures honest { R.honest rack.new ≡ R.honest rack.old }
    ensures calls { R.honest rack.old ≡ true → R.calls rack.new ≤ R.calls rack.old + 4 }
    ensures appended { R.honest rack.old ≡ true → BodyAppended R.disk R.moment R.left_since rack.old rack.new (R.disk rack.old) (R.disk rack.new) device gate frame.now.body result }
{
    put_down(rack, device, gate + 1, frame.behind_gate())?;
    put_down(rack, device, gate, &[1])
}
