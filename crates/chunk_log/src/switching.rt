// From the half in force to the one that was written beside it.
ghost use Rattle.std.specs.Prelude.{◌≡◌, ◌+◌, ◌≤◌, true, IfOk};
ghost use Rattle.fault_count.specs.Counts.{HandsOn};
ghost use Rattle.volume_disk.specs.declared.rack.RackError.TheVariants.{Fault};
ghost use Rattle.chunk_log.specs.HalfWriting.{SwitchesHalves};

use crate::gated_log::Log;
use crate::half_writer::HalfWriter;
use crate::retiring::retire;
use volume_disk::{Rack, RackError};

/// Finishes a half that was written beside the one in force on the device `old`, and retires that one after it: a crash
/// at any moment leaves the records of their place as they were, or those that were written. Makes ten calls of the
/// rack at most. After a fault the place is to be opened again. Takes no memory.
pub fn switch_halves<R: Rack>(rack: &mut R, writer: HalfWriter, old: u8) -> Result<Log, RackError>
    requires written { 1 ≤ writer.end }
    requires old { old ≤ 5 }
    ensures cause { HandsOn Fault (R.faults rack.old) (R.faults rack.new) result }
    ensures honest { R.honest rack.new ≡ R.honest rack.old }
    ensures calls { R.honest rack.old ≡ true → R.calls rack.new ≤ R.calls rack.old + 10 }
    ensures log { IfOk result (λ log. log ≡ writer) }
    ensures switches { R.honest rack.old ≡ true → SwitchesHalves R.moment R.left_since rack.old rack.new (R.disk rack.old) (R.disk rack.new) writer old result }
{
    let log = writer.finish(rack)?;
    retire(rack, old)?;
    Ok(log)
}
