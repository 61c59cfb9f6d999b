// The half of a place that is not in force.
ghost use Rattle.std.specs.Prelude.{◌≡◌, ◌+◌, ◌≤◌, true};
ghost use Rattle.fault_count.specs.Counts.{HasCause, HandsOn};
ghost use Rattle.volume_disk.specs.declared.rack.RackError.TheVariants.{Fault};
ghost use Rattle.chunk_log.specs.Retiring.{Retired};
ghost use Rattle.chunk_log.specs.Shutting.{ShutsGate, CutsToGate, Empties};

use crate::writing::put_down;
use volume_disk::{Rack, RackError};

/// Retires the half of a place that is not in force: closes its first gate, makes that last, and drops what stands
/// behind it. A blank device is left as it is. Makes six calls of the rack at most. Takes no memory.
pub fn retire<R: Rack>(rack: &mut R, device: u8) -> Result<(), RackError>
    requires { device ≤ 5 }
    ensures cause { HandsOn Fault (R.faults rack.old) (R.faults rack.new) result }
    ensures honest { R.honest rack.new ≡ R.honest rack.old }
    ensures calls { R.honest rack.old ≡ true → R.calls rack.new ≤ R.calls rack.old + 6 }
    ensures retired { R.honest rack.old ≡ true → Retired R.moment R.left_since rack.old rack.new (R.disk rack.old) (R.disk rack.new) device result }
{
    empty_device(rack, device)
}

/// Closes the first gate of a device, and then drops all behind it.
pub(crate) fn empty_device<R: Rack>(rack: &mut R, device: u8) -> Result<(), RackError>
    requires { device ≤ 5 }
    ensures cause { HandsOn Fault (R.faults rack.old) (R.faults rack.new) result }
    ensures honest { R.honest rack.new ≡ R.honest rack.old }
    ensures calls { R.honest rack.old ≡ true → R.calls rack.new ≤ R.calls rack.old + 6 }
    ensures empties { R.honest rack.old ≡ true → Empties R.moment R.left_since rack.old rack.new (R.disk rack.old) (R.disk rack.new) device result }
{
    let size = rack.size(device)?;
    if size <= 1 {
        return Ok(());
    }
    shut_gate(rack, device)?;
    cut_to_gate(rack, device)
}

// Closes the first gate of a device where it is open, and makes that last.
fn shut_gate<R: Rack>(rack: &mut R, device: u8) -> Result<(), RackError>
    requires { device ≤ 5 }
    ensures cause { HandsOn Fault (R.faults rack.old) (R.faults rack.new) result }
    ensures honest { R.honest rack.new ≡ R.honest rack.old }
    ensures calls { R.honest rack.old ≡ true → R.calls rack.new ≤ R.calls rack.old + 3 }
    ensures shuts { R.honest rack.old ≡ true → ShutsGate R.moment R.left_since rack.old rack.new (R.disk rack.old) (R.disk rack.new) device result }
{
    let mut gate = [0];
    rack.read(device, 0, &mut gate)?;
    if gate[0] == 1 {
        return put_down(rack, device, 0, &[0]);
    }
    Ok(())
}

// Drops all behind the first gate of a device, and makes that last.
fn cut_to_gate<R: Rack>(rack: &mut R, device: u8) -> Result<(), RackError>
    requires { device ≤ 5 }
    ensures cause { HasCause Fault (R.faults rack.old) (R.faults rack.new) result }
    ensures honest { R.honest rack.new ≡ R.honest rack.old }
    ensures calls { R.honest rack.old ≡ true → R.calls rack.new ≤ R.calls rack.old + 2 }
    ensures cuts { R.honest rack.old ≡ true → CutsToGate R.moment R.left_since rack.old rack.new (R.disk rack.old) (R.disk rack.new) device result }
{
    rack.cut(device, 1)?;
    rack.sync(device)
}
