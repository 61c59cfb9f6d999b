// A small caller of a rack: its clause on crashes is proved with one line for each call.
ghost use Rattle.std.specs.Prelude.{◌≡◌, ◌≢◌, ◌⊎◌, ◌≤◌, [], true, OnOk};
ghost use Rattle.fault_count.specs.Counts.{HasCause};
ghost use Rattle.volume_disk.specs.Medium.{at_rest, trimmed};
ghost use Rattle.volume_disk.specs.Time.{Passes};
ghost use Rattle.volume_disk.specs.declared.rack.RackError.TheVariants.{Fault};

use crate::{Rack, RackError};

/// Moves bytes from a device that holds them to an empty one: they are written there and synced, and then the first is
/// emptied. A crash at any moment leaves them whole on one of the two.
pub fn hand_over<R: Rack>(rack: &mut R, from: u8, to: u8, bytes: &[u8]) -> Result<(), RackError>
    requires from { from ≤ 5 }
    requires to { to ≤ 5 }
    requires apart { from ≢ to }
    ensures cause { HasCause Fault (R.faults rack.old) (R.faults rack.new) result }
    ensures honest { R.honest rack.new ≡ R.honest rack.old }
    ensures moved { R.honest rack.old ≡ true → R.disk rack.old to ≡ at_rest [] → OnOk result
        ((R.disk rack.new to ≡ at_rest bytes.now) × (R.disk rack.new from ≡ trimmed 0 (R.disk rack.old from))) }
    ensures any_moment { R.honest rack.old ≡ true → R.disk rack.old from ≡ at_rest bytes.now → R.disk rack.old to ≡ at_rest []
        → Passes R.moment R.left_since rack.old rack.new (λ c. (c from ≡ bytes.now) ⊎ (c to ≡ bytes.now)) }
{
    rack.write(to, 0, bytes)?;
    rack.sync(to)?;
    rack.cut(from, 0)
}
