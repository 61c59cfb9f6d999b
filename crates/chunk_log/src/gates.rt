// Gates, as a device gives them.
ghost use Rattle.std.specs.Prelude.{◌≡◌, ◌+◌, ◌^◌, ◌<◌, ◌≤◌, true, take, drop, IfOk};
ghost use Rattle.fault_count.specs.Counts.{HandsOn};
ghost use Rattle.volume_disk.specs.declared.rack.RackError.TheVariants.{Fault};
ghost use Rattle.device_pieces.specs.Pieces.{Shows, stands_in};
ghost use Rattle.device_pieces.specs.Quiet.{Quiet};
ghost use Rattle.site_forms.specs.Gates.{gate_in, IsGate};

use device_pieces::Piece;
use site_forms::{Gate, gate_of};
use volume_disk::{Rack, RackError};

/// What stands at a gate of the device of a piece, of which a size is known.
pub(crate) fn look<R: Rack>(
    rack: &mut R,
    piece: &mut Piece,
    at: u64,
    size: u64,
) -> Result<Gate, RackError>
    requires { at < 2 ^ 40 }
    ensures cause { HandsOn Fault (R.faults rack.old) (R.faults rack.new) result }
    ensures honest { R.honest rack.new ≡ R.honest rack.old }
    ensures calls { R.honest rack.old ≡ true → R.calls rack.new ≤ R.calls rack.old + 1 }
    ensures inside { stands_in piece.old at 5 ≡ true → rack.new ≡ rack.old }
    ensures device { piece.new.device ≡ piece.old.device }
    ensures quiet { R.honest rack.old ≡ true → Quiet R.moment R.left_since rack.old rack.new (R.disk rack.old) (R.disk rack.new) }
    ensures shows { R.honest rack.old ≡ true → Shows (R.disk rack.old piece.old.device).image piece.old → Shows (R.disk rack.old piece.old.device).image piece.new }
    ensures gate { R.honest rack.old ≡ true → Shows (R.disk rack.old piece.old.device).image piece.old → IfOk result (λ gate. gate ≡ gate_in (take 5 (drop at (R.disk rack.old piece.old.device).image)) at size) }
    ensures within { IfOk result (IsGate at size) }
{
    let mut head = [0; 5];
    let count = piece.read(rack, at, &mut head)?;
    Ok(gate_of(&head[..count], at, size))
}
