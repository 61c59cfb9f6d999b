// Devices that are opened.
ghost use Rattle.std.specs.Prelude.{◌≡◌, ◌^◌, ◌<◌, ◌≤◌, true, length, IfOk};
ghost use Rattle.fault_count.specs.Counts.{HasCause, HandsOn};
ghost use Rattle.volume_disk.specs.Disk.{SameElsewhere};
ghost use Rattle.volume_disk.specs.declared.rack.RackError.TheVariants.{Fault};
ghost use Rattle.device_pieces.specs.Pieces.{Shows, no_piece};
ghost use Rattle.device_pieces.specs.Quiet.{Quiet};
ghost use Rattle.chunk_log.specs.Opening.{EndBelow, Finds, Settled};

use crate::gates::look;
use crate::writing::put_down;
use device_pieces::Piece;
use site_forms::Gate;
use volume_disk::{Rack, RackError};

/// Where a walk over the gates of a device ended.
#[derive(Clone, Copy)]
pub(crate) enum Found {
    /// The gate behind the bodies.
    End(u64),
    /// The gate at fault.
    Bad(u64),
}

/// Walks over the gates of the device of a piece, of this size, to the one behind the bodies, or to the one at fault.
pub(crate) fn find_end<R: Rack>(
    rack: &mut R,
    piece: &mut Piece,
    size: u64,
) -> Result<Found, RackError>
    ensures cause { HandsOn Fault (R.faults rack.old) (R.faults rack.new) result }
    ensures honest { R.honest rack.new ≡ R.honest rack.old }
    ensures below { IfOk result EndBelow }
    ensures device { piece.new.device ≡ piece.old.device }
    ensures quiet { R.honest rack.old ≡ true → Quiet R.moment R.left_since rack.old rack.new (R.disk rack.old) (R.disk rack.new) }
    ensures shows { R.honest rack.old ≡ true → Shows (R.disk rack.old piece.old.device).image piece.old → Shows (R.disk rack.old piece.old.device).image piece.new }
    ensures finds { R.honest rack.old ≡ true → Shows (R.disk rack.old piece.old.device).image piece.old → size ≡ length (R.disk rack.old piece.old.device).image → 2 ≤ size
        → IfOk result (Finds (R.disk rack.old piece.old.device).image) }
{
    let mut at = 0;
    'gates: loop {
        match look(rack, piece, at, size)? {
            Gate::Shut => return Ok(Found::End(at)),
            Gate::Broken => return Ok(Found::Bad(at)),
            Gate::Open(len) => at += 5 + u64::from(len),
        }
    }
}

/// Syncs the device of a piece of which nothing is read yet, gives it a gate where it is blank, and finds the gate behind
/// its bodies.
pub(crate) fn settle<R: Rack>(
    rack: &mut R,
    piece: &mut Piece,
    device: u8,
) -> Result<Found, RackError>
    requires device { device ≤ 5 }
    requires piece { piece.old ≡ no_piece device piece.old.width }
    ensures cause { HandsOn Fault (R.faults rack.old) (R.faults rack.new) result }
    ensures honest { R.honest rack.new ≡ R.honest rack.old }
    ensures below { IfOk result EndBelow }
    ensures device { piece.new.device ≡ device }
    ensures shows { R.honest rack.old ≡ true → Shows (R.disk rack.new device).image piece.new }
    ensures settled { R.honest rack.old ≡ true → Settled R.moment R.left_since rack.old rack.new (R.disk rack.old) (R.disk rack.new) device result }
{
    rack.sync(device)?;
    let size = rack.size(device)?;
    if size <= 1 {
        put_down(rack, device, 0, &[0])?;
        return Ok(Found::End(0));
    }
    find_end(rack, piece, size)
}
