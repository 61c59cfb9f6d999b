// Which half of a place is in force.
ghost use Rattle.std.specs.Prelude.{◌≡◌, ◌+◌, ◌^◌, ◌≤◌, true, length, IfOk};
ghost use Rattle.fault_count.specs.Counts.{HasCause, HandsOn};
ghost use Rattle.volume_disk.specs.declared.rack.RackError.TheVariants.{Fault};
ghost use Rattle.site_forms.specs.Halves.{generation};
ghost use Rattle.device_pieces.specs.Pieces.{Shows};
ghost use Rattle.chunk_log.specs.declared.errors.LogError.TheVariants.{RackFault};
ghost use Rattle.chunk_log.specs.PlaceHalves.{chosen, SyncsBoth, ReadsBoth, SettlesBoth, FindsHalf, IsHalfOf, NamesHalf, AnswersPlace, OpensPlace};
ghost use Rattle.device_pieces.specs.Quiet.{Quiet};

use crate::errors::LogError;
use crate::gated_log::Log;
use device_pieces::Piece;
use volume_disk::{Rack, RackError};

/// The generations of the two halves of a place.
#[derive(Clone, Copy)]
pub(crate) struct Generations {
    pub first: Option<u64>,
    pub second: Option<u64>,
}

/// The device of the half that is in force at a place, 0 to 2, and its generation, 0 where neither half has one. Both
/// halves are synced first. Damage names the second half where both have the same generation. Makes four calls of the
/// rack at most.
pub fn in_force<R: Rack>(rack: &mut R, first: u8) -> Result<(u8, u64), LogError>
    requires { first ≤ 2 }
    ensures cause { HandsOn RackFault (R.faults rack.old) (R.faults rack.new) result }
    ensures honest { R.honest rack.new ≡ R.honest rack.old }
    ensures calls { R.honest rack.old ≡ true → R.calls rack.new ≤ R.calls rack.old + 4 }
    ensures named { NamesHalf first result }
    ensures found { R.honest rack.old ≡ true → FindsHalf R.moment R.left_since rack.old rack.new (R.disk rack.old) (R.disk rack.new) first result }
{
    match read_both(rack, first) {
        Ok(both) => choose(first, both.first, both.second),
        Err(RackError::Fault) => Err(LogError::RackFault),
    }
}

/// Opens the log of a place: that of its half in force. Its limit is `limit` bytes. Takes no memory.
pub fn open_place<R: Rack>(rack: &mut R, place: u8, limit: u64) -> Result<Log, LogError>
    requires place { place ≤ 2 }
    requires limit { limit ≤ 2 ^ 40 }
    ensures cause { HandsOn RackFault (R.faults rack.old) (R.faults rack.new) result }
    ensures honest { R.honest rack.new ≡ R.honest rack.old }
    ensures answers { AnswersPlace place limit result }
    ensures opened { R.honest rack.old ≡ true → OpensPlace R.moment R.left_since rack.old rack.new (R.disk rack.old) (R.disk rack.new) place result }
    ensures half { R.honest rack.old ≡ true → IsHalfOf (R.disk rack.old) (R.disk rack.new) place result }
{
    let mut piece = Piece::without_room(place);
    open_place_by(rack, &mut piece, place, limit)
}

/// Opens the log of a place as `open_place` does, and reads the half in force by a piece, which is turned to its device.
pub fn open_place_by<R: Rack>(
    rack: &mut R,
    piece: &mut Piece,
    place: u8,
    limit: u64,
) -> Result<Log, LogError>
    requires place { place ≤ 2 }
    requires limit { limit ≤ 2 ^ 40 }
    ensures cause { HandsOn RackFault (R.faults rack.old) (R.faults rack.new) result }
    ensures honest { R.honest rack.new ≡ R.honest rack.old }
    ensures answers { AnswersPlace place limit result }
    ensures device { IfOk result (λ log. piece.new.device ≡ log.device) }
    ensures opened { R.honest rack.old ≡ true → OpensPlace R.moment R.left_since rack.old rack.new (R.disk rack.old) (R.disk rack.new) place result }
    ensures half { R.honest rack.old ≡ true → IsHalfOf (R.disk rack.old) (R.disk rack.new) place result }
    ensures shows { R.honest rack.old ≡ true → IfOk result (λ log. Shows (R.disk rack.new log.device).image piece.new) }
{
    let half = in_force(rack, place)?;
    Log::open_by(rack, piece, half.0, limit)
}

// The half with the only or the greater generation, the first where both have none.
fn choose(first: u8, one: Option<u64>, two: Option<u64>) -> Result<(u8, u64), LogError>
    requires { first ≤ 2 }
    ensures { result ≡ chosen first one two }
{
    let second = first + 3;
    match (one, two) {
        (None, None) => Ok((first, 0)),
        (Some(n), None) => Ok((first, n)),
        (None, Some(m)) => Ok((second, m)),
        (Some(n), Some(m)) => {
            if n < m {
                return Ok((second, m));
            }
            if m < n {
                return Ok((first, n));
            }
            Err(LogError::Damage {
                device: second,
                at: 0,
            })
        }
    }
}

// The generations of both halves of a place, which are synced first.
fn read_both<R: Rack>(rack: &mut R, first: u8) -> Result<Generations, RackError>
    requires { first ≤ 2 }
    ensures cause { HandsOn Fault (R.faults rack.old) (R.faults rack.new) result }
    ensures honest { R.honest rack.new ≡ R.honest rack.old }
    ensures calls { R.honest rack.old ≡ true → R.calls rack.new ≤ R.calls rack.old + 4 }
    ensures settled { R.honest rack.old ≡ true → SettlesBoth R.moment R.left_since rack.old rack.new (R.disk rack.old) (R.disk rack.new) first result }
{
    sync_both(rack, first)?;
    read_generations(rack, first)
}

// Syncs both halves of a place.
fn sync_both<R: Rack>(rack: &mut R, first: u8) -> Result<(), RackError>
    requires { first ≤ 2 }
    ensures cause { HasCause Fault (R.faults rack.old) (R.faults rack.new) result }
    ensures honest { R.honest rack.new ≡ R.honest rack.old }
    ensures calls { R.honest rack.old ≡ true → R.calls rack.new ≤ R.calls rack.old + 2 }
    ensures synced { R.honest rack.old ≡ true → SyncsBoth R.moment R.left_since rack.old rack.new (R.disk rack.old) (R.disk rack.new) first result }
{
    rack.sync(first)?;
    rack.sync(first + 3)
}

// The generations of both halves of a place.
fn read_generations<R: Rack>(rack: &mut R, first: u8) -> Result<Generations, RackError>
    requires { first ≤ 2 }
    ensures cause { HandsOn Fault (R.faults rack.old) (R.faults rack.new) result }
    ensures honest { R.honest rack.new ≡ R.honest rack.old }
    ensures calls { R.honest rack.old ≡ true → R.calls rack.new ≤ R.calls rack.old + 2 }
    ensures quiet { R.honest rack.old ≡ true → Quiet R.moment R.left_since rack.old rack.new (R.disk rack.old) (R.disk rack.new) }
    ensures numbers { R.honest rack.old ≡ true → IfOk result (ReadsBoth (R.disk rack.old) first) }
{
    let one = generation_of(rack, first)?;
    let two = generation_of(rack, first + 3)?;
    Ok(Generations {
        first: one,
        second: two,
    })
}

// The generation of a device.
fn generation_of<R: Rack>(rack: &mut R, device: u8) -> Result<Option<u64>, RackError>
    requires { device ≤ 5 }
    ensures cause { HasCause Fault (R.faults rack.old) (R.faults rack.new) result }
    ensures honest { R.honest rack.new ≡ R.honest rack.old }
    ensures calls { R.honest rack.old ≡ true → R.calls rack.new ≤ R.calls rack.old + 1 }
    ensures quiet { R.honest rack.old ≡ true → Quiet R.moment R.left_since rack.old rack.new (R.disk rack.old) (R.disk rack.new) }
    ensures number { R.honest rack.old ≡ true → IfOk result (λ g. g ≡ generation (R.disk rack.old device).image) }
{
    let mut head = [0; 14];
    let count = rack.read(device, 0, &mut head)?;
    Ok(generation_in(&head[..count]))
}

// The generation of an image of at most 14 bytes, or that its first 14 bytes say.
fn generation_in(head: &[u8]) -> Option<u64>
    requires { length head.now ≤ 14 }
    ensures { result ≡ generation head.now }
{
    if head.len() < 2 || head[0] != 1 {
        return None;
    }
    match head {
        [_, a, b, c, d, kind, e, f, g, h, i, j, k, l] => {
            let len = u32::from_be_bytes([*a, *b, *c, *d]);
            if len == 9 && *kind == 32 {
                Some(u64::from_be_bytes([*e, *f, *g, *h, *i, *j, *k, *l]))
            } else {
                Some(0)
            }
        }
        _ => Some(0),
    }
}
