// The whole bytes of a name.
ghost use Rattle.std.specs.Prelude.{◌≡◌, ◌<◌, ◌≤◌, ◌^◌, true, length, Some, None, IfOk, IsErrOf};
ghost use Rattle.fault_count.specs.Counts.{HasCause};
ghost use Rattle.seed_io.specs.Shelf.{GaveMore};
ghost use Rattle.seed_io.specs.declared.whole.ReadError.TheVariants.{Fault, NotThere, TooLong};

use crate::{Shelf, ShelfError};
use std::alloc::Global;

/// Why the bytes of a name were not given.
#[derive(Clone, Copy, Debug, PartialEq, Eq)]
pub enum ReadError {
    /// A call of the shelf failed.
    Fault,
    /// The shelf answered that the name is not there.
    NotThere,
    /// More bytes than the limit were given.
    TooLong,
    /// Memory ran out.
    Memory,
}

/// The most bytes that are asked for in one call of a shelf.
const PIECE: usize = 65536;

/// All bytes of a name, where they are at most `limit`. The shelf stays as it is, but for its count of faults.
pub fn read_all<F: Shelf>(
    alloc: Global,
    shelf: &mut F,
    name: &str,
    limit: u64,
) -> Result<Vec<u8>, ReadError>
    requires { limit < 2 ^ 63 }
    ensures whole { F.tells shelf.old ≡ true → IfOk result (λ v. F.map shelf.old name.now ≡ Some v.items) }
    ensures within { IfOk result (λ v. length v.items ≤ limit) }
    ensures cause { HasCause Fault (F.faults shelf.old) (F.faults shelf.new) result }
    ensures lacks { F.tells shelf.old ≡ true → IsErrOf result NotThere → F.map shelf.old name.now ≡ None }
    ensures long { IsErrOf result TooLong → GaveMore (F.tells shelf.old) (F.map shelf.old) name.now limit }
    ensures tells { F.tells shelf.new ≡ F.tells shelf.old }
    ensures same { F.map shelf.new ≡ F.map shelf.old }
{
    let mut bytes = Vec::new(alloc);
    let mut piece = [0u8; PIECE];
    for _turn in 0..u64::MAX {
        let count = match shelf.read_at(name, bytes.len() as u64, &mut piece) {
            Ok(count) => count,
            Err(ShelfError::Fault) => return Err(ReadError::Fault),
            Err(ShelfError::NotThere) => return Err(ReadError::NotThere),
            Err(ShelfError::Memory) => return Err(ReadError::Memory),
        };
        if count == 0 {
            return Ok(bytes);
        }
        if bytes.len() as u64 + count as u64 > limit {
            return Err(ReadError::TooLong);
        }
        let Ok(()) = bytes.extend_from_slice(&piece[..count]) else {
            return Err(ReadError::Memory);
        };
    }
    Err(ReadError::TooLong)
}
