// Creating what a command leaves behind a name.
ghost use Rattle.std.specs.Prelude.{◌≡◌, true, Some, OnOk};
ghost use Rattle.fault_count.specs.Counts.{HandsOn};
ghost use Rattle.seed_io.specs.Shelf.{OthersStay};
ghost use Rattle.command_endings.specs.Creating.{HoldsFront};

use command_texts::Halt;
use seed_io::{Shelf, ShelfError};

/// Gives a name these bytes, in place of those that it had. Where a call fails, it has a front of them, or is as before.
pub fn create_with<F: Shelf>(shelf: &mut F, name: &str, bytes: &[u8]) -> Result<(), Halt>
    ensures others { F.tells shelf.old ≡ true → OthersStay (F.map shelf.old) (F.map shelf.new) name.now }
    ensures whole { F.tells shelf.old ≡ true → OnOk result (F.map shelf.new name.now ≡ Some bytes.now) }
    ensures front { F.tells shelf.old ≡ true → HoldsFront (F.map shelf.old) (F.map shelf.new) name.now bytes.now }
    ensures cause { HandsOn Halt.Outside (F.faults shelf.old) (F.faults shelf.new) result }
    ensures tells { F.tells shelf.new ≡ F.tells shelf.old }
{
    match shelf.create(name) {
        Ok(()) => {}
        Err(ShelfError::Fault) => return Err(Halt::Outside),
        Err(ShelfError::NotThere | ShelfError::Memory) => return Err(Halt::Memory),
    }
    match shelf.append(name, bytes) {
        Ok(()) => Ok(()),
        Err(ShelfError::Fault) => Err(Halt::Outside),
        Err(ShelfError::NotThere | ShelfError::Memory) => Err(Halt::Memory),
    }
}
