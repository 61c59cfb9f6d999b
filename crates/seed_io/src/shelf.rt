// A shelf of named byte strings.
ghost use Rattle.std.specs.Prelude.{◌≡◌, Bool, ℕ, true, IsErrOf, IfOk, None};
ghost use Rattle.std.specs.Io.{ReadsAtMost};
ghost use Rattle.fault_count.specs.Counts.{HasCause, IsOver};
ghost use Rattle.seed_io.specs.Shelf.{Told, Gives, Creates, Appends};
ghost use Rattle.seed_io.specs.declared.shelf.ShelfError.TheVariants.{Fault, NotThere};

/// Why a call of a shelf gave no answer.
#[derive(Clone, Copy, Debug, PartialEq, Eq)]
pub enum ShelfError {
    /// The call failed, and the count of faults rose or stands at its last value.
    Fault,
    /// No byte string has the name; only reading answers so.
    NotThere,
    /// Memory ran out, and nothing changed.
    Memory,
}

/// Byte strings by name. A shelf that tells means a map from names to bytes; whether it tells never changes. From the
/// last count of faults on each call answers a fault and changes nothing.
pub trait Shelf {
    /// Whether the shelf tells what it holds.
    ghost tells: { Self → Bool };

    /// The map from names to bytes, where it tells.
    ghost map: { Self → Told };

    /// How many calls have failed. It stands still at 2^64 - 1.
    ghost faults: { Self → ℕ };

    /// Copies bytes of a name from a place on, at most as many as `into` has room for, and answers how many; it may give
    /// fewer than there are. Where there is room, none come only at the end.
    fn read_at(&mut self, name: &str, at: u64, into: &mut [u8]) -> Result<usize, ShelfError>
        ensures bound { ReadsAtMost result into.new }
        ensures cause { HasCause Fault (faults self.old) (faults self.new) result }
        ensures tells { tells self.new ≡ tells self.old }
        ensures same { map self.new ≡ map self.old }
        ensures bytes { tells self.old ≡ true → IfOk result (Gives (map self.old) name.now at into.new) }
        ensures lacks { tells self.old ≡ true → IsErrOf result NotThere → map self.old name.now ≡ None }
        ensures over { IsOver (faults self.old) → self.new ≡ self.old };

    /// Makes a name's bytes empty, or makes the name. After a fault the name is as before or empty.
    fn create(&mut self, name: &str) -> Result<(), ShelfError>
        ensures cause { HasCause Fault (faults self.old) (faults self.new) result }
        ensures there { ¬ IsErrOf result NotThere }
        ensures tells { tells self.new ≡ tells self.old }
        ensures map { tells self.old ≡ true → Creates (map self.old) (map self.new) name.now result }
        ensures over { IsOver (faults self.old) → self.new ≡ self.old };

    /// Adds bytes at the end of a name's, or makes the name with these. After a fault a prefix of them was added.
    fn append(&mut self, name: &str, bytes: &[u8]) -> Result<(), ShelfError>
        ensures cause { HasCause Fault (faults self.old) (faults self.new) result }
        ensures there { ¬ IsErrOf result NotThere }
        ensures tells { tells self.new ≡ tells self.old }
        ensures map { tells self.old ≡ true → Appends (map self.old) (map self.new) name.now bytes.now result }
        ensures over { IsOver (faults self.old) → self.new ≡ self.old };
}
