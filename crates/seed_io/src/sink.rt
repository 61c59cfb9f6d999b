// What takes bytes.
ghost use Rattle.std.specs.Prelude.{◌≡◌, Bool, ℕ, List, true};
ghost use Rattle.fault_count.specs.Counts.{HasCause, IsOver};
ghost use Rattle.seed_io.specs.Sink.{Pushes};
ghost use Rattle.seed_io.specs.declared.sink.SinkError.TheVariants.{Fault};

/// Why a push was not done whole.
#[derive(Clone, Copy, Debug, PartialEq, Eq)]
pub enum SinkError {
    /// The call failed after a prefix of the bytes; the count of faults rose or stands at its last value.
    Fault,
    /// Memory ran out, and none of the bytes were taken.
    Memory,
}

/// A taker of bytes. A sink that tells means the bytes taken so far; whether it tells never changes. From the last count
/// of faults on each call answers a fault and changes nothing.
pub trait Sink {
    /// Whether the sink tells what it took.
    ghost tells: { Self → Bool };

    /// The bytes taken, where it tells.
    ghost taken: { Self → List ℕ };

    /// How many calls have failed. It stands still at 2^64 - 1.
    ghost faults: { Self → ℕ };

    /// Takes bytes behind those taken before.
    fn push(&mut self, bytes: &[u8]) -> Result<(), SinkError>
        ensures cause { HasCause Fault (faults self.old) (faults self.new) result }
        ensures tells { tells self.new ≡ tells self.old }
        ensures taken { tells self.old ≡ true → Pushes (taken self.old) (taken self.new) bytes.now result }
        ensures over { IsOver (faults self.old) → self.new ≡ self.old };
}
