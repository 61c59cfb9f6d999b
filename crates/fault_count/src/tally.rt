// The count of an object whose calls the host may refuse.
ghost use Rattle.std.specs.Prelude.{◌≡◌, ◌≤◌, ◌↔◌, IsTrue};
ghost use Rattle.fault_count.specs.Counts.{last_count, IsOver, counted_up};

use std::marker::Model;

/// How many calls failed. The count stands still at 2^64 - 1.
#[derive(Drop)]
pub struct FaultTally {
    count: u64,
}

impl Model for FaultTally {
    ghost use Rattle.std.specs.Prelude.{ℕ, ◌≤◌};
    ghost use Rattle.fault_count.specs.Counts.{last_count};

    ghost Value = { ℕ };

    ghost view = { λ t. t.count };

    ghost invariant = { λ t. t.count ≤ last_count };
}

impl FaultTally {
    /// No call has failed.
    pub fn new() -> Self
        ensures { result ≡ 0 }
    {
        FaultTally { count: 0 }
    }

    /// Whether the count stands at its last value, where every call is refused.
    pub fn is_over(&self) -> bool
        ensures over { IsTrue result ↔ IsOver self.now }
        ensures bounded { self.now ≤ last_count }
    {
        self.count == u64::MAX
    }

    /// Counts a fault.
    pub fn raise(&mut self)
        ensures { self.new ≡ counted_up self.old }
    {
        self.count = self.count.saturating_add(1);
    }
}
