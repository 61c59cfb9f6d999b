// Faults that come at calls of given numbers, for objects in memory.
ghost use Rattle.std.specs.Prelude.{◌≡◌, ◌≤◌, ◌↔◌, IsTrue};
ghost use Rattle.fault_count.specs.Counts.{last_count, IsOver, counted_up};
ghost use Rattle.fault_count.specs.Plans.{NextCall};

use std::marker::Model;

/// The numbers of the calls that are to fail, and the calls and faults so far. Calls are numbered from 1. Both counts
/// stand still at 2^64 - 1.
#[derive(Drop)]
pub struct FaultPlan {
    fails: Vec<u64>,
    calls: u64,
    faults: u64,
}

impl Model for FaultPlan {
    ghost use Rattle.std.specs.Prelude.{◌≤◌};
    ghost use Rattle.fault_count.specs.Counts.{last_count};
    ghost use Rattle.fault_count.specs.Plans.{Plan};

    ghost Value = { Plan };

    ghost view = { λ p. record { fails = p.fails.items; calls = p.calls; faults = p.faults } };

    ghost invariant = { λ p. p.faults ≤ last_count };
}

impl FaultPlan {
    /// No call yet.
    pub fn new(fails: Vec<u64>) -> Self
        ensures { result ≡ record { fails = fails.items; calls = 0; faults = 0 } }
    {
        FaultPlan {
            fails,
            calls: 0,
            faults: 0,
        }
    }

    /// Counts a call, and says whether it is to fail; then its fault is counted too.
    pub fn fails_next(&mut self) -> bool
        ensures { NextCall self.old self.new result }
    {
        if self.faults == u64::MAX {
            return true;
        }
        self.calls = self.calls.saturating_add(1);
        if self.fails.contains(&self.calls) {
            self.faults = self.faults.saturating_add(1);
            return true;
        }
        false
    }
    /// How many calls have been counted.
    pub fn calls(&self) -> u64
        ensures { result ≡ self.now.calls }
    {
        self.calls
    }

    /// Whether the faults stand at their last value, where every call is refused.
    pub fn is_over(&self) -> bool
        ensures over { IsTrue result ↔ IsOver self.now.faults }
        ensures bounded { self.now.faults ≤ last_count }
    {
        self.faults == u64::MAX
    }

    /// Counts a fault for another reason than its call's number.
    pub fn raise(&mut self)
        ensures { self.new ≡ record self.old { faults = counted_up self.old.faults } }
    {
        self.faults = self.faults.saturating_add(1);
    }
}
