// A sink in memory, that fails where it is told to.
ghost use Rattle.std.specs.Prelude.{◌≡◌, [], true, IsErrOf};
ghost use Rattle.fault_count.specs.Counts.{HasCause, IsOver};
ghost use Rattle.fault_count.specs.Plans.{NextCall};
ghost use Rattle.seed_io.specs.Failing.{is_sink_fault};
ghost use Rattle.seed_io.specs.Sink.{Pushes};

use crate::{Sink, SinkError, SureSink};
use fault_count::FaultPlan;
use std::alloc::Global;

/// The bytes taken. Calls are numbered from 1.
#[derive(Drop)]
pub struct MemSink {
    bytes: SureSink,
    plan: FaultPlan,
}

impl MemSink {
    ghost use Rattle.seed_io.specs.Held.{sink_taken, sink_plan};

    /// No bytes yet; the calls whose numbers are listed will fail, and take none.
    pub fn new(alloc: Global, fails: Vec<u64>) -> Self
        ensures taken { sink_taken result ≡ [] }
        ensures plan { sink_plan result ≡ record { fails = fails.items; calls = 0; faults = 0 } }
    {
        MemSink {
            bytes: SureSink::new(alloc),
            plan: FaultPlan::new(fails),
        }
    }

    /// The bytes taken so far.
    pub fn taken(&self) -> &[u8]
        ensures { result.now ≡ sink_taken self.now }
    {
        self.bytes.taken()
    }
}

impl Sink for MemSink {
    ghost use Rattle.std.specs.Prelude.{true};
    ghost use Rattle.seed_io.specs.Held.{sink_taken, sink_plan};

    ghost tells = { λ s. true };

    ghost taken = { sink_taken };

    ghost faults = { λ s. (sink_plan s).faults };

    fn push(&mut self, bytes: &[u8]) -> Result<(), SinkError>
        ensures cause { HasCause SinkError.Fault (sink_plan self.old).faults (sink_plan self.new).faults result }
        ensures tells { true ≡ true }
        ensures taken { true ≡ true → Pushes (sink_taken self.old) (sink_taken self.new) bytes.now result }
        ensures listed { NextCall (sink_plan self.old) (sink_plan self.new) (is_sink_fault result) }
        ensures over { IsOver (sink_plan self.old).faults → self.new ≡ self.old }
        ensures none { IsErrOf result SinkError.Fault → sink_taken self.new ≡ sink_taken self.old }
    {
        if self.plan.fails_next() {
            return Err(SinkError::Fault);
        }
        self.bytes.push(bytes)
    }
}
