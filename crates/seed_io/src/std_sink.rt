// Standard output.
ghost use Rattle.std.specs.Prelude.{◌≡◌, false, []};

use crate::streams::write_front;
use crate::{Sink, SinkError};
use fault_count::FaultTally;
use std::io;

/// Standard output. It tells nothing: that what is written is printed is trusted. A write that takes nothing of a
/// piece that is not empty is a fault.
#[derive(Drop)]
pub struct StdSink<'r, R: Print> {
    rt: &'r R,
    tally: FaultTally,
}

impl<'r, R: Print> StdSink<'r, R> {
    ghost use Rattle.seed_io.specs.Held.{output_faults};

    /// A sink with no fault yet. It touches nothing outside.
    pub fn new(rt: &'r R) -> Self
        ensures { output_faults result ≡ 0 }
    {
        StdSink {
            rt,
            tally: FaultTally::new(),
        }
    }
}

impl<'r, R: Print> Sink for StdSink<'r, R> {
    ghost use Rattle.seed_io.specs.Held.{output_faults};

    ghost tells = { λ s. false };

    ghost taken = { λ s. [] };

    ghost faults = { output_faults };

    fn push(&mut self, bytes: &[u8]) -> Result<(), SinkError> {
        if self.tally.is_over() {
            return Err(SinkError::Fault);
        }
        if write_front(&mut io::writer(self.rt), bytes) == bytes.len() {
            return Ok(());
        }
        self.tally.raise();
        Err(SinkError::Fault)
    }
}
