// Writing a half anew.
ghost use Rattle.std.specs.Prelude.{◌≡◌, ◌+◌, ◌^◌, ◌≤◌, true, false, length, IfOk};
ghost use Rattle.fault_count.specs.Counts.{HasCause, HandsOn};
ghost use Rattle.volume_disk.specs.declared.rack.RackError.TheVariants.{Fault};
ghost use Rattle.chunk_log.specs.declared.errors.AppendError.TheVariants.{RackFault};
ghost use Rattle.chunk_log.specs.HalfWriting.{BeginsHalf, AddsBody, Adds, LeavesAlone, NotedBody, PutsBlock, FinishesHalf};

use crate::errors::AppendError;
use crate::frame::Frame;
use crate::gated_log::Log;
use crate::retiring::empty_device;
use crate::writing::put_down;
use std::marker::Model;
use volume_disk::{Rack, RackError};

/// A half that is written anew beside the one in force: its first gate stays closed until all behind it lasts.
#[derive(Drop)]
pub struct HalfWriter {
    device: u8,
    limit: u64,
    end: u64,
    spent: bool,
}

impl Model for HalfWriter {
    ghost use Rattle.chunk_log.specs.LogValues.{LogValue, log_code, KeepsLog};

    ghost Value = { LogValue };

    ghost coded = { log_code };

    ghost view = { λ l. record { device = l.device; limit = l.limit; end = l.end; spent = l.spent } };

    ghost invariant = { λ l. KeepsLog (record { device = l.device; limit = l.limit; end = l.end; spent = l.spent }) };
}

impl HalfWriter {
    /// Begins a half on a device, which may grow to `limit` bytes: retires what stands there, and gives it a closed
    /// gate. Makes eight calls of the rack at most. Takes no memory.
    pub fn start<R: Rack>(rack: &mut R, device: u8, limit: u64) -> Result<HalfWriter, RackError>
        requires device { device ≤ 5 }
        requires limit { limit ≤ 2 ^ 40 }
        ensures cause { HandsOn Fault (R.faults rack.old) (R.faults rack.new) result }
        ensures honest { R.honest rack.new ≡ R.honest rack.old }
        ensures calls { R.honest rack.old ≡ true → R.calls rack.new ≤ R.calls rack.old + 8 }
        ensures writer { IfOk result (λ w. w ≡ record { device = device; limit = limit; end = 0; spent = false }) }
        ensures begins { R.honest rack.old ≡ true → BeginsHalf R.moment R.left_since rack.old rack.new (R.disk rack.old) (R.disk rack.new) device result }
    {
        empty_device(rack, device)?;
        put_down(rack, device, 0, &[0])?;
        Ok(HalfWriter {
            device,
            limit,
            end: 0,
            spent: false,
        })
    }

    /// Writes the body of a frame behind the others, with an open gate before it where it is not the first: one call of
    /// the rack. After a fault the writer is spent. Takes no memory.
    pub fn add<R: Rack>(&mut self, rack: &mut R, frame: &Frame) -> Result<(), AppendError>
        requires { 1 ≤ length frame.now.body }
        ensures cause { HandsOn RackFault (R.faults rack.old) (R.faults rack.new) result }
        ensures honest { R.honest rack.new ≡ R.honest rack.old }
        ensures calls { R.honest rack.old ≡ true → R.calls rack.new ≤ R.calls rack.old + 1 }
        ensures writer { Adds self.old self.new (length frame.now.body) result }
        ensures untouched { LeavesAlone rack.old rack.new result }
        ensures adds { R.honest rack.old ≡ true → AddsBody R.moment R.left_since rack.old rack.new (R.disk rack.old) (R.disk rack.new) self.old self.new frame.now.body result }
    {
        if self.spent {
            return Err(AppendError::Spent);
        }
        let len = frame.len();
        if self.limit < self.end + 6 + u64::from(len) {
            return Err(AppendError::DeviceFull {
                device: self.device,
                end: self.end,
                len,
            });
        }
        let done = put_block(rack, self.device, self.end, frame);
        self.note(done, len)
    }

    // What a body of `len` bytes leaves of the writer, from what was answered.
    fn note(&mut self, done: Result<(), RackError>, len: u32) -> Result<(), AppendError>
        requires fits { self.old.end + len + 6 ≤ self.old.limit }
        ensures { NotedBody self.old self.new len done result }
    {
        match done {
            Ok(()) => {
                self.end = self.end + 5 + u64::from(len);
                Ok(())
            }
            Err(RackError::Fault) => {
                self.spent = true;
                Err(AppendError::RackFault)
            }
        }
    }

    /// Finishes the half: writes the gate behind the last body, makes all that last, and then opens the first gate and
    /// makes that last: four calls of the rack at most. After a fault the place is to be opened again. Takes no memory.
    pub fn finish<R: Rack>(self, rack: &mut R) -> Result<Log, RackError>
        requires { 1 ≤ self.end }
        ensures cause { HandsOn Fault (R.faults rack.old) (R.faults rack.new) result }
        ensures honest { R.honest rack.new ≡ R.honest rack.old }
        ensures calls { R.honest rack.old ≡ true → R.calls rack.new ≤ R.calls rack.old + 4 }
        ensures log { IfOk result (λ log. log ≡ self) }
        ensures finishes { R.honest rack.old ≡ true → FinishesHalf R.disk R.moment R.left_since rack.old rack.new (R.disk rack.old) (R.disk rack.new) self result }
    {
        put_down(rack, self.device, self.end, &[0])?;
        put_down(rack, self.device, 0, &[1])?;
        Ok(Log::at(self.device, self.limit, self.end, self.spent))
    }
}

// Writes the block of a frame's body at the end of a half; that of the first body without its gate, which stays closed.
fn put_block<R: Rack>(rack: &mut R, device: u8, end: u64, frame: &Frame) -> Result<(), RackError>
    requires device { device ≤ 5 }
    requires set { 1 ≤ length frame.now.body }
    ensures cause { HasCause Fault (R.faults rack.old) (R.faults rack.new) result }
    ensures honest { R.honest rack.new ≡ R.honest rack.old }
    ensures calls { R.honest rack.old ≡ true → R.calls rack.new ≤ R.calls rack.old + 1 }
    ensures puts { R.honest rack.old ≡ true → PutsBlock R.moment R.left_since rack.old rack.new (R.disk rack.old) (R.disk rack.new) device end frame.now.body result }
{
    if end == 0 {
        return rack.write(device, 1, frame.first_block());
    }
    rack.write(device, end, frame.block())
}
