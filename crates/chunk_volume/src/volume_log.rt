// The log of a volume.
ghost use Rattle.std.specs.Prelude.{◌≡◌, ◌≤◌, ◌<◌, ◌^◌, true, false, length};
ghost use Rattle.fault_count.specs.Counts.{HandsOn};
ghost use Rattle.chunk_log.specs.Appending.{Appended, after_fault};
ghost use Rattle.chunk_volume.specs.declared.errors.VolError.TheVariants.{RackFault};
ghost use Rattle.chunk_volume.specs.Adding.{IsRefused};
ghost use Rattle.chunk_volume.specs.AppendingRecords.{AppendsRecord};

use crate::errors::VolError;
use crate::framing::RecordFrame;
use chunk_log::{AppendError, Log};
use std::marker::Model;
use volume_disk::Rack;

/// The log of a volume. It is spent once a call of the rack has failed in a call of the volume that writes, be it one
/// that only read.
#[derive(Drop)]
pub(crate) struct VolumeLog {
    log: Log,
    is_spent: bool,
}

impl Model for VolumeLog {
    ghost use Rattle.std.specs.Prelude.{◌≡◌, true};
    ghost use Rattle.chunk_log.specs.LogValues.{LogValue, log_code};

    ghost Value = { LogValue };

    ghost coded = { log_code };

    ghost view = { λ l. record { device = l.log.device; limit = l.log.limit; end = l.log.end; spent = l.is_spent } };

    ghost invariant = { λ l. l.log.spent ≡ true → l.is_spent ≡ true };
}

impl VolumeLog {
    /// The log of a volume that was opened.
    pub(crate) fn of(log: Log) -> Self
        requires { log.spent ≡ false }
        ensures { result ≡ log }
    {
        VolumeLog {
            log,
            is_spent: false,
        }
    }

    /// Whether the volume is to be opened again.
    pub(crate) fn is_spent(&self) -> bool
        ensures { result ≡ self.now.spent }
    {
        self.is_spent
    }

    /// The log, to be read.
    pub(crate) fn log(&self) -> &Log
        ensures device { result.now.device ≡ self.now.device }
        ensures end { result.now.end ≡ self.now.end }
    {
        &self.log
    }

    /// The place of the gate at the end.
    pub(crate) fn end(&self) -> u64
        ensures gate { result ≡ self.now.end }
        ensures below { result < 2 ^ 40 }
    {
        self.log.end()
    }

    /// The greatest size in bytes that the device may grow to.
    pub(crate) fn limit(&self) -> u64
        ensures limit { result ≡ self.now.limit }
        ensures most { result ≤ 2 ^ 40 }
    {
        self.log.limit()
    }

    /// The device of the log.
    pub(crate) fn device(&self) -> u8
        ensures device { result ≡ self.now.device }
        ensures six { result ≤ 5 }
    {
        self.log.device()
    }

    /// From now on the volume refuses to write.
    pub(crate) fn spend(&mut self)
        ensures { self.new ≡ after_fault self.old }
    {
        self.is_spent = true;
    }

    /// Adds the body that is framed to a log that is not spent, and answers its place. After a fault the log is spent.
    pub(crate) fn append<R: Rack>(
        &mut self,
        rack: &mut R,
        frame: &RecordFrame,
    ) -> Result<u64, VolError>
        requires body { 1 ≤ length frame.now.body }
        requires fresh { self.old.spent ≡ false }
        ensures cause { HandsOn RackFault (R.faults rack.old) (R.faults rack.new) result }
        ensures honest { R.honest rack.new ≡ R.honest rack.old }
        ensures log { AppendsRecord self.old self.new (length frame.now.body) result }
        ensures alone { IsRefused result → rack.new ≡ rack.old }
        ensures appended { R.honest rack.old ≡ true → Appended R.disk R.moment R.left_since rack.old rack.new (R.disk rack.old) (R.disk rack.new) self.old self.new frame.now.body result }
    {
        match self.log.append(rack, frame.frame()) {
            Ok(at) => Ok(at),
            Err(AppendError::DeviceFull { device, end, len }) => {
                Err(VolError::DeviceFull { device, end, len })
            }
            Err(AppendError::Spent) => Err(VolError::Spent),
            Err(AppendError::RackFault) => {
                self.is_spent = true;
                Err(VolError::RackFault)
            }
        }
    }
}
