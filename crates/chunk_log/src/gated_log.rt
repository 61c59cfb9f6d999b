// Logs.
ghost use Rattle.std.specs.Prelude.{◌≡◌, ◌+◌, ◌^◌, ◌<◌, ◌≤◌, ℕ, List, true, length, take, slice_index_or, [], Ok, Err, IsErrOf};
ghost use Rattle.fault_count.specs.Counts.{HandsOn};
ghost use Rattle.site_forms.specs.Logs.{parse, log_size};
ghost use Rattle.site_forms.specs.Logs.Parsed.{Good};
ghost use Rattle.chunk_log.specs.Appending.{Appends, Appended, IsUntouched, Noted};
ghost use Rattle.chunk_log.specs.Opening.{Answers, Opened};
ghost use Rattle.device_pieces.specs.Quiet.{Quiet};
ghost use Rattle.device_pieces.specs.Pieces.{Shows, stands_in};
ghost use Rattle.chunk_log.specs.Walking.{Walks, FindsBlock, WalksTo, placed, place_behind, ReadsBytes, NamesPlace};
ghost use Rattle.chunk_log.specs.declared.errors.AppendError.TheVariants.{RackFault as AppendFault};
ghost use Rattle.chunk_log.specs.declared.errors.LogError.TheVariants.{RackFault, Damage};
ghost use Rattle.site_forms.specs.Gates.{IsGate};

use crate::errors::{AppendError, LogError};
use crate::frame::Frame;
use crate::gates::look;
use crate::opening::{Found, settle};
use crate::place::Place;
use crate::writing::append_at;
use device_pieces::Piece;
use site_forms::Gate;
use std::marker::Model;
use volume_disk::{Rack, RackError};

/// A log on a device: the place of the gate at its end, and the greatest size that it may grow to.
#[derive(Drop)]
pub struct Log {
    device: u8,
    limit: u64,
    end: u64,
    spent: bool,
}

impl Model for Log {
    ghost use Rattle.chunk_log.specs.LogValues.{LogValue, log_code, KeepsLog};

    ghost Value = { LogValue };

    ghost coded = { log_code };

    ghost view = { λ l. record { device = l.device; limit = l.limit; end = l.end; spent = l.spent } };

    ghost invariant = { λ l. KeepsLog (record { device = l.device; limit = l.limit; end = l.end; spent = l.spent }) };
}

impl Log {
    /// Opens the log on a device, which may grow to `limit` bytes. The device is synced first, so that nothing is
    /// pending there; a blank one gets its gate. Takes no memory.
    pub fn open<R: Rack>(rack: &mut R, device: u8, limit: u64) -> Result<Log, LogError>
        requires device { device ≤ 5 }
        requires limit { limit ≤ 2 ^ 40 }
        ensures cause { HandsOn RackFault (R.faults rack.old) (R.faults rack.new) result }
        ensures honest { R.honest rack.new ≡ R.honest rack.old }
        ensures answers { Answers device limit result }
        ensures opened { R.honest rack.old ≡ true → Opened R.moment R.left_since rack.old rack.new (R.disk rack.old) (R.disk rack.new) device result }
    {
        let mut piece = Piece::without_room(device);
        Log::open_by(rack, &mut piece, device, limit)
    }

    /// Opens the log on a device as `open` does, and reads the device by a piece, which is turned to it first.
    pub fn open_by<R: Rack>(
        rack: &mut R,
        piece: &mut Piece,
        device: u8,
        limit: u64,
    ) -> Result<Log, LogError>
        requires device { device ≤ 5 }
        requires limit { limit ≤ 2 ^ 40 }
        ensures cause { HandsOn RackFault (R.faults rack.old) (R.faults rack.new) result }
        ensures honest { R.honest rack.new ≡ R.honest rack.old }
        ensures answers { Answers device limit result }
        ensures device { piece.new.device ≡ device }
        ensures opened { R.honest rack.old ≡ true → Opened R.moment R.left_since rack.old rack.new (R.disk rack.old) (R.disk rack.new) device result }
        ensures shows { R.honest rack.old ≡ true → Shows (R.disk rack.new device).image piece.new }
    {
        piece.turn_to(device);
        match settle(rack, piece, device) {
            Ok(Found::End(end)) => Ok(Log {
                device,
                limit,
                end,
                spent: false,
            }),
            Ok(Found::Bad(at)) => Err(LogError::Damage { device, at }),
            Err(RackError::Fault) => Err(LogError::RackFault),
        }
    }

    // A log that ends at a gate.
    pub(crate) fn at(device: u8, limit: u64, end: u64, spent: bool) -> Log
        requires device { device ≤ 5 }
        requires limit { limit ≤ 2 ^ 40 }
        requires below { end < 2 ^ 40 }
        ensures { result ≡ record { device = device; limit = limit; end = end; spent = spent } }
    {
        Log {
            device,
            limit,
            end,
            spent,
        }
    }

    /// Adds the body of a frame, and answers its place: the frame behind the gate at the end and a sync, then the open
    /// gate and a sync, which are four calls of the rack at most. After a fault the log is spent. Takes no memory.
    pub fn append<R: Rack>(&mut self, rack: &mut R, frame: &Frame) -> Result<u64, AppendError>
        requires { 1 ≤ length frame.now.body }
        ensures cause { HandsOn AppendFault (R.faults rack.old) (R.faults rack.new) result }
        ensures honest { R.honest rack.new ≡ R.honest rack.old }
        ensures calls { R.honest rack.old ≡ true → R.calls rack.new ≤ R.calls rack.old + 4 }
        ensures log { Appends self.old self.new (length frame.now.body) result }
        ensures untouched { IsUntouched rack.old rack.new result }
        ensures appended { R.honest rack.old ≡ true → Appended R.disk R.moment R.left_since rack.old rack.new (R.disk rack.old) (R.disk rack.new) self.old self.new frame.now.body result }
    {
        if self.spent {
            return Err(AppendError::Spent);
        }
        let len = frame.len();
        if self.limit < self.end + 6 + u64::from(len) {
            return Err(AppendError::DeviceFull {
                device: self.device,
                end: self.end,
                len,
            });
        }
        let done = append_at(rack, self.device, self.end, frame);
        self.note(done, len)
    }

    // What an append of `len` bytes leaves of the log, from what was answered.
    fn note(&mut self, done: Result<(), RackError>, len: u32) -> Result<u64, AppendError>
        requires fits { self.old.end + len + 6 ≤ self.old.limit }
        ensures { Noted self.old self.new len done result }
    {
        match done {
            Ok(()) => {
                let at = self.end + 5;
                self.end = at + u64::from(len);
                Ok(at)
            }
            Err(RackError::Fault) => {
                self.spent = true;
                Err(AppendError::RackFault)
            }
        }
    }

    /// The place of the gate at the end.
    pub fn end(&self) -> u64
        ensures gate { result ≡ self.now.end }
        ensures below { result < 2 ^ 40 }
    {
        self.end
    }

    /// The greatest size in bytes that the device may grow to.
    pub fn limit(&self) -> u64
        ensures limit { result ≡ self.now.limit }
        ensures most { result ≤ 2 ^ 40 }
    {
        self.limit
    }

    /// The device of the log.
    pub fn device(&self) -> u8
        ensures device { result ≡ self.now.device }
        ensures six { result ≤ 5 }
    {
        self.device
    }

    /// Whether a call of the rack failed in an append of this log: it is to be opened again.
    pub fn is_spent(&self) -> bool
        ensures { result ≡ self.now.spent }
    {
        self.spent
    }

    /// The place of the body behind a gate; none at the end of the log. Makes one call of the rack at most.
    pub fn walk<R: Rack>(&self, rack: &mut R, at: u64) -> Result<Option<Place>, LogError>
        requires { at ≤ self.now.end }
        ensures cause { HandsOn RackFault (R.faults rack.old) (R.faults rack.new) result }
        ensures honest { R.honest rack.new ≡ R.honest rack.old }
        ensures calls { R.honest rack.old ≡ true → R.calls rack.new ≤ R.calls rack.old + 1 }
        ensures walks { Walks self.now at result }
        ensures block { R.honest rack.old ≡ true → FindsBlock (R.disk rack.old self.now.device).image at self.now.end result }
        ensures quiet { R.honest rack.old ≡ true → Quiet R.moment R.left_since rack.old rack.new (R.disk rack.old) (R.disk rack.new) }
        ensures bodies { (bodies : List (List ℕ)) (i : ℕ) → R.honest rack.old ≡ true → parse (R.disk rack.old self.now.device).image ≡ Good bodies self.now.end → i < length bodies → at ≡ log_size (take i bodies)
            → WalksTo (place_behind at (length (slice_index_or bodies i []))) result }
    {
        let mut piece = Piece::without_room(self.device);
        self.walk_by(rack, &mut piece, at)
    }

    /// The place of the body behind a gate, as `walk` answers it, read by a piece of the log's device. Makes no call of the
    /// rack where the gate and the length behind it stand in the piece.
    pub fn walk_by<R: Rack>(
        &self,
        rack: &mut R,
        piece: &mut Piece,
        at: u64,
    ) -> Result<Option<Place>, LogError>
        requires device { piece.old.device ≡ self.now.device }
        requires within { at ≤ self.now.end }
        ensures cause { HandsOn RackFault (R.faults rack.old) (R.faults rack.new) result }
        ensures honest { R.honest rack.new ≡ R.honest rack.old }
        ensures calls { R.honest rack.old ≡ true → R.calls rack.new ≤ R.calls rack.old + 1 }
        ensures inside { stands_in piece.old at 5 ≡ true → rack.new ≡ rack.old }
        ensures device { piece.new.device ≡ self.now.device }
        ensures walks { Walks self.now at result }
        ensures quiet { R.honest rack.old ≡ true → Quiet R.moment R.left_since rack.old rack.new (R.disk rack.old) (R.disk rack.new) }
        ensures shows { R.honest rack.old ≡ true → Shows (R.disk rack.old self.now.device).image piece.old → Shows (R.disk rack.old self.now.device).image piece.new }
        ensures block { R.honest rack.old ≡ true → Shows (R.disk rack.old self.now.device).image piece.old → FindsBlock (R.disk rack.old self.now.device).image at self.now.end result }
        ensures bodies { (bodies : List (List ℕ)) (i : ℕ) → R.honest rack.old ≡ true → Shows (R.disk rack.old self.now.device).image piece.old
            → parse (R.disk rack.old self.now.device).image ≡ Good bodies self.now.end → i < length bodies → at ≡ log_size (take i bodies)
            → WalksTo (place_behind at (length (slice_index_or bodies i []))) result }
    {
        if at == self.end {
            return Ok(None);
        }
        match look(rack, piece, at, self.end + 1) {
            Ok(gate) => self.behind(at, gate),
            Err(RackError::Fault) => Err(LogError::RackFault),
        }
    }

    // The place of the body behind a gate, from what stands there.
    fn behind(&self, at: u64, gate: Gate) -> Result<Option<Place>, LogError>
        requires within { IsGate at (self.now.end + 1) gate }
        ensures { result ≡ placed self.now at gate }
    {
        match gate {
            Gate::Open(len) => {
                let body = at + 5;
                Ok(Some(Place {
                    at: body,
                    len,
                    next: body + u64::from(len),
                }))
            }
            Gate::Shut => Err(self.damage(at)),
            Gate::Broken => Err(self.damage(at)),
        }
    }

    // Damage at a place of this log's device.
    fn damage(&self, at: u64) -> LogError
        ensures { result ≡ Damage self.now.device at }
    {
        LogError::Damage {
            device: self.device,
            at,
        }
    }

    /// Copies bytes of the log from a place on, before its end. Makes one call of the rack at most.
    pub fn read_body<R: Rack>(&self, rack: &mut R, at: u64, into: &mut [u8]) -> Result<(), LogError>
        requires { at + length into.old ≤ self.now.end }
        ensures cause { HandsOn RackFault (R.faults rack.old) (R.faults rack.new) result }
        ensures honest { R.honest rack.new ≡ R.honest rack.old }
        ensures calls { R.honest rack.old ≡ true → R.calls rack.new ≤ R.calls rack.old + 1 }
        ensures place { NamesPlace self.now.device at result }
        ensures quiet { R.honest rack.old ≡ true → Quiet R.moment R.left_since rack.old rack.new (R.disk rack.old) (R.disk rack.new) }
        ensures bytes { R.honest rack.old ≡ true → ReadsBytes (R.disk rack.old self.now.device).image at into.new result }
    {
        let mut piece = Piece::without_room(self.device);
        self.read_body_by(rack, &mut piece, at, into)
    }

    /// Copies bytes of the log from a place on, before its end, read by a piece of the log's device. Makes no call of the
    /// rack where they stand in the piece.
    pub fn read_body_by<R: Rack>(
        &self,
        rack: &mut R,
        piece: &mut Piece,
        at: u64,
        into: &mut [u8],
    ) -> Result<(), LogError>
        requires device { piece.old.device ≡ self.now.device }
        requires within { at + length into.old ≤ self.now.end }
        ensures cause { HandsOn RackFault (R.faults rack.old) (R.faults rack.new) result }
        ensures honest { R.honest rack.new ≡ R.honest rack.old }
        ensures calls { R.honest rack.old ≡ true → R.calls rack.new ≤ R.calls rack.old + 1 }
        ensures inside { stands_in piece.old at (length into.old) ≡ true → rack.new ≡ rack.old }
        ensures device { piece.new.device ≡ self.now.device }
        ensures place { NamesPlace self.now.device at result }
        ensures quiet { R.honest rack.old ≡ true → Quiet R.moment R.left_since rack.old rack.new (R.disk rack.old) (R.disk rack.new) }
        ensures shows { R.honest rack.old ≡ true → Shows (R.disk rack.old self.now.device).image piece.old → Shows (R.disk rack.old self.now.device).image piece.new }
        ensures bytes { R.honest rack.old ≡ true → Shows (R.disk rack.old self.now.device).image piece.old → ReadsBytes (R.disk rack.old self.now.device).image at into.new result }
    {
        let wanted = into.len();
        match piece.read(rack, at, into) {
            Ok(count) => {
                if count < wanted {
                    return Err(self.damage(at));
                }
                Ok(())
            }
            Err(RackError::Fault) => Err(LogError::RackFault),
        }
    }
}
