// Pieces of devices.
ghost use Rattle.std.specs.Prelude.{◌≡◌, ◌+◌, ◌-◌, ◌<◌, ◌≤◌, [], true, length, take, drop, min, IfOk, IsErr, OnOk};
ghost use Rattle.std.specs.Io.{ReadsAtMost};
ghost use Rattle.fault_count.specs.Counts.{HandsOn};
ghost use Rattle.volume_disk.specs.Disk.{Gives};
ghost use Rattle.volume_disk.specs.declared.rack.RackError.TheVariants.{Fault};
ghost use Rattle.device_pieces.specs.Pieces.{Reads, Shows, no_piece, piece_at, stands_in};
ghost use Rattle.device_pieces.specs.Quiet.{Quiet};

use seed_model::NoMemory;
use std::alloc::Global;
use std::marker::Model;
use volume_disk::{Rack, RackError};

/// How many bytes of a device are read in one call, where fewer are asked for and the piece has room.
pub const LONGEST_PIECE: usize = 65_536;

/// Bytes of a device, from a place on, as they were read. They stay as they are when the device is written.
#[derive(Drop)]
pub struct Piece {
    device: u8,
    at: u64,
    count: usize,
    room: Option<Vec<u8>>,
}

impl Model for Piece {
    ghost use Rattle.device_pieces.specs.PieceValues.{PieceValue, piece_code, piece_in, KeepsPiece};

    ghost Value = { PieceValue };

    ghost coded = { piece_code };

    ghost view = { λ p. piece_in p.device p.at p.count p.room };

    ghost invariant = { λ p. KeepsPiece p.device p.count p.room };
}

impl Piece {
    /// Room for a piece of a device, 0 to 5, of which nothing is read yet.
    pub fn room(alloc: Global, device: u8) -> Result<Piece, NoMemory>
        requires { device ≤ 5 }
        ensures { IfOk result (λ piece. piece ≡ no_piece device LONGEST_PIECE) }
    {
        let mut room = Vec::new(alloc);
        room.resize(LONGEST_PIECE, 0)?;
        Ok(Piece {
            device,
            at: 0,
            count: 0,
            room: Some(room),
        })
    }

    /// A piece of a device, 0 to 5, without room: each read of some bytes is a call of the rack. Takes no memory.
    pub fn without_room(device: u8) -> Piece
        requires { device ≤ 5 }
        ensures { result ≡ no_piece device 0 }
    {
        Piece {
            device,
            at: 0,
            count: 0,
            room: None,
        }
    }

    /// Turns to a device, 0 to 5, of which nothing is read yet, and keeps the room. Takes no memory.
    pub fn turn_to(&mut self, device: u8)
        requires { device ≤ 5 }
        ensures { self.new ≡ no_piece device self.old.width }
    {
        self.device = device;
        self.at = 0;
        self.count = 0;
    }

    /// The device.
    pub fn device(&self) -> u8
        ensures device { result ≡ self.now.device }
        ensures six { result ≤ 5 }
    {
        self.device
    }

    /// Copies the bytes of the device from a place on, as many as `into` has room for, and answers how many; fewer come only
    /// at the end. Where they stand in the piece no call of the rack is made, and no more than one elsewhere, by which the
    /// bytes that begin there, as many as there is room for, take the place of the piece; where more are asked for they are
    /// read past it.
    pub fn read<R: Rack>(
        &mut self,
        rack: &mut R,
        at: u64,
        into: &mut [u8],
    ) -> Result<usize, RackError>
        ensures bound { ReadsAtMost result into.new }
        ensures cause { HandsOn Fault (R.faults rack.old) (R.faults rack.new) result }
        ensures honest { R.honest rack.new ≡ R.honest rack.old }
        ensures calls { R.honest rack.old ≡ true → R.calls rack.new ≤ R.calls rack.old + 1 }
        ensures inside { stands_in self.old at (length into.old) ≡ true → rack.new ≡ rack.old }
        ensures device { self.new.device ≡ self.old.device }
        ensures width { self.new.width ≡ self.old.width }
        ensures quiet { R.honest rack.old ≡ true → Quiet R.moment R.left_since rack.old rack.new (R.disk rack.old) (R.disk rack.new) }
        ensures piece { R.honest rack.old ≡ true → OnOk result (Reads (R.disk rack.old self.old.device).image at (length into.old) self.old self.new) }
        ensures shows { R.honest rack.old ≡ true → Shows (R.disk rack.old self.old.device).image self.old → Shows (R.disk rack.old self.old.device).image self.new }
        ensures bytes { R.honest rack.old ≡ true → Shows (R.disk rack.old self.old.device).image self.old → IfOk result (Gives (R.disk rack.old self.old.device).image at into.new) }
    {
        if self.has(at, into.len()) {
            return Ok(self.copy_from(at, into));
        }
        if self.width() < into.len() {
            return rack.read(self.device, at, into);
        }
        self.fill(rack, at)?;
        Ok(self.copy_front(into))
    }

    // Whether so many bytes from a place on stand in the piece.
    fn has(&self, at: u64, len: usize) -> bool
        ensures { result ≡ stands_in self.now at len }
    {
        self.at <= at
            && at - self.at <= self.count as u64
            && len as u64 <= self.count as u64 - (at - self.at)
    }

    // How many bytes there is room for.
    fn width(&self) -> usize
        ensures { result ≡ self.now.width }
    {
        match &self.room {
            Some(room) => room.len(),
            None => 0,
        }
    }

    // The bytes of the piece.
    fn bytes(&self) -> &[u8]
        ensures { result.now ≡ self.now.bytes }
    {
        match &self.room {
            Some(room) => &room[..self.count],
            None => &[],
        }
    }

    // Copies bytes that stand in the piece.
    fn copy_from(&self, at: u64, into: &mut [u8]) -> usize
        requires { stands_in self.now at (length into.old) ≡ true }
        ensures count { result ≡ length into.old }
        ensures width { length into.new ≡ length into.old }
        ensures bytes { into.new ≡ take (length into.old) (drop (at - self.now.at) self.now.bytes) }
    {
        let from = (at - self.at) as usize;
        into.copy_from_slice(&self.bytes()[from..from + into.len()]);
        into.len()
    }

    // Reads a piece that begins at a place, of as many bytes as there is room for.
    fn fill<R: Rack>(&mut self, rack: &mut R, at: u64) -> Result<(), RackError>
        ensures cause { HandsOn Fault (R.faults rack.old) (R.faults rack.new) result }
        ensures honest { R.honest rack.new ≡ R.honest rack.old }
        ensures calls { R.honest rack.old ≡ true → R.calls rack.new ≤ R.calls rack.old + 1 }
        ensures device { self.new.device ≡ self.old.device }
        ensures width { self.new.width ≡ self.old.width }
        ensures quiet { R.honest rack.old ≡ true → Quiet R.moment R.left_since rack.old rack.new (R.disk rack.old) (R.disk rack.new) }
        ensures piece { R.honest rack.old ≡ true → OnOk result (self.new ≡ piece_at (R.disk rack.old self.old.device).image self.old.device self.old.width at) }
        ensures none { IsErr result → self.new.bytes ≡ [] }
    {
        self.count = 0;
        self.at = at;
        let Some(room) = &mut self.room else {
            return Ok(());
        };
        self.count = rack.read(self.device, at, room.as_mut_slice())?;
        Ok(())
    }

    // Copies the first bytes of the piece, as many as there are or there is room for, and answers how many.
    fn copy_front(&self, into: &mut [u8]) -> usize
        ensures count { result ≡ min (length into.old) (length self.now.bytes) }
        ensures width { length into.new ≡ length into.old }
        ensures bytes { take result into.new ≡ take result self.now.bytes }
    {
        let bytes = self.bytes();
        let count = into.len().min(bytes.len());
        into[..count].copy_from_slice(&bytes[..count]);
        count
    }
}
