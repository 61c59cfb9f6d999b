// Six devices in memory, and the record of what was done to them.
ghost use Rattle.std.specs.Prelude.{◌≡◌, ◌↔◌, ◌+◌, ◌<◌, ◌≤◌, IsTrue, [], ◌∷◌, ◌++◌, ℕ, filter, length, All, IfOk, slice_index_or, vec_capacity};
ghost use Rattle.volume_disk.specs.Medium.{at_rest};
ghost use Rattle.volume_disk.specs.Disk.{SameElsewhere};
ghost use Rattle.volume_disk.specs.Record.{FitsCall, FitsWrite, IsBlank, Crashed, no_device, is_entry_elsewhere};

use crate::Pick;
use crate::device::Device;
use std::alloc::{AllocError, Global};
use std::marker::Model;

/// A call that changed a device, or what is pending there. The bytes of a write stand apart.
#[derive(Clone, Copy)]
pub enum Entry {
    Write {
        device: u8,
        at: u64,
        start: usize,
        len: usize,
    },
    Cut {
        device: u8,
        len: u64,
    },
    Sync {
        device: u8,
    },
}

/// Adds bytes to a list that has room for them.
fn extend(to: &mut Vec<u8>, more: &[u8])
    requires { length to.old.items + length more.now ≤ vec_capacity to.old }
    ensures items { to.new.items ≡ to.old.items ++ more.now }
    ensures capacity { vec_capacity to.old ≤ vec_capacity to.new }
{
    let _ = to.extend_from_slice(more);
}

/// Adds an entry to a list that has room for it.
fn push(entries: &mut Vec<Entry>, entry: Entry)
    requires { length entries.old.items < vec_capacity entries.old }
    ensures items { entries.new.items ≡ entries.old.items ++ entry ∷ [] }
    ensures capacity { vec_capacity entries.old ≤ vec_capacity entries.new }
{
    let _ = entries.push(entry);
}

impl Entry {
    ghost use Rattle.volume_disk.specs.Record.{entry_device};

    /// The device of the call.
    fn device(&self) -> u8
        ensures { result ≡ entry_device self.now }
    {
        match self {
            Entry::Write { device, .. } => *device,
            Entry::Cut { device, .. } => *device,
            Entry::Sync { device } => *device,
        }
    }
}

/// Forgets the entries of a device.
fn forget(entries: &mut Vec<Entry>, device: u8)
    ensures items { entries.new.items ≡ filter (is_entry_elsewhere device) entries.old.items }
    ensures fewer { length entries.new.items ≤ length entries.old.items }
    ensures capacity { vec_capacity entries.new ≡ vec_capacity entries.old }
{
    entries.retain(|entry| entry.device() != device);
}

/// Six empty devices.
fn blank_devices(alloc: Global, room: usize) -> Result<Vec<Device>, AllocError>
    ensures six { IfOk result (λ v. length v.items ≡ 6) }
    ensures blank { IfOk result (λ v. All (IsBlank room) v.items) }
{
    let mut devices = Vec::with_capacity(alloc, 6)?;
    for _count in 0..6usize {
        devices.push(Device::new(alloc, room)?)?;
    }
    Ok(devices)
}

/// Makes each device the crash image of a pick.
fn crash_all(devices: &mut [Device], pick: Pick)
    ensures { (device : ℕ) → device < length devices.old → Crashed pick (slice_index_or devices.old device no_device) (slice_index_or devices.new device no_device) }
{
    for device in devices.iter_mut() {
        device.crash(pick);
    }
}

/// The devices as they are, and the record that gives what they were at each moment before.
#[derive(Drop)]
pub struct RecordedDevices {
    devices: Vec<Device>,
    entries: Vec<Entry>,
    bytes: Vec<u8>,
    moment: usize,
    counted: usize,
    room: usize,
    calls: usize,
    written: usize,
}

impl Model for RecordedDevices {
    ghost use Rattle.std.specs.Prelude.{length};
    ghost use Rattle.volume_disk.specs.Record.{Recorded, bases_of, past_of, Stands, FitsBounds};

    ghost Value = { Recorded };

    ghost view = { λ r. record {
      bases = bases_of r.devices.items;
      past = past_of r.bytes.items r.entries.items;
      moment = r.moment;
      counted = r.counted;
      taken = length r.bytes.items;
      room = r.room;
      calls = r.calls;
      written = r.written;
    } };

    ghost invariant = { λ r. Stands r.devices.items (past_of r.bytes.items r.entries.items) r.room × FitsBounds r.entries r.bytes r.moment r.counted r.calls r.written };
}

impl RecordedDevices {
    ghost use Rattle.volume_disk.specs.Record.{Step, disk_of, with_step, with_image, blank_record, Crashes};
    ghost use Rattle.volume_disk.specs.Record.Step.{Writing, Cutting, Syncing};

    /// Empty devices with room for so many bytes each, and room for a record of so many calls and written bytes.
    pub fn new(alloc: Global, room: usize, calls: usize, written: usize) -> Result<Self, AllocError>
        ensures { IfOk result (λ r. r ≡ blank_record room calls written) }
    {
        Ok(RecordedDevices {
            devices: blank_devices(alloc, room)?,
            entries: Vec::with_capacity(alloc, calls)?,
            bytes: Vec::with_capacity(alloc, written)?,
            moment: 0,
            counted: 0,
            room,
            calls,
            written,
        })
    }

    /// Makes each device the crash image of a pick, and begins a clean record.
    pub fn crash(&mut self, pick: Pick)
        ensures { Crashes pick self.old self.new }
    {
        crash_all(&mut self.devices, pick);
        self.entries.clear();
        self.bytes.clear();
        self.moment = 0;
        self.counted = 0;
    }

    /// Gives a device another image, with nothing pending on it. The clock begins anew.
    pub fn set_image(&mut self, device: u8, image: &[u8])
        requires is_device { device ≤ 5 }
        requires room { length image.now ≤ self.old.room }
        ensures state { self.new ≡ with_image self.old device image.now }
        ensures rest { disk_of self.new device ≡ at_rest image.now }
        ensures others { SameElsewhere device (disk_of self.old) (disk_of self.new) }
    {
        forget(&mut self.entries, device);
        self.moment = 0;
        let state = &mut self.devices[device as usize];
        state.set(image);
    }

    /// Whether one call more fits the record.
    pub fn has_call(&self) -> bool
        ensures { IsTrue result ↔ FitsCall self.now }
    {
        self.counted < self.calls
    }

    /// Whether a write fits the record and its device.
    pub fn has_room(&self, at: u64, n: usize) -> bool
        ensures { IsTrue result ↔ FitsWrite self.now at n }
    {
        self.counted < self.calls
            && n <= self.room
            && at <= (self.room - n) as u64
            && n <= self.written - self.bytes.len()
    }

    /// Counts a call that changed nothing.
    pub fn look(&mut self)
        requires { FitsCall self.old }
        ensures { self.new ≡ record self.old { counted = self.old.counted + 1 } }
    {
        self.counted += 1;
    }

    /// Writes, and records it.
    pub fn write(&mut self, device: u8, at: u64, bytes: &[u8])
        requires is_device { device ≤ 5 }
        requires room { FitsWrite self.old at (length bytes.now) }
        ensures { self.new ≡ with_step self.old (Writing device at bytes.now) (length bytes.now) }
    {
        let start = self.bytes.len();
        extend(&mut self.bytes, bytes);
        let len = bytes.len();
        push(
            &mut self.entries,
            Entry::Write {
                device,
                at,
                start,
                len,
            },
        );
        self.moment += 1;
        self.counted += 1;
        let state = &mut self.devices[device as usize];
        state.write(at as usize, bytes);
    }

    /// Cuts, and records it.
    pub fn cut(&mut self, device: u8, len: u64)
        requires is_device { device ≤ 5 }
        requires call { FitsCall self.old }
        ensures { self.new ≡ with_step self.old (Cutting device len) 0 }
    {
        push(&mut self.entries, Entry::Cut { device, len });
        self.moment += 1;
        self.counted += 1;
        let state = &mut self.devices[device as usize];
        state.cut(len);
    }

    /// Syncs, and records it.
    pub fn sync(&mut self, device: u8)
        requires is_device { device ≤ 5 }
        requires call { FitsCall self.old }
        ensures { self.new ≡ with_step self.old (Syncing device) 0 }
    {
        push(&mut self.entries, Entry::Sync { device });
        self.moment += 1;
        self.counted += 1;
        let state = &mut self.devices[device as usize];
        state.sync();
    }

    /// A device as it reads.
    pub fn image(&self, device: u8) -> &[u8]
        requires { device ≤ 5 }
        ensures { result.now ≡ (disk_of self.now device).image }
    {
        self.devices[device as usize].image()
    }
}
