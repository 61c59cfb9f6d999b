// A rack in memory, that fails where it is told to and can be crashed.
ghost use Rattle.std.specs.Prelude.{◌≡◌, ◌≤◌, ℕ, ◌+◌, [], true, None, Some, IfOk, OnSome, IfSome, is_err, length, if◌then◌else◌};
ghost use Rattle.std.specs.Io.{ReadsAtMost};
ghost use Rattle.fault_count.specs.Counts.{HasCause, IsOver};
ghost use Rattle.volume_disk.specs.Medium.{at_rest, IsAtRest};
ghost use Rattle.volume_disk.specs.Calls.{calls_after};
ghost use Rattle.volume_disk.specs.Disk.{SameDisk, SameElsewhere, Crash, Gives, Writes, Cuts, Syncs};
ghost use Rattle.volume_disk.specs.Time.{Elapses};
ghost use Rattle.volume_disk.specs.Record.{Step, Recorded, FitsCall, FitsWrite, disk_of, LeftSince, with_step, with_image, blank_record, Crashes};
ghost use Rattle.volume_disk.specs.Record.Step.{Writing, Cutting, Syncing};
ghost use Rattle.volume_disk.specs.Memory.{Calls, with_look};
ghost use Rattle.volume_disk.specs.declared.rack.RackError.TheVariants.{Fault};

use crate::recorded::RecordedDevices;
use crate::turn::{Turn, next_turn};
use crate::{Pick, Rack, RackError};
use fault_count::FaultPlan;
use std::alloc::Global;
use std::marker::Model;

/// Six honest devices in memory. All their memory is taken when they are made.
#[derive(Drop)]
pub struct MemRack {
    devices: RecordedDevices,
    plan: FaultPlan,
    stop: Option<u64>,
}

impl Model for MemRack {
    ghost use Rattle.volume_disk.specs.Memory.{MemState};

    ghost Value = { MemState };

    ghost view = { λ r. record { devices = r.devices; plan = r.plan; stop = r.stop } };
}

impl MemRack {
    /// Six empty devices with room for `room` bytes each, on which nothing is pending, and room for a record of `calls`
    /// calls that wrote `written` bytes together. The calls whose numbers are listed will fail, each after it was done,
    /// but a sync, which is then not done. None is want of memory.
    pub fn new(
        alloc: Global,
        room: usize,
        calls: usize,
        written: usize,
        fails: Vec<u64>,
    ) -> Option<Self>
        ensures state { IfSome result (λ r. r ≡ record { devices = blank_record room calls written; plan = record { fails = fails.items; calls = 0; faults = 0 }; stop = None }) }
        ensures rest { IfSome result (λ r. (device : ℕ) → device ≤ 5 → disk_of r.devices device ≡ at_rest []) }
    {
        let devices = RecordedDevices::new(alloc, room, calls, written).ok()?;
        Some(MemRack {
            devices,
            plan: FaultPlan::new(fails),
            stop: None,
        })
    }

    /// Makes the call of this number and all later ones fail, each after it was done, but a sync, which is then not done.
    pub fn stop_at(&mut self, call: u64)
        ensures { self.new ≡ record self.old { stop = Some call } }
    {
        self.stop = Some(call);
    }

    /// Puts each device into the crash image of a pick, clears the stop and begins a clean record.
    pub fn crash(&mut self, pick: Pick)
        ensures devices { Crashes pick self.old.devices self.new.devices }
        ensures left { Crash (disk_of self.old.devices) (λ device. (disk_of self.new.devices device).image) }
        ensures rest { (device : ℕ) → IsAtRest (disk_of self.new.devices device) }
        ensures plan { self.new.plan ≡ self.old.plan }
        ensures stop { self.new.stop ≡ None }
    {
        self.devices.crash(pick);
        self.stop = None;
    }

    /// The bytes of a device, as a read gives them.
    pub fn image(&self, device: u8) -> &[u8]
        requires { device ≤ 5 }
        ensures { result.now ≡ (disk_of self.now.devices device).image }
    {
        self.devices.image(device)
    }

    /// Gives a device other bytes, with nothing pending on it. The others stay as they are, with what is pending there.
    pub fn set_image(&mut self, device: u8, bytes: &[u8])
        requires is_device { device ≤ 5 }
        requires room { length bytes.now ≤ self.old.devices.room }
        ensures state { self.new ≡ record self.old { devices = with_image self.old.devices device bytes.now } }
        ensures rest { disk_of self.new.devices device ≡ at_rest bytes.now }
        ensures others { SameElsewhere device (disk_of self.old.devices) (disk_of self.new.devices) }
    {
        self.devices.set_image(device, bytes);
    }

    /// Counts a call that changes no device.
    fn look(&mut self) -> Result<(), RackError>
        ensures { Calls self.old self.new (FitsCall self.old.devices) with_look (is_err result) }
    {
        let fits = self.devices.has_call();
        let turn = next_turn(&mut self.plan, self.stop, fits);
        if let Turn::Refused = turn {
            return Err(RackError::Fault);
        }
        self.devices.look();
        turn.answer()
    }

    /// Counts a write, and does it where it fits.
    fn write_counted(&mut self, device: u8, at: u64, bytes: &[u8]) -> Result<(), RackError>
        requires { device ≤ 5 }
        ensures { Calls self.old self.new (FitsWrite self.old.devices at (length bytes.now)) (λ r. with_step r (Writing device at bytes.now) (length bytes.now)) (is_err result) }
    {
        let fits = self.devices.has_room(at, bytes.len());
        let turn = next_turn(&mut self.plan, self.stop, fits);
        if let Turn::Refused = turn {
            return Err(RackError::Fault);
        }
        self.devices.write(device, at, bytes);
        turn.answer()
    }

    /// Counts a cut, and does it where it fits.
    fn cut_counted(&mut self, device: u8, len: u64) -> Result<(), RackError>
        requires { device ≤ 5 }
        ensures { Calls self.old self.new (FitsCall self.old.devices) (λ r. with_step r (Cutting device len) 0) (is_err result) }
    {
        let fits = self.devices.has_call();
        let turn = next_turn(&mut self.plan, self.stop, fits);
        if let Turn::Refused = turn {
            return Err(RackError::Fault);
        }
        self.devices.cut(device, len);
        turn.answer()
    }

    /// Counts a sync, and does it where it fits and doesn't fail.
    fn sync_counted(&mut self, device: u8) -> Result<(), RackError>
        requires { device ≤ 5 }
        ensures { Calls self.old self.new (FitsCall self.old.devices) (λ r. if is_err result then with_look r else with_step r (Syncing device) 0) (is_err result) }
    {
        let fits = self.devices.has_call();
        let turn = next_turn(&mut self.plan, self.stop, fits);
        match turn {
            Turn::Refused => Err(RackError::Fault),
            Turn::Fails => {
                self.devices.look();
                Err(RackError::Fault)
            }
            Turn::Runs => {
                self.devices.sync(device);
                Ok(())
            }
        }
    }
}

/// Copies bytes from a place on, as many as there is room for, and answers how many.
fn copy_from(image: &[u8], at: u64, into: &mut [u8]) -> usize
    ensures bound { result ≤ length into.new }
    ensures gives { Gives image.now at into.new result }
{
    let start = (at.min(image.len() as u64)) as usize;
    let rest = &image[start..];
    let count = rest.len().min(into.len());
    into[..count].copy_from_slice(&rest[..count]);
    count
}

impl Rack for MemRack {
    ghost use Rattle.std.specs.Prelude.{true};
    ghost use Rattle.volume_disk.specs.Record.{disk_of, LeftSince};
    ghost use Rattle.volume_disk.specs.RecordLaws as laws;

    ghost honest = { λ r. true };

    ghost faults = { λ r. r.plan.faults };

    ghost calls = { λ r. r.plan.calls };

    ghost disk = { λ r. disk_of r.devices };

    ghost moment = { λ r. r.devices.moment };

    ghost left_since = { λ r. LeftSince r.devices };

    ghost counts_now = { λ r t c honest le crash. laws.counts_now r.devices t c le crash };

    ghost only_now = { λ r c honest left. laws.only_now r.devices c left };

    ghost reads_alike = { λ r device honest. laws.reads_alike r.devices device };

    fn size(&mut self, device: u8) -> Result<u64, RackError>
        requires { device ≤ 5 }
        ensures calls { Calls self.old self.new (FitsCall self.old.devices) with_look (is_err result) }
        ensures cause { HasCause Fault self.old.plan.faults self.new.plan.faults result }
        ensures counted { self.new.plan.calls ≡ calls_after self.old.plan.faults self.old.plan.calls }
        ensures value { IfOk result (λ n. n ≡ length (disk_of self.old.devices device).image) }
        ensures same { SameDisk (disk_of self.old.devices) (disk_of self.new.devices) }
        ensures time { Elapses self.old.devices.moment self.new.devices.moment (LeftSince self.old.devices) (LeftSince self.new.devices) (Crash (disk_of self.new.devices)) }
        ensures over { IsOver self.old.plan.faults → self.new ≡ self.old }
    {
        self.look()?;
        Ok(self.devices.image(device).len() as u64)
    }

    fn read(&mut self, device: u8, at: u64, into: &mut [u8]) -> Result<usize, RackError>
        requires { device ≤ 5 }
        ensures calls { Calls self.old self.new (FitsCall self.old.devices) with_look (is_err result) }
        ensures bound { ReadsAtMost result into.new }
        ensures cause { HasCause Fault self.old.plan.faults self.new.plan.faults result }
        ensures counted { self.new.plan.calls ≡ calls_after self.old.plan.faults self.old.plan.calls }
        ensures bytes { IfOk result (Gives (disk_of self.old.devices device).image at into.new) }
        ensures same { SameDisk (disk_of self.old.devices) (disk_of self.new.devices) }
        ensures time { Elapses self.old.devices.moment self.new.devices.moment (LeftSince self.old.devices) (LeftSince self.new.devices) (Crash (disk_of self.new.devices)) }
        ensures over { IsOver self.old.plan.faults → self.new ≡ self.old }
    {
        self.look()?;
        Ok(copy_from(self.devices.image(device), at, into))
    }

    fn write(&mut self, device: u8, at: u64, bytes: &[u8]) -> Result<(), RackError>
        requires { device ≤ 5 }
        ensures calls { Calls self.old self.new (FitsWrite self.old.devices at (length bytes.now)) (λ r. with_step r (Writing device at bytes.now) (length bytes.now)) (is_err result) }
        ensures cause { HasCause Fault self.old.plan.faults self.new.plan.faults result }
        ensures counted { self.new.plan.calls ≡ calls_after self.old.plan.faults self.old.plan.calls }
        ensures disk { Writes device at bytes.now (disk_of self.old.devices) (disk_of self.new.devices) result }
        ensures time { Elapses self.old.devices.moment self.new.devices.moment (LeftSince self.old.devices) (LeftSince self.new.devices) (Crash (disk_of self.new.devices)) }
        ensures over { IsOver self.old.plan.faults → self.new ≡ self.old }
    {
        self.write_counted(device, at, bytes)
    }

    fn cut(&mut self, device: u8, len: u64) -> Result<(), RackError>
        requires { device ≤ 5 }
        ensures calls { Calls self.old self.new (FitsCall self.old.devices) (λ r. with_step r (Cutting device len) 0) (is_err result) }
        ensures cause { HasCause Fault self.old.plan.faults self.new.plan.faults result }
        ensures counted { self.new.plan.calls ≡ calls_after self.old.plan.faults self.old.plan.calls }
        ensures disk { Cuts device len (disk_of self.old.devices) (disk_of self.new.devices) result }
        ensures time { Elapses self.old.devices.moment self.new.devices.moment (LeftSince self.old.devices) (LeftSince self.new.devices) (Crash (disk_of self.new.devices)) }
        ensures over { IsOver self.old.plan.faults → self.new ≡ self.old }
    {
        self.cut_counted(device, len)
    }

    fn sync(&mut self, device: u8) -> Result<(), RackError>
        requires { device ≤ 5 }
        ensures calls { Calls self.old self.new (FitsCall self.old.devices) (λ r. if is_err result then with_look r else with_step r (Syncing device) 0) (is_err result) }
        ensures cause { HasCause Fault self.old.plan.faults self.new.plan.faults result }
        ensures counted { self.new.plan.calls ≡ calls_after self.old.plan.faults self.old.plan.calls }
        ensures disk { Syncs device (disk_of self.old.devices) (disk_of self.new.devices) result }
        ensures time { Elapses self.old.devices.moment self.new.devices.moment (LeftSince self.old.devices) (LeftSince self.new.devices) (Crash (disk_of self.new.devices)) }
        ensures over { IsOver self.old.plan.faults → self.new ≡ self.old }
    {
        self.sync_counted(device)
    }
}
