// Six devices that keep their bytes past a crash.
ghost use Rattle.std.specs.Prelude.{◌≡◌, ◌≤◌, Bool, ℕ, true, length, IfOk};
ghost use Rattle.std.specs.Io.{ReadsAtMost};
ghost use Rattle.fault_count.specs.Counts.{HasCause, IsOver};
ghost use Rattle.volume_disk.specs.Calls.{calls_after};
ghost use Rattle.volume_disk.specs.Disk.{Disk, Images, Crash, SameDisk, Gives, Writes, Cuts, Syncs};
ghost use Rattle.volume_disk.specs.Medium.{MayLeave};
ghost use Rattle.volume_disk.specs.Time.{Elapses};
ghost use Rattle.volume_disk.specs.declared.rack.RackError.TheVariants.{Fault};

/// Why a call of a rack gave no answer.
#[derive(Clone, Copy, Debug, PartialEq, Eq)]
pub enum RackError {
    /// The call failed, and the count of faults rose or stands at its last value.
    Fault,
}

/// Six devices, numbered 0 to 5, each a string of bytes. An honest rack does what the disk model says; whether it is
/// honest never changes. Every clause on what the devices hold is about an honest rack.
pub trait Rack {
    /// Whether the rack is honest, and so tells what its devices hold.
    ghost honest: { Self → Bool };

    /// How many calls have failed. It stands still at 2^64 - 1.
    ghost faults: { Self → ℕ };

    /// How many calls were made, those that failed too. It stands still at 2^64 - 1, and where the faults stand at
    /// their last value.
    ghost calls: { Self → ℕ };

    /// The devices: what a read gives, and what a crash now may leave.
    ghost disk: { Self → Disk };

    /// The moment, on one clock for all devices.
    ghost moment: { Self → ℕ };

    /// What a crash at some moment from that one on might have left.
    ghost left_since: { Self → ℕ → Images → Type 0 };

    /// The size of a device in bytes.
    fn size(&mut self, device: u8) -> Result<u64, RackError>
        requires { device ≤ 5 }
        ensures cause { HasCause Fault (faults self.old) (faults self.new) result }
        ensures honest { honest self.new ≡ honest self.old }
        ensures counted { honest self.old ≡ true → calls self.new ≡ calls_after (faults self.old) (calls self.old) }
        ensures value { honest self.old ≡ true → IfOk result (λ n. n ≡ length (disk self.old device).image) }
        ensures same { honest self.old ≡ true → SameDisk (disk self.old) (disk self.new) }
        ensures time { honest self.old ≡ true → Elapses (moment self.old) (moment self.new) (left_since self.old) (left_since self.new) (Crash (disk self.new)) }
        ensures over { IsOver (faults self.old) → self.new ≡ self.old };

    /// Copies the bytes of a device from a place on, as many as `into` has room for, and answers how many. Fewer come
    /// only at the end.
    fn read(&mut self, device: u8, at: u64, into: &mut [u8]) -> Result<usize, RackError>
        requires { device ≤ 5 }
        ensures bound { ReadsAtMost result into.new }
        ensures cause { HasCause Fault (faults self.old) (faults self.new) result }
        ensures honest { honest self.new ≡ honest self.old }
        ensures counted { honest self.old ≡ true → calls self.new ≡ calls_after (faults self.old) (calls self.old) }
        ensures bytes { honest self.old ≡ true → IfOk result (Gives (disk self.old device).image at into.new) }
        ensures same { honest self.old ≡ true → SameDisk (disk self.old) (disk self.new) }
        ensures time { honest self.old ≡ true → Elapses (moment self.old) (moment self.new) (left_since self.old) (left_since self.new) (Crash (disk self.new)) }
        ensures over { IsOver (faults self.old) → self.new ≡ self.old };

    /// Replaces the bytes from a place on, and lengthens the device as needed; a gap before them is filled with zeros.
    /// After a fault the range, with its gap, may hold any bytes, and the size lies between the old and the new one.
    fn write(&mut self, device: u8, at: u64, bytes: &[u8]) -> Result<(), RackError>
        requires { device ≤ 5 }
        ensures cause { HasCause Fault (faults self.old) (faults self.new) result }
        ensures honest { honest self.new ≡ honest self.old }
        ensures counted { honest self.old ≡ true → calls self.new ≡ calls_after (faults self.old) (calls self.old) }
        ensures disk { honest self.old ≡ true → Writes device at bytes.now (disk self.old) (disk self.new) result }
        ensures time { honest self.old ≡ true → Elapses (moment self.old) (moment self.new) (left_since self.old) (left_since self.new) (Crash (disk self.new)) }
        ensures over { IsOver (faults self.old) → self.new ≡ self.old };

    /// Drops the bytes from a length on; it never lengthens. After a fault the size lies between the old and the new one.
    fn cut(&mut self, device: u8, len: u64) -> Result<(), RackError>
        requires { device ≤ 5 }
        ensures cause { HasCause Fault (faults self.old) (faults self.new) result }
        ensures honest { honest self.new ≡ honest self.old }
        ensures counted { honest self.old ≡ true → calls self.new ≡ calls_after (faults self.old) (calls self.old) }
        ensures disk { honest self.old ≡ true → Cuts device len (disk self.old) (disk self.new) result }
        ensures time { honest self.old ≡ true → Elapses (moment self.old) (moment self.new) (left_since self.old) (left_since self.new) (Crash (disk self.new)) }
        ensures over { IsOver (faults self.old) → self.new ≡ self.old };

    /// Makes all that was written to a device last. After that a crash leaves what a read gives. After a fault what
    /// was pending still is.
    fn sync(&mut self, device: u8) -> Result<(), RackError>
        requires { device ≤ 5 }
        ensures cause { HasCause Fault (faults self.old) (faults self.new) result }
        ensures honest { honest self.new ≡ honest self.old }
        ensures counted { honest self.old ≡ true → calls self.new ≡ calls_after (faults self.old) (calls self.old) }
        ensures disk { honest self.old ≡ true → Syncs device (disk self.old) (disk self.new) result }
        ensures time { honest self.old ≡ true → Elapses (moment self.old) (moment self.new) (left_since self.old) (left_since self.new) (Crash (disk self.new)) }
        ensures over { IsOver (faults self.old) → self.new ≡ self.old };

    /// This moment is one of those since an earlier one.
    ghost counts_now: { (rack : Self) (t : ℕ) (c : Images) → honest rack ≡ true → t ≤ moment rack → Crash (disk rack) c → left_since rack t c };

    /// Since this moment there is no other.
    ghost only_now: { (rack : Self) (c : Images) → honest rack ≡ true → left_since rack (moment rack) c → Crash (disk rack) c };

    /// A device as it reads is one of its crash images.
    ghost reads_alike: { (rack : Self) (device : ℕ) → honest rack ≡ true → MayLeave (disk rack device) (disk rack device).image };
}
