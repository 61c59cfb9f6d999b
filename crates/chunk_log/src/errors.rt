// Why a call of a log was refused.
use volume_disk::RackError;

/// Why a log was not opened, or not read.
#[derive(Clone, Copy, Debug, PartialEq, Eq)]
pub enum LogError {
    /// A call of the rack failed.
    RackFault,
    /// The bytes of a device are no log: the gate at this place is open, and no body with a gate stands behind it.
    Damage { device: u8, at: u64 },
}

/// Why a body was not appended.
#[derive(Clone, Copy, Debug, PartialEq, Eq)]
pub enum AppendError {
    /// A call of the rack failed. The log is spent.
    RackFault,
    /// A body of `len` bytes behind the gate at `end` would pass the limit of the device. Nothing was changed.
    DeviceFull { device: u8, end: u64, len: u32 },
    /// An earlier append has failed: the log is to be opened again. Nothing was changed.
    Spent,
}
