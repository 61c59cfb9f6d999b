// Why a call of a volume was refused.
ghost use Rattle.std.specs.Prelude.{◌≡◌};
ghost use Rattle.chunk_volume.specs.declared.errors.VolError.TheVariants.{Memory};
ghost use Rattle.chunk_volume.specs.Errors.{of_log};

use chunk_log::LogError;
use seed_model::NoMemory;
use std::alloc::AllocError;

/// Why a call of a volume gave no answer. All but a fault leave it as it was.
#[derive(Clone, Copy, Debug, PartialEq, Eq)]
pub enum VolError {
    /// A call of the rack failed. After a call that writes, the volume is spent.
    RackFault,
    /// The bytes of this device are no log, or the record behind the gate at this place does not fold, or the log ends
    /// before the bytes at this place.
    Damage { device: u8, at: u64 },
    /// The bytes read for a chunk have another digest.
    BadChunk { name: [u8; 32], found: [u8; 32] },
    /// Other bytes with the same digest are held under this name.
    Collision { name: [u8; 32] },
    /// The volume holds the file.
    Exists,
    /// The volume lacks the file.
    NoSuchFile,
    /// A record of `len` bytes behind the gate at `end` would pass the limit of the device.
    DeviceFull { device: u8, end: u64, len: u32 },
    /// An earlier call has failed: the volume is to be opened again.
    Spent,
    /// Memory ran out.
    Memory,
}

impl From<NoMemory> for VolError {
    ghost from_gives = { λ _ e. e ≡ Memory };

    fn from(_: NoMemory) -> VolError {
        VolError::Memory
    }
}

impl From<LogError> for VolError {
    ghost from_gives = { λ l e. e ≡ of_log l };

    fn from(error: LogError) -> VolError {
        match error {
            LogError::RackFault => VolError::RackFault,
            LogError::Damage { device, at } => VolError::Damage { device, at },
        }
    }
}

impl From<AllocError> for VolError {
    ghost from_gives = { λ _ e. e ≡ Memory };

    fn from(_: AllocError) -> VolError {
        VolError::Memory
    }
}
