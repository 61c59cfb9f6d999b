// Why a call of a site was refused.
ghost use Rattle.std.specs.Prelude.{◌≡◌};
ghost use Rattle.seed_mover.specs.declared.errors.SiteError.TheVariants.{Memory};
ghost use Rattle.seed_mover.specs.Errors.{of_volume, of_journal};

use chunk_volume::VolError;
use move_journal::JournalError;
use recipe_reader::What;
use seed_model::NoMemory;
use std::alloc::AllocError;

/// Why a call of a site gave no answer. Where nothing else is said, all but a fault leave it as it was.
#[derive(Clone, Copy, Debug, PartialEq, Eq)]
pub enum SiteError {
    /// A call of the rack failed. After a call that takes the site by `&mut` it is spent.
    RackFault,
    /// An earlier call has failed: the site is to be opened again.
    Spent,
    /// Memory ran out.
    Memory,
    /// A or B holds the file.
    Exists,
    /// Neither volume holds the file, or A lacks a name of a migration.
    NoSuchFile,
    /// A migration is open.
    MigrationOpen,
    /// B holds a file.
    TargetNotEmpty,
    /// No files are moving.
    NothingOpen,
    /// The files have not moved.
    NotMoved,
    /// Other bytes with the same digest are kept under this name.
    Collision { name: [u8; 32] },
    /// The bytes of this device are no log, or the record behind the gate at this place does not fold or does not fit, or
    /// the log ends before the bytes at this place.
    Damage { device: u8, at: u64 },
    /// The bytes read for a chunk have another digest.
    BadChunk { name: [u8; 32], found: [u8; 32] },
    /// A record of `len` bytes behind the gate at `end` would pass the limit of the device.
    DeviceFull { device: u8, end: u64, len: u32 },
    /// The files would pass this limit of a recipe.
    VolumeFull(What),
}

impl From<NoMemory> for SiteError {
    ghost from_gives = { λ _ e. e ≡ Memory };

    fn from(_: NoMemory) -> SiteError {
        SiteError::Memory
    }
}

impl From<AllocError> for SiteError {
    ghost from_gives = { λ _ e. e ≡ Memory };

    fn from(_: AllocError) -> SiteError {
        SiteError::Memory
    }
}

impl From<VolError> for SiteError {
    ghost from_gives = { λ v e. e ≡ of_volume v };

    fn from(error: VolError) -> SiteError {
        match error {
            VolError::RackFault => SiteError::RackFault,
            VolError::Damage { device, at } => SiteError::Damage { device, at },
            VolError::BadChunk { name, found } => SiteError::BadChunk { name, found },
            VolError::Collision { name } => SiteError::Collision { name },
            VolError::Exists => SiteError::Exists,
            VolError::NoSuchFile => SiteError::NoSuchFile,
            VolError::DeviceFull { device, end, len } => SiteError::DeviceFull { device, end, len },
            VolError::Spent => SiteError::Spent,
            VolError::Memory => SiteError::Memory,
        }
    }
}

impl From<JournalError> for SiteError {
    ghost from_gives = { λ j e. e ≡ of_journal j };

    fn from(error: JournalError) -> SiteError {
        match error {
            JournalError::RackFault => SiteError::RackFault,
            JournalError::Damage { device, at } => SiteError::Damage { device, at },
            JournalError::DeviceFull { device, end, len } => {
                SiteError::DeviceFull { device, end, len }
            }
            JournalError::Spent => SiteError::Spent,
            JournalError::Memory => SiteError::Memory,
        }
    }
}
