// Why a document could not be read.
ghost use Rattle.std.specs.Prelude.{◌≡◌};
ghost use Rattle.bound_cert.specs.declared.doc_error.DocError.TheVariants.{Memory};

use seed_model::NoMemory;
use std::alloc::{AllocError, AllocFailed};

/// Why a text was read as no document.
#[derive(Clone, Copy, Debug, PartialEq, Eq)]
pub enum DocError {
    /// The text is in no document's form; the line, counted from 1, is the first that breaks it.
    Bad { line: u64 },
    /// Memory ran out.
    Memory,
}

impl From<NoMemory> for DocError {
    ghost from_gives = { λ _ e. e ≡ Memory };

    fn from(_: NoMemory) -> DocError {
        DocError::Memory
    }
}

impl From<AllocError> for DocError {
    ghost from_gives = { λ _ e. e ≡ Memory };

    fn from(_: AllocError) -> DocError {
        DocError::Memory
    }
}

impl<T: Drop> From<AllocFailed<T>> for DocError {
    ghost from_gives = { λ _ e. e ≡ Memory };

    fn from(_: AllocFailed<T>) -> DocError {
        DocError::Memory
    }
}
