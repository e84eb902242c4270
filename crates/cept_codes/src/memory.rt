ghost use Rattle.std.specs.Prelude.{◌≡◌};
ghost use Rattle.cept_codes.specs.Memory.{no_memory};

use std::alloc::{AllocError, AllocFailed};
use thiserror::Error;

/// The machine had no memory for a value.
#[derive(Clone, Copy, Debug, PartialEq, Eq, Error)]
#[error("out of memory")]
pub struct NoMemory;

impl From<AllocError> for NoMemory {
    ghost from_gives = { λ _ e. e ≡ no_memory };

    fn from(_error: AllocError) -> NoMemory {
        NoMemory
    }
}

impl<T: Drop> From<AllocFailed<T>> for NoMemory {
    ghost from_gives = { λ _ e. e ≡ no_memory };

    fn from(_error: AllocFailed<T>) -> NoMemory {
        NoMemory
    }
}
