ghost use Rattle.std.specs.Prelude.{◌≡◌};

use std::alloc::{AllocError, AllocFailed};
use thiserror::Error;

/// Why a set of class files is not made or not judged.
#[derive(Clone, Copy, Debug, PartialEq, Eq, Error)]
pub enum SandboxError {
    /// There was no memory.
    #[error("out of memory")]
    Memory,
}

impl From<AllocError> for SandboxError {
    ghost use Rattle.dj_class_set.specs.declared.error.SandboxError.TheVariants.{Memory};

    ghost from_gives = { λ _ e. e ≡ Memory };

    fn from(_error: AllocError) -> SandboxError {
        SandboxError::Memory
    }
}

impl<T: Drop> From<AllocFailed<T>> for SandboxError {
    ghost use Rattle.dj_class_set.specs.declared.error.SandboxError.TheVariants.{Memory};

    ghost from_gives = { λ _ e. e ≡ Memory };

    fn from(_error: AllocFailed<T>) -> SandboxError {
        SandboxError::Memory
    }
}
