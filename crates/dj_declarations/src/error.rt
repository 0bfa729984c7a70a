ghost use Rattle.std.specs.Prelude.{◌≡◌};

use std::alloc::{AllocError, AllocFailed};
use thiserror::Error;

/// Why a class was not declared.
#[derive(Clone, Copy, Debug, PartialEq, Eq, Error)]
pub enum DeclareError {
    /// There was no memory.
    #[error("out of memory")]
    Memory,
}

impl From<AllocError> for DeclareError {
    ghost use Rattle.dj_declarations.specs.declared.error.DeclareError.TheVariants.{Memory};

    ghost from_gives = { λ _ e. e ≡ Memory };

    fn from(_error: AllocError) -> DeclareError {
        DeclareError::Memory
    }
}

impl<T: Drop> From<AllocFailed<T>> for DeclareError {
    ghost use Rattle.dj_declarations.specs.declared.error.DeclareError.TheVariants.{Memory};

    ghost from_gives = { λ _ e. e ≡ Memory };

    fn from(_error: AllocFailed<T>) -> DeclareError {
        DeclareError::Memory
    }
}
