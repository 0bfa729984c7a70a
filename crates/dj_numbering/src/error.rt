ghost use Rattle.std.specs.Prelude.{◌≡◌};

use std::alloc::{AllocError, AllocFailed};
use thiserror::Error;

/// Why classes and arrays were not numbered.
#[derive(Clone, Copy, Debug, PartialEq, Eq, Error)]
pub enum TypesError {
    /// There was no memory.
    #[error("out of memory")]
    Memory,
}

impl From<AllocError> for TypesError {
    ghost use Rattle.dj_numbering.specs.declared.error.TypesError.TheVariants.{Memory};

    ghost from_gives = { λ _ e. e ≡ Memory };

    fn from(_error: AllocError) -> TypesError {
        TypesError::Memory
    }
}

impl<T: Drop> From<AllocFailed<T>> for TypesError {
    ghost use Rattle.dj_numbering.specs.declared.error.TypesError.TheVariants.{Memory};

    ghost from_gives = { λ _ e. e ≡ Memory };

    fn from(_error: AllocFailed<T>) -> TypesError {
        TypesError::Memory
    }
}
