ghost use Rattle.std.specs.Prelude.{◌≡◌};

use std::alloc::{AllocError, AllocFailed};
use thiserror::Error;

/// Why a text was not renamed, or a class's texts were not.
#[derive(Clone, Copy, Debug, PartialEq, Eq, Error)]
pub enum RenameError {
    /// The index of a text would pass 65,534.
    #[error("the pool is full")]
    Full,
    /// The text that this index needs would pass 65,535 bytes; the index is 0 where the text stands in no pool.
    #[error("the renamed text of {0} is too long")]
    Long(u16),
    /// There was no memory.
    #[error("out of memory")]
    Memory,
}

impl From<AllocError> for RenameError {
    ghost use Rattle.dj_rename.specs.declared.error.RenameError.TheVariants.{Memory};

    ghost from_gives = { λ _ e. e ≡ Memory };

    fn from(_error: AllocError) -> RenameError {
        RenameError::Memory
    }
}

impl<T: Drop> From<AllocFailed<T>> for RenameError {
    ghost use Rattle.dj_rename.specs.declared.error.RenameError.TheVariants.{Memory};

    ghost from_gives = { λ _ e. e ≡ Memory };

    fn from(_error: AllocFailed<T>) -> RenameError {
        RenameError::Memory
    }
}
