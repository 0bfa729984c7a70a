ghost use Rattle.std.specs.Prelude.{◌≡◌};

use dj_names::Name;
use std::alloc::{AllocError, AllocFailed};
use thiserror::Error;

/// Why a table was not made.
#[derive(Debug, Error, Drop)]
pub enum TableError {
    /// Two classes have this name, the least such one in the order of bytes.
    #[error("two classes have one name")]
    Duplicate(Name),
    /// There was no memory.
    #[error("out of memory")]
    Memory,
}

impl From<AllocError> for TableError {
    ghost use Rattle.dj_class_table.specs.declared.error.TableError.TheVariants.{Memory};

    ghost from_gives = { λ _ e. e ≡ Memory };

    fn from(_error: AllocError) -> TableError {
        TableError::Memory
    }
}

impl<T: Drop> From<AllocFailed<T>> for TableError {
    ghost use Rattle.dj_class_table.specs.declared.error.TableError.TheVariants.{Memory};

    ghost from_gives = { λ _ e. e ≡ Memory };

    fn from(_error: AllocFailed<T>) -> TableError {
        TableError::Memory
    }
}
