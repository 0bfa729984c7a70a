ghost use Rattle.std.specs.Prelude.{◌≡◌};

use std::alloc::{AllocError, AllocFailed};
use thiserror::Error;

/// Why shape was not judged.
#[derive(Clone, Copy, Debug, PartialEq, Eq, Error)]
pub enum ShapeError {
    /// There was no memory.
    #[error("out of memory")]
    Memory,
}

impl From<AllocError> for ShapeError {
    ghost use Rattle.dj_shape_rule.specs.declared.error.ShapeError.TheVariants.{Memory};

    ghost from_gives = { λ _ e. e ≡ Memory };

    fn from(_error: AllocError) -> ShapeError {
        ShapeError::Memory
    }
}

impl<T: Drop> From<AllocFailed<T>> for ShapeError {
    ghost use Rattle.dj_shape_rule.specs.declared.error.ShapeError.TheVariants.{Memory};

    ghost from_gives = { λ _ e. e ≡ Memory };

    fn from(_error: AllocFailed<T>) -> ShapeError {
        ShapeError::Memory
    }
}

impl From<ShapeError> for AllocError {
    ghost use Rattle.std.specs.declared.alloc.AllocError.{AllocError};

    ghost from_gives = { λ _ e. e ≡ record {} };

    fn from(_error: ShapeError) -> AllocError {
        AllocError
    }
}
