use std::alloc::{AllocError, AllocFailed};
use thiserror::Error;

/// Why no frame was pushed.
#[derive(Clone, Copy, Debug, PartialEq, Eq, Error)]
pub enum PushError {
    /// There are 1,024 frames.
    #[error("there are 1,024 frames")]
    TooDeep,
    /// There was no memory.
    #[error("out of memory")]
    Memory,
}

impl From<AllocError> for PushError {
    ghost use Rattle.std.specs.Prelude.{◌≡◌};
    ghost use Rattle.dj_stack.specs.declared.errors.PushError.TheVariants.{Memory};

    ghost from_gives = { λ _ e. e ≡ Memory };

    fn from(_e: AllocError) -> PushError {
        PushError::Memory
    }
}

impl<T: Drop> From<AllocFailed<T>> for PushError {
    ghost use Rattle.std.specs.Prelude.{◌≡◌};
    ghost use Rattle.dj_stack.specs.declared.errors.PushError.TheVariants.{Memory};

    ghost from_gives = { λ _ e. e ≡ Memory };

    fn from(_e: AllocFailed<T>) -> PushError {
        PushError::Memory
    }
}
