ghost use Rattle.std.specs.Prelude.{◌≡◌};

use std::alloc::{AllocError, AllocFailed};
use thiserror::Error;

/// Why code was not put in groups.
#[derive(Clone, Copy, Debug, PartialEq, Eq, Error)]
pub enum EmitError {
    /// The `new` of this number makes an object of more bytes than `sipush` can push.
    #[error("the object that instruction {0} makes is too large")]
    BigObject(u32),
    /// There was no memory.
    #[error("out of memory")]
    Memory,
}

impl From<AllocError> for EmitError {
    ghost use Rattle.dj_emit.specs.declared.error.EmitError.TheVariants.{Memory};

    ghost from_gives = { λ _ e. e ≡ Memory };

    fn from(_error: AllocError) -> EmitError {
        EmitError::Memory
    }
}

impl<T: Drop> From<AllocFailed<T>> for EmitError {
    ghost use Rattle.dj_emit.specs.declared.error.EmitError.TheVariants.{Memory};

    ghost from_gives = { λ _ e. e ≡ Memory };

    fn from(_error: AllocFailed<T>) -> EmitError {
        EmitError::Memory
    }
}
