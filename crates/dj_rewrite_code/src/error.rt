use std::alloc::{AllocError, AllocFailed};
use thiserror::Error;

/// Why a method has no rewritten code.
#[derive(Clone, Copy, Debug, PartialEq, Eq, Error)]
pub enum CodeError {
    /// It doesn't fit a class file: an object, the stack, the exception table, the code or a jump is too large.
    #[error("the rewritten code doesn't fit")]
    TooLarge,
    /// There was no memory.
    #[error("out of memory")]
    Memory,
}

impl From<AllocError> for CodeError {
    ghost use Rattle.std.specs.Prelude.{◌≡◌};
    ghost use Rattle.dj_rewrite_code.specs.declared.error.CodeError.TheVariants.{Memory};

    ghost from_gives = { λ _ e. e ≡ Memory };

    fn from(_e: AllocError) -> CodeError {
        CodeError::Memory
    }
}

impl<T: Drop> From<AllocFailed<T>> for CodeError {
    ghost use Rattle.std.specs.Prelude.{◌≡◌};
    ghost use Rattle.dj_rewrite_code.specs.declared.error.CodeError.TheVariants.{Memory};

    ghost from_gives = { λ _ e. e ≡ Memory };

    fn from(_e: AllocFailed<T>) -> CodeError {
        CodeError::Memory
    }
}
