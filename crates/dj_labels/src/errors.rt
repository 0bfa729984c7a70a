ghost use Rattle.std.specs.Prelude.{◌≡◌};

use std::alloc::{AllocError, AllocFailed};
use thiserror::Error;

/// Why code was not labelled.
#[derive(Clone, Copy, Debug, PartialEq, Eq, Error)]
pub enum CodeError {
    /// There is no instruction at this address.
    #[error("no instruction stands at address {0}")]
    Op(u32),
    /// The jump at this address has a target at which no instruction starts.
    #[error("the jump at address {0} has a target at which no instruction starts")]
    Target(u32),
    /// The row of this number, from 0 on, is no range of instructions.
    #[error("row {0} of the exception table is no range of instructions")]
    Range(usize),
    /// There was no memory.
    #[error("out of memory")]
    Memory,
}

impl From<AllocError> for CodeError {
    ghost use Rattle.dj_labels.specs.declared.errors.CodeError.TheVariants as causes;

    ghost from_gives = { λ _ e. e ≡ causes.Memory };

    fn from(_error: AllocError) -> CodeError {
        CodeError::Memory
    }
}

impl<T: Drop> From<AllocFailed<T>> for CodeError {
    ghost use Rattle.dj_labels.specs.declared.errors.CodeError.TheVariants as causes;

    ghost from_gives = { λ _ e. e ≡ causes.Memory };

    fn from(_error: AllocFailed<T>) -> CodeError {
        CodeError::Memory
    }
}
