ghost use Rattle.std.specs.Prelude.{◌≡◌};

use dj_ops::OpError;
use std::alloc::{AllocError, AllocFailed};
use thiserror::Error;

/// Why labelled code was not laid out. The numbers are those of instructions, from 0 on.
#[derive(Clone, Copy, Debug, PartialEq, Eq, Error)]
pub enum LayError {
    /// The code has more than 65,535 bytes; this instruction is the first that ends past them.
    #[error("instruction {0} ends past the 65535 bytes of a method")]
    TooLong(u32),
    /// This jump is the first whose offset doesn't fit two bytes.
    #[error("the target of jump {0} is too far away")]
    Far(u32),
    /// There was no memory.
    #[error("out of memory")]
    Memory,
}

impl From<OpError> for LayError {
    ghost use Rattle.dj_layout.specs.declared.errors.LayError.TheVariants as causes;

    ghost from_gives = { λ _ e. e ≡ causes.Memory };

    // An instruction that is proper and reaches its targets fails to be written only for want of memory.
    fn from(_error: OpError) -> LayError {
        LayError::Memory
    }
}

impl From<AllocError> for LayError {
    ghost use Rattle.dj_layout.specs.declared.errors.LayError.TheVariants as causes;

    ghost from_gives = { λ _ e. e ≡ causes.Memory };

    fn from(_error: AllocError) -> LayError {
        LayError::Memory
    }
}

impl<T: Drop> From<AllocFailed<T>> for LayError {
    ghost use Rattle.dj_layout.specs.declared.errors.LayError.TheVariants as causes;

    ghost from_gives = { λ _ e. e ≡ causes.Memory };

    fn from(_error: AllocFailed<T>) -> LayError {
        LayError::Memory
    }
}
