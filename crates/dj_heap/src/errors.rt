use std::alloc::{AllocError, AllocFailed};
use thiserror::Error;

/// Why no object was made.
#[derive(Clone, Copy, Debug, PartialEq, Eq, Error)]
pub enum HeapError {
    /// It would pass the heap's limit.
    #[error("{used} bytes are used, and {size} more pass the limit")]
    Full {
        /// The bytes that the objects take together.
        used: u64,
        /// The bytes that were wanted.
        size: u64,
    },
    /// There was no memory.
    #[error("out of memory")]
    Memory,
}

impl From<AllocError> for HeapError {
    ghost use Rattle.std.specs.Prelude.{◌≡◌};
    ghost use Rattle.dj_heap.specs.declared.errors.HeapError.TheVariants.{Memory};

    ghost from_gives = { λ _ e. e ≡ Memory };

    fn from(_e: AllocError) -> HeapError {
        HeapError::Memory
    }
}

impl<T: Drop> From<AllocFailed<T>> for HeapError {
    ghost use Rattle.std.specs.Prelude.{◌≡◌};
    ghost use Rattle.dj_heap.specs.declared.errors.HeapError.TheVariants.{Memory};

    ghost from_gives = { λ _ e. e ≡ Memory };

    fn from(_e: AllocFailed<T>) -> HeapError {
        HeapError::Memory
    }
}
