use dj_heap::HeapError;
use std::alloc::AllocError;
use thiserror::Error;

/// What a step of a machine answers.
#[derive(Clone, Copy, Debug, PartialEq, Eq)]
pub enum StepAnswer {
    /// The run goes on.
    Went,
    /// The run has ended.
    Ended,
    /// There was no memory.
    Memory,
}

/// Why no machine was made.
#[derive(Clone, Copy, Debug, PartialEq, Eq, Error)]
pub enum StartError {
    /// There is no memory for it.
    #[error("out of memory")]
    Memory,
    /// An object of this size, the input or a text with which a static field begins, doesn't fit beside the used bytes.
    #[error("an object of {size} bytes doesn't fit beside {used}")]
    Full { used: u64, size: u64 },
    /// The frames of the first initialisers would be too many.
    #[error("too many frames")]
    TooDeep,
}

impl From<AllocError> for StartError {
    ghost use Rattle.std.specs.Prelude.{◌≡◌};
    ghost use Rattle.dj_step.specs.declared.answers.StartError.TheVariants.{Memory};

    ghost from_gives = { λ _ e. e ≡ Memory };

    fn from(_e: AllocError) -> StartError {
        StartError::Memory
    }
}

impl From<HeapError> for StartError {
    ghost use Rattle.std.specs.Prelude.{◌≡◌};
    ghost use Rattle.dj_step.specs.Running.{start_error};

    ghost from_gives = { λ e start. start ≡ start_error e };

    fn from(error: HeapError) -> StartError {
        match error {
            HeapError::Full { used, size } => StartError::Full { used, size },
            HeapError::Memory => StartError::Memory,
        }
    }
}
