use std::alloc::{AllocError, AllocFailed};
use thiserror::Error;

/// Why a graph has no answer.
#[derive(Clone, Copy, Debug, Error)]
pub enum GraphError {
    /// There was no memory.
    #[error("out of memory")]
    Memory,
}

impl From<AllocError> for GraphError {
    ghost use Rattle.std.specs.Prelude.{◌≡◌};
    ghost use Rattle.dj_graph.specs.declared.errors.GraphError.TheVariants.{Memory};

    ghost from_gives = { λ _ e. e ≡ Memory };

    fn from(_e: AllocError) -> GraphError {
        GraphError::Memory
    }
}

impl<T: Drop> From<AllocFailed<T>> for GraphError {
    ghost use Rattle.std.specs.Prelude.{◌≡◌};
    ghost use Rattle.dj_graph.specs.declared.errors.GraphError.TheVariants.{Memory};

    ghost from_gives = { λ _ e. e ≡ Memory };

    fn from(_e: AllocFailed<T>) -> GraphError {
        GraphError::Memory
    }
}
