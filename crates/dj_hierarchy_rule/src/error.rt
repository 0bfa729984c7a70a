ghost use Rattle.std.specs.Prelude.{◌≡◌};

use dj_graph::GraphError;
use std::alloc::{AllocError, AllocFailed};
use thiserror::Error;

/// Why heads were not judged.
#[derive(Clone, Copy, Debug, PartialEq, Eq, Error)]
pub enum HierarchyError {
    /// There was no memory.
    #[error("out of memory")]
    Memory,
}

impl From<AllocError> for HierarchyError {
    ghost use Rattle.dj_hierarchy_rule.specs.declared.error.HierarchyError.TheVariants.{Memory};

    ghost from_gives = { λ _ e. e ≡ Memory };

    fn from(_error: AllocError) -> HierarchyError {
        HierarchyError::Memory
    }
}

impl<T: Drop> From<AllocFailed<T>> for HierarchyError {
    ghost use Rattle.dj_hierarchy_rule.specs.declared.error.HierarchyError.TheVariants.{Memory};

    ghost from_gives = { λ _ e. e ≡ Memory };

    fn from(_error: AllocFailed<T>) -> HierarchyError {
        HierarchyError::Memory
    }
}

impl From<GraphError> for HierarchyError {
    ghost use Rattle.dj_hierarchy_rule.specs.declared.error.HierarchyError.TheVariants.{Memory};

    ghost from_gives = { λ _ e. e ≡ Memory };

    fn from(_error: GraphError) -> HierarchyError {
        HierarchyError::Memory
    }
}
