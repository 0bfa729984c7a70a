ghost use Rattle.std.specs.Prelude.{◌≡◌};

use dj_file_rules::RulesError;
use std::alloc::{AllocError, AllocFailed};
use thiserror::Error;

/// Why files were not judged.
#[derive(Clone, Copy, Debug, PartialEq, Eq, Error)]
pub enum LinkError {
    /// There was no memory.
    #[error("out of memory")]
    Memory,
}

impl From<RulesError> for LinkError {
    ghost use Rattle.dj_link_rules.specs.declared.error.LinkError.TheVariants.{Memory};

    ghost from_gives = { λ _ e. e ≡ Memory };

    fn from(_error: RulesError) -> LinkError {
        LinkError::Memory
    }
}

impl From<AllocError> for LinkError {
    ghost use Rattle.dj_link_rules.specs.declared.error.LinkError.TheVariants.{Memory};

    ghost from_gives = { λ _ e. e ≡ Memory };

    fn from(_error: AllocError) -> LinkError {
        LinkError::Memory
    }
}

impl<T: Drop> From<AllocFailed<T>> for LinkError {
    ghost use Rattle.dj_link_rules.specs.declared.error.LinkError.TheVariants.{Memory};

    ghost from_gives = { λ _ e. e ≡ Memory };

    fn from(_error: AllocFailed<T>) -> LinkError {
        LinkError::Memory
    }
}

impl From<LinkError> for AllocError {
    ghost use Rattle.std.specs.declared.alloc.AllocError.{AllocError};

    ghost from_gives = { λ _ e. e ≡ record {} };

    fn from(_error: LinkError) -> AllocError {
        AllocError
    }
}
