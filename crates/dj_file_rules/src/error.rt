ghost use Rattle.std.specs.Prelude.{◌≡◌};

use std::alloc::{AllocError, AllocFailed};
use thiserror::Error;

/// Why files were not judged.
#[derive(Clone, Copy, Debug, PartialEq, Eq, Error)]
pub enum RulesError {
    /// There was no memory.
    #[error("out of memory")]
    Memory,
}

impl From<AllocError> for RulesError {
    ghost use Rattle.dj_file_rules.specs.declared.error.RulesError.TheVariants.{Memory};

    ghost from_gives = { λ _ e. e ≡ Memory };

    fn from(_error: AllocError) -> RulesError {
        RulesError::Memory
    }
}

impl<T: Drop> From<AllocFailed<T>> for RulesError {
    ghost use Rattle.dj_file_rules.specs.declared.error.RulesError.TheVariants.{Memory};

    ghost from_gives = { λ _ e. e ≡ Memory };

    fn from(_error: AllocFailed<T>) -> RulesError {
        RulesError::Memory
    }
}

impl From<RulesError> for AllocError {
    ghost use Rattle.std.specs.declared.alloc.AllocError.{AllocError};

    ghost from_gives = { λ _ e. e ≡ record {} };

    fn from(_error: RulesError) -> AllocError {
        AllocError
    }
}
