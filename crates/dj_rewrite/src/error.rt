use dj_names::Name;
use std::alloc::{AllocError, AllocFailed};
use thiserror::Error;

/// Why class files were not rewritten.
#[derive(Debug, Drop, Error)]
pub enum RewriteError {
    /// What is rewritten of this class, whose name is plain, doesn't fit a class file: the method of this name and descriptor, or, where these are empty, the
    /// class.
    #[error("a rewritten class or method is too large")]
    TooLarge { class: Name, member: Name },
    /// There was no memory.
    #[error("out of memory")]
    Memory,
}

impl From<AllocError> for RewriteError {
    ghost use Rattle.std.specs.Prelude.{◌≡◌};
    ghost use Rattle.dj_rewrite.specs.declared.error.RewriteError.TheVariants.{Memory};

    ghost from_gives = { λ _ e. e ≡ Memory };

    fn from(_e: AllocError) -> RewriteError {
        RewriteError::Memory
    }
}

impl<T: Drop> From<AllocFailed<T>> for RewriteError {
    ghost use Rattle.std.specs.Prelude.{◌≡◌};
    ghost use Rattle.dj_rewrite.specs.declared.error.RewriteError.TheVariants.{Memory};

    ghost from_gives = { λ _ e. e ≡ Memory };

    fn from(_e: AllocFailed<T>) -> RewriteError {
        RewriteError::Memory
    }
}
