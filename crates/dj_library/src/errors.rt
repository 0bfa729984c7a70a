use std::alloc::AllocError;
use thiserror::Error;

/// Why there is no library.
#[derive(Clone, Copy, Debug, PartialEq, Eq, Error)]
pub enum LibraryError {
    /// There was no memory.
    #[error("out of memory")]
    Memory,
}

impl From<AllocError> for LibraryError {
    ghost use Rattle.std.specs.Prelude.{◌≡◌};
    ghost use Rattle.dj_library.specs.declared.errors.LibraryError.TheVariants.{Memory};

    ghost from_gives = { λ _ e. e ≡ Memory };

    fn from(_e: AllocError) -> LibraryError {
        LibraryError::Memory
    }
}
