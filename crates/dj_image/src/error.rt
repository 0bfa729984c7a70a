ghost use Rattle.std.specs.Prelude.{◌≡◌};

use dj_numbering::TypesError;
use std::alloc::{AllocError, AllocFailed};
use thiserror::Error;

/// Why an image was not made.
#[derive(Clone, Copy, Debug, PartialEq, Eq, Error)]
pub enum ImageError {
    /// There was no memory.
    #[error("out of memory")]
    Memory,
}

impl From<AllocError> for ImageError {
    ghost use Rattle.dj_image.specs.declared.error.ImageError.TheVariants.{Memory};

    ghost from_gives = { λ _ e. e ≡ Memory };

    fn from(_error: AllocError) -> ImageError {
        ImageError::Memory
    }
}

impl<T: Drop> From<AllocFailed<T>> for ImageError {
    ghost use Rattle.dj_image.specs.declared.error.ImageError.TheVariants.{Memory};

    ghost from_gives = { λ _ e. e ≡ Memory };

    fn from(_error: AllocFailed<T>) -> ImageError {
        ImageError::Memory
    }
}

impl From<TypesError> for ImageError {
    ghost use Rattle.dj_image.specs.declared.error.ImageError.TheVariants.{Memory};

    ghost from_gives = { λ _ e. e ≡ Memory };

    fn from(_error: TypesError) -> ImageError {
        ImageError::Memory
    }
}
