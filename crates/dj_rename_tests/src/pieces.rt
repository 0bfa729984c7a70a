//! Bytes in pieces, and the tests that calls of dj_rename ask for.
ghost use Rattle.std.specs.Prelude.{IsTrue};
ghost use Rattle.dj_pool.specs.trusted.Pool.{IsClassText};
ghost use Rattle.dj_rename.specs.Refusals.{IsDescriptor};

use dj_names::{is_array_descriptor, is_class_name, is_field_descriptor, is_method_descriptor};
use std::alloc::{AllocError, Global};

/// Pieces that follow one another, each with how many times it stands there.
pub type Pieces = &'static [(&'static [u8], usize)];

/// The bytes of pieces.
pub fn bytes_of(alloc: Global, pieces: Pieces) -> Result<Vec<u8>, AllocError> {
    let mut bytes = Vec::new(alloc);
    for (piece, count) in pieces {
        for _ in 0..*count {
            bytes.extend_from_slice(piece)?;
        }
    }
    Ok(bytes)
}

/// Whether a class constant may name the text.
pub fn is_class_text(text: &[u8]) -> bool
    ensures { IsTrue result → IsClassText text.now }
{
    is_class_name(text) || is_array_descriptor(text)
}

/// Whether the text is a descriptor.
#[tactic(auto, using(dj_rename::proofs::PoolTexts::field_described, dj_rename::proofs::PoolTexts::method_described))]
pub fn is_descriptor(text: &[u8]) -> bool
    ensures { IsTrue result → IsDescriptor text.now }
{
    is_field_descriptor(text) || is_method_descriptor(text)
}
