ghost use Rattle.std.specs.Prelude.{◌≡◌};

use std::alloc::AllocError;
use thiserror::Error;

/// Why a text means no class file. Lines and columns count from 1.
#[derive(Clone, Copy, Debug, PartialEq, Eq, Error)]
pub enum AsmError {
    /// What is in this line at this column isn't allowed there.
    #[error("line {line}, column {column}: this may not stand here")]
    Syntax {
        /// The line.
        line: u32,
        /// The column of the word's first byte.
        column: u32,
    },
    /// The line names a label that is unknown, or defined again, or of no use at its place.
    #[error("line {line}: a label that is unknown, defined again, or of no use here")]
    Label {
        /// The line.
        line: u32,
    },
    /// What the line has is outside its field.
    #[error("line {line}: outside its field")]
    Large {
        /// The line.
        line: u32,
    },
    /// There is not enough memory.
    #[error("not enough memory")]
    Memory,
}

impl From<AllocError> for AsmError {
    ghost use Rattle.dj_asm_source.specs.declared.error.AsmError.TheVariants.{Memory};

    ghost from_gives = { λ _ e. e ≡ Memory };

    fn from(_error: AllocError) -> AsmError {
        AsmError::Memory
    }
}
