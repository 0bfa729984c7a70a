use dj_names::Bytes;
use dj_ops::{CatchRows, Starts};

/// Code that is laid out.
#[derive(Debug, Drop)]
pub struct Laid {
    /// The bytes of the instructions, one after the other.
    pub code: Bytes,
    /// The address of each instruction.
    pub starts: Starts,
    /// The exception table.
    pub table: CatchRows,
}
