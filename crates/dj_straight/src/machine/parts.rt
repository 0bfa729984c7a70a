use crate::machine::heap::Heap;
use crate::machine::operands::Operands;
use dj_names::{Raised, Value};

/// What the instructions of a run change: the local variables, the operands and the heap.
#[derive(Drop)]
pub struct StraightMachine {
    /// One without a value has none.
    pub locals: Vec<Option<Value>>,
    pub operands: Operands,
    pub heap: Heap,
}

/// How a run goes on after an instruction.
#[derive(Clone, Copy)]
pub enum Progress {
    /// At the next one.
    Next,
    /// With this exception.
    Raises(Raised),
    /// This reference is returned.
    Returns(u32),
    /// The run ends: a reference is of no array.
    Broken,
    /// The instruction doesn't find what it takes.
    IllFormed,
}
