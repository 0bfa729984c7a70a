ghost use Rattle.std.specs.Prelude.{◌≡◌, [], replicate, None, IfOk, IfErr};
ghost use Rattle.dj_stack.specs.declared.errors.PushError.TheVariants as PushError;
ghost use Rattle.dj_stack.specs.Cells.{parts_of, variables_in};
ghost use Rattle.dj_stack.specs.Held.{stacked_values};

use crate::errors::PushError;
use crate::frame::Frame;
use crate::operands::Operands;
use crate::sparse::Sparse;
use crate::stacked::Stacked;
use crate::variables::Locals;
use std::alloc::Global;

/// What large frames that ended leave to the next ones. A block of memory keeps its use, so of each no more is ever written than one frame writes.
#[derive(Debug, Drop)]
pub(crate) struct Spares {
    alloc: Global,
    variables: Vec<Box<Sparse>>,
    operands: Vec<Box<Stacked>>,
}

impl Spares {
    /// Nothing yet.
    pub(crate) fn new(alloc: Global) -> Spares {
        Spares {
            alloc,
            variables: Vec::new(alloc),
            operands: Vec::new(alloc),
        }
    }

    /// This many local variables without a value.
    pub(crate) fn variables(&mut self, count: u16) -> Result<Box<Sparse>, PushError>
        ensures locals { IfOk result (λ sparse. variables_in sparse.value.places.items (parts_of sparse.value.cells) ≡ replicate count None) }
        ensures refused { IfErr result (λ e. e ≡ PushError.Memory) }
    {
        let mut sparse = match self.variables.pop() {
            Some(sparse) => sparse,
            None => Box::new(self.alloc, Sparse::new(self.alloc)?)?,
        };
        sparse.begin(count)?;
        Ok(sparse)
    }

    /// No operands, with room for this many.
    pub(crate) fn operands(&mut self, room: u16) -> Result<Box<Stacked>, PushError>
        ensures operands { IfOk result (λ stacked. stacked_values stacked.value ≡ []) }
        ensures room { IfOk result (λ stacked. stacked.value.room ≡ room) }
        ensures refused { IfErr result (λ e. e ≡ PushError.Memory) }
    {
        let mut stacked = match self.operands.pop() {
            Some(stacked) => stacked,
            None => Box::new(self.alloc, Stacked::new(self.alloc)?)?,
        };
        stacked.begin(room);
        Ok(stacked)
    }

    /// Keeps the memory of a frame that ended for later ones, where the list of these has room or memory for it.
    pub(crate) fn keep(&mut self, frame: Frame) {
        let Frame {
            locals,
            operands,
            ..
        } = frame;
        match locals {
            Locals::Wide(_) => {}
            Locals::Sparse(sparse) => match self.variables.push(sparse) {
                Ok(()) | Err(_) => {}
            },
        }
        match operands {
            Operands::Wide(_) => {}
            Operands::Stacked(stacked) => match self.operands.push(stacked) {
                Ok(()) | Err(_) => {}
            },
        }
    }
}
