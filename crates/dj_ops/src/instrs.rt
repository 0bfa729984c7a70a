ghost use Rattle.std.specs.Prelude.{◌≡◌, [], ◌∷◌, ◌++◌, IfOk, OnOk, OnErr};

use crate::instruction::Instr;
use std::alloc::{AllocError, Global};
use std::marker::Model;

/// Instructions, in their order.
#[derive(Debug, Drop)]
pub struct Instrs {
    items: Vec<Instr>,
}

impl Model for Instrs {
    ghost use Rattle.std.specs.Prelude.{List};
    ghost use Rattle.dj_ops.specs.declared.instruction.Instr.{Instr};

    ghost Value = { List Instr };

    ghost view = { λ instrs. instrs.items.items };
}

impl Instrs {
    /// No instructions.
    pub fn new(alloc: Global) -> Instrs
        ensures { result ≡ [] }
    {
        Instrs {
            items: Vec::new(alloc),
        }
    }

    /// No instructions, with room for this many.
    pub fn with_capacity(alloc: Global, capacity: usize) -> Result<Instrs, AllocError>
        ensures { IfOk result (λ instrs. instrs ≡ []) }
    {
        Ok(Instrs {
            items: Vec::with_capacity(alloc, capacity)?,
        })
    }

    /// The instructions of a list.
    pub fn from_vec(items: Vec<Instr>) -> Instrs
        ensures { result ≡ items.items }
    {
        Instrs { items }
    }

    /// Appends an instruction.
    pub fn push(&mut self, instr: Instr) -> Result<(), AllocError>
        ensures ok { OnOk result (self.new ≡ self.old ++ instr ∷ []) }
        ensures err { OnErr result (self.new ≡ self.old) }
    {
        Ok(self.items.push(instr)?)
    }

    /// The instructions, borrowed.
    pub fn as_slice(&self) -> &[Instr]
        ensures { result.now ≡ self.now }
    {
        self.items.as_slice()
    }
}
