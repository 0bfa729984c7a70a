ghost use Rattle.std.specs.Prelude.{IfOk};
ghost use Rattle.dj_straight.specs.Methods.{action_view};
ghost use Rattle.dj_straight.specs.Machines.{machine_view, Does};

use crate::machine::parts::{Progress, StraightMachine};
use crate::program::Action;
use std::alloc::{AllocError, Global};

#[tactic(auto, unfolding(crate::specs::trusted::Effects::effect))]
impl StraightMachine {
    /// An instruction is done.
    pub fn act(&mut self, alloc: Global, action: Action) -> Result<Progress, AllocError>
        ensures { IfOk result (Does (action_view action) (machine_view self.old) (machine_view self.new)) }
    {
        match action {
            Action::Nop => Ok(Progress::Next),
            Action::Push(value) => self.push(value),
            Action::Load(kind, slot) => self.load(kind, slot),
            Action::Store(kind, slot) => Ok(self.store(kind, slot)),
            Action::LoadByte => self.load_byte(),
            Action::StoreByte => Ok(self.store_byte()),
            Action::Pop => Ok(self.pop()),
            Action::Dup => self.dup(),
            Action::Compute(operation) => self.compute(operation),
            Action::ReturnReference => Ok(self.return_reference()),
            Action::ArrayLength => self.array_length(),
            Action::NewByteArray => self.new_byte_array(alloc),
            Action::Other(_) => Ok(Progress::IllFormed),
        }
    }
}
