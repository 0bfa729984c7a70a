ghost use Rattle.std.specs.Prelude.{◌≡◌, ◌+◌, ◌++◌, ◌∷◌, [], ◌<◌, length, slice_get, Some, IfOk, IfErr};
ghost use Rattle.dj_stack.specs.declared.errors.PushError.TheVariants as PushError;
ghost use Rattle.dj_stack.specs.Held.{values_of, room_of};

use crate::errors::PushError;
use crate::spares::Spares;
use crate::stacked::Stacked;
use crate::wide::WideOperands;
use dj_names::Value;
use std::alloc::Global;

// This many operands are kept whole; of more the parts are kept apart, which takes less memory.
const FEW: u16 = 1024;

/// The operands of a frame, the top last.
#[derive(Debug, Drop)]
pub(crate) enum Operands {
    Wide(WideOperands),
    Stacked(Box<Stacked>),
}

impl Operands {
    /// None yet, with room for this many.
    pub(crate) fn with_room(
        alloc: Global,
        spares: &mut Spares,
        room: u16,
    ) -> Result<Operands, PushError>
        ensures operands { IfOk result (λ operands. values_of operands ≡ []) }
        ensures room { IfOk result (λ operands. room_of operands ≡ room) }
        ensures refused { IfErr result (λ e. e ≡ PushError.Memory) }
    {
        if room <= FEW {
            let items = Vec::with_capacity(alloc, usize::from(room))?;
            Ok(Operands::Wide(WideOperands { items, room }))
        } else {
            Ok(Operands::Stacked(spares.operands(room)?))
        }
    }

    /// How many there are.
    pub(crate) fn len(&self) -> u16
        ensures { result ≡ length (values_of self.now) }
    {
        match self {
            Operands::Wide(wide) => wide.items.len() as u16,
            Operands::Stacked(stacked) => stacked.len(),
        }
    }

    /// How many more have room.
    pub(crate) fn spare(&self) -> u16
        ensures { length (values_of self.now) + result ≡ room_of self.now }
    {
        match self {
            Operands::Wide(wide) => wide.room - wide.items.len() as u16,
            Operands::Stacked(stacked) => stacked.spare(),
        }
    }

    /// One of them, counted from 0 at the bottom.
    pub(crate) fn get(&self, at: u16) -> Value
        requires { at < length (values_of self.now) }
        ensures { slice_get (values_of self.now) at ≡ Some result }
    {
        match self {
            Operands::Wide(wide) => wide.items[usize::from(at)],
            Operands::Stacked(stacked) => stacked.get(at),
        }
    }

    /// Pushes one, for which there is room.
    pub(crate) fn push(&mut self, value: Value)
        requires { length (values_of self.old) < room_of self.old }
        ensures operands { values_of self.new ≡ values_of self.old ++ value ∷ [] }
        ensures room { room_of self.new ≡ room_of self.old }
    {
        match self {
            Operands::Wide(wide) => match wide.items.push(value) {
                Ok(()) => {}
                Err(_) => unreachable!(),
            },
            Operands::Stacked(stacked) => stacked.push(value),
        }
    }

    /// Takes the top away.
    pub(crate) fn pop(&mut self) -> Value
        requires { 0 < length (values_of self.old) }
        ensures operands { values_of self.old ≡ values_of self.new ++ result ∷ [] }
        ensures room { room_of self.new ≡ room_of self.old }
    {
        match self {
            Operands::Wide(wide) => match wide.items.pop() {
                Some(value) => value,
                None => unreachable!(),
            },
            Operands::Stacked(stacked) => stacked.pop(),
        }
    }

    /// Takes all away.
    pub(crate) fn clear(&mut self)
        ensures operands { values_of self.new ≡ [] }
        ensures room { room_of self.new ≡ room_of self.old }
    {
        match self {
            Operands::Wide(wide) => wide.items.clear(),
            Operands::Stacked(stacked) => stacked.clear(),
        }
    }
}
