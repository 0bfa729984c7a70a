ghost use Rattle.std.specs.Prelude.{◌≡◌, ◌∷◌, [], ◌<◌, replicate, None, IfOk, IfErr};
ghost use Rattle.dj_stack.specs.declared.errors.PushError.TheVariants as PushError;
ghost use Rattle.dj_stack.specs.Held.{locals_of, values_of, room_of};

use crate::errors::PushError;
use crate::operands::Operands;
use crate::spares::Spares;
use crate::variables::Locals;
use dj_names::Value;
use std::alloc::Global;

/// A frame: a method, the number of its instruction, its local variables and its operands, the top last.
#[derive(Debug, Drop)]
pub struct Frame {
    pub(crate) method: u32,
    pub(crate) number: u32,
    pub(crate) locals: Locals,
    pub(crate) operands: Operands,
}

impl Frame {
    /// A frame at instruction 0, without operands, whose locals have no value.
    pub(crate) fn new(
        alloc: Global,
        spares: &mut Spares,
        method: u32,
        locals: u16,
        room: u16,
    ) -> Result<Frame, PushError>
        ensures method { IfOk result (λ frame. (frame.method ≡ method) × (frame.number ≡ 0) × (room_of frame.operands ≡ room)) }
        ensures locals { IfOk result (λ frame. locals_of frame.locals ≡ replicate locals None) }
        ensures operands { IfOk result (λ frame. values_of frame.operands ≡ []) }
        ensures refused { IfErr result (λ e. e ≡ PushError.Memory) }
    {
        let locals = Locals::new(alloc, spares, locals)?;
        let operands = Operands::with_room(alloc, spares, room)?;
        Ok(Frame {
            method,
            number: 0,
            locals,
            operands,
        })
    }

    /// Leaves this operand alone, for which there is room.
    pub(crate) fn unwind(&mut self, value: Value)
        requires { 0 < room_of self.old.operands }
        ensures operands { values_of self.new.operands ≡ value ∷ [] }
        ensures rest { (self.new.method ≡ self.old.method) × (self.new.number ≡ self.old.number) × (self.new.locals ≡ self.old.locals) × (room_of self.new.operands ≡ room_of self.old.operands) }
    {
        self.operands.clear();
        self.operands.push(value);
    }
}
