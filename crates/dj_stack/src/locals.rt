ghost use Rattle.std.specs.Prelude.{◌≡◌, ◌∷◌, [], ◌<◌, Some, length, set, slice_get};
ghost use Rattle.dj_stack.specs.Frames.{top_operands, top_locals, top_room, top_number, SameFrames, SameButOperands, SameButLocals, SameButNumber};

use crate::frames::Frames;
use dj_names::Value;

impl Frames {
    /// The value of a local variable of the top frame, if it has one.
    pub fn local(&self, at: u16) -> Option<Value>
        requires { at < length (top_locals self.now) }
        ensures { slice_get (top_locals self.now) at ≡ Some result }
    {
        match &self.top {
            Some(frame) => frame.locals.get(at),
            None => unreachable!(),
        }
    }

    /// Gives a local variable of the top frame a value, or none.
    pub fn set_local(&mut self, at: u16, value: Option<Value>)
        requires { at < length (top_locals self.old) }
        ensures locals { top_locals self.new ≡ set (top_locals self.old) at value }
        ensures rest { SameButLocals self.old self.new }
    {
        match &mut self.top {
            Some(frame) => frame.locals.set(at, value),
            None => unreachable!(),
        }
    }

    /// The top frame goes on at this instruction.
    pub fn set_number(&mut self, number: u32)
        requires { 0 < length self.old }
        ensures number { top_number self.new ≡ number }
        ensures rest { SameButNumber self.old self.new }
    {
        match &mut self.top {
            Some(frame) => frame.number = number,
            None => unreachable!(),
        }
    }

    /// Leaves this value alone on the top frame's operands, which have room for it.
    pub fn unwind(&mut self, value: Value)
        requires { 0 < top_room self.old }
        ensures operands { top_operands self.new ≡ value ∷ [] }
        ensures rest { SameButOperands self.old self.new }
    {
        match &mut self.top {
            Some(frame) => frame.unwind(value),
            None => unreachable!(),
        }
    }
}
