ghost use Rattle.std.specs.Prelude.{◌≡◌, ◌<◌, Some, length, option_map, IsSome};
ghost use Rattle.dj_stack.specs.Frames.{StackFrame, frame_at, local_at, operand_at};
ghost use Rattle.dj_stack.specs.Views.{frame_view, frames_view};

use crate::frame::Frame;
use crate::frames::Frames;
use dj_names::Value;

/// Any frame, counted from 0 at the bottom.
impl Frames {
    /// The method of a frame.
    pub fn method(&self, f: u32) -> u32
        requires { IsSome (frame_at self.now f) }
        ensures { option_map (λ (frame : StackFrame). frame.method) (frame_at self.now f) ≡ Some result }
    {
        self.frame(f).method
    }

    /// The number of a frame's instruction.
    pub fn number(&self, f: u32) -> u32
        requires { IsSome (frame_at self.now f) }
        ensures { option_map (λ (frame : StackFrame). frame.number) (frame_at self.now f) ≡ Some result }
    {
        self.frame(f).number
    }

    /// How many local variables a frame has.
    pub fn locals(&self, f: u32) -> u16
        requires { IsSome (frame_at self.now f) }
        ensures { option_map (λ (frame : StackFrame). length frame.locals) (frame_at self.now f) ≡ Some result }
    {
        self.frame(f).locals.len()
    }

    /// How many operands a frame has.
    pub fn operands(&self, f: u32) -> u16
        requires { IsSome (frame_at self.now f) }
        ensures { option_map (λ (frame : StackFrame). length frame.operands) (frame_at self.now f) ≡ Some result }
    {
        self.frame(f).operands.len()
    }

    /// The value of a local variable of a frame, if it has one.
    pub fn local_of(&self, f: u32, at: u16) -> Option<Value>
        requires { IsSome (local_at self.now f at) }
        ensures { local_at self.now f at ≡ Some result }
    {
        self.frame(f).locals.get(at)
    }

    /// An operand of a frame, counted from 0 at the bottom.
    pub fn operand_of(&self, f: u32, at: u16) -> Value
        requires { IsSome (operand_at self.now f at) }
        ensures { operand_at self.now f at ≡ Some result }
    {
        self.frame(f).operands.get(at)
    }

    // The frame of this number.
    fn frame(&self, f: u32) -> &Frame
        requires { IsSome (frame_at self.now f) }
        ensures frame { frame_at self.now f ≡ Some (frame_view result.now) }
    {
        match &self.top {
            Some(top) => frame_in(top, self.below.as_slice(), f),
            None => unreachable!(),
        }
    }
}

// The frame of this number, of a top frame and those below it, the lowest first.
#[tactic(auto, using(crate::proofs::Bottom::found_below, crate::proofs::Bottom::found_top))]
fn frame_in<'a>(top: &'a Frame, below: &'a [Frame], f: u32) -> &'a Frame
    requires { IsSome (frame_at (frames_view (Some top.now) below.now) f) }
    ensures frame { frame_at (frames_view (Some top.now) below.now) f ≡ Some (frame_view result.now) }
{
    let f = f as usize;
    if f < below.len() { &below[f] } else { top }
}
