ghost use Rattle.std.specs.Prelude.{◌≡◌, ◌+◌, ◌++◌, ◌∷◌, [], ◌<◌, ◌≤◌, length, map, reverse, set, Some, None, slice_get, IsSome, option_map, IfOk, IfErr, OnOk, OnErr};
ghost use Rattle.dj_stack.specs.declared.errors.PushError.TheVariants as PushError;
ghost use Rattle.dj_stack.specs.Frames.{StackFrame, most_frames, below_top, top_operands, top_locals, top_room, top_number, new_frame, SameButOperands, SameButLocals, SameButNumber, frame_at, local_at, operand_at};

use crate::errors::PushError;
use crate::frame::Frame;
use crate::spares::Spares;
use dj_names::Value;
use std::alloc::Global;
use std::marker::Model;

/// The frames of a run, at most 1,024.
#[derive(Debug, Drop)]
pub struct Frames {
    alloc: Global,
    pub(crate) top: Option<Frame>,
    // The frames below the top, the lowest first.
    pub(crate) below: Vec<Frame>,
    spares: Spares,
    pub ghost few: { length below.items < 1024 },
    pub ghost none: { top ≡ None → length below.items ≡ 0 },
}

impl Model for Frames {
    ghost use Rattle.std.specs.Prelude.{List};
    ghost use Rattle.dj_stack.specs.Frames.{StackFrame};
    ghost use Rattle.dj_stack.specs.Views.{frames_view};

    ghost Value = { List StackFrame };

    ghost view = { λ f. frames_view f.top f.below.items };
}

impl Frames {
    /// No frames.
    pub fn new(alloc: Global) -> Frames
        ensures { result ≡ [] }
    {
        Frames {
            alloc,
            top: None,
            below: Vec::new(alloc),
            spares: Spares::new(alloc),
        }
    }

    /// Pushes a frame of the method at instruction 0, whose locals have no value, with room for this many operands.
    pub fn push(&mut self, method: u32, locals: u16, stack: u16) -> Result<(), PushError>
        ensures pushed { OnOk result (self.new ≡ new_frame method locals stack ∷ self.old) }
        ensures fits { OnOk result (length self.old < most_frames) }
        ensures deep { IfErr result (λ e. e ≡ PushError.TooDeep → length self.old ≡ most_frames) }
        ensures kept { OnErr result (self.new ≡ self.old) }
    {
        if self.depth() == 1024 {
            return Err(PushError::TooDeep);
        }
        self.below.reserve(1)?;
        let frame = Frame::new(self.alloc, &mut self.spares, method, locals, stack)?;
        match self.top.replace(frame) {
            Some(old) => match self.below.push(old) {
                Ok(()) => Ok(()),
                Err(_) => unreachable!(),
            },
            None => Ok(()),
        }
    }

    /// Takes the top frame away.
    pub fn pop(&mut self)
        requires { 0 < length self.old }
        ensures { self.new ≡ below_top self.old }
    {
        if let Some(ended) = self.top.take() {
            self.spares.keep(ended);
        }
        self.top = self.below.pop();
    }

    /// Pushes an operand on the top frame, which has room for it.
    pub fn push_value(&mut self, value: Value)
        requires { length (top_operands self.old) < top_room self.old }
        ensures operands { top_operands self.new ≡ value ∷ top_operands self.old }
        ensures rest { SameButOperands self.old self.new }
    {
        match &mut self.top {
            Some(frame) => frame.operands.push(value),
            None => unreachable!(),
        }
    }

    /// Takes the top operand of the top frame away.
    pub fn pop_value(&mut self) -> Value
        requires { 0 < length (top_operands self.old) }
        ensures operands { top_operands self.old ≡ result ∷ top_operands self.new }
        ensures rest { SameButOperands self.old self.new }
    {
        match &mut self.top {
            Some(frame) => frame.operands.pop(),
            None => unreachable!(),
        }
    }

    /// How many operands more have room in the top frame; none where there is no frame.
    pub fn spare(&self) -> u16
        ensures { length (top_operands self.now) + result ≡ top_room self.now }
    {
        match &self.top {
            Some(frame) => frame.operands.spare(),
            None => 0,
        }
    }

    /// How many frames there are.
    pub fn depth(&self) -> u32
        ensures { result ≡ length self.now }
    {
        match &self.top {
            Some(_) => self.below.len() as u32 + 1,
            None => 0,
        }
    }
}
