ghost use Rattle.std.specs.Prelude.{◌<◌, length, IsTrue, IsSome};
ghost use Rattle.dj_stack.specs.Frames.{frame_at, local_at, operand_at, top_locals, top_operands, top_room};

use crate::calls::{Call, LOCALS, OPERANDS, value_of};
use dj_names::Value;
use dj_stack::{Frames, PushError};
use std::alloc::Global;

// ---- what is there

// Whether there is a frame of this number.
#[tactic(auto, using(crate::proofs::Tops::frame_here))]
fn has_frame(frames: &Frames, f: u32) -> bool
    ensures { IsTrue result → IsSome (frame_at frames.now f) }
{
    f < frames.depth()
}

// Whether it has a local variable of this number.
#[tactic(auto, using(crate::proofs::Tops::local_here))]
fn has_local_of(frames: &Frames, f: u32, at: u16) -> bool
    ensures { IsTrue result → IsSome (local_at frames.now f at) }
{
    has_frame(frames, f) && at < frames.locals(f)
}

// Whether it has an operand of this number.
#[tactic(auto, using(crate::proofs::Tops::operand_here))]
fn has_operand_of(frames: &Frames, f: u32, at: u16) -> bool
    ensures { IsTrue result → IsSome (operand_at frames.now f at) }
{
    has_frame(frames, f) && at < frames.operands(f)
}

// Whether the top frame has a local variable of this number.
#[tactic(auto, using(crate::proofs::Tops::frame_here, crate::proofs::Tops::top_local_here))]
fn has_local(frames: &Frames, at: u16) -> bool
    ensures { IsTrue result → at < length (top_locals frames.now) }
{
    let depth = frames.depth();
    0 < depth && at < frames.locals(depth - 1)
}

// Whether the top frame has an operand.
#[tactic(auto, using(crate::proofs::Tops::frame_here, crate::proofs::Tops::top_operand_here))]
fn has_operand(frames: &Frames) -> bool
    ensures { IsTrue result → 0 < length (top_operands frames.now) }
{
    let depth = frames.depth();
    0 < depth && 0 < frames.operands(depth - 1)
}

// Whether the top frame has room for operands.
fn has_room(frames: &Frames) -> bool
    ensures { IsTrue result → 0 < top_room frames.now }
{
    let spare = frames.spare();
    0 < spare || has_operand(frames)
}

// ---- what is done

fn is_popped(frames: &mut Frames) -> bool {
    if frames.depth() == 0 {
        return false;
    }
    frames.pop();
    true
}

fn is_set(frames: &mut Frames, at: u16, value: Option<Value>) -> bool {
    if !has_local(frames, at) {
        return false;
    }
    frames.set_local(at, value);
    true
}

fn is_local(frames: &Frames, at: u16, value: Option<Value>) -> bool {
    has_local(frames, at) && frames.local(at) == value
}

fn is_given(frames: &mut Frames, value: Value) -> bool {
    if frames.spare() == 0 {
        return false;
    }
    frames.push_value(value);
    true
}

fn is_taken(frames: &mut Frames, value: Value) -> bool {
    has_operand(frames) && frames.pop_value() == value
}

fn is_unwound(frames: &mut Frames, value: Value) -> bool {
    if !has_room(frames) {
        return false;
    }
    frames.unwind(value);
    true
}

fn are_set(frames: &mut Frames, from: u16, to: u16) -> bool {
    for at in from..to {
        if !is_set(frames, at, Some(value_of(at))) {
            return false;
        }
    }
    true
}

fn are_locals(frames: &Frames, from: u16, to: u16) -> bool {
    for at in from..to {
        if !is_local(frames, at, Some(value_of(at))) {
            return false;
        }
    }
    true
}

fn are_given(frames: &mut Frames, from: u16, to: u16) -> bool {
    for number in from..to {
        if !is_given(frames, value_of(number)) {
            return false;
        }
    }
    true
}

fn are_taken(frames: &mut Frames, from: u16, to: u16) -> bool {
    for number in (from..to).rev() {
        if !is_taken(frames, value_of(number)) {
            return false;
        }
    }
    true
}

fn is_reported(frames: &Frames, call: &Call) -> bool {
    match call {
        Call::Depth(depth) => frames.depth() == *depth,
        Call::Spare(spare) => frames.spare() == *spare,
        Call::Local(at, value) => is_local(frames, *at, *value),
        Call::LocalEach(from, to) => are_locals(frames, *from, *to),
        Call::LocalOf(f, at, value) => has_local_of(frames, *f, *at)
            && frames.local_of(*f, *at) == *value,
        Call::OperandOf(f, at, value) => has_operand_of(frames, *f, *at)
            && frames.operand_of(*f, *at) == *value,
        _ => false,
    }
}

// Whether the call succeeds and answers what it should.
fn is_answered(frames: &mut Frames, call: &Call) -> bool {
    match call {
        Call::Push(locals, stack) => frames.push(7, *locals, *stack) == Ok(()),
        Call::Pop => is_popped(frames),
        Call::Set(at, value) => is_set(frames, *at, *value),
        Call::SetEach(from, to) => are_set(frames, *from, *to),
        Call::Give(value) => is_given(frames, *value),
        Call::GiveEach(from, to) => are_given(frames, *from, *to),
        Call::Take(value) => is_taken(frames, *value),
        Call::TakeEach(from, to) => are_taken(frames, *from, *to),
        Call::Unwind(value) => is_unwound(frames, *value),
        _ => is_reported(frames, call),
    }
}

fn are_answered(alloc: Global, calls: &[Call]) -> bool {
    let mut frames = Frames::new(alloc);
    for call in calls {
        if !is_answered(&mut frames, call) {
            return false;
        }
    }
    true
}

#[test]
fn local_variables_of_large_frames(rt: HostRuntime) {
    for (number, calls) in LOCALS.iter().enumerate() {
        assert!(rt; are_answered(rt.alloc(), calls), "row {number}");
    }
}

#[test]
fn operands_of_large_frames(rt: HostRuntime) {
    for (number, calls) in OPERANDS.iter().enumerate() {
        assert!(rt; are_answered(rt.alloc(), calls), "row {number}");
    }
}

// ---- how many frames

// The local variables and the operands of frames, small and large.
const SIZES: [(u16, u16); 4] = [(2, 3), (1025, 0), (0, 1025), (1500, 1500)];

// Whether this many frames are pushed.
fn are_pushed(frames: &mut Frames, wanted: u32, size: (u16, u16)) -> bool {
    for _ in 0..wanted {
        if frames.push(7, size.0, size.1).is_err() {
            return false;
        }
    }
    true
}

fn are_few(alloc: Global, size: (u16, u16)) -> bool {
    let mut frames = Frames::new(alloc);
    are_pushed(&mut frames, 1024, size)
        && frames.push(7, size.0, size.1) == Err(PushError::TooDeep)
        && frames.depth() == 1024
}

#[test]
fn there_are_1024_frames_at_most(rt: HostRuntime) {
    for (number, size) in SIZES.iter().enumerate() {
        assert!(rt; are_few(rt.alloc(), *size), "size {number}");
    }
}
