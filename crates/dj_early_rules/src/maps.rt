ghost use Rattle.std.specs.Prelude.{◌≡◌, ◌↔◌, ◌<◌, ◌^◌, length, IsTrue, IfOk};
ghost use Rattle.std.specs.List.{AllByRecursion};
ghost use Rattle.std.specs.List.Sorted.{IsStrictlyIncreasing};
ghost use Rattle.dj_early_rules.specs.trusted.Code.{IsFloatType, HaveFloats, HasFloatType, HaveFloatType, AreFramesAt};
ghost use Rattle.dj_early_rules.specs.Passes.{lacks_memory_of_frames, bodies_in, HasFramesAt};

use dj_frames::{FrameError, read_frames};
use dj_ops::{Form, Frame, Frames, VType};
use std::alloc::{AllocError, Global};

fn is_float_type(item: VType) -> bool
    ensures { IsTrue result ↔ IsFloatType item }
{
    matches!(item, VType::Float | VType::Double)
}

fn have_floats(types: &[VType]) -> bool
    ensures { IsTrue result ↔ HaveFloats types.now }
{
    for item in types {
        if is_float_type(*item) {
            return true;
        }
    }
    false
}

fn has_float_type(frame: &Frame) -> bool
    ensures { IsTrue result ↔ HasFloatType frame.now }
{
    match &frame.form {
        Form::Same => false,
        Form::Stack1(operand) => is_float_type(*operand),
        Form::Chop(_) => false,
        Form::Append(locals) => have_floats(locals.as_slice()),
        Form::Full(locals, operands) => {
            have_floats(locals.as_slice()) || have_floats(operands.as_slice())
        }
    }
}

/// Whether one of the frames has a float or a double.
pub fn have_float_type(frames: &[Frame]) -> bool
    ensures { IsTrue result ↔ HaveFloatType frames.now }
{
    for frame in frames {
        if has_float_type(frame) {
            return true;
        }
    }
    false
}

fn lacks_memory(error: &FrameError) -> bool
    ensures { result ≡ lacks_memory_of_frames error.now }
{
    matches!(error, FrameError::Memory)
}

// The frames of the body, for code whose instructions start at these addresses; none where the body is no stack map.
fn frames_at(alloc: Global, starts: &[u32], body: &[u8]) -> Result<Option<Frames>, AllocError>
    requires short { length body.now < 2 ^ 32 }
    requires rise { IsStrictlyIncreasing starts.now }
    ensures { IfOk result (AreFramesAt starts.now body.now) }
{
    match read_frames(alloc, body, starts) {
        Ok(frames) => Ok(Some(frames)),
        Err(error) => {
            if lacks_memory(&error) {
                Err(AllocError)
            } else {
                Ok(None)
            }
        }
    }
}

/// The frames of code whose instructions start at these addresses and whose stack map, if it has one, has this body.
pub fn frames_in(
    alloc: Global,
    starts: &[u32],
    map: Option<&[u8]>,
) -> Result<Option<Frames>, AllocError>
    requires short { AllByRecursion (λ body. length body < 2 ^ 32) (bodies_in map) }
    requires rise { IsStrictlyIncreasing starts.now }
    ensures { IfOk result (HasFramesAt starts.now (bodies_in map.entry)) }
{
    match map {
        Some(body) => frames_at(alloc, starts, body),
        None => Ok(Some(Frames::new(alloc))),
    }
}
