use dj_frames::{FrameError, is_rising, read_frames};
use dj_ops::{Form, Frame, Frames, VType};
use std::alloc::{AllocError, Global};

// Frames as pairs of numbers. For each frame its instruction and its form; how much is chopped, or how many types of locals and of operands
// there are; and the types, each by its place in the list of types and its index or instruction.
pub type FrameNumbers<'a> = &'a [(u32, u32)];

pub const SAME: u32 = 0;

pub const STACK1: u32 = 1;

pub const CHOP: u32 = 2;

pub const APPEND: u32 = 3;

pub const FULL: u32 = 4;

fn type_reported(item: VType) -> (u32, u32) {
    match item {
        VType::Top => (0, 0),
        VType::Integer => (1, 0),
        VType::Float => (2, 0),
        VType::Double => (3, 0),
        VType::Long => (4, 0),
        VType::Null => (5, 0),
        VType::UninitializedThis => (6, 0),
        VType::Object(index) => (7, u32::from(index)),
        VType::Uninitialized(number) => (8, number),
    }
}

fn say_types(
    alloc: Global,
    at: u32,
    form: u32,
    locals: &[VType],
    operands: &[VType],
) -> Result<Vec<(u32, u32)>, AllocError> {
    let mut reported = Vec::new(alloc);
    reported.push((at, form))?;
    if locals.len() < 999 && operands.len() < 999 {
        reported.push((locals.len() as u32, operands.len() as u32))?;
    }
    for item in locals {
        reported.push(type_reported(*item))?;
    }
    for item in operands {
        reported.push(type_reported(*item))?;
    }
    Ok(reported)
}

fn say_frame(alloc: Global, frame: &Frame) -> Result<Vec<(u32, u32)>, AllocError> {
    let at = frame.at;
    match &frame.form {
        Form::Same => say_types(alloc, at, SAME, &[], &[]),
        Form::Stack1(operand) => say_types(alloc, at, STACK1, &[], &[*operand]),
        Form::Chop(count) => Ok(Vec::from_slice(alloc, &[(at, CHOP), (u32::from(*count), 0)])?),
        Form::Append(locals) => say_types(alloc, at, APPEND, locals.as_slice(), &[]),
        Form::Full(locals, operands) => {
            say_types(alloc, at, FULL, locals.as_slice(), operands.as_slice())
        }
    }
}

fn say(alloc: Global, frames: &Frames) -> Result<Vec<(u32, u32)>, AllocError> {
    let mut reported = Vec::new(alloc);
    for frame in frames.as_slice() {
        reported.extend_from_slice(say_frame(alloc, frame)?.as_slice())?;
    }
    Ok(reported)
}

pub fn are(alloc: Global, frames: &Frames, wanted: FrameNumbers<'_>) -> bool {
    match say(alloc, frames) {
        Ok(reported) => reported.as_slice() == wanted,
        Err(_) => false,
    }
}

// Addresses of instructions, and other numbers that rise.
const LISTS: [&[u32]; 34] = [
    &[0, 3, 7, 8, 72, 200, 70000],
    &[0, 3, 7],
    &[0],
    &[5],
    &[],
    &[0, 65535],
    &[65535, 65536],
    &[65535, 131071, 131072],
    &[0, 3, 7, 8, 72, 200, 400, 65535],
    &[63],
    &[64],
    &[0, 64],
    &[0, 65],
    &[65534, 65535],
    &[65535],
    &[0, 1, 2],
    &[0, 4, 8],
    &[0, 5, 9],
    &[2, 7, 11],
    &[10, 20, 30, 40],
    &[11, 21, 31, 41],
    &[0, 2, 4, 6, 8],
    &[1, 3, 5, 7, 9],
    &[0, 1000000],
    &[5, 4294967295],
    &[1, 2],
    &[2, 1],
    &[7],
    &[0, 7],
    &[0, 0],
    &[3, 4, 5],
    &[9, 9, 9],
    &[0, 6, 9],
    &[0, 8, 9],
];

pub fn list(index: usize) -> &'static [u32] {
    LISTS.get(index).copied().unwrap_or(&[])
}

pub fn frames_of(alloc: Global, starts: &[u32], body: &[u8]) -> Result<Frames, FrameError> {
    if is_rising(starts) && body.len() < 999 {
        read_frames(alloc, body, starts)
    } else {
        Err(FrameError::Memory)
    }
}
