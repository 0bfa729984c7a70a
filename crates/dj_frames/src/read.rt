ghost use Rattle.std.specs.Prelude.{◌≡◌, ◌+◌, ◌-◌, ◌^◌, ◌<◌, ◌≤◌, ℕ, length, IfOk};
ghost use Rattle.std.specs.List.Sorted.{IsStrictlyIncreasing};
ghost use Rattle.dj_cursor.specs.Steps.{Gives};
ghost use Rattle.dj_cursor.specs.Reading.{many_at, table_at};
ghost use Rattle.dj_cursor.specs.Views.{cursor_of};
ghost use Rattle.dj_frames.specs.Reading.{is_memory, number_at, offset_at, plain_type_at, bare_type_at, object_at, uninitialized_at, type_at, stack1_at, append_at, full_at, form_at, long_frame_at, same_frame_at, stack1_frame_at, frame_at, frames_at, frames_read};
ghost use Rattle.dj_frames.specs.Answers.{ReadsFrames};
ghost use Rattle.dj_frames.specs.declared.read.FrameError.TheVariants as errors;

use dj_cursor::{Cursor, Cut};
use dj_ops::{Form, Frame, Frames, VType, VTypes};
use std::alloc::{AllocError, AllocFailed, Global};
use thiserror::Error;

/// Why a stack map was not read, renumbered or written. A place is an offset in the body of the StackMapTable.
#[derive(Clone, Copy, Debug, PartialEq, Eq, Error)]
pub enum FrameError {
    /// The item at this place is cut or has a value that it may not have, or bytes after the last item begin there.
    #[error("the item at {0} of the stack map is cut, has a value that it may not have, or is one too many")]
    BadFrame(u32),
    /// The item at this place gives an address where no instruction starts.
    #[error("the item at {0} of the stack map gives an address where no instruction starts")]
    NotAnInstruction(u32),
    /// There was no memory.
    #[error("out of memory")]
    Memory,
}

impl From<Cut> for FrameError {
    ghost from_gives = { λ cut e. e ≡ errors.BadFrame cut.0 };

    fn from(cut: Cut) -> FrameError {
        FrameError::BadFrame(cut.0)
    }
}

impl From<AllocError> for FrameError {
    ghost from_gives = { λ _ e. e ≡ errors.Memory };

    fn from(_error: AllocError) -> FrameError {
        FrameError::Memory
    }
}

impl<T: Drop> From<AllocFailed<T>> for FrameError {
    ghost from_gives = { λ _ e. e ≡ errors.Memory };

    fn from(_error: AllocFailed<T>) -> FrameError {
        FrameError::Memory
    }
}

/// The number of the instruction at an address; the item at the place gives the address.
fn find_number(starts: &[u32], place: u32, address: u64) -> Result<u32, FrameError>
    requires rise { IsStrictlyIncreasing starts.now }
    ensures gives { Gives is_memory (λ x. x) result (number_at starts.now place address) }
    ensures there { IfOk result (λ number. number < length starts.now) }
{
    let Ok(key) = u32::try_from(address) else {
        return Err(FrameError::NotAnInstruction(place));
    };
    let Ok(number) = starts.binary_search(&key) else {
        return Err(FrameError::NotAnInstruction(place));
    };
    Ok(number as u32)
}

/// Two bytes that are an instruction's address.
#[tactic(auto, unfolding(crate::specs::Reading::offset_at))]
fn read_offset<'a>(starts: &[u32], cursor: Cursor<'a>) -> Result<(u32, Cursor<'a>), FrameError>
    requires rise { IsStrictlyIncreasing starts.now }
    ensures { Gives is_memory (λ x. (x.0, cursor_of x.1)) result (offset_at starts.now (cursor_of cursor.entry)) }
{
    let (address, after) = cursor.u16_at()?;
    let number = find_number(starts, cursor.place, u64::from(address))?;
    Ok((number, after))
}

#[tactic(auto, unfolding(crate::specs::Reading::plain_type_at))]
fn plain_type(place: u32, tag: u8) -> Result<VType, FrameError>
    ensures { Gives is_memory (λ x. x) result (plain_type_at place tag) }
{
    match tag {
        0 => Ok(VType::Top),
        1 => Ok(VType::Integer),
        2 => Ok(VType::Float),
        3 => Ok(VType::Double),
        4 => Ok(VType::Long),
        5 => Ok(VType::Null),
        6 => Ok(VType::UninitializedThis),
        _ => Err(FrameError::BadFrame(place)),
    }
}

#[tactic(auto, unfolding(crate::specs::Reading::bare_type_at))]
fn read_bare_type(
    place: u32,
    tag: u8,
    cursor: Cursor<'_>,
) -> Result<(VType, Cursor<'_>), FrameError>
    ensures { Gives is_memory (λ x. (x.0, cursor_of x.1)) result (bare_type_at place tag (cursor_of cursor.entry)) }
{
    let item = plain_type(place, tag)?;
    Ok((item, cursor))
}

#[tactic(auto, unfolding(crate::specs::Reading::object_at))]
fn read_object(cursor: Cursor<'_>) -> Result<(VType, Cursor<'_>), FrameError>
    ensures { Gives is_memory (λ x. (x.0, cursor_of x.1)) result (object_at (cursor_of cursor.entry)) }
{
    let (index, after) = cursor.u16_at()?;
    Ok((VType::Object(index), after))
}

#[tactic(auto, unfolding(crate::specs::Reading::uninitialized_at))]
fn read_uninitialized<'a>(
    starts: &[u32],
    cursor: Cursor<'a>,
) -> Result<(VType, Cursor<'a>), FrameError>
    requires rise { IsStrictlyIncreasing starts.now }
    ensures { Gives is_memory (λ x. (x.0, cursor_of x.1)) result (uninitialized_at starts.now (cursor_of cursor.entry)) }
{
    let (number, after) = read_offset(starts, cursor)?;
    Ok((VType::Uninitialized(number), after))
}

/// A verification type (JVMS 4.7.4, verification_type_info).
#[tactic(auto, unfolding(crate::specs::Reading::type_at))]
fn read_type<'a>(starts: &[u32], cursor: Cursor<'a>) -> Result<(VType, Cursor<'a>), FrameError>
    requires rise { IsStrictlyIncreasing starts.now }
    ensures { Gives is_memory (λ x. (x.0, cursor_of x.1)) result (type_at starts.now (cursor_of cursor.entry)) }
{
    let (tag, after) = cursor.u8_at()?;
    match tag {
        7 => read_object(after),
        8 => read_uninitialized(starts, after),
        _ => read_bare_type(cursor.place, tag, after),
    }
}

fn read_types<'a>(
    alloc: Global,
    starts: &[u32],
    count: u16,
    cursor: Cursor<'a>,
) -> Result<(VTypes, Cursor<'a>), FrameError>
    requires rise { IsStrictlyIncreasing starts.now }
    ensures { Gives is_memory (λ x. (x.0, cursor_of x.1)) result
        (many_at (type_at starts.now) count (cursor_of cursor.entry)) }
{
    let mut types = VTypes::new(alloc);
    let mut after = cursor;
    for _ in 0..count {
        let (item, next) = read_type(starts, after)?;
        types.push(item)?;
        after = next;
    }
    Ok((types, after))
}

#[tactic(auto, unfolding(dj_cursor::specs::Reading::table_at))]
fn read_type_table<'a>(
    alloc: Global,
    starts: &[u32],
    cursor: Cursor<'a>,
) -> Result<(VTypes, Cursor<'a>), FrameError>
    requires rise { IsStrictlyIncreasing starts.now }
    ensures { Gives is_memory (λ x. (x.0, cursor_of x.1)) result
        (table_at errors.BadFrame (type_at starts.now) (cursor_of cursor.entry)) }
{
    let (count, after) = cursor.u16_at()?;
    read_types(alloc, starts, count, after)
}

#[tactic(auto, unfolding(crate::specs::Reading::stack1_at))]
fn read_stack1<'a>(starts: &[u32], cursor: Cursor<'a>) -> Result<(Form, Cursor<'a>), FrameError>
    requires rise { IsStrictlyIncreasing starts.now }
    ensures { Gives is_memory (λ x. (x.0, cursor_of x.1)) result (stack1_at starts.now (cursor_of cursor.entry)) }
{
    let (operand, after) = read_type(starts, cursor)?;
    Ok((Form::Stack1(operand), after))
}

#[tactic(auto, unfolding(crate::specs::Reading::append_at))]
fn read_append<'a>(
    alloc: Global,
    starts: &[u32],
    count: u8,
    cursor: Cursor<'a>,
) -> Result<(Form, Cursor<'a>), FrameError>
    requires rise { IsStrictlyIncreasing starts.now }
    ensures { Gives is_memory (λ x. (x.0, cursor_of x.1)) result
        (append_at starts.now count (cursor_of cursor.entry)) }
{
    let (locals, after) = read_types(alloc, starts, u16::from(count), cursor)?;
    Ok((Form::Append(locals), after))
}

#[tactic(auto, unfolding(crate::specs::Reading::full_at))]
fn read_full<'a>(
    alloc: Global,
    starts: &[u32],
    cursor: Cursor<'a>,
) -> Result<(Form, Cursor<'a>), FrameError>
    requires rise { IsStrictlyIncreasing starts.now }
    ensures { Gives is_memory (λ x. (x.0, cursor_of x.1)) result (full_at starts.now (cursor_of cursor.entry)) }
{
    let (locals, after) = read_type_table(alloc, starts, cursor)?;
    let (operands, after) = read_type_table(alloc, starts, after)?;
    Ok((Form::Full(locals, operands), after))
}

/// What follows an offset_delta of two bytes.
#[tactic(auto, unfolding(crate::specs::Reading::form_at))]
fn read_form<'a>(
    alloc: Global,
    starts: &[u32],
    tag: u8,
    cursor: Cursor<'a>,
) -> Result<(Form, Cursor<'a>), FrameError>
    requires rise { IsStrictlyIncreasing starts.now }
    requires tag { 247 ≤ tag }
    ensures { Gives is_memory (λ x. (x.0, cursor_of x.1)) result (form_at starts.now tag (cursor_of cursor.entry)) }
{
    if tag == 247 {
        read_stack1(starts, cursor)
    } else if tag < 251 {
        Ok((Form::Chop(251 - tag), cursor))
    } else if tag == 251 {
        Ok((Form::Same, cursor))
    } else if tag < 255 {
        read_append(alloc, starts, tag - 251, cursor)
    } else {
        read_full(alloc, starts, cursor)
    }
}

#[tactic(auto, unfolding(crate::specs::Reading::long_frame_at))]
fn read_long_frame<'a>(
    alloc: Global,
    starts: &[u32],
    least: u64,
    tag: u8,
    cursor: Cursor<'a>,
) -> Result<(Frame, Cursor<'a>), FrameError>
    requires rise { IsStrictlyIncreasing starts.now }
    requires least { least ≤ 2 ^ 32 }
    requires tag { 247 ≤ tag }
    ensures gives { Gives is_memory (λ x. (x.0, cursor_of x.1)) result
        (long_frame_at starts.now least tag (cursor_of cursor.entry)) }
    ensures there { IfOk result (λ x. x.0.at < length starts.now) }
{
    let (delta, after) = cursor.u16_at()?;
    let at = find_number(starts, cursor.place, least + u64::from(delta))?;
    let (form, after) = read_form(alloc, starts, tag, after)?;
    Ok((Frame { at, form }, after))
}

#[tactic(auto, unfolding(crate::specs::Reading::same_frame_at))]
fn read_same_frame<'a>(
    starts: &[u32],
    place: u32,
    address: u64,
    cursor: Cursor<'a>,
) -> Result<(Frame, Cursor<'a>), FrameError>
    requires rise { IsStrictlyIncreasing starts.now }
    ensures gives { Gives is_memory (λ x. (x.0, cursor_of x.1)) result
        (same_frame_at starts.now place address (cursor_of cursor.entry)) }
    ensures there { IfOk result (λ x. x.0.at < length starts.now) }
{
    let at = find_number(starts, place, address)?;
    let form = Form::Same;
    Ok((Frame { at, form }, cursor))
}

#[tactic(auto, unfolding(crate::specs::Reading::stack1_frame_at))]
fn read_stack1_frame<'a>(
    starts: &[u32],
    place: u32,
    address: u64,
    cursor: Cursor<'a>,
) -> Result<(Frame, Cursor<'a>), FrameError>
    requires rise { IsStrictlyIncreasing starts.now }
    ensures gives { Gives is_memory (λ x. (x.0, cursor_of x.1)) result
        (stack1_frame_at starts.now place address (cursor_of cursor.entry)) }
    ensures there { IfOk result (λ x. x.0.at < length starts.now) }
{
    let at = find_number(starts, place, address)?;
    let (form, after) = read_stack1(starts, cursor)?;
    Ok((Frame { at, form }, after))
}

/// A frame, where `least` is the least address that it can have.
#[tactic(auto, unfolding(crate::specs::Reading::frame_at))]
fn read_frame<'a>(
    alloc: Global,
    starts: &[u32],
    least: u64,
    cursor: Cursor<'a>,
) -> Result<(Frame, Cursor<'a>), FrameError>
    requires rise { IsStrictlyIncreasing starts.now }
    requires least { least ≤ 2 ^ 32 }
    ensures gives { Gives is_memory (λ x. (x.0, cursor_of x.1)) result
        (frame_at starts.now least (cursor_of cursor.entry)) }
    ensures there { IfOk result (λ x. x.0.at < length starts.now) }
{
    let (tag, after) = cursor.u8_at()?;
    if tag < 64 {
        read_same_frame(starts, cursor.place, least + u64::from(tag), after)
    } else if tag < 128 {
        read_stack1_frame(starts, cursor.place, least + u64::from(tag - 64), after)
    } else if tag < 247 {
        Err(FrameError::BadFrame(cursor.place))
    } else {
        read_long_frame(alloc, starts, least, tag, after)
    }
}

fn read_frame_list<'a>(
    alloc: Global,
    starts: &[u32],
    count: u16,
    cursor: Cursor<'a>,
) -> Result<(Frames, Cursor<'a>), FrameError>
    requires rise { IsStrictlyIncreasing starts.now }
    ensures { Gives is_memory (λ x. (x.0, cursor_of x.1)) result
        (frames_at starts.now count 0 (cursor_of cursor.entry)) }
{
    let mut frames = Frames::new(alloc);
    let mut after = cursor;
    let mut least = 0u64;
    for _ in 0..count {
        let (frame, next) = read_frame(alloc, starts, least, after)?;
        least = u64::from(starts[frame.at as usize]) + 1;
        frames.push(frame)?;
        after = next;
    }
    Ok((frames, after))
}

#[tactic(auto, unfolding(crate::specs::Reading::frames_read))]
fn read_whole(alloc: Global, body: &[u8], starts: &[u32]) -> Result<Frames, FrameError>
    requires fits { length body.now < 2 ^ 32 }
    requires rise { IsStrictlyIncreasing starts.now }
    ensures { Gives is_memory (λ x. x) result (frames_read body.now starts.now) }
{
    let start = Cursor::start(body);
    let (count, after) = start.u16_at()?;
    let (frames, after) = read_frame_list(alloc, starts, count, after)?;
    if !after.is_at_end() {
        return Err(FrameError::BadFrame(after.place));
    }
    Ok(frames)
}

/// The frames of the body of a StackMapTable (JVMS 4.7.4), all of it, where these are the addresses of the instructions. `at` and
/// `Uninitialized` are instruction numbers: places in `starts`. The first fault of the body is reported, or that there was no memory.
pub fn read_frames(alloc: Global, body: &[u8], starts: &[u32]) -> Result<Frames, FrameError>
    requires fits { length body.now < 2 ^ 32 }
    requires rise { IsStrictlyIncreasing starts.now }
    ensures means { ReadsFrames body.now starts.now result }
    // For callers that compute.
    ensures exact { Gives is_memory (λ x. x) result (frames_read body.now starts.now) }
{
    read_whole(alloc, body, starts)
}
