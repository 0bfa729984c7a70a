ghost use Rattle.std.specs.Prelude.{◌↔◌, ◌≡◌, ◌<◌, ◌≤◌, ◌^◌, length, All, AllPairs, IsTrue};
ghost use Rattle.std.specs.List.Sorted.{IsStrictlyIncreasing};
ghost use Rattle.dj_frames.specs.trusted.StackMaps.{types_of, HasCounts, IsType};
ghost use Rattle.dj_frames.specs.StackMaps.{IsTypeBelow, IsFrameBelow, IsWellFormed, AreWellFormed};

use dj_ops::{Form, Frame, Frames, VType};

/// Whether each number is below the next, as the addresses of instructions are: the condition of `read_frames`.
pub fn is_rising(numbers: &[u32]) -> bool
    ensures { IsTrue result ↔ IsStrictlyIncreasing numbers.now }
{
    for index in 1..numbers.len() {
        if numbers[index] <= numbers[index - 1] {
            return false;
        }
    }
    true
}

fn is_type_below(limit: usize, item: VType) -> bool
    ensures { IsTrue result ↔ IsTypeBelow limit item }
{
    match item {
        VType::Uninitialized(number) => (number as usize) < limit,
        _ => true,
    }
}

fn are_types_below(limit: usize, types: &[VType]) -> bool
    ensures { IsTrue result ↔ All (IsTypeBelow limit) types.now }
{
    for item in types {
        if !is_type_below(limit, *item) {
            return false;
        }
    }
    true
}

fn is_form_below(limit: usize, form: &Form) -> bool
    ensures { IsTrue result ↔ All (IsTypeBelow limit) (types_of form.now) }
{
    match form {
        Form::Same => true,
        Form::Stack1(operand) => is_type_below(limit, *operand),
        Form::Chop(_) => true,
        Form::Append(locals) => are_types_below(limit, locals.as_slice()),
        Form::Full(locals, operands) => {
            are_types_below(limit, locals.as_slice()) && are_types_below(limit, operands.as_slice())
        }
    }
}

fn is_frame_below(limit: usize, frame: &Frame) -> bool
    ensures { IsTrue result ↔ IsFrameBelow limit frame.now }
{
    (frame.at as usize) < limit && is_form_below(limit, &frame.form)
}

/// Whether each number in the frames is below the limit: the condition of `relocate`, whose lists are as long.
pub fn are_below(limit: usize, frames: &Frames) -> bool
    ensures { IsTrue result ↔ All (IsFrameBelow limit) frames.now }
{
    for frame in frames.as_slice() {
        if !is_frame_below(limit, frame) {
            return false;
        }
    }
    true
}

fn is_type(starts: &[u32], item: VType) -> bool
    ensures { IsTrue result ↔ IsType starts.now item }
{
    match item {
        VType::Uninitialized(number) => {
            (number as usize) < starts.len() && starts[number as usize] < 65_536
        }
        _ => true,
    }
}

fn are_types(starts: &[u32], types: &[VType]) -> bool
    ensures { IsTrue result ↔ All (IsType starts.now) types.now }
{
    for item in types {
        if !is_type(starts, *item) {
            return false;
        }
    }
    true
}

fn has_types(starts: &[u32], form: &Form) -> bool
    ensures { IsTrue result ↔ All (IsType starts.now) (types_of form.now) }
{
    match form {
        Form::Same => true,
        Form::Stack1(operand) => is_type(starts, *operand),
        Form::Chop(_) => true,
        Form::Append(locals) => are_types(starts, locals.as_slice()),
        Form::Full(locals, operands) => {
            are_types(starts, locals.as_slice()) && are_types(starts, operands.as_slice())
        }
    }
}

fn has_counts(form: &Form) -> bool
    ensures { IsTrue result ↔ HasCounts form.now }
{
    match form {
        Form::Chop(count) => 1 <= *count && *count <= 3,
        Form::Append(locals) => 1 <= locals.as_slice().len() && locals.as_slice().len() <= 3,
        Form::Full(locals, operands) => {
            locals.as_slice().len() < 65_536 && operands.as_slice().len() < 65_536
        }
        _ => true,
    }
}

fn is_well_formed(starts: &[u32], frame: &Frame) -> bool
    ensures { IsTrue result ↔ IsWellFormed starts.now frame.now }
{
    (frame.at as usize) < starts.len() && has_counts(&frame.form) && has_types(starts, &frame.form)
}

fn are_each_well_formed(starts: &[u32], frames: &[Frame]) -> bool
    ensures { IsTrue result ↔ All (IsWellFormed starts.now) frames.now }
{
    for frame in frames {
        if !is_well_formed(starts, frame) {
            return false;
        }
    }
    true
}

fn are_frames_rising(frames: &[Frame]) -> bool
    ensures { IsTrue result ↔ AllPairs (λ a b. a.at < b.at) frames.now }
{
    for index in 1..frames.len() {
        if frames[index].at <= frames[index - 1].at {
            return false;
        }
    }
    true
}

fn are_short(addresses: &[u32]) -> bool
    ensures { IsTrue result ↔ All (λ address. address < 2 ^ 16) addresses.now }
{
    for address in addresses {
        if 65_535 < *address {
            return false;
        }
    }
    true
}

/// Whether the frames are well formed where these are the addresses of the instructions: the condition of `write_frames`.
pub fn are_well_formed(frames: &Frames, starts: &[u32]) -> bool
    ensures { IsTrue result ↔ AreWellFormed starts.now frames.now }
{
    let items = frames.as_slice();
    is_rising(starts)
        && are_short(starts)
        && items.len() < 65_536
        && are_frames_rising(items)
        && are_each_well_formed(starts, items)
}
