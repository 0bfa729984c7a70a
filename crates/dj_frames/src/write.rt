ghost use Rattle.std.specs.Prelude.{◌≡◌, ◌+◌, ◌-◌, ◌^◌, ◌<◌, ◌≤◌, ◌++◌, ◌∷◌, [], length, All, AllPairs, slice_index, OnOk, IfOk, IfErr};
ghost use Rattle.std.specs.List.{flat_map};
ghost use Rattle.dj_cursor.specs.trusted.Spelling.{u1, u2, table_bytes};
ghost use Rattle.dj_frames.specs.trusted.StackMaps.{long_tag, type_bytes, form_bytes, types_of, HasCounts, IsType, IsStackMap};
ghost use Rattle.dj_frames.specs.StackMaps.{AreWellFormed};
ghost use Rattle.dj_frames.specs.trusted.Written.{short_tag, head_bytes, frames_bytes, stack_map_bytes};
ghost use Rattle.dj_frames.specs.declared.read.FrameError.TheVariants as errors;

use crate::read::FrameError;
use dj_cursor::u2_bytes;
use dj_names::Bytes;
use dj_ops::{Form, Frame, Frames, VType, VTypes};
use std::alloc::Global;

fn put_u1(out: &mut Bytes, number: u8) -> Result<(), FrameError>
    ensures ok { OnOk result (out.new ≡ out.old ++ u1 number) }
    ensures memory { IfErr result (λ e. e ≡ errors.Memory) }
{
    Ok(out.push(number)?)
}

fn put_u2(out: &mut Bytes, number: u16) -> Result<(), FrameError>
    ensures ok { OnOk result (out.new ≡ out.old ++ u2 number) }
    ensures memory { IfErr result (λ e. e ≡ errors.Memory) }
{
    Ok(out.extend(&u2_bytes(number))?)
}

fn put_type(out: &mut Bytes, item: VType, starts: &[u32]) -> Result<(), FrameError>
    requires { IsType starts.now item }
    ensures ok { OnOk result (out.new ≡ out.old ++ type_bytes starts.now item) }
    ensures memory { IfErr result (λ e. e ≡ errors.Memory) }
{
    match item {
        VType::Top => put_u1(out, 0),
        VType::Integer => put_u1(out, 1),
        VType::Float => put_u1(out, 2),
        VType::Double => put_u1(out, 3),
        VType::Long => put_u1(out, 4),
        VType::Null => put_u1(out, 5),
        VType::UninitializedThis => put_u1(out, 6),
        VType::Object(index) => {
            put_u1(out, 7)?;
            put_u2(out, index)
        }
        VType::Uninitialized(number) => {
            put_u1(out, 8)?;
            put_u2(out, starts[number as usize] as u16)
        }
    }
}

fn put_types(out: &mut Bytes, types: &[VType], starts: &[u32]) -> Result<(), FrameError>
    requires types { All (IsType starts.now) types.now }
    ensures ok { OnOk result (out.new ≡ out.old ++ flat_map (type_bytes starts.now) types.now) }
    ensures memory { IfErr result (λ e. e ≡ errors.Memory) }
{
    for item in types {
        put_type(out, *item, starts)?;
    }
    Ok(())
}

fn put_table(out: &mut Bytes, types: &[VType], starts: &[u32]) -> Result<(), FrameError>
    requires types { All (IsType starts.now) types.now }
    requires count { length types.now < 2 ^ 16 }
    ensures ok { OnOk result (out.new ≡ out.old ++ table_bytes (type_bytes starts.now) types.now) }
    ensures memory { IfErr result (λ e. e ≡ errors.Memory) }
{
    put_u2(out, types.len() as u16)?;
    put_types(out, types, starts)
}

/// What comes after frame_type and offset_delta.
fn put_form(out: &mut Bytes, form: &Form, starts: &[u32]) -> Result<(), FrameError>
    requires types { All (IsType starts.now) (types_of form.now) }
    requires counts { HasCounts form.now }
    ensures ok { OnOk result (out.new ≡ out.old ++ form_bytes starts.now form.now) }
    ensures memory { IfErr result (λ e. e ≡ errors.Memory) }
{
    match form {
        Form::Same => Ok(()),
        Form::Stack1(operand) => put_type(out, *operand, starts),
        Form::Chop(_) => Ok(()),
        Form::Append(locals) => put_types(out, locals.as_slice(), starts),
        Form::Full(locals, operands) => {
            put_table(out, locals.as_slice(), starts)?;
            put_table(out, operands.as_slice(), starts)
        }
    }
}

/// The frame_type that is followed by an offset_delta of two bytes.
fn long_tag(form: &Form) -> u8
    requires counts { HasCounts form.now }
    ensures { result ≡ long_tag form.now }
{
    match form {
        Form::Same => 251,
        Form::Stack1(_) => 247,
        Form::Chop(count) => 251 - *count,
        Form::Append(locals) => 251 + locals.as_slice().len() as u8,
        Form::Full(_, _) => 255,
    }
}

/// The frame_type that has the offset_delta in it, where the form has one and the offset_delta is at most 63.
fn short_tag(delta: u16, form: &Form) -> Option<u8>
    ensures { result ≡ short_tag delta form.now }
{
    if delta > 63 {
        return None;
    }
    match form {
        Form::Same => Some(delta as u8),
        Form::Stack1(_) => Some(64 + delta as u8),
        _ => None,
    }
}

fn put_head(out: &mut Bytes, delta: u16, form: &Form) -> Result<(), FrameError>
    requires counts { HasCounts form.now }
    ensures ok { OnOk result (out.new ≡ out.old ++ head_bytes delta form.now) }
    ensures memory { IfErr result (λ e. e ≡ errors.Memory) }
{
    if let Some(tag) = short_tag(delta, form) {
        return put_u1(out, tag);
    }
    put_u1(out, long_tag(form))?;
    put_u2(out, delta)
}

fn put_frames(out: &mut Bytes, frames: &[Frame], starts: &[u32]) -> Result<(), FrameError>
    requires { AreWellFormed starts.now frames.now }
    ensures ok { OnOk result (out.new ≡ out.old ++ frames_bytes starts.now 0 frames.now) }
    ensures memory { IfErr result (λ e. e ≡ errors.Memory) }
{
    let mut least = 0u32;
    for frame in frames {
        let address = starts[frame.at as usize];
        put_head(out, (address - least) as u16, &frame.form)?;
        put_form(out, &frame.form, starts)?;
        least = address + 1;
    }
    Ok(())
}

/// The body of a StackMapTable (JVMS 4.7.4) with these frames, where these are the addresses of the instructions. A frame has the short form
/// where its offset_delta is at most 63 and the form has one.
pub fn write_frames(alloc: Global, frames: &Frames, starts: &[u32]) -> Result<Bytes, FrameError>
    requires { AreWellFormed starts.now frames.now }
    ensures means { IfOk result (λ body. IsStackMap body starts.now frames.now) }
    ensures short { IfOk result (λ body. body ≡ stack_map_bytes starts.now frames.now) }
    ensures memory { IfErr result (λ e. e ≡ errors.Memory) }
{
    let mut out = Bytes::new(alloc);
    let items = frames.as_slice();
    put_u2(&mut out, items.len() as u16)?;
    put_frames(&mut out, items, starts)?;
    Ok(out)
}
