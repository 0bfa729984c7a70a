ghost use Rattle.std.specs.Prelude.{◌≡◌, ◌<◌, ◌++◌, ◌∷◌, [], length, map, All, IfOk, IsErrOf, IfErr};
ghost use Rattle.std.specs.List.Sorted.{IsStrictlyIncreasing};
ghost use Rattle.dj_frames.specs.trusted.StackMaps.{types_of};
ghost use Rattle.dj_frames.specs.StackMaps.{IsTypeBelow, IsFrameBelow};
ghost use Rattle.dj_frames.specs.Moves.{moved_type, moved_form, moved_frame};
ghost use Rattle.dj_frames.specs.declared.read.FrameError.TheVariants as errors;

use crate::read::FrameError;
use dj_ops::{Form, Frame, Frames, VType, VTypes};
use std::alloc::Global;

fn relocate_type(item: VType, own: &[u32]) -> VType
    requires { IsTypeBelow (length own.now) item }
    ensures { result ≡ moved_type own.now item }
{
    match item {
        VType::Uninitialized(number) => VType::Uninitialized(own[number as usize]),
        other => other,
    }
}

fn relocate_types(alloc: Global, types: &VTypes, own: &[u32]) -> Result<VTypes, FrameError>
    requires { All (IsTypeBelow (length own.now)) types.now }
    ensures ok { IfOk result (λ moved. moved ≡ map (moved_type own.now) types.now) }
    ensures memory { IfErr result (λ e. e ≡ errors.Memory) }
{
    let mut moved = VTypes::new(alloc);
    for item in types.as_slice() {
        moved.push(relocate_type(*item, own))?;
    }
    Ok(moved)
}

fn relocate_form(alloc: Global, form: &Form, own: &[u32]) -> Result<Form, FrameError>
    requires { All (IsTypeBelow (length own.now)) (types_of form.now) }
    ensures ok { IfOk result (λ moved. moved ≡ moved_form own.now form.now) }
    ensures memory { IfErr result (λ e. e ≡ errors.Memory) }
{
    Ok(match form {
        Form::Same => Form::Same,
        Form::Stack1(operand) => Form::Stack1(relocate_type(*operand, own)),
        Form::Chop(count) => Form::Chop(*count),
        Form::Append(locals) => Form::Append(relocate_types(alloc, locals, own)?),
        Form::Full(locals, operands) => Form::Full(
            relocate_types(alloc, locals, own)?,
            relocate_types(alloc, operands, own)?,
        ),
    })
}

/// The same frames at other instructions: `at` is looked up in `start`, and `Uninitialized` in `own`.
pub fn relocate(
    alloc: Global,
    frames: &Frames,
    start: &[u32],
    own: &[u32],
) -> Result<Frames, FrameError>
    requires rise { IsStrictlyIncreasing start.now }
    requires below_start { All (IsFrameBelow (length start.now)) frames.now }
    requires below_own { All (IsFrameBelow (length own.now)) frames.now }
    ensures ok { IfOk result (λ moved. moved ≡ map (moved_frame start.now own.now) frames.now) }
    ensures memory { IfErr result (λ e. e ≡ errors.Memory) }
{
    let mut moved = Frames::new(alloc);
    for frame in frames.as_slice() {
        let form = relocate_form(alloc, &frame.form, own)?;
        let at = start[frame.at as usize];
        moved.push(Frame { at, form })?;
    }
    Ok(moved)
}
