ghost use Rattle.std.specs.Prelude.{◌≡◌, ◌<◌, ◌+◌, ◌^◌, length, IfErr, OnOk};
ghost use Rattle.dj_stack.specs.Frames as tops;
ghost use Rattle.dj_unwinding.specs.Resuming.{HasRoom, Resumes};

use dj_names::Value;
use dj_stack::Frames;
use std::alloc::AllocError;

/// The method of the top frame.
#[tactic(auto, using(crate::proofs::Tops::top_there, crate::proofs::Tops::method_on_top))]
pub(crate) fn top_method(frames: &Frames) -> u32
    requires { 0 < length frames.now }
    ensures { result ≡ tops.top_method frames.now }
{
    frames.method(frames.depth() - 1)
}

/// The number of the top frame's instruction.
#[tactic(auto, using(crate::proofs::Tops::top_there, crate::proofs::Tops::number_on_top))]
pub(crate) fn top_number(frames: &Frames) -> u32
    requires { 0 < length frames.now }
    ensures { result ≡ tops.top_number frames.now }
{
    frames.number(frames.depth() - 1)
}

/// The instruction of the top frame is done, and its result pushed where there is one. There is no memory for the number after the greatest.
#[tactic(auto, using(crate::proofs::Tops::resumed_with, crate::proofs::Tops::resumed_without, crate::proofs::Tops::room_left))]
pub(crate) fn resume(frames: &mut Frames, given: Option<Value>) -> Result<(), AllocError>
    requires some { 0 < length frames.old }
    requires room { HasRoom frames.old given }
    ensures resumes { OnOk result (Resumes frames.old frames.new given) }
    ensures frugal { tops.top_number frames.old + 1 < 2 ^ 32 → IfErr result (λ _. ⊥) }
{
    let Some(next) = top_number(frames).checked_add(1) else {
        return Err(AllocError);
    };
    frames.set_number(next);
    if let Some(value) = given {
        frames.push_value(value);
    }
    Ok(())
}
