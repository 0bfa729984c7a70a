ghost use Rattle.std.specs.Prelude.{◌<◌, length, IfErr, IfOk};
ghost use Rattle.dj_image.specs.Imaged.{program_of};
ghost use Rattle.dj_current_method.specs.Activations.{AreActivations};
ghost use Rattle.dj_unwinding.specs.Returns.{HasRoomBelow, IsReturned};
ghost use Rattle.dj_unwinding.specs.Short.{HasNumberBelow};

use crate::top::{resume, top_method};
use dj_current_method::is_initialiser;
use dj_image::{Image, MethodId};
use dj_names::Value;
use dj_stack::Frames;
use std::alloc::AllocError;

/// How the run goes on where a method returns.
#[derive(Clone, Copy, Debug, PartialEq, Eq)]
pub enum Returned {
    /// In the caller, whose frame is the top one.
    Back,
    /// The run ends: the frame is the last one, and stays.
    Last,
}

/// The method of the top frame returns. The caller's call is done, with the value pushed; below an initialiser the caller's instruction is
/// still to be done, and nothing is pushed.
#[tactic(auto, using(dj_current_method::proofs::Standing::top_within, crate::proofs::Frames::last_returned, crate::proofs::Frames::initialiser_returned, crate::proofs::Frames::method_returned, crate::proofs::Frames::room_below, crate::proofs::Frames::some_below, crate::proofs::Frames::popped_stand, crate::proofs::Frames::resumed_stand, crate::proofs::ShortLaws::number_below))]
pub fn go_back(
    image: &Image,
    frames: &mut Frames,
    value: Option<Value>,
) -> Result<Returned, AllocError>
    requires stand { AreActivations image.now frames.old }
    requires some { 0 < length frames.old }
    requires room { HasRoomBelow (program_of image.now) frames.old value }
    ensures reported { IfOk result (λ returned. IsReturned (program_of image.now) frames.old frames.new value returned) }
    ensures stand { IfOk result (λ returned. AreActivations image.now frames.new) }
    ensures frugal { HasNumberBelow frames.old → IfErr result (λ _. ⊥) }
{
    let method = MethodId {
        number: top_method(frames),
    };
    if frames.depth() == 1 {
        return Ok(Returned::Last);
    }
    frames.pop();
    if is_initialiser(image, method) {
        return Ok(Returned::Back);
    }
    resume(frames, value)?;
    Ok(Returned::Back)
}
