ghost use Rattle.std.specs.Prelude.{◌≡◌, ◌<◌, length, None, IfErr, IfOk, IfSome};
ghost use Rattle.dj_model.specs.Sound.{IsSound};
ghost use Rattle.dj_stack.specs.Frames.{below_top};
ghost use Rattle.dj_numbering.specs.Typed.{type_at};
ghost use Rattle.dj_image.specs.Imaged.{program_of, typed_of};
ghost use Rattle.dj_current_method.specs.Activations.{AreActivations};
ghost use Rattle.dj_unwinding.specs.Short.{AreShort};
ghost use Rattle.dj_unwinding.specs.Unwinding.{IsClassNumber, IsKnown, IsPassed, IsUnwound};

use crate::rows::handler_of;
use crate::top::{top_method, top_number};
use dj_current_method::initialised_by;
use dj_image::{Image, MethodId};
use dj_names::Value;
use dj_stack::Frames;
use std::alloc::AllocError;

/// Where an exception went.
#[derive(Clone, Copy, Debug, PartialEq, Eq)]
pub enum Unwound {
    /// It came to a handler, which is next, in the frame that is the top one now.
    Caught,
    /// It left the initialiser of the class of this number.
    Init(u32),
    /// It left the last frame.
    Threw,
}

/// An exception, an object of this class, leaves frames, the top one first, up to the first with a handler (JVMS 2.10).
pub fn unwind(
    image: &Image,
    frames: &mut Frames,
    class: u32,
    exception: u32,
) -> Result<Unwound, AllocError>
    requires sound { IsSound (program_of image.now) image.now.prefix }
    requires stand { AreActivations image.now frames.old }
    requires class { IsClassNumber (typed_of image.now) class }
    ensures reported { IfOk result (λ unwound. IsUnwound image.now (type_at (typed_of image.now) class) exception frames.old frames.new unwound) }
    ensures known { IfOk result (λ unwound. IsKnown image.now unwound) }
    ensures stand { IfOk result (λ unwound. AreActivations image.now frames.new) }
    ensures frugal { AreShort image.now → IfErr result (λ _. ⊥) }
{
    while 0 < frames.depth() {
        if let Some(unwound) = pass(image, frames, class, exception)? {
            return Ok(unwound);
        }
    }
    Ok(Unwound::Threw)
}

// The same for the top frame alone, which is removed where the exception leaves it.
#[tactic(auto, using(dj_current_method::proofs::Standing::top_within, crate::proofs::Frames::caught_on_top, crate::proofs::Frames::left_initialiser, crate::proofs::Frames::went_past, crate::proofs::Frames::initialiser_known, crate::proofs::Frames::room_for_exception, crate::proofs::Frames::caught_stand, crate::proofs::Frames::popped_stand))]
fn pass(
    image: &Image,
    frames: &mut Frames,
    class: u32,
    exception: u32,
) -> Result<Option<Unwound>, AllocError>
    requires sound { IsSound (program_of image.now) image.now.prefix }
    requires stand { AreActivations image.now frames.old }
    requires class { IsClassNumber (typed_of image.now) class }
    requires some { 0 < length frames.old }
    ensures reported { IfOk result (IsPassed image.now (type_at (typed_of image.now) class) exception frames.old frames.new) }
    ensures known { IfOk result (λ passed. IfSome passed (IsKnown image.now)) }
    ensures left { IfOk result (λ passed. passed ≡ None → frames.new ≡ below_top frames.old) }
    ensures stand { IfOk result (λ passed. AreActivations image.now frames.new) }
    ensures frugal { AreShort image.now → IfErr result (λ _. ⊥) }
{
    let method = MethodId {
        number: top_method(frames),
    };
    if let Some(handler) = handler_of(image, method, top_number(frames), class)? {
        frames.set_number(handler);
        frames.unwind(Value::Ref(exception));
        return Ok(Some(Unwound::Caught));
    }
    if let Some(left) = initialised_by(image, method) {
        return Ok(Some(Unwound::Init(left)));
    }
    frames.pop();
    Ok(None)
}
