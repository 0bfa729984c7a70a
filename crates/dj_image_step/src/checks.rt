ghost use Rattle.std.specs.Prelude.{◌≡◌, ◌<◌, true, length, Some, IsSome};
ghost use Rattle.dj_model.specs.Sound.{IsProgram};
ghost use Rattle.dj_stack.specs.Frames.{StackFrame, frame_at, top_operands, top_room};
ghost use Rattle.dj_natives.specs.Known.{AreKnown};
ghost use Rattle.dj_numbering.specs.Typed.{types_of};
ghost use Rattle.dj_image.specs.Imaged.{program_of, typed_of};
ghost use Rattle.dj_current_method.specs.Activations.{AreActivations};
ghost use Rattle.dj_settling.specs.Settling.{IsThrown};

use dj_current_method::code_of;
use dj_heap::{Heap, Made};
use dj_image::{Image, MethodId};
use dj_stack::Frames;

/// Whether it is an object that may be thrown: an instance of a class.
#[tactic(auto, using(dj_unwinding::proofs::Outcomes::object_there, crate::proofs::CheckLaws::instance_thrown))]
pub(crate) fn is_thrown(image: &Image, heap: &Heap, r: u32) -> bool
    requires { AreKnown (types_of (typed_of image.now)) heap.now }
    ensures { result ≡ true → IsThrown image.now heap.now r }
{
    if r == 0 || heap.count() < r {
        return false;
    }
    match heap.made(r) {
        Made::Instance => true,
        Made::Array(_) => false,
        Made::Text => false,
    }
}

/// Whether the top frame has room for one more operand.
#[tactic(auto, using(dj_unwinding::proofs::Tops::top_there, crate::proofs::CheckLaws::top_roomy))]
pub(crate) fn has_room(image: &Image, frames: &Frames) -> bool
    requires formed { IsProgram (program_of image.now) }
    requires stand { AreActivations image.now frames.now }
    requires some { 0 < length frames.now }
    ensures { result ≡ true → length (top_operands frames.now) < top_room frames.now }
{
    is_roomy(image, frames, frames.depth() - 1)
}

// Whether the frame of a number has room for one more operand.
#[tactic(auto, using(crate::proofs::CheckLaws::frame_within, crate::proofs::CheckLaws::roomy))]
fn is_roomy(image: &Image, frames: &Frames, f: u32) -> bool
    requires formed { IsProgram (program_of image.now) }
    requires stand { AreActivations image.now frames.now }
    requires there { IsSome (frame_at frames.now f) }
    ensures { result ≡ true → (frame : StackFrame) → frame_at frames.now f ≡ Some frame → length frame.operands < frame.room }
{
    let method = MethodId {
        number: frames.method(f),
    };
    match code_of(image, method) {
        Some(code) => frames.operands(f) < code.max_stack,
        None => false,
    }
}
