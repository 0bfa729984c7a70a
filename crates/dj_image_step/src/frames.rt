ghost use Rattle.std.specs.Prelude.{◌≡◌, ◌<◌, length};
ghost use Rattle.dj_model.specs.Standing.{AreStanding};
ghost use Rattle.dj_stack.specs.Frames as tops;
ghost use Rattle.dj_image.specs.Imaged.{program_of};
ghost use Rattle.dj_current_method.specs.Activations.{AreActivations, frames_seen};
ghost use Rattle.dj_image_step.specs.Doing.{IsTop};

use dj_image::{Image, MethodId};
use dj_stack::Frames;

/// Where the top frame is.
#[derive(Clone, Copy)]
pub(crate) struct Top {
    pub(crate) method: MethodId,
    // Of the instruction.
    pub(crate) number: u32,
}

/// Where the top frame is, of frames that stand.
#[tactic(auto, using(crate::proofs::Tops::some_standing, crate::proofs::Tops::is_top))]
pub(crate) fn top_of(image: &Image, frames: &Frames) -> Top
    requires stand { AreActivations image.now frames.now }
    requires standing { AreStanding (program_of image.now) (frames_seen (program_of image.now) frames.now) }
    ensures { IsTop image.now frames.now result.method.number result.number }
{
    Top {
        method: MethodId {
            number: top_method(frames),
        },
        number: top_number(frames),
    }
}

// The method of the top frame.
#[tactic(auto, using(dj_unwinding::proofs::Tops::top_there, dj_unwinding::proofs::Tops::method_on_top))]
fn top_method(frames: &Frames) -> u32
    requires { 0 < length frames.now }
    ensures { result ≡ tops.top_method frames.now }
{
    frames.method(frames.depth() - 1)
}

// The number of the top frame's instruction.
#[tactic(auto, using(dj_unwinding::proofs::Tops::top_there, dj_unwinding::proofs::Tops::number_on_top))]
fn top_number(frames: &Frames) -> u32
    requires { 0 < length frames.now }
    ensures { result ≡ tops.top_number frames.now }
{
    frames.number(frames.depth() - 1)
}
