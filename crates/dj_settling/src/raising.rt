ghost use Rattle.std.specs.Prelude.{◌≡◌, ◌++◌, IfOk};
ghost use Rattle.dj_names.specs.trusted.Values.{raised_class};
ghost use Rattle.dj_model.specs.trusted.Types.{raised_type};
ghost use Rattle.dj_model.specs.Sound.{IsSound};
ghost use Rattle.dj_natives.specs.Known.{AreKnown};
ghost use Rattle.dj_numbering.specs.Typed.{types_of};
ghost use Rattle.dj_image.specs.Imaged.{program_of, typed_of};
ghost use Rattle.dj_current_method.specs.Activations.{AreActivations};
ghost use Rattle.dj_settling.specs.Settling.{HasOwn, IsClassOf, Settles, raising};

use crate::settled::Settled;
use crate::throwing::throw_new;
use dj_heap::Heap;
use dj_image::Image;
use dj_names::{Charge, Raised};
use dj_numbering::raised_name;
use dj_stack::Frames;
use std::alloc::{AllocError, Global};

/// An exception of an instruction's own, without message and cause, is made and thrown.
#[tactic(auto, using(crate::proofs::RaiseLaws::raised_new))]
pub fn raise(
    alloc: Global,
    image: &Image,
    frames: &mut Frames,
    heap: &mut Heap,
    exceeded: Option<Charge>,
    raised: Raised,
) -> Result<Settled, AllocError>
    requires sound { IsSound (program_of image.now) image.now.prefix }
    requires own { HasOwn image.now }
    requires stand { AreActivations image.now frames.old }
    requires known { AreKnown (types_of (typed_of image.now)) heap.old }
    ensures { IfOk result (λ settled. Settles image.now exceeded (raising image.now raised) heap.old heap.new frames.old frames.new settled) }
{
    let class = class_of(image, raised);
    throw_new(alloc, image, frames, heap, exceeded, class, 2)
}

// The class of an exception of an instruction's own.
fn class_of(image: &Image, raised: Raised) -> u32
    requires { HasOwn image.now }
    ensures { IsClassOf image.now (raised_type image.now.prefix raised) result }
{
    match image.raised(raised) {
        Some(class) => class,
        None => unreachable!(),
    }
}

// Its name in the image.
#[tactic(auto, using(crate::proofs::RaiseLaws::raised_named))]
pub(crate) fn name_in(image: &Image, raised: Raised) -> &'static [u8]
    ensures { result.now ≡ image.now.prefix ++ raised_class raised }
{
    raised_name(image.linker().base(), raised)
}
