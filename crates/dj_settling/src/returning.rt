ghost use Rattle.std.specs.Prelude.{◌<◌, length, Option, IfErr, IfOk};
ghost use Rattle.dj_names.specs.declared.run.Charge.{Charge};
ghost use Rattle.dj_model.specs.trusted.State.{Goes, Back};
ghost use Rattle.dj_natives.specs.Known.{AreKnown};
ghost use Rattle.dj_numbering.specs.Typed.{types_of};
ghost use Rattle.dj_image.specs.Imaged.{program_of, typed_of};
ghost use Rattle.dj_current_method.specs.Activations.{AreActivations};
ghost use Rattle.dj_unwinding.specs.Returns.{HasRoomBelow};
ghost use Rattle.dj_settling.specs.Frugal.{IsFrugalReturn};
ghost use Rattle.dj_settling.specs.Settling.{Settles, top_settled};

use crate::settled::Settled;
use dj_heap::Heap;
use dj_image::Image;
use dj_names::Value;
use dj_stack::Frames;
use dj_unwinding::{Returned, go_back, result_outcome};
use std::alloc::{AllocError, Global};

/// The method of the top frame returns, and the run goes on in the caller, or ends where it was the last one.
#[tactic(auto, using(crate::proofs::WayLaws::went_back, crate::proofs::WayLaws::last_ended, crate::proofs::FrugalLaws::has_number_below, crate::proofs::FrugalLaws::never_last))]
pub fn give_back(
    alloc: Global,
    image: &Image,
    frames: &mut Frames,
    heap: &Heap,
    value: Option<Value>,
) -> Result<Settled, AllocError>
    requires stand { AreActivations image.now frames.old }
    requires some { 0 < length frames.old }
    requires room { HasRoomBelow (program_of image.now) frames.old value }
    requires known { AreKnown (types_of (typed_of image.now)) heap.now }
    ensures settles { (exceeded : Option Charge) → IfOk result (λ settled. Settles image.now exceeded (top_settled (program_of image.now) image.now.prefix (Goes (Back value))) heap.now heap.now frames.old frames.new settled) }
    ensures frugal { IsFrugalReturn frames.old → IfErr result (λ _. ⊥) }
{
    match go_back(image, frames, value)? {
        Returned::Back => Ok(Settled::Went),
        Returned::Last => Ok(Settled::Ended(result_outcome(alloc, heap, value)?)),
    }
}
