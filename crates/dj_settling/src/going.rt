ghost use Rattle.std.specs.Prelude.{◌≡◌, ◌<◌, ◌+◌, ◌^◌, Option, length, IfErr, IfOk, OnOk};
ghost use Rattle.dj_names.specs.declared.run.Charge as charges;
ghost use Rattle.dj_model.specs.trusted.State as states;
ghost use Rattle.dj_model.specs.Sound.{IsSound};
ghost use Rattle.dj_stack.specs.Frames.{SameButNumber, top_number};
ghost use Rattle.dj_effects.specs.Does.{way_view};
ghost use Rattle.dj_natives.specs.Known.{AreKnown};
ghost use Rattle.dj_numbering.specs.Typed.{types_of};
ghost use Rattle.dj_image.specs.Imaged.{program_of, typed_of};
ghost use Rattle.dj_current_method.specs.Activations.{AreActivations};
ghost use Rattle.dj_settling.specs.Frugal.{IsFrugal};
ghost use Rattle.dj_settling.specs.Settling.{HasOwn, HasRoomFor, Settles, top_settled};

use crate::raising::raise;
use crate::returning::give_back;
use crate::settled::Settled;
use dj_effects::Way;
use dj_heap::Heap;
use dj_image::Image;
use dj_names::Charge;
use dj_stack::Frames;
use std::alloc::{AllocError, Global};

/// The run goes on after the top frame's instruction, as its effect says.
#[tactic(auto, using(crate::proofs::WayLaws::as_raised))]
pub fn go(
    alloc: Global,
    image: &Image,
    frames: &mut Frames,
    heap: &mut Heap,
    exceeded: Option<Charge>,
    way: Way,
) -> Result<Settled, AllocError>
    requires sound { IsSound (program_of image.now) image.now.prefix }
    requires own { HasOwn image.now }
    requires stand { AreActivations image.now frames.old }
    requires some { 0 < length frames.old }
    requires known { AreKnown (types_of (typed_of image.now)) heap.old }
    requires room { HasRoomFor (program_of image.now) frames.old way }
    ensures settles { IfOk result (λ settled. Settles image.now exceeded (top_settled (program_of image.now) image.now.prefix (states.Goes (way_view way))) heap.old heap.new frames.old frames.new settled) }
    ensures frugal { IsFrugal frames.old way → IfErr result (λ _. ⊥) }
{
    match way {
        Way::Next => go_next(image, frames, heap),
        Way::To(number) => go_to(image, frames, heap, number),
        Way::Raise(raised) => raise(alloc, image, frames, heap, exceeded, raised),
        Way::Back(value) => give_back(alloc, image, frames, heap, value),
    }
}

// At the next instruction.
#[tactic(auto, using(crate::proofs::WayLaws::went_on))]
pub(crate) fn go_next(
    image: &Image,
    frames: &mut Frames,
    heap: &Heap,
) -> Result<Settled, AllocError>
    requires stand { AreActivations image.now frames.old }
    requires some { 0 < length frames.old }
    requires known { AreKnown (types_of (typed_of image.now)) heap.now }
    ensures settles { (exceeded : Option charges.Charge) → IfOk result (λ settled. Settles image.now exceeded (top_settled (program_of image.now) image.now.prefix (states.Goes states.Next)) heap.now heap.now frames.old frames.new settled) }
    ensures frugal { top_number frames.old + 1 < 2 ^ 32 → IfErr result (λ _. ⊥) }
{
    advance(frames)?;
    Ok(Settled::Went)
}

// At the instruction of this number. There is no memory for a number past the greatest.
#[tactic(auto, using(crate::proofs::WayLaws::went_to))]
fn go_to(
    image: &Image,
    frames: &mut Frames,
    heap: &Heap,
    number: u64,
) -> Result<Settled, AllocError>
    requires stand { AreActivations image.now frames.old }
    requires some { 0 < length frames.old }
    requires known { AreKnown (types_of (typed_of image.now)) heap.now }
    ensures settles { (exceeded : Option charges.Charge) → IfOk result (λ settled. Settles image.now exceeded (top_settled (program_of image.now) image.now.prefix (states.Goes (states.To number))) heap.now heap.now frames.old frames.new settled) }
    ensures frugal { number < 2 ^ 32 → IfErr result (λ _. ⊥) }
{
    let Ok(number) = u32::try_from(number) else {
        return Err(AllocError);
    };
    frames.set_number(number);
    Ok(Settled::Went)
}

// The top frame is at the next instruction. There is no memory for the number after the greatest.
#[tactic(auto, using(dj_unwinding::proofs::Tops::top_there, dj_unwinding::proofs::Tops::number_on_top))]
pub(crate) fn advance(frames: &mut Frames) -> Result<(), AllocError>
    requires { 0 < length frames.old }
    ensures number { OnOk result (top_number frames.new ≡ top_number frames.old + 1) }
    ensures rest { OnOk result (SameButNumber frames.old frames.new) }
    ensures frugal { top_number frames.old + 1 < 2 ^ 32 → IfErr result (λ _. ⊥) }
{
    let number = frames.number(frames.depth() - 1);
    let Some(next) = number.checked_add(1) else {
        return Err(AllocError);
    };
    frames.set_number(next);
    Ok(())
}
