ghost use Rattle.std.specs.Prelude.{◌≡◌, ◌<◌, [], Some, length, IfErr, IfOk};
ghost use Rattle.dj_model.specs.trusted.Instructions.{Instruction};
ghost use Rattle.dj_model.specs.Sound.{IsSound};
ghost use Rattle.dj_natives.specs.Known.{AreKnown};
ghost use Rattle.dj_numbering.specs.Typed.{types_of};
ghost use Rattle.dj_image.specs.Imaged.{program_of, typed_of};
ghost use Rattle.dj_current_method.specs.Activations.{AreActivations};
ghost use Rattle.dj_current_method.specs.Instructions.{instruction_of_number};
ghost use Rattle.dj_image_effects.specs.declared.acted.Acted.TheVariants as acts;
ghost use Rattle.dj_settling.specs.Frugal.{IsFrugalThrow};
ghost use Rattle.dj_settling.specs.Settling.{HasOwn, IsThrown};
ghost use Rattle.dj_image_step.specs.Frugal.{IsFrugalActed, IsFrugalRun, IsReadyFor};
ghost use Rattle.dj_image_step.specs.Running.{IsKept, IsRunning};
ghost use Rattle.dj_image_step.specs.Doing.{ActedSettles, IsTop, TurnsBy, doing};

use crate::counting::exceeded;
use crate::run::Run;
use crate::tables::Tables;
use dj_heap::Heap;
use dj_image::{Image, MethodId};
use dj_image_effects::{Acted, act};
use dj_names::{Charge, Outcome};
use dj_settling::{Settled, go, throw};
use dj_stack::Frames;
use std::alloc::{AllocError, Global};

/// The top frame's instruction, which is no call, is done, and what follows is settled.
#[tactic(auto, using(crate::proofs::ActedLaws::acted_stand, crate::proofs::ActedLaws::acted_some, crate::proofs::ActedLaws::acted_then))]
pub(crate) fn act_next(
    alloc: Global,
    image: &Image,
    tables: &Tables,
    run: &mut Run,
    method: MethodId,
    number: u32,
) -> Result<Settled, AllocError>
    requires kept { IsKept image.now tables.now }
    requires running { IsRunning image.now run.old }
    requires top { IsTop image.now run.old.parts.frames method.number number }
    ensures turns { (i : Instruction) → instruction_of_number image.now method.number number ≡ Some i → IfOk result (TurnsBy image.now (doing image.now i) run.old run.new []) }
    ensures frugal { IsFrugalRun image.now run.old → IfErr result (λ _. ⊥) }
{
    let acted = act(
        image,
        &tables.places,
        tables.throwable,
        &mut run.frames,
        &mut run.heap,
        &mut run.statics,
        &mut run.literals,
        method,
        number,
    )?;
    let charge = exceeded(&run.accounter);
    settle_acted(alloc, image, &mut run.frames, &mut run.heap, charge, acted)
}

/// What follows an instruction that was done. There is no memory for one that lacks what it takes, and for a call, which isn't done so; no sound
/// program has one here.
#[inline(always)]
pub(crate) fn settle_acted(
    alloc: Global,
    image: &Image,
    frames: &mut Frames,
    heap: &mut Heap,
    exceeded: Option<Charge>,
    acted: Acted,
) -> Result<Settled, AllocError>
    requires sound { IsSound (program_of image.now) image.now.prefix }
    requires own { HasOwn image.now }
    requires stand { AreActivations image.now frames.old }
    requires some { 0 < length frames.old }
    requires known { AreKnown (types_of (typed_of image.now)) heap.old }
    requires ready { IsReadyFor image.now heap.old frames.old acted }
    ensures settles { IfOk result (ActedSettles image.now exceeded acted heap.old heap.new frames.old frames.new) }
    ensures frugal { IsFrugalActed image.now heap.old frames.old acted → IfErr result (λ _. ⊥) }
{
    match acted {
        Acted::Goes(way) => go(alloc, image, frames, heap, exceeded, way),
        Acted::Catch(exception) => catch(alloc, image, frames, heap, exceeded, exception),
        Acted::Link => Ok(Settled::Ended(Outcome::Link)),
        Acted::HeapFull { used, size } => Ok(Settled::Ended(Outcome::HeapFull { used, size })),
        Acted::Call => Err(AllocError),
        Acted::Stuck => Err(AllocError),
    }
}

// The object is thrown.
#[tactic(auto, using(dj_settling::proofs::WayLaws::as_caught))]
#[inline(never)]
fn catch(
    alloc: Global,
    image: &Image,
    frames: &mut Frames,
    heap: &mut Heap,
    exceeded: Option<Charge>,
    exception: u32,
) -> Result<Settled, AllocError>
    requires sound { IsSound (program_of image.now) image.now.prefix }
    requires stand { AreActivations image.now frames.old }
    requires some { 0 < length frames.old }
    requires known { AreKnown (types_of (typed_of image.now)) heap.old }
    requires thrown { IsThrown image.now heap.old exception }
    ensures settles { IfOk result (ActedSettles image.now exceeded (acts.Catch exception) heap.old heap.new frames.old frames.new) }
    ensures frugal { IsFrugalThrow image.now heap.old frames.old exception → IfErr result (λ _. ⊥) }
{
    throw(alloc, image, frames, heap, exceeded, exception)
}
