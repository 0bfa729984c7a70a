ghost use Rattle.std.specs.Prelude.{◌≡◌, ◌<◌, ◌∷◌, [], Option, Some, length, IfOk};
ghost use Rattle.dj_names.specs.declared.run.Charge as charges;
ghost use Rattle.dj_model.specs.trusted.State.{Flow, Goes, Next};
ghost use Rattle.dj_model.specs.Sound.{IsSound};
ghost use Rattle.dj_stack.specs.Frames.{top_operands, top_room};
ghost use Rattle.dj_natives.specs.Calls.{flow_reported, given, stop_reported};
ghost use Rattle.dj_natives.specs.Known.{AreKnown};
ghost use Rattle.dj_numbering.specs.Typed.{types_of};
ghost use Rattle.dj_image.specs.Imaged.{program_of, typed_of};
ghost use Rattle.dj_current_method.specs.Activations.{AreActivations};
ghost use Rattle.dj_settling.specs.Settling.{HasOwn, IsExpected, IsStop, KeepsStop, Settles, StopsBy, native_settled, top_settled};

use crate::going::{advance, go_next};
use crate::raising::raise;
use crate::settled::Settled;
use crate::stopping::throw_stop;
use crate::throwing::throw;
use dj_heap::Heap;
use dj_image::Image;
use dj_names::{Charge, NativeId, Outcome, Value};
use dj_natives::{NativeAnswer, reference};
use dj_stack::Frames;
use std::alloc::{AllocError, Global};

/// What follows the answer of a native method, whose arguments were taken from the top frame.
#[tactic(auto, using(crate::proofs::WayLaws::as_native, crate::proofs::WayLaws::as_given, crate::proofs::WayLaws::as_raised, crate::proofs::WayLaws::as_ended, crate::proofs::NativeLaws::reported_before))]
pub fn settle_native(
    alloc: Global,
    image: &Image,
    frames: &mut Frames,
    heap: &mut Heap,
    exceeded: Option<Charge>,
    stop: &mut u32,
    id: NativeId,
    args: &[Value],
    answer: NativeAnswer,
) -> Result<Settled, AllocError>
    requires sound { IsSound (program_of image.now) image.now.prefix }
    requires own { HasOwn image.now }
    requires stand { AreActivations image.now frames.old }
    requires some { 0 < length frames.old }
    requires known { AreKnown (types_of (typed_of image.now)) heap.old }
    requires is { IsStop image.now heap.old stop.old }
    requires expected { IsExpected image.now heap.old frames.old id args.now answer }
    ensures settles { (flow : Flow) → flow_reported id args.now answer ≡ Some flow
        → IfOk result (λ settled. Settles image.now exceeded (native_settled (program_of image.now) image.now.prefix (given answer) flow) heap.old heap.new frames.old frames.new settled) }
    ensures is { IfOk result (λ _. KeepsStop image.now heap.new stop.old stop.new) }
{
    match answer {
        NativeAnswer::Nothing => go_next(image, frames, heap),
        NativeAnswer::Gives(value) => give(image, frames, heap, value),
        NativeAnswer::Raise(raised) => raise(alloc, image, frames, heap, exceeded, raised),
        NativeAnswer::Stop => stop_by(alloc, image, frames, heap, exceeded, stop, id, args),
        NativeAnswer::Full { used, size } => {
            Ok(Settled::Ended(Outcome::HeapFull { used, size }))
        }
        NativeAnswer::Memory => Err(AllocError),
    }
}

// The value is pushed, and the top frame goes on at the next instruction.
#[tactic(auto, using(crate::proofs::WayLaws::gave))]
fn give(
    image: &Image,
    frames: &mut Frames,
    heap: &Heap,
    value: Value,
) -> Result<Settled, AllocError>
    requires stand { AreActivations image.now frames.old }
    requires some { 0 < length frames.old }
    requires known { AreKnown (types_of (typed_of image.now)) heap.now }
    requires room { length (top_operands frames.old) < top_room frames.old }
    ensures { (exceeded : Option charges.Charge) → IfOk result (λ settled. Settles image.now exceeded (native_settled (program_of image.now) image.now.prefix (value ∷ []) (Goes Next)) heap.now heap.now frames.old frames.new settled) }
{
    frames.push_value(value);
    advance(frames)?;
    Ok(Settled::Went)
}

// The object that stops a run is thrown, which checkCatch was given.
#[tactic(auto, using(crate::proofs::NativeLaws::again, crate::proofs::NativeLaws::rewritten, crate::proofs::NativeLaws::by_object, crate::proofs::NativeLaws::by_charge, crate::proofs::NativeLaws::reported_now, crate::proofs::NativeLaws::reported_before))]
fn stop_by(
    alloc: Global,
    image: &Image,
    frames: &mut Frames,
    heap: &mut Heap,
    exceeded: Option<Charge>,
    stop: &mut u32,
    id: NativeId,
    args: &[Value],
) -> Result<Settled, AllocError>
    requires sound { IsSound (program_of image.now) image.now.prefix }
    requires own { HasOwn image.now }
    requires stand { AreActivations image.now frames.old }
    requires some { 0 < length frames.old }
    requires known { AreKnown (types_of (typed_of image.now)) heap.old }
    requires is { IsStop image.now heap.old stop.old }
    requires by { StopsBy image.now heap.old id args.now }
    ensures settles { IfOk result (λ settled. Settles image.now exceeded (top_settled (program_of image.now) image.now.prefix (stop_reported id args.now)) heap.old heap.new frames.old frames.new settled) }
    ensures is { IfOk result (λ _. KeepsStop image.now heap.new stop.old stop.new) }
{
    match id {
        NativeId::CheckCatch => throw(alloc, image, frames, heap, exceeded, reference(args, 0)),
        _ => throw_stop(alloc, image, frames, heap, exceeded, stop),
    }
}
