ghost use Rattle.std.specs.Prelude.{◌≡◌, ◌<◌, ◌++◌, true, length, IfOk};
ghost use Rattle.dj_model.specs.trusted.Instructions.{Instruction};
ghost use Rattle.dj_model.specs.Sound.{IsSound};
ghost use Rattle.dj_natives.specs.Known.{AreKnown};
ghost use Rattle.dj_host.specs.trusted.Hosted.{given_since};
ghost use Rattle.dj_numbering.specs.Typed.{types_of};
ghost use Rattle.dj_image.specs.Imaged.{program_of, typed_of};
ghost use Rattle.dj_current_method.specs.Activations.{AreActivations};
ghost use Rattle.dj_settling.specs.Settling.{HasOwn, IsRewritten, IsStop, KeepsStop, StopsBy};
ghost use Rattle.dj_image_step.specs.Doing.{IsStill, TurnsBy, doing};
ghost use Rattle.dj_image_step.specs.Natives.{AreGiven, CallsNative, IsAwaited, IsQuiet, NativeSettles};

use crate::checks::{has_room, is_thrown};
use crate::counting::exceeded;
use crate::hosting::answer_of;
use crate::run::Run;
use dj_edge::Host;
use dj_heap::Heap;
use dj_image::Image;
use dj_invocation::{copy_operands, drop_operands};
use dj_names::{Charge, NativeId, Value};
use dj_natives::{NativeAnswer, reference};
use dj_settling::{Settled, settle_native};
use dj_stack::Frames;
use std::alloc::{AllocError, Global};

/// A native method is called on this many operands, which are taken, and what follows is settled.
pub(crate) fn call_method<H: Host>(
    alloc: Global,
    image: &Image,
    run: &mut Run,
    host: &mut H,
    id: NativeId,
    count: u16,
) -> Result<Settled, AllocError>
    requires sound { IsSound (program_of image.now) image.now.prefix }
    requires own { HasOwn image.now }
    requires still { IsStill image.now run.old }
    requires some { 0 < length run.old.parts.frames }
    requires stop { IsStop image.now run.old.parts.store.heap run.old.stop }
    requires given { AreGiven run.old.parts.frames id count }
    requires called { (i : Instruction) × CallsNative image.now i run.old.parts.frames run.old.parts.store.heap id count }
    ensures turns { (i : Instruction) → CallsNative image.now i run.old.parts.frames run.old.parts.store.heap id count
        → IfOk result (TurnsBy image.now (doing image.now i) run.old run.new (given_since (H.given host.old) (H.given host.new))) }
    ensures gave { H.given host.new ≡ H.given host.old ++ given_since (H.given host.old) (H.given host.new) }
    ensures quiet { IsQuiet id → H.given host.new ≡ H.given host.old }
{
    copy_operands(&run.frames, count, &mut run.arguments)?;
    drop_operands(&mut run.frames, count);
    let answer = answer_of(
        alloc,
        image,
        &mut run.heap,
        &mut run.accounter,
        host,
        id,
        run.arguments.as_slice(),
    )?;
    let charge = exceeded(&run.accounter);
    let counted = run.accounter.is_some();
    settle_answer(
        alloc,
        image,
        &mut run.frames,
        &mut run.heap,
        charge,
        &mut run.stop,
        counted,
        id,
        run.arguments.as_slice(),
        answer,
    )
}

// What follows an answer is settled, where the run is ready for it.
fn settle_answer(
    alloc: Global,
    image: &Image,
    frames: &mut Frames,
    heap: &mut Heap,
    exceeded: Option<Charge>,
    stop: &mut u32,
    counted: bool,
    id: NativeId,
    args: &[Value],
    answer: NativeAnswer,
) -> Result<Settled, AllocError>
    requires sound { IsSound (program_of image.now) image.now.prefix }
    requires own { HasOwn image.now }
    requires stand { AreActivations image.now frames.old }
    requires some { 0 < length frames.old }
    requires known { AreKnown (types_of (typed_of image.now)) heap.old }
    requires is { IsStop image.now heap.old stop.old }
    requires counted { counted ≡ true → IsRewritten image.now.prefix }
    ensures settles { IfOk result (NativeSettles image.now exceeded id args.now answer heap.old heap.new frames.old frames.new) }
    ensures is { IfOk result (λ _. KeepsStop image.now heap.new stop.old stop.new) }
{
    if !is_awaited(image, frames, heap, counted, id, args, answer) {
        return Err(AllocError);
    }
    settle_native(alloc, image, frames, heap, exceeded, stop, id, args, answer)
}

// Whether the run is ready for an answer, as in a sound program it always is where there was memory.
#[tactic(auto, using(crate::proofs::Awaited::plainly_awaited, crate::proofs::Awaited::given_awaited, crate::proofs::Awaited::stop_awaited))]
fn is_awaited(
    image: &Image,
    frames: &Frames,
    heap: &Heap,
    counted: bool,
    id: NativeId,
    args: &[Value],
    answer: NativeAnswer,
) -> bool
    requires sound { IsSound (program_of image.now) image.now.prefix }
    requires stand { AreActivations image.now frames.now }
    requires some { 0 < length frames.now }
    requires known { AreKnown (types_of (typed_of image.now)) heap.now }
    requires counted { counted ≡ true → IsRewritten image.now.prefix }
    ensures { result ≡ true → IsAwaited image.now heap.now frames.now id args.now answer }
{
    match answer {
        NativeAnswer::Nothing => true,
        NativeAnswer::Gives(_) => has_room(image, frames),
        NativeAnswer::Raise(_) => true,
        NativeAnswer::Stop => may_stop(image, heap, counted, id, args),
        NativeAnswer::Full { .. } => true,
        NativeAnswer::Memory => false,
    }
}

// Whether a native method may stop the run: only where somebody counts, or where what stops it was caught.
#[tactic(auto, using(crate::proofs::Awaited::again, crate::proofs::Awaited::by_charge))]
fn may_stop(image: &Image, heap: &Heap, counted: bool, id: NativeId, args: &[Value]) -> bool
    requires known { AreKnown (types_of (typed_of image.now)) heap.now }
    requires counted { counted ≡ true → IsRewritten image.now.prefix }
    ensures { result ≡ true → StopsBy image.now heap.now id args.now }
{
    match id {
        NativeId::CheckCatch => is_thrown(image, heap, reference(args, 0)),
        _ => counted,
    }
}
