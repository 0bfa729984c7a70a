ghost use Rattle.std.specs.Prelude.{◌≡◌, ◌++◌, [], Some, None, true, false, map, IfOk};
ghost use Rattle.dj_names.specs.trusted.Values.{value_kind};
ghost use Rattle.dj_model.specs.NativeKinds.{native_signature};
ghost use Rattle.dj_heap.specs.Heaps.{object_in};
ghost use Rattle.dj_natives.specs.Calls.{Calls};
ghost use Rattle.dj_natives.specs.Known.{AreArguments, AreKnown, IsFitting, IsOfChars};
ghost use Rattle.dj_host.specs.trusted.Hosted.{given_since};
ghost use Rattle.dj_host.specs.Hosted.{is_hosted};
ghost use Rattle.dj_numbering.specs.Typed.{types_of};
ghost use Rattle.dj_image.specs.Imaged.{program_of, typed_of};
ghost use Rattle.dj_image_step.specs.Natives.{AnswersNative, IsQuiet};

use dj_edge::Host;
use dj_heap::{Heap, Made};
use dj_host::{call_host, is_hosted};
use dj_image::Image;
use dj_names::{Element, NativeId, Value};
use dj_natives::{Accounter, NativeAnswer, call_native, reference};
use std::alloc::{AllocError, Global};

/// What a native method answers: of the host where it is asked, and else of itself, with the accounter where there is one.
#[tactic(auto, using(crate::proofs::HostLaws::still_given))]
pub(crate) fn answer_of<H: Host>(
    alloc: Global,
    image: &Image,
    heap: &mut Heap,
    accounter: &mut Option<Accounter>,
    host: &mut H,
    id: NativeId,
    args: &[Value],
) -> Result<NativeAnswer, AllocError>
    requires known { AreKnown (types_of (typed_of image.now)) heap.old }
    requires kinds { map value_kind args.now ≡ (native_signature id).parameters }
    ensures answers { IfOk result (AnswersNative image.now heap.old heap.new accounter.old accounter.new (given_since (H.given host.old) (H.given host.new)) id args.now) }
    ensures gave { H.given host.new ≡ H.given host.old ++ given_since (H.given host.old) (H.given host.new) }
    ensures quiet { IsQuiet id → H.given host.new ≡ H.given host.old }
{
    if is_hosted(id) {
        ask(alloc, image, heap, accounter, host, id, args)
    } else {
        answer_plainly(alloc, image, heap, accounter, id, args)
    }
}

// What the host answers. There is no memory to ask it where somebody counts: rewritten classes ask nothing.
#[tactic(auto, using(crate::proofs::HostLaws::hosted_answers, crate::proofs::HostLaws::still_given))]
fn ask<H: Host>(
    alloc: Global,
    image: &Image,
    heap: &mut Heap,
    accounter: &Option<Accounter>,
    host: &mut H,
    id: NativeId,
    args: &[Value],
) -> Result<NativeAnswer, AllocError>
    requires known { AreKnown (types_of (typed_of image.now)) heap.old }
    requires hosted { is_hosted id ≡ true }
    ensures answers { IfOk result (AnswersNative image.now heap.old heap.new accounter.now accounter.now (given_since (H.given host.old) (H.given host.new)) id args.now) }
    ensures gave { H.given host.new ≡ H.given host.old ++ given_since (H.given host.old) (H.given host.new) }
    ensures quiet { IsQuiet id → H.given host.new ≡ H.given host.old }
{
    match accounter {
        Some(_) => Err(AllocError),
        None => Ok(call_host(alloc, image, host, heap, id, args)),
    }
}

// What a method that asks nothing answers.
fn answer_plainly(
    alloc: Global,
    image: &Image,
    heap: &mut Heap,
    accounter: &mut Option<Accounter>,
    id: NativeId,
    args: &[Value],
) -> Result<NativeAnswer, AllocError>
    requires known { AreKnown (types_of (typed_of image.now)) heap.old }
    requires kinds { map value_kind args.now ≡ (native_signature id).parameters }
    requires hosted { is_hosted id ≡ false }
    ensures { IfOk result (AnswersNative image.now heap.old heap.new accounter.old accounter.new [] id args.now) }
{
    if !is_fitting(heap, id, args) {
        return Err(AllocError);
    }
    match accounter {
        Some(accounter) => Ok(answer_counted(alloc, image, heap, accounter, id, args)),
        None => Ok(answer_uncounted(alloc, image, heap, id, args)),
    }
}

// The same, with an accounter.
fn answer_counted(
    alloc: Global,
    image: &Image,
    heap: &mut Heap,
    accounter: &mut Accounter,
    id: NativeId,
    args: &[Value],
) -> NativeAnswer
    requires known { AreKnown (types_of (typed_of image.now)) heap.old }
    requires arguments { AreArguments id heap.old args.now }
    ensures { Calls (program_of image.now) image.now.prefix (types_of (typed_of image.now)) heap.old heap.new (Some accounter.old) (Some accounter.new) id args.now result }
{
    call_native(alloc, image, heap, Some(accounter), id, args)
}

// The same, where nobody counts.
fn answer_uncounted(
    alloc: Global,
    image: &Image,
    heap: &mut Heap,
    id: NativeId,
    args: &[Value],
) -> NativeAnswer
    requires known { AreKnown (types_of (typed_of image.now)) heap.old }
    requires arguments { AreArguments id heap.old args.now }
    ensures { Calls (program_of image.now) image.now.prefix (types_of (typed_of image.now)) heap.old heap.new None None id args.now result }
{
    call_native(alloc, image, heap, None, id, args)
}

// Whether an array whose elements are read as units is one of chars, as in a sound program it always is.
#[tactic(auto, using(crate::proofs::HostLaws::fits_chars, crate::proofs::HostLaws::fits_other))]
fn is_fitting(heap: &Heap, id: NativeId, args: &[Value]) -> bool
    ensures { result ≡ true → IsFitting id heap.now args.now }
{
    match id {
        NativeId::StringValueOfChars => is_of_chars(heap, reference(args, 0)),
        _ => true,
    }
}

// Whether it is null, or no array, or one of chars.
#[tactic(auto, using(dj_unwinding::proofs::Outcomes::object_there, crate::proofs::HostLaws::null_of_chars, crate::proofs::HostLaws::chars_of_chars, crate::proofs::HostLaws::instance_of_chars, crate::proofs::HostLaws::text_of_chars))]
fn is_of_chars(heap: &Heap, r: u32) -> bool
    ensures { result ≡ true → IsOfChars (object_in heap.now r) }
{
    if r == 0 {
        return true;
    }
    if heap.count() < r {
        return false;
    }
    match heap.made(r) {
        Made::Array(element) => element == Element::Char,
        Made::Instance => true,
        Made::Text => true,
    }
}
