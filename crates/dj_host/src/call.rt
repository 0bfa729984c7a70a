ghost use Rattle.std.specs.Prelude.{◌≡◌, true};
ghost use Rattle.dj_names.specs.declared.native.NativeId.TheVariants.{HostIdentityHashCode, HostToString};
ghost use Rattle.dj_natives.specs.Known.{AreKnown};
ghost use Rattle.dj_host.specs.Hosted.{CallsHost, is_hosted};

use crate::asking::{give_millis, give_nanos, give_word};
use dj_edge::Host;
use dj_heap::Heap;
use dj_library_types::Classes;
use dj_names::{NativeId, Value};
use dj_natives::{NativeAnswer, make_object_text, reference};
use std::alloc::Global;

/// Calls a native method that the host answers. The host is asked once; for the identity hash of null it isn't asked.
#[tactic(auto, using(crate::proofs::Others::no_hosted))]
pub fn call_host<C: Classes, H: Host>(
    alloc: Global,
    classes: &C,
    host: &mut H,
    heap: &mut Heap,
    id: NativeId,
    args: &[Value],
) -> NativeAnswer
    requires known { AreKnown (C.types classes.now) heap.old }
    requires which { is_hosted id ≡ true }
    ensures { CallsHost (C.program classes.now) (C.prefix classes.now) (C.types classes.now) heap.old heap.new (H.given host.old) (H.given host.new) id args.now result }
{
    match id {
        NativeId::HostHashCode => give_word(host),
        NativeId::HostIdentityHashCode => identity_hash(classes, host, heap, args),
        NativeId::HostToString => object_text(alloc, classes, host, heap, args),
        NativeId::NanoTime => give_nanos(host),
        NativeId::CurrentTimeMillis => give_millis(host),
        _ => unreachable!(),
    }
}

// A word of the host; 0 for null, for which the host isn't asked.
fn identity_hash<C: Classes, H: Host>(
    classes: &C,
    host: &mut H,
    heap: &Heap,
    args: &[Value],
) -> NativeAnswer
    requires known { AreKnown (C.types classes.now) heap.now }
    ensures { CallsHost (C.program classes.now) (C.prefix classes.now) (C.types classes.now) heap.now heap.now (H.given host.old) (H.given host.new) HostIdentityHashCode args.now result }
{
    if reference(args, 0) == 0 {
        NativeAnswer::Gives(Value::Int(0))
    } else {
        give_word(host)
    }
}

// The text of an object, with a word of the host.
fn object_text<C: Classes, H: Host>(
    alloc: Global,
    classes: &C,
    host: &mut H,
    heap: &mut Heap,
    args: &[Value],
) -> NativeAnswer
    requires known { AreKnown (C.types classes.now) heap.old }
    ensures { CallsHost (C.program classes.now) (C.prefix classes.now) (C.types classes.now) heap.old heap.new (H.given host.old) (H.given host.new) HostToString args.now result }
{
    match host.hash_word() {
        Ok(word) => make_object_text(
            alloc,
            classes,
            heap,
            reference(args, 0),
            word.cast_unsigned(),
        ),
        Err(_) => NativeAnswer::Memory,
    }
}
