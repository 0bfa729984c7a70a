ghost use Rattle.std.specs.Prelude.{◌≡◌, IfOk, IfSome};
ghost use Rattle.dj_model.specs.trusted.Natives.{MakesText, object_text};
ghost use Rattle.dj_natives.specs.Answers.{answer_view, Says, is_on_objects};
ghost use Rattle.dj_natives.specs.Names.{shown_at};
ghost use Rattle.dj_natives.specs.Calls.{Acts, Done, seen_of, typed_heap};
ghost use Rattle.dj_names.specs.declared.native.NativeId.TheVariants.{CheckCatch};
ghost use Rattle.dj_model.specs.trusted.Types.{is_stop};
ghost use Rattle.dj_library_types.specs.Numbered.{is_number};
ghost use Rattle.dj_model.specs.trusted.Performing.{class_at_number};
ghost use Rattle.dj_natives.specs.Known.{AreKnown};

use crate::answer::{Answer, NativeAnswer, given, gives_int, gives_reference, gives_truth};
use crate::arguments::reference;
use crate::names::{name_units, plain_name, with_dots};
use crate::perform::make_text;
use crate::seen::{object_number, put_text};
use dj_heap::Heap;
use dj_library_types::Classes;
use dj_names::{NativeId, Units, Value};
use std::alloc::{AllocError, Global};

/// The answer of a method of Object or System; where the host answers the method, only that for null.
#[tactic(auto, using(crate::proofs::Others::no_on_objects), unfolding(dj_model::specs::trusted::Natives::answer))]
pub fn on_objects<C: Classes>(
    alloc: Global,
    classes: &C,
    heap: &Heap,
    id: NativeId,
    args: &[Value],
) -> Option<Answer>
    requires known { AreKnown (C.types classes.now) heap.now }
    ensures { Says is_on_objects id (seen_of (C.program classes.now) (C.prefix classes.now) (C.types classes.now) heap.now) args.now result }
{
    let r = reference(args, 0);
    match id {
        NativeId::ObjectNew => Some(Answer::Returns(None)),
        NativeId::ObjectEquals => Some(gives_truth(r == reference(args, 1))),
        NativeId::ObjectHashCode => Some(gives_int(r)),
        NativeId::IdentityHashCode => Some(gives_int(r)),
        NativeId::ObjectToString => Some(text_of(alloc, classes, heap, r)),
        NativeId::HostHashCode => Some(gives_int(0)),
        NativeId::HostIdentityHashCode => Some(gives_int(0)),
        NativeId::HostToString => Some(gives_reference(0)),
        NativeId::NanoTime => given(Value::Long(0)),
        NativeId::CurrentTimeMillis => given(Value::Long(0)),
        _ => None,
    }
}

/// The object is thrown again where it is the one that stops the run.
pub fn check_catch<C: Classes>(classes: &C, heap: &Heap, args: &[Value]) -> NativeAnswer
    requires known { AreKnown (C.types classes.now) heap.now }
    ensures { Acts (C.program classes.now) (C.prefix classes.now) (C.types classes.now) heap.now heap.now CheckCatch args.now result }
{
    if is_stop(classes, heap, reference(args, 0)) {
        NativeAnswer::Stop
    } else {
        NativeAnswer::Nothing
    }
}

// Whether the object is the one that stops the run.
#[tactic(auto, using(crate::proofs::Catching::stop_found, crate::proofs::Catching::stop_none))]
fn is_stop<C: Classes>(classes: &C, heap: &Heap, r: u32) -> bool
    requires known { AreKnown (C.types classes.now) heap.now }
    ensures { result ≡ is_stop (C.prefix classes.now) (class_at_number (typed_heap (C.types classes.now) heap.now) r) }
{
    match object_number(heap, u64::from(r)) {
        Some(n) => is_number(classes.stop(), heap.class_of(n)),
        None => false,
    }
}

// Whether it is this number.
fn is_number(number: Option<u32>, k: u32) -> bool
    ensures { result ≡ is_number number k }
{
    match number {
        Some(n) => n == k,
        None => false,
    }
}

// What toString returns: the name of the object's class with dots, and its number.
fn text_of<C: Classes>(alloc: Global, classes: &C, heap: &Heap, r: u32) -> Answer
    requires known { AreKnown (C.types classes.now) heap.now }
    ensures { IfSome (answer_view result) (λ a. MakesText (object_text (shown_at (C.prefix classes.now) (C.types classes.now) heap.now r) r) ≡ a) }
{
    match object_units(alloc, classes, heap, r, r) {
        Ok(units) => Answer::MakesText(units),
        Err(_) => Answer::Memory,
    }
}

/// Makes the text that toString returns for an object: the name of its class with dots, and this word.
pub fn make_object_text<C: Classes>(
    alloc: Global,
    classes: &C,
    heap: &mut Heap,
    r: u32,
    word: u32,
) -> NativeAnswer
    requires known { AreKnown (C.types classes.now) heap.old }
    ensures { Done (C.prefix classes.now) (C.types classes.now) heap.old heap.new (MakesText (object_text (shown_at (C.prefix classes.now) (C.types classes.now) heap.old r) word)) result }
{
    match object_units(alloc, classes, heap, r, word) {
        Ok(units) => make_text(classes, heap, &units),
        Err(_) => NativeAnswer::Memory,
    }
}

// The units of such a text.
fn object_units<C: Classes>(
    alloc: Global,
    classes: &C,
    heap: &Heap,
    r: u32,
    word: u32,
) -> Result<Units, AllocError>
    requires known { AreKnown (C.types classes.now) heap.now }
    ensures { IfOk result (λ units. units ≡ object_text (shown_at (C.prefix classes.now) (C.types classes.now) heap.now r) word) }
{
    let mut units = shown(alloc, classes, heap, r)?;
    put_text(&mut units, b"@")?;
    put_text(&mut units, format!(in alloc; "{word:x}")?.as_bytes())?;
    Ok(units)
}

// The name of the object's class with dots, without what comes before the names of the library's classes; none where there is no object.
fn shown<C: Classes>(alloc: Global, classes: &C, heap: &Heap, r: u32) -> Result<Units, AllocError>
    requires known { AreKnown (C.types classes.now) heap.now }
    ensures { IfOk result (λ units. units ≡ shown_at (C.prefix classes.now) (C.types classes.now) heap.now r) }
{
    let Some(n) = object_number(heap, u64::from(r)) else {
        return Ok(Units::new(alloc));
    };
    let plain = plain_name(alloc, classes, heap.class_of(n))?;
    let units = name_units(alloc, plain.as_slice())?;
    with_dots(alloc, units.as_slice())
}
