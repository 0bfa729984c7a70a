ghost use Rattle.std.specs.Prelude.{◌≡◌, false, Some, None};
ghost use Rattle.dj_natives.specs.Answers.{Says, is_answered};
ghost use Rattle.dj_natives.specs.Calls.{Acts, Calls, Finishes, seen_of};
ghost use Rattle.dj_natives.specs.Counting.{lent, left};
ghost use Rattle.dj_natives.specs.Known.{AreKnown, AreArguments};

use crate::accounter::{Accounter, Charged};
use crate::answer::{Answer, NativeAnswer};
use crate::arguments::reference;
use crate::arrays::copy_array;
use crate::builders::on_builders;
use crate::makers::making_text;
use crate::numbers::on_numbers;
use crate::objects::{check_catch, on_objects};
use crate::perform::perform;
use crate::sums::{add_due, due, on_sums};
use crate::texts::on_texts;
use crate::throwables::on_throwables;
use dj_heap::Heap;
use dj_library_types::Classes;
use dj_names::{NativeId, Value};
use std::alloc::Global;

/// Calls a native method that the host doesn't answer. What it makes is charged first, where there is an accounter.
pub fn call_native<C: Classes>(
    alloc: Global,
    classes: &C,
    heap: &mut Heap,
    accounter: Option<&mut Accounter>,
    id: NativeId,
    args: &[Value],
) -> NativeAnswer
    requires known { AreKnown (C.types classes.now) heap.old }
    requires arguments { AreArguments id heap.old args.now }
    ensures { Calls (C.program classes.now) (C.prefix classes.now) (C.types classes.now) heap.old heap.new (lent accounter.entry) (left accounter.exit) id args.now result }
{
    match accounter {
        Some(accounter) => call_counted(alloc, classes, heap, accounter, id, args),
        None => call_plain(alloc, classes, heap, id, args),
    }
}

// The same, with an accounter.
fn call_counted<C: Classes>(
    alloc: Global,
    classes: &C,
    heap: &mut Heap,
    accounter: &mut Accounter,
    id: NativeId,
    args: &[Value],
) -> NativeAnswer
    requires known { AreKnown (C.types classes.now) heap.old }
    requires arguments { AreArguments id heap.old args.now }
    ensures { Calls (C.program classes.now) (C.prefix classes.now) (C.types classes.now) heap.old heap.new (Some accounter.old) (Some accounter.new) id args.now result }
{
    let answer = answer_of(alloc, classes, heap, id, args);
    match add_due(accounter, due(&answer)) {
        Charged::Fine => finish(classes, heap, id, args, answer),
        Charged::Stop => NativeAnswer::Stop,
    }
}

// The same, where no charges are counted.
fn call_plain<C: Classes>(
    alloc: Global,
    classes: &C,
    heap: &mut Heap,
    id: NativeId,
    args: &[Value],
) -> NativeAnswer
    requires known { AreKnown (C.types classes.now) heap.old }
    requires arguments { AreArguments id heap.old args.now }
    ensures { Calls (C.program classes.now) (C.prefix classes.now) (C.types classes.now) heap.old heap.new None None id args.now result }
{
    let answer = answer_of(alloc, classes, heap, id, args);
    finish(classes, heap, id, args, answer)
}

// What the method answers, from what it sees of the heap.
#[tactic(auto, using(crate::proofs::Groups::none_is_answered))]
fn answer_of<C: Classes>(
    alloc: Global,
    classes: &C,
    heap: &Heap,
    id: NativeId,
    args: &[Value],
) -> Option<Answer>
    requires known { AreKnown (C.types classes.now) heap.now }
    requires arguments { AreArguments id heap.now args.now }
    ensures { Says is_answered id (seen_of (C.program classes.now) (C.prefix classes.now) (C.types classes.now) heap.now) args.now result }
{
    if let Some(answer) = on_sums(id, args) {
        return Some(answer);
    }
    if let Some(answer) = on_numbers(id, args) {
        return Some(answer);
    }
    if let Some(answer) = on_texts(heap, id, args) {
        return Some(answer);
    }
    if let Some(answer) = making_text(alloc, heap, id, args) {
        return Some(answer);
    }
    if let Some(answer) = on_builders(alloc, heap, id, args) {
        return Some(answer);
    }
    if let Some(answer) = on_throwables(heap, id, args) {
        return Some(answer);
    }
    on_objects(alloc, classes, heap, id, args)
}

// Does what the answer says, where that is charged.
fn finish<C: Classes>(
    classes: &C,
    heap: &mut Heap,
    id: NativeId,
    args: &[Value],
    answer: Option<Answer>,
) -> NativeAnswer
    requires known { AreKnown (C.types classes.now) heap.old }
    requires arguments { AreArguments id heap.old args.now }
    requires reported { Says is_answered id (seen_of (C.program classes.now) (C.prefix classes.now) (C.types classes.now) heap.old) args.now answer }
    ensures { Finishes (C.program classes.now) (C.prefix classes.now) (C.types classes.now) heap.old heap.new id args.now answer result }
{
    match answer {
        Some(answer) => perform(classes, heap, answer),
        None => act(classes, heap, id, args),
    }
}

// What arraycopy and checkCatch do.
#[tactic(auto, using(crate::proofs::Others::no_answered))]
fn act<C: Classes>(classes: &C, heap: &mut Heap, id: NativeId, args: &[Value]) -> NativeAnswer
    requires known { AreKnown (C.types classes.now) heap.old }
    requires arguments { AreArguments id heap.old args.now }
    requires which { is_answered id ≡ false }
    ensures { Acts (C.program classes.now) (C.prefix classes.now) (C.types classes.now) heap.old heap.new id args.now result }
{
    match id {
        NativeId::ArrayCopy => copy_array(classes, heap, args),
        NativeId::CheckCatch => check_catch(classes, heap, args),
        _ => unreachable!(),
    }
}
