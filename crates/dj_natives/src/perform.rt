ghost use Rattle.std.specs.Prelude.{◌≡◌, ◌<◌, ◌≤◌, ◌^◌, [], ◌∷◌, IfOk, OnErr, length, Some};
ghost use Rattle.dj_names.specs.declared.run.Value.TheVariants as values;
ghost use Rattle.dj_model.specs.trusted.Natives as model;
ghost use Rattle.dj_natives.specs.Answers.{answer_view};
ghost use Rattle.dj_natives.specs.Calls.{Done, Finished, Fills, IsFillable, SetsField, refused_as, returned};
ghost use Rattle.dj_natives.specs.Known.{AreKnown};

use crate::answer::{Answer, NativeAnswer};
use crate::seen::instance_with;
use dj_heap::{Heap, HeapError};
use dj_library_types::Classes;
use dj_names::{Element, Units, Value};

/// Does what an answer says, once its charge is paid.
pub fn perform<C: Classes>(classes: &C, heap: &mut Heap, answer: Answer) -> NativeAnswer
    requires { AreKnown (C.types classes.now) heap.old }
    ensures { Finished (C.prefix classes.now) (C.types classes.now) heap.old heap.new (answer_view answer) result }
{
    match answer {
        Answer::Returns(value) => returns(value),
        Answer::Raises(raised) => NativeAnswer::Raise(raised),
        Answer::MakesText(units) => make_text(classes, heap, &units),
        Answer::KeepsText(object, units) => keep_text(classes, heap, object, &units),
        Answer::MakesChars(units) => make_chars(classes, heap, &units),
        Answer::SetsField(object, first) => set_one(classes, heap, object, first),
        Answer::SetsFields(object, first, second) => {
            set_two(classes, heap, object, first, second)
        }
        Answer::Adds(_) => NativeAnswer::Nothing,
        Answer::Memory => NativeAnswer::Memory,
    }
}

// It returns, with this.
fn returns(value: Option<Value>) -> NativeAnswer
    ensures { result ≡ returned value }
{
    match value {
        Some(value) => NativeAnswer::Gives(value),
        None => NativeAnswer::Nothing,
    }
}

// Why an object wasn't made.
fn refused(error: HeapError) -> NativeAnswer
    ensures { result ≡ refused_as error }
{
    match error {
        HeapError::Full { used, size } => NativeAnswer::Full { used, size },
        HeapError::Memory => NativeAnswer::Memory,
    }
}

/// Makes a text.
pub fn make_text<C: Classes>(classes: &C, heap: &mut Heap, units: &Units) -> NativeAnswer
    requires { AreKnown (C.types classes.now) heap.old }
    ensures { Done (C.prefix classes.now) (C.types classes.now) heap.old heap.new (model.MakesText units.now) result }
{
    match heap.text(classes.string(), units.as_slice()) {
        Ok(r) => NativeAnswer::Gives(Value::Ref(r)),
        Err(error) => refused(error),
    }
}

// Makes a text that becomes the first field of the object.
fn keep_text<C: Classes>(classes: &C, heap: &mut Heap, object: u32, units: &Units) -> NativeAnswer
    requires { AreKnown (C.types classes.now) heap.old }
    ensures { Done (C.prefix classes.now) (C.types classes.now) heap.old heap.new (model.KeepsText object units.now) result }
{
    match heap.text(classes.string(), units.as_slice()) {
        Ok(text) => {
            set_field(heap, object, 0, text);
            NativeAnswer::Gives(Value::Ref(object))
        }
        Err(error) => refused(error),
    }
}

// Makes an array of these chars.
fn make_chars<C: Classes>(classes: &C, heap: &mut Heap, units: &Units) -> NativeAnswer
    requires { AreKnown (C.types classes.now) heap.old }
    ensures { Done (C.prefix classes.now) (C.types classes.now) heap.old heap.new (model.MakesChars units.now) result }
{
    make_array(classes, heap, units.as_slice())
}

// The same for a slice.
fn make_array<C: Classes>(classes: &C, heap: &mut Heap, units: &[u16]) -> NativeAnswer
    requires { AreKnown (C.types classes.now) heap.old }
    ensures { Done (C.prefix classes.now) (C.types classes.now) heap.old heap.new (model.MakesChars units.now) result }
{
    let Ok(length) = u32::try_from(units.len()) else {
        return NativeAnswer::Memory;
    };
    match heap.array(classes.chars(), Element::Char, length) {
        Ok(array) => {
            fill(heap, array, units, length);
            NativeAnswer::Gives(Value::Ref(array))
        }
        Err(error) => refused(error),
    }
}

// Gives the elements of an array of chars these values.
fn fill(heap: &mut Heap, array: u32, units: &[u16], count: u32)
    requires all { count ≡ length units.now }
    requires chars { IsFillable heap.old array count }
    ensures { Fills heap.old heap.new array units.now }
{
    for at in 0..count {
        heap.set_element(array, at, i64::from(units[at as usize]));
    }
}

// Sets the first field of the object.
fn set_one<C: Classes>(classes: &C, heap: &mut Heap, object: u32, first: u32) -> NativeAnswer
    requires { AreKnown (C.types classes.now) heap.old }
    ensures { Done (C.prefix classes.now) (C.types classes.now) heap.old heap.new (model.SetsFields object (values.Ref first ∷ [])) result }
{
    set_field(heap, object, 0, first);
    NativeAnswer::Nothing
}

// Sets the first two fields of the object.
fn set_two<C: Classes>(
    classes: &C,
    heap: &mut Heap,
    object: u32,
    first: u32,
    second: u32,
) -> NativeAnswer
    requires { AreKnown (C.types classes.now) heap.old }
    ensures { Done (C.prefix classes.now) (C.types classes.now) heap.old heap.new (model.SetsFields object (values.Ref first ∷ values.Ref second ∷ [])) result }
{
    set_field(heap, object, 0, first);
    set_field(heap, object, 1, second);
    NativeAnswer::Nothing
}

// Sets a field of an instance that has it to a reference.
fn set_field(heap: &mut Heap, object: u32, at: u32, r: u32)
    ensures { SetsField heap.old heap.new object at r }
{
    match instance_with(heap, object, at) {
        Some(n) => heap.set_field(n, at, u64::from(r)),
        None => (),
    }
}
