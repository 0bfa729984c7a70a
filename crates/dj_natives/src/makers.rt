ghost use Rattle.std.specs.Prelude.{◌≡◌, ◌<◌, ◌≤◌, ◌++◌, ◌∷◌, [], List, Some, IfSome, IfOk, OnOk, length, pos, slice_get, slice_range};
ghost use Rattle.dj_names.specs.declared.descriptor.Ty.{Ty};
ghost use Rattle.dj_model.specs.trusted.Types.{Prefix};
ghost use Rattle.dj_model.specs.trusted.Program.{Program};
ghost use Rattle.dj_model.specs.trusted.Natives as model;
ghost use Rattle.dj_natives.specs.Answers.{answer_view, answered_by, Says, is_making_text};
ghost use Rattle.dj_natives.specs.Calls.{seen_of};
ghost use Rattle.dj_natives.specs.Known.{HoldsChars, IsFitting, IsOfChars};
ghost use Rattle.dj_heap.specs.Heaps.{object_in};
ghost use Rattle.dj_natives.specs.Seen.{units_at, elements_at, place_within};

use crate::answer::{Answer, gives_reference};
use crate::arguments::{flag, number, reference, unit};
use crate::seen::{array_number, put_between, put_text, put_units, text_length};
use dj_heap::Heap;
use dj_names::{NativeId, Raised, Units, Value};
use std::alloc::{AllocError, Global};

/// The answer of a method of String that makes a text or an array of chars.
#[tactic(auto, using(crate::proofs::Others::no_making_text), unfolding(dj_model::specs::trusted::Natives::answer))]
pub fn making_text(alloc: Global, heap: &Heap, id: NativeId, args: &[Value]) -> Option<Answer>
    requires fits { IsFitting id heap.now args.now }
    ensures { (program : Program) (prefix : Prefix) (types : List Ty) → Says is_making_text id (seen_of program prefix types heap.now) args.now result }
{
    let r = reference(args, 0);
    let text = u64::from(r);
    match id {
        NativeId::StringConcat => Some(concat(alloc, heap, r, reference(args, 1))),
        NativeId::StringSubstringFrom => Some(rest(alloc, heap, text, number(args, 1))),
        NativeId::StringSubstring => {
            Some(part(alloc, heap, text, number(args, 1), number(args, 2)))
        }
        NativeId::StringToCharArray => Some(made_chars(all_units(alloc, heap, text))),
        NativeId::StringValueOfChars => Some(value_of_chars(alloc, heap, r)),
        NativeId::StringValueOfChar => Some(made(one_unit(alloc, unit(args, 0)))),
        NativeId::StringValueOfInt => Some(made(decimal(alloc, number(args, 0)))),
        NativeId::StringValueOfLong => Some(made(decimal(alloc, number(args, 0)))),
        NativeId::StringValueOfBoolean => Some(made(truth(alloc, flag(args, 0)))),
        _ => None,
    }
}

/// The text is made, where there was memory for its units.
pub fn made(units: Result<Units, AllocError>) -> Answer
    ensures { answer_view result ≡ answered_by model.MakesText units }
{
    match units {
        Ok(units) => Answer::MakesText(units),
        Err(_) => Answer::Memory,
    }
}

// The array is made, where there was memory for its chars.
fn made_chars(units: Result<Units, AllocError>) -> Answer
    ensures { answer_view result ≡ answered_by model.MakesChars units }
{
    match units {
        Ok(units) => Answer::MakesChars(units),
        Err(_) => Answer::Memory,
    }
}

/// The units of a text.
pub fn all_units(alloc: Global, heap: &Heap, r: u64) -> Result<Units, AllocError>
    ensures { IfOk result (λ units. units ≡ units_at heap.now r) }
{
    let mut units = Units::new(alloc);
    put_units(heap, r, &mut units)?;
    Ok(units)
}

// A text and another one after it.
fn concat(alloc: Global, heap: &Heap, r: u32, other: u32) -> Answer
    ensures { IfSome (answer_view result) (λ a. model.unless_null other (model.joined_text r (units_at heap.now r) (units_at heap.now other)) ≡ a) }
{
    if other == 0 {
        return Answer::Raises(Raised::NullPointer);
    }
    if text_length(heap, u64::from(other)) == 0 {
        return gives_reference(r);
    }
    made(joined(alloc, heap, u64::from(r), u64::from(other)))
}

// The units of both.
fn joined(alloc: Global, heap: &Heap, a: u64, b: u64) -> Result<Units, AllocError>
    ensures { IfOk result (λ units. units ≡ units_at heap.now a ++ units_at heap.now b) }
{
    let mut units = Units::new(alloc);
    put_units(heap, a, &mut units)?;
    put_units(heap, b, &mut units)?;
    Ok(units)
}

// A text of the units between two places.
fn part(alloc: Global, heap: &Heap, r: u64, from: i64, to: i64) -> Answer
    ensures { IfSome (answer_view result) (λ a. model.part_between (units_at heap.now r) from to ≡ a) }
{
    match place_in(from, text_length(heap, r)) {
        Some(from) => part_from(alloc, heap, r, from, to),
        None => Answer::Raises(Raised::StringIndexOutOfBounds),
    }
}

// A text of the units from a place that isn't negative to another one.
fn part_from(alloc: Global, heap: &Heap, r: u64, from: u32, to: i64) -> Answer
    ensures { IfSome (answer_view result) (λ a. model.part_between (units_at heap.now r) (pos from) to ≡ a) }
{
    match place_in(to, text_length(heap, r)) {
        Some(to) => inner_part(alloc, heap, r, from, to),
        None => Answer::Raises(Raised::StringIndexOutOfBounds),
    }
}

// The number as a place in a text of this many units, or at its end.
fn place_in(z: i64, length: u32) -> Option<u32>
    ensures { place_within length z ≡ result }
{
    match u32::try_from(z) {
        Ok(n) => if n <= length { Some(n) } else { None },
        Err(_) => None,
    }
}

// A text of the units between two places that aren't negative.
fn inner_part(alloc: Global, heap: &Heap, r: u64, from: u32, to: u32) -> Answer
    ensures { IfSome (answer_view result) (λ a. model.part_between (units_at heap.now r) (pos from) (pos to) ≡ a) }
{
    if to < from || text_length(heap, r) < to {
        return Answer::Raises(Raised::StringIndexOutOfBounds);
    }
    made(units_between(alloc, heap, r, from, to))
}

// A text of the units from this place on.
fn rest(alloc: Global, heap: &Heap, r: u64, from: i64) -> Answer
    ensures { IfSome (answer_view result) (λ a. model.part_between (units_at heap.now r) from (pos (length (units_at heap.now r))) ≡ a) }
{
    let length = text_length(heap, r);
    match place_in(from, length) {
        Some(from) => inner_part(alloc, heap, r, from, length),
        None => Answer::Raises(Raised::StringIndexOutOfBounds),
    }
}

// The units of a text from one place to another.
fn units_between(
    alloc: Global,
    heap: &Heap,
    r: u64,
    from: u32,
    to: u32,
) -> Result<Units, AllocError>
    requires up { from ≤ to }
    requires within { to ≤ length (units_at heap.now r) }
    ensures { IfOk result (λ units. units ≡ slice_range (units_at heap.now r) from to) }
{
    let mut units = Units::new(alloc);
    put_between(heap, r, from, to, &mut units)?;
    Ok(units)
}

// A text of the elements of an array of chars; null is tested first.
fn value_of_chars(alloc: Global, heap: &Heap, r: u32) -> Answer
    requires chars { IsOfChars (object_in heap.now r) }
    ensures { IfSome (answer_view result) (λ a. model.unless_null r (model.MakesText (model.elements_units (elements_at heap.now r))) ≡ a) }
{
    if r == 0 {
        return Answer::Raises(Raised::NullPointer);
    }
    made(chars_of(alloc, heap, r))
}

// The elements of an array of chars; none where there is no such array.
fn chars_of(alloc: Global, heap: &Heap, r: u32) -> Result<Units, AllocError>
    requires chars { IsOfChars (object_in heap.now r) }
    ensures { IfOk result (λ units. units ≡ model.elements_units (elements_at heap.now r)) }
{
    let mut units = Units::new(alloc);
    if let Some(n) = array_number(heap, r) {
        put_chars(heap, n, &mut units)?;
    }
    Ok(units)
}

// Appends the elements of an array of chars.
fn put_chars(heap: &Heap, r: u32, units: &mut Units) -> Result<(), AllocError>
    requires { HoldsChars (object_in heap.now r) }
    ensures { OnOk result (units.new ≡ units.old ++ model.elements_units (elements_at heap.now r)) }
{
    for at in 0..heap.length(r) {
        units.push(char_in(heap, r, at))?;
    }
    Ok(())
}

// An element of an array of chars.
fn char_in(heap: &Heap, r: u32, at: u32) -> u16
    requires chars { HoldsChars (object_in heap.now r) }
    requires within { at < length (model.elements_units (elements_at heap.now r)) }
    ensures { slice_get (model.elements_units (elements_at heap.now r)) at ≡ Some result }
{
    match u16::try_from(heap.element(r, at)) {
        Ok(unit) => unit,
        Err(_) => unreachable!(),
    }
}

/// One unit.
pub fn one_unit(alloc: Global, unit: u16) -> Result<Units, AllocError>
    ensures { IfOk result (λ units. units ≡ unit ∷ []) }
{
    Units::from_slice(alloc, &[unit])
}

/// A number in decimal, with its sign.
pub fn decimal(alloc: Global, z: i64) -> Result<Units, AllocError>
    ensures { IfOk result (λ units. units ≡ model.signed_decimal z) }
{
    let mut units = Units::new(alloc);
    put_text(&mut units, format!(in alloc; "{z}")?.as_bytes())?;
    Ok(units)
}

/// The text of a boolean.
pub fn truth(alloc: Global, b: bool) -> Result<Units, AllocError>
    ensures { IfOk result (λ units. units ≡ model.truth_text b) }
{
    let mut units = Units::new(alloc);
    put_text(&mut units, if b { b"true" } else { b"false" })?;
    Ok(units)
}
