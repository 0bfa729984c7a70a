ghost use Rattle.std.specs.Prelude.{◌≡◌, ◌<◌, ◌≤◌, ◌^◌, ◌&&◌, Some, IsSome, length, map, slice_get, unsigned_abs};
ghost use Rattle.std.specs.Option.{option_map};
ghost use Rattle.dj_names.specs.declared.descriptor.Kind.TheVariants as kinds;
ghost use Rattle.dj_names.specs.trusted.Values.{value_kind};
ghost use Rattle.dj_names.specs.declared.native.NativeId.TheVariants.{ArrayCopy};
ghost use Rattle.dj_names.specs.declared.run.Element.TheVariants as elements;
ghost use Rattle.dj_model.specs.NativeKinds.{native_signature};
ghost use Rattle.dj_model.specs.trusted.Natives as model;
ghost use Rattle.dj_natives.specs.Calls.{Acts, Done};
ghost use Rattle.dj_natives.specs.Copies.{as_place, contents_at, fits_at, IsCopy, Moves, MovesSo, CopiesAll, IsPlaces, Takes, copy_answer, takes_at};
ghost use Rattle.dj_natives.specs.Known.{AreKnown};
ghost use Rattle.dj_natives.specs.Seen.{elements_at, element_of};

use crate::absent::takes_absent;
use crate::answer::NativeAnswer;
use crate::arguments::{int, reference};
use crate::seen::{array_number, object_number};
use dj_heap::{Heap, Made};
use dj_library_types::Classes;
use dj_names::{Element, Raised, Value};

/// What is copied: this many elements from a place of one array to a place of another.
#[derive(Clone, Copy)]
pub struct Copy {
    pub source: u32,
    pub from: u32,
    pub target: u32,
    pub to: u32,
    pub count: u32,
}

/// System's arraycopy. Elements are copied as if through a copy of the source.
pub fn copy_array<C: Classes>(classes: &C, heap: &mut Heap, args: &[Value]) -> NativeAnswer
    requires known { AreKnown (C.types classes.now) heap.old }
    requires kinds { map value_kind args.now ≡ (native_signature ArrayCopy).parameters }
    ensures { Acts (C.program classes.now) (C.prefix classes.now) (C.types classes.now) heap.old heap.new ArrayCopy args.now result }
{
    copy_reported(classes, heap, args)
}

// The same, by the model's answer.
fn copy_reported<C: Classes>(classes: &C, heap: &mut Heap, args: &[Value]) -> NativeAnswer
    requires known { AreKnown (C.types classes.now) heap.old }
    requires kinds { map value_kind args.now ≡ (native_signature ArrayCopy).parameters }
    ensures { Done (C.prefix classes.now) (C.types classes.now) heap.old heap.new (copy_answer (C.program classes.now) (C.prefix classes.now) (C.types classes.now) heap.old args.now) result }
{
    let (source, target) = (reference(args, 0), reference(args, 2));
    if source == 0 {
        return NativeAnswer::Raise(Raised::NullPointer);
    }
    if target == 0 {
        return NativeAnswer::Raise(Raised::NullPointer);
    }
    match element_of(heap, source) {
        Some(a) => copy_between(classes, heap, a, args),
        None => NativeAnswer::Raise(Raised::ArrayStore),
    }
}

// Copies from an array of such elements to an object.
fn copy_between<C: Classes>(
    classes: &C,
    heap: &mut Heap,
    a: Element,
    args: &[Value],
) -> NativeAnswer
    requires known { AreKnown (C.types classes.now) heap.old }
    requires kinds { map value_kind args.now ≡ (native_signature ArrayCopy).parameters }
    requires source { element_of (elements_at heap.old (model.reference 0 args.now)) ≡ Some a }
    requires target { 1 ≤ model.reference 2 args.now }
    ensures { Done (C.prefix classes.now) (C.types classes.now) heap.old heap.new (copy_answer (C.program classes.now) (C.prefix classes.now) (C.types classes.now) heap.old args.now) result }
{
    match element_of(heap, reference(args, 2)) {
        Some(b) => copy_like(classes, heap, a, b, args),
        None => NativeAnswer::Raise(Raised::ArrayStore),
    }
}

// Copies between arrays of such elements, where these are the same.
fn copy_like<C: Classes>(
    classes: &C,
    heap: &mut Heap,
    a: Element,
    b: Element,
    args: &[Value],
) -> NativeAnswer
    requires known { AreKnown (C.types classes.now) heap.old }
    requires kinds { map value_kind args.now ≡ (native_signature ArrayCopy).parameters }
    requires source { element_of (elements_at heap.old (model.reference 0 args.now)) ≡ Some a }
    requires target { element_of (elements_at heap.old (model.reference 2 args.now)) ≡ Some b }
    ensures { Done (C.prefix classes.now) (C.types classes.now) heap.old heap.new (copy_answer (C.program classes.now) (C.prefix classes.now) (C.types classes.now) heap.old args.now) result }
{
    if a == b {
        copy_places(classes, heap, a, args)
    } else {
        NativeAnswer::Raise(Raised::ArrayStore)
    }
}

// What the elements of an array are; none where there is no array.
fn element_of(heap: &Heap, r: u32) -> Option<Element>
    ensures { result ≡ element_of (elements_at heap.now r) }
{
    let n = array_number(heap, r)?;
    match heap.made(n) {
        Made::Array(element) => Some(element),
        _ => None,
    }
}

// Copies between arrays of such elements, where the places are inside of both.
fn copy_places<C: Classes>(
    classes: &C,
    heap: &mut Heap,
    element: Element,
    args: &[Value],
) -> NativeAnswer
    requires known { AreKnown (C.types classes.now) heap.old }
    requires kinds { map value_kind args.now ≡ (native_signature ArrayCopy).parameters }
    requires source { element_of (elements_at heap.old (model.reference 0 args.now)) ≡ Some element }
    requires target { element_of (elements_at heap.old (model.reference 2 args.now)) ≡ Some element }
    ensures { Done (C.prefix classes.now) (C.types classes.now) heap.old heap.new (copy_answer (C.program classes.now) (C.prefix classes.now) (C.types classes.now) heap.old args.now) result }
{
    match places_of(heap, element, args) {
        Some(copy) => copy_elements(classes, heap, element, copy),
        None => NativeAnswer::Raise(Raised::ArrayIndexOutOfBounds),
    }
}

// The places, where they are inside of both arrays.
fn places_of(heap: &Heap, element: Element, args: &[Value]) -> Option<Copy>
    requires kinds { map value_kind args.now ≡ (native_signature ArrayCopy).parameters }
    requires source { element_of (elements_at heap.now (model.reference 0 args.now)) ≡ Some element }
    requires target { element_of (elements_at heap.now (model.reference 2 args.now)) ≡ Some element }
    ensures { IsPlaces heap.now element args.now result }
{
    let (source, target) = (reference(args, 0), reference(args, 2));
    let from = place(args, 1)?;
    let to = place(args, 3)?;
    let count = place(args, 4)?;
    let copy = Copy {
        source,
        from,
        target,
        to,
        count,
    };
    if both_fit(heap, copy) {
        Some(copy)
    } else {
        None
    }
}

// The place at this place of the arguments, which isn't negative.
fn place(args: &[Value], at: usize) -> Option<u32>
    requires { option_map value_kind (slice_get args.now at) ≡ Some kinds.Int }
    ensures { as_place (model.number at args.now) ≡ result }
{
    match u32::try_from(int(args, at)) {
        Ok(n) => Some(n),
        Err(_) => None,
    }
}

// Whether the places are inside of both arrays.
fn both_fit(heap: &Heap, copy: Copy) -> bool
    requires source { IsSome (elements_at heap.now copy.source) }
    requires target { IsSome (elements_at heap.now copy.target) }
    ensures fit { result ≡ fits_at heap.now copy.source copy.from copy.count && fits_at heap.now copy.target copy.to copy.count }
    ensures first { length (contents_at heap.now copy.source) < 2 ^ 31 }
    ensures second { length (contents_at heap.now copy.target) < 2 ^ 31 }
{
    let first = fits(heap, copy.source, copy.from, copy.count);
    let second = fits(heap, copy.target, copy.to, copy.count);
    first && second
}

// Whether an array has this many elements from this place on.
fn fits(heap: &Heap, r: u32, from: u32, count: u32) -> bool
    requires { IsSome (elements_at heap.now r) }
    ensures fit { result ≡ fits_at heap.now r from count }
    ensures few { length (contents_at heap.now r) < 2 ^ 31 }
{
    u64::from(from) + u64::from(count) <= u64::from(elements_of(heap, r))
}

// How many elements an array has.
#[tactic(auto, using(crate::proofs::CopyPlaces::array_there, crate::proofs::CopyPlaces::array_long))]
fn elements_of(heap: &Heap, r: u32) -> u32
    requires { IsSome (elements_at heap.now r) }
    ensures exact { result ≡ length (contents_at heap.now r) }
    ensures few { result < 2 ^ 31 }
{
    heap.length(r)
}

// Copies the elements before the first one that the target doesn't take.
fn copy_elements<C: Classes>(
    classes: &C,
    heap: &mut Heap,
    element: Element,
    copy: Copy,
) -> NativeAnswer
    requires known { AreKnown (C.types classes.now) heap.old }
    requires copy { IsCopy heap.old element copy }
    ensures { CopiesAll (C.program classes.now) (C.prefix classes.now) (C.types classes.now) heap.old heap.new element copy result }
{
    let taken = taken_of(classes, heap, element, copy);
    move_elements(heap, element, copy, taken);
    if taken == copy.count {
        NativeAnswer::Nothing
    } else {
        NativeAnswer::Raise(Raised::ArrayStore)
    }
}

// How many elements come before the first one that the target doesn't take.
fn taken_of<C: Classes>(classes: &C, heap: &Heap, element: Element, copy: Copy) -> u32
    requires known { AreKnown (C.types classes.now) heap.now }
    requires copy { IsCopy heap.now element copy }
    ensures few { result ≤ copy.count }
    ensures moved { MovesSo (C.program classes.now) (C.prefix classes.now) (C.types classes.now) heap.now element copy result }
{
    match element {
        Element::Ref => taken_before(classes, heap, copy),
        _ => copy.count,
    }
}

// How many references come before the first one that the target doesn't take.
fn taken_before<C: Classes>(classes: &C, heap: &Heap, copy: Copy) -> u32
    requires known { AreKnown (C.types classes.now) heap.now }
    requires copy { IsCopy heap.now elements.Ref copy }
    ensures few { result ≤ copy.count }
    ensures takes { Takes (takes_at (C.program classes.now) (C.prefix classes.now) (C.types classes.now) heap.now copy.target) heap.now copy result }
{
    for at in 0..copy.count {
        let r = heap.element(copy.source, copy.from + at);
        if !takes(classes, heap, copy.target, r) {
            return at;
        }
    }
    copy.count
}

// Whether an array of references takes the object of this number.
fn takes<C: Classes>(classes: &C, heap: &Heap, array: u32, r: i64) -> bool
    requires known { AreKnown (C.types classes.now) heap.now }
    requires array { element_of (elements_at heap.now array) ≡ Some elements.Ref }
    ensures { result ≡ takes_at (C.program classes.now) (C.prefix classes.now) (C.types classes.now) heap.now array (unsigned_abs r) }
{
    classes.have_components();
    let Some(component) = classes.component(heap.class_of(array)) else {
        unreachable!()
    };
    match object_number(heap, r.unsigned_abs()) {
        Some(n) => classes.sub_type(heap.class_of(n), component),
        None => r == 0 || takes_absent(classes, component),
    }
}

// Copies the first n elements.
fn move_elements(heap: &mut Heap, element: Element, copy: Copy, count: u32)
    requires copy { IsCopy heap.old element copy }
    requires few { count ≤ copy.count }
    ensures { Moves heap.old heap.new copy count }
{
    if copy.from < copy.to {
        move_down(heap, element, copy, count);
    } else {
        move_up(heap, element, copy, count);
    }
}

// The first elements first.
fn move_up(heap: &mut Heap, element: Element, copy: Copy, count: u32)
    requires copy { IsCopy heap.old element copy }
    requires few { count ≤ copy.count }
    requires up { copy.to ≤ copy.from }
    ensures { Moves heap.old heap.new copy count }
{
    for at in 0..count {
        let z = heap.element(copy.source, copy.from + at);
        heap.set_element(copy.target, copy.to + at, z);
    }
}

// The last elements first.
fn move_down(heap: &mut Heap, element: Element, copy: Copy, count: u32)
    requires copy { IsCopy heap.old element copy }
    requires few { count ≤ copy.count }
    requires down { copy.from < copy.to }
    ensures { Moves heap.old heap.new copy count }
{
    let mut left = count;
    while left > 0 {
        left -= 1;
        let z = heap.element(copy.source, copy.from + left);
        heap.set_element(copy.target, copy.to + left, z);
    }
}
