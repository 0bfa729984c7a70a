use crate::few::Few;
use crate::heaps::{set_element, set_field};
use crate::rows::{Argument, Text};
use dj_heap::Heap;
use dj_library_types::Classes;
use dj_names::{Element, Units, Value, units_of};
use std::alloc::Global;

/// The units of a text, which is short.
pub fn units(alloc: Global, text: Text) -> Option<Units> {
    if text.len() > 999 {
        return None;
    }
    units_of(alloc, text).ok()
}

/// Makes a text.
pub fn text_made(alloc: Global, few: &Few, heap: &mut Heap, text: Text) -> Option<u32> {
    let units = units(alloc, text)?;
    heap.text(few.string(), units.as_slice()).ok()
}

// Makes a text, if there is one; else it is null.
fn text_or_null(alloc: Global, few: &Few, heap: &mut Heap, text: Option<Text>) -> Option<u32> {
    match text {
        Some(text) => text_made(alloc, few, heap, text),
        None => Some(0),
    }
}

// Makes an instance of the class with this many fields, the first of which is a text.
fn instance_made(
    alloc: Global,
    few: &Few,
    heap: &mut Heap,
    class: &[u8],
    fields: u32,
    text: Option<Text>,
) -> Option<u32> {
    let first = text_or_null(alloc, few, heap, text)?;
    let r = heap.instance(few.number(class)?, fields).ok()?;
    if fields != 0 {
        set_field(heap, r, 0, u64::from(first))?;
    }
    Some(r)
}

// Makes an array of these numbers.
fn array_made(
    few: &Few,
    heap: &mut Heap,
    class: &[u8],
    element: Element,
    numbers: &[i64],
) -> Option<u32> {
    let count = u32::try_from(numbers.len()).ok()?;
    let r = heap.array(few.number(class)?, element, count).ok()?;
    for at in 0..count {
        set_element(heap, r, at, numbers[at as usize])?;
    }
    Some(r)
}

// Makes what an array of references holds: a text, an object without fields, or null.
fn held(alloc: Global, few: &Few, heap: &mut Heap, item: &Argument) -> Option<u32> {
    match item {
        Argument::Null => Some(0),
        Argument::Text(text) => text_made(alloc, few, heap, text),
        Argument::Object(class, fields) => instance_made(alloc, few, heap, class, *fields, None),
        _ => None,
    }
}

// Makes an array of references, after what it holds.
fn references_made(
    alloc: Global,
    few: &Few,
    heap: &mut Heap,
    class: &[u8],
    items: &[Argument],
) -> Option<u32> {
    let mut numbers = Vec::new(alloc);
    for item in items {
        let r = held(alloc, few, heap, item)?;
        numbers.push(i64::from(r)).ok()?;
    }
    array_made(few, heap, class, Element::Ref, &numbers)
}

// Makes the object of an argument.
fn object_made(alloc: Global, few: &Few, heap: &mut Heap, argument: &Argument) -> Option<u32> {
    match argument {
        Argument::Builder(text) => {
            instance_made(alloc, few, heap, b"java/lang/StringBuilder", 1, *text)
        }
        Argument::Throwable(class, text) => instance_made(alloc, few, heap, class, 2, *text),
        Argument::Numbers(class, element, numbers) => {
            array_made(few, heap, class, *element, numbers)
        }
        Argument::References(class, items) => references_made(alloc, few, heap, class, items),
        _ => held(alloc, few, heap, argument),
    }
}

// The value of an argument, after those that are there.
fn value(
    alloc: Global,
    few: &Few,
    heap: &mut Heap,
    values: &[Value],
    argument: &Argument,
) -> Option<Value> {
    match argument {
        Argument::Int(z) => Some(Value::Int(*z)),
        Argument::Long(z) => Some(Value::Long(*z)),
        Argument::Same(at) => values.get(*at).copied(),
        _ => Some(Value::Ref(object_made(alloc, few, heap, argument)?)),
    }
}

/// The values of arguments.
pub fn values_of(
    alloc: Global,
    few: &Few,
    heap: &mut Heap,
    arguments: &[Argument],
) -> Option<Vec<Value>> {
    let mut values = Vec::new(alloc);
    for argument in arguments {
        let value = value(alloc, few, heap, &values, argument)?;
        values.push(value).ok()?;
    }
    Some(values)
}
