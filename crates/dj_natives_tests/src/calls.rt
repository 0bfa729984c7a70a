use crate::accounter::accounter;
use crate::arguments::{units, values_of};
use crate::few::Few;
use crate::heaps::{are_elements, field, is_of_class, is_text};
use crate::known::are_known;
use crate::rows::{
    After, AskedCall, ENOUGH, KeepingCall, LimitedCall, MakingCall, Text, WantedAnswer,
};
use crate::taken::are_arguments;
use dj_heap::Heap;
use dj_library_types::Classes;
use dj_names::{NativeId, Value};
use dj_natives::{Accounter, NativeAnswer, call_native};
use std::alloc::Global;

// ---- expected answers

fn are_units(alloc: Global, heap: &Heap, r: u32, text: Text) -> bool {
    match units(alloc, text) {
        Some(units) => is_text(heap, r, units.as_slice()),
        None => false,
    }
}

fn is_text_object(alloc: Global, few: &Few, heap: &Heap, r: u32, text: Text) -> bool {
    is_of_class(heap, r, few.string()) && are_units(alloc, heap, r, text)
}

fn is_object(few: &Few, heap: &Heap, r: u32, class: &[u8]) -> bool {
    match few.number(class) {
        Some(class) => is_of_class(heap, r, class),
        None => false,
    }
}

// Whether this object is the expected one.
fn is_reference(
    alloc: Global,
    few: &Few,
    heap: &Heap,
    given: u32,
    reported: &WantedAnswer,
) -> bool {
    match reported {
        WantedAnswer::GivesNull => given == 0,
        WantedAnswer::GivesText(r, text) => given == *r
            && is_text_object(alloc, few, heap, given, text),
        WantedAnswer::GivesObject(r, class) => given == *r && is_object(few, heap, given, class),
        WantedAnswer::GivesChars(r, elements) => {
            given == *r
                && is_of_class(heap, given, few.chars())
                && are_elements(heap, given, elements)
        }
        _ => false,
    }
}

fn is_value(alloc: Global, few: &Few, heap: &Heap, value: Value, reported: &WantedAnswer) -> bool {
    match value {
        Value::Int(z) => matches!(reported, WantedAnswer::GivesInt(int) if *int == z),
        Value::Long(z) => matches!(reported, WantedAnswer::GivesLong(long) if *long == z),
        Value::Ref(r) => is_reference(alloc, few, heap, r, reported),
    }
}

// Whether the answer is the expected one.
fn is_reported(
    alloc: Global,
    few: &Few,
    heap: &Heap,
    answer: NativeAnswer,
    reported: &WantedAnswer,
) -> bool {
    match answer {
        NativeAnswer::Nothing => matches!(reported, WantedAnswer::Nothing),
        NativeAnswer::Gives(value) => is_value(alloc, few, heap, value, reported),
        NativeAnswer::Raise(raised) =>
            matches!(reported, WantedAnswer::Raises(other) if *other == raised),
        NativeAnswer::Stop => matches!(reported, WantedAnswer::Stops),
        NativeAnswer::Full { used, size } => {
            matches!(reported, WantedAnswer::Full(bytes, wanted) if *bytes == used && *wanted == size)
        }
        NativeAnswer::Memory => false,
    }
}

// Whether the bits of a field are those of a text, or null.
fn is_field(alloc: Global, heap: &Heap, bits: Option<u64>, text: Option<Text>) -> bool {
    match (bits, text) {
        (Some(0), None) => true,
        (Some(bits), Some(text)) => match u32::try_from(bits) {
            Ok(r) => are_units(alloc, heap, r, text),
            Err(_) => false,
        },
        _ => false,
    }
}

// Whether an object is what it is to be.
fn is_after(alloc: Global, heap: &Heap, after: &After) -> bool {
    match after {
        After::Any => true,
        After::FirstIs(r, text) => is_field(alloc, heap, field(heap, *r, 0), *text),
        After::FieldsAre(r, text, second) => {
            is_field(alloc, heap, field(heap, *r, 0), *text)
                && field(heap, *r, 1) == Some(u64::from(*second))
        }
        After::ElementsAre(r, elements) => are_elements(heap, *r, elements),
    }
}

// ---- calls

// Calls the method, where the heap's objects are known and the values are arguments of the method.
fn called(
    alloc: Global,
    few: &Few,
    heap: &mut Heap,
    accounter: Option<&mut Accounter>,
    id: NativeId,
    values: &[Value],
) -> Option<NativeAnswer> {
    if are_known(few, heap) && are_arguments(heap, id, values) {
        Some(call_native(alloc, few, heap, accounter, id, values))
    } else {
        None
    }
}

// What a call answers, and the bytes that are charged.
fn charged(
    alloc: Global,
    few: &Few,
    heap: &mut Heap,
    most: Option<u64>,
    id: NativeId,
    values: &[Value],
) -> Option<(NativeAnswer, u64)> {
    let Some(most) = most else {
        return Some((called(alloc, few, heap, None, id, values)?, 0));
    };
    let mut accounter = accounter((most, 1, 1, 1));
    let answer = called(alloc, few, heap, Some(&mut accounter), id, values)?;
    Some((answer, accounter.costs().alloc))
}

// Whether the call does what the row says; none where it can't be made.
fn does(alloc: Global, few: &Few, row: &LimitedCall) -> Option<bool> {
    let (most, limit) = row.1;
    let mut heap = Heap::new(alloc, limit.min(1 << 31));
    let values = values_of(alloc, few, &mut heap, row.2)?;
    let before = heap.used();
    let (answer, bytes) = charged(alloc, few, &mut heap, most, row.0, &values)?;
    Some(
        is_reported(alloc, few, &heap, answer, &row.3)
            && (before, heap.used()) == row.4
            && bytes == row.5
            && is_after(alloc, &heap, &row.6),
    )
}

fn is_done(alloc: Global, few: &Few, row: &LimitedCall) -> bool {
    does(alloc, few, row) == Some(true)
}

// With enough of all.
fn is_kept(alloc: Global, few: &Few, row: &KeepingCall) -> bool {
    let (id, arguments, reported, used, after) = *row;
    let charged = used.1.saturating_sub(used.0);
    is_done(
        alloc,
        few,
        &(id, ENOUGH, arguments, reported, used, charged, after),
    )
}

/// Whether each of the calls does what its row says.
pub fn are_done(alloc: Global, few: &Few, rows: &[LimitedCall]) -> bool {
    rows.iter().all(|row| is_done(alloc, few, row))
}

/// The same, with enough of all.
pub fn are_kept(alloc: Global, few: &Few, rows: &[KeepingCall]) -> bool {
    rows.iter().all(|row| is_kept(alloc, few, row))
}

/// The same, where no object is changed.
pub fn are_made(alloc: Global, few: &Few, rows: &[MakingCall]) -> bool {
    rows.iter().all(|row| is_kept(alloc, few, &(row.0, row.1, row.2, row.3, After::Any)))
}

/// The same, where nothing is made either.
pub fn are_asked(alloc: Global, few: &Few, rows: &[AskedCall]) -> bool {
    rows.iter().all(|row| {
        is_kept(
            alloc,
            few,
            &(row.0, row.1, row.2, (row.3, row.3), After::Any),
        )
    })
}
