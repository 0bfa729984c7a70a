ghost use Rattle.std.specs.Prelude.{◌≡◌, map, IsTrue, IfSome};
ghost use Rattle.std.specs.List.{AllByRecursion};
ghost use Rattle.dj_names.specs.trusted.Values.{value_kind};
ghost use Rattle.dj_heap.specs.Heaps.{object_in};
ghost use Rattle.dj_model.specs.trusted.Natives.{reference};
ghost use Rattle.dj_natives.specs.Known.{AreArguments, IsOfChars};
ghost use Rattle.dj_natives_tests.specs.Arguments.{IsTaken};

use crate::heaps::has_object;
use dj_effects::is_of_kind;
use dj_heap::{Heap, Made};
use dj_names::{Element, Kind, NativeId, Value};

// A method, the kinds that it takes, and whether that is all that it wants of its arguments.
type Taken = (NativeId, &'static [Kind], bool);

const ROWS: [Taken; 51] = [
    (NativeId::ObjectNew, &[Kind::Ref], true),
    (NativeId::ObjectEquals, &[Kind::Ref, Kind::Ref], true),
    (NativeId::ObjectHashCode, &[Kind::Ref], true),
    (NativeId::ObjectToString, &[Kind::Ref], true),
    (NativeId::StringLength, &[Kind::Ref], true),
    (NativeId::StringIsEmpty, &[Kind::Ref], true),
    (NativeId::StringToString, &[Kind::Ref], true),
    (NativeId::StringCharAt, &[Kind::Ref, Kind::Int], true),
    (NativeId::StringEquals, &[Kind::Ref, Kind::Ref], true),
    (NativeId::StringHashCode, &[Kind::Ref], true),
    (NativeId::StringCompareTo, &[Kind::Ref, Kind::Ref], true),
    (
        NativeId::StringCompareToObject,
        &[Kind::Ref, Kind::Ref],
        true,
    ),
    (NativeId::StringStartsWith, &[Kind::Ref, Kind::Ref], true),
    (NativeId::StringConcat, &[Kind::Ref, Kind::Ref], true),
    (NativeId::StringSubstringFrom, &[Kind::Ref, Kind::Int], true),
    (
        NativeId::StringSubstring,
        &[Kind::Ref, Kind::Int, Kind::Int],
        true,
    ),
    (NativeId::StringToCharArray, &[Kind::Ref], true),
    (NativeId::StringValueOfChars, &[Kind::Ref], false),
    (NativeId::StringValueOfChar, &[Kind::Int], true),
    (NativeId::StringValueOfInt, &[Kind::Int], true),
    (NativeId::StringValueOfLong, &[Kind::Long], true),
    (NativeId::StringValueOfBoolean, &[Kind::Int], true),
    (NativeId::BuilderNew, &[Kind::Ref], true),
    (NativeId::BuilderNewText, &[Kind::Ref, Kind::Ref], true),
    (NativeId::BuilderAppendText, &[Kind::Ref, Kind::Ref], true),
    (NativeId::BuilderAppendChar, &[Kind::Ref, Kind::Int], true),
    (NativeId::BuilderAppendInt, &[Kind::Ref, Kind::Int], true),
    (NativeId::BuilderAppendLong, &[Kind::Ref, Kind::Long], true),
    (
        NativeId::BuilderAppendBoolean,
        &[Kind::Ref, Kind::Int],
        true,
    ),
    (NativeId::BuilderLength, &[Kind::Ref], true),
    (NativeId::BuilderCharAt, &[Kind::Ref, Kind::Int], true),
    (NativeId::BuilderToString, &[Kind::Ref], true),
    (NativeId::ThrowableNew, &[Kind::Ref], true),
    (NativeId::ThrowableNewMessage, &[Kind::Ref, Kind::Ref], true),
    (
        NativeId::ThrowableNewCause,
        &[Kind::Ref, Kind::Ref, Kind::Ref],
        true,
    ),
    (NativeId::GetMessage, &[Kind::Ref], true),
    (NativeId::GetCause, &[Kind::Ref], true),
    (NativeId::AbsInt, &[Kind::Int], true),
    (NativeId::AbsLong, &[Kind::Long], true),
    (NativeId::MaxInts, &[Kind::Int, Kind::Int], true),
    (NativeId::MaxLongs, &[Kind::Long, Kind::Long], true),
    (NativeId::MinInts, &[Kind::Int, Kind::Int], true),
    (NativeId::MinLongs, &[Kind::Long, Kind::Long], true),
    (NativeId::IdentityHashCode, &[Kind::Ref], true),
    (
        NativeId::ArrayCopy,
        &[Kind::Ref, Kind::Int, Kind::Ref, Kind::Int, Kind::Int],
        true,
    ),
    (NativeId::RecordJump, &[], true),
    (NativeId::RecordInvocation, &[], true),
    (NativeId::RecordThrow, &[], true),
    (NativeId::RecordAllocation, &[Kind::Int], true),
    (NativeId::RecordArray, &[Kind::Int, Kind::Int], true),
    (NativeId::CheckCatch, &[Kind::Ref], true),
];

fn rows() -> &'static [Taken]
    ensures { AllByRecursion IsTaken result.now }
{
    &ROWS
}

fn row_of(id: NativeId) -> Option<&'static Taken>
    ensures { IfSome result (λ row. (row.now.0 ≡ id) × IsTaken row.now) }
{
    for row in rows() {
        if row.0 == id {
            return Some(row);
        }
    }
    None
}

// Whether the values are of these kinds.
fn are_of_kinds(values: &[Value], kinds: &[Kind]) -> bool
    ensures { IsTrue result → map value_kind values.now ≡ kinds.now }
{
    if values.len() != kinds.len() {
        return false;
    }
    for at in 0..values.len() {
        if !is_of_kind(kinds[at], values[at]) {
            return false;
        }
    }
    true
}

// Whether the first is null or an array of chars.
fn begin_with_chars(heap: &Heap, values: &[Value]) -> bool
    ensures { IsTrue result → IsOfChars (object_in heap.now (reference 0 values.now)) }
{
    let Some(Value::Ref(r)) = values.first() else {
        return false;
    };
    *r == 0 || (has_object(heap, *r) && heap.made(*r) == Made::Array(Element::Char))
}

/// Whether the values are arguments of the method, which doesn't ask the host.
pub fn are_arguments(heap: &Heap, id: NativeId, values: &[Value]) -> bool
    ensures { IsTrue result → AreArguments id heap.now values.now }
{
    let Some(row) = row_of(id) else {
        return false;
    };
    if !are_of_kinds(values, row.1) {
        return false;
    }
    row.2 || begin_with_chars(heap, values)
}
