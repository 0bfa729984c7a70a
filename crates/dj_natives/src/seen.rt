ghost use Rattle.std.specs.Prelude.{◌≡◌, ◌≤◌, ◌<◌, Some, OnOk, ◌++◌, length, slice_get, slice_range};
ghost use Rattle.dj_natives.specs.Seen.{units_at, is_text_at, field_at, HasField, IsArrayThere, IsTextThere, IsThere};

use dj_heap::{Heap, Made};
use dj_names::Units;
use std::alloc::AllocError;

/// The object of this number, where there is one.
pub fn object_number(heap: &Heap, r: u64) -> Option<u32>
    ensures { IsThere heap.now r result }
{
    if r == 0 || u64::from(heap.count()) < r {
        None
    } else {
        Some(r as u32)
    }
}

/// The text of this number, where the object is one.
pub fn text_number(heap: &Heap, r: u64) -> Option<u32>
    ensures { IsTextThere heap.now r result }
{
    let n = object_number(heap, r)?;
    match heap.made(n) {
        Made::Text => Some(n),
        _ => None,
    }
}

/// Whether the object is a text.
pub fn is_text(heap: &Heap, r: u64) -> bool
    ensures { result ≡ is_text_at heap.now r }
{
    match text_number(heap, r) {
        Some(_) => true,
        None => false,
    }
}

/// How many units a text has; 0 for anything else.
pub fn text_length(heap: &Heap, r: u64) -> u32
    ensures { result ≡ length (units_at heap.now r) }
{
    match text_number(heap, r) {
        Some(n) => heap.length(n),
        None => 0,
    }
}

/// The unit of a text at this place.
pub fn unit_of(heap: &Heap, r: u64, at: u32) -> u16
    requires { at < length (units_at heap.now r) }
    ensures { slice_get (units_at heap.now r) at ≡ Some result }
{
    match text_number(heap, r) {
        Some(n) => heap.unit(n, at),
        None => unreachable!(),
    }
}

/// The instance of this number, where it has this field.
pub fn instance_with(heap: &Heap, r: u32, at: u32) -> Option<u32>
    ensures { HasField heap.now r at result }
{
    let n = object_number(heap, u64::from(r))?;
    match heap.made(n) {
        Made::Instance => { if at < heap.length(n) { Some(n) } else { None } }
        _ => None,
    }
}

/// The 64 bits of a field; 0 where there is none.
pub fn field(heap: &Heap, r: u32, at: u32) -> u64
    ensures { result ≡ field_at heap.now r at }
{
    match instance_with(heap, r, at) {
        Some(n) => heap.field(n, at),
        None => 0,
    }
}

/// Appends the units of a text from one place to another.
#[tactic(auto, using(crate::proofs::Units::range_more))]
pub fn put_between(
    heap: &Heap,
    r: u64,
    from: u32,
    to: u32,
    units: &mut Units,
) -> Result<(), AllocError>
    requires up { from ≤ to }
    requires within { to ≤ length (units_at heap.now r) }
    ensures { OnOk result (units.new ≡ units.old ++ slice_range (units_at heap.now r) from to) }
{
    for at in from..to {
        units.push(unit_of(heap, r, at))?;
    }
    Ok(())
}

/// Appends the units of a text.
#[tactic(auto, using(crate::proofs::Units::range_all))]
pub fn put_units(heap: &Heap, r: u64, units: &mut Units) -> Result<(), AllocError>
    ensures { OnOk result (units.new ≡ units.old ++ units_at heap.now r) }
{
    put_between(heap, r, 0, text_length(heap, r), units)
}

/// Appends the bytes of an ASCII text, as units.
pub fn put_text(units: &mut Units, text: &[u8]) -> Result<(), AllocError>
    ensures { OnOk result (units.new ≡ units.old ++ text.now) }
{
    for &byte in text {
        units.push(u16::from(byte))?;
    }
    Ok(())
}

/// The array of this number, where the object is one.
pub fn array_number(heap: &Heap, r: u32) -> Option<u32>
    ensures { IsArrayThere heap.now r result }
{
    let n = object_number(heap, u64::from(r))?;
    match heap.made(n) {
        Made::Array(_) => Some(n),
        _ => None,
    }
}
