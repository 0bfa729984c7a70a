ghost use Rattle.std.specs.Prelude.{◌≡◌, ◌≤◌, ◌<◌, ◌^◌, length, map, false, IfOk, vec_len};
ghost use Rattle.dj_cursor.specs.Steps.{Gives};
ghost use Rattle.dj_cursor.specs.Views.{cursor_of};
ghost use Rattle.dj_pool.specs.Views.{constant_of};
ghost use Rattle.dj_pool.specs.Memory.{pool_is_memory};
ghost use Rattle.dj_pool.specs.Reading.{utf8_at, number4, number4_at, number8, number8_at, named, named_at, paired, paired_at, handle_at, is_named, is_paired, untagged_at, constant_at_cursor, slot_at, slots_at, pool_from};
ghost use Rattle.dj_pool.specs.Answers.{ReadsPool};

use crate::entries::is_wide;
use crate::judged::read_judged_pool;
use crate::pool::{Entry, Pool, PoolError};
use crate::scan::is_utf8;
use dj_cursor::Cursor;
use std::alloc::Global;

// The fewest bytes that a constant has.
const SHORTEST: usize = 3;

#[tactic(auto, unfolding(crate::specs::Reading::utf8_at))]
fn read_utf8<'a>(index: u16, cursor: Cursor<'a>) -> Result<(Entry<'a>, Cursor<'a>), PoolError>
    ensures { Gives pool_is_memory (λ x. (constant_of x.0, cursor_of x.1)) result
        (utf8_at index (cursor_of cursor.entry)) }
{
    let (len, after) = cursor.u16_at()?;
    let (text, after) = after.bytes_at(u32::from(len))?;
    if !is_utf8(text) {
        return Err(PoolError::Text(index));
    }
    Ok((Entry::Utf8(text), after))
}

fn number4<'a>(tag: u8, bits: u32) -> Entry<'a>
    ensures { constant_of result ≡ number4 tag bits }
{
    if tag == 3 {
        Entry::Integer(bits.cast_signed())
    } else {
        Entry::Float(bits)
    }
}

#[tactic(auto, unfolding(crate::specs::Reading::number4_at))]
fn read_number4<'a>(tag: u8, cursor: Cursor<'a>) -> Result<(Entry<'a>, Cursor<'a>), PoolError>
    ensures { Gives pool_is_memory (λ x. (constant_of x.0, cursor_of x.1)) result
        (number4_at tag (cursor_of cursor.entry)) }
{
    let (bits, after) = cursor.u32_at()?;
    Ok((number4(tag, bits), after))
}

fn number8<'a>(tag: u8, bits: u64) -> Entry<'a>
    ensures { constant_of result ≡ number8 tag bits }
{
    if tag == 5 {
        Entry::Long(bits.cast_signed())
    } else {
        Entry::Double(bits)
    }
}

#[tactic(auto, unfolding(crate::specs::Reading::number8_at))]
fn read_number8<'a>(tag: u8, cursor: Cursor<'a>) -> Result<(Entry<'a>, Cursor<'a>), PoolError>
    ensures { Gives pool_is_memory (λ x. (constant_of x.0, cursor_of x.1)) result
        (number8_at tag (cursor_of cursor.entry)) }
{
    let (bits, after) = cursor.u64_at()?;
    Ok((number8(tag, bits), after))
}

fn named<'a>(tag: u8, index: u16) -> Entry<'a>
    ensures { constant_of result ≡ named tag index }
{
    if tag == 7 {
        Entry::Class(index)
    } else if tag == 8 {
        Entry::Text(index)
    } else {
        Entry::MethodType(index)
    }
}

#[tactic(auto, unfolding(crate::specs::Reading::named_at))]
fn read_named<'a>(tag: u8, cursor: Cursor<'a>) -> Result<(Entry<'a>, Cursor<'a>), PoolError>
    ensures { Gives pool_is_memory (λ x. (constant_of x.0, cursor_of x.1)) result
        (named_at tag (cursor_of cursor.entry)) }
{
    let (index, after) = cursor.u16_at()?;
    Ok((named(tag, index), after))
}

fn paired<'a>(tag: u8, first: u16, second: u16) -> Entry<'a>
    ensures { constant_of result ≡ paired tag first second }
{
    if tag == 9 {
        Entry::Field(first, second)
    } else if tag == 10 {
        Entry::Method(first, second)
    } else if tag == 11 {
        Entry::InterfaceMethod(first, second)
    } else if tag == 12 {
        Entry::NameAndType(first, second)
    } else {
        Entry::Dynamic(first, second)
    }
}

#[tactic(auto, unfolding(crate::specs::Reading::paired_at))]
fn read_paired<'a>(tag: u8, cursor: Cursor<'a>) -> Result<(Entry<'a>, Cursor<'a>), PoolError>
    ensures { Gives pool_is_memory (λ x. (constant_of x.0, cursor_of x.1)) result
        (paired_at tag (cursor_of cursor.entry)) }
{
    let (first, after) = cursor.u16_at()?;
    let (second, after) = after.u16_at()?;
    Ok((paired(tag, first, second), after))
}

#[tactic(auto, unfolding(crate::specs::Reading::handle_at))]
fn read_handle<'a>(cursor: Cursor<'a>) -> Result<(Entry<'a>, Cursor<'a>), PoolError>
    ensures { Gives pool_is_memory (λ x. (constant_of x.0, cursor_of x.1)) result
        (handle_at (cursor_of cursor.entry)) }
{
    let (kind, after) = cursor.u8_at()?;
    let (member, after) = after.u16_at()?;
    Ok((Entry::Handle(kind, member), after))
}

fn is_named(tag: u8) -> bool
    ensures { result ≡ is_named tag }
{
    tag == 7 || tag == 8 || tag == 16
}

fn is_paired(tag: u8) -> bool
    ensures { result ≡ is_paired tag }
{
    tag == 9 || tag == 10 || tag == 11 || tag == 12 || tag == 18
}

// What follows the tag that is at the place.
#[tactic(auto, unfolding(crate::specs::Reading::untagged_at))]
fn read_untagged<'a>(
    index: u16,
    place: u32,
    tag: u8,
    cursor: Cursor<'a>,
) -> Result<(Entry<'a>, Cursor<'a>), PoolError>
    ensures { Gives pool_is_memory (λ x. (constant_of x.0, cursor_of x.1)) result
        (untagged_at index place tag (cursor_of cursor.entry)) }
{
    if tag == 1 {
        return read_utf8(index, cursor);
    }
    if tag == 3 || tag == 4 {
        return read_number4(tag, cursor);
    }
    if tag == 5 || tag == 6 {
        return read_number8(tag, cursor);
    }
    if is_named(tag) {
        return read_named(tag, cursor);
    }
    if is_paired(tag) {
        return read_paired(tag, cursor);
    }
    if tag == 15 {
        return read_handle(cursor);
    }
    Err(PoolError::Tag(place))
}

#[tactic(auto, unfolding(crate::specs::Reading::constant_at_cursor))]
fn read_entry<'a>(index: u16, cursor: Cursor<'a>) -> Result<(Entry<'a>, Cursor<'a>), PoolError>
    ensures { Gives pool_is_memory (λ x. (constant_of x.0, cursor_of x.1)) result
        (constant_at_cursor index (cursor_of cursor.entry)) }
{
    let (tag, after) = cursor.u8_at()?;
    read_untagged(index, cursor.place, tag, after)
}

// What is at an index: after a long or a double nothing.
#[tactic(auto, unfolding(crate::specs::Reading::slot_at))]
fn read_slot<'a>(
    after_wide: bool,
    index: u16,
    cursor: Cursor<'a>,
) -> Result<(Entry<'a>, Cursor<'a>), PoolError>
    ensures { Gives pool_is_memory (λ x. (constant_of x.0, cursor_of x.1)) result
        (slot_at after_wide index (cursor_of cursor.entry)) }
{
    if after_wide {
        return Ok((Entry::Hole, cursor));
    }
    read_entry(index, cursor)
}

/// The entries of this many indexes. No more is reserved than the rest of the file can hold.
pub(crate) fn read_slots<'a>(
    alloc: Global,
    count: u16,
    cursor: Cursor<'a>,
) -> Result<(Vec<Entry<'a>>, Cursor<'a>), PoolError>
    ensures few { IfOk result (λ x. vec_len x.0 ≤ count) }
    ensures exact { Gives pool_is_memory (λ x. (map constant_of x.0.items, cursor_of x.1)) result
        (slots_at count false 1 (cursor_of cursor.entry)) }
{
    let most = cursor.rest.len() / SHORTEST;
    let mut entries = Vec::with_capacity(alloc, most.min(count as usize))?;
    let mut after = cursor;
    let mut after_wide = false;
    for i in 0..count {
        let (entry, next) = read_slot(after_wide, i + 1, after)?;
        after_wide = is_wide(&entry);
        entries.push(entry)?;
        after = next;
    }
    Ok((entries, after))
}

#[tactic(auto, unfolding(crate::specs::Reading::pool_from))]
fn read_from<'a>(alloc: Global, file: &'a [u8], at: u32) -> Result<(Pool<'a>, u32), PoolError>
    requires { length file.now < 2 ^ 32 }
    ensures { Gives pool_is_memory (λ x. (x.0, x.1)) result (pool_from file.now at) }
{
    let (judged, after) = read_judged_pool(alloc, Cursor::at(file, at))?;
    Ok((judged.into_pool(), after.place))
}

/// The pool whose count is at the place, and the place after its last entry.
pub fn read_pool<'a>(alloc: Global, file: &'a [u8], at: u32) -> Result<(Pool<'a>, u32), PoolError>
    requires { length file.now < 2 ^ 32 }
    ensures { ReadsPool file.now at result }
{
    read_from(alloc, file, at)
}
