//! Members by the numbers of their texts, and the first of those that have the same.
ghost use Rattle.std.specs.Prelude.{◌≡◌, ◌+◌, ◌*◌, ◌<◌, ◌≤◌, ◌^◌, ltb, true, false, Some, is_some, IfOk, OnOk, length, nat_eq, slice_get};
ghost use Rattle.std.specs.List.{list_any};
ghost use Rattle.std.specs.List.Sorted.{IsPartitionPoint};
ghost use Rattle.std.specs.Option.{option_map};
ghost use Rattle.dj_declarations.specs.MemberRows.{first_row, place_named, AreCounts, AreOrdered, AreCounted, pair_of, key_at, IsAnswer};

use crate::error::DeclareError;
use crate::texts::TextTable;
use dj_names::NativeId;
use std::alloc::Global;

// JVMS tables 4.5-A and 4.6-A.
const STATIC: u16 = 0x0008;

/// What a member has beside its texts.
#[derive(Clone, Copy)]
pub(crate) enum MemberBody {
    /// Nothing: a field, or a method that is abstract.
    Empty,
    /// A method that a library answers.
    Native(NativeId),
    /// A method with code.
    Code,
}

/// A field or a method, by the numbers of its name and its descriptor. It has 8 bytes.
#[derive(Clone, Copy)]
pub(crate) struct MemberRow {
    pub(crate) flags: u16,
    pub(crate) name: u16,
    pub(crate) desc: u16,
    pub(crate) body: MemberBody,
}

/// The fields or the methods of a class, and their places in the order of their numbers, where the first of equal ones comes first.
#[derive(Drop)]
pub(crate) struct MemberTable {
    rows: Vec<MemberRow>,
    order: Vec<u16>,
    ghost ordered: { AreOrdered rows.items order.items },
}

// Two numbers as one, which is less where the first is less, or the second of equal first ones.
fn pair_of(name: u16, desc: u16) -> u64
    ensures value { result ≡ pair_of name desc }
    ensures bound { desc < 2 ^ 16 }
    ensures small { result < 2 ^ 32 }
{
    name as u64 * 0x1_0000 + desc as u64
}

// What the rows are ordered by: the numbers of the row at a place, and the place.
#[tactic(auto, using(crate::proofs::RowLaws::key_there, crate::proofs::RowLaws::key_past))]
fn key_at(rows: &[MemberRow], place: u16) -> u64
    ensures { result ≡ key_at rows.now place }
{
    if place as usize >= rows.len() {
        return place as u64;
    }
    let row = rows[place as usize];
    pair_of(row.name, row.desc) * 0x1_0000 + place as u64
}

// This many places, in order.
fn places_below(alloc: Global, count: usize) -> Result<Vec<u16>, DeclareError>
    ensures { IfOk result (λ places. AreCounted count places.items) }
{
    let mut places = Vec::with_capacity(alloc, count)?;
    for place in 0..count {
        let Ok(number) = u16::try_from(place) else {
            return Err(DeclareError::Memory);
        };
        places.push(number)?;
    }
    Ok(places)
}

// The places of the rows, in the order of their numbers.
fn order_of(alloc: Global, rows: &[MemberRow]) -> Result<Vec<u16>, DeclareError>
    ensures { IfOk result (λ order. AreOrdered rows.now order.items) }
{
    let mut order = places_below(alloc, rows.len())?;
    order.sort_unstable_by_key(|place| key_at(rows, *place));
    Ok(order)
}

// How many of the places come before the first one of a row with these numbers, or a later one.
fn first_not_below(rows: &[MemberRow], order: &[u16], key: u64) -> usize
    requires { AreOrdered rows.now order.now }
    ensures bound { result ≤ length order.now }
    ensures point { IsPartitionPoint (λ place. ltb (key_at rows.now place) key ≡ true) (λ place. ltb (key_at rows.now place) key ≡ false) order.now result }
{
    order.partition_point(|place| key_at(rows, *place) < key)
}

// The row at a place, if it has these numbers: the place.
#[tactic(auto, using(crate::proofs::RowLaws::such_row, crate::proofs::RowLaws::other_row))]
fn place_if(rows: &[MemberRow], place: u16, name: u16, desc: u16) -> Option<u32>
    requires { place < length rows.now }
    ensures { IsAnswer rows.now place name desc result }
{
    let row = rows[place as usize];
    if pair_of(row.name, row.desc) == pair_of(name, desc) {
        Some(place as u32)
    } else {
        None
    }
}

// The place of the first row with these numbers.
#[tactic(auto, using(crate::proofs::RowLaws::answer_is, crate::proofs::RowLaws::none_past, crate::proofs::RowLaws::place_within))]
fn first_of(rows: &[MemberRow], order: &[u16], name: u16, desc: u16) -> Option<u32>
    requires { AreOrdered rows.now order.now }
    ensures { result ≡ first_row name desc rows.now }
{
    let at = first_not_below(rows, order, pair_of(name, desc) * 0x1_0000);
    if at == order.len() {
        return None;
    }
    place_if(rows, order[at], name, desc)
}

// How many rows that aren't static come before each place, and before the end.
fn instance_counts_of(alloc: Global, rows: &[MemberRow]) -> Result<Vec<u32>, DeclareError>
    ensures { IfOk result (λ counts. AreCounts rows.now counts.items) }
{
    let mut counts = Vec::with_capacity(alloc, rows.len() + 1)?;
    let mut count = 0u32;
    for row in rows {
        counts.push(count)?;
        if row.flags & STATIC == 0 {
            let Some(more) = count.checked_add(1) else {
                return Err(DeclareError::Memory);
            };
            count = more;
        }
    }
    counts.push(count)?;
    Ok(counts)
}

impl MemberTable {
    /// These members, in order.
    pub(crate) fn new(alloc: Global, rows: Vec<MemberRow>) -> Result<MemberTable, DeclareError>
        ensures { IfOk result (λ table. table.rows.items ≡ rows.items) }
    {
        let order = order_of(alloc, &rows)?;
        Ok(MemberTable { rows, order })
    }

    /// The place of the first member with these numbers.
    pub(crate) fn find(&self, name: u16, desc: u16) -> Option<u32>
        ensures { result ≡ first_row name desc self.now.rows.items }
    {
        first_of(&self.rows, &self.order, name, desc)
    }

    /// The place of the first member with these texts.
    pub(crate) fn find_named(&self, texts: &TextTable, name: &[u8], desc: &[u8]) -> Option<u32>
        ensures { result ≡ place_named texts.now self.now.rows.items name.now desc.now }
    {
        let name = texts.find(name)?;
        let desc = texts.find(desc)?;
        self.find(name, desc)
    }

    /// The number of members.
    pub(crate) fn count(&self) -> usize
        ensures { result ≡ length self.now.rows.items }
    {
        self.rows.len()
    }

    /// The member at a place.
    pub(crate) fn row(&self, place: u32) -> MemberRow
        requires { place < length self.now.rows.items }
        ensures { Some result ≡ slice_get self.now.rows.items place }
    {
        self.rows[place as usize]
    }

    /// How many members that aren't static come before each place, and before the end.
    pub(crate) fn instance_counts(&self, alloc: Global) -> Result<Vec<u32>, DeclareError>
        ensures { IfOk result (λ counts. AreCounts self.now.rows.items counts.items) }
    {
        instance_counts_of(alloc, &self.rows)
    }

    /// The access flags of the member at a place.
    pub(crate) fn flags(&self, place: u32) -> u16
        requires { place < length self.now.rows.items }
        ensures { Some result ≡ option_map (λ row. row.flags) (slice_get self.now.rows.items place) }
    {
        self.rows[place as usize].flags
    }

    /// Whether there is a member.
    pub(crate) fn has_any(&self) -> bool
        ensures { result ≡ is_some (slice_get self.now.rows.items 0) }
    {
        self.rows.first().is_some()
    }

    /// Whether a member has the name of this number.
    pub(crate) fn has_name(&self, name: u16) -> bool
        ensures { result ≡ list_any (λ row. nat_eq row.name name) self.now.rows.items }
    {
        self.rows.iter().any(|row| row.name == name)
    }
}
