//! Members by the numbers of their texts, in the order of these.
ghost use Rattle.std.specs.Prelude.{◌≡◌, ◌<◌, ◌≤◌, ltb, true, false, length, IfOk};
ghost use Rattle.std.specs.List.Sorted.{IsNonDecreasingBy, IsPartitionPoint, IsPermutation};
ghost use Rattle.dj_member_index.specs.DirectoryRows.{pair_of, key_of, AreAlike, AreFirst, AreInOrder, AreRowsWith, IsLeastOrNone, IsAnswer, IsRepeat};

use std::alloc::{AllocError, Global};

/// A member by the numbers of its texts, and where it is declared.
#[derive(Clone, Copy)]
pub struct MemberRow {
    /// The number of its name.
    pub name: u32,
    /// The number of its descriptor.
    pub desc: u32,
    /// The number of its class.
    pub class: u32,
    /// Its place among those of its class.
    pub place: u32,
}

/// Two numbers as one, which is less where the first is less, or the second of equal first ones.
pub fn pair_of(first: u32, second: u32) -> u64
    ensures { result ≡ pair_of first second }
{
    first as u64 * 0x1_0000_0000 + second as u64
}

/// What rows are ordered by: the numbers of the texts, the class, and the place.
pub fn key_of(row: MemberRow) -> u128
    ensures { result ≡ key_of row }
{
    pair_of(row.name, row.desc) as u128 * 0x1_0000_0000_0000_0000
        + pair_of(row.class, row.place) as u128
}

/// Puts rows in the order of their keys.
pub fn put_in_order(rows: &mut Vec<MemberRow>)
    ensures moved { IsPermutation rows.old.items rows.new.items }
    ensures ascend { IsNonDecreasingBy key_of rows.new.items }
{
    rows.sort_unstable_by_key(|row| key_of(*row));
}

// Whether two rows are of the same name, descriptor and class.
fn are_alike(one: MemberRow, other: MemberRow) -> bool
    ensures alike { result ≡ true → AreAlike one other }
    ensures differ { result ≡ false → AreAlike one other → ⊥ }
{
    one.name == other.name && one.desc == other.desc && one.class == other.class
}

// Whether the row before the one at this place is like it.
fn is_repeat(rows: &[MemberRow], at: usize) -> bool
    requires { at < length rows.now }
    ensures repeat { result ≡ true → IsRepeat rows.now at }
    ensures first { result ≡ false → IsRepeat rows.now at → ⊥ }
{
    if at == 0 {
        return false;
    }
    are_alike(rows[at], rows[at - 1])
}

/// Of each name, descriptor and class the first row alone.
pub fn first_rows(alloc: Global, rows: &[MemberRow]) -> Result<Vec<MemberRow>, AllocError>
    requires { AreInOrder rows.now }
    ensures { IfOk result (λ firsts. AreFirst rows.now firsts.items) }
{
    let mut firsts = Vec::new(alloc);
    for at in 0..rows.len() {
        if !is_repeat(rows, at) {
            firsts.push(rows[at])?;
        }
    }
    Ok(firsts)
}

/// How many of the rows come before the first one with this key, or a higher one.
pub fn first_not_below(rows: &[MemberRow], key: u128) -> usize
    requires { AreInOrder rows.now }
    ensures bound { result ≤ length rows.now }
    ensures point { IsPartitionPoint (λ row. ltb (key_of row) key ≡ true) (λ row. ltb (key_of row) key ≡ false) rows.now result }
{
    rows.partition_point(|row| key_of(*row) < key)
}

// The place in a row, if the row is of these numbers.
fn place_if(row: MemberRow, name: u32, desc: u32, class: u32) -> Option<u32>
    ensures { IsAnswer row name desc class result }
{
    if row.name == name && row.desc == desc && row.class == class {
        Some(row.place)
    } else {
        None
    }
}

/// The least place of a row with these numbers, by halving.
pub fn place_in(rows: &[MemberRow], name: u32, desc: u32, class: u32) -> Option<u32>
    requires { AreInOrder rows.now }
    ensures { IsLeastOrNone rows.now name desc class result }
{
    let least = MemberRow {
        name,
        desc,
        class,
        place: 0,
    };
    let at = first_not_below(rows, key_of(least));
    if at == rows.len() {
        return None;
    }
    place_if(rows[at], name, desc, class)
}

/// The rows with these numbers of texts, by halving. Those of a class whose number is the highest are left out.
pub fn rows_with(rows: &[MemberRow], name: u32, desc: u32) -> &[MemberRow]
    requires { AreInOrder rows.now }
    ensures { AreRowsWith rows.now name desc result.now }
{
    let low = key_of(MemberRow {
        name,
        desc,
        class: 0,
        place: 0,
    });
    let high = key_of(MemberRow {
        name,
        desc,
        class: 4_294_967_295,
        place: 0,
    });
    let (_, rest) = rows.split_at(first_not_below(rows, low));
    let (found, _) = rest.split_at(first_not_below(rest, high));
    found
}
