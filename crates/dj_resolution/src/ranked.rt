//! Classes by ranks: each has one above that of its superclass. So bits show at once which superclasses a class has.
ghost use Rattle.std.specs.Prelude.{◌≡◌, ℕ, ◌+◌, ◌<◌, ◌^◌, true, false, length, Some, IfOk, IfSome, MatchOption, OnOk};
ghost use Rattle.dj_model.specs.trusted.Linking.{most_classes};
ghost use Rattle.dj_resolution.specs.Numbers.{AreBelow, has, lists_of, most_above, numbers_up};
ghost use Rattle.dj_resolution.specs.Nearest.{IsNearestMarked};
ghost use Rattle.dj_resolution.specs.Ranked.{AreRanked, AreRanks, AreRanksOf, HasRow, IsRow, IsRowAbove, rank_in};

use crate::empty::empty_rows;
use crate::words::{has_bit, highest_common, put_bit};
use dj_class_table::ClassTable;
use std::alloc::{AllocError, Global};

/// Bits for each class take as many as there are pairs of classes. Where there are more classes there are none.
pub const MOST_ROWS: u32 = 8192;

/// Classes by their ranks.
#[derive(Drop)]
pub struct Ranks {
    /// The classes, by their ranks.
    pub classes: Vec<u32>,
    /// By the numbers of classes, their ranks.
    pub ranks: Vec<u32>,
    /// By the numbers of classes, the ranks of the class and its superclasses as bits. One without a rank has none.
    pub rows: Vec<Vec<u64>>,
}

// By the numbers of classes, their places in the order.
fn ranks_in(alloc: Global, count: u32, order: &[u32]) -> Result<Vec<u32>, AllocError>
    requires { AreBelow count order.now }
    ensures { IfOk result (λ ranks. length ranks.items ≡ count) }
{
    let mut ranks = vec![in alloc; 0; count as usize]?;
    for rank in 0..count {
        let Some(&class) = order.get(rank as usize) else {
            break;
        };
        ranks[class as usize] = rank;
    }
    Ok(ranks)
}

fn copied(alloc: Global, row: &[u64]) -> Result<Vec<u64>, AllocError>
    ensures { IfOk result (λ copy. copy.items ≡ row.now) }
{
    let mut copy = Vec::with_capacity(alloc, row.len())?;
    copy.extend_from_slice(row)?;
    Ok(copy)
}

// The ranks of the superclasses of a class as bits, where they are known and below its rank.
fn row_above(
    alloc: Global,
    table: &ClassTable,
    ranks: &[u32],
    rows: &[Vec<u64>],
    class: u32,
    rank: u32,
) -> Result<Option<Vec<u64>>, AllocError>
    requires few { length table.now < 2 ^ 31 }
    requires there { class < length table.now }
    requires rank { rank < length table.now }
    requires ranks_count { length ranks.now ≡ length table.now }
    requires rows_count { length rows.now ≡ length table.now }
    requires rows { (k : ℕ) → HasRow (lists_of rows.now) k → IsRow table.now ranks.now (lists_of rows.now) rank k }
    ensures { IfOk result (λ found. IfSome found (λ row. IsRowAbove table.now ranks.now (lists_of rows.now) class rank row.items)) }
{
    let Some(next) = table.super_of(class) else {
        return Ok(Some(vec![in alloc; 0; rows.len() / 64 + 1]?));
    };
    let above = rows[next as usize].as_slice();
    if above.is_empty() || ranks[next as usize] >= rank {
        return Ok(None);
    }
    Ok(Some(copied(alloc, above)?))
}

// The bits of the class of a rank, where those of its superclass are known.
fn learn(
    alloc: Global,
    table: &ClassTable,
    order: &[u32],
    ranks: &[u32],
    rows: &mut [Vec<u64>],
    rank: u32,
) -> Result<(), AllocError>
    requires few { length table.now < 2 ^ 31 }
    requires below { AreBelow (length table.now) order.now }
    requires there { rank < length order.now }
    requires within { rank < length table.now }
    requires ranked { AreRanked table.now order.now ranks.now (lists_of rows.old) rank }
    ensures { OnOk result (AreRanked table.now order.now ranks.now (lists_of rows.new) (rank + 1)) }
{
    let class = order[rank as usize];
    if ranks[class as usize] != rank {
        return Ok(());
    }
    let Some(mut row) = row_above(alloc, table, ranks, rows, class, rank)? else {
        return Ok(());
    };
    put_bit(&mut row, rank);
    rows[class as usize] = row;
    Ok(())
}

// The bits of the classes, which have these ranks in the order.
fn rows_of(
    alloc: Global,
    table: &ClassTable,
    order: &[u32],
    ranks: &[u32],
) -> Result<Vec<Vec<u64>>, AllocError>
    requires below { AreBelow (length table.now) order.now }
    requires count { length ranks.now ≡ length table.now }
    ensures { IfOk result (λ rows. AreRanks table.now order.now ranks.now (lists_of rows.items)) }
{
    let count = table.class_count();
    let mut rows = empty_rows(alloc, count as usize)?;
    if count > MOST_ROWS {
        return Ok(rows);
    }
    for rank in 0..count {
        if rank as usize >= order.len() {
            return Ok(rows);
        }
        learn(alloc, table, order, ranks, &mut rows, rank)?;
    }
    Ok(rows)
}

impl Ranks {
    /// The ranks of the classes are their places in this order: one that comes before its superclass has none.
    pub fn of(alloc: Global, table: &ClassTable, order: Vec<u32>) -> Result<Ranks, AllocError>
        requires { AreBelow (length table.now) order.items }
        ensures { IfOk result (AreRanksOf table.now) }
    {
        let ranks = ranks_in(alloc, table.class_count(), &order)?;
        let rows = rows_of(alloc, table, &order, &ranks)?;
        Ok(Ranks {
            classes: order,
            ranks,
            rows,
        })
    }

    // The rank of a class for which there are bits.
    fn rank_of(&self, table: &ClassTable, class: u32) -> Option<u32>
        requires { AreRanksOf table.now self.now }
        ensures { MatchOption result (HasRow (lists_of self.now.rows.items) class → ⊥) (λ rank. HasRow (lists_of self.now.rows.items) class × (rank ≡ rank_in self.now.ranks.items class)) }
    {
        let _ = table;
        if class as usize >= self.rows.len() || self.rows[class as usize].is_empty() {
            return None;
        }
        Some(self.ranks[class as usize])
    }

    /// Whether there are bits for a class.
    pub fn has_row(&self, table: &ClassTable, class: u32) -> bool
        requires there { class < length table.now }
        requires ranks { AreRanksOf table.now self.now }
        ensures { result ≡ true → HasRow (lists_of self.now.rows.items) class }
    {
        self.rank_of(table, class).is_some()
    }

    /// The rank of the other class, where it is the class, which has bits, or one of its superclasses.
    pub fn rank_up(&self, table: &ClassTable, class: u32, other: u32) -> Option<u32>
        requires there { class < length table.now }
        requires ranks { AreRanksOf table.now self.now }
        requires known { HasRow (lists_of self.now.rows.items) class }
        ensures { MatchOption result (has (numbers_up most_classes table.now (Some class)) other ≡ false)
            (λ rank. (has (numbers_up most_classes table.now (Some class)) other ≡ true) × (rank ≡ rank_in self.now.ranks.items other)) }
    {
        let Some(rank) = self.rank_of(table, other) else {
            return None;
        };
        if has_bit(&self.rows[class as usize], rank) {
            Some(rank)
        } else {
            None
        }
    }

    /// Whether a class is the other one or has it among its superclasses, where its rank is known.
    pub fn is_up(&self, table: &ClassTable, class: u32, other: u32) -> Option<bool>
        requires there { class < length table.now }
        requires ranks { AreRanksOf table.now self.now }
        ensures { IfSome result (λ up. up ≡ has (numbers_up most_above table.now (Some class)) other) }
    {
        let row = self.rows[class as usize].as_slice();
        if row.is_empty() {
            return None;
        }
        match self.rank_of(table, other) {
            Some(rank) => Some(has_bit(row, rank)),
            None => Some(false),
        }
    }

    /// The nearest class with a marked rank, from the class upward. It is known where the class has bits.
    pub fn nearest_marked(
        &self,
        table: &ClassTable,
        class: u32,
        marks: &[u64],
    ) -> Option<Option<u32>>
        requires there { class < length table.now }
        requires ranks { AreRanksOf table.now self.now }
        requires known { HasRow (lists_of self.now.rows.items) class }
        ensures { IfSome result (IsNearestMarked (numbers_up most_classes table.now (Some class)) self.now.ranks.items marks.now) }
    {
        let _ = table.class_count();
        let Some(rank) = highest_common(&self.rows[class as usize], marks) else {
            return Some(None);
        };
        let Some(&near) = self.classes.get(rank as usize) else {
            return None;
        };
        Some(Some(near))
    }
}
