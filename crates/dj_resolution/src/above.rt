ghost use Rattle.std.specs.Prelude.{◌≡◌, ◌+◌, ◌<◌, ◌≤◌, ◌^◌, ℕ, false, true, [], length, replicate, get_or, IfOk, OnOk};
ghost use Rattle.dj_resolution.specs.Bits.{HaveBits, words_for};
ghost use Rattle.dj_resolution.specs.Numbers.{AreAbove, AreBelow, AreKnown, IsEnough, lists_of, marked_count, once_above, with_above};

use crate::empty::{empty_lists, empty_rows};
use crate::numbers::Numbers;
use crate::order::order_of;
use dj_class_table::ClassTable;
use std::alloc::{AllocError, Global};

// For each class, by its number, the interfaces above it, each once, and these as bits, where they are known.
#[derive(Drop)]
struct Known {
    lists: Vec<Vec<u32>>,
    rows: Vec<Vec<u64>>,
    marks: Vec<bool>,
}

impl Known {
    fn none(alloc: Global, count: usize) -> Result<Known, AllocError>
        ensures lists { IfOk result (λ known. lists_of known.lists.items ≡ replicate count []) }
        ensures rows { IfOk result (λ known. length (lists_of known.rows.items) ≡ count) }
        ensures marks { IfOk result (λ known. known.marks.items ≡ replicate count false) }
    {
        let lists = empty_lists(alloc, count)?;
        let rows = empty_rows(alloc, count)?;
        let marks = vec![in alloc; false; count]?;
        Ok(Known { lists, rows, marks })
    }

    // Adds an interface and those above it to the numbers. Where all of them are there already, their list isn't gone through.
    fn add_above(&self, numbers: &mut Numbers, class: u32) -> Result<(), AllocError>
        requires lists { length self.now.lists.items ≡ length self.now.marks.items }
        requires bits { HaveBits (lists_of self.now.lists.items) (lists_of self.now.rows.items) self.now.marks.items }
        requires bound { length numbers.old.bits.items ≡ words_for (length self.now.marks.items) }
        requires there { class < length self.now.marks.items }
        requires below { (k : ℕ) → get_or self.now.marks.items k false ≡ true → AreBelow (length self.now.marks.items) (get_or (lists_of self.now.lists.items) k []) }
        ensures known { OnOk result (get_or self.now.marks.items class false ≡ true) }
        ensures list { OnOk result (numbers.new.list.items ≡ with_above (lists_of self.now.lists.items) numbers.old.list.items class) }
        ensures bound { OnOk result (length numbers.new.bits.items ≡ length numbers.old.bits.items) }
    {
        if !self.marks[class as usize] {
            return Err(AllocError);
        }
        if numbers.has(class) {
            return Ok(());
        }
        numbers.add(class)?;
        if numbers.has_all(&self.rows[class as usize]) {
            return Ok(());
        }
        numbers.add_all(&self.lists[class as usize])
    }

    // The interfaces above a class, where those that it lists are known.
    fn above(&self, alloc: Global, table: &ClassTable, class: u32) -> Result<Numbers, AllocError>
        requires few { length table.now < 2 ^ 31 }
        requires there { class < length table.now }
        requires known { AreKnown table.now (lists_of self.now.lists.items) self.now.marks.items }
        requires bits { HaveBits (lists_of self.now.lists.items) (lists_of self.now.rows.items) self.now.marks.items }
        ensures list { IfOk result (λ numbers. numbers.list.items ≡ once_above table.now class) }
        ensures bound { IfOk result (λ numbers. length numbers.bits.items ≡ words_for (length self.now.marks.items)) }
        ensures enough { OnOk result (IsEnough table.now (marked_count self.now.marks.items + 1) class) }
    {
        let mut numbers = Numbers::below(alloc, self.marks.len())?;
        for listed in table.interfaces_of(class) {
            self.add_above(&mut numbers, *listed)?;
        }
        Ok(numbers)
    }

    // The class is known too.
    fn learn(&mut self, alloc: Global, table: &ClassTable, class: u32) -> Result<(), AllocError>
        requires few { length table.now < 2 ^ 31 }
        requires there { class < length table.now }
        requires known { AreKnown table.now (lists_of self.old.lists.items) self.old.marks.items }
        requires bits { HaveBits (lists_of self.old.lists.items) (lists_of self.old.rows.items) self.old.marks.items }
        ensures known { OnOk result (AreKnown table.now (lists_of self.new.lists.items) self.new.marks.items) }
        ensures bits { OnOk result (HaveBits (lists_of self.new.lists.items) (lists_of self.new.rows.items) self.new.marks.items) }
    {
        if !self.marks[class as usize] {
            let Numbers { list, bits } = self.above(alloc, table, class)?;
            self.lists[class as usize] = list;
            self.rows[class as usize] = bits;
            self.marks[class as usize] = true;
        }
        Ok(())
    }
}

// What can be known of the classes, each after the interfaces that it lists.
fn learn_all(alloc: Global, table: &ClassTable) -> Result<Known, AllocError>
    ensures { IfOk result (λ known. AreKnown table.now (lists_of known.lists.items) known.marks.items) }
{
    let mut known = Known::none(alloc, table.class_count() as usize)?;
    let order = order_of(alloc, table)?;
    for class in &order {
        known.learn(alloc, table, *class)?;
    }
    Ok(known)
}

/// For each class, by its number, the interfaces above it, each once. Where a class is its own ancestor it is want of memory.
pub fn interfaces_above(alloc: Global, table: &ClassTable) -> Result<Vec<Vec<u32>>, AllocError>
    ensures { IfOk result (λ lists. AreAbove table.now (lists_of lists.items)) }
{
    let Known {
        lists,
        rows: _,
        marks,
    } = learn_all(alloc, table)?;
    for mark in &marks {
        if !*mark {
            return Err(AllocError);
        }
    }
    Ok(lists)
}
