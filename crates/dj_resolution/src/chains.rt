ghost use Rattle.std.specs.Prelude.{◌≡◌, IfOk};
ghost use Rattle.dj_resolution.specs.Bits.{HaveRows};
ghost use Rattle.dj_resolution.specs.Numbers.{AreBelow, first_places, lists_of, with_all};

use crate::empty::empty_rows;
use crate::numbers::{Numbers, is_among};
use crate::ranked::MOST_ROWS;
use crate::words::may_have_bit;
use dj_class_table::ClassTable;
use std::alloc::{AllocError, Global};

/// For each class, by its number, the place of its list: the rows of the class and its superclasses in turn, each number once. Classes may share a list, and one whose superclasses go round has none.
#[derive(Drop)]
pub struct Chains {
    pub lists: Vec<Vec<u32>>,
    pub places: Vec<Option<usize>>,
    // By the places of lists, their numbers as bits. Where there are too many classes there are none.
    bits: Vec<Vec<u64>>,
    ghost marked: { HaveRows (lists_of lists.items) (lists_of bits.items) },
}

// The numbers of both lists, each once, where it comes first.
fn joined(alloc: Global, bound: usize, row: &[u32], above: &[u32]) -> Result<Numbers, AllocError>
    requires row { AreBelow bound row.now }
    requires above { AreBelow bound above.now }
    ensures { IfOk result (λ numbers. numbers.list.items ≡ with_all (first_places row.now) above.now) }
{
    let mut numbers = Numbers::below(alloc, bound)?;
    numbers.add_all(row)?;
    numbers.add_all(above)?;
    Ok(numbers)
}

impl Chains {
    ghost use Rattle.std.specs.Prelude.{◌<◌, ◌^◌, ◌++◌, ◌∷◌, [], length, replicate, set, Some, None, IfSome, OnOk, slice_get, get_or, option_and_then};
    ghost use Rattle.std.specs.Option.{option_map};
    ghost use Rattle.dj_class_table.specs.Tables.{super_number};
    ghost use Rattle.dj_resolution.specs.Numbers.{AreInside, has};
    ghost use Rattle.dj_resolution.specs.Chained.{AreLearnt, AreListsOf, row_at};

    // No list is known.
    fn none(alloc: Global, count: usize) -> Result<Chains, AllocError>
        ensures lists { IfOk result (λ chains. lists_of chains.lists.items ≡ []) }
        ensures places { IfOk result (λ chains. chains.places.items ≡ replicate count None) }
    {
        let places = vec![in alloc; None; count]?;
        let with_bits = if count > MOST_ROWS as usize { 0 } else { count };
        let bits = empty_rows(alloc, with_bits)?;
        Ok(Chains {
            lists: Vec::new(alloc),
            places,
            bits,
        })
    }

    // A class has a list of its own.
    fn put(&mut self, class: u32, numbers: Numbers) -> Result<(), AllocError>
        requires { class < length self.old.places.items }
        ensures lists { OnOk result (lists_of self.new.lists.items ≡ lists_of self.old.lists.items ++ numbers.list.items ∷ []) }
        ensures places { OnOk result (self.new.places.items ≡ set self.old.places.items class (Some (length (lists_of self.old.lists.items)))) }
    {
        let Numbers { list, bits } = numbers;
        let place = self.lists.len();
        self.lists.push(list)?;
        if place < self.bits.len() {
            self.bits[place] = bits;
        }
        self.places[class as usize] = Some(place);
        Ok(())
    }

    // The list of a class whose superclass is this one, where that one's is known.
    fn learn_below(
        &mut self,
        alloc: Global,
        table: &ClassTable,
        rows: &[Vec<u32>],
        class: u32,
        next: u32,
    ) -> Result<(), AllocError>
        requires few { length table.now < 2 ^ 31 }
        requires there { class < length table.now }
        requires next { super_number table.now class ≡ Some next }
        requires new { get_or self.old.places.items class None ≡ None }
        requires rows { AreInside (length table.now) (lists_of rows.now) }
        requires learnt { AreLearnt table.now (row_at (lists_of rows.now)) (lists_of self.old.lists.items) self.old.places.items }
        ensures { OnOk result (AreLearnt table.now (row_at (lists_of rows.now)) (lists_of self.new.lists.items) self.new.places.items) }
    {
        let Some(place) = self.places[next as usize] else {
            return Ok(());
        };
        let row = rows[class as usize].as_slice();
        if row.is_empty() {
            self.places[class as usize] = Some(place);
            return Ok(());
        }
        let numbers = joined(alloc, rows.len(), row, &self.lists[place])?;
        self.put(class, numbers)
    }

    // The list of a class, where that of its superclass is known.
    fn learn(
        &mut self,
        alloc: Global,
        table: &ClassTable,
        rows: &[Vec<u32>],
        class: u32,
    ) -> Result<(), AllocError>
        requires few { length table.now < 2 ^ 31 }
        requires there { class < length table.now }
        requires rows { AreInside (length table.now) (lists_of rows.now) }
        requires learnt { AreLearnt table.now (row_at (lists_of rows.now)) (lists_of self.old.lists.items) self.old.places.items }
        ensures { OnOk result (AreLearnt table.now (row_at (lists_of rows.now)) (lists_of self.new.lists.items) self.new.places.items) }
    {
        if self.places[class as usize].is_some() {
            return Ok(());
        }
        if let Some(next) = table.super_of(class) {
            return self.learn_below(alloc, table, rows, class, next);
        }
        let numbers = joined(alloc, rows.len(), &rows[class as usize], &[])?;
        self.put(class, numbers)
    }

    /// The lists of the classes, which come in this order: one that comes before its superclass has none.
    pub fn of(
        alloc: Global,
        table: &ClassTable,
        order: &[u32],
        rows: &[Vec<u32>],
    ) -> Result<Chains, AllocError>
        requires order { AreBelow (length table.now) order.now }
        requires rows { AreInside (length table.now) (lists_of rows.now) }
        ensures { IfOk result (AreListsOf table.now (row_at (lists_of rows.now))) }
    {
        let mut chains = Chains::none(alloc, table.class_count() as usize)?;
        for class in order {
            chains.learn(alloc, table, rows, *class)?;
        }
        Ok(chains)
    }

    /// The list of a class, where it is known.
    pub fn list_of(&self, class: u32) -> Option<&[u32]>
        requires { class < length self.now.places.items }
        ensures { option_map (λ list. list.now) result ≡ option_and_then (slice_get (lists_of self.now.lists.items)) (get_or self.now.places.items class None) }
    {
        let place = self.places[class as usize]?;
        match self.lists.get(place) {
            Some(list) => Some(list.as_slice()),
            None => None,
        }
    }

    // Whether the list at a place has this number, where it has bits.
    fn has_bit_at(&self, place: usize, number: u32) -> Option<bool>
        requires { place < length (lists_of self.now.lists.items) }
        ensures { IfSome result (λ there. there ≡ has (get_or (lists_of self.now.lists.items) place []) number) }
    {
        let row = self.bits.get(place)?;
        if row.is_empty() {
            return None;
        }
        Some(may_have_bit(row, number))
    }

    /// Whether the list of a class has this number, where the list is known.
    pub fn has(&self, class: u32, number: u32) -> Option<bool>
        requires { class < length self.now.places.items }
        ensures { result ≡ option_map (λ list. has list number) (option_and_then (slice_get (lists_of self.now.lists.items)) (get_or self.now.places.items class None)) }
    {
        let place = self.places[class as usize]?;
        let list = self.lists.get(place)?;
        match self.has_bit_at(place, number) {
            Some(there) => Some(there),
            // There are too many classes for bits.
            None => Some(is_among(list, number)),
        }
    }
}
