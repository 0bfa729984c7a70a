//! Constants in the order of their indexes, each once.
ghost use Rattle.std.specs.Prelude.{◌≡◌, [], nat_lt};
ghost use Rattle.dj_asm_pool.specs.Keys.{next_index, most_next, AddsKey, IsWithin, FindsKey};

use crate::key::{Key, width};
use indexmap::IndexMap;
use std::alloc::{AllocError, Global};
use std::marker::Model;

// The index after all constants is at most this (JVMS 4.1, constant_pool_count).
const MOST_NEXT: u32 = 65535;

/// Constants with their indexes, in the order of these, each once.
#[derive(Drop)]
pub(crate) struct Places {
    indexes: IndexMap<Key, u16>,
    next: u32,
}

impl Model for Places {
    ghost use Rattle.std.specs.Prelude.{List};
    ghost use Rattle.std.specs.Map.{keys_of};
    ghost use Rattle.dj_asm_pool.specs.Keys.{IsNumbered};
    ghost use Rattle.dj_asm_pool.specs.declared.key.Key.{Key};

    ghost Value = { List Key };

    ghost view = { λ places. keys_of places.indexes.entries };

    ghost invariant = { λ places. IsNumbered places.indexes.entries places.next };
}

impl Places {
    /// No constants.
    pub(crate) fn new(alloc: Global) -> Places
        ensures { result ≡ [] }
    {
        Places {
            indexes: IndexMap::new(alloc),
            next: 1,
        }
    }

    /// The constants, borrowed.
    pub(crate) fn as_slice(&self) -> &[Key]
        ensures { result.now ≡ self.now }
    {
        self.indexes.keys().as_slice()
    }

    /// Whether the index after all constants is past the greatest, so that nothing more is kept.
    pub(crate) fn is_full(&self) -> bool
        ensures { result ≡ nat_lt most_next (next_index self.now) }
    {
        MOST_NEXT < self.next
    }

    /// The index of a constant that is there, where it ends within the most.
    pub(crate) fn find(&self, key: Key) -> Option<u16>
        ensures { FindsKey self.now key result }
    {
        match self.indexes.get(&key) {
            Some(index) => within(key, *index),
            None => None,
        }
    }

    /// The index of a constant, where it ends within the most. It is put last unless it is there, or one before it ends past the most.
    pub(crate) fn add(&mut self, key: Key) -> Result<Option<u16>, AllocError>
        ensures { AddsKey self.old key self.new result }
    {
        if let Some(index) = self.indexes.get(&key) {
            return Ok(within(key, *index));
        }
        if MOST_NEXT < self.next {
            return Ok(None);
        }
        let index = self.next as u16;
        self.indexes.insert(key, index)?;
        self.next += width(key);
        Ok(within(key, index))
    }
}

/// The index, where the constant ends within the most.
fn within(key: Key, index: u16) -> Option<u16>
    ensures { IsWithin key index result }
{
    if index as u32 + width(key) <= MOST_NEXT {
        Some(index)
    } else {
        None
    }
}
