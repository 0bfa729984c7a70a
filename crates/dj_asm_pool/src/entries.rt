//! The entries of a pool from their keys.
ghost use Rattle.std.specs.Prelude.{◌≡◌, [], ◌∷◌, ◌++◌, map, IfOk, OnOk};
ghost use Rattle.dj_pool.specs.trusted.Pool.{indexed, takes_two};
ghost use Rattle.dj_pool.specs.Views.{constant_of};
ghost use Rattle.dj_asm_pool.specs.Pooling.{constant_of_key, constants_in};

use crate::key::Key;
use crate::texts::Texts;
use dj_pool::Entry;
use std::alloc::{AllocError, Global};

/// The entry of a key.
fn entry_of<'a>(texts: &'a Texts, key: Key) -> Entry<'a>
    ensures { constant_of result ≡ constant_of_key texts.now key }
{
    match key {
        Key::Utf8(number) => Entry::Utf8(texts.get(number)),
        Key::Integer(n) => Entry::Integer(n),
        Key::Long(n) => Entry::Long(n),
        Key::Class(name) => Entry::Class(name),
        Key::Text(text) => Entry::Text(text),
        Key::NameAndType(name, desc) => Entry::NameAndType(name, desc),
        Key::Field(class, names) => Entry::Field(class, names),
        Key::Method(class, names) => Entry::Method(class, names),
        Key::InterfaceMethod(class, names) => Entry::InterfaceMethod(class, names),
        Key::Dynamic(place, names) => Entry::Dynamic(place, names),
    }
}

/// Whether it takes two indexes (JVMS 4.4.5).
fn is_wide(entry: Entry<'_>) -> bool
    ensures { result ≡ takes_two (constant_of entry.entry) }
{
    match entry {
        Entry::Long(_) | Entry::Double(_) => true,
        _ => false,
    }
}

/// Appends an entry, and the hole after a long.
#[tactic(auto, using(crate::proofs::PoolEntries::pushed_narrow, crate::proofs::PoolEntries::pushed_wide))]
fn push_entry<'a>(entries: &mut Vec<Entry<'a>>, entry: Entry<'a>) -> Result<(), AllocError>
    ensures { OnOk result (map constant_of entries.new.items ≡ map constant_of entries.old.items ++ indexed (constant_of entry.entry ∷ [])) }
{
    let wide = is_wide(entry);
    entries.push(entry)?;
    if wide {
        entries.push(Entry::Hole)?;
    }
    Ok(())
}

/// The entries of keys, at their indexes.
#[tactic(auto, using(crate::proofs::PoolEntries::entries_more, crate::proofs::PoolEntries::indexed_more))]
pub(crate) fn entries_of<'a>(
    alloc: Global,
    texts: &'a Texts,
    keys: &[Key],
) -> Result<Vec<Entry<'a>>, AllocError>
    ensures { IfOk result (λ list. map constant_of list.items ≡ indexed (constants_in texts.now keys.now)) }
{
    let mut list = Vec::new(alloc);
    for key in keys {
        push_entry(&mut list, entry_of(texts, *key))?;
    }
    Ok(list)
}
