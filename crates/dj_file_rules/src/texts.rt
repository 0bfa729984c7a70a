ghost use Rattle.std.specs.Prelude.{◌≡◌, ℕ, ◌↔◌, map, Contains, IfOk};
ghost use Rattle.dj_pool.specs.trusted.Pool.{text_at};
ghost use Rattle.dj_file_rules.specs.Lines.{texts_of, turned_texts_of, HaveSameTexts};

use crate::error::RulesError;
use dj_pool::Pool;
use std::alloc::Global;
use std::collections::BTreeMap;
use std::collections::btree_map::Entry;

// The index that the map has for the text; where it has none, this index is put in.
fn first_index<'p>(
    indexes: &mut BTreeMap<&'p [u8], u16>,
    pool: &Pool<'p>,
    index: u16,
) -> Result<u16, RulesError>
    ensures { IfOk result (λ first. text_at pool.now first ≡ text_at pool.now index) }
{
    let Some(text) = pool.text(index) else {
        return Ok(index);
    };
    let first = match indexes.entry(text)? {
        Entry::Occupied(found) => *found.get(),
        Entry::Vacant(room) => *room.insert(index),
    };
    if pool.text(first) == Some(text) {
        Ok(first)
    } else {
        Ok(index)
    }
}

// The pairs in reverse order, and in each, in place of its first index, the index that was met first with the same text. Pairs with
// the same first index are next to each other, so that a text is looked up once for each index and not once for each use.
fn turned(
    alloc: Global,
    pool: &Pool<'_>,
    pairs: &[(u16, u16)],
) -> Result<Vec<(u16, u16)>, RulesError>
    ensures { IfOk result (λ turned. map (turned_texts_of pool.now) turned.items ≡ map (texts_of pool.now) pairs.now) }
{
    let mut indexes = BTreeMap::new(alloc);
    let mut turned = Vec::new(alloc);
    let mut index = 0;
    let mut first = 0;
    for pair in pairs {
        if pair.0 != index {
            first = first_index(&mut indexes, pool, pair.0)?;
            index = pair.0;
        }
        turned.push((pair.1, first))?;
    }
    Ok(turned)
}

/// The pairs in order, each once.
pub fn each_once(mut pairs: Vec<(u16, u16)>) -> Vec<(u16, u16)>
    ensures { (pair : ℕ × ℕ) → Contains result.items pair ↔ Contains pairs.items pair }
{
    pairs.sort_unstable();
    pairs.dedup();
    pairs
}

/// Pairs of indexes that have the texts of these pairs. A pool may have a text under many indexes; one of these represents all of them,
/// so that there are no more pairs of indexes than pairs of texts.
pub fn each_text_once(
    alloc: Global,
    pool: &Pool<'_>,
    pairs: Vec<(u16, u16)>,
) -> Result<Vec<(u16, u16)>, RulesError>
    ensures { IfOk result (λ once. HaveSameTexts pool.now once.items pairs.items) }
{
    let by_name = turned(alloc, pool, &each_once(pairs))?;
    let by_descriptor = turned(alloc, pool, &each_once(by_name))?;
    Ok(each_once(by_descriptor))
}
