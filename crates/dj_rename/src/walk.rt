//! The way through a pool, by which texts are appended.
ghost use Rattle.std.specs.Prelude.{◌≡◌, ◌+◌, ◌≤◌, [], ◌∷◌, length, map, false, Some, All, IfOk, IfErr};
ghost use Rattle.dj_pool.specs.trusted.Pool.{constant_at, IsPool};
ghost use Rattle.dj_pool.specs.Views.{constant_of};
ghost use Rattle.dj_pool.specs.Answers.{last_index};
ghost use Rattle.dj_rename.specs.Pools.{need_of, needs, needs_from, option_list, desc_need};
ghost use Rattle.dj_rename.specs.Refusals.{IsDescIndex, AreAppended, RefusesTexts};
ghost use Rattle.dj_rename.specs.Renaming.{wanted_need, has_text, IsWanted, IsState, PutsText, MeetsOne, Walks};

use crate::error::RenameError;
use crate::known::Known;
use crate::sought::{Sought, seek};
use crate::texts::Texts;
use crate::wanted::{Role, Wanted, wanted_of};
use dj_names::Name;
use dj_pool::{Entry, Pool};
use std::alloc::Global;

// The greatest index of a constant, since the count is one more and fits two bytes.
const LAST_INDEX: usize = 65534;

// The greatest length of a text (JVMS 4.4.7).
const MOST_BYTES: usize = 65535;

// Puts a text last, and answers its index.
fn put_text(
    alloc: Global,
    pool: &Pool<'_>,
    texts: &mut Texts,
    wanted: Wanted,
    text: &Name,
) -> Result<u16, RenameError>
    requires few { length pool.now + length texts.old ≤ last_index }
    requires text_is { text.now ≡ (wanted_need pool.now wanted).text }
    requires new { has_text texts.old text.now ≡ false }
    ensures { PutsText pool.now texts.old (wanted_need pool.now wanted) texts.new result }
{
    let index = pool.as_slice().len() + texts.count() + 1;
    if LAST_INDEX < index {
        return Err(RenameError::Full);
    }
    if MOST_BYTES < text.as_slice().len() {
        return Err(RenameError::Long(wanted.of));
    }
    texts.push(alloc, text.as_slice())?;
    Ok(index as u16)
}

// Puts the renamed text of an index last where it has to be and isn't there, and answers its index.
#[tactic(auto, using(crate::proofs::Walking::met_one))]
fn meet_text(
    alloc: Global,
    pool: &Pool<'_>,
    texts: &mut Texts,
    wanted: Wanted,
) -> Result<u16, RenameError>
    requires wanted { IsWanted pool.now wanted }
    requires few { length pool.now + length texts.old ≤ last_index }
    ensures { MeetsOne pool.now texts.old (wanted_need pool.now wanted) texts.new result }
{
    match seek(alloc, pool, texts, wanted)? {
        Sought::At(index) => Ok(index),
        Sought::New(text) => put_text(alloc, pool, texts, wanted, &text),
    }
}

// The same, unless it was done for this index before.
#[tactic(auto, using(crate::proofs::States::table_below, crate::proofs::States::known_steps))]
fn meet(
    alloc: Global,
    pool: &Pool<'_>,
    texts: &mut Texts,
    known: &mut Known,
    wanted: Wanted,
) -> Result<(), RenameError>
    requires wanted { IsWanted pool.now wanted }
    requires state { IsState pool.now texts.old known.old }
    ensures { Walks pool.now texts.old (wanted_need pool.now wanted ∷ []) texts.new known.new result }
{
    if known.get(wanted.role, wanted.index) != 0 {
        return Ok(());
    }
    let index = meet_text(alloc, pool, texts, wanted)?;
    known.set(wanted.role, wanted.index, index);
    Ok(())
}

// Puts the text last that the constant of an index needs.
#[tactic(auto, using(crate::proofs::PoolTexts::need_is, crate::proofs::PoolTexts::no_need, crate::proofs::PoolTexts::wanted_there, crate::proofs::Walking::steps_none))]
fn meet_entry(
    alloc: Global,
    pool: &Pool<'_>,
    texts: &mut Texts,
    known: &mut Known,
    of: u16,
    entry: &Entry<'_>,
) -> Result<(), RenameError>
    requires valid { IsPool pool.now }
    requires at { constant_at pool.now of ≡ Some (constant_of entry.now) }
    requires state { IsState pool.now texts.old known.old }
    ensures { Walks pool.now texts.old (option_list (need_of pool.now of (constant_of entry.now))) texts.new known.new result }
{
    match wanted_of(of, entry) {
        None => Ok(()),
        Some(wanted) => meet(alloc, pool, texts, known, wanted),
    }
}

// Puts the texts last that the constants need.
fn meet_constants(
    alloc: Global,
    pool: &Pool<'_>,
    texts: &mut Texts,
    known: &mut Known,
) -> Result<(), RenameError>
    requires valid { IsPool pool.now }
    requires state { IsState pool.now texts.old known.old }
    ensures { Walks pool.now texts.old (needs_from pool.now 1 pool.now) texts.new known.new result }
{
    for (place, entry) in pool.as_slice().iter().enumerate() {
        meet_entry(alloc, pool, texts, known, (place + 1) as u16, entry)?;
    }
    Ok(())
}

// Puts the texts last that the members' descriptors need.
fn meet_descs(
    alloc: Global,
    pool: &Pool<'_>,
    descs: &[u16],
    texts: &mut Texts,
    known: &mut Known,
) -> Result<(), RenameError>
    requires described { All (IsDescIndex pool.now) descs.now }
    requires state { IsState pool.now texts.old known.old }
    ensures { Walks pool.now texts.old (map (λ desc. desc_need pool.now desc desc) descs.now) texts.new known.new result }
{
    for desc in descs {
        let wanted = Wanted {
            of: *desc,
            index: *desc,
            role: Role::Desc,
        };
        meet(alloc, pool, texts, known, wanted)?;
    }
    Ok(())
}

// Puts the texts last that a class needs.
fn meet_all(
    alloc: Global,
    pool: &Pool<'_>,
    descs: &[u16],
    texts: &mut Texts,
    known: &mut Known,
) -> Result<(), RenameError>
    requires valid { IsPool pool.now }
    requires described { All (IsDescIndex pool.now) descs.now }
    requires state { IsState pool.now texts.old known.old }
    ensures { Walks pool.now texts.old (needs pool.now descs.now) texts.new known.new result }
{
    meet_constants(alloc, pool, texts, known)?;
    meet_descs(alloc, pool, descs, texts, known)
}

/// The texts that are appended to a class's constants: those of its classes and descriptors with `sandbox/` before each class's
/// name, where they differ, each once and in the order of need. `descs` has the indexes of its members' descriptors.
#[tactic(auto, using(crate::proofs::States::all_met, crate::proofs::States::not_met))]
pub fn rename_texts(alloc: Global, pool: &Pool<'_>, descs: &[u16]) -> Result<Texts, RenameError>
    requires valid { IsPool pool.now }
    requires described { All (IsDescIndex pool.now) descs.now }
    ensures ok { IfOk result (AreAppended pool.now descs.now) }
    ensures err { IfErr result (RefusesTexts pool.now descs.now) }
{
    let mut texts = Texts::new(alloc);
    let mut known = Known::new(alloc, pool.as_slice().len() + 1)?;
    meet_all(alloc, pool, descs, &mut texts, &mut known)?;
    Ok(texts)
}
