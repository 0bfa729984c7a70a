//! Pools with renamed texts.
ghost use Rattle.std.specs.Prelude.{◌≡◌, ◌+◌, ◌<◌, ◌≤◌, ℕ, [], ◌++◌, map, length, get_or, slice_get, Some, All, IfOk, IfErr, OnOk};
ghost use Rattle.dj_pool.specs.trusted.Pool.{Utf8, IsWhole, IsPool};
ghost use Rattle.dj_pool.specs.Views.{constant_of};
ghost use Rattle.dj_pool.specs.Answers.{last_index, MayHaveText, Redirects};
ghost use Rattle.dj_rename.specs.Pools.{desc_need, new_index, renamed_pool, renamed_descs};
ghost use Rattle.dj_rename.specs.Refusals.{IsDescIndex, AreAppended};
ghost use Rattle.dj_rename.specs.Renaming.{wanted_need, IsWanted, IsSettled, IsState};
ghost use Rattle.dj_rename.specs.Redirecting.{AreSettled, IsHalfway};

use crate::accounter::append_one;
use crate::error::RenameError;
use crate::known::Known;
use crate::sought::{Sought, seek};
use crate::texts::Texts;
use crate::wanted::{Role, Wanted, wanted_of};
use dj_pool::{Entry, Indexes, Pool};
use std::alloc::Global;

/// A class's constants with renamed texts, and the new indexes of its members' descriptors.
#[derive(Drop)]
pub struct Renamed<'t> {
    pub pool: Pool<'t>,
    pub descs: Indexes,
}

// Appends texts.
fn append_texts<'t>(now: &mut Pool<'t>, texts: &'t Texts) -> Result<(), RenameError>
    requires pool { IsPool now.old }
    requires few { length now.old + length texts.now ≤ last_index }
    requires whole { (place : ℕ) → place < length texts.now → IsWhole (Utf8 (get_or texts.now place [])) }
    ensures ok { OnOk result (now.new ≡ now.old ++ map Utf8 texts.now) }
    ensures pool { OnOk result (IsPool now.new) }
    ensures err { IfErr result (λ e. e ≡ RenameError.Memory) }
{
    for place in 0..texts.count() {
        append_one(now, Entry::Utf8(texts.get(place)))?;
    }
    Ok(())
}

// A copy of the constants with the texts after them.
#[tactic(auto, using(crate::proofs::Halfway::half_first))]
fn with_texts<'t>(alloc: Global, pool: &Pool<'t>, texts: &'t Texts) -> Result<Pool<'t>, RenameError>
    requires valid { IsPool pool.now }
    requires few { length pool.now + length texts.now ≤ last_index }
    requires whole { (place : ℕ) → place < length texts.now → IsWhole (Utf8 (get_or texts.now place [])) }
    ensures ok { IfOk result (IsHalfway pool.now texts.now 0) }
    ensures err { IfErr result (λ e. e ≡ RenameError.Memory) }
{
    let Ok(mut now) = pool.copy(alloc) else {
        return Err(RenameError::Memory);
    };
    append_texts(&mut now, texts)?;
    Ok(now)
}

// The index of the renamed text of an index.
#[tactic(auto, using(crate::proofs::States::table_below, crate::proofs::States::known_index, crate::proofs::States::not_new))]
fn renamed_index(
    alloc: Global,
    pool: &Pool<'_>,
    texts: &Texts,
    known: &mut Known,
    wanted: Wanted,
) -> Result<u16, RenameError>
    requires wanted { IsWanted pool.now wanted }
    requires settled { IsSettled pool.now texts.now (wanted_need pool.now wanted) }
    requires state { IsState pool.now texts.now known.old }
    ensures ok { IfOk result (λ index. index ≡ new_index pool.now texts.now (wanted_need pool.now wanted)) }
    ensures state { OnOk result (IsState pool.now texts.now known.new) }
    ensures err { IfErr result (λ e. e ≡ RenameError.Memory) }
{
    let before = known.get(wanted.role, wanted.index);
    if before != 0 {
        return Ok(before);
    }
    match seek(alloc, pool, texts, wanted)? {
        Sought::New(_) => unreachable!(),
        Sought::At(index) => {
            known.set(wanted.role, wanted.index, index);
            Ok(index)
        }
    }
}

// Gives the constant of an index the renamed text.
fn redirect(now: &mut Pool<'_>, of: u16, index: u16) -> Result<(), RenameError>
    requires { MayHaveText now.old of index }
    ensures ok { OnOk result (Redirects now.old of index now.new) }
    ensures err { IfErr result (λ e. e ≡ RenameError.Memory) }
{
    match now.redirect(of, index) {
        Ok(()) => Ok(()),
        Err(_) => Err(RenameError::Memory),
    }
}

// Gives the constant at a place its renamed text, where it names one.
#[tactic(auto, using(crate::proofs::Halfway::may_at, crate::proofs::PoolTexts::wanted_at, crate::proofs::PoolTexts::place_low, crate::proofs::Settled::settled_at))]
fn redirect_one(
    alloc: Global,
    pool: &Pool<'_>,
    texts: &Texts,
    known: &mut Known,
    place: usize,
    entry: &Entry<'_>,
    now: &mut Pool<'_>,
) -> Result<(), RenameError>
    requires valid { IsPool pool.now }
    requires at { slice_get pool.now place ≡ Some (constant_of entry.now) }
    requires settled { AreSettled pool.now texts.now }
    requires state { IsState pool.now texts.now known.old }
    requires half { IsHalfway pool.now texts.now place now.old }
    ensures half { OnOk result (IsHalfway pool.now texts.now (place + 1) now.new) }
    ensures state { OnOk result (IsState pool.now texts.now known.new) }
    ensures err { IfErr result (λ e. e ≡ RenameError.Memory) }
{
    let of = (place + 1) as u16;
    match wanted_of(of, entry) {
        None => Ok(()),
        Some(wanted) => {
            let index = renamed_index(alloc, pool, texts, known, wanted)?;
            redirect(now, of, index)
        }
    }
}

// Gives each constant its renamed text, where it names one.
fn redirect_all(
    alloc: Global,
    pool: &Pool<'_>,
    texts: &Texts,
    known: &mut Known,
    now: &mut Pool<'_>,
) -> Result<(), RenameError>
    requires valid { IsPool pool.now }
    requires settled { AreSettled pool.now texts.now }
    requires state { IsState pool.now texts.now known.old }
    requires half { IsHalfway pool.now texts.now 0 now.old }
    ensures half { OnOk result (IsHalfway pool.now texts.now (length pool.now) now.new) }
    ensures state { OnOk result (IsState pool.now texts.now known.new) }
    ensures err { IfErr result (λ e. e ≡ RenameError.Memory) }
{
    for (place, entry) in pool.as_slice().iter().enumerate() {
        redirect_one(alloc, pool, texts, known, place, entry, now)?;
    }
    Ok(())
}

// The indexes of the renamed descriptors.
fn new_descs(
    alloc: Global,
    pool: &Pool<'_>,
    descs: &[u16],
    texts: &Texts,
    known: &mut Known,
) -> Result<Indexes, RenameError>
    requires described { All (IsDescIndex pool.now) descs.now }
    requires settled { All (λ desc. IsSettled pool.now texts.now (desc_need pool.now desc desc)) descs.now }
    requires state { IsState pool.now texts.now known.old }
    ensures ok { IfOk result (λ indexes. indexes ≡ renamed_descs pool.now texts.now descs.now) }
    ensures err { IfErr result (λ e. e ≡ RenameError.Memory) }
{
    let mut indexes = Indexes::new(alloc);
    for desc in descs {
        let wanted = Wanted {
            of: *desc,
            index: *desc,
            role: Role::Desc,
        };
        indexes.push(renamed_index(alloc, pool, texts, known, wanted)?)?;
    }
    Ok(indexes)
}

/// The constants of a class with its renamed texts after them, which are those of `rename_texts`; each constant of a class, a name and
/// descriptor or a method's type names its renamed text. `descs` has the indexes of the members' descriptors.
#[tactic(auto, using(crate::proofs::Settled::are_settled, crate::proofs::Halfway::renamed_from))]
pub fn rename_pool<'t>(
    alloc: Global,
    pool: &Pool<'t>,
    descs: &[u16],
    texts: &'t Texts,
) -> Result<Renamed<'t>, RenameError>
    requires valid { IsPool pool.now }
    requires described { All (IsDescIndex pool.now) descs.now }
    requires appended { AreAppended pool.now descs.now texts.now }
    ensures pool { IfOk result (λ renamed. renamed.pool ≡ renamed_pool pool.now texts.now) }
    ensures valid { IfOk result (λ renamed. IsPool renamed.pool) }
    ensures descs { IfOk result (λ renamed. renamed.descs ≡ renamed_descs pool.now texts.now descs.now) }
    ensures err { IfErr result (λ e. e ≡ RenameError.Memory) }
{
    let mut known = Known::new(alloc, pool.as_slice().len() + 1)?;
    let mut now = with_texts(alloc, pool, texts)?;
    redirect_all(alloc, pool, texts, &mut known, &mut now)?;
    let descs = new_descs(alloc, pool, descs, texts, &mut known)?;
    Ok(Renamed { pool: now, descs })
}
