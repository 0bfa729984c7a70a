//! Where the renamed text of an index stands.
ghost use Rattle.std.specs.Prelude.{◌≡◌, ◌+◌, ◌<◌, ◌≤◌, length, IfOk};
ghost use Rattle.dj_declarations.specs.trusted.Files.{name_in};
ghost use Rattle.dj_pool.specs.Answers.{last_index};
ghost use Rattle.dj_rename.specs.Renaming.{respelled, IsWanted, IsSought, wanted_need};

use crate::texts::Texts;
use crate::wanted::{Wanted, respelled};
use dj_names::Name;
use dj_pool::Pool;
use std::alloc::{AllocError, Global};

/// Where a renamed text stands.
#[derive(Drop)]
pub(crate) enum Sought {
    /// At this index of the renamed pool.
    At(u16),
    /// Nowhere.
    New(Name),
}

// The index of the text that stands at a place after the constants.
fn index_of(pool: &Pool<'_>, place: usize) -> u16
    requires { length pool.now + place < last_index }
    ensures { result ≡ length pool.now + 1 + place }
{
    (pool.as_slice().len() + 1 + place) as u16
}

// Where the renamed text stands that an old one gets.
#[tactic(auto, using(crate::proofs::Seeking::stays_placed, crate::proofs::Seeking::found_placed, crate::proofs::Seeking::new_text))]
fn placed(pool: &Pool<'_>, texts: &Texts, wanted: Wanted, old: &[u8], text: Name) -> Sought
    requires few { length pool.now + length texts.now ≤ last_index }
    requires old_is { name_in pool.now wanted.index ≡ old.now }
    requires text_is { text ≡ respelled wanted.role old.now }
    ensures { IsSought pool.now texts.now (wanted_need pool.now wanted) result }
{
    if text.as_slice() == old {
        return Sought::At(wanted.index);
    }
    match texts.find(text.as_slice()) {
        Some(place) => Sought::At(index_of(pool, place)),
        None => Sought::New(text),
    }
}

/// Where the renamed text of an index stands.
pub(crate) fn seek(
    alloc: Global,
    pool: &Pool<'_>,
    texts: &Texts,
    wanted: Wanted,
) -> Result<Sought, AllocError>
    requires wanted { IsWanted pool.now wanted }
    requires few { length pool.now + length texts.now ≤ last_index }
    ensures { IfOk result (IsSought pool.now texts.now (wanted_need pool.now wanted)) }
{
    match pool.text(wanted.index) {
        None => unreachable!(),
        Some(old) => {
            let text = respelled(alloc, wanted.role, old)?;
            Ok(placed(pool, texts, wanted, old, text))
        }
    }
}
