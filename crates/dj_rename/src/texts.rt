//! The texts that are appended to a pool, each once.
ghost use Rattle.std.specs.Prelude.{◌≡◌, ◌<◌, ◌∷◌, [], ◌++◌, false, get_or, length, OnOk};
ghost use Rattle.dj_rename.specs.Renaming.{has_text, IsPlaceOf};

use indexmap::IndexSet;
use std::alloc::{AllocError, Global};
use std::marker::Model;

/// Texts in the order in which they were first needed, each once.
#[derive(Drop)]
pub struct Texts {
    texts: IndexSet<Vec<u8>>,
}

impl Model for Texts {
    ghost use Rattle.std.specs.Prelude.{List, map};
    ghost use Rattle.dj_names.specs.trusted.Types.{Name};

    ghost Value = { List Name };

    ghost view = { λ texts. map (λ text. text.items) texts.texts.keys };
}

impl Texts {
    /// No texts.
    pub(crate) fn new(alloc: Global) -> Texts
        ensures { result ≡ [] }
    {
        Texts {
            texts: IndexSet::new(alloc),
        }
    }

    /// How many texts there are.
    pub fn count(&self) -> usize
        ensures { result ≡ length self.now }
    {
        self.texts.len()
    }

    /// The text at a place.
    pub fn get(&self, place: usize) -> &[u8]
        requires { place < length self.now }
        ensures { result.now ≡ get_or self.now place [] }
    {
        match self.texts.get_index(place) {
            Some(text) => text.as_slice(),
            None => &[],
        }
    }

    /// The place of a text.
    pub(crate) fn find(&self, text: &[u8]) -> Option<usize>
        ensures { IsPlaceOf self.now text.now result }
    {
        self.texts.get_index_of(text)
    }

    /// Puts a new text last.
    pub(crate) fn push(&mut self, alloc: Global, text: &[u8]) -> Result<(), AllocError>
        requires { has_text self.old text.now ≡ false }
        ensures { OnOk result (self.new ≡ self.old ++ text.now ∷ []) }
    {
        let copy = Vec::from_slice(alloc, text)?;
        self.texts.insert(copy)?;
        Ok(())
    }
}
