//! Texts, each once, by their numbers.
ghost use Rattle.std.specs.Prelude.{◌≡◌, [], get_or, Contains};
ghost use Rattle.dj_asm_pool.specs.Pooling.{IsFound, PutsText};

use indexmap::IndexSet;
use std::alloc::{AllocError, Global};
use std::marker::Model;

/// Texts in the order in which they were first needed, each once.
#[derive(Drop)]
pub(crate) struct Texts {
    texts: IndexSet<Vec<u8>>,
}

impl Model for Texts {
    ghost use Rattle.std.specs.Prelude.{List, ℕ, map};

    ghost Value = { List (List ℕ) };

    ghost view = { λ texts. map (λ text. text.items) texts.texts.keys };
}

impl Texts {
    /// No texts.
    pub(crate) fn new(alloc: Global) -> Texts
        ensures { result ≡ [] }
    {
        Texts {
            texts: IndexSet::new(alloc),
        }
    }

    /// The number of a text.
    pub(crate) fn find(&self, text: &[u8]) -> Option<usize>
        ensures { IsFound self.now text.now result }
    {
        self.texts.get_index_of(text)
    }

    /// The text of a number; where there is none it is empty.
    pub(crate) fn get(&self, number: usize) -> &[u8]
        ensures { result.now ≡ get_or self.now number [] }
    {
        match self.texts.get_index(number) {
            Some(text) => text.as_slice(),
            None => &[],
        }
    }

    /// Puts a new text last, and returns its number.
    pub(crate) fn push(&mut self, alloc: Global, text: &[u8]) -> Result<usize, AllocError>
        requires { Contains self.old text.now → ⊥ }
        ensures { PutsText self.old text.now self.new result }
    {
        let number = self.texts.len();
        let copy = Vec::from_slice(alloc, text)?;
        self.texts.insert(copy)?;
        Ok(number)
    }
}
