ghost use Rattle.std.specs.Prelude.{◌≡◌, [], ◌∷◌, ◌++◌, OnOk, OnErr};

use std::alloc::{AllocError, Global};
use std::marker::Model;

/// Indexes of the pool.
#[derive(Debug, Drop)]
pub struct Indexes {
    items: Vec<u16>,
}

impl Model for Indexes {
    ghost use Rattle.std.specs.Prelude.{List, ℕ};

    ghost Value = { List ℕ };

    ghost view = { λ indexes. indexes.items.items };
}

impl Indexes {
    /// No indexes.
    pub fn new(alloc: Global) -> Indexes
        ensures { result ≡ [] }
    {
        Indexes {
            items: Vec::new(alloc),
        }
    }

    /// Appends an index.
    pub fn push(&mut self, item: u16) -> Result<(), AllocError>
        ensures ok { OnOk result (self.new ≡ self.old ++ item ∷ []) }
        ensures err { OnErr result (self.new ≡ self.old) }
    {
        self.items.push(item)?;
        Ok(())
    }

    /// The indexes that a vector has.
    pub fn from_vec(items: Vec<u16>) -> Indexes
        ensures { result ≡ items.items }
    {
        Indexes { items }
    }

    /// The indexes, borrowed.
    pub fn as_slice(&self) -> &[u16]
        ensures { result.now ≡ self.now }
    {
        self.items.as_slice()
    }
}
