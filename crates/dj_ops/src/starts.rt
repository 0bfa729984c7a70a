ghost use Rattle.std.specs.Prelude.{◌≡◌, [], ◌∷◌, ◌++◌, OnOk, OnErr};

use std::alloc::{AllocError, Global};
use std::marker::Model;

/// The addresses at which the instructions of code start, in their order.
#[derive(Debug, Drop)]
pub struct Starts {
    starts: Vec<u32>,
}

impl Model for Starts {
    ghost use Rattle.std.specs.Prelude.{List, ℕ};

    ghost Value = { List ℕ };

    ghost view = { λ starts. starts.starts.items };
}

impl Starts {
    /// No addresses.
    pub fn new(alloc: Global) -> Starts
        ensures { result ≡ [] }
    {
        Starts {
            starts: Vec::new(alloc),
        }
    }

    /// The addresses of a vector.
    pub fn from_vec(starts: Vec<u32>) -> Starts
        ensures { result ≡ starts.items }
    {
        Starts { starts }
    }

    /// Appends an address.
    pub fn push(&mut self, item: u32) -> Result<(), AllocError>
        ensures ok { OnOk result (self.new ≡ self.old ++ item ∷ []) }
        ensures err { OnErr result (self.new ≡ self.old) }
    {
        Ok(self.starts.push(item)?)
    }

    /// The addresses, borrowed.
    pub fn as_slice(&self) -> &[u32]
        ensures { result.now ≡ self.now }
    {
        self.starts.as_slice()
    }
}
