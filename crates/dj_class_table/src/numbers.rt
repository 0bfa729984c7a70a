ghost use Rattle.std.specs.Prelude.{◌≡◌, [], ◌∷◌, ◌++◌, IfOk};

use std::alloc::{AllocError, Global};
use std::marker::Model;

/// Numbers of classes, in order.
#[derive(Drop)]
pub struct Numbers {
    items: Vec<u32>,
}

impl Model for Numbers {
    ghost use Rattle.std.specs.Prelude.{ℕ, List};

    ghost Value = { List ℕ };

    ghost view = { λ numbers. numbers.items.items };
}

impl Numbers {
    /// No numbers.
    pub fn new(alloc: Global) -> Numbers
        ensures { result ≡ [] }
    {
        Numbers {
            items: Vec::new(alloc),
        }
    }

    /// Appends a number.
    pub fn push(&mut self, number: u32) -> Result<(), AllocError>
        ensures { IfOk result (λ _. self.new ≡ self.old ++ number ∷ []) }
    {
        Ok(self.items.push(number)?)
    }

    /// The numbers, borrowed.
    pub fn as_slice(&self) -> &[u32]
        ensures { result.now ≡ self.now }
    {
        self.items.as_slice()
    }
}
