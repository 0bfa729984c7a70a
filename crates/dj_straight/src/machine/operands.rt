ghost use Rattle.std.specs.Prelude.{◌≡◌, List, [], ◌∷◌, IfSome, IfNone, OnOk};
ghost use Rattle.dj_names.specs.declared.run.Value.{Value as RunValue};

use dj_names::Value;
use std::alloc::{AllocError, Global};
use std::marker::Model;

/// The operands of a frame (JVMS 2.6.2).
#[derive(Drop)]
pub struct Operands {
    // The top last.
    values: Vec<Value>,
}

impl Model for Operands {
    ghost use Rattle.std.specs.Prelude.{List, reverse};
    ghost use Rattle.dj_names.specs.declared.run.Value.{Value as RunValue};

    ghost Value = { List RunValue };

    ghost view = { λ o. reverse o.values.items };
}

impl Operands {
    /// No operands.
    pub fn new(alloc: Global) -> Operands
        ensures { result ≡ [] }
    {
        Operands {
            values: Vec::new(alloc),
        }
    }

    /// The value is on top.
    pub fn push(&mut self, value: Value) -> Result<(), AllocError>
        ensures { OnOk result (self.new ≡ value ∷ self.old) }
    {
        Ok(self.values.push(value)?)
    }

    /// The top, which is taken off.
    pub fn pop(&mut self) -> Option<Value>
        ensures top { IfSome result (λ value. self.old ≡ value ∷ self.new) }
        ensures none { IfNone result (self.old ≡ []) }
    {
        self.values.pop()
    }

    /// The top.
    pub fn top(&self) -> Option<Value>
        ensures some { IfSome result (λ value. (below : List RunValue) × (self.now ≡ value ∷ below)) }
        ensures none { IfNone result (self.now ≡ []) }
    {
        self.values.last().copied()
    }
}
