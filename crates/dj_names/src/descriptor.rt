ghost use Rattle.std.specs.Prelude.{◌≡◌, ℕ, List, [], ◌∷◌, ◌++◌, OnOk, OnErr, IfOk};

use crate::lists::Name;
use std::alloc::{AllocError, Global};
use std::marker::Model;

/// What the machine knows of a value's type.
#[derive(Clone, Copy, Debug, PartialEq, Eq)]
pub enum Kind {
    Int,
    Long,
    Ref,
}

/// A base type (JVMS table 4.3-A).
#[derive(Clone, Copy, Debug, PartialEq, Eq)]
pub enum Base {
    Boolean,
    Byte,
    Char,
    Short,
    Int,
    Long,
    Float,
    Double,
}

/// What a type or an array's element is.
#[derive(Debug, Drop)]
pub enum Of {
    Base(Base),
    Class(Name),
}

/// A type: an element under this many dimensions.
#[derive(Debug, Drop)]
pub struct Ty {
    pub dims: u8,
    pub of: Of,
}

/// Types, in order.
#[derive(Debug, Drop)]
pub struct Tys {
    items: Vec<Ty>,
}

impl Model for Tys {
    ghost use Rattle.std.specs.Prelude.{List};
    ghost use Rattle.dj_names.specs.declared.descriptor.Ty.{Ty};

    ghost Value = { List Ty };

    ghost view = { λ tys. tys.items.items };
}

impl Tys {
    /// No types.
    pub fn new(alloc: Global) -> Tys
        ensures { result ≡ [] }
    {
        Tys {
            items: Vec::new(alloc),
        }
    }

    /// Appends a type.
    pub fn push(&mut self, item: Ty) -> Result<(), AllocError>
        ensures ok { OnOk result (self.new ≡ self.old ++ item ∷ []) }
        ensures err { OnErr result (self.new ≡ self.old) }
    {
        Ok(self.items.push(item)?)
    }

    /// The types, borrowed.
    pub fn as_slice(&self) -> &[Ty]
        ensures { result.now ≡ self.now }
    {
        self.items.as_slice()
    }
}

/// A descriptor (JVMS 4.3).
#[derive(Debug, Drop)]
pub enum Desc {
    Field(Ty),
    Method { params: Tys, ret: Option<Ty> },
}
