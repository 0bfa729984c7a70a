ghost use Rattle.std.specs.Prelude.{◌≡◌, [], ◌∷◌, ◌++◌, OnOk, OnErr};

use dj_ops::Instrs;
use std::alloc::{AllocError, Global};
use std::marker::Model;

/// A range of instructions and its handler (JVMS 4.7.3, exception_table), all by the numbers of the instructions.
#[derive(Clone, Copy, Debug, PartialEq, Eq)]
pub struct Protected {
    /// The first instruction of the range.
    pub start: u32,
    /// The instruction after the range, or their count where it ends with the last.
    pub end: u32,
    /// The first instruction of the handler.
    pub handler: u32,
    /// The pool index of the class that is caught, or 0 for any.
    pub catch_type: u16,
}

/// Ranges of instructions, in the order in which handlers are looked up.
#[derive(Debug, Drop)]
pub struct Ranges {
    items: Vec<Protected>,
}

impl Model for Ranges {
    ghost use Rattle.std.specs.Prelude.{List};
    ghost use Rattle.dj_labels.specs.declared.labelled.Protected.{Protected};

    ghost Value = { List Protected };

    ghost view = { λ ranges. ranges.items.items };
}

impl Ranges {
    /// No ranges.
    pub fn new(alloc: Global) -> Ranges
        ensures { result ≡ [] }
    {
        Ranges {
            items: Vec::new(alloc),
        }
    }

    /// Appends a range.
    pub fn push(&mut self, item: Protected) -> Result<(), AllocError>
        ensures ok { OnOk result (self.new ≡ self.old ++ item ∷ []) }
        ensures err { OnErr result (self.new ≡ self.old) }
    {
        Ok(self.items.push(item)?)
    }

    /// The ranges, borrowed.
    pub fn as_slice(&self) -> &[Protected]
        ensures { result.now ≡ self.now }
    {
        self.items.as_slice()
    }
}

/// Code with its labels, and the addresses at which its instructions start.
#[derive(Debug, Drop)]
pub struct Labelling {
    pub labelled: Labelled,
    pub starts: Vec<u32>,
}

/// The code of a method. The targets of its instructions are numbers of instructions, from 0 on.
#[derive(Debug, Drop)]
pub struct Labelled {
    pub code: Instrs,
    /// The exception table, row by row.
    pub ranges: Ranges,
}
