ghost use Rattle.std.specs.Prelude.{◌≡◌, [], ◌∷◌, ◌++◌, OnOk, OnErr};

use std::alloc::{AllocError, Global};
use std::marker::Model;

/// A row of an exception table (JVMS 4.7.3).
#[derive(Clone, Copy, Debug, PartialEq, Eq)]
pub struct CatchRow {
    /// The first address of the range.
    pub start: u16,
    /// The address after the range.
    pub end: u16,
    pub handler: u16,
    /// The index of the class that is caught, or 0 for every class.
    pub catch_type: u16,
}

/// The rows of an exception table, in its order.
#[derive(Debug, Drop)]
pub struct CatchRows {
    rows: Vec<CatchRow>,
}

impl Model for CatchRows {
    ghost use Rattle.std.specs.Prelude.{List};
    ghost use Rattle.dj_ops.specs.declared.rows.CatchRow.{CatchRow};

    ghost Value = { List CatchRow };

    ghost view = { λ rows. rows.rows.items };
}

impl CatchRows {
    /// No rows.
    pub fn new(alloc: Global) -> CatchRows
        ensures { result ≡ [] }
    {
        CatchRows {
            rows: Vec::new(alloc),
        }
    }

    /// The rows of a vector.
    pub fn from_vec(rows: Vec<CatchRow>) -> CatchRows
        ensures { result ≡ rows.items }
    {
        CatchRows { rows }
    }

    /// Appends a row.
    pub fn push(&mut self, row: CatchRow) -> Result<(), AllocError>
        ensures ok { OnOk result (self.new ≡ self.old ++ row ∷ []) }
        ensures err { OnErr result (self.new ≡ self.old) }
    {
        Ok(self.rows.push(row)?)
    }

    /// The rows, borrowed.
    pub fn as_slice(&self) -> &[CatchRow]
        ensures { result.now ≡ self.now }
    {
        self.rows.as_slice()
    }
}
