ghost use Rattle.std.specs.Prelude.{IfOk};
ghost use Rattle.dj_labels.specs.Labels.{IsWellFormed};

use dj_labels::{CodeError, Labelled, label, labelled_is_well_formed};
use dj_layout::{Laid, LayError, lay_out};
use dj_ops::{CatchRow, CatchRows};
use std::alloc::{AllocError, Global};

// A row: its start, its end, its handler, and the class that is caught.
pub type RowNumbers = (u16, u16, u16, u16);

pub fn rows_of(alloc: Global, rows: &[RowNumbers]) -> Result<CatchRows, AllocError> {
    let mut table = CatchRows::new(alloc);
    for &(start, end, handler, catch_type) in rows {
        table.push(CatchRow {
            start,
            end,
            handler,
            catch_type,
        })?;
    }
    Ok(table)
}

pub fn has_rows(table: &[CatchRow], wanted: &[RowNumbers]) -> bool {
    if table.len() != wanted.len() {
        return false;
    }
    for i in 0..table.len() {
        let row = &table[i];
        if (row.start, row.end, row.handler, row.catch_type) != wanted[i] {
            return false;
        }
    }
    true
}

pub fn labels_of(alloc: Global, code: &[u8], rows: &[RowNumbers]) -> Result<Labelled, CodeError>
    ensures { IfOk result IsWellFormed }
{
    let table = rows_of(alloc, rows)?;
    labelled_is_well_formed();
    if code.len() < 65_536 {
        label(alloc, code, table.as_slice())
    } else {
        Err(CodeError::Memory)
    }
}

// What the labels of code are laid out as.
pub fn laid_again(alloc: Global, code: &[u8], rows: &[RowNumbers]) -> Result<Laid, LayError> {
    let labels = labels_of(alloc, code, rows).map_err(|_| LayError::Memory)?;
    lay_out(alloc, &labels)
}
