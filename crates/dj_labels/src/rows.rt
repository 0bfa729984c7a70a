ghost use Rattle.std.specs.Prelude.{◌≡◌, ◌^◌, ◌<◌, [], ◌∷◌, ◌++◌, length, Some, Contains, slice_get, IfOk, IfErr, IfSome, IfNone};
ghost use Rattle.dj_labels.specs.Faults.{IsRow};
ghost use Rattle.dj_labels.specs.Passes.{IsRising, IsRangeOf, AreRangesOf, IsRowsFault};

use crate::errors::CodeError;
use crate::labelled::{Protected, Ranges};
use crate::starts::StartTable;
use dj_ops::CatchRow;
use std::alloc::Global;

/// The number of the instruction that starts at an address; at the end of code of this size, the number after the last one.
fn bound_number(table: &StartTable, size: usize, address: usize) -> Option<u32>
    requires few { length table.now.starts.items < 2 ^ 32 }
    ensures found { IfSome result (λ number. slice_get (table.now.starts.items ++ size ∷ []) number ≡ Some address) }
    ensures none { IfNone result (Contains (table.now.starts.items ++ size ∷ []) address → ⊥) }
{
    if address == size {
        return Some(table.starts.len() as u32);
    }
    table.number_at(address)
}

/// The range of a row, in code of this size.
fn range_of(table: &StartTable, size: usize, row: CatchRow) -> Option<Protected>
    requires few { length table.now.starts.items < 2 ^ 32 }
    requires rising { IsRising (table.now.starts.items ++ size ∷ []) }
    ensures found { IfSome result (IsRangeOf table.now.starts.items size row) }
    ensures none { IfNone result (IsRow table.now.starts.items size row → ⊥) }
{
    if row.start >= row.end {
        return None;
    }
    let start = table.number_at(usize::from(row.start))?;
    let handler = table.number_at(usize::from(row.handler))?;
    let end = bound_number(table, size, usize::from(row.end))?;
    Some(Protected {
        start,
        end,
        handler,
        catch_type: row.catch_type,
    })
}

/// The ranges of an exception table, in code of this size.
pub fn ranges_of(
    alloc: Global,
    table: &StartTable,
    size: usize,
    rows: &[CatchRow],
) -> Result<Ranges, CodeError>
    requires few { length table.now.starts.items < 2 ^ 32 }
    requires rising { IsRising (table.now.starts.items ++ size ∷ []) }
    ensures found { IfOk result (AreRangesOf table.now.starts.items size rows.now) }
    ensures refused { IfErr result (IsRowsFault table.now.starts.items size rows.now) }
{
    let mut ranges = Ranges::new(alloc);
    for i in 0..rows.len() {
        let Some(range) = range_of(table, size, rows[i]) else {
            return Err(CodeError::Range(i));
        };
        ranges.push(range)?;
    }
    Ok(ranges)
}
