ghost use Rattle.std.specs.Prelude.{◌≡◌, ◌≤◌, [], ◌∷◌, ◌++◌, map, length, All, slice_index, IfOk};
ghost use Rattle.std.specs.List.{AllByRecursion};
ghost use Rattle.dj_labels.specs.trusted.Labels.{IsRange, row_of};
ghost use Rattle.dj_layout.specs.trusted.Layouts.{most_bytes};

use dj_labels::Protected;
use dj_ops::{CatchRow, CatchRows};
use std::alloc::{AllocError, Global};

/// The address of a bound: that of an instruction, or the end of the code of this size.
fn bound_of(starts: &[u32], size: u32, number: u32) -> u16
    requires within { number ≤ length starts.now }
    requires starts { All (λ start. start ≤ most_bytes) starts.now }
    requires size { size ≤ most_bytes }
    ensures { result ≡ slice_index (starts.now ++ size ∷ []) number }
{
    let number = number as usize;
    let address = if number < starts.len() {
        starts[number]
    } else {
        size
    };
    address as u16
}

/// The row of a range.
fn row_of(starts: &[u32], size: u32, range: Protected) -> CatchRow
    requires range { IsRange (length starts.now) range }
    requires starts { All (λ start. start ≤ most_bytes) starts.now }
    requires size { size ≤ most_bytes }
    ensures { result ≡ row_of (starts.now ++ size ∷ []) range }
{
    CatchRow {
        start: bound_of(starts, size, range.start),
        end: bound_of(starts, size, range.end),
        handler: bound_of(starts, size, range.handler),
        catch_type: range.catch_type,
    }
}

/// The exception table of the ranges.
pub fn rows_of(
    alloc: Global,
    starts: &[u32],
    size: u32,
    ranges: &[Protected],
) -> Result<CatchRows, AllocError>
    requires ranges { AllByRecursion (IsRange (length starts.now)) ranges.now }
    requires starts { All (λ start. start ≤ most_bytes) starts.now }
    requires size { size ≤ most_bytes }
    ensures { IfOk result (λ rows. rows ≡ map (row_of (starts.now ++ size ∷ [])) ranges.now) }
{
    let mut rows = CatchRows::new(alloc);
    for range in ranges {
        rows.push(row_of(starts, size, *range))?;
    }
    Ok(rows)
}
