//! How many rows an exception table has once its ranges are cut.
ghost use Rattle.std.specs.Prelude.{◌≡◌, ◌↔◌, ◌+◌, ◌≤◌, ◌<◌, ◌^◌, length, if◌then◌else◌, IsTrue, IfOk};
ghost use Rattle.std.specs.List.{AllByRecursion};
ghost use Rattle.dj_labels.specs.trusted.Labels.{IsRange};
ghost use Rattle.dj_groups.specs.Grouped.{protected_pieces};
ghost use Rattle.dj_emit.specs.Parts.{groups_seen};
ghost use Rattle.dj_emit.specs.Filed.{arrivals_before, rows_of};

use crate::parts::GroupPart;
use dj_labels::Protected;
use std::alloc::{AllocError, Global};

// JVMS 4.7.3: the number of rows has two bytes.
const MOST_ROWS: u32 = 65535;

// How many there are with one more instruction.
fn with_next(count: u32, arrives: bool) -> u32
    requires { count < 2 ^ 16 }
    ensures { result ≡ count + (if arrives then 1 else 0) }
{
    if arrives { count + 1 } else { count }
}

// For each number, how many of the instructions before it are the first of a handler.
fn counts_of(alloc: Global, parts: &[GroupPart]) -> Result<Vec<u32>, AllocError>
    requires { length parts.now < 2 ^ 16 }
    ensures { IfOk result (λ counts. counts.items ≡ arrivals_before (groups_seen parts.now)) }
{
    let mut counts = Vec::new(alloc);
    let mut count = 0;
    for part in parts {
        counts.push(count)?;
        count = with_next(count, part.arrives);
    }
    counts.push(count)?;
    Ok(counts)
}

// How many pieces of a range are left: one more than handlers that begin within it, after its first instruction.
fn piece_count(parts: &[GroupPart], counts: &[u32], range: Protected) -> u32
    requires few { length parts.now < 2 ^ 16 }
    requires counts { counts.now ≡ arrivals_before (groups_seen parts.now) }
    requires within { IsRange (length parts.now) range }
    ensures is { result ≡ length (protected_pieces (groups_seen parts.now) range) }
    ensures few { result ≤ 65536 }
{
    counts[range.end as usize] - counts[range.start as usize + 1] + 1
}

/// Whether a class file has room for the rows of ranges that are cut.
pub(crate) fn has_few_rows(
    alloc: Global,
    parts: &[GroupPart],
    ranges: &[Protected],
) -> Result<bool, AllocError>
    requires few { length parts.now < 2 ^ 16 }
    requires within { AllByRecursion (IsRange (length parts.now)) ranges.now }
    ensures { IfOk result (λ few. IsTrue few ↔ length (rows_of (groups_seen parts.now) ranges.now) ≤ 65535) }
{
    let counts = counts_of(alloc, parts)?;
    let mut count = 0;
    for range in ranges {
        count += piece_count(parts, &counts, *range);
        if count > MOST_ROWS {
            return Ok(false);
        }
    }
    Ok(true)
}
