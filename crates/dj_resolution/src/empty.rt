ghost use Rattle.std.specs.Prelude.{◌≡◌, [], length, replicate, IfOk};
ghost use Rattle.dj_resolution.specs.Numbers.{lists_of};

use std::alloc::{AllocError, Global};

/// As many lists, with nothing in them.
pub fn empty_lists(alloc: Global, count: usize) -> Result<Vec<Vec<u32>>, AllocError>
    ensures { IfOk result (λ lists. lists_of lists.items ≡ replicate count []) }
{
    let mut lists = Vec::new(alloc);
    for _ in 0..count {
        lists.push(Vec::new(alloc))?;
    }
    Ok(lists)
}

/// As many rows of words, with nothing in them.
pub fn empty_rows(alloc: Global, count: usize) -> Result<Vec<Vec<u64>>, AllocError>
    ensures count { IfOk result (λ rows. length (lists_of rows.items) ≡ count) }
    ensures none { IfOk result (λ rows. lists_of rows.items ≡ replicate count []) }
{
    let mut rows = Vec::new(alloc);
    for _ in 0..count {
        rows.push(Vec::new(alloc))?;
    }
    Ok(rows)
}
