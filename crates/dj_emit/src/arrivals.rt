ghost use Rattle.std.specs.Prelude.{◌≡◌, ◌<◌, ℕ, false, length, get_or, IfOk};
ghost use Rattle.std.specs.List.{AllByRecursion};
ghost use Rattle.dj_labels.specs.trusted.Labels.{IsRange};
ghost use Rattle.dj_emit.specs.Arrivals.{AreArrivals};

use dj_labels::Protected;
use std::alloc::{AllocError, Global};

/// Which of this many instructions are the first of a handler, by their numbers.
pub(crate) fn arrivals(
    alloc: Global,
    count: usize,
    ranges: &[Protected],
) -> Result<Vec<bool>, AllocError>
    requires { AllByRecursion (IsRange count) ranges.now }
    ensures { IfOk result (λ arrives. AreArrivals count ranges.now arrives.items) }
{
    let mut arrives = vec![in alloc; false; count]?;
    for range in ranges {
        arrives[range.handler as usize] = true;
    }
    Ok(arrives)
}
