ghost use Rattle.std.specs.Prelude.{length, IfOk};
ghost use Rattle.dj_resolution.specs.Numbers.{AreAbove, AreBelow, lists_of};
ghost use Rattle.dj_resolution.specs.Chained.{AreMethodChains};

use crate::chains::Chains;
use dj_class_table::ClassTable;
use std::alloc::{AllocError, Global};

/// For each class, by its number, the interfaces above it and its superclasses, where the classes come in this order.
pub fn method_chains(
    alloc: Global,
    table: &ClassTable,
    order: &[u32],
    above: &[Vec<u32>],
) -> Result<Chains, AllocError>
    requires order { AreBelow (length table.now) order.now }
    requires above { AreAbove table.now (lists_of above.now) }
    ensures { IfOk result (AreMethodChains table.now) }
{
    Chains::of(alloc, table, order, above)
}
