ghost use Rattle.std.specs.Prelude.{◌≡◌, ◌<◌, length, IfOk};
ghost use Rattle.dj_resolution.specs.Numbers.{AreBelow, AreInside, lists_of};

use crate::empty::empty_lists;
use dj_class_table::ClassTable;
use std::alloc::{AllocError, Global};

// For each class, by its number, the classes whose superclass it is.
fn subclasses(alloc: Global, table: &ClassTable) -> Result<Vec<Vec<u32>>, AllocError>
    ensures { IfOk result (λ below. AreInside (length table.now) (lists_of below.items)) }
{
    let count = table.class_count();
    let mut below = empty_lists(alloc, count as usize)?;
    for class in 0..count {
        if let Some(next) = table.super_of(class) {
            below[next as usize].push(class)?;
        }
    }
    Ok(below)
}

// The classes that have no superclass that is there.
fn without_superclass(alloc: Global, table: &ClassTable) -> Result<Vec<u32>, AllocError>
    ensures { IfOk result (λ order. AreBelow (length table.now) order.items) }
{
    let mut order = Vec::new(alloc);
    for class in 0..table.class_count() {
        if table.super_of(class).is_none() {
            order.push(class)?;
        }
    }
    Ok(order)
}

/// Classes so that each comes after its superclass; those whose superclasses go round are left out.
pub fn downward(alloc: Global, table: &ClassTable) -> Result<Vec<u32>, AllocError>
    ensures { IfOk result (λ order. AreBelow (length table.now) order.items) }
{
    let below = subclasses(alloc, table)?;
    let mut order = without_superclass(alloc, table)?;
    for turn in 0..table.class_count() as usize {
        let Some(&class) = order.get(turn) else {
            break;
        };
        order.extend_from_slice(&below[class as usize])?;
    }
    Ok(order)
}
