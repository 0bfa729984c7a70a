ghost use Rattle.std.specs.Prelude.{◌≡◌, ◌<◌, ◌^◌, length, IfOk, OnOk};
ghost use Rattle.dj_resolution.specs.Numbers.{AreBelow, AreInside, lists_of};

use crate::empty::empty_lists;
use dj_class_table::ClassTable;
use std::alloc::{AllocError, Global};

// The class stands below each of these interfaces.
fn put_below(below: &mut [Vec<u32>], listed: &[u32], class: u32) -> Result<(), AllocError>
    requires listed { AreBelow (length below.old) listed.now }
    requires there { class < length below.old }
    requires inside { AreInside (length below.old) (lists_of below.old) }
    ensures { OnOk result (AreInside (length below.old) (lists_of below.new)) }
{
    for interface in listed {
        below[*interface as usize].push(class)?;
    }
    Ok(())
}

// For each interface, by its number, the classes that list it.
fn classes_below(alloc: Global, table: &ClassTable) -> Result<Vec<Vec<u32>>, AllocError>
    ensures { IfOk result (λ below. AreInside (length table.now) (lists_of below.items)) }
{
    let count = table.class_count();
    let mut below = empty_lists(alloc, count as usize)?;
    for class in 0..count {
        put_below(&mut below, table.interfaces_of(class), class)?;
    }
    Ok(below)
}

// How many interfaces each class lists.
fn listed_counts(alloc: Global, table: &ClassTable) -> Result<Vec<usize>, AllocError>
    ensures { IfOk result (λ counts. length counts.items ≡ length table.now) }
{
    let mut counts = Vec::new(alloc);
    for class in 0..table.class_count() {
        counts.push(table.interfaces_of(class).len())?;
    }
    Ok(counts)
}

// The classes that list no interface.
fn without_interfaces(alloc: Global, counts: &[usize]) -> Result<Vec<u32>, AllocError>
    requires { length counts.now < 2 ^ 31 }
    ensures { IfOk result (λ order. AreBelow (length counts.now) order.items) }
{
    let mut order = Vec::new(alloc);
    for (class, count) in counts.iter().enumerate() {
        if *count == 0 {
            order.push(class as u32)?;
        }
    }
    Ok(order)
}

// One interface less is before each of the classes, and those come that have none left.
fn release(order: &mut Vec<u32>, left: &mut [usize], classes: &[u32]) -> Result<(), AllocError>
    requires classes { AreBelow (length left.old) classes.now }
    requires order { AreBelow (length left.old) order.old.items }
    ensures { OnOk result (AreBelow (length left.old) order.new.items) }
{
    for class in classes {
        let at = *class as usize;
        left[at] = left[at].saturating_sub(1);
        if left[at] == 0 {
            order.push(*class)?;
        }
    }
    Ok(())
}

/// Classes so that each comes after the interfaces that it lists; those in a ring are left out.
pub fn order_of(alloc: Global, table: &ClassTable) -> Result<Vec<u32>, AllocError>
    ensures { IfOk result (λ order. AreBelow (length table.now) order.items) }
{
    let count = table.class_count() as usize;
    let below = classes_below(alloc, table)?;
    let mut left = listed_counts(alloc, table)?;
    let mut order = without_interfaces(alloc, &left)?;
    for turn in 0..count {
        let Some(&class) = order.get(turn) else {
            break;
        };
        release(&mut order, &mut left, &below[class as usize])?;
    }
    Ok(order)
}
