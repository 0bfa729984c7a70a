//! Whether some class has many classes above it. In most programs none has.
ghost use Rattle.std.specs.Prelude.{◌<◌, length};

use crate::chains::Chains;
use dj_class_table::ClassTable;

// More classes than these, one above the other or in a list, are many.
const FEW_CLASSES: usize = 16;

// Whether one of the lists is long.
fn has_long(lists: &[Vec<u32>]) -> bool {
    for list in lists {
        if list.len() > FEW_CLASSES {
            return true;
        }
    }
    false
}

// Whether a class has many superclasses.
fn is_low(table: &ClassTable, class: u32) -> bool
    requires { class < length table.now }
{
    let mut next = Some(class);
    for _ in 0..FEW_CLASSES {
        let Some(at) = next else {
            return false;
        };
        next = table.super_of(at);
    }
    next.is_some()
}

// Whether some class has many superclasses.
fn has_low(table: &ClassTable) -> bool {
    for class in 0..table.class_count() {
        if is_low(table, class) {
            return true;
        }
    }
    false
}

/// Whether some class has many superclasses, or many interfaces above it, or many classes and interfaces that declare fields.
pub fn are_long(table: &ClassTable, methods: &Chains, fields: &Chains) -> bool {
    has_long(&methods.lists) || has_long(&fields.lists) || has_low(table)
}
