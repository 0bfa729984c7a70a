ghost use Rattle.std.specs.Prelude.{◌≡◌, ◌<◌, ◌++◌, ◌∷◌, [], length, IfOk, OnOk};
ghost use Rattle.std.specs.List.{filter};
ghost use Rattle.dj_resolution.specs.Numbers.{AreAbove, AreBelow, lists_of};
ghost use Rattle.dj_resolution.specs.Chained.{AreFieldChains, AreRows, field_row, has_field};

use crate::chains::Chains;
use dj_class_table::ClassTable;
use std::alloc::{AllocError, Global};

// The class comes to the row if it declares a field.
fn put_with_fields(row: &mut Vec<u32>, table: &ClassTable, class: u32) -> Result<(), AllocError>
    requires { class < length table.now }
    ensures { OnOk result (row.new.items ≡ row.old.items ++ filter (has_field table.now) (class ∷ [])) }
{
    if table.has_fields(class) {
        row.push(class)?;
    }
    Ok(())
}

// The class and those above it, of those that declare a field.
fn row_of(
    alloc: Global,
    table: &ClassTable,
    above: &[u32],
    class: u32,
) -> Result<Vec<u32>, AllocError>
    requires there { class < length table.now }
    requires above { AreBelow (length table.now) above.now }
    ensures { IfOk result (λ row. row.items ≡ filter (has_field table.now) (class ∷ above.now)) }
{
    let mut row = Vec::new(alloc);
    put_with_fields(&mut row, table, class)?;
    for interface in above {
        put_with_fields(&mut row, table, *interface)?;
    }
    Ok(row)
}

// For each class, by its number, the class and the interfaces above it, of those that declare a field.
fn field_rows(
    alloc: Global,
    table: &ClassTable,
    above: &[Vec<u32>],
) -> Result<Vec<Vec<u32>>, AllocError>
    requires { AreAbove table.now (lists_of above.now) }
    ensures { IfOk result (λ rows. AreRows table.now (field_row table.now) (lists_of rows.items)) }
{
    let mut rows = Vec::new(alloc);
    for class in 0..table.class_count() {
        rows.push(row_of(alloc, table, &above[class as usize], class)?)?;
    }
    Ok(rows)
}

/// For each class, by its number, those that declare a field: the class, the interfaces above it, its superclass, the interfaces above that, and so on, where the classes come in this order.
pub fn field_chains(
    alloc: Global,
    table: &ClassTable,
    order: &[u32],
    above: &[Vec<u32>],
) -> Result<Chains, AllocError>
    requires order { AreBelow (length table.now) order.now }
    requires above { AreAbove table.now (lists_of above.now) }
    ensures { IfOk result (AreFieldChains table.now) }
{
    let rows = field_rows(alloc, table, above)?;
    Chains::of(alloc, table, order, &rows)
}
