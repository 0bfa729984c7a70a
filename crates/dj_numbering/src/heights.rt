ghost use Rattle.std.specs.Prelude.{◌≡◌, ◌+◌, ◌<◌, All, None, Some, IfOk, IfSome, OnOk, get_or, length, replicate, slice_get};
ghost use Rattle.dj_model.specs.trusted.Linking.{own_field_count};
ghost use Rattle.dj_numbering.specs.Numbered.{AddsTo, AreHeights, AreSums, height_at};

use crate::error::TypesError;
use dj_class_table::ClassTable;
use std::alloc::Global;

/// A class among those above it.
#[derive(Clone, Copy)]
pub struct Height {
    /// How many instance fields it has, inherited ones included.
    pub fields: u32,
    /// How many classes it and its superclasses are.
    pub levels: u32,
}

// How many instance fields a class declares.
fn own_fields(table: &ClassTable, class: u32) -> Option<u32>
    requires { class < length table.now }
    ensures { IfSome result (λ count. count ≡ own_field_count (slice_get table.now class)) }
{
    table
        .instance_fields(class)
        .checked_add(u32::from(table.unnamed_fields(class)))
}

// A class with this many instance fields of its own below another one.
fn height_below(above: Height, fields: u32) -> Option<Height>
    ensures { IfSome result (λ height. AddsTo above fields height) }
{
    Some(Height {
        fields: above.fields.checked_add(fields)?,
        levels: above.levels.checked_add(1)?,
    })
}

// That of a class where it is known, and of none where there is no class.
fn height_of(heights: &[Option<Height>], class: Option<u32>) -> Option<Height>
    requires { IfSome class (λ k. k < length heights.now) }
    ensures { result ≡ height_at heights.now class }
{
    match class {
        Some(class) => heights[class as usize],
        None => Some(Height {
            fields: 0,
            levels: 0,
        }),
    }
}

// A class is known too, where its superclass is.
fn learn(heights: &mut [Option<Height>], table: &ClassTable, class: u32) -> Result<(), TypesError>
    requires there { class < length table.now }
    requires known { AreHeights table.now heights.old }
    ensures { OnOk result (AreHeights table.now heights.new) }
{
    let Some(above) = height_of(heights, table.super_of(class)) else {
        return Err(TypesError::Memory);
    };
    let Some(fields) = own_fields(table, class) else {
        return Err(TypesError::Memory);
    };
    let Some(height) = height_below(above, fields) else {
        return Err(TypesError::Memory);
    };
    heights[class as usize] = Some(height);
    Ok(())
}

// A class and its superclasses upward, up to one that is known.
fn unknown_from(
    alloc: Global,
    heights: &[Option<Height>],
    table: &ClassTable,
    class: u32,
) -> Result<Vec<u32>, TypesError>
    requires there { class < length table.now }
    requires long { length heights.now ≡ length table.now }
    ensures { IfOk result (λ path. All (λ k. k < length table.now) path.items) }
{
    let mut path = Vec::new(alloc);
    let mut next = Some(class);
    for _ in 0..table.class_count() {
        let Some(at) = next else {
            break;
        };
        if heights[at as usize].is_some() {
            break;
        }
        path.push(at)?;
        next = table.super_of(at);
    }
    Ok(path)
}

// The heights of the classes of a path become known, the last class first.
fn learn_all(
    heights: &mut [Option<Height>],
    table: &ClassTable,
    path: &[u32],
) -> Result<(), TypesError>
    requires there { All (λ k. k < length table.now) path.now }
    requires known { AreHeights table.now heights.old }
    ensures { OnOk result (AreHeights table.now heights.new) }
{
    for turn in 0..path.len() {
        learn(heights, table, path[path.len() - 1 - turn])?;
    }
    Ok(())
}

// What can be known of the classes. Each of them is looked at once.
fn heights_of(alloc: Global, table: &ClassTable) -> Result<Vec<Option<Height>>, TypesError>
    ensures { IfOk result (λ heights. AreHeights table.now heights.items) }
{
    let mut heights = vec![in alloc; None; table.class_count() as usize]?;
    for class in 0..table.class_count() {
        let path = unknown_from(alloc, &heights, table, class)?;
        learn_all(&mut heights, table, &path)?;
    }
    Ok(heights)
}

/// How many instance fields each class has, inherited ones included. Where a class is its own ancestor it is want of memory.
pub fn field_sums(alloc: Global, table: &ClassTable) -> Result<Vec<u32>, TypesError>
    ensures { IfOk result (λ sums. AreSums table.now sums.items) }
{
    let heights = heights_of(alloc, table)?;
    let mut sums = Vec::new(alloc);
    for height in &heights {
        let Some(height) = height else {
            return Err(TypesError::Memory);
        };
        sums.push(height.fields)?;
    }
    Ok(sums)
}
