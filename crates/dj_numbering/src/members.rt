ghost use Rattle.std.specs.Prelude.{◌≡◌, ◌+◌, ◌^◌, ◌<◌, ◌↔◌, length, get_or, IfOk, IsTrue};
ghost use Rattle.dj_declarations.specs.Members.{IsDescriptor};
ghost use Rattle.dj_numbering.specs.Members.{all_methods, all_fields, methods_in, fields_in};
ghost use Rattle.dj_numbering.specs.Numbered.{counts_of, AreCounted, AreMemberClasses, AreMembers, IsBegun, IsStartOf};

use crate::error::TypesError;
use crate::heights::field_sums;
use dj_class_table::{ClassTable, Place};
use dj_names::{is_field_descriptor, is_method_descriptor};
use std::alloc::Global;

/// What is kept of the methods and the fields of classes.
#[derive(Drop)]
pub struct Members {
    /// How many methods stand in the classes before each class.
    pub method_starts: Vec<u32>,
    /// How many fields stand in the classes before each class.
    pub field_starts: Vec<u32>,
    /// The number of the class of each method, by the number of the method.
    pub method_classes: Vec<u32>,
    /// The number of the class of each field, by the number of the field.
    pub field_classes: Vec<u32>,
    /// How many instance fields each class has, inherited ones included.
    pub field_sums: Vec<u32>,
}

/// The members of classes, counted.
#[derive(Drop)]
pub struct MemberStarts {
    /// How many stand in the classes before each class.
    pub each: Vec<u32>,
    /// How many there are in all.
    pub total: u32,
}

// This many more.
fn sum_of(start: u32, count: usize) -> Result<u32, TypesError>
    ensures { IfOk result (λ sum. sum ≡ start + count) }
{
    let Ok(count) = u32::try_from(count) else {
        return Err(TypesError::Memory);
    };
    start.checked_add(count).ok_or(TypesError::Memory)
}

// The methods of classes, counted.
fn method_starts(alloc: Global, table: &ClassTable) -> Result<MemberStarts, TypesError>
    ensures { IfOk result (λ starts. AreCounted (counts_of methods_in table.now) starts) }
{
    let mut each = Vec::new(alloc);
    let mut total = 0;
    for class in 0..table.class_count() {
        each.push(total)?;
        total = sum_of(total, table.method_count(class))?;
    }
    Ok(MemberStarts { each, total })
}

// The fields of classes, counted.
fn field_starts(alloc: Global, table: &ClassTable) -> Result<MemberStarts, TypesError>
    ensures { IfOk result (λ starts. AreCounted (counts_of fields_in table.now) starts) }
{
    let mut each = Vec::new(alloc);
    let mut total = 0;
    for class in 0..table.class_count() {
        each.push(total)?;
        total = sum_of(total, table.field_count(class))?;
    }
    Ok(MemberStarts { each, total })
}

// The class of the member of a number, and its place among the members of the class, by halving.
fn place_in(starts: &[u32], number: u32) -> Place
    requires few { length starts.now < 2 ^ 32 }
    requires begun { IsBegun starts.now number }
    ensures { IsStartOf starts.now number result }
{
    let mut low = 0;
    let mut high = starts.len();
    while high - low > 1 {
        let middle = low + (high - low) / 2;
        if starts[middle] <= number {
            low = middle;
        } else {
            high = middle;
        }
    }
    Place {
        class: low as u32,
        member: number - starts[low],
    }
}

// The number of the class of each member, by the number of the member.
fn member_classes(alloc: Global, starts: &[u32], total: u32) -> Result<Vec<u32>, TypesError>
    requires few { length starts.now < 2 ^ 32 }
    requires begun { 0 < total → IsBegun starts.now 0 }
    ensures long { IfOk result (λ classes. length classes.items ≡ total) }
    ensures homes { IfOk result (λ classes. AreMemberClasses starts.now classes.items) }
{
    let mut classes = Vec::with_capacity(alloc, total as usize)?;
    for number in 0..total {
        classes.push(place_in(starts, number).class)?;
    }
    Ok(classes)
}

/// The class of the member of a number, and its place among the members of the class, in constant time.
pub fn place_at(starts: &[u32], classes: &[u32], number: u32) -> Place
    requires there { number < length classes.now }
    requires homes { AreMemberClasses starts.now classes.now }
    ensures { IsStartOf starts.now number result }
{
    let class = classes[number as usize];
    Place {
        class,
        member: number - starts[class as usize],
    }
}

/// The count of a class; an array has none.
pub fn count_at(counts: &[u32], class: u32) -> u32
    ensures { result ≡ get_or counts.now class 0 }
{
    match counts.get(class as usize) {
        Some(count) => *count,
        None => 0,
    }
}

impl Members {
    /// What is kept of these.
    pub fn of(alloc: Global, table: &ClassTable) -> Result<Members, TypesError>
        requires few { length table.now < 2 ^ 32 }
        requires few_methods { length (all_methods table.now) < 2 ^ 32 }
        requires few_fields { length (all_fields table.now) < 2 ^ 32 }
        ensures { IfOk result (λ members. AreMembers table.now members) }
    {
        let methods = method_starts(alloc, table)?;
        let fields = field_starts(alloc, table)?;
        let method_classes = member_classes(alloc, &methods.each, methods.total)?;
        let field_classes = member_classes(alloc, &fields.each, fields.total)?;
        Ok(Members {
            method_starts: methods.each,
            field_starts: fields.each,
            method_classes,
            field_classes,
            field_sums: field_sums(alloc, table)?,
        })
    }
}

/// Whether the text is a descriptor.
pub fn is_descriptor(text: &[u8]) -> bool
    ensures { IsTrue result ↔ IsDescriptor text.now }
{
    is_field_descriptor(text) || is_method_descriptor(text)
}
