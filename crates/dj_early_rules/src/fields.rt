ghost use Rattle.std.specs.Prelude.{◌≡◌, ◌↔◌, IsTrue, IfOk};
ghost use Rattle.dj_pool.specs.Views.{constant_of};
ghost use Rattle.dj_class.specs.Members.{member_of};
ghost use Rattle.dj_class.specs.Views.{class_of};
ghost use Rattle.dj_early_rules.specs.trusted.Malformed.{IsIntText, FitsField, NamesValue, IsValueFor, IsFaultyField, HasFaultyField};

use crate::bodies::bodies_named;
use dj_class::{ClassView, MemberView};
use dj_pool::{Entry, Pool};
use std::alloc::{AllocError, Global};

// Whether the text is the descriptor of a type whose values are ints.
fn is_int_text(text: &[u8]) -> bool
    ensures { IsTrue result ↔ IsIntText text.now }
{
    text == b"B".as_slice()
        || text == b"C".as_slice()
        || text == b"I".as_slice()
        || text == b"S".as_slice()
        || text == b"Z".as_slice()
}

// Whether the constant fits a field of this descriptor.
fn fits_field(entry: Entry<'_>, text: &[u8]) -> bool
    ensures { IsTrue result ↔ FitsField (constant_of entry.entry) text.now }
{
    match entry {
        Entry::Integer(_) => is_int_text(text),
        Entry::Long(_) => text == b"J".as_slice(),
        Entry::Float(_) => text == b"F".as_slice(),
        Entry::Double(_) => text == b"D".as_slice(),
        Entry::Text(_) => text == b"Ljava/lang/String;".as_slice(),
        _ => false,
    }
}

// Whether the index is that of a constant that fits a field whose descriptor is at `desc`.
fn names_value(pool: &Pool<'_>, desc: u16, index: u16) -> bool
    ensures { IsTrue result ↔ NamesValue pool.now desc index }
{
    match (pool.get(index), pool.text(desc)) {
        (Some(entry), Some(text)) => fits_field(entry, text),
        _ => false,
    }
}

// Whether the body is that of a ConstantValue that fits a field whose descriptor is at `desc`.
fn is_value_for(pool: &Pool<'_>, desc: u16, body: &[u8]) -> bool
    ensures { IsTrue result ↔ IsValueFor pool.now desc body.now }
{
    match body {
        [high, low] => names_value(pool, desc, u16::from_be_bytes([*high, *low])),
        _ => false,
    }
}

// Whether the field has two ConstantValue attributes, or one that doesn't fit it.
fn is_faulty_field(
    alloc: Global,
    pool: &Pool<'_>,
    field: &MemberView<'_>,
) -> Result<bool, AllocError>
    ensures { IfOk result (λ faulty. IsTrue faulty ↔ IsFaultyField pool.now (member_of field.now)) }
{
    let bodies = bodies_named(alloc, pool, b"ConstantValue", field.attributes.as_slice())?;
    match bodies.as_slice() {
        [] => Ok(false),
        [body] => Ok(!is_value_for(pool, field.desc, body)),
        _ => Ok(true),
    }
}

/// Whether one of the fields of the class file is faulty.
pub fn has_faulty_field(alloc: Global, view: &ClassView<'_>) -> Result<bool, AllocError>
    ensures { IfOk result (λ faulty. IsTrue faulty ↔ HasFaultyField (class_of view.now)) }
{
    for field in view.fields.as_slice() {
        let faulty = is_faulty_field(alloc, &view.pool, field)?;
        if faulty {
            return Ok(true);
        }
    }
    Ok(false)
}
