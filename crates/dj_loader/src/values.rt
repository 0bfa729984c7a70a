//! The constants with which the fields of a class file begin (JVMS 4.7.2).
ghost use Rattle.std.specs.Prelude.{◌≡◌, List, map, codes, slice_get, option_copied, IfOk, IfErr};
ghost use Rattle.dj_pool.specs.trusted.Pool.{Constant};
ghost use Rattle.dj_pool.specs.Views.{constant_of};
ghost use Rattle.dj_class.specs.Parts.{attribute_of};
ghost use Rattle.dj_class.specs.Members.{member_of};
ghost use Rattle.dj_early_rules.specs.trusted.Attributes.{is_named, values_of};
ghost use Rattle.dj_program.specs.trusted.Naming.{constant_by, constant_in, constant_of_body, value_index};
ghost use Rattle.dj_image.specs.Parts.{constant_of_value};
ghost use Rattle.dj_loader.specs.Filed.{reported_value};
ghost use Rattle.dj_loader.specs.Numbered.{IsMemory};

use crate::error::LoadError;
use dj_class::{Attribute, MemberView};
use dj_image::FieldValue;
use dj_pool::{Entry, Pool};
use std::alloc::Global;

// Whether the attribute is a ConstantValue.
fn is_value(pool: &Pool<'_>, attribute: &Attribute<'_>) -> bool
    ensures { result ≡ is_named pool.now (codes "ConstantValue") (attribute_of attribute.now) }
{
    match pool.text(attribute.name) {
        Some(text) => text == b"ConstantValue".as_slice(),
        None => false,
    }
}

// The body of the first ConstantValue of a field, where it has one.
fn value_body<'a>(pool: &Pool<'_>, field: &MemberView<'a>) -> Option<&'a [u8]>
    ensures { option_copied result ≡ slice_get (values_of pool.now (member_of field.now)) 0 }
{
    for attribute in field.attributes.as_slice() {
        if is_value(pool, attribute) {
            return Some(attribute.body);
        }
    }
    None
}

// The index in the body of a ConstantValue.
fn value_index(body: &[u8]) -> Option<u16>
    ensures { result ≡ value_index body.now }
{
    match body {
        [high, low] => Some(u16::from_be_bytes([*high, *low])),
        _ => None,
    }
}

// The value that a constant gives to a field.
fn value_by(entry: Entry<'_>) -> FieldValue
    ensures { (pool : List Constant) → constant_of_value pool result ≡ constant_by pool (constant_of entry.entry) }
{
    match entry {
        Entry::Integer(n) => FieldValue::Int(n),
        Entry::Long(n) => FieldValue::Long(n),
        Entry::Text(index) => FieldValue::Text(index),
        _ => FieldValue::Unfit,
    }
}

// The value that the body of a ConstantValue means.
fn value_of_body(pool: &Pool<'_>, body: &[u8]) -> FieldValue
    ensures { constant_of_value pool.now result ≡ constant_of_body pool.now body.now }
{
    let Some(index) = value_index(body) else {
        return FieldValue::Unfit;
    };
    match pool.get(index) {
        Some(entry) => value_by(entry),
        None => FieldValue::Unfit,
    }
}

// The value with which a field begins, where its file has one.
#[tactic(auto, using(crate::proofs::FieldValues::no_value_reported))]
fn value_of(pool: &Pool<'_>, field: &MemberView<'_>) -> Option<FieldValue>
    ensures { reported_value pool.now result ≡ constant_in pool.now (member_of field.now) }
{
    let body = value_body(pool, field)?;
    Some(value_of_body(pool, body))
}

/// The values with which the fields of a file begin, where the file has values. A text is given by its index.
pub fn values_of(
    alloc: Global,
    pool: &Pool<'_>,
    fields: &[MemberView<'_>],
) -> Result<Vec<Option<FieldValue>>, LoadError>
    ensures values { IfOk result (λ values. map (reported_value pool.now) values.items ≡ map (constant_in pool.now) (map member_of fields.now)) }
    ensures memory { IfErr result IsMemory }
{
    let mut values = Vec::new(alloc);
    for field in fields {
        values.push(value_of(pool, field))?;
    }
    Ok(values)
}
