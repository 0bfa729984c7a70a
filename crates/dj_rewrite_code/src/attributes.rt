//! Attributes by their names.
ghost use Rattle.std.specs.Prelude.{◌≡◌, map, filter, codes, IfOk};
ghost use Rattle.dj_class.specs.Parts.{attribute_of};
ghost use Rattle.dj_early_rules.specs.trusted.Attributes.{is_named};
ghost use Rattle.dj_rewrite_code.specs.Answers.{with_body};

use dj_class::{Attribute, Attributes};
use dj_pool::Pool;
use std::alloc::{AllocError, Global};

// Whether the attribute has this name.
fn is_named(pool: &Pool<'_>, name: &[u8], attribute: &Attribute<'_>) -> bool
    ensures { result ≡ is_named pool.now name.now (attribute_of attribute.now) }
{
    match pool.text(attribute.name) {
        Some(text) => text == name,
        None => false,
    }
}

/// The attributes of this name, in order.
pub fn attributes_named<'a>(
    alloc: Global,
    pool: &Pool<'_>,
    name: &[u8],
    attributes: &[Attribute<'a>],
) -> Result<Attributes<'a>, AllocError>
    ensures { IfOk result (λ found. found ≡ filter (is_named pool.now name.now) (map attribute_of attributes.now)) }
{
    let mut found = Attributes::new(alloc);
    for attribute in attributes {
        if is_named(pool, name, attribute) {
            found.push(*attribute)?;
        }
    }
    Ok(found)
}

/// The same attributes, all with this body.
pub(crate) fn with_bodies<'a>(
    alloc: Global,
    attributes: &[Attribute<'_>],
    body: &'a [u8],
) -> Result<Attributes<'a>, AllocError>
    ensures { IfOk result (λ made. made ≡ map (with_body body.now) (map attribute_of attributes.now)) }
{
    let mut made = Attributes::new(alloc);
    for attribute in attributes {
        made.push(Attribute {
            name: attribute.name,
            body,
        })?;
    }
    Ok(made)
}
