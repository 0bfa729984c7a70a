ghost use Rattle.std.specs.Prelude.{◌≡◌, map, IfOk};
ghost use Rattle.dj_class.specs.Parts.{attribute_of};
ghost use Rattle.dj_early_rules.specs.trusted.Attributes.{is_named, bodies_of};

use dj_class::Attribute;
use dj_pool::Pool;
use std::alloc::{AllocError, Global};

// Whether the attribute has this name.
fn is_named(pool: &Pool<'_>, name: &[u8], attribute: &Attribute<'_>) -> bool
    ensures { result ≡ is_named pool.now name.now (attribute_of attribute.now) }
{
    match pool.text(attribute.name) {
        Some(text) => text == name,
        None => false,
    }
}

/// The bodies of the attributes of this name.
pub fn bodies_named<'a>(
    alloc: Global,
    pool: &Pool<'_>,
    name: &[u8],
    attributes: &[Attribute<'a>],
) -> Result<Vec<&'a [u8]>, AllocError>
    ensures { IfOk result (λ bodies. map (λ body. body.now) bodies.items
        ≡ bodies_of pool.now name.now (map attribute_of attributes.now)) }
{
    let mut bodies = Vec::new(alloc);
    for attribute in attributes {
        if is_named(pool, name, attribute) {
            bodies.push(attribute.body)?;
        }
    }
    Ok(bodies)
}
