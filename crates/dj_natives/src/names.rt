ghost use Rattle.std.specs.Prelude.{◌≡◌, ◌<◌, ◌≤◌, ◌++◌, IfOk, OnOk, length};
ghost use Rattle.dj_model.specs.trusted.Natives as model;
ghost use Rattle.dj_model.specs.trusted.Natives.{class_name, plain_class};
ghost use Rattle.dj_library_types.specs.Numbered.{type_at};
ghost use Rattle.dj_natives.specs.Names.{after_brackets, plain_elements, plain_text};

use dj_library_types::Classes;
use dj_names::{Name, Units, is_modified_utf8, units_of};
use std::alloc::{AllocError, Global};

// What comes before the names of the library's classes.
fn prefix_of<C: Classes>(classes: &C) -> &[u8]
    ensures { result.now ≡ C.prefix classes.now }
{
    let string = classes.name_of(classes.string());
    &string[..string.len() - b"java/lang/String".len()]
}

/// The name of a class, or the descriptor of an array, without what comes before the names of the library's classes.
pub fn plain_name<C: Classes>(alloc: Global, classes: &C, class: u32) -> Result<Name, AllocError>
    requires { class < length (C.types classes.now) }
    ensures { IfOk result (λ name. name ≡ class_name (plain_class (C.prefix classes.now) (type_at (C.types classes.now) class))) }
{
    classes.are_plain();
    plain_text(alloc, classes.name_of(class), prefix_of(classes))
}

// The same, of a name or a descriptor.
fn plain_text(alloc: Global, text: &[u8], prefix: &[u8]) -> Result<Name, AllocError>
    ensures { IfOk result (λ name. name ≡ plain_text prefix.now text.now) }
{
    let elements = without_brackets(text);
    if elements.len() == text.len() {
        return Name::from_slice(alloc, without_prefix(text, prefix));
    }
    let mut plain = Name::from_slice(alloc, &text[..text.len() - elements.len()])?;
    put_elements(&mut plain, elements, prefix)?;
    Ok(plain)
}

// Appends what comes after the brackets of a descriptor.
fn put_elements(plain: &mut Name, elements: &[u8], prefix: &[u8]) -> Result<(), AllocError>
    ensures { OnOk result (plain.new ≡ plain.old ++ plain_elements prefix.now elements.now) }
{
    if elements.len() < 2 {
        return plain.extend(elements);
    }
    plain.push(b'L')?;
    plain.extend(without_prefix(&elements[1..elements.len() - 1], prefix))?;
    plain.push(b';')
}

// What follows the brackets of an array's descriptor.
#[tactic(auto, using(crate::proofs::NameFacts::shorter))]
fn without_brackets(text: &[u8]) -> &[u8]
    ensures after { result.now ≡ after_brackets text.now }
    ensures few { length result.now ≤ length text.now }
{
    let mut rest = text;
    while let [b'[', more @ ..] = rest {
        rest = more;
    }
    rest
}

/// The units that a name spells, and none where it spells none.
#[tactic(auto, using(crate::proofs::NameUnits::spelled, crate::proofs::NameUnits::unread))]
pub fn name_units(alloc: Global, name: &[u8]) -> Result<Units, AllocError>
    ensures { IfOk result (λ units. units ≡ model.name_units name.now) }
{
    if !is_modified_utf8(name) {
        return Ok(Units::new(alloc));
    }
    let Ok(_) = u32::try_from(name.len()) else {
        return Err(AllocError);
    };
    units_of(alloc, name).map_err(|_| AllocError)
}

// A name without the prefix, where it begins with it.
fn without_prefix<'a>(name: &'a [u8], prefix: &[u8]) -> &'a [u8]
    ensures { result.now ≡ model.plain_name prefix.now name.now }
{
    if name.starts_with(prefix) {
        &name[prefix.len()..]
    } else {
        name
    }
}

/// With a dot for each slash.
pub fn with_dots(alloc: Global, units: &[u16]) -> Result<Units, AllocError>
    ensures { IfOk result (λ dotted. dotted ≡ model.with_dots units.now) }
{
    let mut dotted = Units::new(alloc);
    for &unit in units {
        dotted.push(if unit == u16::from(b'/') {
            u16::from(b'.')
        } else {
            unit
        })?;
    }
    Ok(dotted)
}
