//! Texts of types whose classes have other names.
ghost use Rattle.std.specs.Prelude.{◌≡◌, ◌++◌, IfOk, OnOk, map, option_map};
ghost use Rattle.std.specs.List.{flat_map};
ghost use Rattle.dj_names.specs.Types.{type_map, desc_map, in_sandbox, sandbox_prefix};
ghost use Rattle.dj_names.specs.trusted.Types.{of_map};
ghost use Rattle.dj_names.specs.trusted.Descriptors.{type_text, return_text, desc_text};
ghost use Rattle.dj_model.specs.trusted.Natives.{plain_name, plain_class};

use dj_declarations::spell_type;
use dj_names::{Desc, Name, Of, Ty};
use std::alloc::{AllocError, Global};

// What stands before the names of rewritten classes.
const PREFIX: &[u8] = b"sandbox/";

/// A class's name in the package of rewritten classes.
pub(crate) fn sandbox_name(alloc: Global, name: &[u8]) -> Result<Name, AllocError>
    ensures { IfOk result (λ text. text ≡ in_sandbox name.now) }
{
    let mut text = Name::from_slice(alloc, PREFIX)?;
    text.extend(name)?;
    Ok(text)
}

/// A class's name without that package.
pub(crate) fn plain_part(name: &[u8]) -> &[u8]
    ensures { result.now ≡ plain_name sandbox_prefix name.now }
{
    if name.starts_with(PREFIX) {
        &name[PREFIX.len()..]
    } else {
        name
    }
}

// An element whose class is in the package.
fn sandbox_of(alloc: Global, of: &Of) -> Result<Of, AllocError>
    ensures { IfOk result (λ other. other ≡ of_map in_sandbox of.now) }
{
    match of {
        Of::Base(base) => Ok(Of::Base(*base)),
        Of::Class(name) => Ok(Of::Class(sandbox_name(alloc, name.as_slice())?)),
    }
}

// An element whose class is not in the package.
fn plain_of(alloc: Global, of: &Of) -> Result<Of, AllocError>
    ensures { IfOk result (λ other. other ≡ of_map (plain_name sandbox_prefix) of.now) }
{
    match of {
        Of::Base(base) => Ok(Of::Base(*base)),
        Of::Class(name) => {
            let part = plain_part(name.as_slice());
            Ok(Of::Class(Name::from_slice(alloc, part)?))
        }
    }
}

/// The text of a type whose class is in the package.
pub(crate) fn sandbox_type(alloc: Global, ty: &Ty) -> Result<Name, AllocError>
    ensures { IfOk result (λ text. text ≡ type_text (type_map in_sandbox ty.now)) }
{
    let of = sandbox_of(alloc, &ty.of)?;
    let other = Ty { dims: ty.dims, of };
    spell_type(alloc, &other)
}

/// The text of a type whose class is not in the package.
pub(crate) fn plain_type(alloc: Global, ty: &Ty) -> Result<Name, AllocError>
    ensures { IfOk result (λ text. text ≡ type_text (plain_class sandbox_prefix ty.now)) }
{
    let of = plain_of(alloc, &ty.of)?;
    let other = Ty { dims: ty.dims, of };
    spell_type(alloc, &other)
}

// Appends a type.
fn put_type(alloc: Global, text: &mut Name, ty: &Ty) -> Result<(), AllocError>
    ensures { OnOk result (text.new ≡ text.old ++ type_text (type_map in_sandbox ty.now)) }
{
    let spelled = sandbox_type(alloc, ty)?;
    text.extend(spelled.as_slice())
}

// Appends types, in order.
fn put_types(alloc: Global, text: &mut Name, types: &[Ty]) -> Result<(), AllocError>
    ensures { OnOk result (text.new ≡ text.old ++ flat_map type_text (map (type_map in_sandbox) types.now)) }
{
    for ty in types {
        put_type(alloc, text, ty)?;
    }
    Ok(())
}

// Appends what a method returns.
fn put_result(alloc: Global, text: &mut Name, ret: &Option<Ty>) -> Result<(), AllocError>
    ensures { OnOk result (text.new ≡ text.old ++ return_text (option_map (type_map in_sandbox) ret.now)) }
{
    match ret {
        Some(ty) => put_type(alloc, text, ty),
        None => text.push(b'V'),
    }
}

/// The text of a descriptor whose classes are in the package.
pub(crate) fn sandbox_desc(alloc: Global, desc: &Desc) -> Result<Name, AllocError>
    ensures { IfOk result (λ text. text ≡ desc_text (desc_map in_sandbox desc.now)) }
{
    let mut text = Name::new(alloc);
    match desc {
        Desc::Field(ty) => put_type(alloc, &mut text, ty)?,
        Desc::Method { params, ret } => {
            text.push(b'(')?;
            put_types(alloc, &mut text, params.as_slice())?;
            text.push(b')')?;
            put_result(alloc, &mut text, ret)?;
        }
    }
    Ok(text)
}
