//! Descriptors as texts (JVMS 4.3).
ghost use Rattle.std.specs.Prelude.{◌≡◌, ◌++◌, IfOk, OnOk, replicate};
ghost use Rattle.std.specs.List.{flat_map};
ghost use Rattle.dj_names.specs.trusted.Descriptors.{base_letter, of_text, type_text, return_text, desc_text};

use dj_names::{Base, Desc, Name, Of, Ty};
use std::alloc::{AllocError, Global};

// The letter of a base type (JVMS table 4.3-A).
fn letter_of(base: Base) -> &'static [u8]
    ensures { result.now ≡ base_letter base }
{
    match base {
        Base::Boolean => b"Z",
        Base::Byte => b"B",
        Base::Char => b"C",
        Base::Short => b"S",
        Base::Int => b"I",
        Base::Long => b"J",
        Base::Float => b"F",
        Base::Double => b"D",
    }
}

// Appends an element's type.
fn put_of(text: &mut Name, of: &Of) -> Result<(), AllocError>
    ensures { OnOk result (text.new ≡ text.old ++ of_text of.now) }
{
    match of {
        Of::Base(base) => text.extend(letter_of(*base)),
        Of::Class(name) => {
            text.push(b'L')?;
            text.extend(name.as_slice())?;
            text.push(b';')
        }
    }
}

// Appends this many brackets.
fn put_brackets(text: &mut Name, dims: u8) -> Result<(), AllocError>
    ensures { OnOk result (text.new ≡ text.old ++ replicate dims 91) }
{
    for _ in 0..dims {
        text.push(b'[')?;
    }
    Ok(())
}

// Appends a type.
fn put_type(text: &mut Name, ty: &Ty) -> Result<(), AllocError>
    ensures { OnOk result (text.new ≡ text.old ++ type_text ty.now) }
{
    put_brackets(text, ty.dims)?;
    put_of(text, &ty.of)
}

// Appends types, in order.
fn put_types(text: &mut Name, types: &[Ty]) -> Result<(), AllocError>
    ensures { OnOk result (text.new ≡ text.old ++ flat_map type_text types.now) }
{
    for ty in types {
        put_type(text, ty)?;
    }
    Ok(())
}

// Appends what a method returns.
fn put_result(text: &mut Name, ret: &Option<Ty>) -> Result<(), AllocError>
    ensures { OnOk result (text.new ≡ text.old ++ return_text ret.now) }
{
    match ret {
        Some(ty) => put_type(text, ty),
        None => text.push(b'V'),
    }
}

/// The text of a type.
pub fn spell_type(alloc: Global, ty: &Ty) -> Result<Name, AllocError>
    ensures { IfOk result (λ text. text ≡ type_text ty.now) }
{
    let mut text = Name::new(alloc);
    put_type(&mut text, ty)?;
    Ok(text)
}

/// The text of a descriptor.
pub(crate) fn spell_desc(alloc: Global, desc: &Desc) -> Result<Name, AllocError>
    ensures { IfOk result (λ text. text ≡ desc_text desc.now) }
{
    let mut text = Name::new(alloc);
    match desc {
        Desc::Field(ty) => put_type(&mut text, ty)?,
        Desc::Method { params, ret } => {
            text.push(b'(')?;
            put_types(&mut text, params.as_slice())?;
            text.push(b')')?;
            put_result(&mut text, ret)?;
        }
    }
    Ok(text)
}
