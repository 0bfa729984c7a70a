//! One text renamed.
ghost use Rattle.std.specs.Prelude.{◌≡◌, ◌∷◌, [], nat_eq, IfOk, IfErr};
ghost use Rattle.std.specs.List.{starts_with};
ghost use Rattle.dj_names.specs.trusted.Descriptors.{IsArrayDescriptor};
ghost use Rattle.dj_pool.specs.trusted.Pool.{IsClassText};
ghost use Rattle.dj_declarations.specs.trusted.Files.{desc_in, type_in};
ghost use Rattle.dj_rename.specs.Names.{renamed_class, renamed_desc, plain_text};
ghost use Rattle.dj_rename.specs.Refusals.{Renames, IsDescriptor};

use crate::error::RenameError;
use crate::spelled::{plain_part, plain_type, sandbox_desc, sandbox_name, sandbox_type};
use dj_names::{Desc, DescError, Name, Ty, read_desc};
use std::alloc::{AllocError, Global};

// The greatest length of a text (JVMS 4.4.7).
const MOST_BYTES: usize = 65535;

// Whether the text of a class is an array's descriptor.
fn is_array(text: &[u8]) -> bool
    ensures { result ≡ starts_with nat_eq text.now (91 ∷ []) }
{
    match text {
        [] => false,
        [first, ..] => *first == b'[',
    }
}

// The descriptor that a text is.
fn described(alloc: Global, text: &[u8]) -> Result<Desc, AllocError>
    requires { IsDescriptor text.now }
    ensures { IfOk result (λ desc. desc ≡ desc_in text.now) }
{
    match read_desc(alloc, text) {
        Ok(desc) => Ok(desc),
        Err(DescError::Memory) => Err(AllocError),
        Err(DescError::NotADescriptor) => unreachable!(),
    }
}

// The type that an array's descriptor describes.
#[tactic(auto, using(crate::proofs::TextLaws::array_described, crate::proofs::TextLaws::array_ty, crate::proofs::TextLaws::array_no_method))]
fn array_of(alloc: Global, text: &[u8]) -> Result<Ty, AllocError>
    requires { IsArrayDescriptor text.now }
    ensures { IfOk result (λ ty. ty ≡ type_in text.now) }
{
    match described(alloc, text)? {
        Desc::Field(ty) => Ok(ty),
        Desc::Method { .. } => unreachable!(),
    }
}

/// The renamed text of a class.
#[tactic(auto, using(crate::proofs::TextLaws::array_there, crate::proofs::TextLaws::array_renamed, crate::proofs::TextLaws::name_renamed))]
pub(crate) fn class_renamed(alloc: Global, text: &[u8]) -> Result<Name, AllocError>
    requires { IsClassText text.now }
    ensures { IfOk result (λ renamed. renamed ≡ renamed_class text.now) }
{
    if is_array(text) {
        let ty = array_of(alloc, text)?;
        sandbox_type(alloc, &ty)
    } else {
        sandbox_name(alloc, text)
    }
}

/// The renamed text of a descriptor.
#[tactic(auto, using(crate::proofs::TextLaws::desc_spelled))]
pub(crate) fn desc_renamed(alloc: Global, text: &[u8]) -> Result<Name, AllocError>
    requires { IsDescriptor text.now }
    ensures { IfOk result (λ renamed. renamed ≡ renamed_desc text.now) }
{
    let desc = described(alloc, text)?;
    sandbox_desc(alloc, &desc)
}

// The text, unless it is too long.
fn short(text: Name) -> Result<Name, RenameError>
    ensures { Renames text result }
{
    if MOST_BYTES < text.as_slice().len() {
        Err(RenameError::Long(0))
    } else {
        Ok(text)
    }
}

/// A class's name, or the descriptor of an array, with `sandbox/` before each class's name.
pub fn rename_name(alloc: Global, name: &[u8]) -> Result<Name, RenameError>
    requires { IsClassText name.now }
    ensures { Renames (renamed_class name.now) result }
{
    let text = class_renamed(alloc, name)?;
    short(text)
}

/// A class's name, or the descriptor of an array, without the `sandbox/` before a class's name.
#[tactic(auto, using(crate::proofs::TextLaws::array_there, crate::proofs::TextLaws::array_plain, crate::proofs::TextLaws::name_plain))]
pub fn plain_name(alloc: Global, name: &[u8]) -> Result<Name, RenameError>
    requires { IsClassText name.now }
    ensures ok { IfOk result (λ text. text ≡ plain_text name.now) }
    ensures err { IfErr result (λ e. e ≡ RenameError.Memory) }
{
    if is_array(name) {
        let ty = array_of(alloc, name)?;
        Ok(plain_type(alloc, &ty)?)
    } else {
        Ok(Name::from_slice(alloc, plain_part(name))?)
    }
}

/// A descriptor with `sandbox/` before each class's name.
pub fn rename_desc(alloc: Global, desc: &[u8]) -> Result<Name, RenameError>
    requires { IsDescriptor desc.now }
    ensures { Renames (renamed_desc desc.now) result }
{
    let text = desc_renamed(alloc, desc)?;
    short(text)
}
