ghost use Rattle.std.specs.Prelude.{◌≡◌, ◌≢◌, ◌∷◌, ℕ, List, length, slice_index, IfSome, IfNone, IfOk, IsErrOf};
ghost use Rattle.dj_cursor.specs.Options.{GivesRead};
ghost use Rattle.dj_names.specs.declared.descriptor.Desc.{Desc};
ghost use Rattle.dj_names.specs.trusted.Descriptors.{Describes};
ghost use Rattle.dj_names.specs.trusted.DescReading.{type_read, params_read, field_read, return_read, method_read, opens, desc_read};
ghost use Rattle.dj_names.specs.DescReading.{is_memory, element_of};

use crate::descriptor::{Desc, Of, Ty, Tys};
use crate::lists::Name;
use crate::measure::type_slots_of;
use crate::walk::{ElementView, type_at};
use std::alloc::{AllocError, Global};
use thiserror::Error;

/// Why a descriptor was not read.
#[derive(Clone, Copy, Debug, PartialEq, Eq, Error)]
pub enum DescError {
    #[error("the text is no descriptor")]
    NotADescriptor,
    #[error("out of memory")]
    Memory,
}

impl From<AllocError> for DescError {
    ghost use Rattle.dj_names.specs.declared.read.DescError.TheVariants.{Memory};

    ghost from_gives = { λ _ e. e ≡ Memory };

    fn from(_error: AllocError) -> DescError {
        DescError::Memory
    }
}

/// The descriptor of a field or a method that the text is (JVMS 4.3).
pub fn read_desc(alloc: Global, text: &[u8]) -> Result<Desc, DescError>
    ensures ok { IfOk result (λ d. Describes text.now d) }
    ensures refused { IsErrOf result DescError.NotADescriptor → (d : Desc) → Describes text.now d → ⊥ }
{
    desc_of(alloc, text)
}

/// A text describes one descriptor only.
pub fn one_descriptor()
    ensures { (text : List ℕ) (a b : Desc) → Describes text a → Describes text b → a ≡ b }
{}

#[tactic(auto, unfolding(crate::specs::trusted::DescReading::desc_read))]
fn desc_of(alloc: Global, text: &[u8]) -> Result<Desc, DescError>
    ensures { GivesRead is_memory (λ d. d) result (desc_read text.now) }
{
    if opens_method(text) {
        let (params, ret) = method_of(alloc, text)?;
        Ok(Desc::Method { params, ret })
    } else {
        let ty = field_of(alloc, text)?;
        Ok(Desc::Field(ty))
    }
}

fn opens_method(text: &[u8]) -> bool
    ensures { result ≡ opens text.now }
{
    match text {
        [] => false,
        [first, ..] => *first == b'(',
    }
}

#[tactic(auto, unfolding(crate::specs::trusted::DescReading::field_read))]
fn field_of(alloc: Global, text: &[u8]) -> Result<Ty, DescError>
    ensures { GivesRead is_memory (λ ty. ty) result (field_read text.now) }
{
    let (ty, rest) = type_of(alloc, text)?;
    if rest.is_empty() {
        Ok(ty)
    } else {
        Err(DescError::NotADescriptor)
    }
}

#[tactic(auto, unfolding(crate::specs::trusted::DescReading::method_read))]
fn method_of(alloc: Global, text: &[u8]) -> Result<(Tys, Option<Ty>), DescError>
    ensures { GivesRead is_memory (λ m. m) result (method_read text.now) }
{
    match text {
        [] => Err(DescError::NotADescriptor),
        [first, rest @ ..] => {
            if *first != b'(' {
                return Err(DescError::NotADescriptor);
            }
            let (params, after) = params_of(alloc, rest)?;
            let ret = return_of(alloc, after)?;
            Ok((params, ret))
        }
    }
}

#[tactic(auto, unfolding(crate::specs::trusted::DescReading::return_read))]
fn return_of(alloc: Global, text: &[u8]) -> Result<Option<Ty>, DescError>
    ensures { GivesRead is_memory (λ ret. ret) result (return_read text.now) }
{
    match text {
        [] => Err(DescError::NotADescriptor),
        [first, rest @ ..] => {
            if *first == b'V' {
                if rest.is_empty() {
                    return Ok(None);
                }
                return Err(DescError::NotADescriptor);
            }
            let ty = field_of(alloc, text)?;
            Ok(Some(ty))
        }
    }
}

/// The parameters up to their closing parenthesis, and the bytes after it.
#[tactic(auto, unfolding(crate::specs::trusted::DescReading::params_read))]
fn params_of(alloc: Global, bytes: &[u8]) -> Result<(Tys, &[u8]), DescError>
    ensures { GivesRead is_memory (λ x. (x.0, x.1.now)) result (params_read (length bytes.now) 0 bytes.now) }
{
    let mut params = Tys::new(alloc);
    let mut slots: u16 = 0;
    let mut rest = bytes;
    for _ in 0..bytes.len() {
        if let Some(after) = after_close(rest) {
            return Ok((params, after));
        }
        let (ty, after) = type_of(alloc, rest)?;
        slots += type_slots_of(&ty);
        if 255 < slots {
            return Err(DescError::NotADescriptor);
        }
        params.push(ty)?;
        rest = after;
    }
    Err(DescError::NotADescriptor)
}

/// The bytes after the closing parenthesis, where they begin with one.
fn after_close(bytes: &[u8]) -> Option<&[u8]>
    ensures closed { IfSome result (λ after. bytes.now ≡ 41 ∷ after.now) }
    ensures other { IfNone result (slice_index bytes.now 0 ≢ 41) }
{
    match bytes {
        [b')', after @ ..] => Some(after),
        _ => None,
    }
}

/// The type that the bytes begin with, and the bytes after it.
fn type_of(alloc: Global, bytes: &[u8]) -> Result<(Ty, &[u8]), DescError>
    ensures { GivesRead is_memory (λ x. (x.0, x.1.now)) result (type_read bytes.now) }
{
    match type_at(bytes) {
        None => Err(DescError::NotADescriptor),
        Some((dims, element, after)) => {
            let of = owned(alloc, element)?;
            Ok((Ty { dims, of }, after))
        }
    }
}

fn owned(alloc: Global, element: ElementView<'_>) -> Result<Of, AllocError>
    ensures { IfOk result (λ of. of ≡ element_of element.entry) }
{
    match element {
        ElementView::Base(base) => Ok(Of::Base(base)),
        ElementView::Class(name) => Ok(Of::Class(Name::from_slice(alloc, name)?)),
    }
}
