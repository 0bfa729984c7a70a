ghost use Rattle.std.specs.Prelude.{◌≡◌, Some, IfOk, IfSome, length, slice_get};
ghost use Rattle.dj_names.specs.trusted.Types.{parameters_of};
ghost use Rattle.dj_names.specs.trusted.Descriptors.{Describes};
ghost use Rattle.dj_names.specs.declared.descriptor.Desc.{Desc};
ghost use Rattle.dj_names.specs.declared.descriptor.Of.TheVariants as ofs;
ghost use Rattle.dj_names.specs.declared.native.NativeId.{NativeId};
ghost use Rattle.dj_model.specs.trusted.Program.{Native};
ghost use Rattle.dj_model.specs.trusted.Linking.{FoundMethod};
ghost use Rattle.dj_numbering.specs.Typed.{types_of};
ghost use Rattle.dj_numbering.specs.Members.{all_methods};
ghost use Rattle.dj_image.specs.Imaged.{program_of, typed_of};
ghost use Rattle.dj_invocation.specs.Choosing.{IsMethod, IsNumber};
ghost use Rattle.dj_invocation.specs.Natives.{AreClasses, AreNatives, SaysClass, row_at};

use dj_image::{Body, Image, MethodId};
use dj_library_types::Classes;
use dj_names::{Base, Desc, DescError, Kind, Of, Ty, kind_of, read_desc};
use std::alloc::{AllocError, AllocFailed, Global};
use std::marker::Model;
use thiserror::Error;

/// Why the classes of native methods were not found.
#[derive(Clone, Copy, Debug, PartialEq, Eq, Error)]
pub enum NativesError {
    /// There was no memory.
    #[error("out of memory")]
    Memory,
    /// A native method takes objects of a class that isn't there, or arrays that aren't of chars; no method of the libraries does.
    #[error("a native method takes references of a class that has no number")]
    Unnumbered,
}

impl From<AllocError> for NativesError {
    ghost use Rattle.dj_invocation.specs.declared.natives.NativesError.TheVariants.{Memory};

    ghost from_gives = { λ _ e. e ≡ Memory };

    fn from(_error: AllocError) -> NativesError {
        NativesError::Memory
    }
}

impl<T: Drop> From<AllocFailed<T>> for NativesError {
    ghost use Rattle.dj_invocation.specs.declared.natives.NativesError.TheVariants.{Memory};

    ghost from_gives = { λ _ e. e ≡ Memory };

    fn from(_error: AllocFailed<T>) -> NativesError {
        NativesError::Memory
    }
}

impl From<DescError> for NativesError {
    ghost use Rattle.dj_invocation.specs.declared.natives.NativesError.TheVariants.{Memory};

    ghost from_gives = { λ _ e. e ≡ Memory };

    fn from(_error: DescError) -> NativesError {
        NativesError::Memory
    }
}

/// For each native method of an image the classes of its parameters, where they take references.
#[derive(Drop)]
pub struct Natives {
    // By the number of a method.
    rows: Vec<Vec<Option<u32>>>,
}

impl Model for Natives {
    ghost use Rattle.std.specs.Prelude.{ℕ, List, Option, map};

    ghost Value = { List (List (Option ℕ)) };

    ghost view = { λ natives. map (λ row. row.items) natives.rows.items };
}

impl Natives {
    /// Reads the descriptors of the native methods of an image. No other descriptor is read, so this takes a time linear in the number of methods.
    pub fn of(alloc: Global, image: &Image) -> Result<Natives, NativesError>
        ensures { IfOk result (AreNatives image.now) }
    {
        let count = method_count(image)?;
        let mut rows = Vec::new(alloc);
        for number in 0..count {
            rows.push(row_of(alloc, image, MethodId { number })?)?;
        }
        Ok(Natives { rows })
    }

    /// The classes of the parameters of a method, where it is native.
    pub fn classes_of(&self, method: MethodId) -> &[Option<u32>]
        ensures { result.now ≡ row_at self.now method.number }
    {
        match self.rows.get(method.number as usize) {
            Some(row) => row.as_slice(),
            None => &[],
        }
    }
}

// How many methods the classes of an image have.
fn method_count(image: &Image) -> Result<u32, NativesError>
    ensures { IfOk result (λ count. count ≡ length (all_methods (program_of image.now))) }
{
    let linker = image.linker();
    let classes = linker.classes();
    let mut count: u32 = 0;
    for class in 0..classes.class_count() {
        let Ok(more) = u32::try_from(classes.method_count(class)) else {
            return Err(NativesError::Memory);
        };
        let Some(sum) = count.checked_add(more) else {
            return Err(NativesError::Memory);
        };
        count = sum;
    }
    Ok(count)
}

// The classes of a method's parameters, where it is native.
fn row_of(alloc: Global, image: &Image, method: MethodId) -> Result<Vec<Option<u32>>, NativesError>
    requires { IsNumber (program_of image.now) method }
    ensures { (found : FoundMethod) (id : NativeId) → IsMethod (program_of image.now) method found → found.method.body ≡ Native id
        → IfOk result (λ row. AreClasses (typed_of image.now) (parameters_of found.method.desc) row.items) }
{
    match image.body(method) {
        Body::Native(_) => classes_in(alloc, image, image.method(method).desc),
        _ => Ok(Vec::new(alloc)),
    }
}

// The classes of the parameters of a descriptor.
fn classes_in(alloc: Global, image: &Image, text: &[u8]) -> Result<Vec<Option<u32>>, NativesError>
    ensures { (desc : Desc) → Describes text.now desc → IfOk result (λ row. AreClasses (typed_of image.now) (parameters_of desc) row.items) }
{
    match read_desc(alloc, text)? {
        Desc::Method { params, ret: _ } => classes_of(alloc, image, params.as_slice()),
        Desc::Field(_) => Ok(Vec::new(alloc)),
    }
}

// The classes of types.
fn classes_of(alloc: Global, image: &Image, types: &[Ty]) -> Result<Vec<Option<u32>>, NativesError>
    ensures { IfOk result (λ row. AreClasses (typed_of image.now) types.now row.items) }
{
    let mut classes = Vec::new(alloc);
    for ty in types {
        classes.push(class_of(image, ty)?)?;
    }
    Ok(classes)
}

// The class of a type of references.
fn class_of(image: &Image, ty: &Ty) -> Result<Option<u32>, NativesError>
    ensures { IfOk result (SaysClass (typed_of image.now) ty.now) }
{
    match kind_of(ty) {
        Some(Kind::Ref) => match number_of(image, ty) {
            Some(class) => Ok(Some(class)),
            None => Err(NativesError::Unnumbered),
        },
        _ => Ok(None),
    }
}

// The number of a class or of the arrays of chars.
fn number_of(image: &Image, ty: &Ty) -> Option<u32>
    ensures { IfSome result (λ class. slice_get (types_of (typed_of image.now)) class ≡ Some ty.now) }
{
    match &ty.of {
        Of::Class(name) => named_class(image, ty.dims, name.as_slice()),
        Of::Base(base) => array_class(image, ty.dims, *base),
    }
}

// The number of the class of this name; none of arrays.
fn named_class(image: &Image, dims: u8, name: &[u8]) -> Option<u32>
    ensures { IfSome result (λ class. slice_get (types_of (typed_of image.now)) class ≡ Some (record { dims = dims; of = ofs.Class name.now })) }
{
    if dims != 0 {
        return None;
    }
    let linker = image.linker();
    linker.classes().class_named(name)
}

// The number of the arrays of chars; none of others.
fn array_class(image: &Image, dims: u8, base: Base) -> Option<u32>
    ensures { IfSome result (λ class. slice_get (types_of (typed_of image.now)) class ≡ Some (record { dims = dims; of = ofs.Base base })) }
{
    if dims != 1 {
        return None;
    }
    match base {
        Base::Char => Some(Classes::chars(image)),
        _ => None,
    }
}
