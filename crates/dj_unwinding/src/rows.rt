ghost use Rattle.std.specs.Prelude.{◌≡◌, ◌<◌, length, Some, None, IfErr, IfOk, slice_get};
ghost use Rattle.dj_model.specs.trusted.Program.{Range, code_of};
ghost use Rattle.dj_model.specs.Sound.{IsSound};
ghost use Rattle.dj_model.specs.trusted.Step as model;
ghost use Rattle.dj_numbering.specs.Typed.{type_at};
ghost use Rattle.dj_numbering.specs.Members.{all_methods};
ghost use Rattle.dj_image.specs.Imaged.{program_of, typed_of};
ghost use Rattle.dj_current_method.specs.Activations.{declared_at};
ghost use Rattle.dj_current_method.specs.Reported.{IsCodeOf};
ghost use Rattle.dj_unwinding.specs.HandlerRows.{HasRow, IsRowOf};
ghost use Rattle.dj_unwinding.specs.Short.{AreShort};
ghost use Rattle.dj_unwinding.specs.Unwinding.{IsClassNumber, is_handling, ranges_at};

use dj_current_method::code_of;
use dj_image::{Image, MethodCode, MethodId};
use dj_labels::Protected;
use dj_library_types::Classes;
use std::alloc::AllocError;

/// The handler of the first row of a method that covers the instruction and catches the class.
#[tactic(auto, using(crate::proofs::Catching::handler_by_ranges, crate::proofs::Catching::no_code_handles))]
pub(crate) fn handler_of(
    image: &Image,
    method: MethodId,
    number: u32,
    class: u32,
) -> Result<Option<u32>, AllocError>
    requires sound { IsSound (program_of image.now) image.now.prefix }
    requires there { method.number < length (all_methods (program_of image.now)) }
    requires class { IsClassNumber (typed_of image.now) class }
    ensures found { IfOk result (λ handler. handler ≡ model.handler_of (program_of image.now) image.now.prefix (type_at (typed_of image.now) class) number (code_of (program_of image.now) (declared_at (program_of image.now) method.number))) }
    ensures frugal { AreShort image.now → IfErr result (λ _. ⊥) }
{
    match code_of(image, method) {
        Some(code) => handler_in(image, method, code, number, class),
        None => Ok(None),
    }
}

// The handler of the first such row of the method's code.
fn handler_in(
    image: &Image,
    method: MethodId,
    code: &MethodCode,
    number: u32,
    class: u32,
) -> Result<Option<u32>, AllocError>
    requires sound { IsSound (program_of image.now) image.now.prefix }
    requires there { method.number < length (all_methods (program_of image.now)) }
    requires reported { IsCodeOf image.now method.number code.now }
    requires class { IsClassNumber (typed_of image.now) class }
    ensures found { IfOk result (λ handler. handler ≡ model.handler_in (program_of image.now) image.now.prefix (type_at (typed_of image.now) class) number (ranges_at image.now method.number)) }
    ensures frugal { AreShort image.now → IfErr result (λ _. ⊥) }
{
    for (at, row) in code.code.ranges.as_slice().iter().enumerate() {
        if handles(image, method, row, at, number, class)? {
            return Ok(Some(row.handler));
        }
    }
    Ok(None)
}

// Whether a row of the method covers the instruction and catches the class. There is no memory for a row whose place has no number of 32 bits.
#[tactic(auto, using(crate::proofs::Catching::has_row, crate::proofs::ShortLaws::row_numbered))]
fn handles(
    image: &Image,
    method: MethodId,
    row: &Protected,
    at: usize,
    number: u32,
    class: u32,
) -> Result<bool, AllocError>
    requires sound { IsSound (program_of image.now) image.now.prefix }
    requires there { method.number < length (all_methods (program_of image.now)) }
    requires row { IsRowOf image.now method.number at row.now }
    requires class { IsClassNumber (typed_of image.now) class }
    ensures says { IfOk result (λ handles. (range : Range) → slice_get (ranges_at image.now method.number) at ≡ Some range
        → handles ≡ is_handling (program_of image.now) image.now.prefix (type_at (typed_of image.now) class) number range) }
    ensures frugal { AreShort image.now → IfErr result (λ _. ⊥) }
{
    if number < row.start || row.end <= number {
        return Ok(false);
    }
    if row.catch_type == 0 {
        return Ok(true);
    }
    let Ok(at) = u32::try_from(at) else {
        return Err(AllocError);
    };
    Ok(is_caught(image, method, at, class))
}

// Whether the type that a row of the method names is the class or is above it.
fn is_caught(image: &Image, method: MethodId, row: u32, class: u32) -> bool
    requires sound { IsSound (program_of image.now) image.now.prefix }
    requires row { HasRow image.now method.number row }
    requires class { IsClassNumber (typed_of image.now) class }
    ensures { (range : Range) → slice_get (ranges_at image.now method.number) row ≡ Some range → (range.catches ≡ None → ⊥)
        → result ≡ model.catches (program_of image.now) image.now.prefix (type_at (typed_of image.now) class) range.catches }
{
    image.are_plain();
    match image.catch_class(method, row) {
        Some(caught) => Image::sub_type(image, class, caught),
        None => false,
    }
}
