ghost use Rattle.std.specs.Prelude.{◌≡◌, ◌≤◌, IfOk, IfErr, Some, length, slice_get};
ghost use Rattle.dj_names.specs.declared.descriptor.Base.TheVariants as bases;
ghost use Rattle.dj_names.specs.trusted.Types.{base_array};
ghost use Rattle.dj_numbering.specs.Typed.{types_of};
ghost use Rattle.dj_image.specs.Imaged.{typed_of};
ghost use Rattle.dj_step.specs.Running.{FillsBytes, HasZeros, HoldsInput, RefusesInput};

use crate::answers::StartError;
use dj_heap::Heap;
use dj_image::Image;
use dj_names::Element;
use std::alloc::Global;

// A heap with the input alone, as an array of bytes. There is no memory for one whose length has no number of 32 bits.
#[tactic(auto, using(crate::proofs::InputLaws::zeros, crate::proofs::InputLaws::holds, crate::proofs::InputLaws::refused))]
pub(crate) fn input_heap(
    alloc: Global,
    image: &Image,
    input: &[u8],
    limit: u64,
) -> Result<Heap, StartError>
    requires { limit ≤ 2147483648 }
    ensures holds { IfOk result (HoldsInput image.now input.now limit) }
    ensures refused { IfErr result (RefusesInput input.now limit) }
{
    let class = bytes_class(image);
    let mut heap = Heap::new(alloc, limit);
    let Ok(count) = u32::try_from(input.len()) else {
        return Err(StartError::Memory);
    };
    heap.array(class, Element::Byte, count)?;
    fill(&mut heap, input, count);
    Ok(heap)
}

// The number of the arrays of bytes.
#[tactic(auto, using(crate::proofs::BytesLaws::bytes_there, crate::proofs::BytesLaws::bytes_type))]
fn bytes_class(image: &Image) -> u32
    ensures { slice_get (types_of (typed_of image.now)) result ≡ Some (base_array bases.Byte) }
{
    image.are_settled();
    image.is_numbered();
    match image.class_named(b"[B") {
        Some(class) => class,
        None => unreachable!(),
    }
}

// Makes these bytes, with their sign, the elements of the first object.
#[tactic(auto, using(crate::proofs::InputLaws::filled_none, crate::proofs::InputLaws::byte_within, crate::proofs::InputLaws::filled_more, crate::proofs::InputLaws::filled_all))]
fn fill(heap: &mut Heap, input: &[u8], count: u32)
    requires zeros { HasZeros input.now heap.old }
    requires count { count ≡ length input.now }
    ensures { FillsBytes input.now heap.old heap.new }
{
    for at in 0..count {
        heap.set_element(1, at, i64::from(input[at as usize].cast_signed()));
    }
}
