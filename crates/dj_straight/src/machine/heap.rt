ghost use Rattle.std.specs.Prelude.{◌≡◌, ◌+◌, ◌<◌, ◌^◌, ℤ, pos, List, [], ◌∷◌, length, set, Some, None, IsSome, IfOk, OnOk, slice_get, codes};
ghost use Rattle.dj_straight.specs.trusted.Objects.{Array};
ghost use Rattle.dj_names.specs.declared.run.Element.TheVariants.{Byte};
ghost use Rattle.dj_straight.specs.trusted.State.{Heap as ModelHeap};
ghost use Rattle.dj_straight.specs.trusted.Effects.{array_at, array_size, element_at, with_element, with_new, with_object, next_number, new_contents, IsArray};
ghost use Rattle.dj_straight.specs.Arrays.{byte_array, heap_of};
ghost use Rattle.dj_straight.specs.Machines.{referent_view, IsShort};

use std::alloc::{AllocError, Global};
use std::marker::Model;

/// The objects of a run, which are arrays of bytes.
#[derive(Drop)]
pub struct Heap {
    arrays: Vec<Vec<i8>>,
}

impl Model for Heap {
    ghost use Rattle.dj_straight.specs.trusted.State.{Heap as ModelHeap};
    ghost use Rattle.dj_straight.specs.Arrays.{heap_of, AreShort};

    ghost Value = { ModelHeap };

    ghost view = { λ h. heap_of h.arrays.items };

    ghost invariant = { λ h. AreShort h.arrays.items };
}

/// What a reference is.
#[derive(Clone, Copy)]
pub enum Referent<'a> {
    Null,
    /// An object that was never made.
    NoArray,
    Bytes(&'a [i8]),
}

/// The element at the index, where there is one.
pub fn element(bytes: &[i8], index: i32) -> Option<i8>
    ensures { result ≡ element_at bytes.now index }
{
    if index < 0 {
        return None;
    }
    bytes.get(index as usize).copied()
}

impl Heap {
    /// A heap with this array alone.
    pub fn with_array(alloc: Global, bytes: Vec<i8>) -> Result<Heap, AllocError>
        requires { length bytes.items < 2 ^ 31 }
        ensures { IfOk result (λ heap. heap ≡ heap_of (bytes ∷ [])) }
    {
        Ok(Heap {
            arrays: vec![in alloc; bytes]?,
        })
    }

    /// What the reference is.
    pub fn array(&self, reference: u32) -> Referent<'_>
        ensures found { array_at self.now.objects reference ≡ referent_view result }
        ensures short { IsShort result }
    {
        if reference == 0 {
            return Referent::Null;
        }
        match self.arrays.get(reference as usize - 1) {
            Some(bytes) => Referent::Bytes(bytes.as_slice()),
            None => Referent::NoArray,
        }
    }

    /// An array of this many zeros is made.
    pub fn make(&mut self, alloc: Global, count: u32) -> Result<u32, AllocError>
        requires { count < 2 ^ 31 }
        ensures heap { OnOk result (self.new ≡ with_new self.old (array_size Byte count) (byte_array (new_contents count))) }
        ensures reference { IfOk result (λ reference. reference ≡ next_number self.old) }
    {
        let Ok(reference) = u32::try_from(self.arrays.len() + 1) else {
            return Err(AllocError);
        };
        let bytes = vec![in alloc; 0i8; count as usize]?;
        self.arrays.push(bytes)?;
        Ok(reference)
    }

    /// Gives an element of the array another value.
    pub fn store(&mut self, reference: u32, index: i32, byte: i8)
        requires { (contents : List ℤ) × (array_at self.old.objects reference ≡ IsArray (codes "[B") Byte contents)
            × IsSome (element_at contents index) }
        ensures { (contents : List ℤ) → array_at self.old.objects reference ≡ IsArray (codes "[B") Byte contents
            → self.new ≡ with_object self.old reference (byte_array (with_element contents index byte)) }
    {
        self.arrays[reference as usize - 1][index as usize] = byte;
    }
}
