ghost use Rattle.std.specs.Prelude.{◌≡◌, ◌<◌, ◌^◌, pos, replicate, Some, IsSome, IfOk, IfErr};
ghost use Rattle.std.specs.Int.{w8, w16, w32, w64, int_wrap, int_rem_euclid};
ghost use Rattle.dj_names.specs.trusted.Heaps as heaps;
ghost use Rattle.dj_heap.specs.Heaps.{IsKeptIn, with_number};
ghost use Rattle.dj_heap.specs.Views.{object_view, number_at};
ghost use Rattle.dj_heap.specs.declared.errors.HeapError.TheVariants as HeapError;

use crate::errors::HeapError;
use crate::object::Object;
use dj_names::Element;
use std::alloc::Global;

impl Object {
    /// An array of n elements, all zero.
    #[tactic(auto, using(crate::proofs::Unsigned::zeros))]
    pub fn array(alloc: Global, class: u32, element: Element, n: u32) -> Result<Object, HeapError>
        ensures made { IfOk result (λ object. object_view object ≡ heaps.Array class element (replicate n (pos 0))) }
        ensures refused { IfErr result (λ e. e ≡ HeapError.Memory) }
    {
        let n = n as usize;
        Ok(match element {
            Element::Boolean => Object::Booleans {
                class,
                items: vec![in alloc; 0; n]?,
            },
            Element::Byte => Object::Bytes {
                class,
                items: vec![in alloc; 0; n]?,
            },
            Element::Char => Object::Chars {
                class,
                items: vec![in alloc; 0; n]?,
            },
            Element::Short => Object::Shorts {
                class,
                items: vec![in alloc; 0; n]?,
            },
            Element::Int => Object::Ints {
                class,
                items: vec![in alloc; 0; n]?,
            },
            Element::Long => Object::Longs {
                class,
                items: vec![in alloc; 0; n]?,
            },
            Element::Ref => Object::References {
                class,
                items: vec![in alloc; 0; n]?,
            },
        })
    }

    /// An element of an array.
    #[inline]
    pub fn number(&self, at: u32) -> i64
        requires { IsSome (number_at self.now at) }
        ensures value { number_at self.now at ≡ Some result }
        ensures kept { IsKeptIn (Some (object_view self.now)) result }
    {
        let at = at as usize;
        match self {
            Object::Booleans { items, .. } | Object::Bytes { items, .. } => i64::from(items[at]),
            Object::Chars { items, .. } => i64::from(items[at]),
            Object::Shorts { items, .. } => i64::from(items[at]),
            Object::Ints { items, .. } => i64::from(items[at]),
            Object::Longs { items, .. } => items[at],
            Object::References { items, .. } => i64::from(items[at]),
            _ => unreachable!(),
        }
    }

    /// Gives an element of an array the low bits of a number, as many as its elements have.
    #[tactic(auto, using(crate::proofs::Unsigned::written))]
    #[inline]
    pub fn set_number(&mut self, at: u32, value: i64)
        requires { IsSome (number_at self.old at) }
        ensures { object_view self.new ≡ with_number (object_view self.old) at value }
    {
        let at = at as usize;
        match self {
            Object::Booleans { items, .. } => items[at] = low_byte(value),
            Object::Bytes { items, .. } => items[at] = low_byte(value),
            Object::Chars { items, .. } => items[at] = low_char(value),
            Object::Shorts { items, .. } => items[at] = low_short(value),
            Object::Ints { items, .. } => items[at] = low_int(value),
            Object::Longs { items, .. } => items[at] = value,
            Object::References { items, .. } => items[at] = low_reference(value),
            _ => unreachable!(),
        }
    }
}

// The low 8 bits, with their sign.
#[tactic(auto, using(crate::proofs::Wrapping::low_byte))]
#[inline]
fn low_byte(value: i64) -> i8
    ensures { result ≡ int_wrap w8 value }
{
    (value.rem_euclid(1 << 8) as u8).cast_signed()
}

// The low 16 bits, without sign.
#[inline]
fn low_char(value: i64) -> u16
    ensures { pos result ≡ int_rem_euclid value (pos (2 ^ 16)) }
{
    value.rem_euclid(1 << 16) as u16
}

// The low 16 bits, with their sign.
#[tactic(auto, using(crate::proofs::Wrapping::low_short))]
#[inline]
fn low_short(value: i64) -> i16
    ensures { result ≡ int_wrap w16 value }
{
    (value.rem_euclid(1 << 16) as u16).cast_signed()
}

// The low 32 bits, with their sign.
#[tactic(auto, using(crate::proofs::Wrapping::low_int))]
#[inline]
fn low_int(value: i64) -> i32
    ensures { result ≡ int_wrap w32 value }
{
    (value.rem_euclid(1 << 32) as u32).cast_signed()
}

// The low 32 bits, without sign.
#[inline]
fn low_reference(value: i64) -> u32
    ensures { pos result ≡ int_rem_euclid value (pos (2 ^ 32)) }
{
    value.rem_euclid(1 << 32) as u32
}
