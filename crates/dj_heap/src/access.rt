ghost use Rattle.std.specs.Prelude.{◌≡◌, ◌^◌, ◌<◌, Some, option_map, IsSome, length};
ghost use Rattle.dj_names.specs.trusted.Heaps.{class_of};
ghost use Rattle.dj_heap.specs.Heaps.{object_in, field_in, element_in, unit_in, with_field, with_number, Replaces, IsKeptIn};
ghost use Rattle.dj_heap.specs.Lengths.{object_length};
ghost use Rattle.dj_heap.specs.Calls.{made_as};
ghost use Rattle.dj_heap.specs.Views.{object_view, IsShort};

use crate::heap::Heap;
use crate::object::{Made, Object};
use dj_names::Element;

impl Heap {
    /// The 64 bits of a field.
    pub fn field(&self, r: u32, at: u32) -> u64
        requires { IsSome (field_in self.now r at) }
        ensures { field_in self.now r at ≡ Some result }
    {
        match self.object(r) {
            Object::Instance { fields, .. } => fields.items[at as usize],
            _ => unreachable!(),
        }
    }

    /// Gives a field other bits.
    pub fn set_field(&mut self, r: u32, at: u32, bits: u64)
        requires { IsSome (field_in self.old r at) }
        ensures { Replaces self.old self.new r (λ object. with_field object at bits) }
    {
        match &mut self.objects[(r - 1) as usize] {
            Object::Instance { fields, .. } => fields.items[at as usize] = bits,
            _ => unreachable!(),
        }
    }

    /// An element of an array: booleans, bytes, shorts, ints and longs with their sign.
    pub fn element(&self, r: u32, at: u32) -> i64
        requires { IsSome (element_in self.now r at) }
        ensures value { element_in self.now r at ≡ Some result }
        ensures kept { IsKeptIn (object_in self.now r) result }
    {
        self.object(r).number(at)
    }

    /// Gives an element the low bits of a number, as many as the array's elements have.
    pub fn set_element(&mut self, r: u32, at: u32, value: i64)
        requires { IsSome (element_in self.old r at) }
        ensures { Replaces self.old self.new r (λ object. with_number object at value) }
    {
        self.objects[(r - 1) as usize].set_number(at, value)
    }

    /// A unit of a text.
    pub fn unit(&self, r: u32, at: u32) -> u16
        requires { IsSome (unit_in self.now r at) }
        ensures { unit_in self.now r at ≡ Some result }
    {
        match self.object(r) {
            Object::Text { units, .. } => units.as_slice()[at as usize],
            _ => unreachable!(),
        }
    }

    /// How many fields, elements or units an object has.
    pub fn length(&self, r: u32) -> u32
        requires { IsSome (object_in self.now r) }
        ensures value { option_map object_length (object_in self.now r) ≡ Some result }
        ensures few { result < 2 ^ 31 }
    {
        match self.object(r) {
            Object::Instance { fields, .. } => fields.items.len() as u32,
            Object::Booleans { items, .. } | Object::Bytes { items, .. } => items.len() as u32,
            Object::Chars { items, .. } => items.len() as u32,
            Object::Shorts { items, .. } => items.len() as u32,
            Object::Ints { items, .. } => items.len() as u32,
            Object::Longs { items, .. } => items.len() as u32,
            Object::References { items, .. } => items.len() as u32,
            Object::Text { units, .. } => units.as_slice().len() as u32,
        }
    }

    /// The number of an object's class.
    pub fn class_of(&self, r: u32) -> u32
        requires { IsSome (object_in self.now r) }
        ensures { option_map class_of (object_in self.now r) ≡ Some result }
    {
        match self.object(r) {
            Object::Instance { class, .. }
            | Object::Booleans { class, .. }
            | Object::Bytes { class, .. }
            | Object::Chars { class, .. }
            | Object::Shorts { class, .. }
            | Object::Ints { class, .. }
            | Object::Longs { class, .. }
            | Object::References { class, .. }
            | Object::Text { class, .. } => *class,
        }
    }

    /// What an object is.
    pub fn made(&self, r: u32) -> Made
        requires { IsSome (object_in self.now r) }
        ensures { option_map made_as (object_in self.now r) ≡ Some result }
    {
        match self.object(r) {
            Object::Instance { .. } => Made::Instance,
            Object::Booleans { .. } => Made::Array(Element::Boolean),
            Object::Bytes { .. } => Made::Array(Element::Byte),
            Object::Chars { .. } => Made::Array(Element::Char),
            Object::Shorts { .. } => Made::Array(Element::Short),
            Object::Ints { .. } => Made::Array(Element::Int),
            Object::Longs { .. } => Made::Array(Element::Long),
            Object::References { .. } => Made::Array(Element::Ref),
            Object::Text { .. } => Made::Text,
        }
    }

    /// The bytes that all objects take together.
    pub fn used(&self) -> u64
        ensures { result ≡ self.now.heap.used }
    {
        self.used
    }

    /// The count of objects.
    pub fn count(&self) -> u32
        ensures { result ≡ length self.now.heap.objects }
    {
        self.objects.len() as u32
    }

    // The object of this number.
    fn object(&self, r: u32) -> &Object
        requires { IsSome (object_in self.now r) }
        ensures object { object_in self.now r ≡ Some (object_view result.now) }
        ensures short { IsShort result.now }
    {
        &self.objects[(r - 1) as usize]
    }
}
