ghost use Rattle.std.specs.Prelude.{◌≡◌, ℕ, ◌+◌, ◌*◌, ◌^◌, ◌<◌, ◌≤◌, pos, Some, [], length, replicate, option_map, IsSome, IfOk, IfErr, OnOk, OnErr};
ghost use Rattle.dj_names.specs.trusted.Heaps as heaps;
ghost use Rattle.dj_names.specs.trusted.Heaps.{class_of, instance_size, array_size, text_size, object_size};
ghost use Rattle.std.specs.List.{All};
ghost use Rattle.dj_heap.specs.Views.{object_view, IsShort};
ghost use Rattle.dj_heap.specs.Heaps.{LimitedHeap, object_in, field_in, element_in, unit_in, with_field, with_number, Replaces, Makes, Refuses, low_bits};
ghost use Rattle.dj_names.specs.trusted.Values.{element_size};
ghost use Rattle.dj_heap.specs.declared.errors.HeapError.TheVariants as HeapError;
ghost use Rattle.dj_heap.specs.Lengths.{object_length};
ghost use Rattle.dj_heap.specs.Calls.{made_as};

use crate::errors::HeapError;
use crate::object::{Fields, Made, Object};
use dj_names::{Element, Units};
use std::alloc::Global;
use std::marker::Model;

/// Objects that are never freed. They count from 1, in the order in which they were made: a reference is an object's number, and 0 is null.
#[derive(Debug, Drop)]
pub struct Heap {
    alloc: Global,
    pub(crate) objects: Vec<Object>,
    pub(crate) used: u64,
    limit: u64,
    pub ghost within: { used ≤ limit },
    pub ghost most: { limit ≤ 2147483648 },
    pub ghost headers: { 16 * length objects.items ≤ used },
    pub ghost short: { All IsShort objects.items },
}

impl Model for Heap {
    ghost use Rattle.std.specs.Prelude.{map};
    ghost use Rattle.dj_heap.specs.Heaps.{LimitedHeap};
    ghost use Rattle.dj_heap.specs.Views.{object_view};

    ghost Value = { LimitedHeap };

    ghost view = { λ h. record { heap = record { objects = map object_view h.objects.items; used = h.used }; limit = h.limit } };
}

impl Heap {
    /// No object, and a limit of this many bytes.
    pub fn new(alloc: Global, limit: u64) -> Heap
        requires { limit ≤ 2147483648 }
        ensures { result ≡ record { heap = record { objects = []; used = 0 }; limit = limit } }
    {
        Heap {
            alloc,
            objects: Vec::new(alloc),
            used: 0,
            limit,
        }
    }

    /// Makes an instance with this many fields, all zero. Its size is 16 bytes and 8 for each field.
    pub fn instance(&mut self, class: u32, fields: u32) -> Result<u32, HeapError>
        ensures made { IfOk result (Makes self.old self.new (heaps.Instance class (replicate fields 0))) }
        ensures refused { IfErr result (Refuses self.old (instance_size fields)) }
        ensures kept { OnErr result (self.new ≡ self.old) }
    {
        let size = 16 + 8 * u64::from(fields);
        self.ask(size)?;
        let items = vec![in self.alloc; 0; fields as usize]?;
        self.add(
            Object::Instance {
                class,
                fields: Fields { items },
            },
            size,
        )
    }

    /// Makes an array of n elements, all zero. Its size is 16 bytes and those of its elements, rounded up to a multiple of 8.
    pub fn array(&mut self, class: u32, element: Element, n: u32) -> Result<u32, HeapError>
        ensures made { IfOk result (Makes self.old self.new (heaps.Array class element (replicate n (pos 0)))) }
        ensures refused { IfErr result (Refuses self.old (array_size element n)) }
        ensures kept { OnErr result (self.new ≡ self.old) }
    {
        let size = array_bytes(element, n);
        self.ask(size)?;
        let object = Object::array(self.alloc, class, element, n)?;
        self.add(object, size)
    }

    /// Makes a text of these units. Its size is 16 bytes and 2 for each unit, rounded up to a multiple of 8.
    pub fn text(&mut self, class: u32, units: &[u16]) -> Result<u32, HeapError>
        ensures made { IfOk result (Makes self.old self.new (heaps.Text class units.now)) }
        ensures refused { IfErr result (Refuses self.old (text_size units.now)) }
        ensures kept { OnErr result (self.new ≡ self.old) }
    {
        let size = 16 + rounded(2 * units.len() as u64);
        self.ask(size)?;
        let units = Units::from_slice(self.alloc, units).map_err(|_| HeapError::Memory)?;
        self.add(Object::Text { class, units }, size)
    }

    // Whether an object of this size fits.
    fn ask(&self, size: u64) -> Result<(), HeapError>
        ensures room { IfOk result (λ _. self.now.heap.used + size ≤ self.now.limit) }
        ensures refused { IfErr result (λ e. (e ≡ HeapError.Full self.now.heap.used size) × (self.now.limit < self.now.heap.used + size)) }
    {
        if self.limit - self.used < size {
            return Err(HeapError::Full {
                used: self.used,
                size,
            });
        }
        Ok(())
    }

    // Appends an object of this size, which fits.
    #[tactic(auto, using(crate::proofs::Sizes::short_object))]
    fn add(&mut self, object: Object, size: u64) -> Result<u32, HeapError>
        requires size { size ≡ object_size (object_view object) }
        requires fits { self.old.heap.used + size ≤ self.old.limit }
        ensures made { IfOk result (Makes self.old self.new (object_view object)) }
        ensures refused { IfErr result (λ e. e ≡ HeapError.Memory) }
        ensures kept { OnErr result (self.new ≡ self.old) }
    {
        self.objects.push(object)?;
        self.used += size;
        Ok(self.objects.len() as u32)
    }
}

// Rounded up to a multiple of 8.
fn rounded(n: u64) -> u64
    requires { n < 2 ^ 63 }
    ensures { result ≡ heaps.rounded n }
{
    (n + 7) / 8 * 8
}

// The size of an array.
fn array_bytes(element: Element, n: u32) -> u64
    ensures { result ≡ array_size element n }
{
    16 + rounded(u64::from(n) * element_bytes(element))
}

// The bytes of an element.
fn element_bytes(element: Element) -> u64
    ensures exact { result ≡ element_size element }
    ensures few { result ≤ 8 }
{
    match element {
        Element::Boolean | Element::Byte => 1,
        Element::Char | Element::Short => 2,
        Element::Int | Element::Ref => 4,
        Element::Long => 8,
    }
}
