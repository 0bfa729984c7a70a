ghost use Rattle.std.specs.Prelude.{◌≡◌, ◌≤◌, length, slice_index};
ghost use Rattle.dj_stack.specs.Frames.{top_operands, top_room};
ghost use Rattle.dj_effects.specs.DoesOnHeap.{DoesOnHeap};
ghost use Rattle.dj_member_effects.specs.Numbering.{AreNumbered};
ghost use Rattle.dj_member_effects.specs.Fields.{HasFields, fields_at, get_field_by, put_field_by, PutsField};

use crate::holders::{Holders, holder};
use crate::values::{field_bits, field_value};
use dj_effects::{Flow, Way, is_of_kind, pop};
use dj_heap::Heap;
use dj_names::{Kind, Value};
use dj_stack::Frames;

/// A field of instances.
#[derive(Clone, Copy)]
pub struct FieldAccess {
    /// The number of the class that declares it.
    pub declaring: u32,
    /// Its place among the fields of an instance.
    pub place: u32,
    /// The kind of its values.
    pub kind: Kind,
}

/// An instance is taken, and the value of its field is pushed.
#[tactic(auto, unfolding(crate::specs::Fields::get_field_by))]
pub fn get_field<H: Holders>(
    holders: &H,
    frames: &mut Frames,
    heap: &Heap,
    field: FieldAccess,
) -> Option<Flow>
    requires numbered { AreNumbered (H.count holders.now) heap.now.heap }
    requires room { length (top_operands frames.old) ≤ top_room frames.old }
    ensures { DoesOnHeap (get_field_by (H.has holders.now field.declaring) field.kind field.place) frames.old frames.new heap.now heap.now result }
{
    let Some(Value::Ref(r)) = pop(frames) else {
        return None;
    };
    match holder(holders, heap, field.declaring, r) {
        Ok(count) => {
            let bits = bits_at(heap, r, field.place, count);
            frames.push_value(field_value(field.kind, bits));
            Some(Flow::Goes(Way::Next))
        }
        Err(flow) => Some(flow),
    }
}

/// A value and an instance are taken, and the instance's field is given the value.
#[tactic(auto, unfolding(crate::specs::Fields::put_field_by))]
pub fn put_field<H: Holders>(
    holders: &H,
    frames: &mut Frames,
    heap: &mut Heap,
    field: FieldAccess,
) -> Option<Flow>
    requires { AreNumbered (H.count holders.now) heap.old.heap }
    ensures { DoesOnHeap (put_field_by (H.has holders.now field.declaring) field.kind field.place) frames.old frames.new heap.old heap.new result }
{
    let value = pop(frames)?;
    if !is_of_kind(field.kind, value) {
        return None;
    }
    let Some(Value::Ref(r)) = pop(frames) else {
        return None;
    };
    match holder(holders, heap, field.declaring, r) {
        Ok(count) => {
            put_bits(heap, r, field.place, count, field_bits(value));
            Some(Flow::Goes(Way::Next))
        }
        Err(flow) => Some(flow),
    }
}

// The bits of a field of an instance with this many; 0 where it has no such field.
fn bits_at(heap: &Heap, r: u32, at: u32, count: u32) -> u64
    requires { HasFields heap.now.heap r count }
    ensures { result ≡ slice_index (fields_at heap.now.heap r) at }
{
    if at < count { heap.field(r, at) } else { 0 }
}

// Gives a field of an instance with this many other bits; nothing where it has no such field.
fn put_bits(heap: &mut Heap, r: u32, at: u32, count: u32, bits: u64)
    requires { HasFields heap.old.heap r count }
    ensures { PutsField heap.old heap.new r at bits }
{
    if at < count {
        heap.set_field(r, at, bits);
    }
}
