ghost use Rattle.std.specs.Prelude.{◌≡◌, ◌<◌, ◌≤◌, Some, length, IfOk};
ghost use Rattle.dj_names.specs.declared.run.Value.TheVariants as values;
ghost use Rattle.dj_stack.specs.Frames.{SameButOperands, top_operands, top_room};
ghost use Rattle.dj_effects.specs.DoesOnHeap.{DoesOnHeap, FitsOnHeap};
ghost use Rattle.dj_member_effects.specs.Numbering.{AreNumbered, below_of};
ghost use Rattle.dj_member_effects.specs.Objects.{check_cast_by, instance_of_by, instance_reported, is_instance_by, new_by, throw_by, thrown_by};

use dj_effects::{Flow, Way, pop};
use dj_heap::{Heap, HeapError};
use dj_library_types::Classes;
use dj_names::{Raised, Value};
use dj_stack::Frames;
use std::alloc::AllocError;

/// How the run goes on after an object is thrown.
#[derive(Clone, Copy)]
pub enum Thrown {
    /// With the object of this number as an exception.
    Catch(u32),
    /// With an exception of the instruction's own, as the reference is null.
    Null,
    /// The run ends, as the object isn't throwable.
    Link,
}

/// An instance of the class with this many fields, all zero, is made and pushed.
pub fn new_object(
    frames: &mut Frames,
    heap: &mut Heap,
    class: u32,
    fields: u32,
) -> Result<Flow, AllocError>
    requires { FitsOnHeap (new_by (Some heap.old.limit) class fields) frames.old heap.old }
    ensures { IfOk result (λ flow. DoesOnHeap (new_by (Some heap.old.limit) class fields) frames.old frames.new heap.old heap.new (Some flow)) }
{
    match heap.instance(class, fields) {
        Ok(r) => {
            frames.push_value(Value::Ref(r));
            Ok(Flow::Goes(Way::Next))
        }
        Err(HeapError::Full { used, size }) => Ok(Flow::HeapFull { used, size }),
        Err(HeapError::Memory) => Err(AllocError),
    }
}

/// The reference on top stays, where it is null or that of an object of the class.
#[tactic(auto, unfolding(crate::specs::Objects::check_cast_by))]
pub fn check_cast<C: Classes>(
    classes: &C,
    frames: &mut Frames,
    heap: &Heap,
    class: u32,
) -> Option<Flow>
    requires numbered { AreNumbered (length (C.types classes.now)) heap.now.heap }
    requires known { class < length (C.types classes.now) }
    requires room { length (top_operands frames.old) ≤ top_room frames.old }
    ensures { DoesOnHeap (check_cast_by (below_of (C.program classes.now) (C.prefix classes.now) (C.types classes.now) class))
        frames.old frames.new heap.now heap.now result }
{
    let Some(Value::Ref(r)) = pop(frames) else {
        return None;
    };
    frames.push_value(Value::Ref(r));
    if is_instance(classes, heap, r, class) {
        Some(Flow::Goes(Way::Next))
    } else {
        Some(Flow::Goes(Way::Raise(Raised::ClassCast)))
    }
}

/// A reference is taken, and 1 pushed where it is that of an object of the class, else 0.
#[tactic(auto, unfolding(crate::specs::Objects::instance_of_by))]
pub fn instance_of<C: Classes>(
    classes: &C,
    frames: &mut Frames,
    heap: &Heap,
    class: u32,
) -> Option<Flow>
    requires numbered { AreNumbered (length (C.types classes.now)) heap.now.heap }
    requires known { class < length (C.types classes.now) }
    requires room { length (top_operands frames.old) ≤ top_room frames.old }
    ensures { DoesOnHeap (instance_of_by (below_of (C.program classes.now) (C.prefix classes.now) (C.types classes.now) class))
        frames.old frames.new heap.now heap.now result }
{
    let Some(Value::Ref(r)) = pop(frames) else {
        return None;
    };
    frames.push_value(instance_value(classes, heap, r, class));
    Some(Flow::Goes(Way::Next))
}

/// Takes a reference and throws it, where its object is of the class Throwable, whose number is given, or of one below it.
#[tactic(auto, unfolding(crate::specs::Objects::throw_by))]
pub fn throw_top<C: Classes>(
    classes: &C,
    frames: &mut Frames,
    heap: &Heap,
    throwable: u32,
) -> Option<Thrown>
    requires numbered { AreNumbered (length (C.types classes.now)) heap.now.heap }
    requires known { throwable < length (C.types classes.now) }
    ensures thrown { result ≡ throw_by (below_of (C.program classes.now) (C.prefix classes.now) (C.types classes.now) throwable) heap.now.heap (top_operands frames.old) }
    ensures rest { SameButOperands frames.old frames.new }
{
    let Some(Value::Ref(r)) = pop(frames) else {
        return None;
    };
    Some(thrown_by(classes, heap, r, throwable))
}

fn thrown_by<C: Classes>(classes: &C, heap: &Heap, r: u32, throwable: u32) -> Thrown
    requires numbered { AreNumbered (length (C.types classes.now)) heap.now.heap }
    requires known { throwable < length (C.types classes.now) }
    ensures { result ≡ thrown_by (below_of (C.program classes.now) (C.prefix classes.now) (C.types classes.now) throwable) heap.now.heap r }
{
    if r == 0 {
        Thrown::Null
    } else if is_instance(classes, heap, r, throwable) {
        Thrown::Catch(r)
    } else {
        Thrown::Link
    }
}

// 1 for an object of the class, and 0 for any other reference.
fn instance_value<C: Classes>(classes: &C, heap: &Heap, r: u32, class: u32) -> Value
    requires numbered { AreNumbered (length (C.types classes.now)) heap.now.heap }
    requires known { class < length (C.types classes.now) }
    ensures { result ≡ values.Int (instance_reported (below_of (C.program classes.now) (C.prefix classes.now) (C.types classes.now) class) heap.now.heap r) }
{
    if r != 0 && is_instance(classes, heap, r, class) {
        Value::Int(1)
    } else {
        Value::Int(0)
    }
}

// Whether a reference is null or that of an object of the class.
fn is_instance<C: Classes>(classes: &C, heap: &Heap, r: u32, class: u32) -> bool
    requires numbered { AreNumbered (length (C.types classes.now)) heap.now.heap }
    requires known { class < length (C.types classes.now) }
    ensures { result ≡ is_instance_by (below_of (C.program classes.now) (C.prefix classes.now) (C.types classes.now) class) heap.now.heap r }
{
    r == 0 || (r <= heap.count() && classes.sub_type(heap.class_of(r), class))
}
