ghost use Rattle.std.specs.Prelude.{◌≡◌, ◌<◌, IsTrue, IsSome, length, Some};
ghost use Rattle.std.specs.Option.{option_map};
ghost use Rattle.dj_names.specs.trusted.Heaps.{class_of};
ghost use Rattle.dj_names.specs.declared.run.Element.TheVariants as elements;
ghost use Rattle.dj_heap.specs.Calls.{made_as};
ghost use Rattle.dj_heap.specs.Heaps.{object_in};
ghost use Rattle.dj_heap.specs.declared.object.Made.TheVariants as made;
ghost use Rattle.dj_natives.specs.Known.{AreKnown, IsKnown};
ghost use Rattle.dj_natives_tests.specs.Few.{few_types};
ghost use Rattle.dj_natives_tests.specs.Arguments.{IsKnownAt};

use crate::few::Few;
use dj_heap::{Heap, Made};
use dj_library_types::Classes;
use dj_names::Element;

// Whether an array of references is of a class of such arrays.
fn is_known_array(few: &Few, heap: &Heap, r: u32, class: u32) -> bool
    requires there { IsSome (object_in heap.now r) }
    requires own { option_map class_of (object_in heap.now r) ≡ Some class }
    requires few { class < length (few_types few.now.boxed) }
    requires array { option_map made_as (object_in heap.now r) ≡ Some (made.Array elements.Ref) }
    ensures { IsTrue result → IsKnownAt (few_types few.now.boxed) heap.now r }
{
    match few.component(class) {
        Some(_) => true,
        None => false,
    }
}

// Whether the object's class has a number, that of an instance is no array, and an array of references is of a class of such arrays.
fn is_known(few: &Few, heap: &Heap, r: u32) -> bool
    requires { IsSome (object_in heap.now r) }
    ensures { IsTrue result → IsKnownAt (few_types few.now.boxed) heap.now r }
{
    let class = heap.class_of(r);
    if few.count() <= class {
        return false;
    }
    match heap.made(r) {
        Made::Instance => class < few.class_count(),
        Made::Array(Element::Ref) => is_known_array(few, heap, r, class),
        _ => true,
    }
}

/// Whether each object of the heap is known.
pub fn are_known(few: &Few, heap: &Heap) -> bool
    ensures { IsTrue result → AreKnown (few_types few.now.boxed) heap.now }
{
    for at in 0..heap.count() {
        if !is_known(few, heap, at + 1) {
            return false;
        }
    }
    true
}
