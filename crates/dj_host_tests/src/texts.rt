ghost use Rattle.std.specs.Prelude.{IsSome, IsTrue};
ghost use Rattle.dj_heap.specs.Heaps.{object_in, unit_in};

use dj_heap::{Heap, Made};

#[tactic(auto, using(crate::proofs::Places::object_here))]
fn has_object(heap: &Heap, r: u32) -> bool
    ensures { IsTrue result → IsSome (object_in heap.now r) }
{
    if r == 0 {
        return false;
    }
    r <= heap.count()
}

#[tactic(auto, using(crate::proofs::Places::unit_here))]
fn has_unit(heap: &Heap, r: u32, at: u32) -> bool
    ensures { IsTrue result → IsSome (unit_in heap.now r at) }
{
    if !has_object(heap, r) {
        return false;
    }
    let Made::Text = heap.made(r) else {
        return false;
    };
    at < heap.length(r)
}

/// Whether the object is a text of these units, which are ASCII.
pub fn is_text(heap: &Heap, r: u32, text: &[u8]) -> bool {
    if !has_object(heap, r) || heap.made(r) != Made::Text {
        return false;
    }
    if heap.length(r) as usize != text.len() {
        return false;
    }
    for (at, byte) in text.iter().enumerate() {
        if !has_unit(heap, r, at as u32) || heap.unit(r, at as u32) != u16::from(*byte) {
            return false;
        }
    }
    true
}
