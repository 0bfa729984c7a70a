ghost use Rattle.std.specs.Prelude.{◌≡◌, ◌<◌, ◌+◌, ◌∷◌, [], None, length, replicate, IfOk};
ghost use Rattle.dj_shape_rule.specs.Listed.{AreFew, AreListed, AreListedBelow, IsLast};
ghost use Rattle.dj_shape_rule.specs.Standing.{SameButLists};

use crate::arena::LocalsPlace;
use crate::error::ShapeError;
use crate::frames::KeptFrames;
use crate::state::KindState;
use dj_names::Kind;
use std::alloc::Global;

// Keeps the local variables of a frame in a list that begins as that of the frame before it. Gives the place of the list's kinds.
fn list_frame(
    frames: &KeptFrames,
    state: &mut KindState,
    last: LocalsPlace,
    index: usize,
    kinds: &mut Vec<Option<Kind>>,
) -> Result<LocalsPlace, ShapeError>
    requires index { index < length frames.now.reported.kept.items }
    requires listed { AreListedBelow frames.now state.old (index + 1) }
    requires last { IsLast frames.now state.old index last }
    ensures same { SameButLists state.old state.new }
    ensures listed { IfOk result (λ x. AreListedBelow frames.now state.new (index + 2)) }
    ensures last { IfOk result (λ place. IsLast frames.now state.new (index + 1) place) }
{
    let place = frames.place_of(index);
    if place.end == last.end {
        state.add_again(index)?;
        return Ok(place);
    }
    if u32::from(state.max_locals()) < place.count {
        // It doesn't fit, and nothing asks for it.
        state.add_again(index)?;
        return Ok(last);
    }
    let from = frames.new_kinds(last, place, kinds)?;
    state.add_list(index, from, kinds)?;
    Ok(place)
}

/// Keeps the local variables of all frames in lists.
pub fn list_frames(
    alloc: Global,
    frames: &KeptFrames,
    state: &mut KindState,
) -> Result<(), ShapeError>
    requires one { state.old.frames ≡ replicate state.old.max_locals None ∷ [] }
    requires few { AreFew frames.now state.old.max_locals }
    ensures same { SameButLists state.old state.new }
    ensures listed { IfOk result (λ x. AreListed frames.now state.new) }
{
    let mut kinds = Vec::new(alloc);
    let mut last = LocalsPlace { end: 0, count: 0 };
    for index in 0..frames.count() {
        last = list_frame(frames, state, last, index, &mut kinds)?;
    }
    Ok(())
}
