ghost use Rattle.std.specs.Prelude.{IfOk};
ghost use Rattle.dj_names.specs.trusted.Types.{class_type};
ghost use Rattle.dj_natives.specs.Known.{AreKnown};
ghost use Rattle.dj_numbering.specs.Typed.{types_of};
ghost use Rattle.dj_image.specs.Imaged.{typed_of};
ghost use Rattle.dj_model.specs.trusted.Types.{throwable_name};
ghost use Rattle.dj_effects.specs.Actions.{action_view};
ghost use Rattle.dj_image_effects.specs.Acting.{ActsOnHeap, HasRoom, IsClassAt, IsHeap, IsMadeBy};
ghost use Rattle.dj_image_effects.specs.Frugal.{FrugalOnHeap};

use crate::acted::{Acted, way_acted};
use crate::arrays::{act_length, act_load, act_new_array, act_store};
use crate::asking::{growth, has_room, have_room};
use crate::objects::act_throw;
use crate::values::act_on_values;
use dj_effects::PlainAction;
use dj_heap::Heap;
use dj_image::Image;
use dj_stack::Frames;
use std::alloc::AllocError;

/// An action is done. The class of the array that it makes is given, where it makes one, and the class Throwable.
#[tactic(auto, using(crate::proofs::Growths::room_for))]
pub fn act_plain(
    image: &Image,
    frames: &mut Frames,
    heap: &mut Heap,
    throwable: u32,
    class: u32,
    action: PlainAction<'_>,
) -> Result<Acted, AllocError>
    requires known { IsHeap image.now heap.old }
    requires throwable { IsClassAt image.now (class_type (throwable_name image.now.prefix)) throwable }
    requires made { IsMadeBy image.now action class }
    ensures done { IfOk result (λ acted. ActsOnHeap image.now (action_view action.entry) frames.old frames.new heap.old heap.new acted) }
    ensures known { IfOk result (λ _. AreKnown (types_of (typed_of image.now)) heap.new) }
    ensures frugal { FrugalOnHeap image.now (action_view action.entry) frames.old heap.old result }
{
    have_room(frames);
    if !has_room(frames, growth(action)) {
        // Never in a sound program.
        return Err(AllocError);
    }
    act_in_room(image, frames, heap, throwable, class, action)
}

// What it leaves has room.
#[tactic(auto, using(crate::proofs::Actions::plain_room, crate::proofs::Actions::plain_fits))]
fn act_in_room(
    image: &Image,
    frames: &mut Frames,
    heap: &mut Heap,
    throwable: u32,
    class: u32,
    action: PlainAction<'_>,
) -> Result<Acted, AllocError>
    requires known { IsHeap image.now heap.old }
    requires throwable { IsClassAt image.now (class_type (throwable_name image.now.prefix)) throwable }
    requires made { IsMadeBy image.now action class }
    requires room { HasRoom (action_view action) frames.old }
    ensures done { IfOk result (λ acted. ActsOnHeap image.now (action_view action.entry) frames.old frames.new heap.old heap.new acted) }
    ensures known { IfOk result (λ _. AreKnown (types_of (typed_of image.now)) heap.new) }
    ensures frugal { FrugalOnHeap image.now (action_view action.entry) frames.old heap.old result }
{
    match action {
        PlainAction::LoadElement(access) => Ok(act_load(image, frames, heap, access)),
        PlainAction::StoreElement(access) => act_store(image, frames, heap, access),
        PlainAction::NewArray(_, element) => act_new_array(image, frames, heap, class, element),
        PlainAction::ArrayLength => Ok(act_length(image, frames, heap)),
        PlainAction::Throw => Ok(act_throw(image, frames, heap, throwable)),
        _ => Ok(way_acted(act_on_values(frames, action))),
    }
}
