ghost use Rattle.std.specs.Prelude.{◌≡◌, ◌<◌, length, IfSome};
ghost use Rattle.dj_model.specs.trusted.Instructions.{ArrayLength, LoadElement, StoreElement};
ghost use Rattle.dj_stack.specs.Frames.{top_number};
ghost use Rattle.dj_effects.specs.Actions.{access_view, action_view};
ghost use Rattle.dj_natives.specs.Known.{AreKnown};
ghost use Rattle.dj_numbering.specs.Typed.{types_of};
ghost use Rattle.dj_image.specs.Imaged.{typed_of};
ghost use Rattle.dj_image_effects.specs.Acting.{ActsOnHeap, IsHeap};
ghost use Rattle.dj_image_effects.specs.Begun.{BeginsBy, Follows, HasStore, IsKnownAfter, IsKnownThen, IsPlaceAfter};
ghost use Rattle.dj_image_effects.specs.Unnamed.{IsUnnamed};

use crate::acted::{Acted, flow_acted, way_acted};
use crate::arrays::{act_length, act_load};
use crate::asking::{growth, has_room, have_room};
use crate::begun::Begun;
use crate::taking::takes_top;
use crate::values::act_on_values;
use dj_effects::{Access, PlainAction, Way, plain_action, store_element};
use dj_heap::Heap;
use dj_image::Image;
use dj_ops::Instr;
use dj_stack::Frames;

/// What an instruction does that names nothing; none of another one.
#[tactic(auto, using(crate::proofs::UnnamedFacts::are_unnamed))]
#[inline(always)]
pub fn unnamed_action(instr: &Instr) -> Option<PlainAction<'_>>
    ensures { IfSome result (IsUnnamed instr.now) }
{
    plain_action(instr)
}

/// An action is done at once, but for a throw and one that makes an array; and where the run goes on in the frame, it is at the next instruction.
/// `number` is that of the instruction.
#[tactic(auto, using(crate::proofs::Growths::room_for, crate::proofs::Actions::plain_fits))]
#[inline(always)]
pub fn begin(
    image: &Image,
    frames: &mut Frames,
    heap: &mut Heap,
    action: PlainAction<'_>,
    number: u32,
) -> Begun
    requires known { AreKnown (types_of (typed_of image.now)) heap.old }
    requires store { HasStore image.now heap.old }
    requires some { 0 < length frames.old }
    requires number { number ≡ top_number frames.old }
    ensures begins { BeginsBy image.now (action_view action.entry) frames.old frames.new heap.old heap.new result }
    ensures known { IsKnownThen (types_of (typed_of image.now)) heap.new result }
{
    match action {
        PlainAction::LoadElement(access) => begin_load(image, frames, heap, access, number),
        PlainAction::StoreElement(access) => begin_store(image, frames, heap, access, number),
        PlainAction::ArrayLength => begin_length(image, frames, heap, number),
        PlainAction::NewArray(_, _) => Begun::Nothing,
        PlainAction::Throw => Begun::Nothing,
        _ => {
            if !has_room(frames, growth(action)) {
                // Never in a sound program.
                return Begun::Nothing;
            }
            let acted = way_acted(act_on_values(frames, action));
            follow(frames, number, acted)
        }
    }
}

// ---- arrays

#[inline(always)]
fn begin_load(image: &Image, frames: &mut Frames, heap: &Heap, access: Access, number: u32) -> Begun
    requires store { HasStore image.now heap.now }
    requires some { 0 < length frames.old }
    requires number { number ≡ top_number frames.old }
    ensures { BeginsBy image.now (LoadElement (access_view access)) frames.old frames.new heap.now heap.now result }
{
    have_room(frames);
    let acted = act_load(image, frames, heap, access);
    follow(frames, number, acted)
}

#[inline(always)]
fn begin_length(image: &Image, frames: &mut Frames, heap: &Heap, number: u32) -> Begun
    requires store { HasStore image.now heap.now }
    requires some { 0 < length frames.old }
    requires number { number ≡ top_number frames.old }
    ensures { BeginsBy image.now ArrayLength frames.old frames.new heap.now heap.now result }
{
    have_room(frames);
    let acted = act_length(image, frames, heap);
    follow(frames, number, acted)
}

#[inline(always)]
fn begin_store(
    image: &Image,
    frames: &mut Frames,
    heap: &mut Heap,
    access: Access,
    number: u32,
) -> Begun
    requires known { AreKnown (types_of (typed_of image.now)) heap.old }
    requires store { HasStore image.now heap.old }
    requires some { 0 < length frames.old }
    requires number { number ≡ top_number frames.old }
    ensures begins { BeginsBy image.now (StoreElement (access_view access)) frames.old frames.new heap.old heap.new result }
    ensures known { IsKnownThen (types_of (typed_of image.now)) heap.new result }
{
    let acted = store_at_once(image, frames, heap, access);
    follow(frames, number, acted)
}

// A value is stored in an array.
#[inline(always)]
fn store_at_once(image: &Image, frames: &mut Frames, heap: &mut Heap, access: Access) -> Acted
    requires { IsHeap image.now heap.old }
    ensures done { ActsOnHeap image.now (StoreElement (access_view access)) frames.old frames.new heap.old heap.new result }
    ensures known { IsKnownAfter (types_of (typed_of image.now)) heap.new result }
{
    let is_taken = takes_top(image, frames, heap);
    let reported = store_element(frames, heap, access, is_taken);
    flow_acted(reported)
}

// ---- what follows

// Where the run goes on in the frame, it is at the next instruction.
#[tactic(auto, using(crate::proofs::BegunLaws::is_gone))]
#[inline(always)]
fn follow(frames: &mut Frames, number: u32, acted: Acted) -> Begun
    requires some { 0 < length frames.old }
    requires number { number ≡ top_number frames.old }
    ensures { Follows acted frames.old frames.new result }
{
    match place_after(number, acted) {
        Some(place) => {
            frames.set_number(place);
            Begun::Went
        }
        None => Begun::Left(acted),
    }
}

// The number of the instruction that is next in the frame, where it has 32 bits.
#[inline(always)]
fn place_after(number: u32, acted: Acted) -> Option<u32>
    ensures { IsPlaceAfter number acted result }
{
    match acted {
        Acted::Goes(Way::Next) => number.checked_add(1),
        Acted::Goes(Way::To(target)) => u32::try_from(target).ok(),
        _ => None,
    }
}
