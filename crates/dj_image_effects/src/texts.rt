ghost use Rattle.std.specs.Prelude.{◌≡◌, ◌<◌, ℕ, List, Some, length, slice_get, IfOk};
ghost use Rattle.dj_model.specs.trusted.Instructions.{PushText};
ghost use Rattle.dj_natives.specs.Known.{AreKnown};
ghost use Rattle.dj_numbering.specs.Typed.{types_of};
ghost use Rattle.dj_image.specs.Imaged.{typed_of};
ghost use Rattle.dj_initialisation.specs.Store.{AreTexts};
ghost use Rattle.dj_image_effects.specs.Acting.{ActsOnLiterals};

use crate::acted::{Acted, flow_acted};
use crate::asking::has_room;
use dj_heap::Heap;
use dj_image::Image;
use dj_member_effects::{Literals, push_text};
use dj_stack::Frames;
use std::alloc::AllocError;

/// ldc of the text of a number.
pub fn act_push_text(
    image: &Image,
    frames: &mut Frames,
    heap: &mut Heap,
    literals: &mut Literals,
    text: u32,
) -> Result<Acted, AllocError>
    requires texts { AreTexts image.now }
    requires within { text < length image.now.texts }
    requires counted { literals.old.count ≡ length image.now.texts }
    requires known { AreKnown (types_of (typed_of image.now)) heap.old }
    ensures done { (units : List ℕ) → slice_get image.now.texts text ≡ Some units
        → IfOk result (λ acted. ActsOnLiterals image.now (PushText units) frames.old frames.new heap.old heap.new literals.old literals.new acted) }
    ensures known { IfOk result (λ _. AreKnown (types_of (typed_of image.now)) heap.new) }
{
    if !has_room(frames, 1) {
        // Never in a sound program.
        return Err(AllocError);
    }
    let string = Image::string(image);
    let flow = push_text(frames, heap, literals, string, text, image.text(text))?;
    Ok(flow_acted(Some(flow)))
}
