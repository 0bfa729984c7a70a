ghost use Rattle.std.specs.Prelude.{◌<◌, length, IfOk};
ghost use Rattle.dj_model.specs.Sound.{IsProgram};
ghost use Rattle.dj_natives.specs.Known.{AreKnown};
ghost use Rattle.dj_numbering.specs.Typed.{types_of};
ghost use Rattle.dj_image.specs.Imaged.{program_of, typed_of};
ghost use Rattle.dj_initialisation.specs.Flags.{AreFlags};
ghost use Rattle.dj_initialisation.specs.Places.{ArePlaces};
ghost use Rattle.dj_initialisation.specs.Initialisers.{AreInitialisers};
ghost use Rattle.dj_initialisation.specs.Store.{AreTexts, IsStore, store};
ghost use Rattle.dj_initialisation.specs.Preparing.{Prepares, Pushes, parts};

use crate::constants::fill_all;
use crate::filled::Filled;
use crate::flags::Initialised;
use crate::initialisers::Initialisers;
use crate::places::StaticPlaces;
use crate::pushing::{count_of, push_all};
use crate::waiting::begin_upward;
use dj_heap::Heap;
use dj_image::Image;
use dj_member_effects::{Literals, Statics};
use dj_stack::Frames;
use std::alloc::{AllocError, Global};

/// How a run goes on at a use of a class.
#[derive(Clone, Copy, Debug)]
pub enum Prepared {
    /// Nothing has to run first.
    Ready,
    /// Frames of initialisers were pushed, and have to run.
    Waits,
    /// The run ends: the initialisers' frames would be too many.
    TooDeep,
    /// The run ends: the object of a text with which a static field begins doesn't fit.
    HeapFull { used: u64, size: u64 },
}

// Pushes the frames of the initialisers of these classes, that of the last class on top.
fn stand_above(
    initialisers: &Initialisers,
    frames: &mut Frames,
    classes: &[u32],
) -> Result<Prepared, AllocError>
    ensures { IfOk result (λ prepared. Pushes initialisers.now classes.now frames.old frames.new prepared) }
{
    let count = count_of(initialisers, classes);
    if count == 0 {
        return Ok(Prepared::Ready);
    }
    if 1024_u64.saturating_sub(u64::from(frames.depth())) < count as u64 {
        return Ok(Prepared::TooDeep);
    }
    push_all(initialisers, frames, classes)?;
    Ok(Prepared::Waits)
}

/// Initialises a class and its superclasses, where they aren't initialised yet, the highest superclass first (JVMS 5.5): their static fields begin with
/// their constants (JVMS 4.7.2), and the frames of their initialisers are pushed, that of the highest superclass on top.
pub fn initialise(
    alloc: Global,
    image: &Image,
    places: &StaticPlaces,
    initialisers: &Initialisers,
    flags: &mut Initialised,
    statics: &mut Statics,
    literals: &mut Literals,
    heap: &mut Heap,
    frames: &mut Frames,
    class: u32,
) -> Result<Prepared, AllocError>
    requires formed { IsProgram (program_of image.now) }
    requires texts { AreTexts image.now }
    requires places { ArePlaces (program_of image.now) places.now }
    requires initialisers { AreInitialisers image.now initialisers.now }
    requires there { class < length (program_of image.now) }
    requires flags { AreFlags (program_of image.now) flags.old }
    requires are { IsStore image.now (store heap.old statics.old literals.old) }
    ensures prepares { IfOk result (λ prepared. Prepares image.now class
        (parts flags.old (store heap.old statics.old literals.old) frames.old) (parts flags.new (store heap.new statics.new literals.new) frames.new) prepared) }
    ensures known { AreKnown (types_of (typed_of image.now)) heap.old → IfOk result (λ _. AreKnown (types_of (typed_of image.now)) heap.new) }
{
    if flags.has_begun(class) {
        return Ok(Prepared::Ready);
    }
    let classes = begin_upward(alloc, image, flags, class)?;
    let filled = fill_all(image, places, statics, literals, heap, &classes)?;
    match filled {
        Filled::Done => stand_above(initialisers, frames, &classes),
        Filled::HeapFull { used, size } => Ok(Prepared::HeapFull { used, size }),
    }
}
