ghost use Rattle.std.specs.Prelude.{◌≡◌, ◌<◌, IfErr, IfOk, IfSome, IsSome, length, replicate};
ghost use Rattle.dj_names.specs.trusted.Heaps.{Instance};
ghost use Rattle.dj_model.specs.Sound.{IsSound};
ghost use Rattle.dj_natives.specs.Known.{AreKnown};
ghost use Rattle.dj_numbering.specs.Typed.{types_of};
ghost use Rattle.dj_image.specs.Imaged.{program_of, typed_of};
ghost use Rattle.dj_current_method.specs.Activations.{AreActivations};
ghost use Rattle.dj_unwinding.specs.Unwinding.{IsClassNumber};
ghost use Rattle.dj_heap.specs.Heaps.{object_in};
ghost use Rattle.dj_settling.specs.Frugal.{IsFrugalThrow};
ghost use Rattle.dj_settling.specs.Settling.{IsMade, IsThrown, Settles, throwing, throwing_new, uncaught_outcome};
ghost use Rattle.dj_settling.specs.declared.settled.Settled.TheVariants as settles;

use crate::endings::uncaught_outcome;
use crate::settled::Settled;
use dj_heap::{Heap, HeapError};
use dj_image::Image;
use dj_names::{Charge, Outcome};
use dj_stack::Frames;
use dj_unwinding::{Unwound, unwind};
use std::alloc::{AllocError, Global};

/// Throws an object: the exception leaves frames up to the first with a handler, or the run ends. The charge is the one that has passed its threshold,
/// where one has.
#[tactic(auto, using(crate::proofs::ThrowLaws::threw_caught, crate::proofs::ThrowLaws::threw_out, crate::proofs::ThrowLaws::threw_last, crate::proofs::ThrowLaws::plain_class, crate::proofs::ThrowLaws::class_is, crate::proofs::ThrowLaws::is_there))]
pub fn throw(
    alloc: Global,
    image: &Image,
    frames: &mut Frames,
    heap: &Heap,
    exceeded: Option<Charge>,
    exception: u32,
) -> Result<Settled, AllocError>
    requires sound { IsSound (program_of image.now) image.now.prefix }
    requires stand { AreActivations image.now frames.old }
    requires known { AreKnown (types_of (typed_of image.now)) heap.now }
    requires thrown { IsThrown image.now heap.now exception }
    ensures settles { IfOk result (λ settled. Settles image.now exceeded (throwing image.now exception) heap.now heap.now frames.old frames.new settled) }
    ensures frugal { IsFrugalThrow image.now heap.now frames.old exception → IfErr result (λ _. ⊥) }
{
    image.are_settled();
    let class = heap.class_of(exception);
    match unwind(image, frames, class, exception)? {
        Unwound::Caught => Ok(Settled::Went),
        Unwound::Init(left) => end(alloc, image, heap, exceeded, class, exception, Some(left)),
        Unwound::Threw => end(alloc, image, heap, exceeded, class, exception, None),
    }
}

// The run ends, as the exception left the initialiser of a class, or the last frame.
fn end(
    alloc: Global,
    image: &Image,
    heap: &Heap,
    exceeded: Option<Charge>,
    class: u32,
    exception: u32,
    left: Option<u32>,
) -> Result<Settled, AllocError>
    requires class { class < length (program_of image.now) }
    requires there { IsSome (object_in heap.now exception) }
    requires left { IfSome left (λ k. k < length (program_of image.now)) }
    ensures { IfOk result (λ settled. settled ≡ settles.Ended (uncaught_outcome image.now heap.now exceeded class exception left)) }
{
    let outcome = uncaught_outcome(alloc, image, heap, exceeded, class, exception, left)?;
    Ok(Settled::Ended(outcome))
}

/// An instance of a class, with this many fields, is made and thrown.
pub fn throw_new(
    alloc: Global,
    image: &Image,
    frames: &mut Frames,
    heap: &mut Heap,
    exceeded: Option<Charge>,
    class: u32,
    fields: u32,
) -> Result<Settled, AllocError>
    requires sound { IsSound (program_of image.now) image.now.prefix }
    requires stand { AreActivations image.now frames.old }
    requires known { AreKnown (types_of (typed_of image.now)) heap.old }
    requires class { IsClassNumber (typed_of image.now) class }
    ensures { IfOk result (λ settled. Settles image.now exceeded (throwing_new image.now class fields) heap.old heap.new frames.old frames.new settled) }
{
    let mut made = 0;
    make_and_throw(
        alloc, image, frames, heap, exceeded, class, fields, &mut made,
    )
}

// The same, and its number is kept.
#[tactic(auto, using(crate::proofs::ThrowLaws::made_and_threw, crate::proofs::ThrowLaws::made_thrown, crate::proofs::ThrowLaws::made_known, crate::proofs::ThrowLaws::made_full, crate::proofs::ThrowLaws::was_made, crate::proofs::ThrowLaws::none_made))]
pub(crate) fn make_and_throw(
    alloc: Global,
    image: &Image,
    frames: &mut Frames,
    heap: &mut Heap,
    exceeded: Option<Charge>,
    class: u32,
    fields: u32,
    made: &mut u32,
) -> Result<Settled, AllocError>
    requires sound { IsSound (program_of image.now) image.now.prefix }
    requires stand { AreActivations image.now frames.old }
    requires known { AreKnown (types_of (typed_of image.now)) heap.old }
    requires class { IsClassNumber (typed_of image.now) class }
    ensures settles { IfOk result (λ settled. Settles image.now exceeded (throwing_new image.now class fields) heap.old heap.new frames.old frames.new settled) }
    ensures made { IfOk result (λ _. IsMade heap.old heap.new (Instance class (replicate fields 0)) made.old made.new) }
{
    image.are_settled();
    match heap.instance(class, fields) {
        Ok(exception) => {
            *made = exception;
            throw(alloc, image, frames, heap, exceeded, exception)
        }
        Err(HeapError::Full { used, size }) => {
            Ok(Settled::Ended(Outcome::HeapFull { used, size }))
        }
        Err(HeapError::Memory) => Err(AllocError),
    }
}
