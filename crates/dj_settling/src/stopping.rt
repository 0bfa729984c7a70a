ghost use Rattle.std.specs.Prelude.{◌≡◌, Some, None, IfOk};
ghost use Rattle.dj_model.specs.Sound.{IsSound};
ghost use Rattle.dj_natives.specs.Known.{AreKnown};
ghost use Rattle.dj_numbering.specs.Typed.{types_of, stop_at};
ghost use Rattle.dj_image.specs.Imaged.{program_of, typed_of};
ghost use Rattle.dj_current_method.specs.Activations.{AreActivations};
ghost use Rattle.dj_settling.specs.Settling.{HasOwn, IsRewritten, IsStop, Settles, stop_found, stop_number_from, throwing_stop};

use crate::settled::Settled;
use crate::throwing::{make_and_throw, throw};
use dj_heap::Heap;
use dj_image::Image;
use dj_names::Charge;
use dj_stack::Frames;
use std::alloc::{AllocError, Global};

/// Throws the object that stops a run. It has the given number; where that is 0, as it wasn't needed before, the first one of the heap is taken, or one is
/// made, and its number is kept.
#[tactic(auto, using(crate::proofs::StopLaws::found_is))]
pub fn throw_stop(
    alloc: Global,
    image: &Image,
    frames: &mut Frames,
    heap: &mut Heap,
    exceeded: Option<Charge>,
    stop: &mut u32,
) -> Result<Settled, AllocError>
    requires sound { IsSound (program_of image.now) image.now.prefix }
    requires own { HasOwn image.now }
    requires rewritten { IsRewritten image.now.prefix }
    requires stand { AreActivations image.now frames.old }
    requires known { AreKnown (types_of (typed_of image.now)) heap.old }
    requires is { IsStop image.now heap.old stop.old }
    ensures settles { IfOk result (λ settled. Settles image.now exceeded (throwing_stop image.now) heap.old heap.new frames.old frames.new settled) }
    ensures is { IfOk result (λ _. IsStop image.now heap.new stop.new) }
{
    let class = stop_class(image);
    match find(image, heap, class, *stop) {
        Some(found) => {
            *stop = found;
            throw_found(alloc, image, frames, heap, exceeded, class, found)
        }
        None => make_stop(alloc, image, frames, heap, exceeded, class, stop),
    }
}

// Throws the object, where there is one.
#[tactic(auto, using(crate::proofs::StopLaws::found_thrown, crate::proofs::StopLaws::found_threw))]
fn throw_found(
    alloc: Global,
    image: &Image,
    frames: &mut Frames,
    heap: &Heap,
    exceeded: Option<Charge>,
    class: u32,
    found: u32,
) -> Result<Settled, AllocError>
    requires sound { IsSound (program_of image.now) image.now.prefix }
    requires class { Some class ≡ stop_at (typed_of image.now) }
    requires stand { AreActivations image.now frames.old }
    requires known { AreKnown (types_of (typed_of image.now)) heap.now }
    requires found { Some found ≡ stop_found image.now heap.now }
    ensures { IfOk result (λ settled. Settles image.now exceeded (throwing_stop image.now) heap.now heap.now frames.old frames.new settled) }
{
    image.are_settled();
    throw(alloc, image, frames, heap, exceeded, found)
}

// Makes and throws the object, where there is none, and keeps its number.
#[tactic(auto, using(crate::proofs::StopLaws::made_threw, crate::proofs::StopLaws::made_is, crate::proofs::StopLaws::class_is))]
fn make_stop(
    alloc: Global,
    image: &Image,
    frames: &mut Frames,
    heap: &mut Heap,
    exceeded: Option<Charge>,
    class: u32,
    stop: &mut u32,
) -> Result<Settled, AllocError>
    requires sound { IsSound (program_of image.now) image.now.prefix }
    requires class { Some class ≡ stop_at (typed_of image.now) }
    requires stand { AreActivations image.now frames.old }
    requires known { AreKnown (types_of (typed_of image.now)) heap.old }
    requires none { None ≡ stop_found image.now heap.old }
    requires is { IsStop image.now heap.old stop.old }
    ensures settles { IfOk result (λ settled. Settles image.now exceeded (throwing_stop image.now) heap.old heap.new frames.old frames.new settled) }
    ensures is { IfOk result (λ _. IsStop image.now heap.new stop.new) }
{
    image.are_settled();
    make_and_throw(alloc, image, frames, heap, exceeded, class, 0, stop)
}

// The class of the object that stops a run.
#[tactic(auto, using(crate::proofs::StopLaws::class_lacks))]
fn stop_class(image: &Image) -> u32
    requires own { HasOwn image.now }
    requires rewritten { IsRewritten image.now.prefix }
    ensures { Some result ≡ stop_at (typed_of image.now) }
{
    match Image::stop(image) {
        Some(class) => class,
        None => unreachable!(),
    }
}

// The object of this number, where it is kept, and else the first one of the class.
#[tactic(auto, using(crate::proofs::StopLaws::reported_is, crate::proofs::StopLaws::by_number))]
fn find(image: &Image, heap: &Heap, class: u32, stop: u32) -> Option<u32>
    requires known { AreKnown (types_of (typed_of image.now)) heap.now }
    requires class { Some class ≡ stop_at (typed_of image.now) }
    requires is { IsStop image.now heap.now stop }
    ensures { result ≡ stop_found image.now heap.now }
{
    image.are_settled();
    if stop == 0 {
        first_of(heap, class)
    } else {
        Some(stop)
    }
}

// The first object of a class.
#[tactic(auto, using(crate::proofs::StopLaws::object_there, crate::proofs::StopLaws::first_here, crate::proofs::StopLaws::first_past, crate::proofs::StopLaws::first_nowhere))]
fn first_of(heap: &Heap, class: u32) -> Option<u32>
    ensures { result ≡ stop_number_from class 1 heap.now.heap.objects }
{
    for at in 0..heap.count() {
        if class == heap.class_of(at + 1) {
            return Some(at + 1);
        }
    }
    None
}
