ghost use Rattle.std.specs.Prelude.{◌≡◌, ◌<◌, IfOk, IfSome, IsSome, length};
ghost use Rattle.dj_heap.specs.Heaps.{object_in};
ghost use Rattle.dj_numbering.specs.Typed.{types_of};
ghost use Rattle.dj_image.specs.Imaged.{program_of, typed_of};
ghost use Rattle.dj_unwinding.specs.Unwinding.{class_name_at};
ghost use Rattle.dj_settling.specs.Settling.{left_outcome, stopping, uncaught_outcome};

use crate::messages::message_of;
use dj_heap::Heap;
use dj_image::Image;
use dj_library_types::Classes;
use dj_names::{Charge, Name, Outcome};
use std::alloc::{AllocError, Global};

// How the run ends where an exception of this class leaves the initialiser of a class, or the last frame.
pub(crate) fn uncaught_outcome(
    alloc: Global,
    image: &Image,
    heap: &Heap,
    exceeded: Option<Charge>,
    class: u32,
    exception: u32,
    left: Option<u32>,
) -> Result<Outcome, AllocError>
    requires class { class < length (program_of image.now) }
    requires there { IsSome (object_in heap.now exception) }
    requires left { IfSome left (λ k. k < length (program_of image.now)) }
    ensures { IfOk result (λ outcome. outcome ≡ uncaught_outcome image.now heap.now exceeded class exception left) }
{
    match stopping(image, exceeded, class) {
        Some(charge) => Ok(Outcome::Stopped(charge)),
        None => left_outcome(alloc, image, heap, class, exception, left),
    }
}

// The charge that stops the run, where the class is that of the object that stops it.
#[tactic(auto, using(crate::proofs::EndLaws::is_stopping, crate::proofs::EndLaws::not_stopping, crate::proofs::EndLaws::never_stopping, crate::proofs::EndLaws::type_within))]
fn stopping(image: &Image, exceeded: Option<Charge>, class: u32) -> Option<Charge>
    requires { class < length (program_of image.now) }
    ensures { result ≡ stopping image.now exceeded class }
{
    match Classes::stop(image) {
        Some(stop) => { if stop == class { exceeded } else { None } }
        None => None,
    }
}

// The same, where it isn't the object that stops a run.
fn left_outcome(
    alloc: Global,
    image: &Image,
    heap: &Heap,
    class: u32,
    exception: u32,
    left: Option<u32>,
) -> Result<Outcome, AllocError>
    requires class { class < length (program_of image.now) }
    requires there { IsSome (object_in heap.now exception) }
    requires left { IfSome left (λ k. k < length (program_of image.now)) }
    ensures { IfOk result (λ outcome. outcome ≡ left_outcome image.now heap.now class exception left) }
{
    let thrown = class_name(alloc, image, class)?;
    let message = message_of(alloc, heap, exception)?;
    match left {
        Some(left) => Ok(Outcome::Init(class_name(alloc, image, left)?, thrown, message)),
        None => Ok(Outcome::Threw(thrown, message)),
    }
}

// The name of a class.
#[tactic(auto, using(crate::proofs::EndLaws::name_reported, crate::proofs::EndLaws::type_within))]
fn class_name(alloc: Global, image: &Image, class: u32) -> Result<Name, AllocError>
    requires { class < length (program_of image.now) }
    ensures { IfOk result (λ name. name ≡ class_name_at (program_of image.now) class) }
{
    Name::from_slice(alloc, Image::name_of(image, class))
}
