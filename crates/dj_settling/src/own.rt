ghost use Rattle.std.specs.Prelude.{◌≡◌, ◌++◌, true, is_some};
ghost use Rattle.dj_names.specs.trusted.Values.{raised_class};
ghost use Rattle.dj_names.specs.declared.run.Raised.{Raised};
ghost use Rattle.dj_class_table.specs.Tables.{class_number};
ghost use Rattle.dj_image.specs.Imaged.{program_of};
ghost use Rattle.dj_settling.specs.Settling.{HasClass, HasOwn, HasStop};

use crate::raising::name_in;
use dj_image::{BaseNames, Image};
use dj_names::Raised;

/// Whether the classes of the objects that the machine itself throws are there, as they are in every image with a library.
#[tactic(auto, using(crate::proofs::OwnLaws::are_own))]
pub fn has_own(image: &Image) -> bool
    ensures { result ≡ true → HasOwn image.now }
{
    has_raised(image) && has_stop(image)
}

// Whether the classes of the exceptions are there.
#[tactic(auto, using(crate::proofs::OwnLaws::all_raised))]
fn has_raised(image: &Image) -> bool
    ensures { result ≡ true → (raised : Raised) → HasClass (program_of image.now) (image.now.prefix ++ raised_class raised) }
{
    has(image, Raised::Arithmetic)
        && has(image, Raised::ArrayIndexOutOfBounds)
        && has(image, Raised::ArrayStore)
        && has(image, Raised::ClassCast)
        && has(image, Raised::NegativeArraySize)
        && has(image, Raised::NullPointer)
        && has(image, Raised::StringIndexOutOfBounds)
}

// Whether the class of the exception is there.
#[tactic(auto, using(crate::proofs::OwnLaws::raised_there))]
fn has(image: &Image, raised: Raised) -> bool
    ensures { result ≡ true → HasClass (program_of image.now) (image.now.prefix ++ raised_class raised) }
{
    has_class(image, name_in(image, raised))
}

// Whether the class of the object that stops a run is there, where classes are rewritten.
#[tactic(auto, using(crate::proofs::OwnLaws::no_stop, crate::proofs::OwnLaws::stop_there))]
fn has_stop(image: &Image) -> bool
    ensures { result ≡ true → HasStop image.now.prefix (program_of image.now) }
{
    match image.linker().base() {
        BaseNames::Plain => true,
        BaseNames::Sandbox => has_class(image, b"djvm/Stop"),
    }
}

// Whether there is a class of this name.
#[tactic(auto, using(crate::proofs::OwnLaws::class_asked))]
fn has_class(image: &Image, name: &[u8]) -> bool
    ensures { result ≡ is_some (class_number (program_of image.now) name.now) }
{
    image.linker().classes().class_named(name).is_some()
}
