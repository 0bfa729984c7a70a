ghost use Rattle.std.specs.Prelude.{◌≡◌, Some, IfOk, IfSome, slice_get};
ghost use Rattle.dj_names.specs.trusted.Types.{class_type};
ghost use Rattle.dj_model.specs.trusted.Types as named;
ghost use Rattle.dj_model.specs.Sound.{IsSound};
ghost use Rattle.dj_resolution.specs.Linked.{prefix_of};
ghost use Rattle.dj_numbering.specs.Typed.{types_of};
ghost use Rattle.dj_image.specs.Imaged.{program_of, typed_of};
ghost use Rattle.dj_invocation.specs.Natives.{AreNatives};
ghost use Rattle.dj_settling.specs.Settling.{HasOwn};
ghost use Rattle.dj_image_step.specs.Running.{IsKept};
ghost use Rattle.dj_image_step.specs.Short.{AreBounded};

use crate::shortness::are_bounded;
use dj_image::{BaseNames, Image};
use dj_initialisation::{Initialisers, StaticPlaces};
use dj_invocation::Natives;
use dj_settling::has_own;
use std::alloc::{AllocError, Global};
use std::marker::Model;

/// What is made once of an image.
#[derive(Drop)]
pub struct Tables {
    pub(crate) places: StaticPlaces,
    pub(crate) initialisers: Initialisers,
    pub(crate) natives: Natives,
    // The number of the class Throwable.
    pub(crate) throwable: u32,
}

impl Model for Tables {
    ghost use Rattle.dj_image_step.specs.Running.{Kept};

    ghost Value = { Kept };

    ghost view = { λ tables. record {
      places = tables.places;
      initialisers = tables.initialisers;
      natives = tables.natives;
      throwable = tables.throwable;
    } };
}

impl Tables {
    /// What a run needs of an image beside its readers. It isn't made for an image without a class that the machine throws, or without Throwable, and
    /// none with a library lacks one; nor for one with code that no class file has.
    pub fn of(alloc: Global, image: &Image) -> Result<Tables, AllocError>
        requires { IsSound (program_of image.now) image.now.prefix }
        ensures { IfOk result (IsKept image.now) }
    {
        if !has_own(image) {
            return Err(AllocError);
        }
        if !are_bounded(image)? {
            return Err(AllocError);
        }
        tables_of(alloc, image)
    }

    /// The places of static fields.
    pub fn places(&self) -> &StaticPlaces
        ensures { result.now ≡ self.now.places }
    {
        &self.places
    }

    /// The initialisers of classes.
    pub fn initialisers(&self) -> &Initialisers
        ensures { result.now ≡ self.now.initialisers }
    {
        &self.initialisers
    }
}

// Of an image with the classes that the machine throws.
fn tables_of(alloc: Global, image: &Image) -> Result<Tables, AllocError>
    requires sound { IsSound (program_of image.now) image.now.prefix }
    requires own { HasOwn image.now }
    requires bounded { AreBounded image.now }
    ensures { IfOk result (IsKept image.now) }
{
    image.is_numbered();
    let Some(throwable) = throwable(image) else {
        return Err(AllocError);
    };
    let places = StaticPlaces::of(alloc, image)?;
    let initialisers = Initialisers::of(alloc, image)?;
    let natives = natives_of(alloc, image)?;
    Ok(Tables {
        places,
        initialisers,
        natives,
        throwable,
    })
}

// The classes of the parameters of native methods. No native method of a library takes references of a class without a number.
fn natives_of(alloc: Global, image: &Image) -> Result<Natives, AllocError>
    ensures { IfOk result (AreNatives image.now) }
{
    Natives::of(alloc, image).or(Err(AllocError))
}

// The class Throwable.
fn throwable(image: &Image) -> Option<u32>
    ensures { IfSome result (λ class. slice_get (types_of (typed_of image.now)) class ≡ Some (class_type (named.throwable_name image.now.prefix))) }
{
    let linker = image.linker();
    linker.classes().class_named(throwable_name(linker.base()))
}

fn throwable_name(base: BaseNames) -> &'static [u8]
    ensures { result.now ≡ named.throwable_name (prefix_of base) }
{
    match base {
        BaseNames::Plain => b"java/lang/Throwable",
        BaseNames::Sandbox => b"sandbox/java/lang/Throwable",
    }
}
