ghost use Rattle.std.specs.Prelude.{◌≡◌, ◌<◌, None, length, get_or, IfOk};
ghost use Rattle.dj_model.specs.Sound.{IsProgram};
ghost use Rattle.dj_resolution.specs.Linked.{class_name};
ghost use Rattle.dj_numbering.specs.Members.{all_methods};
ghost use Rattle.dj_numbering.specs.Typed.{types_of};
ghost use Rattle.dj_image.specs.Imaged.{program_of, typed_of};
ghost use Rattle.dj_initialisation.specs.Initialisers.{AreInitialisers, IsInitialiserOf, RunsAt, spells_initialiser};

use crate::bits::is_static;
use dj_image::{Body, Image};
use dj_numbering::MethodId;
use std::alloc::{AllocError, Global};
use std::marker::Model;

/// The initialiser of a class (JVMS 2.9): its number, and how many local variables and operands its frame has.
#[derive(Clone, Copy, Debug)]
pub struct Initialiser {
    pub method: u32,
    pub locals: u16,
    pub room: u16,
}

/// For each class its initialiser, where it has one.
#[derive(Debug, Drop)]
pub struct Initialisers {
    each: Vec<Option<Initialiser>>,
}

impl Model for Initialisers {
    ghost use Rattle.std.specs.Prelude.{List, Option};
    ghost use Rattle.dj_initialisation.specs.declared.initialisers.Initialiser.{Initialiser};

    ghost Value = { List (Option Initialiser) };

    ghost view = { λ initialisers. initialisers.each.items };
}

impl Initialisers {
    /// The initialisers of the classes of an image. Each method is looked at once at most.
    pub fn of(alloc: Global, image: &Image) -> Result<Initialisers, AllocError>
        requires { IsProgram (program_of image.now) }
        ensures { IfOk result (λ initialisers. AreInitialisers image.now initialisers) }
    {
        let mut each = Vec::new(alloc);
        for class in 0..image.class_count() {
            let initialiser = initialiser_of(image, class)?;
            each.push(initialiser)?;
        }
        Ok(Initialisers { each })
    }

    /// The initialiser of a class; an array has none.
    pub fn initialiser(&self, class: u32) -> Option<Initialiser>
        ensures { result ≡ get_or self.now class None }
    {
        *self.each.get(class as usize)?
    }
}

// The initialiser of a class: the first method with its name and its descriptor, where it is static and has code.
fn initialiser_of(image: &Image, class: u32) -> Result<Option<Initialiser>, AllocError>
    requires formed { IsProgram (program_of image.now) }
    requires there { class < length (types_of (typed_of image.now)) }
    ensures { IfOk result (λ o. class < length (program_of image.now) → IsInitialiserOf image.now (class_name (program_of image.now) class) o) }
{
    for at in 0..u32::MAX {
        let Some(method) = image.method_at(class, at) else {
            return Ok(None);
        };
        let member = image.method(method);
        if is_initialiser(member.name, member.desc) {
            return Ok(running(image, method, member.flags));
        }
    }
    Err(AllocError)
}

// Whether these are the name and the descriptor of an initialiser.
fn is_initialiser(name: &[u8], desc: &[u8]) -> bool
    ensures { result ≡ spells_initialiser name.now desc.now }
{
    name == b"<clinit>".as_slice() && desc == b"()V".as_slice()
}

// The method with these flags as an initialiser, where it is static and has code.
fn running(image: &Image, method: MethodId, flags: u16) -> Option<Initialiser>
    requires { method.number < length (all_methods (program_of image.now)) }
    ensures { RunsAt image.now method.number flags result }
{
    if !is_static(flags) {
        return None;
    }
    match image.body(method) {
        Body::Abstract => None,
        Body::Native(_) => None,
        Body::Code(code) => Some(Initialiser {
            method: method.number,
            locals: code.max_locals,
            room: code.max_stack,
        }),
    }
}
