ghost use Rattle.std.specs.Prelude.{◌≡◌, ◌<◌, ◌↔◌, IsTrue, codes, length};
ghost use Rattle.std.specs.Option.{option_map};
ghost use Rattle.dj_model.specs.trusted.Program as programs;
ghost use Rattle.dj_model.specs.Sound.{IsProgram};
ghost use Rattle.dj_numbering.specs.Members.{all_methods};
ghost use Rattle.dj_image.specs.Imaged.{program_of};
ghost use Rattle.dj_current_method.specs.Activations.{declared_at};
ghost use Rattle.dj_current_method.specs.Reported.{SaysCode, SaysInitialiser};

use dj_image::{Body, Image, MethodCode, MethodId};

/// The code of a method, where it has some.
#[tactic(auto, using(crate::proofs::Reported::code_reported, crate::proofs::Reported::native_reported, crate::proofs::Reported::abstract_reported))]
pub fn code_of(image: &Image, method: MethodId) -> Option<&MethodCode>
    requires there { method.number < length (all_methods (program_of image.now)) }
    requires formed { IsProgram (program_of image.now) }
    ensures { SaysCode image.now method.number (option_map (λ code. code.now) result) }
{
    match image.body(method) {
        Body::Code(code) => Some(code),
        Body::Native(_) => None,
        Body::Abstract => None,
    }
}

/// The class of which a method is the initialiser (JVMS 2.9), where it is one.
pub fn initialised_by(image: &Image, method: MethodId) -> Option<u32>
    requires { method.number < length (all_methods (program_of image.now)) }
    ensures { SaysInitialiser image.now method.number result }
{
    let reported = image.method(method);
    if are_initialisers(reported.name, reported.desc) {
        Some(reported.class)
    } else {
        None
    }
}

/// Whether a method is the initialiser of its class (JVMS 2.9).
pub fn is_initialiser(image: &Image, method: MethodId) -> bool
    requires { method.number < length (all_methods (program_of image.now)) }
    ensures { result ≡ programs.is_initialiser (declared_at (program_of image.now) method.number) }
{
    initialised_by(image, method).is_some()
}

// Whether they are the name and the descriptor of an initialiser.
fn are_initialisers(name: &[u8], desc: &[u8]) -> bool
    ensures { IsTrue result ↔ ((name.now ≡ codes "<clinit>") × (desc.now ≡ codes "()V")) }
{
    name == b"<clinit>".as_slice() && desc == b"()V".as_slice()
}
