//! The code of one method.
ghost use Rattle.std.specs.Prelude.{◌≡◌, ◌+◌, ◌<◌, ◌^◌, ◌∷◌, [], length, map, IfOk};
ghost use Rattle.std.specs.List.{AllByRecursion};
ghost use Rattle.dj_pool.specs.trusted.Pool.{IsPool};
ghost use Rattle.dj_class.specs.Parts.{attribute_of};
ghost use Rattle.dj_class.specs.Members.{member_of};
ghost use Rattle.dj_class.specs.CodeViews.{code_of};
ghost use Rattle.dj_class.specs.trusted.ClassFile.{IsAttribute};
ghost use Rattle.dj_class.specs.trusted.Code.{CodeInfo, IsCode};
ghost use Rattle.dj_image.specs.Imaged.{program_of};
ghost use Rattle.dj_rewrite_code.specs.Answers.{IsKnownMethod, RewritesMethod};

use crate::attributes::attributes_named;
use crate::body::rewrite_body;
use crate::error::CodeError;
use dj_class::{Attribute, ClassError, CodeView, MemberView, read_code};
use dj_early_rules::{MethodBody, code_of_method};
use dj_frames::stack_map_is_well_formed;
use dj_image::Image;
use dj_names::Bytes;
use dj_pool::Pool;
use dj_program::method_code;
use std::alloc::{AllocError, Global};

/// The rewritten Code attribute of a method (JVMS 4.7.3).
#[derive(Debug, Drop)]
pub struct CodeBody {
    /// The index of its name, which it keeps.
    pub name: u16,
    pub body: Bytes,
}

// The one attribute.
fn only<'a>(attributes: &[Attribute<'a>]) -> Attribute<'a>
    requires { length attributes.now ≡ 1 }
    ensures { map attribute_of attributes.now ≡ attribute_of result ∷ [] }
{
    attributes[0]
}

// The parts of a Code attribute that is one.
fn view_of<'a>(alloc: Global, body: &'a [u8]) -> Result<CodeView<'a>, AllocError>
    requires short { length body.now < 2 ^ 32 }
    requires code { (info : CodeInfo) × IsCode body.now info }
    ensures { IfOk result (λ view. IsCode body.now (code_of view)) }
{
    match read_code(alloc, body) {
        Ok(view) => Ok(view),
        Err(ClassError::Memory) => Err(AllocError),
        Err(ClassError::Magic) => unreachable!(),
        Err(ClassError::Cut(_)) => unreachable!(),
        Err(ClassError::Pool(_)) => unreachable!(),
        Err(ClassError::Index(_)) => unreachable!(),
        Err(ClassError::Trailing(_)) => unreachable!(),
    }
}

/// The Code attribute of a method, rewritten, with indexes of a pool that has the accounter's constants from `first` on; none of a native or abstract
/// method. The image has the classes of the objects that the code makes.
pub fn rewrite_code(
    alloc: Global,
    image: &Image,
    pool: &Pool<'_>,
    first: u16,
    method: &MemberView<'_>,
) -> Result<Option<CodeBody>, CodeError>
    requires first { first + 25 < 2 ^ 16 }
    requires valid { IsPool pool.now }
    requires attributes { AllByRecursion (IsAttribute pool.now) (member_of method.now).attributes }
    requires known { IsKnownMethod (program_of image.now) pool.now (member_of method.now) }
    ensures { RewritesMethod (program_of image.now) pool.now first (member_of method.now) result }
{
    stack_map_is_well_formed();
    let codes = attributes_named(alloc, pool, b"Code", method.attributes.as_slice())?;
    let whole = match code_of_method(alloc, pool, method)? {
        MethodBody::Whole(code) => code,
        MethodBody::Bodiless => return Ok(None),
        MethodBody::Faulty => unreachable!(),
    };
    let attribute = only(codes.as_slice());
    let view = view_of(alloc, attribute.body)?;
    let code = method_code(whole);
    let body = rewrite_body(alloc, image, pool, first, &view, &code)?;
    Ok(Some(CodeBody {
        name: attribute.name,
        body,
    }))
}
