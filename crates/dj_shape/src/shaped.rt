ghost use Rattle.std.specs.Prelude.{◌≡◌, ℕ, ◌<◌, length, List, IfOk, Some};
ghost use Rattle.dj_names.specs.trusted.ModifiedUtf8.{SpellsUnits};
ghost use Rattle.dj_pool.specs.trusted.Pool.{Constant};
ghost use Rattle.dj_model.specs.trusted.Kinds.{Signature};
ghost use Rattle.dj_model.specs.trusted.Program.{is_static};
ghost use Rattle.dj_declarations.specs.trusted.Files.{name_in};
ghost use Rattle.dj_declarations.specs.Members.{IsDescriptor};
ghost use Rattle.dj_program.specs.trusted.Codes.{code_in};
ghost use Rattle.dj_program.specs.Views.{parts_of};
ghost use Rattle.dj_shape_rule.specs.Pools.{ArePoolKinds};
ghost use Rattle.dj_shape_rule.specs.trusted.Rule.{signature_at};
ghost use Rattle.dj_shape_rule.specs.Rule.{IsShapeAnswer};
ghost use Rattle.dj_class_table.specs.Tables.{name_at};
ghost use Rattle.dj_numbering.specs.Members.{all_methods};
ghost use Rattle.dj_image.specs.Imaged.{program_of};
ghost use Rattle.dj_image.specs.Shaped.{AreShapeParts};
ghost use Rattle.dj_shape.specs.Rules.{HasKinds, IsSpelled, IsShapeReported};
ghost use Rattle.dj_shape.specs.Reported.{IsLineIn};

use crate::lines::shape_line;
use dj_image::{Image, MemberOf, MethodId, ShapeParts};
use dj_link_rules::is_static;
use dj_report::Violation;
use dj_shape_rule::{ShapeError, ShapeFault};
use std::alloc::{AllocError, Global};

// The first fault of code.
fn fault_of(
    alloc: Global,
    flags: u16,
    parts: &ShapeParts<'_>,
) -> Result<Option<ShapeFault>, AllocError>
    ensures { IfOk result (λ fault. (pool : List Constant) (signature : Signature) → ArePoolKinds pool parts.now.kinds.now → IsDescriptor (name_in pool parts.now.desc)
        → signature_at pool (is_static flags) parts.now.desc ≡ Some signature → IsShapeAnswer signature (code_in pool (parts_of parts.now.code.now)) fault) }
{
    // There is no memory for more instructions than have numbers.
    let Ok(_) = u32::try_from(parts.code.code.code.as_slice().len()) else {
        return Err(AllocError);
    };
    Ok(dj_shape_rule::shape(alloc, parts.kinds, is_static(flags), parts.desc, parts.code)?)
}

// The name of a class.
fn class_name(image: &Image, class: u32) -> &[u8]
    requires { class < length (program_of image.now) }
    ensures { name_at (program_of image.now) class ≡ Some result.now }
{
    image.name_of(class)
}

// The line of a fault of a method.
fn line_of(
    alloc: Global,
    image: &Image,
    member: &MemberOf<'_>,
    fault: ShapeFault,
) -> Result<Violation, AllocError>
    requires there { member.now.class < length (program_of image.now) }
    requires spelled { (class : List ℕ) → name_at (program_of image.now) member.now.class ≡ Some class → (units : List ℕ) × SpellsUnits class units }
    ensures { IfOk result (IsLineIn image.now member.now fault) }
{
    let class = class_name(image, member.class);
    shape_line(alloc, class, member, fault)
}

// The violation by a method that has code, if the code has no shape.
fn shape_of(
    alloc: Global,
    image: &Image,
    method: MethodId,
    parts: &ShapeParts<'_>,
) -> Result<Option<Violation>, AllocError>
    requires there { method.number < length (all_methods (program_of image.now)) }
    requires kinds { HasKinds image.now method.number }
    requires spelled { IsSpelled image.now method.number }
    requires parts { AreShapeParts image.now method.number parts.now }
    ensures { IfOk result (IsShapeReported image.now method.number) }
{
    let member = image.method(method);
    match fault_of(alloc, member.flags, parts)? {
        None => Ok(None),
        Some(fault) => Ok(Some(line_of(alloc, image, &member, fault)?)),
    }
}

/// The violation of rule 19, SHAPE, by a method, if it has code without shape. It is the one of the least number.
pub fn shape(
    alloc: Global,
    image: &Image,
    method: MethodId,
) -> Result<Option<Violation>, ShapeError>
    requires there { method.number < length (all_methods (program_of image.now)) }
    requires kinds { HasKinds image.now method.number }
    requires spelled { IsSpelled image.now method.number }
    ensures { IfOk result (IsShapeReported image.now method.number) }
{
    match image.shape_parts(method) {
        None => Ok(None),
        Some(parts) => Ok(shape_of(alloc, image, method, &parts)?),
    }
}
