ghost use Rattle.std.specs.Prelude.{◌≡◌, ◌++◌, ℕ, List, IfOk};
ghost use Rattle.dj_names.specs.trusted.ModifiedUtf8.{SpellsUnits};
ghost use Rattle.dj_shape.specs.Reported.{IsLineOf};

use crate::paths::{class_path, joined};
use dj_image::MemberOf;
use dj_names::Name;
use dj_report::Violation;
use dj_shape_rule::ShapeFault;
use std::alloc::{AllocError, Global};

// The number of SHAPE.
const SHAPE: u8 = 19;

// The name of a member, followed by its descriptor.
fn member_text(alloc: Global, member: &MemberOf<'_>) -> Result<Name, AllocError>
    ensures { IfOk result (λ text. text ≡ member.now.name.now ++ member.now.desc.now) }
{
    joined(alloc, member.name, member.desc)
}

/// The line of a fault of a method, of a class with this name.
pub fn shape_line(
    alloc: Global,
    class: &[u8],
    member: &MemberOf<'_>,
    fault: ShapeFault,
) -> Result<Violation, AllocError>
    requires { (units : List ℕ) × SpellsUnits class.now units }
    ensures { IfOk result (IsLineOf class.now member.now fault) }
{
    Ok(Violation {
        path: class_path(alloc, class)?,
        member: member_text(alloc, member)?,
        number: fault.number,
        rule: SHAPE,
    })
}
