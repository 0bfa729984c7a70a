ghost use Rattle.std.specs.Prelude.{◌≡◌, get_or};
ghost use Rattle.std.specs.Option.{option_map};
ghost use Rattle.dj_image.specs.Shaped.{shape_lent, shape_in, shape_kept};

use crate::parts::ClassParts;
use dj_numbering::Place;
use dj_program::MethodCode;
use dj_shape_rule::PoolKinds;

/// What rule 19, SHAPE, needs to know of a method that has code.
#[derive(Drop)]
pub struct ShapeParts<'i> {
    /// What it needs to know of the constants of the class.
    pub kinds: &'i PoolKinds,
    /// The index of the method's descriptor.
    pub desc: u16,
    pub code: &'i MethodCode,
}

// The index of the descriptor of a method of a class.
fn desc_at(descs: &[u16], member: u32) -> u16
    ensures { result ≡ get_or descs.now member 0 }
{
    match descs.get(member as usize) {
        Some(desc) => *desc,
        None => 0,
    }
}

// What is kept of a method of a class; nothing where it has no code.
fn shape_in(parts: &ClassParts, member: u32) -> Option<ShapeParts<'_>>
    ensures { option_map shape_lent result ≡ shape_in member parts.now }
{
    let code = parts.codes.get(member as usize)?.as_ref()?;
    Some(ShapeParts {
        kinds: &parts.kinds,
        desc: desc_at(&parts.descs, member),
        code,
    })
}

/// What the rule needs to know of the method at a place; none where it has no code.
pub(crate) fn shape_parts(parts: &[ClassParts], place: Place) -> Option<ShapeParts<'_>>
    ensures { option_map shape_lent result ≡ shape_kept parts.now place }
{
    shape_in(parts.get(place.class as usize)?, place.member)
}
