ghost use Rattle.std.specs.Prelude.{◌<◌, length, IfOk};
ghost use Rattle.dj_model.specs.Sound.{IsProgram};
ghost use Rattle.dj_image.specs.Imaged.{program_of};
ghost use Rattle.dj_initialisation.specs.Flags.{AreFlags};
ghost use Rattle.dj_initialisation.specs.Waiting.{AreWaiting};

use crate::flags::Initialised;
use dj_image::Image;
use std::alloc::{AllocError, Global};

/// The class and those of its superclasses that aren't initialised yet, the class first; they count as initialised from now on.
pub fn begin_upward(
    alloc: Global,
    image: &Image,
    flags: &mut Initialised,
    class: u32,
) -> Result<Vec<u32>, AllocError>
    requires there { class < length (program_of image.now) }
    requires formed { IsProgram (program_of image.now) }
    requires flags { AreFlags (program_of image.now) flags.old }
    ensures { IfOk result (λ classes. AreWaiting (program_of image.now) class flags.old flags.new classes.items) }
{
    let mut path = Vec::new(alloc);
    let mut next = Some(class);
    while let Some(at) = next {
        if flags.has_begun(at) {
            break;
        }
        path.push(at)?;
        flags.mark(at);
        next = image.super_of(at);
    }
    Ok(path)
}
