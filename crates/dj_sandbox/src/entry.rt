//! The entry of a run in an image.
ghost use Rattle.dj_model.specs.Standing.{IsEntry};
ghost use Rattle.dj_image.specs.Imaged.{program_of};
ghost use Rattle.dj_class_set.specs.trusted.RawRules.{entry_of};
ghost use Rattle.dj_sandbox.specs.Loading.{IsEntryAt};

use dj_class_set::{DESCRIPTOR, VERIFY};
use dj_image::{Image, MethodId};

/// The entry of the class of this name, which the image's program has.
pub fn entry_in(image: &Image, entry: &[u8]) -> MethodId
    requires { IsEntry (program_of image.now) (entry_of entry.now) }
    ensures { IsEntryAt image.now entry.now result.number }
{
    let Some(class) = image.class_named(entry) else {
        unreachable!()
    };
    match image.resolve_method(class, VERIFY, DESCRIPTOR) {
        Some(method) => method,
        None => unreachable!(),
    }
}
