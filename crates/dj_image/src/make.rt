ghost use Rattle.std.specs.Prelude.{◌≡◌, ◌+◌, ◌<◌, ◌^◌, length, is_some, IsTrue, IfOk, OnOk};
ghost use Rattle.dj_model.specs.trusted.Types.{object_name};
ghost use Rattle.dj_class_table.specs.Tables.{class_number};
ghost use Rattle.dj_numbering.specs.Typed.{AreArrays, chars_at};
ghost use Rattle.dj_image.specs.Imaged.{IsNumbered};
ghost use Rattle.dj_image.specs.Parts.{sources_of, FitClasses, AreFew, HasString};
ghost use Rattle.dj_image.specs.Tables.{imaged_of, AreClosed};
ghost use Rattle.dj_image.specs.Texts.{RiseStrictly};

use crate::arrays::arrays_of;
use crate::error::ImageError;
use crate::image::Image;
use crate::parts::ClassParts;
use crate::tables::tables_of;
use crate::texts::texts_of;
use dj_names::Units;
use dj_numbering::{Linker, Shape, Types};
use std::alloc::Global;

// There is no memory for more classes and arrays than have numbers.
fn check_types(linker: &Linker, arrays: &[Shape]) -> Result<(), ImageError>
    ensures { OnOk result (length linker.now.program + length arrays.now < 2 ^ 32) }
{
    let Ok(count) = u32::try_from(arrays.len()) else {
        return Err(ImageError::Memory);
    };
    match linker.classes().class_count().checked_add(count) {
        Some(_) => Ok(()),
        None => Err(ImageError::Memory),
    }
}

// There is no memory for more texts than have numbers.
fn check_texts(texts: &[Units]) -> Result<(), ImageError>
    ensures { OnOk result (length texts.now < 2 ^ 32) }
{
    u32::try_from(texts.len()).or(Err(ImageError::Memory))?;
    Ok(())
}

// The image of classes and arrays that are numbered, and of texts.
fn image_from(
    alloc: Global,
    types: Types,
    parts: Vec<ClassParts>,
    texts: Vec<Units>,
    object: Option<u32>,
) -> Result<Image, ImageError>
    requires arrays { AreArrays types.program types.arrays }
    requires object { object ≡ class_number types.program (object_name types.prefix) }
    requires rise { RiseStrictly texts.items }
    requires few { length texts.items < 2 ^ 32 }
    requires fit { FitClasses types.program parts.items }
    requires string { HasString types.program types.prefix }
    requires chars { IsTrue (is_some (chars_at types)) }
    requires closed { AreClosed types.arrays }
    requires numbered { IsNumbered (imaged_of types parts.items texts.items) }
    ensures { IfOk result (λ image. image ≡ imaged_of types parts.items texts.items) }
{
    let tables = tables_of(alloc, &types, &texts, object, &parts)?;
    Ok(Image {
        types,
        parts,
        texts,
        operands: tables.operands,
        named: tables.named,
        made: tables.made,
        constants: tables.constants,
    })
}

/// The image of classes, by their numbers, with what each has beside what it declares. Arrays and texts get numbers.
pub fn image_of(alloc: Global, linker: Linker, parts: Vec<ClassParts>) -> Result<Image, ImageError>
    requires fit { FitClasses linker.program parts.items }
    requires few { AreFew (sources_of linker.program parts.items) }
    requires string { HasString linker.program linker.prefix }
    ensures sources { IfOk result (λ image. image.sources ≡ sources_of linker.program parts.items) }
    ensures prefix { IfOk result (λ image. image.prefix ≡ linker.prefix) }
    ensures numbered { IfOk result IsNumbered }
{
    let arrays = arrays_of(alloc, &linker, &parts)?;
    check_types(&linker, &arrays)?;
    let texts = texts_of(alloc, &parts)?;
    check_texts(&texts)?;
    let object = linker.object();
    let types = Types::of(alloc, linker, arrays)?;
    image_from(alloc, types, parts, texts, object)
}
