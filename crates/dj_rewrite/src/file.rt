//! One class file.
ghost use Rattle.std.specs.Prelude.{◌≡◌, ◌+◌, length, IfOk};
ghost use Rattle.dj_class.specs.trusted.ClassFile.{IsValid, class_bytes};
ghost use Rattle.dj_class.specs.Views.{class_of};
ghost use Rattle.dj_model.specs.trusted.Program.{Program};
ghost use Rattle.dj_image.specs.Imaged.{program_of};
ghost use Rattle.dj_rename.specs.Refusals.{AreAppended};
ghost use Rattle.dj_rewritten.specs.Files.{desc_indexes};
ghost use Rattle.dj_rewritten.specs.TooLarge.{first_of_class, HasLargePool};
ghost use Rattle.dj_rewrite.specs.Answers.{AnswersFile, AreAnswers, HasLarge, IsKnownClass};
ghost use Rattle.dj_rewrite.specs.Steps.{IsNewPool, new_file};

use crate::answers::{MethodAnswer, answer_methods, has_large};
use crate::indexes::indexes_of;
use crate::large::large_texts;
use crate::members::{fields_with, methods_with};
use dj_class::{Attributes, ClassView};
use dj_image::Image;
use dj_names::{Bytes, Name};
use dj_pool::{Indexes, Pool};
use dj_rename::{RenameError, Rewritten, Texts, rename_texts, rewrite_pool};
use dj_write::write_class;
use std::alloc::{AllocError, Global};

// A class file takes no more bytes than all files of a set.
const MOST_BYTES: usize = 67_108_864;

/// What becomes of a class file.
#[derive(Debug, Drop)]
pub(crate) enum FileAnswer {
    /// Its rewritten bytes.
    Written(Bytes),
    /// The texts of the methods that don't fit, and an empty one where it is the class that doesn't.
    TooLarge(Vec<Name>),
}

// A copy of indexes.
fn copied(alloc: Global, indexes: &Indexes) -> Result<Indexes, AllocError>
    ensures { IfOk result (λ made. made ≡ indexes.now) }
{
    let mut made = Indexes::new(alloc);
    for index in indexes.as_slice() {
        made.push(*index)?;
    }
    Ok(made)
}

// The class with these constants and descriptors, and this code of its methods.
fn new_view<'a>(
    alloc: Global,
    view: &ClassView<'a>,
    pool: Pool<'a>,
    descs: &[u16],
    answers: &'a [MethodAnswer],
) -> Result<ClassView<'a>, AllocError>
    requires descs { length descs.now ≡ length (class_of view.now).fields + length (class_of view.now).methods }
    requires answers { length answers.now ≡ length (class_of view.now).methods }
    ensures { IfOk result (λ made. class_of made ≡ new_file (class_of view.now) pool.entry descs.now answers.now) }
{
    let fields = view.fields.as_slice();
    let methods = view.methods.as_slice();
    let (of_fields, of_methods) = descs.split_at(fields.len());
    let new_interfaces = copied(alloc, &view.interfaces)?;
    let new_fields = fields_with(alloc, &view.pool, fields, of_fields)?;
    let new_methods = methods_with(alloc, methods, answers, of_methods)?;
    let no_attributes = Attributes::new(alloc);
    Ok(ClassView {
        minor: view.minor,
        major: view.major,
        flags: view.flags,
        this_class: view.this_class,
        super_class: view.super_class,
        interfaces: new_interfaces,
        fields: new_fields,
        methods: new_methods,
        attributes: no_attributes,
        pool,
    })
}

// The bytes of that class.
fn new_bytes(
    alloc: Global,
    view: &ClassView<'_>,
    pool: Pool<'_>,
    descs: &[u16],
    answers: &[MethodAnswer],
) -> Result<Bytes, AllocError>
    requires descs { length descs.now ≡ length (class_of view.now).fields + length (class_of view.now).methods }
    requires answers { length answers.now ≡ length (class_of view.now).methods }
    ensures { IfOk result (λ bytes. bytes ≡ class_bytes (new_file (class_of view.now) pool.entry descs.now answers.now)) }
{
    let made = new_view(alloc, view, pool, descs, answers)?;
    write_class(alloc, &made).or(Err(AllocError))
}

// The file, where neither its constants nor its methods are too large.
fn written(
    alloc: Global,
    view: &ClassView<'_>,
    pool: Pool<'_>,
    descs: &[u16],
    answers: &[MethodAnswer],
) -> Result<FileAnswer, AllocError>
    requires valid { IsValid (class_of view.now) }
    requires answers { length answers.now ≡ length (class_of view.now).methods }
    requires pool { IsNewPool (class_of view.now) pool descs.now }
    requires fit { HasLarge answers.now → ⊥ }
    ensures { (program : Program) → IsKnownClass program (class_of view.now) → AreAnswers program (class_of view.now).pool (first_of_class (class_of view.now)) (class_of view.now).methods answers.now → IfOk result (AnswersFile program (class_of view.now)) }
{
    let bytes = new_bytes(alloc, view, pool, descs, answers)?;
    let size = bytes.as_slice().len();
    if size > MOST_BYTES {
        let texts = large_texts(alloc, view, true, answers)?;
        return Ok(FileAnswer::TooLarge(texts));
    }
    Ok(FileAnswer::Written(bytes))
}

// What becomes of a class whose constants aren't too large.
fn with_pool(
    alloc: Global,
    image: &Image,
    view: &ClassView<'_>,
    new: Rewritten<'_>,
) -> Result<FileAnswer, AllocError>
    requires known { IsKnownClass (program_of image.now) (class_of view.now) }
    requires pool { IsNewPool (class_of view.now) new.pool new.descs }
    requires first { new.first ≡ first_of_class (class_of view.now) }
    ensures { IfOk result (AnswersFile (program_of image.now) (class_of view.now)) }
{
    let Rewritten { pool, descs, first } = new;
    let answers = answer_methods(alloc, image, view, first)?;
    let made = answers.as_slice();
    if has_large(made) {
        let texts = large_texts(alloc, view, false, made)?;
        return Ok(FileAnswer::TooLarge(texts));
    }
    written(alloc, view, pool, descs.as_slice(), made)
}

// A class whose constants are too large: its methods are told all the same. Where the accounter's constants would begin makes no difference to their sizes.
fn large_pool(alloc: Global, image: &Image, view: &ClassView<'_>) -> Result<FileAnswer, AllocError>
    requires known { IsKnownClass (program_of image.now) (class_of view.now) }
    requires large { HasLargePool (class_of view.now) }
    ensures { IfOk result (AnswersFile (program_of image.now) (class_of view.now)) }
{
    let answers = answer_methods(alloc, image, view, 1)?;
    let made = answers.as_slice();
    let texts = large_texts(alloc, view, true, made)?;
    Ok(FileAnswer::TooLarge(texts))
}

// What becomes of a class whose renamed texts aren't too large.
fn with_texts(
    alloc: Global,
    image: &Image,
    view: &ClassView<'_>,
    descs: &[u16],
    texts: &Texts,
) -> Result<FileAnswer, AllocError>
    requires known { IsKnownClass (program_of image.now) (class_of view.now) }
    requires descs { descs.now ≡ desc_indexes (class_of view.now) }
    requires texts { AreAppended (class_of view.now).pool (desc_indexes (class_of view.now)) texts.now }
    ensures { IfOk result (AnswersFile (program_of image.now) (class_of view.now)) }
{
    match rewrite_pool(alloc, &view.pool, descs, texts) {
        Ok(new) => with_pool(alloc, image, view, new),
        Err(RenameError::Full) => large_pool(alloc, image, view),
        Err(RenameError::Long(_)) => unreachable!(),
        Err(RenameError::Memory) => Err(AllocError),
    }
}

/// What becomes of a class file. The image has the classes of the objects that its code makes.
pub(crate) fn rewrite_file(
    alloc: Global,
    image: &Image,
    view: &ClassView<'_>,
) -> Result<FileAnswer, AllocError>
    requires { IsKnownClass (program_of image.now) (class_of view.now) }
    ensures { IfOk result (AnswersFile (program_of image.now) (class_of view.now)) }
{
    let indexes = indexes_of(alloc, view)?;
    let descs = indexes.as_slice();
    match rename_texts(alloc, &view.pool, descs) {
        Ok(texts) => with_texts(alloc, image, view, descs, &texts),
        Err(RenameError::Full) => large_pool(alloc, image, view),
        Err(RenameError::Long(_)) => large_pool(alloc, image, view),
        Err(RenameError::Memory) => Err(AllocError),
    }
}
