ghost use Rattle.std.specs.Prelude.{◌≡◌, ◌↔◌, [], All, IsTrue, IfOk, IfSome};
ghost use Rattle.dj_class.specs.trusted.ClassFile.{IsMethod, IsValid};
ghost use Rattle.dj_class.specs.Members.{member_of};
ghost use Rattle.dj_class.specs.Views.{class_of};
ghost use Rattle.dj_early_rules.specs.trusted.Malformed.{IsFaultyMethod, HasFaultyMethod};
ghost use Rattle.dj_loader_tests.specs.Sets.{IsSmallLibrary, IsSound};

use crate::programs::{IMAGE, LONG_NAMED};
use dj_asm::assemble;
use dj_class::{ClassView, MemberView, read_class};
use dj_early_rules::{MethodBody, code_of_method};
use dj_library::{deterministic, raw};
use dj_library_types::Library;
use dj_loader::{BaseNames, Image, LoadError, load};
use dj_names::Bytes;
use dj_pool::Pool;
use std::alloc::{AllocError, Global};

/// A library.
#[derive(Clone, Copy, Debug)]
pub enum Which {
    Deterministic,
    Raw,
}

fn deterministic_library(alloc: Global) -> Option<Library>
    ensures { IfSome result IsSmallLibrary }
{
    match deterministic(alloc) {
        Ok(library) => Some(library),
        Err(_) => None,
    }
}

fn raw_library(alloc: Global) -> Option<Library>
    ensures { IfSome result IsSmallLibrary }
{
    match raw(alloc) {
        Ok(library) => Some(library),
        Err(_) => None,
    }
}

fn library_of(alloc: Global, which: Which) -> Option<Library>
    ensures { IfSome result IsSmallLibrary }
{
    match which {
        Which::Deterministic => deterministic_library(alloc),
        Which::Raw => raw_library(alloc),
    }
}

/// The class file of a text.
pub fn file_of(alloc: Global, text: &[u8]) -> Option<Bytes> {
    if text.len() > 9_999 {
        return None;
    }
    assemble(alloc, text).ok()
}

// The class files of texts.
fn files_of(alloc: Global, texts: &[&[u8]]) -> Option<Vec<Bytes>> {
    let mut files = Vec::new(alloc);
    for text in texts {
        files.push(file_of(alloc, text)?).ok()?;
    }
    Some(files)
}

fn is_faulty_method(
    alloc: Global,
    pool: &Pool<'_>,
    method: &MemberView<'_>,
) -> Result<bool, AllocError>
    requires { IsMethod pool.now (member_of method.now) }
    ensures { IfOk result (λ faulty. IsTrue faulty ↔ IsFaultyMethod pool.now (member_of method.now)) }
{
    match code_of_method(alloc, pool, method)? {
        MethodBody::Faulty => Ok(true),
        MethodBody::Bodiless => Ok(false),
        MethodBody::Whole(_) => Ok(false),
    }
}

/// Whether one of the methods of the class file is faulty.
pub fn has_faulty_method(alloc: Global, view: &ClassView<'_>) -> Result<bool, AllocError>
    requires { IsValid (class_of view.now) }
    ensures { IfOk result (λ faulty. IsTrue faulty ↔ HasFaultyMethod (class_of view.now)) }
{
    for method in view.methods.as_slice() {
        let faulty = is_faulty_method(alloc, &view.pool, method)?;
        if faulty {
            return Ok(true);
        }
    }
    Ok(false)
}

// The class file, where no method is faulty.
fn sound_view<'a>(alloc: Global, view: ClassView<'a>) -> Option<ClassView<'a>>
    requires { IsValid (class_of view) }
    ensures { IfSome result IsSound }
{
    match has_faulty_method(alloc, &view) {
        Ok(false) => Some(view),
        _ => None,
    }
}

fn view_of(alloc: Global, bytes: &[u8]) -> Option<ClassView<'_>>
    ensures { IfSome result IsSound }
{
    if bytes.len() > 99_999 {
        return None;
    }
    match read_class(alloc, bytes) {
        Ok(view) => sound_view(alloc, view),
        Err(_) => None,
    }
}

// The class files, or nothing where one is none, or has a faulty method.
#[tactic(auto, using(crate::proofs::Sound::one_more))]
fn views_of(alloc: Global, files: &[Bytes]) -> Result<Option<Vec<ClassView<'_>>>, AllocError>
    ensures { IfOk result (λ views. IfSome views (λ views. All IsSound views.items)) }
{
    let mut views = Vec::new(alloc);
    for file in files {
        match view_of(alloc, file.as_slice()) {
            Some(view) => views.push(view)?,
            None => return Ok(None),
        }
    }
    Ok(Some(views))
}

fn load_views(
    alloc: Global,
    views: &[ClassView<'_>],
    library: &Library,
) -> Option<Result<Image, LoadError>>
    requires views { All IsSound views.now }
    requires library { IsSmallLibrary library.now }
    ensures { IfSome result (λ loaded. IfOk loaded (λ image. image.prefix ≡ [])) }
{
    if views.len() > 99 {
        return None;
    }
    Some(load(alloc, views, library, BaseNames::Plain))
}

/// What loading the classes of texts answers; none where there is no memory, or a text means no class file.
pub fn load_texts(alloc: Global, which: Which, texts: &[&[u8]]) -> Option<Result<Image, LoadError>>
    ensures { IfSome result (λ loaded. IfOk loaded (λ image. image.prefix ≡ [])) }
{
    let files = files_of(alloc, texts)?;
    let Ok(Some(views)) = views_of(alloc, &files) else {
        return None;
    };
    let library = library_of(alloc, which)?;
    load_views(alloc, &views, &library)
}

/// The image of classes and the deterministic library.
pub fn plain_image(alloc: Global, texts: &[&[u8]]) -> Option<Image>
    ensures { IfSome result (λ image. image.prefix ≡ []) }
{
    match load_texts(alloc, Which::Deterministic, texts)? {
        Ok(image) => Some(image),
        Err(_) => None,
    }
}

/// The image of the raw library alone.
pub fn raw_image(alloc: Global) -> Option<Image> {
    match load_texts(alloc, Which::Raw, &[])? {
        Ok(image) => Some(image),
        Err(_) => None,
    }
}

/// The image of a program.
pub fn image(alloc: Global) -> Option<Image> {
    plain_image(alloc, &IMAGE)
}

// The texts of a program, and of classes that have members of long names.
fn numbered_texts(alloc: Global) -> Option<Vec<&'static [u8]>> {
    let mut texts = Vec::new(alloc);
    for text in &IMAGE {
        texts.push(*text).ok()?;
    }
    for text in &LONG_NAMED {
        texts.push(*text).ok()?;
    }
    Some(texts)
}

/// The image of the program, and of classes that have members of long names.
pub fn numbered_image(alloc: Global) -> Option<Image> {
    let texts = numbered_texts(alloc)?;
    plain_image(alloc, &texts)
}
