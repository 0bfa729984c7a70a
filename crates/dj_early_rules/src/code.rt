ghost use Rattle.std.specs.Prelude.{◌≡◌, ◌↔◌, ◌<◌, ◌^◌, length, map, All, IsTrue, IfOk};
ghost use Rattle.std.specs.List.{AllByRecursion};
ghost use Rattle.dj_class.specs.trusted.ClassFile.{IsAttribute};
ghost use Rattle.dj_class.specs.Members.{member_of};
ghost use Rattle.dj_class.specs.trusted.Code.{IsCodeAttribute};
ghost use Rattle.dj_class.specs.CodeViews.{code_of};
ghost use Rattle.dj_early_rules.specs.trusted.Malformed.{IsBodiless};
ghost use Rattle.dj_early_rules.specs.Passes.{lacks_memory, IsLabellingOf, IsLabelling, bodies_in, IsMappedCode, IsMappedView, IsCodeView, IsBodyView, IsBodilessView, IsOwnView, IsMethodView};

use crate::bodies::bodies_named;
use crate::maps::frames_in;
use dj_class::{CodeView, MemberView, read_code};
use dj_file_rules::is_memory;
use dj_labels::{CodeError, Labelled, Labelling, label_with_starts};
use dj_ops::{CatchRow, Frames};
use dj_pool::Pool;
use std::alloc::{AllocError, Global};

/// Code without a fault: its room, its bytes, its labelled form, and its stack map.
#[derive(Debug, Drop)]
pub struct WholeCode<'a> {
    pub max_stack: u16,
    pub max_locals: u16,
    pub code: &'a [u8],
    pub labelled: Labelled,
    /// The body of its stack map, if it has one.
    pub map: Option<&'a [u8]>,
    /// The frames of its stack map; no frames where it has none; none where the body is no stack map.
    pub frames: Option<Frames>,
}

/// The code that a method has.
#[derive(Debug, Drop)]
pub enum MethodBody<'a> {
    /// A part of it is faulty.
    Faulty,
    /// There is no code, as the method is native or abstract.
    Bodiless,
    Whole(WholeCode<'a>),
}

fn is_bodiless(method: &MemberView<'_>) -> bool
    ensures { IsTrue result ↔ IsBodiless (member_of method.now) }
{
    method.access().is_native() || method.access().is_abstract()
}

// Whether there was no memory.
fn lacks_memory(error: &CodeError) -> bool
    ensures { result ≡ lacks_memory error.now }
{
    matches!(error, CodeError::Memory)
}

// The labelled code with the addresses of its instructions; none where it can't be labelled.
fn labelling_of(
    alloc: Global,
    code: &[u8],
    table: &[CatchRow],
) -> Result<Option<Labelling>, AllocError>
    requires { length code.now < 2 ^ 16 }
    ensures { IfOk result (IsLabelling code.now table.now) }
{
    match label_with_starts(alloc, code, table) {
        Ok(labelling) => Ok(Some(labelling)),
        Err(error) => {
            if lacks_memory(&error) {
                Err(AllocError)
            } else {
                Ok(None)
            }
        }
    }
}

// The code of a view with this body of a stack map and these labels.
fn code_with_labels<'a>(
    alloc: Global,
    view: &CodeView<'a>,
    map: Option<&'a [u8]>,
    labelling: Labelling,
) -> Result<WholeCode<'a>, AllocError>
    requires labels { IsLabellingOf view.now.code.now view.now.table labelling }
    requires short { AllByRecursion (λ body. length body < 2 ^ 32) (bodies_in map) }
    ensures { IfOk result (IsMappedCode (code_of view.now) (bodies_in map.entry)) }
{
    let frames = frames_in(alloc, &labelling.starts, map)?;
    Ok(WholeCode {
        max_stack: view.max_stack,
        max_locals: view.max_locals,
        code: view.code,
        labelled: labelling.labelled,
        map,
        frames,
    })
}

// The code of a view with this body of a stack map, where it can be labelled.
fn code_with_map<'a>(
    alloc: Global,
    view: &CodeView<'a>,
    map: Option<&'a [u8]>,
) -> Result<Option<WholeCode<'a>>, AllocError>
    requires few { length view.now.code.now < 2 ^ 16 }
    requires short { AllByRecursion (λ body. length body < 2 ^ 32) (bodies_in map) }
    ensures { IfOk result (IsMappedView (code_of view.now) (bodies_in map.entry)) }
{
    match labelling_of(alloc, view.code, view.table.as_slice())? {
        Some(labelling) => Ok(Some(code_with_labels(alloc, view, map, labelling)?)),
        None => Ok(None),
    }
}

// The code of a view, where it has no fault.
fn whole_code<'a>(
    alloc: Global,
    pool: &Pool<'_>,
    view: &CodeView<'a>,
) -> Result<Option<WholeCode<'a>>, AllocError>
    requires few { length view.now.code.now < 2 ^ 16 }
    requires short { AllByRecursion IsCodeAttribute (code_of view.now).attributes }
    ensures { IfOk result (IsCodeView pool.now (code_of view.now)) }
{
    let maps = bodies_named(alloc, pool, b"StackMapTable", view.attributes.as_slice())?;
    match maps.as_slice() {
        [] => code_with_map(alloc, view, None),
        [map] => code_with_map(alloc, view, Some(*map)),
        _ => Ok(None),
    }
}

// The code of the body of a Code attribute, where it has no fault.
fn code_of_body<'a>(
    alloc: Global,
    pool: &Pool<'_>,
    body: &'a [u8],
) -> Result<Option<WholeCode<'a>>, AllocError>
    requires { length body.now < 2 ^ 32 }
    ensures { IfOk result (IsBodyView pool.now body.now) }
{
    match read_code(alloc, body) {
        Ok(view) => whole_code(alloc, pool, &view),
        Err(error) => {
            if is_memory(error) {
                Err(AllocError)
            } else {
                Ok(None)
            }
        }
    }
}

// The answer for a native or abstract method whose Code attributes have these bodies.
fn bodiless_code<'a>(bodies: &[&'a [u8]]) -> MethodBody<'a>
    ensures { IsBodilessView (map (λ body. body.now) bodies.now) result }
{
    if bodies.is_empty() {
        MethodBody::Bodiless
    } else {
        MethodBody::Faulty
    }
}

// The answer for another method.
fn own_code<'a>(
    alloc: Global,
    pool: &Pool<'_>,
    bodies: &[&'a [u8]],
) -> Result<MethodBody<'a>, AllocError>
    requires { All (λ body. length body.now < 2 ^ 32) bodies.now }
    ensures { IfOk result (IsOwnView pool.now (map (λ body. body.now) bodies.now)) }
{
    match bodies {
        [body] => match code_of_body(alloc, pool, body)? {
            Some(code) => Ok(MethodBody::Whole(code)),
            None => Ok(MethodBody::Faulty),
        },
        _ => Ok(MethodBody::Faulty),
    }
}

/// The code that the method has.
pub fn code_of_method<'a>(
    alloc: Global,
    pool: &Pool<'_>,
    method: &MemberView<'a>,
) -> Result<MethodBody<'a>, AllocError>
    requires { AllByRecursion (IsAttribute pool.now) (member_of method.now).attributes }
    ensures { IfOk result (IsMethodView pool.now (member_of method.now)) }
{
    let bodies = bodies_named(alloc, pool, b"Code", method.attributes.as_slice())?;
    if is_bodiless(method) {
        return Ok(bodiless_code(&bodies));
    }
    own_code(alloc, pool, &bodies)
}
