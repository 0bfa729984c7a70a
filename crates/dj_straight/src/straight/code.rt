ghost use Rattle.std.specs.Prelude.{◌≡◌, ◌↔◌, ◌<◌, ◌^◌, [], length, map, codes, IsTrue, IfOk};
ghost use Rattle.std.specs.List.{AllByRecursion};
ghost use Rattle.dj_class.specs.trusted.ClassFile.{IsAttribute};
ghost use Rattle.dj_class.specs.Parts.{attribute_of};
ghost use Rattle.dj_class.specs.CodeViews.{code_of};
ghost use Rattle.dj_straight.specs.trusted.Instructions.{instruction_of};
ghost use Rattle.dj_straight.specs.Methods.{action_view};
ghost use Rattle.dj_straight.specs.trusted.Straight.{is_named, bodies_of, IsStraightCode, IsStraightBody, HasStraightCode};
ghost use Rattle.dj_straight.specs.Finds.{Finds, found_code};

use crate::cut::read_instrs;
use crate::program::{Action, action_of};
use dj_class::{Attribute, CodeView, read_code};
use dj_file_rules::is_memory;
use dj_ops::Instr;
use dj_pool::Pool;
use std::alloc::{AllocError, Global};

/// Straight code.
#[derive(Drop)]
pub struct StraightCode {
    pub max_stack: u16,
    pub max_locals: u16,
    pub actions: Vec<Action>,
}

fn is_named(pool: &Pool<'_>, name: &[u8], attribute: &Attribute<'_>) -> bool
    ensures { result ≡ is_named pool.now name.now (attribute_of attribute.now) }
{
    match pool.text(attribute.name) {
        Some(text) => text == name,
        None => false,
    }
}

// The bodies of the attributes of this name.
fn bodies_named<'a>(
    alloc: Global,
    pool: &Pool<'_>,
    name: &[u8],
    attributes: &[Attribute<'a>],
) -> Result<Vec<&'a [u8]>, AllocError>
    ensures { IfOk result (λ bodies. map (λ body. body.now) bodies.items
        ≡ bodies_of pool.now name.now (map attribute_of attributes.now)) }
{
    let mut bodies = Vec::new(alloc);
    for attribute in attributes {
        if is_named(pool, name, attribute) {
            bodies.push(attribute.body)?;
        }
    }
    Ok(bodies)
}

// What the instructions do.
fn actions_of(alloc: Global, instrs: &[Instr]) -> Result<Vec<Action>, AllocError>
    ensures { IfOk result (λ actions. map action_view actions.items ≡ map instruction_of instrs.now) }
{
    let mut actions = Vec::with_capacity(alloc, instrs.len())?;
    for instr in instrs {
        actions.push(action_of(instr))?;
    }
    Ok(actions)
}

// Whether there are neither handlers nor a stack map.
fn is_plain(alloc: Global, pool: &Pool<'_>, code: &CodeView<'_>) -> Result<bool, AllocError>
    ensures { IfOk result (λ plain. IsTrue plain
        ↔ ((code.now.table ≡ []) × (bodies_of pool.now (codes "StackMapTable") code.now.attributes ≡ []))) }
{
    if !code.table.as_slice().is_empty() {
        return Ok(false);
    }
    let frames = bodies_named(alloc, pool, b"StackMapTable", code.attributes.as_slice())?;
    Ok(frames.is_empty())
}

// The straight code that the view is.
fn straight_code(
    alloc: Global,
    pool: &Pool<'_>,
    code: &CodeView<'_>,
) -> Result<Option<StraightCode>, AllocError>
    requires { length code.now.code.now < 2 ^ 32 }
    ensures { IfOk result (Finds found_code (IsStraightCode pool.now (code_of code.now))) }
{
    if !is_plain(alloc, pool, code)? {
        return Ok(None);
    }
    match read_instrs(alloc, code.code).or(Err(AllocError))? {
        Some(instrs) => Ok(Some(StraightCode {
            max_stack: code.max_stack,
            max_locals: code.max_locals,
            actions: actions_of(alloc, instrs.as_slice())?,
        })),
        None => Ok(None),
    }
}

// The straight code that the body is.
fn code_of_body(
    alloc: Global,
    pool: &Pool<'_>,
    body: &[u8],
) -> Result<Option<StraightCode>, AllocError>
    requires { length body.now < 2 ^ 32 }
    ensures { IfOk result (Finds found_code (IsStraightBody pool.now body.now)) }
{
    match read_code(alloc, body) {
        Ok(code) => straight_code(alloc, pool, &code),
        Err(error) => {
            if is_memory(error) {
                Err(AllocError)
            } else {
                Ok(None)
            }
        }
    }
}

/// The straight code of the one Code attribute.
pub fn code_of_attributes(
    alloc: Global,
    pool: &Pool<'_>,
    attributes: &[Attribute<'_>],
) -> Result<Option<StraightCode>, AllocError>
    requires { AllByRecursion (IsAttribute pool.now) (map attribute_of attributes.now) }
    ensures { IfOk result (Finds found_code (HasStraightCode pool.now (map attribute_of attributes.now))) }
{
    let bodies = bodies_named(alloc, pool, b"Code", attributes)?;
    match bodies.as_slice() {
        [body] => code_of_body(alloc, pool, body),
        _ => Ok(None),
    }
}
