ghost use Rattle.std.specs.Prelude.{IfSome};
ghost use Rattle.dj_loader_tests.specs.Members.{HasMethod, HasField, HasOperand, HasText};

use dj_image::{Body, FieldId, Image, MemberOf, MethodCode, MethodId, Operand};
use std::alloc::{AllocError, Global};

/// A word, and then a name.
pub fn reported_name(alloc: Global, word: &str, name: &[u8]) -> Result<String, AllocError> {
    let name = String::from_utf8_lossy(alloc, name)?;
    format!(in alloc; "{word}{name}")
}

fn reported_none(alloc: Global) -> Result<String, AllocError> {
    format!(in alloc; "None")
}

/// A number.
pub fn reported_number(alloc: Global, number: Option<u32>) -> Result<String, AllocError> {
    match number {
        Some(number) => format!(in alloc; "{number}"),
        None => reported_none(alloc),
    }
}

/// Whether something holds.
pub fn reported_bool(alloc: Global, holds: Option<bool>) -> Result<String, AllocError> {
    match holds {
        Some(holds) => format!(in alloc; "{holds}"),
        None => reported_none(alloc),
    }
}

// A word, and then the name of a class or the descriptor of an array.
fn reported_type(
    alloc: Global,
    image: &Image,
    word: &str,
    class: u32,
) -> Result<String, AllocError> {
    if class < image.class_count() {
        reported_name(alloc, word, image.name_of(class))
    } else {
        reported_none(alloc)
    }
}

/// The name of a class, or the descriptor of an array.
pub fn reported_class(
    alloc: Global,
    image: &Image,
    class: Option<u32>,
) -> Result<String, AllocError> {
    match class {
        Some(class) => reported_type(alloc, image, "", class),
        None => reported_none(alloc),
    }
}

/// The names of classes.
pub fn reported_classes(
    alloc: Global,
    image: &Image,
    classes: &[u32],
) -> Result<String, AllocError> {
    let mut all = String::new(alloc);
    for class in classes {
        if !all.is_empty() {
            all.push_str(" ")?;
        }
        all.push_str(reported_type(alloc, image, "", *class)?.as_str())?;
    }
    if all.is_empty() {
        all.push_str("-")?;
    }
    Ok(all)
}

// A word, and then the class that declares a member, its name and its descriptor.
fn reported_member(
    alloc: Global,
    image: &Image,
    word: &str,
    member: MemberOf<'_>,
) -> Result<String, AllocError> {
    let class = reported_type(alloc, image, word, member.class)?;
    let name = reported_name(alloc, " ", member.name)?;
    let desc = reported_name(alloc, " ", member.desc)?;
    format!(in alloc; "{class}{name}{desc}")
}

/// A method.
pub fn reported_method(
    alloc: Global,
    image: &Image,
    method: Option<MethodId>,
) -> Result<String, AllocError>
    requires { IfSome method (HasMethod image.now) }
{
    match method {
        Some(method) => reported_member(alloc, image, "", image.method(method)),
        None => reported_none(alloc),
    }
}

/// A field.
pub fn reported_field(
    alloc: Global,
    image: &Image,
    field: Option<FieldId>,
) -> Result<String, AllocError>
    requires { IfSome field (HasField image.now) }
{
    match field {
        Some(field) => reported_member(alloc, image, "", image.field(field)),
        None => reported_none(alloc),
    }
}

// A text: each unit as four digits.
fn reported_text(alloc: Global, image: &Image, text: u32) -> Result<String, AllocError>
    requires { HasText image.now text }
{
    let mut all = String::new(alloc);
    all.push_str("Text ")?;
    for unit in image.text(text) {
        all.push_str(format!(in alloc; "{unit:04x}")?.as_str())?;
    }
    Ok(all)
}

/// What an operand or a constant is.
pub fn reported_operand(
    alloc: Global,
    image: &Image,
    operand: Operand,
) -> Result<String, AllocError>
    requires { HasOperand image.now operand }
{
    match operand {
        Operand::Nothing => format!(in alloc; "Nothing"),
        Operand::Int(value) => format!(in alloc; "Int {value}"),
        Operand::Long(value) => format!(in alloc; "Long {value}"),
        Operand::Text(text) => reported_text(alloc, image, text),
        Operand::Class(class) => reported_type(alloc, image, "Class ", class),
        Operand::Field(field) => reported_member(alloc, image, "Field ", image.field(field)),
        Operand::Method(method) => reported_member(alloc, image, "Method ", image.method(method)),
        Operand::Unresolved => format!(in alloc; "Unresolved"),
    }
}

// How much room code takes, and how many instructions, rows and frames it has.
fn reported_code(alloc: Global, code: &MethodCode) -> Result<String, AllocError> {
    let instructions = code.code.code.as_slice().len();
    let ranges = code.code.ranges.as_slice().len();
    let frames = match &code.frames {
        Some(frames) => frames.as_slice().len(),
        None => return reported_none(alloc),
    };
    let room = format!(in alloc; "Code stack {} locals {}", code.max_stack, code.max_locals)?;
    format!(in alloc; "{room} instructions {instructions} ranges {ranges} frames {frames}")
}

/// The body of a method.
pub fn reported_body(alloc: Global, body: Body<'_>) -> Result<String, AllocError> {
    match body {
        Body::Abstract => format!(in alloc; "Abstract"),
        Body::Native(native) => format!(in alloc; "Native {native:?}"),
        Body::Code(code) => reported_code(alloc, code),
    }
}
