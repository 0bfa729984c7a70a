ghost use Rattle.std.specs.Prelude.{◌<◌, length, IfSome, IsTrue};
ghost use Rattle.dj_numbering.specs.Typed.{types_of};
ghost use Rattle.dj_image.specs.Imaged.{program_of, typed_of};
ghost use Rattle.dj_loader_tests.specs.Members.{HasMethod, HasField, HasOperand, HasCode};

use dj_image::{Body, FieldId, Image, MemberOf, MethodCode, MethodId, Operand};

/// The class that declares a member, its name and its descriptor.
pub type Member = (&'static str, &'static str, &'static str);

// No class declares more methods or fields.
const MOST: u32 = 100;

/// The number of a class or an array.
pub fn class_of(image: &Image, name: &str) -> Option<u32>
    ensures { IfSome result (λ class. class < length (types_of (typed_of image.now))) }
{
    let class = image.class_named(name.as_bytes())?;
    if class < image.class_count() {
        Some(class)
    } else {
        None
    }
}

/// The number of instance fields of a class; none for an array.
#[tactic(auto, using(crate::proofs::Within::class_within))]
pub fn field_count(image: &Image, class: u32) -> Option<u32> {
    if class < image.linker().classes().class_count() {
        Some(image.field_count(class))
    } else {
        None
    }
}

/// The method at a place among those of a class.
pub fn method_at(image: &Image, class: u32, at: u32) -> Option<MethodId>
    requires { class < length (types_of (typed_of image.now)) }
    ensures { IfSome result (HasMethod image.now) }
{
    image.method_at(class, at)
}

/// The field at a place among those of a class.
pub fn field_at(image: &Image, class: u32, at: u32) -> Option<FieldId>
    requires { class < length (types_of (typed_of image.now)) }
    ensures { IfSome result (HasField image.now) }
{
    image.field_at(class, at)
}

fn is_member(reported: MemberOf<'_>, member: Member) -> bool {
    reported.name == member.1.as_bytes() && reported.desc == member.2.as_bytes()
}

/// The method that a class declares.
pub fn own_method(image: &Image, member: Member) -> Option<MethodId>
    ensures { IfSome result (HasMethod image.now) }
{
    let class = class_of(image, member.0)?;
    for at in 0..MOST {
        let method = method_at(image, class, at)?;
        if is_member(image.method(method), member) {
            return Some(method);
        }
    }
    None
}

/// The field that a class declares.
pub fn own_field(image: &Image, member: Member) -> Option<FieldId>
    ensures { IfSome result (HasField image.now) }
{
    let class = class_of(image, member.0)?;
    for at in 0..MOST {
        let field = field_at(image, class, at)?;
        if is_member(image.field(field), member) {
            return Some(field);
        }
    }
    None
}

/// The method to which a name and a descriptor resolve.
pub fn resolved_method(image: &Image, class: u32, name: &str, desc: &str) -> Option<MethodId>
    requires { class < length (types_of (typed_of image.now)) }
    ensures { IfSome result (HasMethod image.now) }
{
    image.resolve_method(class, name.as_bytes(), desc.as_bytes())
}

/// The field to which a name and a descriptor resolve.
pub fn resolved_field(image: &Image, class: u32, name: &str, desc: &str) -> Option<FieldId>
    requires { class < length (types_of (typed_of image.now)) }
    ensures { IfSome result (HasField image.now) }
{
    image.resolve_field(class, name.as_bytes(), desc.as_bytes())
}

/// The method that is taken for a receiver of the class.
pub fn selected_method(image: &Image, method: MethodId, class: u32) -> Option<MethodId>
    requires there { HasMethod image.now method }
    requires class { class < length (types_of (typed_of image.now)) }
    ensures { IfSome result (HasMethod image.now) }
{
    image.select(method, class)
}

/// The constant with which a field begins.
pub fn constant_of(image: &Image, field: FieldId) -> Operand
    requires { HasField image.now field }
    ensures { HasOperand image.now result }
{
    image.constant(field)
}

// The code of a method, where it has some.
#[tactic(auto, using(crate::proofs::Codes::has_code))]
fn code_of(image: &Image, method: MethodId) -> Option<&MethodCode>
    requires { HasMethod image.now method }
    ensures { IfSome result (λ code. HasCode image.now method.number code.now) }
{
    match image.body(method) {
        Body::Code(code) => Some(code),
        Body::Native(_) => None,
        Body::Abstract => None,
    }
}

fn has_instr(code: &MethodCode, number: u32) -> bool
    ensures { IsTrue result → number < length code.now.code.code }
{
    (number as usize) < code.code.code.as_slice().len()
}

fn has_range(code: &MethodCode, range: u32) -> bool
    ensures { IsTrue result → range < length code.now.code.ranges }
{
    (range as usize) < code.code.ranges.as_slice().len()
}

/// The operand of an instruction; none where there is no such instruction.
#[tactic(auto, using(crate::proofs::Codes::has_instr))]
pub fn operand_of(image: &Image, method: MethodId, number: u32) -> Option<Operand>
    requires { HasMethod image.now method }
    ensures { IfSome result (HasOperand image.now) }
{
    match code_of(image, method) {
        Some(code) if has_instr(code, number) => Some(image.operand(method, number)),
        _ => None,
    }
}

/// The class that the constant of an instruction names, where there is such an instruction.
#[tactic(auto, using(crate::proofs::Codes::has_instr))]
pub fn named_class(image: &Image, method: MethodId, number: u32) -> Option<Option<u32>>
    requires { HasMethod image.now method }
{
    match code_of(image, method) {
        Some(code) if has_instr(code, number) => Some(image.named(method, number)),
        _ => None,
    }
}

/// The class that a row catches, where there is such a row.
#[tactic(auto, using(crate::proofs::Codes::has_range))]
pub fn caught_class(image: &Image, method: MethodId, range: u32) -> Option<Option<u32>>
    requires { HasMethod image.now method }
{
    match code_of(image, method) {
        Some(code) if has_range(code, range) => Some(image.catch_class(method, range)),
        _ => None,
    }
}
