//! The members of a rewritten class.
ghost use Rattle.std.specs.Prelude.{◌≡◌, ◌≤◌, length, map, IfOk};
ghost use Rattle.dj_class.specs.Members.{member_of};
ghost use Rattle.dj_rewrite.specs.Members.{field_with, fields_with, code_attributes, method_with, methods_with};

use crate::answers::MethodAnswer;
use dj_class::{Attribute, Attributes, MemberView, Members};
use dj_pool::Pool;
use dj_rewrite_code::attributes_named;
use std::alloc::{AllocError, Global};

// JVMS table 4.6-A: all flags but ACC_SYNCHRONIZED.
const KEPT_FLAGS: u16 = !0x0020;

// A field with another descriptor, of whose attributes ConstantValue is kept (JVMS 4.7.2).
fn new_field<'a>(
    alloc: Global,
    pool: &Pool<'_>,
    field: &MemberView<'a>,
    desc: u16,
) -> Result<MemberView<'a>, AllocError>
    ensures { IfOk result (λ made. member_of made ≡ field_with pool.now (member_of field.now) desc) }
{
    let attributes = attributes_named(alloc, pool, b"ConstantValue", field.attributes.as_slice())?;
    Ok(MemberView {
        flags: field.flags,
        name: field.name,
        desc,
        attributes,
    })
}

/// The fields, with these descriptors.
pub(crate) fn fields_with<'a>(
    alloc: Global,
    pool: &Pool<'_>,
    fields: &[MemberView<'a>],
    descs: &[u16],
) -> Result<Members<'a>, AllocError>
    requires { length fields.now ≤ length descs.now }
    ensures { IfOk result (λ made. made ≡ fields_with pool.now (map member_of fields.now) descs.now) }
{
    let mut made = Members::new(alloc);
    for (i, field) in fields.iter().enumerate() {
        let new = new_field(alloc, pool, field, descs[i])?;
        made.push(new)?;
    }
    Ok(made)
}

// The Code attribute, where there is one.
fn code_attributes<'a>(
    alloc: Global,
    answer: &'a MethodAnswer,
) -> Result<Attributes<'a>, AllocError>
    ensures { IfOk result (λ attributes. attributes ≡ code_attributes answer.now) }
{
    let mut attributes = Attributes::new(alloc);
    if let MethodAnswer::Rewritten(code) = answer {
        attributes.push(Attribute {
            name: code.name,
            body: code.body.as_slice(),
        })?;
    }
    Ok(attributes)
}

fn new_method<'a>(
    alloc: Global,
    method: &MemberView<'_>,
    answer: &'a MethodAnswer,
    desc: u16,
) -> Result<MemberView<'a>, AllocError>
    ensures { IfOk result (λ made. member_of made ≡ method_with (member_of method.now) answer.now desc) }
{
    Ok(MemberView {
        flags: method.flags & KEPT_FLAGS,
        name: method.name,
        desc,
        attributes: code_attributes(alloc, answer)?,
    })
}

/// The methods, with these descriptors and their rewritten code.
pub(crate) fn methods_with<'a>(
    alloc: Global,
    methods: &[MemberView<'_>],
    answers: &'a [MethodAnswer],
    descs: &[u16],
) -> Result<Members<'a>, AllocError>
    requires answers { length answers.now ≡ length methods.now }
    requires descs { length descs.now ≡ length methods.now }
    ensures { IfOk result (λ made. made ≡ methods_with (map member_of methods.now) answers.now descs.now) }
{
    let mut made = Members::new(alloc);
    for (i, method) in methods.iter().enumerate() {
        let new = new_method(alloc, method, &answers[i], descs[i])?;
        made.push(new)?;
    }
    Ok(made)
}
