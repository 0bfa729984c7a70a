ghost use Rattle.std.specs.Prelude.{◌≡◌, ◌+◌, ◌<◌, ◌≤◌, length, IfOk, IfErr};
ghost use Rattle.std.specs.List.{AllByRecursion};
ghost use Rattle.dj_groups.specs.Groups.{starts, owns};
ghost use Rattle.dj_groups.specs.Grouped.{labels_in_groups};
ghost use Rattle.dj_numbering.specs.Members.{all_methods};
ghost use Rattle.dj_image.specs.Imaged.{program_of};
ghost use Rattle.dj_emit.specs.Groups.{FitsSipush, HasGroups, IsRefusal, groups_at, labelled_at};
ghost use Rattle.dj_emit.specs.Numbered.{IsCodeAt, IsNewAt, ObjectAt, PartAt, PartsAt, StandsAt};

use crate::arrivals::arrivals;
use crate::charges::{makes_object, plain_part};
use crate::error::EmitError;
use crate::parts::{Charge, GroupPart};
use crate::size::ObjectSize;
use crate::spelling::{Grouped, group_code};
use dj_image::{Body, Image, MethodCode, MethodId, Operand};
use dj_labels::Labelled;
use dj_ops::Instr;
use std::alloc::Global;

// What the `new` of a number is charged.
fn object_charge(image: &Image, method: MethodId, number: u32) -> Result<Charge, EmitError>
    requires { IsNewAt image.now method.number number }
    ensures { ObjectAt image.now method.number number result }
{
    let Operand::Class(class) = image.operand(method, number) else {
        // It names no class, so it isn't run.
        return Ok(Charge::Free);
    };
    let size = 16 + 8 * u64::from(image.field_count(class));
    if size > 32767 {
        return Err(EmitError::BigObject(number));
    }
    Ok(Charge::Object(ObjectSize { bytes: size as u16 }))
}

// The group of the instruction of a number.
fn group_part(
    image: &Image,
    method: MethodId,
    number: u32,
    instr: &Instr,
    arrives: bool,
) -> Result<GroupPart, EmitError>
    requires { StandsAt image.now method.number number instr.now }
    ensures { PartAt image.now method.number number instr.now arrives result }
{
    if !makes_object(instr) {
        return Ok(plain_part(instr, arrives));
    }
    let charge = object_charge(image, method, number)?;
    Ok(GroupPart {
        arrives,
        charge,
        popped: false,
    })
}

// The groups of the method's code.
fn parts_of(
    alloc: Global,
    image: &Image,
    method: MethodId,
    labelled: &Labelled,
) -> Result<Vec<GroupPart>, EmitError>
    requires { IsCodeAt image.now method.number labelled.now }
    ensures { PartsAt image.now method.number result }
{
    let code = labelled.code.as_slice();
    let arrives = arrivals(alloc, code.len(), labelled.ranges.as_slice())?;
    let mut parts = Vec::with_capacity(alloc, code.len())?;
    for i in 0..code.len() {
        let part = group_part(image, method, i as u32, &code[i], arrives[i])?;
        parts.push(part)?;
    }
    Ok(parts)
}

// The code of a method that has some.
fn code_of(image: &Image, method: MethodId) -> &MethodCode
    requires there { method.number < length (all_methods (program_of image.now)) }
    requires code { HasGroups image.now method.number }
    ensures { IsCodeAt image.now method.number result.now.code }
{
    match image.body(method) {
        Body::Code(code) => code,
        Body::Native(_) => unreachable!(),
        Body::Abstract => unreachable!(),
    }
}

/// The code of a method in groups, with indexes of a pool that has the accounter's constants from `first` on.
pub fn groups(
    alloc: Global,
    image: &Image,
    method: MethodId,
    first: u16,
) -> Result<Grouped, EmitError>
    requires there { method.number < length (all_methods (program_of image.now)) }
    requires indexes { first + 25 ≤ 65534 }
    requires code { HasGroups image.now method.number }
    ensures code { IfOk result (λ made. made.code ≡ labels_in_groups first (groups_at image.now method.number) (labelled_at image.now method.number)) }
    ensures start { IfOk result (λ made. made.start ≡ starts (groups_at image.now method.number)) }
    ensures own { IfOk result (λ made. made.own ≡ owns (groups_at image.now method.number)) }
    ensures fits { IfOk result (λ _. AllByRecursion FitsSipush (groups_at image.now method.number)) }
    ensures big { IfErr result (IsRefusal (groups_at image.now method.number)) }
{
    let code = code_of(image, method);
    let parts = parts_of(alloc, image, method, &code.code)?;
    Ok(group_code(alloc, first, parts, &code.code)?)
}
