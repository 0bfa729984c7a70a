//! The groups of a method's code as its class file has it.
ghost use Rattle.std.specs.Prelude.{◌≡◌, ◌+◌, ◌<◌, ◌^◌, length, map, IfOk, IfErr};
ghost use Rattle.std.specs.List.{AllByRecursion};
ghost use Rattle.dj_ops.specs.declared.instruction.Instr.TheVariants as instrs;
ghost use Rattle.dj_ops.specs.trusted.Instructions.{IsProper};
ghost use Rattle.dj_pool.specs.trusted.Pool.{IsPool};
ghost use Rattle.dj_program.specs.trusted.Naming.{instruction_in};
ghost use Rattle.dj_image.specs.Imaged.{program_of};
ghost use Rattle.dj_emit.specs.Groups.{FitsSipush, IsKnownNew, IsRefusal};
ghost use Rattle.dj_emit.specs.Filed.{groups_in, CanBeGrouped, AnswersGroups, new_class_of, IsChargeOf, IsPartOf, ArePartsOf};

use crate::arrivals::arrivals;
use crate::charges::plain_part;
use crate::error::EmitError;
use crate::parts::{Charge, GroupPart};
use crate::row_counts::has_few_rows;
use crate::size::ObjectSize;
use crate::spelling::{Grouped, group_code};
use dj_image::Image;
use dj_labels::Labelled;
use dj_ops::Instr;
use dj_pool::Pool;
use std::alloc::Global;

// The index of the class, where the instruction is `new`.
fn new_class(instr: &Instr) -> Option<u16>
    ensures { result ≡ new_class_of instr.now }
{
    match instr {
        Instr::Class { op, index } if *op == 187 => Some(*index),
        _ => None,
    }
}

// What the `new` of a number is charged, by the index of its class.
fn object_charge(
    image: &Image,
    pool: &Pool<'_>,
    index: u16,
    number: u32,
) -> Result<Charge, EmitError>
    requires valid { IsPool pool.now }
    requires known { IsKnownNew (program_of image.now) (instruction_in pool.now (instrs.Class 187 index)) }
    ensures { IsChargeOf (program_of image.now) (instruction_in pool.now (instrs.Class 187 index)) number result }
{
    let Some(name) = pool.class_name(index) else {
        // It names no class, so it isn't run.
        return Ok(Charge::Free);
    };
    let Some(class) = image.class_named(name) else {
        unreachable!()
    };
    let size = 16 + 8 * u64::from(image.field_count(class));
    if size > 32767 {
        return Err(EmitError::BigObject(number));
    }
    Ok(Charge::Object(ObjectSize { bytes: size as u16 }))
}

// The group of the instruction of a number.
fn group_part(
    image: &Image,
    pool: &Pool<'_>,
    number: u32,
    instr: &Instr,
    arrives: bool,
) -> Result<GroupPart, EmitError>
    requires valid { IsPool pool.now }
    requires proper { IsProper instr.now }
    requires known { IsKnownNew (program_of image.now) (instruction_in pool.now instr.now) }
    ensures { IsPartOf (program_of image.now) (instruction_in pool.now instr.now) number arrives result }
{
    let Some(class) = new_class(instr) else {
        return Ok(plain_part(instr, arrives));
    };
    let charge = object_charge(image, pool, class, number)?;
    Ok(GroupPart {
        arrives,
        charge,
        popped: false,
    })
}

// The groups of the code.
fn parts_in(
    alloc: Global,
    image: &Image,
    pool: &Pool<'_>,
    labelled: &Labelled,
) -> Result<Vec<GroupPart>, EmitError>
    requires { CanBeGrouped (program_of image.now) pool.now labelled.now }
    ensures { ArePartsOf (groups_in (program_of image.now) pool.now labelled.now) result }
{
    let code = labelled.code.as_slice();
    let arrives = arrivals(alloc, code.len(), labelled.ranges.as_slice())?;
    let mut parts = Vec::with_capacity(alloc, code.len())?;
    for i in 0..code.len() {
        let part = group_part(image, pool, i as u32, &code[i], arrives[i])?;
        parts.push(part)?;
    }
    Ok(parts)
}

/// The code of a method in groups, as its class file has it, with indexes of a pool that has the accounter's constants from `first` on. The image has the
/// classes of the objects that it makes. None where its exception table would have more than 65,535 rows, however many those are.
pub fn groups_in_file(
    alloc: Global,
    image: &Image,
    pool: &Pool<'_>,
    labelled: &Labelled,
    first: u16,
) -> Result<Option<Grouped>, EmitError>
    requires first { first + 25 < 2 ^ 16 }
    requires code { CanBeGrouped (program_of image.now) pool.now labelled.now }
    ensures code { IfOk result (AnswersGroups first (groups_in (program_of image.now) pool.now labelled.now) labelled.now) }
    ensures fits { IfOk result (λ _. AllByRecursion FitsSipush (groups_in (program_of image.now) pool.now labelled.now)) }
    ensures big { IfErr result (IsRefusal (groups_in (program_of image.now) pool.now labelled.now)) }
{
    let parts = parts_in(alloc, image, pool, labelled)?;
    if !has_few_rows(alloc, &parts, labelled.ranges.as_slice())? {
        return Ok(None);
    }
    Ok(Some(group_code(alloc, first, parts, labelled)?))
}
