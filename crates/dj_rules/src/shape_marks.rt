ghost use Rattle.std.specs.Prelude.{◌<◌, ◌^◌, length, IfSome, IfOk, OnOk};
ghost use Rattle.dj_pool.specs.trusted.Pool.{IsPool};
ghost use Rattle.dj_class.specs.trusted.ClassFile.{IsMethod, IsValid};
ghost use Rattle.dj_class.specs.Members.{member_of};
ghost use Rattle.dj_class.specs.Views.{class_of};
ghost use Rattle.dj_report.specs.Lines.{Gains};
ghost use Rattle.dj_early_rules.specs.trusted.Floats.{NamesFloat};
ghost use Rattle.dj_early_rules.specs.Marks.{MarksOf};
ghost use Rattle.dj_early_rules.specs.Passes.{IsWholeMethod};
ghost use Rattle.dj_program.specs.trusted.Codes.{IsMethodCode};
ghost use Rattle.dj_program.specs.Views.{parts_of};
ghost use Rattle.dj_shape_rule.specs.Pools.{ArePoolKinds};
ghost use Rattle.dj_rules.specs.Late.{IsFaultOf, FaultViolates, ShapeViolates};

use dj_class::{ClassView, MemberView};
use dj_early_rules::{Mark, MarkPlace, WholeCode, add_mark_if};
use dj_link_rules::is_static;
use dj_pool::Pool;
use dj_program::{MethodCode, method_code};
use dj_shape_rule::{PoolKinds, ShapeFault, pool_kinds, shape};
use std::alloc::{AllocError, Global};

// The number of the rule SHAPE.
const SHAPE: u8 = 19;

// What shape needs of the pool, read before or read now.
fn kinds_of(
    alloc: Global,
    pool: &Pool<'_>,
    kinds: Option<PoolKinds>,
) -> Result<PoolKinds, AllocError>
    requires kinds { IfSome kinds (ArePoolKinds pool.now) }
    requires linked { IsPool pool.now }
    requires few { length pool.now < 2 ^ 16 }
    ensures { IfOk result (ArePoolKinds pool.now) }
{
    if let Some(kinds) = kinds {
        return Ok(kinds);
    }
    Ok(pool_kinds(alloc, pool)?)
}

// The code of the method.
fn code_of(pool: &Pool<'_>, method: &MemberView<'_>, code: WholeCode<'_>) -> MethodCode
    requires { IsWholeMethod pool.now (member_of method.now) code }
    ensures few { length result.code.code < 2 ^ 32 }
    ensures code { IsMethodCode pool.now (member_of method.now) (parts_of result) }
{
    method_code(code)
}

// The fault of the method's code in shape, if it has one.
fn fault_of(
    alloc: Global,
    kinds: &PoolKinds,
    pool: &Pool<'_>,
    method: &MemberView<'_>,
    code: WholeCode<'_>,
) -> Result<Option<ShapeFault>, AllocError>
    requires kinds { ArePoolKinds pool.now kinds.now }
    requires method { IsMethod pool.now (member_of method.now) }
    requires code { IsWholeMethod pool.now (member_of method.now) code }
    requires plain { NamesFloat pool.now (member_of method.now).desc → ⊥ }
    ensures { IfOk result (IsFaultOf pool.now (member_of method.now)) }
{
    let read = code_of(pool, method, code);
    Ok(shape(alloc, kinds, is_static(method.flags), method.desc, &read)?)
}

// Appends the mark of a fault in shape.
fn add_fault_mark(
    marks: &mut Vec<Mark>,
    names: (u16, u16),
    fault: Option<ShapeFault>,
) -> Result<(), AllocError>
    ensures { OnOk result (Gains (MarksOf names (FaultViolates fault)) marks.old.items marks.new.items) }
{
    let Some(fault) = fault else {
        return Ok(());
    };
    let place = MarkPlace {
        name: names.0,
        desc: names.1,
        number: fault.number,
    };
    add_mark_if(marks, place, SHAPE, true)
}

/// Appends the mark of rule 19 where the code of a method has no shape. What shape needs of the pool is read once for each class, and only where it is needed.
pub fn add_shape_mark(
    alloc: Global,
    marks: &mut Vec<Mark>,
    kinds: &mut Option<PoolKinds>,
    names: (u16, u16),
    view: &ClassView<'_>,
    method: &MemberView<'_>,
    code: WholeCode<'_>,
) -> Result<(), AllocError>
    requires kinds { IfSome kinds.old (ArePoolKinds view.now.pool) }
    requires valid { IsValid (class_of view.now) }
    requires method { IsMethod view.now.pool (member_of method.now) }
    requires code { IsWholeMethod view.now.pool (member_of method.now) code }
    requires plain { NamesFloat view.now.pool (member_of method.now).desc → ⊥ }
    ensures kinds { OnOk result (IfSome kinds.new (ArePoolKinds view.now.pool)) }
    ensures marks { OnOk result (Gains (MarksOf names (ShapeViolates view.now.pool (member_of method.now))) marks.old.items marks.new.items) }
{
    let read = kinds_of(alloc, &view.pool, kinds.take())?;
    let fault = fault_of(alloc, &read, &view.pool, method, code)?;
    *kinds = Some(read);
    add_fault_mark(marks, names, fault)
}
