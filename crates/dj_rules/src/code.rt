ghost use Rattle.std.specs.Prelude.{◌≢◌, ◌↔◌, ◌⊎◌, [], IfSome, IsTrue, IfOk, OnOk};
ghost use Rattle.dj_class.specs.trusted.ClassFile.{IsMethod, IsValid};
ghost use Rattle.dj_class.specs.Members.{member_of};
ghost use Rattle.dj_class.specs.Views.{class_of};
ghost use Rattle.dj_file_rules.specs.trusted.Violations.{IsFinalizer};
ghost use Rattle.dj_early_rules.specs.Judged.{AreTexts};
ghost use Rattle.dj_early_rules.specs.Marks.{names_in};
ghost use Rattle.dj_early_rules.specs.Passes.{IsWholeMethod};
ghost use Rattle.dj_shape_rule.specs.Pools.{ArePoolKinds};
ghost use Rattle.dj_rules.specs.Late.{HasKnown, IsKnownOf, AreReportedMarks};

use crate::lent::Marks;
use crate::shape_marks::add_shape_mark;
use dj_class::{ClassView, MemberView};
use dj_early_rules::{JudgedText, Mark, WholeCode, add_own_marks, names_of};
use dj_link_rules::{Known, add_whole_marks};
use dj_pool::Pool;
use dj_shape_rule::PoolKinds;
use std::alloc::{AllocError, Global};

// Whether the method is one that a garbage collector would call.
fn is_finalizer(pool: &Pool<'_>, method: &MemberView<'_>) -> bool
    ensures { IsTrue result ↔ IsFinalizer pool.now (member_of method.now) }
{
    match (pool.text(method.name), pool.text(method.desc)) {
        (Some(name), Some(desc)) => { name == b"finalize".as_slice() && desc == b"()V".as_slice() }
        _ => false,
    }
}

fn has_marks(marks: &[Mark]) -> bool
    ensures { IsTrue result ↔ (marks.now ≢ []) }
{
    !marks.is_empty()
}

// Whether a method with code that has these marks violates one of the rules before 19.
fn is_reported(pool: &Pool<'_>, method: &MemberView<'_>, early: &[Mark], late: &[Mark]) -> bool
    ensures { IsTrue result ↔ ((early.now ≢ []) ⊎ ((late.now ≢ []) ⊎ IsFinalizer pool.now (member_of method.now))) }
{
    has_marks(early) || has_marks(late) || is_finalizer(pool, method)
}

/// The marks of a method with code.
pub fn judge_code(
    alloc: Global,
    kinds: &mut Option<PoolKinds>,
    view: &ClassView<'_>,
    texts: &[JudgedText],
    known: Option<&Known<'_>>,
    method: &MemberView<'_>,
    code: WholeCode<'_>,
) -> Result<Marks, AllocError>
    requires kinds { IfSome kinds.old (ArePoolKinds view.now.pool) }
    requires texts { AreTexts view.now.pool texts.now }
    requires valid { IsValid (class_of view.now) }
    requires known { IsKnownOf (class_of view.now) known }
    requires method { IsMethod view.now.pool (member_of method.now) }
    requires code { IsWholeMethod view.now.pool (member_of method.now) code }
    ensures kinds { OnOk result (IfSome kinds.new (ArePoolKinds view.now.pool)) }
    ensures marks { IfOk result (AreReportedMarks (class_of view.now) (HasKnown known.entry) (names_in texts.now (member_of method.now)) (member_of method.now)) }
{
    let mut early = Vec::new(alloc);
    let mut late = Vec::new(alloc);
    add_own_marks(&mut early, view, texts, method, &code)?;
    let Some(known) = known else {
        return Ok(Marks { early, late });
    };
    let unreported = !has_marks(&early);
    add_whole_marks(&mut late, view, texts, known, method, &code, unreported)?;
    if is_reported(&view.pool, method, &early, &late) {
        return Ok(Marks { early, late });
    }
    let names = names_of(&view.pool, texts, method);
    add_shape_mark(alloc, &mut late, kinds, names, view, method, code)?;
    Ok(Marks { early, late })
}
