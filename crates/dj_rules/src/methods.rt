ghost use Rattle.std.specs.Prelude.{◌≡◌, ◌++◌, IfSome, IfOk, OnOk};
ghost use Rattle.dj_class.specs.trusted.ClassFile.{IsMethod, IsValid};
ghost use Rattle.dj_class.specs.Members.{member_of};
ghost use Rattle.dj_class.specs.Views.{class_of};
ghost use Rattle.dj_early_rules.specs.Judged.{AreTexts};
ghost use Rattle.dj_shape_rule.specs.Pools.{ArePoolKinds};
ghost use Rattle.dj_rules.specs.Late.{HasKnown, IsKnownOf};
ghost use Rattle.dj_rules.specs.Reported.{IsJudgedMethod, AreJudgedMethods};

use crate::code::judge_code;
use crate::lent::Marks;
use dj_class::{ClassView, MemberView};
use dj_early_rules::{JudgedText, MethodBody, add_bodiless_marks, code_of_method};
use dj_link_rules::Known;
use dj_shape_rule::PoolKinds;
use std::alloc::{AllocError, Global};

// Appends the marks of one method.
fn add_marks(marks: &mut Marks, own: Marks) -> Result<(), AllocError>
    ensures early { OnOk result (marks.new.early.items ≡ marks.old.early.items ++ own.early.items) }
    ensures late { OnOk result (marks.new.late.items ≡ marks.old.late.items ++ own.late.items) }
{
    let Marks {
        mut early,
        mut late,
    } = own;
    marks.early.append(&mut early)?;
    marks.late.append(&mut late)?;
    Ok(())
}

// Appends the marks of a method, or returns false where it is faulty.
fn judge_method(
    alloc: Global,
    marks: &mut Marks,
    kinds: &mut Option<PoolKinds>,
    view: &ClassView<'_>,
    texts: &[JudgedText],
    known: Option<&Known<'_>>,
    method: &MemberView<'_>,
) -> Result<bool, AllocError>
    requires kinds { IfSome kinds.old (ArePoolKinds view.now.pool) }
    requires texts { AreTexts view.now.pool texts.now }
    requires valid { IsValid (class_of view.now) }
    requires known { IsKnownOf (class_of view.now) known }
    requires method { IsMethod view.now.pool (member_of method.now) }
    ensures kinds { OnOk result (IfSome kinds.new (ArePoolKinds view.now.pool)) }
    ensures marks { IfOk result (IsJudgedMethod (class_of view.now) (HasKnown known.entry) texts.now (member_of method.now) marks.old marks.new) }
{
    match code_of_method(alloc, &view.pool, method)? {
        MethodBody::Faulty => Ok(false),
        MethodBody::Bodiless => {
            add_bodiless_marks(&mut marks.early, view, texts, method)?;
            Ok(true)
        }
        MethodBody::Whole(code) => {
            let own = judge_code(alloc, kinds, view, texts, known, method, code)?;
            add_marks(marks, own)?;
            Ok(true)
        }
    }
}

/// The marks of all methods, or none where one is faulty.
pub fn judge_methods(
    alloc: Global,
    view: &ClassView<'_>,
    texts: &[JudgedText],
    known: Option<&Known<'_>>,
) -> Result<Option<Marks>, AllocError>
    requires texts { AreTexts view.now.pool texts.now }
    requires valid { IsValid (class_of view.now) }
    requires known { IsKnownOf (class_of view.now) known }
    ensures { IfOk result (AreJudgedMethods (class_of view.now) (HasKnown known.entry) texts.now) }
{
    let mut marks = Marks {
        early: Vec::new(alloc),
        late: Vec::new(alloc),
    };
    let mut kinds = None;
    for method in view.methods.as_slice() {
        let sound = judge_method(alloc, &mut marks, &mut kinds, view, texts, known, method)?;
        if !sound {
            return Ok(None);
        }
    }
    Ok(Some(marks))
}
