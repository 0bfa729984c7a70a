ghost use Rattle.std.specs.Prelude.{IsTrue, OnOk};
ghost use Rattle.std.specs.List.{AllByRecursion};
ghost use Rattle.dj_class.specs.trusted.ClassFile.{IsAttribute, IsValid};
ghost use Rattle.dj_class.specs.Members.{member_of};
ghost use Rattle.dj_class.specs.Views.{class_of};
ghost use Rattle.dj_report.specs.Lines.{Gains};
ghost use Rattle.dj_file_rules.specs.trusted.Violations.{this_name};
ghost use Rattle.dj_early_rules.specs.Judged.{AreTexts};
ghost use Rattle.dj_early_rules.specs.trusted.Malformed.{IsFaultyMethod, HasFaultyMethod};
ghost use Rattle.dj_early_rules.specs.Marks.{names_in, MarksOf, AreMarksOf};
ghost use Rattle.dj_early_rules.specs.Passes.{IsWholeMethod};
ghost use Rattle.dj_link_rules.specs.trusted.Lines.{MethodLinkViolates};
ghost use Rattle.dj_link_rules.specs.Known.{IsKnown};
ghost use Rattle.dj_link_rules.specs.Marks.{IsUnreportedMethod};

use crate::error::LinkError;
use crate::known::Known;
use crate::passes::add_code_marks;
use dj_class::{ClassView, MemberView};
use dj_early_rules::{JudgedText, Mark, MethodBody, WholeCode, code_of_method, names_of};
use std::alloc::Global;

/// Appends the marks of a method with code. The caller may know that it violates none of the rules 9 to 16.
pub fn add_whole_marks(
    marks: &mut Vec<Mark>,
    view: &ClassView<'_>,
    texts: &[JudgedText],
    known: &Known<'_>,
    method: &MemberView<'_>,
    code: &WholeCode<'_>,
    unreported: bool,
) -> Result<(), LinkError>
    requires unreported { IsTrue unreported → IsUnreportedMethod (class_of view.now) (member_of method.now) }
    requires texts { AreTexts view.now.pool texts.now }
    requires known { IsKnown (this_name (class_of view.now)) view.now.pool known.now }
    requires code { IsWholeMethod view.now.pool (member_of method.now) code.now }
    ensures { OnOk result (Gains (MarksOf (names_in texts.now (member_of method.now)) (MethodLinkViolates known.now.table.now (class_of view.now) (member_of method.now))) marks.old.items marks.new.items) }
{
    let names = names_of(&view.pool, texts, method);
    add_code_marks(
        marks,
        names,
        &view.pool,
        texts,
        known,
        &code.labelled,
        unreported,
    )
}

// Appends the marks of a method.
fn add_method_mark(
    alloc: Global,
    marks: &mut Vec<Mark>,
    view: &ClassView<'_>,
    texts: &[JudgedText],
    known: &Known<'_>,
    method: &MemberView<'_>,
) -> Result<(), LinkError>
    requires texts { AreTexts view.now.pool texts.now }
    requires known { IsKnown (this_name (class_of view.now)) view.now.pool known.now }
    requires attributes { AllByRecursion (IsAttribute view.now.pool) (member_of method.now).attributes }
    requires sound { IsFaultyMethod view.now.pool (member_of method.now) → ⊥ }
    ensures { OnOk result (Gains (MarksOf (names_in texts.now (member_of method.now)) (MethodLinkViolates known.now.table.now (class_of view.now) (member_of method.now))) marks.old.items marks.new.items) }
{
    match code_of_method(alloc, &view.pool, method)? {
        MethodBody::Faulty => unreachable!(),
        MethodBody::Bodiless => Ok(()),
        MethodBody::Whole(code) => {
            add_whole_marks(marks, view, texts, known, method, &code, false)
        }
    }
}

/// Appends the marks of all methods of a class file that has no faulty method.
pub fn add_method_marks(
    alloc: Global,
    marks: &mut Vec<Mark>,
    view: &ClassView<'_>,
    texts: &[JudgedText],
    known: &Known<'_>,
) -> Result<(), LinkError>
    requires texts { AreTexts view.now.pool texts.now }
    requires known { IsKnown (this_name (class_of view.now)) view.now.pool known.now }
    requires valid { IsValid (class_of view.now) }
    requires sound { HasFaultyMethod (class_of view.now) → ⊥ }
    ensures { OnOk result (Gains (AreMarksOf texts.now (MethodLinkViolates known.now.table.now (class_of view.now)) (class_of view.now).methods) marks.old.items marks.new.items) }
{
    for method in view.methods.as_slice() {
        add_method_mark(alloc, marks, view, texts, known, method)?;
    }
    Ok(())
}
