ghost use Rattle.std.specs.Prelude.{[], Some, IfOk, OnOk};
ghost use Rattle.dj_class.specs.trusted.ClassFile.{IsValid};
ghost use Rattle.dj_class.specs.Views.{class_of};
ghost use Rattle.dj_report.specs.Lines.{Adds, Gains, IsLineAmong};
ghost use Rattle.dj_early_rules.specs.Judged.{AreTexts};
ghost use Rattle.dj_early_rules.specs.Marks.{AreMarksOf, IsMarkLine};
ghost use Rattle.dj_early_rules.specs.trusted.Methods.{MethodViolates};
ghost use Rattle.dj_early_rules.specs.trusted.Rules.{IsOwnLine};
ghost use Rattle.dj_rules.specs.Late.{HasLent, AreLent, IsReady};
ghost use Rattle.dj_rules.specs.Reported.{AreJudgedMethods, IsJudgedClass};

use crate::files::JudgedFiles;
use crate::lent::{Lent, Marks};
use crate::methods::judge_methods;
use dj_class::ClassView;
use dj_early_rules::{
    GoodFile, JudgedText, add_field_marks, add_mark_lines, add_naming_lines, class_name, good_file,
    has_faulty_field, judge_texts,
};
use dj_file_rules::add_class_lines;
use dj_link_rules::{Known, classes_above, judge_constants};
use std::alloc::{AllocError, Global};

// The marks of the methods of a class file where classes are borrowed. What its constants name, and what is above it, is looked up once.
fn judge_linked(
    alloc: Global,
    lent: Lent<'_, '_>,
    view: &ClassView<'_>,
    texts: &[JudgedText],
) -> Result<Option<Marks>, AllocError>
    requires lent { AreLent lent }
    requires texts { AreTexts view.now.pool texts.now }
    requires valid { IsValid (class_of view.now) }
    ensures { IfOk result (AreJudgedMethods (class_of view.now) (HasLent (Some lent.entry)) texts.now) }
{
    let table = lent.linker.classes();
    let kept = judge_constants(alloc, lent.linker, lent.directory, &view.pool)?;
    let known = Known {
        table,
        unmakeable: lent.unmakeable,
        own: classes_above(lent.linker, class_name(view)),
        kept: &kept,
    };
    judge_methods(alloc, view, texts, Some(&known))
}

// The marks of the methods of a class file.
fn judge_members(
    alloc: Global,
    lent: Option<Lent<'_, '_>>,
    view: &ClassView<'_>,
    texts: &[JudgedText],
) -> Result<Option<Marks>, AllocError>
    requires lent { IsReady lent }
    requires texts { AreTexts view.now.pool texts.now }
    requires valid { IsValid (class_of view.now) }
    ensures { IfOk result (AreJudgedMethods (class_of view.now) (HasLent lent.entry) texts.now) }
{
    match lent {
        Some(lent) => judge_linked(alloc, lent, view, texts),
        None => judge_methods(alloc, view, texts, None),
    }
}

// Appends all lines of a class file without a faulty part, whose methods have these marks.
fn add_lines(
    alloc: Global,
    found: &mut JudgedFiles,
    path: &str,
    view: &ClassView<'_>,
    texts: &[JudgedText],
    marks: Marks,
) -> Result<(), AllocError>
    requires texts { AreTexts view.now.pool texts.now }
    requires valid { IsValid (class_of view.now) }
    requires marks { Gains (AreMarksOf texts.now (MethodViolates (class_of view.now)) (class_of view.now).methods) [] marks.early.items }
    ensures early { OnOk result (Adds (IsOwnLine path.now (class_of view.now)) found.old.early.items found.new.early.items) }
    ensures late { OnOk result (Adds (IsLineAmong (IsMarkLine path.now view.now.pool) marks.late.items) found.old.late.items found.new.late.items) }
{
    let Marks { mut early, late } = marks;
    add_field_marks(&mut early, view, texts)?;
    add_class_lines(alloc, &mut found.early, path, view)?;
    add_naming_lines(alloc, &mut found.early, path, view, texts)?;
    add_mark_lines(alloc, &mut found.early, path, &view.pool, early)?;
    add_mark_lines(alloc, &mut found.late, path, &view.pool, late)
}

/// Appends all lines of a class file by itself, and returns what is kept of it, or none where a part of it is faulty.
pub fn judge_class<'a>(
    alloc: Global,
    found: &mut JudgedFiles,
    lent: Option<Lent<'_, '_>>,
    path: &str,
    view: &ClassView<'a>,
) -> Result<Option<GoodFile<'a>>, AllocError>
    requires lent { IsReady lent }
    requires valid { IsValid (class_of view.now) }
    ensures { IfOk result (IsJudgedClass path.now (class_of view.now) (HasLent lent.entry) found.old found.new) }
{
    let faulty = has_faulty_field(alloc, view)?;
    if faulty {
        return Ok(None);
    }
    let texts = judge_texts(alloc, view)?;
    match judge_members(alloc, lent, view, &texts)? {
        Some(marks) => {
            add_lines(alloc, found, path, view, &texts, marks)?;
            Ok(Some(good_file(alloc, view, &texts)?))
        }
        None => Ok(None),
    }
}
