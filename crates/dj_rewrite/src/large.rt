//! What of a class doesn't fit.
ghost use Rattle.std.specs.Prelude.{◌≡◌, ⊤, length, IfOk, OnOk};
ghost use Rattle.dj_pool.specs.trusted.Pool.{NamesText};
ghost use Rattle.dj_class.specs.Members.{member_of};
ghost use Rattle.dj_class.specs.trusted.ClassFile.{IsValid};
ghost use Rattle.dj_class.specs.Views.{class_of};
ghost use Rattle.dj_report.specs.Lines.{Gains};
ghost use Rattle.dj_rewrite.specs.Rule.{member_text};
ghost use Rattle.dj_rewrite.specs.Steps.{class_texts, IsLargeText, AreLargeTexts, AreTexts};

use crate::answers::{MethodAnswer, is_large};
use dj_class::{ClassView, MemberView};
use dj_names::Name;
use dj_pool::Pool;
use dj_shape::joined;
use std::alloc::{AllocError, Global};

// The name of a member, followed by its descriptor.
fn member_text(alloc: Global, pool: &Pool<'_>, member: &MemberView<'_>) -> Result<Name, AllocError>
    requires name { NamesText (λ _. ⊤) pool.now (member_of member.now).name }
    requires desc { NamesText (λ _. ⊤) pool.now (member_of member.now).desc }
    ensures { IfOk result (λ text. text ≡ member_text pool.now (member_of member.now)) }
{
    match (pool.text(member.name), pool.text(member.desc)) {
        (Some(name), Some(desc)) => joined(alloc, name, desc),
        _ => unreachable!(),
    }
}

// Appends the text of a method, where it is too large.
fn add_text(
    alloc: Global,
    texts: &mut Vec<Name>,
    pool: &Pool<'_>,
    method: &MemberView<'_>,
    answer: &MethodAnswer,
) -> Result<(), AllocError>
    requires name { NamesText (λ _. ⊤) pool.now (member_of method.now).name }
    requires desc { NamesText (λ _. ⊤) pool.now (member_of method.now).desc }
    ensures { OnOk result (Gains (IsLargeText pool.now (member_of method.now, answer.now)) texts.old.items texts.new.items) }
{
    if !is_large(answer) {
        return Ok(());
    }
    let text = member_text(alloc, pool, method)?;
    texts.push(text)?;
    Ok(())
}

// Appends the texts of the methods that are too large.
fn add_texts(
    alloc: Global,
    texts: &mut Vec<Name>,
    view: &ClassView<'_>,
    answers: &[MethodAnswer],
) -> Result<(), AllocError>
    requires valid { IsValid (class_of view.now) }
    requires answers { length answers.now ≡ length (class_of view.now).methods }
    ensures { OnOk result (Gains (AreLargeTexts (class_of view.now) answers.now) texts.old.items texts.new.items) }
{
    for (i, method) in view.methods.as_slice().iter().enumerate() {
        add_text(alloc, texts, &view.pool, method, &answers[i])?;
    }
    Ok(())
}

// The empty text, where it is the class that doesn't fit.
fn class_texts(alloc: Global, class: bool) -> Result<Vec<Name>, AllocError>
    ensures { IfOk result (λ texts. texts.items ≡ class_texts class) }
{
    let mut texts = Vec::new(alloc);
    if !class {
        return Ok(texts);
    }
    texts.push(Name::new(alloc))?;
    Ok(texts)
}

/// What of a class doesn't fit: the texts of its methods, and an empty one where it is the class itself.
pub(crate) fn large_texts(
    alloc: Global,
    view: &ClassView<'_>,
    class: bool,
    answers: &[MethodAnswer],
) -> Result<Vec<Name>, AllocError>
    requires valid { IsValid (class_of view.now) }
    requires answers { length answers.now ≡ length (class_of view.now).methods }
    ensures { IfOk result (λ texts. AreTexts (class_of view.now) class answers.now texts.items) }
{
    let mut texts = class_texts(alloc, class)?;
    add_texts(alloc, &mut texts, view, answers)?;
    Ok(texts)
}
