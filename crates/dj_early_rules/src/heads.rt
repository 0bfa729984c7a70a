ghost use Rattle.std.specs.Prelude.{◌≡◌, ◌↔◌, ℕ, List, option_and_then, Contains, OnOk, IfOk};
ghost use Rattle.dj_pool.specs.trusted.Pool.{class_text_of, constant_at};
ghost use Rattle.dj_class.specs.Views.{class_of};
ghost use Rattle.dj_report.specs.Lines.{Gains};
ghost use Rattle.dj_early_rules.specs.Judged.{AreTexts};
ghost use Rattle.dj_early_rules.specs.trusted.Heads.{interface_names};
ghost use Rattle.dj_early_rules.specs.Gathered.{texts_of, IsClassText, HasText, AreClassTexts, AreTextsAt, IsHeadOf};

use crate::classes::class_name;
use crate::judged::{JudgedText, text_in};
use dj_class::ClassView;
use dj_hierarchy_rule::ClassHead;
use dj_pool::{Entry, Pool};
use std::alloc::{AllocError, Global};

// The index of the text of the class at an index.
fn class_text(pool: &Pool<'_>, index: u16) -> Option<u16>
    ensures { result ≡ option_and_then class_text_of (constant_at pool.now index) }
{
    match pool.get(index) {
        Some(Entry::Class(name)) => Some(name),
        _ => None,
    }
}

// Appends the index that represents the text of the class at an index.
fn add_class_text(
    firsts: &mut Vec<u16>,
    pool: &Pool<'_>,
    texts: &[JudgedText],
    index: u16,
) -> Result<(), AllocError>
    requires { AreTexts pool.now texts.now }
    ensures { OnOk result (Gains (IsClassText pool.now texts.now index) firsts.old.items firsts.new.items) }
{
    if let Some(name) = class_text(pool, index) {
        firsts.push(text_in(pool, texts, name).first)?;
    }
    Ok(())
}

// The indexes in order, each once.
fn each_index_once(mut indexes: Vec<u16>) -> Vec<u16>
    ensures { (index : ℕ) → Contains result.items index ↔ Contains indexes.items index }
{
    indexes.sort_unstable();
    indexes.dedup();
    indexes
}

// The indexes that represent the texts of the classes at these indexes.
fn class_texts(
    alloc: Global,
    pool: &Pool<'_>,
    texts: &[JudgedText],
    indexes: &[u16],
) -> Result<Vec<u16>, AllocError>
    requires { AreTexts pool.now texts.now }
    ensures { IfOk result (λ firsts. AreClassTexts pool.now texts.now indexes.now firsts.items) }
{
    let mut firsts = Vec::new(alloc);
    for index in indexes {
        add_class_text(&mut firsts, pool, texts, *index)?;
    }
    Ok(firsts)
}

// Appends the text at an index.
fn add_text<'a>(names: &mut Vec<&'a [u8]>, pool: &Pool<'a>, index: u16) -> Result<(), AllocError>
    ensures { OnOk result (Gains (HasText pool.now index) (texts_of names.old.items) (texts_of names.new.items)) }
{
    if let Some(text) = pool.text(index) {
        names.push(text)?;
    }
    Ok(())
}

// The texts of the indexes.
fn texts_at<'a>(
    alloc: Global,
    pool: &Pool<'a>,
    indexes: &[u16],
) -> Result<Vec<&'a [u8]>, AllocError>
    ensures { IfOk result (λ names. AreTextsAt pool.now indexes.now (texts_of names.items)) }
{
    let mut names = Vec::new(alloc);
    for index in indexes {
        add_text(&mut names, pool, *index)?;
    }
    Ok(names)
}

// The names of the interfaces, each once. A name may be listed often, and is compared once.
fn interface_names<'a>(
    alloc: Global,
    view: &ClassView<'a>,
    texts: &[JudgedText],
) -> Result<Vec<&'a [u8]>, AllocError>
    requires { AreTexts view.now.pool texts.now }
    ensures { IfOk result (λ names. (name : List ℕ) → Contains (texts_of names.items) name ↔ Contains (interface_names (class_of view.now)) name) }
{
    let firsts = class_texts(alloc, &view.pool, texts, view.interfaces.as_slice())?;
    let once = each_index_once(firsts);
    texts_at(alloc, &view.pool, &once)
}

/// The head of the class that the file defines.
pub fn class_head<'a>(
    alloc: Global,
    view: &ClassView<'a>,
    texts: &[JudgedText],
) -> Result<ClassHead<'a>, AllocError>
    requires { AreTexts view.now.pool texts.now }
    ensures { IfOk result (IsHeadOf (class_of view.now)) }
{
    Ok(ClassHead {
        name: class_name(view),
        flags: view.flags,
        superclass: view.pool.class_name(view.super_class),
        interfaces: interface_names(alloc, view, texts)?,
    })
}
