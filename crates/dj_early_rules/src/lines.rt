ghost use Rattle.std.specs.Prelude.{◌≡◌, ◌↔◌, Contains, IsTrue, OnOk, IfOk};
ghost use Rattle.dj_report.specs.trusted.Lines.{file_line};
ghost use Rattle.dj_report.specs.Lines.{Adds, IsLineAmong};
ghost use Rattle.dj_file_rules.specs.Lines.{pair_text};
ghost use Rattle.dj_early_rules.specs.declared.marks.Mark.{Mark};
ghost use Rattle.dj_early_rules.specs.Marks.{IsMarkLine};

use crate::marks::Mark;
use dj_names::Name;
use dj_pool::Pool;
use dj_report::{Violation, add_file_line, add_line};
use std::alloc::{AllocError, Global};

// The name and the descriptor at these indexes.
fn text_of(alloc: Global, pool: &Pool<'_>, name: u16, desc: u16) -> Result<Name, AllocError>
    ensures { IfOk result (λ text. text ≡ pair_text pool.now (name, desc)) }
{
    let mut text = Name::from_slice(alloc, pool.text(name).unwrap_or(b""))?;
    text.extend(pool.text(desc).unwrap_or(b""))?;
    Ok(text)
}

// Appends the line of a mark.
fn add_mark_line(
    alloc: Global,
    found: &mut Vec<Violation>,
    path: &str,
    pool: &Pool<'_>,
    mark: Mark,
) -> Result<(), AllocError>
    ensures { OnOk result (Adds (IsMarkLine path.now pool.now mark) found.old.items found.new.items) }
{
    let path = Name::from_slice(alloc, path.as_bytes())?;
    let member = text_of(alloc, pool, mark.place.name, mark.place.desc)?;
    let line = Violation {
        path,
        member,
        number: mark.place.number,
        rule: mark.rule,
    };
    add_line(found, line)?;
    Ok(())
}

// The marks in order, each once.
fn each_once(mut marks: Vec<Mark>) -> Vec<Mark>
    ensures { (mark : Mark) → Contains result.items mark ↔ Contains marks.items mark }
{
    marks.sort_unstable();
    marks.dedup();
    marks
}

// Appends the line of each mark.
fn add_each_line(
    alloc: Global,
    found: &mut Vec<Violation>,
    path: &str,
    pool: &Pool<'_>,
    marks: &[Mark],
) -> Result<(), AllocError>
    ensures { OnOk result (Adds (IsLineAmong (IsMarkLine path.now pool.now) marks.now) found.old.items found.new.items) }
{
    for mark in marks {
        add_mark_line(alloc, found, path, pool, *mark)?;
    }
    Ok(())
}

/// Appends the lines of marks. A line is as long as its texts, so repeats are dropped before lines are made.
pub fn add_mark_lines(
    alloc: Global,
    found: &mut Vec<Violation>,
    path: &str,
    pool: &Pool<'_>,
    marks: Vec<Mark>,
) -> Result<(), AllocError>
    ensures { OnOk result (Adds (IsLineAmong (IsMarkLine path.now pool.now) marks.items) found.old.items found.new.items) }
{
    let once = each_once(marks);
    add_each_line(alloc, found, path, pool, &once)
}

/// Appends the line of a whole file, if it violates the rule.
pub fn add_file_line_if(
    alloc: Global,
    found: &mut Vec<Violation>,
    path: &str,
    rule: u8,
    violated: bool,
) -> Result<(), AllocError>
    ensures { OnOk result (Adds (λ v. IsTrue violated × (v ≡ file_line path.now rule)) found.old.items found.new.items) }
{
    if violated {
        add_file_line(alloc, found, path, rule)?;
    }
    Ok(())
}
