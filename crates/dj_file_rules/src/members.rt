ghost use Rattle.std.specs.Prelude.{◌≡◌, ◌↔◌, ℕ, Some, Contains, OnOk, IsTrue};
ghost use Rattle.dj_pool.specs.trusted.Pool.{text_at};
ghost use Rattle.dj_class.specs.Members.{member_of};
ghost use Rattle.dj_class.specs.Views.{class_of};
ghost use Rattle.dj_report.specs.Lines.{Adds, Gains, IsLineAmong};
ghost use Rattle.dj_file_rules.specs.Lines.{IsPairLine, pair_of};
ghost use Rattle.dj_file_rules.specs.trusted.Violations.{IsNative, IsFinalizer, IsMethodLine};

use crate::error::RulesError;
use crate::lines::{MemberLines, add_member_line};
use crate::texts::each_text_once;
use dj_class::{ClassView, MemberView};
use dj_pool::Pool;
use dj_report::Violation;
use std::alloc::Global;

// The numbers of the rules NATIVE and FINALIZER.
const NATIVE: u8 = 7;

const FINALIZER: u8 = 8;

fn is_native(method: &MemberView<'_>) -> bool
    ensures { IsTrue result ↔ IsNative (member_of method.now) }
{
    method.access().is_native()
}

fn is_text(pool: &Pool<'_>, index: u16, text: &[u8]) -> bool
    ensures { IsTrue result ↔ (text_at pool.now index ≡ Some text.now) }
{
    match pool.text(index) {
        Some(found) => found == text,
        None => false,
    }
}

fn is_finalizer(pool: &Pool<'_>, method: &MemberView<'_>) -> bool
    ensures { IsTrue result ↔ IsFinalizer pool.now (member_of method.now) }
{
    is_text(pool, method.name, b"finalize") && is_text(pool, method.desc, b"()V")
}

// Appends the pair of indexes of the name and the descriptor, if the method is native.
fn add_native_pair(pairs: &mut Vec<(u16, u16)>, method: &MemberView<'_>) -> Result<(), RulesError>
    ensures { OnOk result (Gains (λ pair. IsNative (member_of method.now) × (pair ≡ pair_of (member_of method.now))) pairs.old.items pairs.new.items) }
{
    if is_native(method) {
        pairs.push((method.name, method.desc))?;
    }
    Ok(())
}

// The same, if the method is a finalizer.
fn add_finalizer_pair(
    pairs: &mut Vec<(u16, u16)>,
    pool: &Pool<'_>,
    method: &MemberView<'_>,
) -> Result<(), RulesError>
    ensures { OnOk result (Gains (λ pair. IsFinalizer pool.now (member_of method.now) × (pair ≡ pair_of (member_of method.now))) pairs.old.items pairs.new.items) }
{
    if is_finalizer(pool, method) {
        pairs.push((method.name, method.desc))?;
    }
    Ok(())
}

// Appends the line of each pair.
fn add_each_line(
    alloc: Global,
    found: &mut Vec<Violation>,
    lines: &MemberLines<'_, '_>,
    pairs: &[(u16, u16)],
) -> Result<(), RulesError>
    ensures { OnOk result (Adds (IsLineAmong (IsPairLine lines.now.path.now lines.now.rule lines.now.pool.now) pairs.now) found.old.items found.new.items) }
{
    for pair in pairs {
        add_member_line(alloc, found, lines, *pair)?;
    }
    Ok(())
}

// Appends the lines of the pairs. A line is as long as its texts, so repeats are dropped before lines are copied.
fn add_pair_lines(
    alloc: Global,
    found: &mut Vec<Violation>,
    lines: &MemberLines<'_, '_>,
    pairs: Vec<(u16, u16)>,
) -> Result<(), RulesError>
    ensures { OnOk result (Adds (IsLineAmong (IsPairLine lines.now.path.now lines.now.rule lines.now.pool.now) pairs.items) found.old.items found.new.items) }
{
    let once = each_text_once(alloc, lines.pool, pairs)?;
    add_each_line(alloc, found, lines, &once)
}

/// Appends the lines of the rule NATIVE.
pub fn add_native_lines(
    alloc: Global,
    found: &mut Vec<Violation>,
    path: &str,
    view: &ClassView<'_>,
) -> Result<(), RulesError>
    ensures { OnOk result (Adds (IsMethodLine (λ _ m. IsNative m) path.now 7 (class_of view.now)) found.old.items found.new.items) }
{
    let mut pairs = Vec::new(alloc);
    for method in view.methods.as_slice() {
        add_native_pair(&mut pairs, method)?;
    }
    let lines = MemberLines {
        path,
        pool: &view.pool,
        rule: NATIVE,
    };
    add_pair_lines(alloc, found, &lines, pairs)
}

/// Appends the lines of the rule FINALIZER.
pub fn add_finalizer_lines(
    alloc: Global,
    found: &mut Vec<Violation>,
    path: &str,
    view: &ClassView<'_>,
) -> Result<(), RulesError>
    ensures { OnOk result (Adds (IsMethodLine IsFinalizer path.now 8 (class_of view.now)) found.old.items found.new.items) }
{
    let mut pairs = Vec::new(alloc);
    for method in view.methods.as_slice() {
        add_finalizer_pair(&mut pairs, &view.pool, method)?;
    }
    let lines = MemberLines {
        path,
        pool: &view.pool,
        rule: FINALIZER,
    };
    add_pair_lines(alloc, found, &lines, pairs)
}
