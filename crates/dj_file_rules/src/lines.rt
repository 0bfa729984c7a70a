ghost use Rattle.std.specs.Prelude.{◌≡◌, OnOk, IfOk};
ghost use Rattle.dj_report.specs.Lines.{Adds};
ghost use Rattle.dj_file_rules.specs.Lines.{IsPairLine, pair_text};

use crate::error::RulesError;
use dj_names::Name;
use dj_pool::Pool;
use dj_report::{Violation, add_line};
use std::alloc::Global;

// The name and the descriptor at these indexes.
fn text_of(alloc: Global, pool: &Pool<'_>, pair: (u16, u16)) -> Result<Name, RulesError>
    ensures { IfOk result (λ text. text ≡ pair_text pool.now pair) }
{
    let mut text = Name::from_slice(alloc, pool.text(pair.0).unwrap_or(b""))?;
    text.extend(pool.text(pair.1).unwrap_or(b""))?;
    Ok(text)
}

/// What lines of members have in common: the file's path, the pool that has their names, and the rule.
#[derive(Clone, Copy)]
pub struct MemberLines<'a, 'p> {
    pub path: &'a str,
    pub pool: &'a Pool<'p>,
    pub rule: u8,
}

/// Appends a line on the members whose name and descriptor have these indexes.
pub fn add_member_line(
    alloc: Global,
    found: &mut Vec<Violation>,
    lines: &MemberLines<'_, '_>,
    pair: (u16, u16),
) -> Result<(), RulesError>
    ensures { OnOk result (Adds (IsPairLine lines.now.path.now lines.now.rule lines.now.pool.now pair) found.old.items found.new.items) }
{
    let path = Name::from_slice(alloc, lines.path.as_bytes())?;
    let member = text_of(alloc, lines.pool, pair)?;
    let line = Violation {
        path,
        member,
        number: None,
        rule: lines.rule,
    };
    add_line(found, line)?;
    Ok(())
}
