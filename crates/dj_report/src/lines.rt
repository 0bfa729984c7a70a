ghost use Rattle.std.specs.Prelude.{◌≡◌, Contains, OnOk};
ghost use Rattle.dj_report.specs.trusted.Lines.{file_line};
ghost use Rattle.dj_report.specs.Lines.{Adds};

use crate::order::in_order;
use crate::report::Violation;
use dj_names::Name;
use std::alloc::{AllocError, Global};

/// Appends a line.
pub fn add_line(found: &mut Vec<Violation>, line: Violation) -> Result<(), AllocError>
    ensures { OnOk result (Adds (λ v. v ≡ line) found.old.items found.new.items) }
{
    found.push(line)?;
    Ok(())
}

/// Appends a line on a whole file.
pub fn add_file_line(
    alloc: Global,
    found: &mut Vec<Violation>,
    path: &str,
    rule: u8,
) -> Result<(), AllocError>
    ensures { OnOk result (Adds (λ v. v ≡ file_line path.now rule) found.old.items found.new.items) }
{
    let path = Name::from_slice(alloc, path.as_bytes())?;
    let member = Name::new(alloc);
    let line = Violation {
        path,
        member,
        number: None,
        rule,
    };
    add_line(found, line)
}

/// Appends lines, sorted among themselves and each once. So all lines are in order where later calls append greater lines.
pub fn add_in_order(found: &mut Vec<Violation>, lines: Vec<Violation>) -> Result<(), AllocError>
    ensures { OnOk result (Adds (λ v. Contains lines.items v) found.old.items found.new.items) }
{
    let mut ordered = Vec::from(in_order(lines));
    found.append(&mut ordered)?;
    Ok(())
}
