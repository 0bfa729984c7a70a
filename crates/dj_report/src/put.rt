// Each function appends a part of a report's text.
ghost use Rattle.std.specs.Prelude.{◌≡◌, ◌++◌, OnOk};
ghost use Rattle.std.specs.List.{flat_map};
ghost use Rattle.dj_report.specs.trusted.Text.{rule_name, member_text, number_text, violation_text, violations_text, limit_text, syntax_text, line_fault_text, report_text};

use crate::bytes::ReportError;
use crate::outcome::{put_ran, put_raw, put_run};
use crate::parts::{put_decimal, put_escaped};
use crate::report::{Limit, Report, Violation};

fn rule_name_of(rule: u8) -> &'static str
    ensures { result.now ≡ rule_name rule }
{
    match rule {
        1 => "MALFORMED",
        2 => "VERSION",
        3 => "NAME",
        4 => "SANDBOX_PACKAGE",
        5 => "DUPLICATE",
        6 => "HIERARCHY",
        7 => "NATIVE",
        8 => "FINALIZER",
        9 => "DYNAMIC",
        10 => "REFLECTION",
        11 => "CATCH",
        12 => "FLOAT",
        13 => "SUBROUTINE",
        14 => "BREAKPOINT",
        15 => "MULTI_ARRAY",
        16 => "INTERFACE_CODE",
        17 => "WHITELIST",
        18 => "UNRESOLVED",
        19 => "SHAPE",
        20 => "ENTRY",
        21 => "TOO_LARGE",
        _ => "",
    }
}

fn put_member(out: &mut Vec<u8>, member: &[u8]) -> Result<(), ReportError>
    ensures { OnOk result (out.new.items ≡ out.old.items ++ member_text member.now) }
{
    if member.is_empty() {
        out.push(b'-')?;
        Ok(())
    } else {
        put_escaped(out, member)
    }
}

fn put_number(out: &mut Vec<u8>, number: Option<u32>) -> Result<(), ReportError>
    ensures { OnOk result (out.new.items ≡ out.old.items ++ number_text number) }
{
    match number {
        Some(n) => put_decimal(out, u64::from(n)),
        None => {
            out.push(b'-')?;
            Ok(())
        }
    }
}

fn put_violation(out: &mut Vec<u8>, violation: &Violation) -> Result<(), ReportError>
    ensures { OnOk result (out.new.items ≡ out.old.items ++ violation_text violation.now) }
{
    put_escaped(out, violation.path.as_slice())?;
    out.push(b' ')?;
    put_member(out, violation.member.as_slice())?;
    out.push(b' ')?;
    put_number(out, violation.number)?;
    out.push(b' ')?;
    put_decimal(out, u64::from(violation.rule))?;
    out.push(b' ')?;
    out.extend_from_slice(rule_name_of(violation.rule).as_bytes())?;
    out.push(b'\n')?;
    Ok(())
}

fn put_violations(out: &mut Vec<u8>, violations: &[Violation]) -> Result<(), ReportError>
    ensures { OnOk result (out.new.items ≡ out.old.items ++ flat_map violation_text violations.now) }
{
    for violation in violations {
        put_violation(out, violation)?;
    }
    Ok(())
}

fn put_rejected(out: &mut Vec<u8>, violations: &[Violation]) -> Result<(), ReportError>
    ensures { OnOk result (out.new.items ≡ out.old.items ++ violations_text violations.now) }
{
    out.extend_from_slice(b"REJECTED ")?;
    put_decimal(out, violations.len() as u64)?;
    out.push(b'\n')?;
    put_violations(out, violations)
}

fn limit_text_of(limit: Limit) -> &'static str
    ensures { result.now ≡ limit_text limit }
{
    match limit {
        Limit::FileCount => "files 4096",
        Limit::File => "file 4194304",
        Limit::Total => "total 67108864",
        Limit::Input => "input 1048576",
    }
}

fn put_syntax(out: &mut Vec<u8>, line: u32, column: u32) -> Result<(), ReportError>
    ensures { OnOk result (out.new.items ≡ out.old.items ++ syntax_text line column) }
{
    out.extend_from_slice(b"ASM SYNTAX ")?;
    put_decimal(out, u64::from(line))?;
    out.push(b' ')?;
    put_decimal(out, u64::from(column))?;
    out.push(b'\n')?;
    Ok(())
}

fn put_line_fault(out: &mut Vec<u8>, fault: &str, line: u32) -> Result<(), ReportError>
    ensures { OnOk result (out.new.items ≡ out.old.items ++ line_fault_text fault.now line) }
{
    out.extend_from_slice(b"ASM ")?;
    out.extend_from_slice(fault.as_bytes())?;
    out.push(b' ')?;
    put_decimal(out, u64::from(line))?;
    out.push(b'\n')?;
    Ok(())
}

/// Appends the report's lines, or the bytes of the class file.
pub fn put_report(out: &mut Vec<u8>, report: &Report) -> Result<(), ReportError>
    ensures { OnOk result (out.new.items ≡ out.old.items ++ report_text report.now) }
{
    match report {
        Report::Accepted(files) => {
            out.extend_from_slice(b"ACCEPTED ")?;
            put_decimal(out, u64::from(*files))?;
            out.push(b'\n')?;
        }
        Report::Rejected(violations) => put_rejected(out, violations.as_slice())?,
        Report::Limited(limit) => {
            out.extend_from_slice(b"LIMIT ")?;
            out.extend_from_slice(limit_text_of(*limit).as_bytes())?;
            out.push(b'\n')?;
        }
        Report::Later(path) => {
            out.extend_from_slice(b"LATER ")?;
            put_escaped(out, path.as_slice())?;
            out.push(b'\n')?;
        }
        Report::Absent(path) => {
            out.extend_from_slice(b"ABSENT ")?;
            put_escaped(out, path.as_slice())?;
            out.push(b'\n')?;
        }
        Report::Costed { outcome, costs } => put_run(out, outcome, costs)?,
        Report::Raw { outcome, steps } => put_raw(out, outcome, *steps)?,
        Report::Ran {
            outcome,
            costs,
            code,
            steps,
        } => put_ran(out, outcome, costs, code, *steps)?,
        Report::Usage => out.extend_from_slice(b"USAGE\n")?,
        Report::Syntax { line, column } => put_syntax(out, *line, *column)?,
        Report::Label { line } => put_line_fault(out, "LABEL", *line)?,
        Report::Large { line } => put_line_fault(out, "LARGE", *line)?,
        Report::Written(bytes) => out.extend_from_slice(bytes.as_slice())?,
    }
    Ok(())
}
