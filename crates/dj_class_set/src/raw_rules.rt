//! The rules that are judged before a run of `raw`.
ghost use Rattle.std.specs.Prelude.{◌≡◌, ◌<◌, ◌≤◌, ◌^◌, ◌++◌, [], List, codes, length, map, All, Some, IfOk, OnOk, slice_get};
ghost use Rattle.std.specs.Option.{option_map};
ghost use Rattle.dj_edge.specs.trusted.Held.{File};
ghost use Rattle.dj_names.specs.trusted.Library.{raw_library};
ghost use Rattle.dj_model.specs.trusted.Program.{method_in, runs_static};
ghost use Rattle.dj_report.specs.trusted.Lines.{file_line};
ghost use Rattle.dj_report.specs.Lines.{Adds};
ghost use Rattle.dj_file_rules.specs.Views.{path_file_view};
ghost use Rattle.dj_class_table.specs.Tables.{methods_at};
ghost use Rattle.dj_class_set.specs.trusted.Limits.{most_files};
ghost use Rattle.dj_class_set.specs.trusted.Checked.{HoldsHierarchy, IsLineBy};
ghost use Rattle.dj_class_set.specs.Late.{IsJudgedSet, LinksFiles};
ghost use Rattle.dj_class_set.specs.RawDecisions.{IsRawDecided};
ghost use Rattle.dj_class_set.specs.RawEntry.{method_has_code, EntryLine};
ghost use Rattle.dj_class_set.specs.trusted.RawRules.{entry_desc, runs_entry};

use crate::judging::{JudgedSet, judge_set};
use dj_library::raw;
use dj_link_rules::is_static;
use dj_names::Name;
use dj_report::{PathFile, Violation, Violations, add_line, in_order};
use dj_resolution::{ClassTable, Linker};
use std::alloc::{AllocError, Global};

// The number of the rule ENTRY.
const ENTRY: u8 = 20;

/// The name of the method that is run.
pub const VERIFY: &[u8] = b"verify";

/// Its descriptor: from an array of bytes to one.
pub const DESCRIPTOR: &[u8] = b"([B)[B";

/// What is known of files once they were judged by the rules of `raw`.
#[derive(Drop)]
pub enum RawDecided {
    /// All their violations, in order, each once; there are some.
    Rejected(Violations),
    /// They have none, and this links their classes with those of the raw library.
    Accepted(Linker),
}

// ---- the entry

// Whether a method has code, and isn't native.
fn has_code(table: &ClassTable, class: u32, member: u32) -> bool
    requires there { class < length table.now }
    requires within { member < length (methods_at table.now class) }
    ensures { Some result ≡ option_map method_has_code (slice_get (methods_at table.now class) member) }
{
    match table.method_native(class, member) {
        Some(_) => false,
        None => table.method_has_body(class, member),
    }
}

// Whether a method is static and has code.
fn runs_static(table: &ClassTable, class: u32, member: u32) -> bool
    requires there { class < length table.now }
    requires within { member < length (methods_at table.now class) }
    ensures { result ≡ runs_static (slice_get (methods_at table.now class) member) }
{
    if is_static(table.method_flags(class, member)) {
        has_code(table, class, member)
    } else {
        false
    }
}

// Whether a class has a static method verify with code.
fn runs_entry_of(table: &ClassTable, class: u32) -> bool
    requires { class < length table.now }
    ensures { result ≡ runs_static (method_in (methods_at table.now class) (codes "verify") entry_desc) }
{
    match table.method_named(class, VERIFY, DESCRIPTOR) {
        Some(member) => runs_static(table, class, member),
        None => false,
    }
}

// Whether a class has this name and a static method verify with code.
fn runs_entry(table: &ClassTable, entry: &[u8]) -> bool
    ensures { result ≡ runs_entry table.now entry.now }
{
    match table.class_named(entry) {
        Some(class) => runs_entry_of(table, class),
        None => false,
    }
}

// ---- the lines

// The line of an entry that isn't there.
fn entry_line(alloc: Global, entry: &[u8]) -> Result<Violation, AllocError>
    ensures { IfOk result (λ line. line ≡ file_line (entry.now ++ codes ".class") 20) }
{
    let mut path = Name::from_slice(alloc, entry)?;
    path.extend(b".class")?;
    let member = Name::new(alloc);
    Ok(Violation {
        path,
        member,
        number: None,
        rule: ENTRY,
    })
}

// Appends the line of an entry that isn't there.
fn add_entry_line(
    alloc: Global,
    found: &mut Vec<Violation>,
    table: &ClassTable,
    entry: &[u8],
) -> Result<(), AllocError>
    ensures { OnOk result (Adds (EntryLine table.now entry.now) found.old.items found.new.items) }
{
    if runs_entry(table, entry) {
        return Ok(());
    }
    let line = entry_line(alloc, entry)?;
    add_line(found, line)?;
    Ok(())
}

// Appends the line of an entry that the linked classes don't have.
fn with_entry_line(
    alloc: Global,
    found: Vec<Violation>,
    linker: &Linker,
    entry: &[u8],
) -> Result<Vec<Violation>, AllocError>
    ensures { IfOk result (λ all. Adds (EntryLine linker.now.program entry.now) found.items all.items) }
{
    let mut all = found;
    add_entry_line(alloc, &mut all, linker.classes(), entry)?;
    Ok(all)
}

// ---- the judgement

// The judgement on files that have these violations of the rules 1 to 19, none of the rules 1 to 6, and are linked.
fn judge_entry(
    alloc: Global,
    found: Vec<Violation>,
    linker: Linker,
    entry: &[u8],
) -> Result<RawDecided, AllocError>
    ensures { (files : List File) → Adds (IsLineBy raw_library files) [] found.items → HoldsHierarchy files × LinksFiles raw_library files linker
        → IfOk result (IsRawDecided files entry.now) }
{
    let lines = with_entry_line(alloc, found, &linker, entry)?;
    let violations = in_order(lines);
    if violations.as_slice().is_empty() {
        return Ok(RawDecided::Accepted(linker));
    }
    Ok(RawDecided::Rejected(violations))
}

// The judgement on files that were judged by the rules 1 to 19.
fn judgement_of(alloc: Global, judged: JudgedSet, entry: &[u8]) -> Result<RawDecided, AllocError>
    ensures { (files : List File) → IsJudgedSet raw_library files judged → IfOk result (IsRawDecided files entry.now) }
{
    let JudgedSet { found, linker } = judged;
    match linker {
        Some(linker) => judge_entry(alloc, found, linker, entry),
        None => Ok(RawDecided::Rejected(in_order(found))),
    }
}

/// Judges files by all rules of `raw`. `entry` is the name of the entry's class.
pub fn judge_raw(
    alloc: Global,
    files: &[PathFile<'_>],
    entry: &[u8],
) -> Result<RawDecided, AllocError>
    requires few { length files.now ≤ most_files }
    requires short { All (λ file. length file.bytes.now < 2 ^ 32) files.now }
    ensures { IfOk result (IsRawDecided (map path_file_view files.now) entry.now) }
{
    let library = raw(alloc).map_err(|_| AllocError)?;
    let judged = judge_set(alloc, files, &library)?;
    judgement_of(alloc, judged, entry)
}
