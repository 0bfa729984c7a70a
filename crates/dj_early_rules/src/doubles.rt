ghost use Rattle.std.specs.Prelude.{◌≡◌, ◌↔◌, List, ℕ, Contains, IsTrue, OnOk, IfOk};
ghost use Rattle.dj_report.specs.Lines.{Adds, Gains, IsLineAmong};
ghost use Rattle.dj_early_rules.specs.Doubles.{texts_in, IsText, IsRepeated, IsNamedAmong, IsLineAmongNames, IsRepeatedLine};

use crate::lines::add_file_line_if;
use dj_report::Violation;
use std::alloc::{AllocError, Global};
use std::collections::BTreeSet;

// The number of the rule DUPLICATE.
const DUPLICATE: u8 = 5;

/// A file and the name of its class, which is known where the file doesn't violate rule 1.
#[derive(Clone, Copy, Debug)]
pub struct NamedFile<'a> {
    /// The file's path within the folder.
    pub path: &'a str,
    /// The name of its class.
    pub name: Option<&'a [u8]>,
}

// Notes the name of a file as seen, and as seen twice where it was seen before.
fn note_name<'a>(
    seen: &mut BTreeSet<&'a [u8]>,
    twice: &mut BTreeSet<&'a [u8]>,
    file: &NamedFile<'a>,
) -> Result<(), AllocError>
    ensures seen { OnOk result (Gains (IsText file.now.name) (texts_in seen.old) (texts_in seen.new)) }
    ensures twice { OnOk result (Gains (λ t. IsText file.now.name t × Contains (texts_in seen.old) t) (texts_in twice.old) (texts_in twice.new)) }
{
    let Some(name) = file.name else {
        return Ok(());
    };
    let new = seen.insert(name)?;
    if !new {
        twice.insert(name)?;
    }
    Ok(())
}

// The names that two of the files have. They are looked up in a tree, so the work grows as n log n.
fn repeated_names<'a>(
    alloc: Global,
    files: &[NamedFile<'a>],
) -> Result<BTreeSet<&'a [u8]>, AllocError>
    ensures { IfOk result (λ names. (t : List ℕ) → Contains (texts_in names) t ↔ IsRepeated files.now t) }
{
    let mut seen = BTreeSet::new(alloc);
    let mut twice = BTreeSet::new(alloc);
    for file in files {
        note_name(&mut seen, &mut twice, file)?;
    }
    Ok(twice)
}

// Whether the name of the file is one of these.
fn is_named_among(names: &BTreeSet<&[u8]>, file: &NamedFile<'_>) -> bool
    ensures { IsTrue result ↔ IsNamedAmong (texts_in names.now) file.now }
{
    match file.name {
        Some(name) => names.contains(name),
        None => false,
    }
}

// Appends a line for each file whose name is one of these.
fn add_lines_among(
    alloc: Global,
    found: &mut Vec<Violation>,
    names: &BTreeSet<&[u8]>,
    files: &[NamedFile<'_>],
) -> Result<(), AllocError>
    ensures { OnOk result (Adds (IsLineAmong (IsLineAmongNames (texts_in names.now)) files.now) found.old.items found.new.items) }
{
    for file in files {
        let double = is_named_among(names, file);
        add_file_line_if(alloc, found, file.path, DUPLICATE, double)?;
    }
    Ok(())
}

/// Appends a line for each file whose class's name another file has too.
pub fn add_duplicate_lines(
    alloc: Global,
    found: &mut Vec<Violation>,
    files: &[NamedFile<'_>],
) -> Result<(), AllocError>
    ensures { OnOk result (Adds (IsLineAmong (IsRepeatedLine files.now) files.now) found.old.items found.new.items) }
{
    let names = repeated_names(alloc, files)?;
    add_lines_among(alloc, found, &names, files)
}
