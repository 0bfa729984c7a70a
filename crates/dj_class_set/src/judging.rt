//! The violations of files by a library, and how their classes are linked with it.
ghost use Rattle.std.specs.Prelude.{◌<◌, ◌≤◌, ◌^◌, ◌↔◌, List, length, map, All, IfOk, IsTrue};
ghost use Rattle.dj_names.specs.trusted.Library.{LibraryClass};
ghost use Rattle.dj_library_types.specs.Views.{library_view};
ghost use Rattle.dj_file_rules.specs.Views.{path_file_view};
ghost use Rattle.dj_class_set.specs.trusted.Checked.{HoldsHierarchy};
ghost use Rattle.dj_class_set.specs.Late.{HasHierarchyLine, IsJudging, IsJudgedSet, LinksFiles};
ghost use Rattle.dj_class_set.specs.trusted.Limits.{most_files};

use crate::late::{Links, link_files};
use dj_library_types::Library;
use dj_report::{PathFile, Violation, add_in_order};
use dj_resolution::Linker;
use dj_rules::{JudgedFiles, judge_files};
use std::alloc::{AllocError, Global};

// The number of the rule HIERARCHY. Where it or one before it is violated, the rules 17 to 20 are not judged.
const HIERARCHY: u8 = 6;

/// What is known of files once they were judged by the rules 1 to 19.
#[derive(Drop)]
pub struct JudgedSet {
    /// Their violations, in any order, with repeats.
    pub found: Vec<Violation>,
    /// What links their classes with those of the library, where none of the rules 1 to 6 is violated.
    pub linker: Option<Linker>,
}

// Whether one of the lines is of the rules 1 to 6.
fn breaks_hierarchy(lines: &[Violation]) -> bool
    ensures { IsTrue result ↔ HasHierarchyLine lines.now }
{
    for line in lines {
        if line.rule <= HIERARCHY {
            return true;
        }
    }
    false
}

// Judges files that violate one of the rules 1 to 6: no later rule than 16 is judged.
fn judge_broken(alloc: Global, files: &[PathFile<'_>]) -> Result<JudgedSet, AllocError>
    requires short { All (λ file. length file.bytes.now < 2 ^ 32) files.now }
    requires broken { HoldsHierarchy (map path_file_view files.now) → ⊥ }
    ensures { (library : List LibraryClass) → IfOk result (IsJudgedSet library (map path_file_view files.now)) }
{
    let JudgedFiles { early, late: _ } = judge_files(alloc, files, None)?;
    Ok(JudgedSet {
        found: early,
        linker: None,
    })
}

// Judges files that are linked.
fn judge_linked(
    alloc: Global,
    files: &[PathFile<'_>],
    linker: Linker,
) -> Result<JudgedSet, AllocError>
    requires short { All (λ file. length file.bytes.now < 2 ^ 32) files.now }
    requires links { (library : List LibraryClass) × LinksFiles library (map path_file_view files.now) linker }
    ensures { (library : List LibraryClass) → LinksFiles library (map path_file_view files.now) linker
        → IfOk result (IsJudgedSet library (map path_file_view files.now)) }
{
    let JudgedFiles { early, late } = judge_files(alloc, files, Some(&linker))?;
    if breaks_hierarchy(&early) {
        return Ok(JudgedSet {
            found: early,
            linker: None,
        });
    }
    let mut found = early;
    add_in_order(&mut found, late)?;
    Ok(JudgedSet {
        found,
        linker: Some(linker),
    })
}

/// Judges files by the rules 1 to 19, with the library of `check` or with that of `raw`.
pub fn judge_set(
    alloc: Global,
    files: &[PathFile<'_>],
    library: &Library,
) -> Result<JudgedSet, AllocError>
    requires few { length files.now ≤ most_files }
    requires short { All (λ file. length file.bytes.now < 2 ^ 32) files.now }
    requires library { IsJudging (library_view library.now) }
    ensures { IfOk result (IsJudgedSet (library_view library.now) (map path_file_view files.now)) }
{
    match link_files(alloc, files, library)? {
        Links::Linked(linker) => judge_linked(alloc, files, linker),
        Links::NotClassFile => judge_broken(alloc, files),
        Links::SharedName => judge_broken(alloc, files),
        Links::Cycle => judge_broken(alloc, files),
    }
}
