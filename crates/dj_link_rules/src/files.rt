ghost use Rattle.std.specs.Prelude.{◌≡◌, ◌<◌, ◌^◌, [], length, map, All, IfOk, OnOk};
ghost use Rattle.dj_report.specs.trusted.Lines.{AreExactly};
ghost use Rattle.dj_report.specs.Lines.{Adds};
ghost use Rattle.dj_file_rules.specs.Views.{path_file_view};
ghost use Rattle.dj_early_rules.specs.trusted.Malformed.{IsRefused};
ghost use Rattle.dj_link_rules.specs.trusted.Lines.{IsLinkLine};
ghost use Rattle.dj_link_rules.specs.Constants.{IsDirectoryOf};

use crate::class::add_file_lines;
use crate::classes::unmakeable_classes;
use crate::error::LinkError;
use dj_member_index::Directory;
use dj_report::{PathFile, Violation, Violations, in_order};
use dj_resolution::Linker;
use std::alloc::Global;

// Appends all lines of the rules 17 and 18, of files that don't violate rule 1. The directory, where there is one, is that of the linked classes.
fn add_lines_by(
    alloc: Global,
    found: &mut Vec<Violation>,
    linker: &Linker,
    directory: Option<&Directory<'_>>,
    files: &[PathFile<'_>],
) -> Result<(), LinkError>
    requires plain { linker.now.prefix ≡ [] }
    requires same { IsDirectoryOf linker.now.program directory }
    requires short { All (λ file. length file.bytes.now < 2 ^ 32) files.now }
    requires whole { All (λ file. IsRefused file.bytes.now → ⊥) files.now }
    ensures { OnOk result (Adds (IsLinkLine linker.now.program (map path_file_view files.now)) found.old.items found.new.items) }
{
    let unmakeable = unmakeable_classes(alloc, linker.classes())?;
    for file in files {
        add_file_lines(alloc, found, linker, directory, &unmakeable, file)?;
    }
    Ok(())
}

/// Appends all lines of the rules 17 and 18, of files that don't violate rule 1.
pub fn add_link_lines(
    alloc: Global,
    found: &mut Vec<Violation>,
    linker: &Linker,
    files: &[PathFile<'_>],
) -> Result<(), LinkError>
    requires plain { linker.now.prefix ≡ [] }
    requires short { All (λ file. length file.bytes.now < 2 ^ 32) files.now }
    requires whole { All (λ file. IsRefused file.bytes.now → ⊥) files.now }
    ensures { OnOk result (Adds (IsLinkLine linker.now.program (map path_file_view files.now)) found.old.items found.new.items) }
{
    let directory = linker.directory(alloc)?;
    match &directory {
        Some(directory) => add_lines_by(alloc, found, linker, Some(directory), files),
        None => add_lines_by(alloc, found, linker, None, files),
    }
}

/// All violations of the rules 17 and 18 by files that don't violate rule 1, in order, each once.
pub fn links(
    alloc: Global,
    linker: &Linker,
    files: &[PathFile<'_>],
) -> Result<Violations, LinkError>
    requires plain { linker.now.prefix ≡ [] }
    requires short { All (λ file. length file.bytes.now < 2 ^ 32) files.now }
    requires whole { All (λ file. IsRefused file.bytes.now → ⊥) files.now }
    ensures { IfOk result (AreExactly (IsLinkLine linker.now.program (map path_file_view files.now))) }
{
    let mut found = Vec::new(alloc);
    add_link_lines(alloc, &mut found, linker, files)?;
    Ok(in_order(found))
}
