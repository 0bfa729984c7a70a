ghost use Rattle.std.specs.Prelude.{◌≡◌, ◌<◌, ◌^◌, [], length, map, All, Some, IfOk, OnOk};
ghost use Rattle.dj_resolution.specs.Linked.{Linked};
ghost use Rattle.dj_link_rules.specs.Constants.{IsDirectoryOf};
ghost use Rattle.dj_model.specs.trusted.Program.{Program};
ghost use Rattle.dj_report.specs.Lines.{Adds};
ghost use Rattle.dj_file_rules.specs.Views.{path_file_view};
ghost use Rattle.dj_early_rules.specs.trusted.Rules.{IsAmongLoneLines, IsEarlyLine};
ghost use Rattle.dj_early_rules.specs.Rules.{AreEarlyViolations};
ghost use Rattle.dj_rules.specs.Judged.{HasLinker};
ghost use Rattle.dj_rules.specs.trusted.Lines.{IsLinkedLine};
ghost use Rattle.dj_rules.specs.Late.{HasLent, IsReady};
ghost use Rattle.dj_rules.specs.Reported.{IsReportedFile};
ghost use Rattle.dj_rules.specs.Kept.{AreKept};

use crate::kept::{Kept, keep_file};
use crate::lent::Lent;
use crate::views::judge_file;
use dj_early_rules::{GoodFile, add_duplicate_lines, add_hierarchy_lines};
use dj_file_rules::RulesError;
use dj_link_rules::unmakeable_classes;
use dj_member_index::Directory;
use dj_report::{PathFile, Violation, Violations, add_in_order, in_order};
use dj_resolution::Linker;
use std::alloc::{AllocError, Global};

/// Lines of the report, in any order, with repeats.
#[derive(Drop)]
pub struct JudgedFiles {
    /// Those of the rules 1 to 16.
    pub early: Vec<Violation>,
    /// Those of the rules 17 to 19.
    pub late: Vec<Violation>,
}

// The same as `judge_file`, with the lines sorted among themselves. So all lines are in order where the files are.
fn judge_in_order<'a>(
    alloc: Global,
    found: &mut JudgedFiles,
    lent: Option<Lent<'_, '_>>,
    file: &PathFile<'a>,
) -> Result<Option<GoodFile<'a>>, AllocError>
    requires lent { IsReady lent }
    requires short { length file.now.bytes.now < 2 ^ 32 }
    ensures { IfOk result (IsReportedFile file.now (HasLent lent.entry) found.old found.new) }
{
    let mut own = JudgedFiles {
        early: Vec::new(alloc),
        late: Vec::new(alloc),
    };
    let good = judge_file(alloc, &mut own, lent, file)?;
    let JudgedFiles { early, late } = own;
    add_in_order(&mut found.early, early)?;
    add_in_order(&mut found.late, late)?;
    Ok(good)
}

// Judges all files in turn, and returns what is kept of them.
fn judge_all<'a>(
    alloc: Global,
    found: &mut JudgedFiles,
    lent: Option<Lent<'_, '_>>,
    files: &[PathFile<'a>],
) -> Result<Kept<'a>, AllocError>
    requires lent { IsReady lent }
    requires short { All (λ file. length file.bytes.now < 2 ^ 32) files.now }
    ensures early { OnOk result (Adds (IsAmongLoneLines (map path_file_view files.now)) found.old.early.items found.new.early.items) }
    ensures late { OnOk result ((program : Program) → HasLent lent.entry program → Adds (IsLinkedLine program (map path_file_view files.now)) found.old.late.items found.new.late.items) }
    ensures kept { IfOk result (AreKept files.now) }
{
    let mut kept = Kept {
        named: Vec::new(alloc),
        heads: Vec::new(alloc),
        owners: Vec::new(alloc),
    };
    for file in files {
        let good = judge_in_order(alloc, found, lent, file)?;
        keep_file(&mut kept, file.path, good)?;
    }
    Ok(kept)
}

// Judges files by the rules 1 to 16 and, where classes are borrowed, by the rules 17 to 19 too.
fn judge_lent(
    alloc: Global,
    files: &[PathFile<'_>],
    lent: Option<Lent<'_, '_>>,
) -> Result<JudgedFiles, AllocError>
    requires lent { IsReady lent }
    requires short { All (λ file. length file.bytes.now < 2 ^ 32) files.now }
    ensures early { IfOk result (λ judged. Adds (IsEarlyLine (map path_file_view files.now)) [] judged.early.items) }
    ensures late { IfOk result (λ judged. (program : Program) → HasLent lent.entry program
        → Adds (IsLinkedLine program (map path_file_view files.now)) [] judged.late.items) }
{
    let mut found = JudgedFiles {
        early: Vec::new(alloc),
        late: Vec::new(alloc),
    };
    let kept = judge_all(alloc, &mut found, lent, files)?;
    add_duplicate_lines(alloc, &mut found.early, &kept.named)?;
    add_hierarchy_lines(alloc, &mut found.early, &kept.heads, &kept.owners)?;
    Ok(found)
}

// Judges files whose classes are linked by the rules 1 to 19. Where there is a directory, it is that of the linked classes.
fn judge_linked_by(
    alloc: Global,
    files: &[PathFile<'_>],
    linker: &Linker,
    directory: Option<&Directory<'_>>,
) -> Result<JudgedFiles, AllocError>
    requires short { All (λ file. length file.bytes.now < 2 ^ 32) files.now }
    requires plain { linker.now.prefix ≡ [] }
    requires same { IsDirectoryOf linker.now.program directory }
    ensures early { IfOk result (λ judged. Adds (IsEarlyLine (map path_file_view files.now)) [] judged.early.items) }
    ensures late { IfOk result (λ judged. Adds (IsLinkedLine linker.now.program (map path_file_view files.now)) [] judged.late.items) }
{
    let unmakeable = unmakeable_classes(alloc, linker.classes())?;
    let lent = Lent {
        linker,
        directory,
        unmakeable: &unmakeable,
    };
    judge_lent(alloc, files, Some(lent))
}

// Judges files whose classes are linked by the rules 1 to 19.
fn judge_linked(
    alloc: Global,
    files: &[PathFile<'_>],
    linker: &Linker,
) -> Result<JudgedFiles, AllocError>
    requires short { All (λ file. length file.bytes.now < 2 ^ 32) files.now }
    requires plain { linker.now.prefix ≡ [] }
    ensures early { IfOk result (λ judged. Adds (IsEarlyLine (map path_file_view files.now)) [] judged.early.items) }
    ensures late { IfOk result (λ judged. Adds (IsLinkedLine linker.now.program (map path_file_view files.now)) [] judged.late.items) }
{
    let directory = linker.directory(alloc)?;
    match &directory {
        Some(directory) => judge_linked_by(alloc, files, linker, Some(directory)),
        None => judge_linked_by(alloc, files, linker, None),
    }
}

/// Judges files by the rules 1 to 16, and, where their classes are linked, by the rules 17 to 19 too. Each file is read once.
pub fn judge_files(
    alloc: Global,
    files: &[PathFile<'_>],
    linker: Option<&Linker>,
) -> Result<JudgedFiles, AllocError>
    requires short { All (λ file. length file.bytes.now < 2 ^ 32) files.now }
    requires plain { (linked : Linked) → HasLinker linker linked → linked.prefix ≡ [] }
    ensures early { IfOk result (λ judged. Adds (IsEarlyLine (map path_file_view files.now)) [] judged.early.items) }
    ensures late { IfOk result (λ judged. (linked : Linked) → HasLinker linker.entry linked
        → Adds (IsLinkedLine linked.program (map path_file_view files.now)) [] judged.late.items) }
{
    let Some(linker) = linker else {
        return judge_lent(alloc, files, None);
    };
    judge_linked(alloc, files, linker)
}

/// All violations of the rules 1 to 16, in order, each once.
pub fn rules(alloc: Global, files: &[PathFile<'_>]) -> Result<Violations, RulesError>
    requires { All (λ file. length file.bytes.now < 2 ^ 32) files.now }
    ensures { IfOk result (AreEarlyViolations (map path_file_view files.now)) }
{
    let judged = judge_files(alloc, files, None)?;
    Ok(in_order(judged.early))
}
