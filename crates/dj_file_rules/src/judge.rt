ghost use Rattle.std.specs.Prelude.{◌≡◌, ◌<◌, ◌^◌, [], ◌∷◌, length, map, All, IfOk};
ghost use Rattle.dj_file_rules.specs.Reads.{AreJudgedAs};
ghost use Rattle.dj_file_rules.specs.Views.{path_file_view};

use crate::error::RulesError;
use crate::files::{add_file_lines, rules};
use crate::view::{FileView, view_file};
use dj_report::{PathFile, Violations, in_order};
use std::alloc::Global;

/// What one pass over files found.
#[derive(Debug, Drop)]
pub struct Judged<'a> {
    /// All violations of the rules MALFORMED, VERSION, NAME, NATIVE and FINALIZER, in order, each once.
    pub violations: Violations,
    /// The view of the file where it is the only one.
    pub only: Option<FileView<'a>>,
}

// Reads and judges a file, and keeps its view.
fn judge_one<'a>(alloc: Global, file: &PathFile<'a>) -> Result<Judged<'a>, RulesError>
    requires { length file.now.bytes.now < 2 ^ 32 }
    ensures { IfOk result (AreJudgedAs (path_file_view file.now ∷ [])) }
{
    let view = view_file(alloc, file.bytes)?;
    let mut found = Vec::new(alloc);
    add_file_lines(alloc, &mut found, file, &view)?;
    Ok(Judged {
        violations: in_order(found),
        only: Some(view),
    })
}

// Reads and judges files. The view of each is dropped before the next is read.
fn judge_each<'a>(alloc: Global, files: &[PathFile<'a>]) -> Result<Judged<'a>, RulesError>
    requires short { All (λ file. length file.bytes.now < 2 ^ 32) files.now }
    requires not_one { length files.now ≡ 1 → ⊥ }
    ensures { IfOk result (AreJudgedAs (map path_file_view files.now)) }
{
    Ok(Judged {
        violations: rules(alloc, files)?,
        only: None,
    })
}

/// Reads and judges files. A view is kept only where there is one file, so that memory holds little more than the files.
pub fn judge_files<'a>(alloc: Global, files: &[PathFile<'a>]) -> Result<Judged<'a>, RulesError>
    requires { All (λ file. length file.bytes.now < 2 ^ 32) files.now }
    ensures { IfOk result (AreJudgedAs (map path_file_view files.now)) }
{
    match files {
        [file] => judge_one(alloc, file),
        _ => judge_each(alloc, files),
    }
}
