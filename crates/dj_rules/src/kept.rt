ghost use Rattle.std.specs.Prelude.{Some, OnOk};
ghost use Rattle.dj_rules.specs.Kept.{Keeps};

use dj_early_rules::{GoodFile, NamedFile, Owner};
use dj_hierarchy_rule::ClassHead;
use std::alloc::AllocError;

/// What is kept of files.
#[derive(Drop)]
pub struct Kept<'a> {
    /// All files, in turn.
    pub named: Vec<NamedFile<'a>>,
    /// The heads of those that don't violate rule 1.
    pub heads: Vec<ClassHead<'a>>,
    /// The files of the heads, each at its head's place.
    pub owners: Vec<Owner<'a>>,
}

// Keeps a file that doesn't violate rule 1.
fn keep_good<'a>(kept: &mut Kept<'a>, path: &'a str, good: GoodFile<'a>) -> Result<(), AllocError>
    ensures { OnOk result (Keeps path.entry (Some good.entry) kept.old kept.new) }
{
    let GoodFile { head, repeats } = good;
    kept.named.push(NamedFile {
        path,
        name: Some(head.name),
    })?;
    kept.heads.push(head)?;
    kept.owners.push(Owner { path, repeats })?;
    Ok(())
}

/// Keeps a file.
pub fn keep_file<'a>(
    kept: &mut Kept<'a>,
    path: &'a str,
    good: Option<GoodFile<'a>>,
) -> Result<(), AllocError>
    ensures { OnOk result (Keeps path.entry good.entry kept.old kept.new) }
{
    match good {
        Some(good) => keep_good(kept, path, good),
        None => {
            kept.named.push(NamedFile { path, name: None })?;
            Ok(())
        }
    }
}
