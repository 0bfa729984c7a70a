ghost use Rattle.std.specs.Prelude.{◌≡◌, ◌↔◌, ◌⊎◌, ◌<◌, map, length, slice_get, Some, IsTrue, OnOk, IfOk};
ghost use Rattle.dj_report.specs.trusted.Lines.{file_line};
ghost use Rattle.dj_report.specs.Lines.{Adds};
ghost use Rattle.dj_hierarchy_rule.specs.Views.{head_view};
ghost use Rattle.dj_hierarchy_rule.specs.Judged.{AreJudged};
ghost use Rattle.dj_early_rules.specs.Kept.{IsMarkedLine, IsOwnersLine};

use crate::lines::add_file_line_if;
use dj_hierarchy_rule::{ClassHead, judge_heads};
use dj_report::Violation;
use std::alloc::{AllocError, Global};

// The number of the rule HIERARCHY.
const HIERARCHY: u8 = 6;

// As many heads as this need more memory than there is.
const TOO_MANY: usize = 0x4000_0000;

/// The file of a head.
#[derive(Clone, Copy, Debug)]
pub struct Owner<'a> {
    /// The file's path within the folder.
    pub path: &'a str,
    /// Whether two of its fields or two of its methods have the same name and the same descriptor.
    pub repeats: bool,
}

// Whether each head violates the rule; the members of its class are judged elsewhere.
fn judge_all_heads(alloc: Global, heads: &[ClassHead<'_>]) -> Result<Vec<bool>, AllocError>
    ensures { IfOk result (λ marks. AreJudged (map head_view heads.now) marks.items) }
{
    if heads.len() >= TOO_MANY {
        return Err(AllocError);
    }
    judge_heads(alloc, heads).map_err(|_| AllocError)
}

// Whether the file is marked, or repeats a member.
fn is_marked(mark: bool, owner: &Owner<'_>) -> bool
    ensures { IsTrue result ↔ (IsTrue mark ⊎ IsTrue owner.now.repeats) }
{
    mark || owner.repeats
}

// Appends the line of a file that is marked or repeats a member.
fn add_marked_line(
    alloc: Global,
    found: &mut Vec<Violation>,
    owner: &Owner<'_>,
    mark: bool,
) -> Result<(), AllocError>
    ensures { OnOk result (Adds (λ v. (IsTrue mark ⊎ IsTrue owner.now.repeats) × (v ≡ file_line owner.now.path.now 6)) found.old.items found.new.items) }
{
    let violated = is_marked(mark, owner);
    add_file_line_if(alloc, found, owner.path, HIERARCHY, violated)
}

fn owner_at<'a>(owners: &[Owner<'a>], place: usize) -> Owner<'a>
    requires { place < length owners.now }
    ensures { slice_get owners.now place ≡ Some result }
{
    owners[place]
}

fn mark_at(marks: &[bool], place: usize) -> bool
    requires { place < length marks.now }
    ensures { slice_get marks.now place ≡ Some result }
{
    marks[place]
}

// Appends a line for each owner that is marked or repeats a member.
fn add_marked_lines(
    alloc: Global,
    found: &mut Vec<Violation>,
    owners: &[Owner<'_>],
    marks: &[bool],
) -> Result<(), AllocError>
    requires { length marks.now ≡ length owners.now }
    ensures { OnOk result (Adds (IsMarkedLine (length owners.now) owners.now marks.now) found.old.items found.new.items) }
{
    for place in 0..owners.len() {
        let owner = owner_at(owners, place);
        let mark = mark_at(marks, place);
        add_marked_line(alloc, found, &owner, mark)?;
    }
    Ok(())
}

/// Appends a line for each owner whose head violates the rule, or that repeats a member.
pub fn add_hierarchy_lines(
    alloc: Global,
    found: &mut Vec<Violation>,
    heads: &[ClassHead<'_>],
    owners: &[Owner<'_>],
) -> Result<(), AllocError>
    requires { length owners.now ≡ length heads.now }
    ensures { OnOk result (Adds (IsOwnersLine (map head_view heads.now) owners.now) found.old.items found.new.items) }
{
    let marks = judge_all_heads(alloc, heads)?;
    add_marked_lines(alloc, found, owners, &marks)
}
