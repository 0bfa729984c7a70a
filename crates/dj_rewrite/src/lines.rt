//! The lines of rule 21.
ghost use Rattle.std.specs.Prelude.{◌≡◌, IfOk, OnOk};
ghost use Rattle.dj_class.specs.trusted.ClassFile.{IsValid};
ghost use Rattle.dj_class.specs.Views.{class_of};
ghost use Rattle.dj_report.specs.Lines.{Adds, IsLineAmong};
ghost use Rattle.dj_image.specs.Imaged.{program_of};
ghost use Rattle.dj_rewrite.specs.Answers.{IsKnownClass};
ghost use Rattle.dj_rewrite.specs.Rule.{line_of, IsTooLargeLineIn};

use crate::file::{FileAnswer, rewrite_file};
use dj_class::ClassView;
use dj_early_rules::class_name;
use dj_image::Image;
use dj_names::Name;
use dj_report::{Violation, add_line};
use dj_shape::class_path;
use std::alloc::{AllocError, Global};

// The number of TOO_LARGE.
const TOO_LARGE: u8 = 21;

// The line of a class, or of a member of this text.
fn line(alloc: Global, view: &ClassView<'_>, member: &Name) -> Result<Violation, AllocError>
    requires { IsValid (class_of view.now) }
    ensures { IfOk result (λ made. made ≡ line_of (class_of view.now) member.now) }
{
    let path = class_path(alloc, class_name(view))?;
    let member = Name::from_slice(alloc, member.as_slice())?;
    Ok(Violation {
        path,
        member,
        number: None,
        rule: TOO_LARGE,
    })
}

// Appends the lines of a class's members of these texts.
fn add_member_lines(
    alloc: Global,
    found: &mut Vec<Violation>,
    view: &ClassView<'_>,
    members: &[Name],
) -> Result<(), AllocError>
    requires { IsValid (class_of view.now) }
    ensures { OnOk result (Adds (IsLineAmong (λ member v. v ≡ line_of (class_of view.now) member) members.now) found.old.items found.new.items) }
{
    for member in members {
        let made = line(alloc, view, member)?;
        add_line(found, made)?;
    }
    Ok(())
}

/// Appends the lines of a class.
pub(crate) fn add_lines(
    alloc: Global,
    image: &Image,
    found: &mut Vec<Violation>,
    view: &ClassView<'_>,
) -> Result<(), AllocError>
    requires { IsKnownClass (program_of image.now) (class_of view.now) }
    ensures { OnOk result (Adds (IsTooLargeLineIn (program_of image.now) (class_of view.now)) found.old.items found.new.items) }
{
    let answer = rewrite_file(alloc, image, view)?;
    match answer {
        FileAnswer::Written(_) => Ok(()),
        FileAnswer::TooLarge(members) => add_member_lines(alloc, found, view, &members),
    }
}
