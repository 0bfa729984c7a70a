ghost use Rattle.std.specs.Prelude.{◌≡◌, ◌↔◌, IsTrue, OnOk};
ghost use Rattle.dj_report.specs.Lines.{Gains};
ghost use Rattle.dj_early_rules.specs.Marks.{mark_at};

use std::alloc::AllocError;

/// A part of a file that may have lines: a member, by the indexes of its name and descriptor, as a whole or at the instruction of this number.
#[derive(Clone, Copy, Debug, PartialEq, Eq, PartialOrd, Ord)]
pub struct MarkPlace {
    pub name: u16,
    pub desc: u16,
    pub number: Option<u32>,
}

/// A violation: a rule and a place. A line is made of it only where one is needed.
#[derive(Clone, Copy, Debug, PartialEq, Eq, PartialOrd, Ord)]
pub struct Mark {
    pub place: MarkPlace,
    pub rule: u8,
}

/// Appends the mark of a rule, if it is violated.
pub fn add_mark_if(
    marks: &mut Vec<Mark>,
    place: MarkPlace,
    rule: u8,
    violated: bool,
) -> Result<(), AllocError>
    ensures { OnOk result (Gains (λ mark. IsTrue violated × (mark ≡ mark_at place rule)) marks.old.items marks.new.items) }
{
    if violated {
        marks.push(Mark { place, rule })?;
    }
    Ok(())
}
