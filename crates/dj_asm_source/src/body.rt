ghost use Rattle.std.specs.Prelude.{◌≡◌};
ghost use Rattle.dj_asm_source.specs.LineReading.{line_after, CatchLine, FrameLine, LabelLine, OperationLine};
ghost use Rattle.dj_asm_tokens.specs.Views.{units_of, left_of};
ghost use Rattle.dj_asm_source.specs.Stops.{GivesRead};
ghost use Rattle.dj_asm_source.specs.LineViews.{line_view};

use crate::frame::frame;
use crate::frame_type::caught;
use crate::operation::operation;
use crate::reader::{Stop, label, line_end};
use crate::syntax::Line;
use dj_asm_tokens::{LineTokens, Word};
use std::alloc::Global;

/// After `.catch`.
pub(crate) fn catch_line<'t>(
    alloc: Global,
    at: LineTokens<'t>,
) -> Result<(Line<'t>, LineTokens<'t>), Stop>
    ensures { GivesRead (λ x. line_view x.0) (λ x. left_of x.1) result (line_after CatchLine (left_of at.entry)) }
{
    let (class, at) = caught(alloc, at)?;
    let (from, at) = label(at)?;
    let (to, at) = label(at)?;
    let (handler, at) = label(at)?;
    let at = line_end(at)?;
    Ok((
        Line::Catch {
            class,
            from,
            to,
            handler,
        },
        at,
    ))
}

/// After `.frame`.
pub(crate) fn frame_line<'t>(
    alloc: Global,
    at: LineTokens<'t>,
) -> Result<(Line<'t>, LineTokens<'t>), Stop>
    ensures { GivesRead (λ x. line_view x.0) (λ x. left_of x.1) result (line_after FrameLine (left_of at.entry)) }
{
    let (frame, at) = frame(alloc, at)?;
    Ok((Line::Frame(frame), at))
}

/// After a label that is defined.
pub(crate) fn label_line<'t>(
    defined: Word<'t>,
    at: LineTokens<'t>,
) -> Result<(Line<'t>, LineTokens<'t>), Stop>
    ensures { GivesRead (λ x. line_view x.0) (λ x. left_of x.1) result (line_after (LabelLine (units_of defined.entry)) (left_of at.entry)) }
{
    let at = line_end(at)?;
    Ok((Line::Label(defined), at))
}

/// After the word of an instruction.
pub(crate) fn operation_line<'t>(
    alloc: Global,
    op: u8,
    at: LineTokens<'t>,
) -> Result<(Line<'t>, LineTokens<'t>), Stop>
    ensures { GivesRead (λ x. line_view x.0) (λ x. left_of x.1) result (line_after (OperationLine op) (left_of at.entry)) }
{
    let (operation, at) = operation(alloc, op, at)?;
    Ok((Line::Does(operation), at))
}
