ghost use Rattle.std.specs.Prelude.{◌≡◌, ◌∷◌};
ghost use Rattle.dj_asm_source.specs.LineReading.{line};
ghost use Rattle.dj_asm_tokens.specs.Views.{placed_view, left_of};
ghost use Rattle.dj_asm_source.specs.LineViews.{line_view};
ghost use Rattle.dj_asm_source.specs.StateViews.{state_view};
ghost use Rattle.dj_asm_source.specs.Stops.{GivesRead};

use crate::reader::Stop;
use crate::start::{line_after, start_of};
use crate::state::{State, may_begin};
use crate::syntax::Line;
use dj_asm_tokens::{LineTokens, Placed, Token};
use std::alloc::Global;

/// The line of a first token and those after it, where the lines before it have come to this state.
pub(crate) fn line<'t>(
    alloc: Global,
    state: State,
    first: Placed<'t>,
    at: LineTokens<'t>,
) -> Result<(Line<'t>, LineTokens<'t>), Stop>
    ensures { GivesRead (λ x. line_view x.0) (λ x. left_of x.1) result (line (state_view state) (placed_view first.entry ∷ left_of at.entry)) }
{
    let wrong = Stop::Wrong {
        line: first.line,
        column: first.column,
    };
    match first.token {
        Token::Word(word) => match start_of(word.bytes) {
            Some(start) => {
                if may_begin(state, start) {
                    line_after(alloc, start, at)
                } else {
                    Err(wrong)
                }
            }
            None => Err(wrong),
        },
        Token::Quoted(_) | Token::Bad | Token::LineEnd => Err(wrong),
    }
}
