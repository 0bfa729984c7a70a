use crate::place::Place;
use crate::token::{Placed, Token};

/// The tokens of a line with words that are left, and its end.
#[derive(Clone, Copy)]
pub struct LineTokens<'t> {
    pub(crate) place: Place<'t>,
    pub(crate) ended: bool,
}

impl<'t> LineTokens<'t> {
    ghost use Rattle.std.specs.Prelude.{◌≡◌, ◌+◌, ◌^◌, ◌<◌, ◌∷◌, [], length, MatchOption};
    ghost use Rattle.dj_asm_tokens.specs.trusted.Words.{line_tokens};
    ghost use Rattle.dj_asm_tokens.specs.Views.{placed_view, left_of};

    /// The first token of a line, and those after it.
    pub fn first(line: u32, bytes: &'t [u8]) -> Option<(Placed<'t>, LineTokens<'t>)>
        requires { 1 + length bytes.now < 2 ^ 32 }
        ensures { MatchOption result (line_tokens (line, bytes.now) ≡ [])
            (λ x. line_tokens (line, bytes.now) ≡ placed_view x.0 ∷ left_of x.1) }
    {
        let start = Place {
            line,
            column: 1,
            rest: bytes,
        };
        match start.next() {
            Some((token, place)) => Some((
                token,
                LineTokens {
                    place,
                    ended: false,
                },
            )),
            None => None,
        }
    }

    /// The next token, and those after it.
    pub fn next(self) -> Option<(Placed<'t>, LineTokens<'t>)>
        ensures { MatchOption result (left_of self.entry ≡ [])
            (λ x. left_of self.entry ≡ placed_view x.0 ∷ left_of x.1) }
    {
        if self.ended {
            return None;
        }
        match self.place.next() {
            Some((token, place)) => Some((
                token,
                LineTokens {
                    place,
                    ended: false,
                },
            )),
            None => Some((
                Placed {
                    line: self.place.line,
                    column: self.place.column + self.place.rest.len() as u32,
                    token: Token::LineEnd,
                },
                LineTokens {
                    place: self.place,
                    ended: true,
                },
            )),
        }
    }
}
