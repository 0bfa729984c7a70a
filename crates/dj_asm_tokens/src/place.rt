ghost use Rattle.std.specs.Prelude.{◌≡◌, ◌+◌, ◌^◌, ◌<◌, false, length, slice_index};
ghost use Rattle.dj_asm_tokens.specs.trusted.Words.{is_blank};

use crate::bytes::is_blank;
use crate::piece::piece_at;
use crate::token::Placed;

/// A place in a line: the bytes that are left of it.
#[derive(Clone, Copy)]
pub(crate) struct Place<'t> {
    pub line: u32,
    pub column: u32,
    pub rest: &'t [u8],
    pub ghost fits: { column + length rest.now < 2 ^ 32 },
}

impl<'t> Place<'t> {
    ghost use Rattle.std.specs.Prelude.{◌∷◌, [], MatchOption, IfSome};
    ghost use Rattle.dj_asm_tokens.specs.Views.{placed_view};
    ghost use Rattle.dj_asm_tokens.specs.Views.{left_in_line, end_of};

    /// The next token of the line, and the place after it.
    #[tactic(auto, using(crate::proofs::LineLaws::no_rest, crate::proofs::LineLaws::step_token, crate::proofs::LineLaws::at_comment))]
    pub(crate) fn next(self) -> Option<(Placed<'t>, Place<'t>)>
        ensures token { MatchOption result (left_in_line self.entry ≡ [])
            (λ x. left_in_line self.entry ≡ placed_view x.0 ∷ left_in_line x.1) }
        ensures line { IfSome result (λ x. x.1.line ≡ self.entry.line) }
        ensures ends { IfSome result (λ x. end_of x.1 ≡ end_of self.entry) }
    {
        let place = self.at_word();
        if place.rest.is_empty() {
            return None;
        }
        let piece = piece_at(place.rest);
        match piece.token {
            None => None,
            Some(token) => Some((
                Placed {
                    line: place.line,
                    column: place.column,
                    token,
                },
                Place {
                    line: place.line,
                    column: place.column + piece.size as u32,
                    rest: &place.rest[piece.size..],
                },
            )),
        }
    }

    /// The place after the blanks at this one.
    #[tactic(auto, using(crate::proofs::LineLaws::step_blank))]
    fn at_word(self) -> Place<'t>
        ensures tokens { left_in_line result ≡ left_in_line self.entry }
        ensures word { is_blank (slice_index result.rest.now 0) ≡ false }
        ensures line { result.line ≡ self.entry.line }
        ensures ends { end_of result ≡ end_of self.entry }
    {
        let mut column = self.column;
        let mut rest = self.rest;
        while let [first, after @ ..] = rest {
            if !is_blank(*first) {
                break;
            }
            column += 1;
            rest = after;
        }
        Place {
            line: self.line,
            column,
            rest,
        }
    }
}
