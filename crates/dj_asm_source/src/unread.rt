ghost use Rattle.std.specs.Prelude.{◌≡◌, ◌+◌, ◌^◌, ◌<◌, ◌≤◌, ◌∷◌, [], length, List};
ghost use Rattle.std.specs.Str.Lines.{lines};
ghost use Rattle.dj_asm_source.specs.LineReading.{line, missing};
ghost use Rattle.dj_asm_tokens.specs.trusted.Words.{Placed as PlacedToken};
ghost use Rattle.dj_asm_source.specs.Reading.{Got};
ghost use Rattle.dj_asm_source.specs.LineViews.{line_view};
ghost use Rattle.dj_asm_tokens.specs.Views.{placed_view, left_of};
ghost use Rattle.dj_asm_source.specs.StateViews.{state_view};
ghost use Rattle.dj_asm_source.specs.Unread.{UnreadLines, all_left, read_after, end_number, stop_fault, GivesLine, GivesRow, LeavesRow};

use crate::error::AsmError;
use crate::one_line::line;
use crate::reader::Stop;
use crate::state::{State, after, is_final};
use crate::syntax::Line;
use dj_asm_tokens::{LineTokens, Placed, line_at, lines_after};
use std::alloc::Global;
use std::marker::Model;

/// A line of a text, as it is read.
#[derive(Drop)]
pub(crate) enum Row<'t> {
    /// Its number and what it means.
    Said(u32, Line<'t>),
    /// It has no words.
    Blank,
    /// There is no line left, and the text may end here.
    End,
}

/// The lines that are left to read of a text.
#[derive(Drop)]
pub(crate) struct Unread<'t> {
    state: State,
    number: u32,
    rest: &'t [u8],
    pub ghost counts: { 1 ≤ number },
    pub ghost short: { number + length rest.now < 2 ^ 32 },
}

impl<'t> Model for Unread<'t> {
    ghost use Rattle.dj_asm_source.specs.StateViews.{state_view};
    ghost use Rattle.dj_asm_source.specs.Unread.{UnreadLines};

    ghost Value = { UnreadLines };

    ghost view = { λ u. record { state = state_view u.state; number = u.number; rest = u.rest.now } };
}

impl<'t> Unread<'t> {
    /// All lines of a text.
    pub(crate) fn new(text: &'t [u8]) -> Unread<'t>
        requires { length text.now ≤ 4294967294 }
        ensures { result ≡ all_left text.now }
    {
        Unread {
            state: State::Class,
            number: 1,
            rest: text,
        }
    }

    /// Reads the next line, and returns the first fault of a text's words where they have one that ends here.
    #[tactic(auto, using(crate::proofs::UnreadLaws::blank, crate::proofs::UnreadLaws::worded, crate::proofs::UnreadLaws::said_leaves, crate::proofs::UnreadLaws::blank_leaves))]
    pub(crate) fn row(&mut self, alloc: Global) -> Result<Row<'t>, AsmError>
        ensures row { GivesRow self.old self.new result }
        ensures left { LeavesRow self.old self.new result }
    {
        match line_at(self.rest) {
            Some((bytes, after)) => {
                let number = self.number;
                self.number = number + 1;
                self.rest = after;
                match LineTokens::first(number, bytes) {
                    Some((first, at)) => Ok(Row::Said(number, self.said(alloc, first, at)?)),
                    None => Ok(Row::Blank),
                }
            }
            None => self.end(),
        }
    }

    // The line of a first token and those after it, before the lines that are left.
    #[tactic(auto, using(crate::proofs::UnreadLaws::stopped_line))]
    fn said(
        &mut self,
        alloc: Global,
        first: Placed<'t>,
        at: LineTokens<'t>,
    ) -> Result<Line<'t>, AsmError>
        ensures line { GivesLine (read_after self.old (line self.old.state (placed_view first.entry ∷ left_of at.entry))) self.new result }
        ensures number { self.new.number ≡ self.old.number }
        ensures rest { self.new.rest ≡ self.old.rest }
    {
        match line(alloc, self.state, first, at) {
            Ok((line, _)) => self.went_on(line),
            Err(stop) => Err(self.fault(stop)),
        }
    }

    // A line that was read, after which the state is another.
    #[tactic(auto, using(crate::proofs::UnreadLaws::got_next, crate::proofs::UnreadLaws::got_last))]
    fn went_on(&mut self, line: Line<'t>) -> Result<Line<'t>, AsmError>
        ensures line { (rest : List PlacedToken) → GivesLine (read_after self.old (Got (line_view line.entry) rest)) self.new result }
        ensures number { self.new.number ≡ self.old.number }
        ensures rest { self.new.rest ≡ self.old.rest }
    {
        match after(self.state, &line) {
            Some(state) => {
                self.state = state;
                Ok(line)
            }
            None => Err(self.missing()),
        }
    }

    // The error of a stop.
    fn fault(&self, stop: Stop) -> AsmError
        ensures { result ≡ stop_fault (end_number self.now) stop }
    {
        match stop {
            Stop::Wrong { line, column } => AsmError::Syntax { line, column },
            Stop::Large { line } => AsmError::Large { line },
            Stop::Missing => self.missing(),
            Stop::Memory => AsmError::Memory,
        }
    }

    // A line is missing after the last one.
    fn missing(&self) -> AsmError
        ensures { result ≡ missing (end_number self.now) }
    {
        AsmError::Syntax {
            line: lines_after(self.number, self.rest),
            column: 1,
        }
    }

    // Where no line is left.
    #[tactic(auto, using(crate::proofs::UnreadLaws::ended, crate::proofs::UnreadLaws::none_leaves))]
    fn end(&self) -> Result<Row<'t>, AsmError>
        requires { lines self.now.rest ≡ [] }
        ensures row { GivesRow self.now self.now result }
        ensures left { LeavesRow self.now self.now result }
    {
        if is_final(self.state) {
            Ok(Row::End)
        } else {
            Err(AsmError::Syntax {
                line: self.number,
                column: 1,
            })
        }
    }
}
