ghost use Rattle.std.specs.Prelude.{◌≡◌, ◌^◌, ◌<◌, map, length, slice_get, Some, IfOk};
ghost use Rattle.dj_asm_source.specs.LineViews.{line_view};
ghost use Rattle.dj_asm_source.specs.LabelReading.{first_mislabelled, label_error};
ghost use Rattle.dj_asm_source.specs.Readings.{no_lines, with_last};

use crate::error::AsmError;
use crate::labelling::first_mislabelled;
use crate::syntax::Line;
use std::alloc::{AllocError, Global};
use std::marker::Model;

/// The lines of a text that have words, with their numbers in it.
#[derive(Drop)]
pub struct SourceLines<'t> {
    lines: Vec<Line<'t>>,
    numbers: Vec<u32>,
}

impl<'t> Model for SourceLines<'t> {
    ghost use Rattle.std.specs.Prelude.{map};
    ghost use Rattle.dj_asm_source.specs.LineViews.{line_view};
    ghost use Rattle.dj_asm_source.specs.SourceLines.{TextLines};

    ghost Value = { TextLines };

    ghost view = { λ read. record { lines = map line_view read.lines.items; numbers = read.numbers.items } };
}

impl<'t> SourceLines<'t> {
    /// The lines, in their order.
    pub fn lines(&self) -> &[Line<'t>]
        ensures { map line_view result.now ≡ self.now.lines }
    {
        &self.lines
    }

    /// The number of the line after this many.
    pub fn number(&self, place: usize) -> Option<u32>
        ensures { result ≡ slice_get self.now.numbers place }
    {
        self.numbers.get(place).copied()
    }

    /// No lines, and room for this many.
    pub(crate) fn with_room(alloc: Global, room: usize) -> Result<SourceLines<'t>, AllocError>
        ensures { IfOk result (λ read. read ≡ no_lines) }
    {
        Ok(SourceLines {
            lines: Vec::with_capacity(alloc, room)?,
            numbers: Vec::with_capacity(alloc, room)?,
        })
    }

    /// Appends a line and its number.
    pub(crate) fn push(&mut self, number: u32, line: Line<'t>) -> Result<(), AllocError>
        ensures { IfOk result (λ x. self.new ≡ with_last self.old number (line_view line.entry)) }
    {
        self.lines.push(line)?;
        Ok(self.numbers.push(number)?)
    }

    /// The first fault of the labels, where there is one.
    pub(crate) fn label_fault(&self, alloc: Global) -> Result<Option<AsmError>, AllocError>
        requires { length self.now.lines < 2 ^ 32 }
        ensures { IfOk result (λ fault. fault ≡ label_error self.now.numbers (first_mislabelled self.now.lines)) }
    {
        match first_mislabelled(alloc, &self.lines)? {
            None => Ok(None),
            Some(place) => Ok(self.label_error(place)),
        }
    }

    /// The error of the line after this many, where there is one.
    fn label_error(&self, place: usize) -> Option<AsmError>
        ensures { result ≡ label_error self.now.numbers (Some place) }
    {
        let line = self.number(place)?;
        Some(AsmError::Label { line })
    }
}
