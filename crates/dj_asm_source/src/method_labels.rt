ghost use Rattle.std.specs.Prelude.{◌≡◌, ◌<◌, ◌^◌, length, map, IfOk};
ghost use Rattle.dj_asm_source.specs.trusted.Lines.{Label};
ghost use Rattle.dj_asm_source.specs.trusted.Labels.{instruction_count};
ghost use Rattle.dj_asm_source.specs.LineViews.{line_view};
ghost use Rattle.dj_asm_tokens.specs.WordReading.{row_of};
ghost use Rattle.dj_asm_source.specs.LabelReading.{marks_of};

use crate::label_table::LabelTable;
use crate::labelling::instruction_count;
use crate::syntax::Line;
use dj_asm_tokens::Word;
use std::alloc::{AllocError, Global};
use std::marker::Model;

/// The labels of a method's lines.
#[derive(Drop)]
pub struct MethodLabels<'l, 't> {
    lines: &'l [Line<'t>],
    table: LabelTable<'l, 't>,
    count: u32,
    ghost rows: { (label : Label) → row_of table label ≡ row_of (marks_of (map line_view lines.now)) label },
    ghost counted: { count ≡ instruction_count (map line_view lines.now) },
}

impl<'l, 't> Model for MethodLabels<'l, 't> {
    ghost use Rattle.std.specs.Prelude.{List, map};
    ghost use Rattle.dj_asm_source.specs.trusted.Lines.{Line};
    ghost use Rattle.dj_asm_source.specs.LineViews.{line_view};

    ghost Value = { List Line };

    ghost view = { λ labels. map line_view labels.lines.now };
}

impl<'l, 't> MethodLabels<'l, 't> {
    ghost use Rattle.dj_asm_tokens.specs.Views.{units_of};
    ghost use Rattle.dj_asm_source.specs.trusted.Labels.{label_number};

    /// The labels of these lines.
    pub fn of(alloc: Global, lines: &'l [Line<'t>]) -> Result<MethodLabels<'l, 't>, AllocError>
        requires { length lines.now < 2 ^ 32 }
        ensures { IfOk result (λ labels. labels ≡ map line_view lines.now) }
    {
        let table = LabelTable::of(alloc, lines)?;
        let count = instruction_count(lines) as u32;
        Ok(MethodLabels {
            lines,
            table,
            count,
        })
    }

    /// How many instructions come before the first line that defines the label, and all of them where none does.
    #[tactic(auto, using(crate::proofs::LabelNumbers::number_of_mark, crate::proofs::LabelNumbers::number_of_none))]
    pub fn number(&self, label: Word<'t>) -> u32
        ensures { result ≡ label_number self.now (units_of label.entry) }
    {
        match self.table.mark(label) {
            Some(mark) => mark.number,
            None => self.count,
        }
    }
}
