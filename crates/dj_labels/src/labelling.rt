ghost use Rattle.std.specs.Prelude.{◌≡◌, ◌^◌, ◌<◌, length, Ok, Err, IfOk, IfErr};
ghost use Rattle.dj_labels.specs.declared.errors.CodeError.{CodeError};
ghost use Rattle.dj_labels.specs.declared.labelled.Labelled.{Labelled};
ghost use Rattle.dj_labels.specs.trusted.Labels.{IsLabelled};
ghost use Rattle.dj_labels.specs.Faults.{Refuses, IsRefused, Yields};
ghost use Rattle.dj_labels.specs.Passes.{AreStarts, AreNumbered, IsNumberingFault};

use crate::errors::CodeError;
use crate::labelled::{Labelled, Labelling};
use crate::rows::ranges_of;
use crate::starts::{StartTable, read_code};
use crate::targets::renumber;
use dj_ops::{CatchRow, Instr, Instrs};
use std::alloc::Global;

/// The instructions with the numbers of their targets in place of the addresses. They start at those of the table.
fn number_instrs(alloc: Global, table: &StartTable, instrs: Vec<Instr>) -> Result<Instrs, CodeError>
    requires many { length table.now.starts.items ≡ length instrs.items }
    ensures numbered { IfOk result (AreNumbered table.now.starts.items instrs.items) }
    ensures refused { IfErr result (IsNumberingFault table.now.starts.items instrs.items) }
{
    let mut numbered = instrs;
    for number in 0..numbered.len() {
        let at = table.starts[number];
        renumber(alloc, table, at, &mut numbered[number])?;
    }
    Ok(Instrs::from_vec(numbered))
}

/// The same as `label`, with the addresses at which the instructions start.
pub fn label_with_starts(
    alloc: Global,
    code: &[u8],
    table: &[CatchRow],
) -> Result<Labelling, CodeError>
    requires few { length code.now < 2 ^ 16 }
    // The answer is the labels.
    ensures labelled { IfOk result (λ l. IsLabelled code.now table.now l.labelled) }
    // The instructions start there.
    ensures starts { IfOk result (λ l. AreStarts code.now l.starts.items) }
    // A refusal has its cause, so that where there are labels only memory is short.
    ensures refused { IfErr result (IsRefused code.now table.now) }
{
    let (starts, addressed) = read_code(alloc, code)?;
    let numbers = StartTable::new(starts);
    let instrs = number_instrs(alloc, &numbers, addressed)?;
    let ranges = ranges_of(alloc, &numbers, code.len(), table)?;
    Ok(Labelling {
        labelled: Labelled {
            code: instrs,
            ranges,
        },
        starts: numbers.into_starts(),
    })
}

/// The instructions of the code, and the ranges of its exception table. The empty code has no instructions.
pub fn label(alloc: Global, code: &[u8], table: &[CatchRow]) -> Result<Labelled, CodeError>
    requires few { length code.now < 2 ^ 16 }
    // The answer is the labels.
    ensures labelled { IfOk result (λ l. IsLabelled code.now table.now l) }
    // Where there are labels, they are the answer.
    ensures all_labelled { (l : Labelled) → IsLabelled code.now table.now l → Yields result (Ok l) }
    // A refusal has its cause.
    ensures refused { IfErr result (IsRefused code.now table.now) }
    // Where there is a cause, there is that refusal.
    ensures all_refused { (e : CodeError) → Refuses code.now table.now e → Yields result (Err e) }
{
    let labelling = label_with_starts(alloc, code, table)?;
    Ok(labelling.labelled)
}
