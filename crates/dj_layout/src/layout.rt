ghost use Rattle.std.specs.Prelude.{Ok, Err, IfOk, IfErr};
ghost use Rattle.dj_labels.specs.Labels.{IsWellFormed};
ghost use Rattle.dj_layout.specs.declared.laid.Laid.{Laid};
ghost use Rattle.dj_layout.specs.declared.errors.LayError.{LayError};
ghost use Rattle.dj_layout.specs.trusted.Layouts.{IsLaidOut};
ghost use Rattle.dj_layout.specs.Faults.{Refuses, IsRefused, Yields};

use crate::bytes::write_instrs;
use crate::errors::LayError;
use crate::laid::Laid;
use crate::places::place_instrs;
use crate::rows::rows_of;
use dj_labels::Labelled;
use dj_names::Bytes;
use dj_ops::Starts;
use std::alloc::Global;

/// The bytes of labelled code, the addresses of its instructions, and its exception table. Code that is too long and also has
/// a jump too far is refused as too long.
pub fn lay_out(alloc: Global, code: &Labelled) -> Result<Laid, LayError>
    requires { IsWellFormed code.now }
    // The answer is the layout.
    ensures laid { IfOk result (IsLaidOut code.now) }
    // Where there is a layout, it is the answer.
    ensures all_laid { (laid : Laid) → IsLaidOut code.now laid → Yields result (Ok laid) }
    // A refusal has its cause.
    ensures refused { IfErr result (IsRefused code.now) }
    // Where there is a cause, there is that refusal.
    ensures all_refused { (e : LayError) → Refuses code.now e → Yields result (Err e) }
{
    let instrs = code.code.as_slice();
    let (starts, size) = place_instrs(alloc, instrs)?;
    let bytes = write_instrs(alloc, instrs, &starts)?;
    let table = rows_of(alloc, &starts, size, code.ranges.as_slice())?;
    Ok(Laid {
        code: Bytes::from(bytes),
        starts: Starts::from_vec(starts),
        table,
    })
}
