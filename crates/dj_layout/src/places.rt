ghost use Rattle.std.specs.Prelude.{◌≡◌, ◌+◌, ◌<◌, ◌≤◌, IfSome, IfNone, IfOk, IfErr};
ghost use Rattle.std.specs.List.{AllByRecursion};
ghost use Rattle.dj_ops.specs.trusted.Instructions.{IsProper, length_at};
ghost use Rattle.dj_layout.specs.trusted.Layouts.{most_bytes};
ghost use Rattle.dj_layout.specs.Passes.{entry_count, ArePlaces, IsPlaceFault};

use crate::errors::LayError;
use dj_ops::{Instr, length};
use std::alloc::Global;

/// The most bytes of a method's code (JVMS 4.7.3, code_length).
const MOST_BYTES: u32 = 65535;

/// How many entries a switch has.
fn entry_count(instr: &Instr) -> usize
    ensures { result ≡ entry_count instr.now }
{
    match instr {
        Instr::Table { targets, .. } => targets.as_slice().len(),
        Instr::Lookup { pairs, .. } => pairs.as_slice().len(),
        _ => 0,
    }
}

/// The address after an instruction, where the code isn't too long there.
#[tactic(auto, using(crate::proofs::Ends::length_most, crate::proofs::Ends::length_least))]
fn end_after(instr: &Instr, at: u32) -> Option<u32>
    requires proper { IsProper instr.now }
    requires short { at ≤ most_bytes }
    ensures some { IfSome result (λ next. (next ≡ at + length_at at instr.now) × (next ≤ most_bytes)) }
    ensures none { IfNone result (most_bytes < at + length_at at instr.now) }
{
    if entry_count(instr) > MOST_BYTES as usize {
        return None;
    }
    let next = at + length(instr, at);
    if next <= MOST_BYTES { Some(next) } else { None }
}

/// The addresses of the instructions, and the one after the last of them.
pub fn place_instrs(alloc: Global, instrs: &[Instr]) -> Result<(Vec<u32>, u32), LayError>
    requires { AllByRecursion IsProper instrs.now }
    ensures placed { IfOk result (λ x. ArePlaces instrs.now x.0.items x.1) }
    ensures refused { IfErr result (IsPlaceFault instrs.now) }
{
    let mut starts = Vec::new(alloc);
    let mut at = 0;
    for i in 0..instrs.len() {
        match end_after(&instrs[i], at) {
            Some(next) => {
                starts.push(at)?;
                at = next;
            }
            None => return Err(LayError::TooLong(i as u32)),
        }
    }
    Ok((starts, at))
}
