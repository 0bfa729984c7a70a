ghost use Rattle.std.specs.Prelude.{◌≡◌, ◌^◌, ◌<◌, [], ◌∷◌, map, false, IfOk, IfErr, OnOk};
ghost use Rattle.dj_labels.specs.trusted.Labels.{IsNumber, address_of};
ghost use Rattle.dj_labels.specs.trusted.Targets.{targets_of};
ghost use Rattle.dj_labels.specs.Passes.{AreNumbers, ArePairs, IsInstrOf, LacksStart};

use crate::errors::CodeError;
use crate::starts::StartTable;
use dj_ops::{Instr, Pairs, Targets};
use std::alloc::Global;
use std::mem;

/// The number of a target of the jump at an address.
fn number_of(table: &StartTable, at: u32, target: i64) -> Result<i64, CodeError>
    ensures found { IfOk result (λ number. AreNumbers table.now.starts.items (target ∷ []) (number ∷ [])) }
    ensures refused { IfErr result (LacksStart table.now.starts.items at (target ∷ [])) }
{
    let Ok(address) = usize::try_from(target) else {
        return Err(CodeError::Target(at));
    };
    let Some(number) = table.number_at(address) else {
        return Err(CodeError::Target(at));
    };
    Ok(i64::from(number))
}

/// The numbers of the targets of the tableswitch at an address.
fn number_targets(
    alloc: Global,
    table: &StartTable,
    at: u32,
    targets: &[i64],
) -> Result<Targets, CodeError>
    ensures found { IfOk result (λ numbers. AreNumbers table.now.starts.items targets.now numbers) }
    ensures refused { IfErr result (LacksStart table.now.starts.items at targets.now) }
{
    let mut numbers = Targets::new(alloc)?;
    for &target in targets {
        numbers.push(number_of(table, at, target)?)?;
    }
    Ok(numbers)
}

/// The pairs of the lookupswitch at an address, with the numbers of the targets.
fn number_pairs(
    alloc: Global,
    table: &StartTable,
    at: u32,
    pairs: &[(i32, i64)],
) -> Result<Pairs, CodeError>
    ensures found { IfOk result (λ numbered. ArePairs table.now.starts.items pairs.now numbered) }
    ensures refused { IfErr result (LacksStart table.now.starts.items at (map (λ pair. pair.1) pairs.now)) }
{
    let mut numbered = Pairs::new(alloc)?;
    for &(key, target) in pairs {
        numbered.push((key, number_of(table, at, target)?))?;
    }
    Ok(numbered)
}

/// The instruction at an address, with the numbers of its targets.
fn number_instr(
    alloc: Global,
    table: &StartTable,
    at: u32,
    instr: Instr,
) -> Result<Instr, CodeError>
    ensures found { IfOk result (λ numbered. IsInstrOf table.now.starts.items instr numbered) }
    ensures refused { IfErr result (LacksStart table.now.starts.items at (targets_of instr)) }
{
    match instr {
        Instr::Branch { op, target } => {
            let target = number_of(table, at, target)?;
            Ok(Instr::Branch { op, target })
        }
        Instr::Table {
            default,
            low,
            targets,
        } => {
            let default = number_of(table, at, default)?;
            let targets = number_targets(alloc, table, at, targets.as_slice())?;
            Ok(Instr::Table {
                default,
                low,
                targets,
            })
        }
        Instr::Lookup { default, pairs } => {
            let default = number_of(table, at, default)?;
            let pairs = number_pairs(alloc, table, at, pairs.as_slice())?;
            Ok(Instr::Lookup { default, pairs })
        }
        other => Ok(other),
    }
}

// Whether the instruction has targets.
fn has_targets(instr: &Instr) -> bool
    ensures { result ≡ false → targets_of instr.now ≡ [] }
{
    matches!(
        instr,
        Instr::Branch { .. } | Instr::Table { .. } | Instr::Lookup { .. }
    )
}

/// Puts the numbers of the targets of the instruction at an address in place of the addresses.
pub fn renumber(
    alloc: Global,
    table: &StartTable,
    at: u32,
    instr: &mut Instr,
) -> Result<(), CodeError>
    ensures found { OnOk result (IsInstrOf table.now.starts.items instr.old instr.new) }
    ensures refused { IfErr result (LacksStart table.now.starts.items at (targets_of instr.old)) }
{
    if !has_targets(instr) {
        return Ok(());
    }
    // Meanwhile another instruction is in its place.
    let addressed = mem::replace(instr, Instr::Simple { op: 0 });
    *instr = number_instr(alloc, table, at, addressed)?;
    Ok(())
}
