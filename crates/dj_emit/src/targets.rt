ghost use Rattle.std.specs.Prelude.{◌≡◌, false, length, map, IfOk};
ghost use Rattle.std.specs.List.{AllByRecursion};
ghost use Rattle.dj_labels.specs.trusted.Labels.{IsNumber, HasNumbers, address_of};
ghost use Rattle.dj_labels.specs.trusted.Targets.{with_targets};
ghost use Rattle.dj_emit.specs.Aimed.{is_jump};

use dj_ops::{Instr, Pairs, Targets};
use std::alloc::{AllocError, Global};

// Where the group of a target starts.
fn aim(start: &[u32], target: i64) -> i64
    requires { IsNumber (length start.now) target }
    ensures { result ≡ address_of start.now target }
{
    i64::from(start[target as usize])
}

fn aim_targets(alloc: Global, start: &[u32], targets: &[i64]) -> Result<Targets, AllocError>
    requires { AllByRecursion (IsNumber (length start.now)) targets.now }
    ensures { IfOk result (λ aimed. aimed ≡ map (address_of start.now) targets.now) }
{
    let mut aimed = Targets::new(alloc)?;
    for &target in targets {
        aimed.push(aim(start, target))?;
    }
    Ok(aimed)
}

fn aim_pairs(alloc: Global, start: &[u32], pairs: &[(i32, i64)]) -> Result<Pairs, AllocError>
    requires { AllByRecursion (IsNumber (length start.now)) (map (λ pair. pair.1) pairs.now) }
    ensures { IfOk result (λ aimed. aimed ≡ map (λ pair. (pair.0, address_of start.now pair.1)) pairs.now) }
{
    let mut aimed = Pairs::new(alloc)?;
    for &(key, target) in pairs {
        aimed.push((key, aim(start, target)))?;
    }
    Ok(aimed)
}

// The same instruction, where it is no jump.
fn copy_of(instr: &Instr) -> Instr
    requires { is_jump instr.now ≡ false }
    ensures { result ≡ instr.now }
{
    match instr {
        Instr::Simple { op } => Instr::Simple { op: *op },
        Instr::Push { op, value } => Instr::Push {
            op: *op,
            value: *value,
        },
        Instr::Literal { op, index } => Instr::Literal {
            op: *op,
            index: *index,
        },
        Instr::Local { op, slot, wide } => Instr::Local {
            op: *op,
            slot: *slot,
            wide: *wide,
        },
        Instr::Inc { slot, by, wide } => Instr::Inc {
            slot: *slot,
            by: *by,
            wide: *wide,
        },
        Instr::Member { op, index } => Instr::Member {
            op: *op,
            index: *index,
        },
        Instr::Interface { index, count } => Instr::Interface {
            index: *index,
            count: *count,
        },
        Instr::Dynamic { index } => Instr::Dynamic { index: *index },
        Instr::Class { op, index } => Instr::Class {
            op: *op,
            index: *index,
        },
        Instr::Array { base } => Instr::Array { base: *base },
        Instr::Multi { index, dims } => Instr::Multi {
            index: *index,
            dims: *dims,
        },
        _ => unreachable!(),
    }
}

/// The instruction made anew, with the starts of its targets' groups for targets.
pub(crate) fn aimed(alloc: Global, start: &[u32], instr: &Instr) -> Result<Instr, AllocError>
    requires { HasNumbers (length start.now) instr.now }
    ensures { IfOk result (λ aimed. aimed ≡ with_targets (address_of start.now) instr.now) }
{
    match instr {
        Instr::Branch { op, target } => Ok(Instr::Branch {
            op: *op,
            target: aim(start, *target),
        }),
        Instr::Table {
            low,
            default,
            targets,
        } => {
            let targets = aim_targets(alloc, start, targets.as_slice())?;
            Ok(Instr::Table {
                low: *low,
                default: aim(start, *default),
                targets,
            })
        }
        Instr::Lookup { default, pairs } => {
            let pairs = aim_pairs(alloc, start, pairs.as_slice())?;
            Ok(Instr::Lookup {
                default: aim(start, *default),
                pairs,
            })
        }
        other => Ok(copy_of(other)),
    }
}
