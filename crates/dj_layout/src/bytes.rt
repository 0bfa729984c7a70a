ghost use Rattle.std.specs.Prelude.{◌≡◌, ℕ, ◌+◌, ◌<◌, ◌≤◌, FitsSigned, map, length, slice_get, Some, IfOk, IfErr, MatchBool};
ghost use Rattle.dj_ops.specs.declared.instruction.Instr.{Instr};
ghost use Rattle.std.specs.List.{AllByRecursion};
ghost use Rattle.std.specs.Int.{w16};
ghost use Rattle.dj_ops.specs.trusted.Instructions.{IsProper, AreOffsets, offset, length_at};
ghost use Rattle.dj_labels.specs.trusted.Targets.{targets_of, with_targets};
ghost use Rattle.dj_labels.specs.trusted.Labels.{IsNumber, HasNumbers, address_of};
ghost use Rattle.dj_layout.specs.trusted.Layouts.{placed, most_bytes};
ghost use Rattle.dj_layout.specs.trusted.Places.{starts_from, end_from};
ghost use Rattle.dj_layout.specs.Passes.{IsAddress, IsWritten, AreBytes, IsByteFault};

use crate::errors::LayError;
use dj_ops::{Instr, Pairs, Targets, write_instr};
use std::alloc::{AllocError, Global};

/// The address at which the instruction of this number starts.
fn address_of(starts: &[u32], number: i64) -> i64
    requires { IsNumber (length starts.now) number }
    ensures { result ≡ address_of starts.now number }
{
    i64::from(starts[number as usize])
}

/// The addresses of targets that are numbers.
fn target_addresses(alloc: Global, starts: &[u32], numbers: &[i64]) -> Result<Targets, AllocError>
    requires { AllByRecursion (IsNumber (length starts.now)) numbers.now }
    ensures { IfOk result (λ targets. targets ≡ map (address_of starts.now) numbers.now) }
{
    let mut targets = Targets::new(alloc)?;
    for number in numbers {
        targets.push(address_of(starts, *number))?;
    }
    Ok(targets)
}

/// Matches, and the addresses of their targets.
fn pair_addresses(
    alloc: Global,
    starts: &[u32],
    numbers: &[(i32, i64)],
) -> Result<Pairs, AllocError>
    requires { AllByRecursion (λ pair. IsNumber (length starts.now) pair.1) numbers.now }
    ensures { IfOk result (λ pairs. pairs ≡ map (λ pair. (pair.0, address_of starts.now pair.1)) numbers.now) }
{
    let mut pairs = Vec::new(alloc);
    for pair in numbers {
        pairs.push((pair.0, address_of(starts, pair.1)))?;
    }
    Pairs::from_vec(pairs)
}

/// The instruction with the addresses of its targets.
fn address_instr(alloc: Global, starts: &[u32], instr: &Instr) -> Result<Instr, AllocError>
    requires { HasNumbers (length starts.now) instr.now }
    ensures { IfOk result (λ addressed. addressed ≡ with_targets (address_of starts.now) instr.now) }
{
    match *instr {
        Instr::Simple { op } => Ok(Instr::Simple { op }),
        Instr::Push { op, value } => Ok(Instr::Push { op, value }),
        Instr::Literal { op, index } => Ok(Instr::Literal { op, index }),
        Instr::Local { op, slot, wide } => Ok(Instr::Local { op, slot, wide }),
        Instr::Inc { slot, by, wide } => Ok(Instr::Inc { slot, by, wide }),
        Instr::Branch { op, target } => Ok(Instr::Branch {
            op,
            target: address_of(starts, target),
        }),
        Instr::Table {
            default,
            low,
            ref targets,
        } => Ok(Instr::Table {
            default: address_of(starts, default),
            low,
            targets: target_addresses(alloc, starts, targets.as_slice())?,
        }),
        Instr::Lookup { default, ref pairs } => Ok(Instr::Lookup {
            default: address_of(starts, default),
            pairs: pair_addresses(alloc, starts, pairs.as_slice())?,
        }),
        Instr::Member { op, index } => Ok(Instr::Member { op, index }),
        Instr::Interface { index, count } => Ok(Instr::Interface { index, count }),
        Instr::Dynamic { index } => Ok(Instr::Dynamic { index }),
        Instr::Class { op, index } => Ok(Instr::Class { op, index }),
        Instr::Array { base } => Ok(Instr::Array { base }),
        Instr::Multi { index, dims } => Ok(Instr::Multi { index, dims }),
    }
}

/// Whether an offset fits two bytes.
fn is_near(at: u32, target: i64) -> bool
    requires target { IsAddress target }
    ensures { MatchBool result (FitsSigned w16 (offset at target)) (FitsSigned w16 (offset at target) → ⊥) }
{
    let offset = target - i64::from(at);
    -32768 <= offset && offset <= 32767
}

/// Whether an instruction at an address reaches its targets: all do, except jumps with an offset of two bytes whose target is too far away.
fn reaches(instr: &Instr, at: u32) -> bool
    requires proper { IsProper instr.now }
    requires at { at ≤ most_bytes }
    requires targets { AllByRecursion IsAddress (targets_of instr.now) }
    ensures { MatchBool result (AreOffsets at instr.now) (AreOffsets at instr.now → ⊥) }
{
    match instr {
        Instr::Branch { op, target } => *op >= 200 || is_near(at, *target),
        _ => true,
    }
}

/// Appends an instruction at its address. Its number is reported where it doesn't reach its targets.
fn write_placed(instr: &Instr, at: u32, number: u32, out: &mut Vec<u8>) -> Result<(), LayError>
    requires proper { IsProper instr.now }
    requires short { at + length_at at instr.now ≤ most_bytes }
    requires targets { AllByRecursion IsAddress (targets_of instr.now) }
    ensures { IsWritten result number out.old.items out.new.items (at, instr.now) }
{
    if !reaches(instr, at) {
        return Err(LayError::Far(number));
    }
    Ok(write_instr(instr, at, out)?)
}

/// Appends the instruction of a number, at its start.
fn write_nth(
    alloc: Global,
    instrs: &[Instr],
    starts: &[u32],
    number: usize,
    out: &mut Vec<u8>,
) -> Result<(), LayError>
    requires within { number < length instrs.now }
    requires proper { AllByRecursion IsProper instrs.now }
    requires numbers { AllByRecursion (HasNumbers (length instrs.now)) instrs.now }
    requires starts { starts.now ≡ starts_from 0 instrs.now }
    requires short { end_from 0 instrs.now ≤ most_bytes }
    ensures { (p : ℕ × Instr) → slice_get (placed starts.now instrs.now) number ≡ Some p → IsWritten result number out.old.items out.new.items p }
{
    let instr = address_instr(alloc, starts, &instrs[number])?;
    write_placed(&instr, starts[number], number as u32, out)
}

/// The bytes of the instructions at these starts.
pub fn write_instrs(alloc: Global, instrs: &[Instr], starts: &[u32]) -> Result<Vec<u8>, LayError>
    requires proper { AllByRecursion IsProper instrs.now }
    requires numbers { AllByRecursion (HasNumbers (length instrs.now)) instrs.now }
    requires starts { starts.now ≡ starts_from 0 instrs.now }
    requires short { end_from 0 instrs.now ≤ most_bytes }
    ensures bytes { IfOk result (λ out. AreBytes starts.now instrs.now out.items) }
    ensures refused { IfErr result (IsByteFault starts.now instrs.now) }
{
    let mut out = Vec::new(alloc);
    for i in 0..instrs.len() {
        write_nth(alloc, instrs, starts, i, &mut out)?;
    }
    Ok(out)
}
