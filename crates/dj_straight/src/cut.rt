ghost use Rattle.std.specs.Prelude.{◌≡◌, ◌≢◌, ℕ, ◌^◌, ◌<◌, List, length, All, IfOk, MatchBool, MatchOption};
ghost use Rattle.dj_ops.specs.declared.instruction.Instr.{Instr};
ghost use Rattle.dj_ops.specs.declared.read.OpError.TheVariants as errors;
ghost use Rattle.dj_ops.specs.trusted.Instructions.{IsProper};
ghost use Rattle.dj_straight.specs.trusted.StraightInstrs.{is_straight_op, IsStraight};
ghost use Rattle.dj_straight.specs.trusted.Cuts.{AreInstructions};

use crate::program::first_byte;
use dj_ops::{Instr, Instrs, OpError, read_instr};
use std::alloc::{AllocError, Global};

#[tactic(auto, unfolding(crate::specs::trusted::StraightInstrs::is_straight_op))]
fn is_straight_op(op: u8) -> bool
    ensures { result ≡ is_straight_op op }
{
    matches!(
        op,
        0..=8
            | 16..=17
            | 21
            | 25..=29
            | 42..=45
            | 51
            | 54
            | 58..=62
            | 75..=78
            | 84
            | 87
            | 89
            | 96
            | 100
            | 104
            | 126
            | 128
            | 130
            | 176
            | 190
    )
}

fn is_straight(instr: &Instr) -> bool
    ensures { MatchBool result (IsStraight instr.now) (IsStraight instr.now → ⊥) }
{
    match instr {
        Instr::Array { base } => *base == 8,
        _ => is_straight_op(first_byte(instr)),
    }
}

fn is_memory(e: OpError) -> bool
    ensures { MatchBool result (e ≡ errors.Memory) (e ≢ errors.Memory) }
{
    matches!(e, OpError::Memory)
}

/// The instructions of straight code, in order; none where the code can't be cut into straight instructions.
pub fn read_instrs(alloc: Global, code: &[u8]) -> Result<Option<Instrs>, AllocError>
    requires { length code.now < 2 ^ 32 }
    ensures { IfOk result (λ read. MatchOption read
        ((instrs : List Instr) → AreInstructions code.now 0 instrs → ⊥)
        (λ instrs. AreInstructions code.now 0 instrs)) }
{
    let mut instrs = Instrs::new(alloc);
    let mut at = 0;
    while (at as usize) < code.len() {
        match read_instr(alloc, code, at) {
            Ok((instr, next)) => {
                if !is_straight(&instr) {
                    return Ok(None);
                }
                instrs.push(instr)?;
                at = next;
            }
            Err(e) => {
                if is_memory(e) {
                    return Err(AllocError);
                }
                return Ok(None);
            }
        }
    }
    Ok(Some(instrs))
}

/// Code is cut into straight instructions in one way at most.
pub fn one_cut()
    ensures { (code : List ℕ) (a b : List Instr) → AreInstructions code 0 a → AreInstructions code 0 b → a ≡ b }
{}

/// The instructions of straight code are straight and proper.
pub fn cut_is_straight()
    ensures { (code : List ℕ) (at : ℕ) (instrs : List Instr) → AreInstructions code at instrs
        → All (λ instr. IsStraight instr × IsProper instr) instrs }
{}
