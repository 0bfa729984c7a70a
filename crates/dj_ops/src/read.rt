ghost use Rattle.std.specs.Prelude.{◌≡◌, ℕ, ◌^◌, ◌<◌, length, Ok, Err, IfSome, IfOk, IfErr, IsTrue};
ghost use Rattle.dj_cursor.specs.Steps.{Gives};
ghost use Rattle.dj_cursor.specs.Views.{cursor_of};
ghost use Rattle.dj_ops.specs.declared.instruction.Instr.{Instr};
ghost use Rattle.dj_ops.specs.declared.instruction.Instr.TheVariants.{Simple};
ghost use Rattle.dj_ops.specs.trusted.Forms.{Bare, form_of};
ghost use Rattle.dj_ops.specs.trusted.Instructions.{Stands};
ghost use Rattle.dj_ops.specs.Refusals.{Refuses, IsRefused, Yields};
ghost use Rattle.dj_ops.specs.Reading.{is_memory, operands_at, instr_at};

use crate::instruction::Instr;
use crate::operands::{
    read_array, read_byte_push, read_class, read_dynamic, read_increment, read_interface,
    read_local, read_long_branch, read_long_literal, read_member, read_multi, read_short_branch,
    read_short_literal, read_short_push, read_wide,
};
use crate::switches::{read_lookup, read_table};
use dj_cursor::{Cursor, Cut};
use std::alloc::{AllocError, AllocFailed, Global};
use thiserror::Error;

/// Why an instruction was not read or written.
#[derive(Clone, Copy, Debug, PartialEq, Eq, Error)]
pub enum OpError {
    /// This opcode is no instruction's.
    #[error("opcode {0} is no instruction's")]
    Reserved(u8),
    /// The operands pass the end.
    #[error("the operands pass the end of the code")]
    Cut,
    /// An operand is none that the instruction may have.
    #[error("an operand is none that the instruction may have")]
    BadOperand,
    /// There was no memory.
    #[error("out of memory")]
    Memory,
}

impl From<Cut> for OpError {
    ghost use Rattle.dj_ops.specs.declared.read.OpError.TheVariants as errors;

    ghost from_gives = { λ _ e. e ≡ errors.Cut };

    fn from(_cut: Cut) -> OpError {
        OpError::Cut
    }
}

impl From<AllocError> for OpError {
    ghost use Rattle.dj_ops.specs.declared.read.OpError.TheVariants as errors;

    ghost from_gives = { λ _ e. e ≡ errors.Memory };

    fn from(_error: AllocError) -> OpError {
        OpError::Memory
    }
}

impl<T: Drop> From<AllocFailed<T>> for OpError {
    ghost use Rattle.dj_ops.specs.declared.read.OpError.TheVariants as errors;

    ghost from_gives = { λ _ e. e ≡ errors.Memory };

    fn from(_error: AllocFailed<T>) -> OpError {
        OpError::Memory
    }
}

/// The instruction at the address, and the address after it.
pub fn read_instr(alloc: Global, code: &[u8], at: u32) -> Result<(Instr, u32), OpError>
    requires within { at < length code.now }
    requires few { length code.now < 2 ^ 32 }
    // What is read is at this place.
    ensures read { IfOk result (λ x. Stands code.now at x.0 x.1) }
    // What is at this place is read.
    ensures all_read { (instr : Instr) (next : ℕ) → Stands code.now at instr next → Yields result (Ok (instr, next)) }
    // A refusal has its cause.
    ensures refused { IfErr result (IsRefused code.now at) }
    // Where there is a cause, there is that refusal.
    ensures all_refused { (e : OpError) → Refuses code.now at e → Yields result (Err e) }
{
    let cursor = Cursor::at(code, at);
    if let Some((op, after)) = bare_from(cursor) {
        return Ok((Instr::Simple { op }, after.place));
    }
    let (instr, after) = instr_from(alloc, cursor)?;
    Ok((instr, after.place))
}

/// Whether the opcode is of an instruction that has no operands.
#[tactic(auto, unfolding(crate::specs::trusted::Forms::form_of))]
fn is_bare(op: u8) -> bool
    ensures { IsTrue result → form_of op ≡ Bare }
{
    match op {
        0..=15 | 26..=53 | 59..=131 | 133..=152 | 172..=177 | 190..=191 | 194..=195 | 202 => true,
        _ => false,
    }
}

/// The opcode at the cursor, where it is the whole instruction, and what follows it. Most instructions are of this form.
#[tactic(auto, unfolding(crate::specs::Reading::instr_at))]
fn bare_from(cursor: Cursor<'_>) -> Option<(u8, Cursor<'_>)>
    ensures { IfSome result (λ x. instr_at (cursor_of cursor.entry) ≡ Ok (Simple x.0, cursor_of x.1)) }
{
    match cursor.u8_at() {
        Ok((op, after)) if is_bare(op) => Some((op, after)),
        _ => None,
    }
}

/// The instruction at the cursor.
#[tactic(auto, unfolding(crate::specs::Reading::instr_at))]
fn instr_from(alloc: Global, cursor: Cursor<'_>) -> Result<(Instr, Cursor<'_>), OpError>
    ensures { Gives is_memory (λ x. (x.0, cursor_of x.1)) result (instr_at (cursor_of cursor.entry)) }
{
    let (op, after) = cursor.u8_at()?;
    operands_of(alloc, cursor.place, op, after)
}

/// What follows an opcode at an address.
#[tactic(auto, unfolding(crate::specs::trusted::Forms::form_of))]
fn operands_of(
    alloc: Global,
    at: u32,
    op: u8,
    cursor: Cursor<'_>,
) -> Result<(Instr, Cursor<'_>), OpError>
    ensures { Gives is_memory (λ x. (x.0, cursor_of x.1)) result (operands_at (form_of op) at op (cursor_of cursor.entry)) }
{
    match op {
        16 => read_byte_push(op, cursor),
        17 => read_short_push(op, cursor),
        18 => read_short_literal(op, cursor),
        19..=20 => read_long_literal(op, cursor),
        21..=25 | 54..=58 | 169 => read_local(op, cursor),
        132 => read_increment(cursor),
        153..=168 | 198..=199 => read_short_branch(at, op, cursor),
        170 => read_table(alloc, at, cursor),
        171 => read_lookup(alloc, at, cursor),
        178..=184 => read_member(op, cursor),
        185 => read_interface(cursor),
        186 => read_dynamic(cursor),
        187 | 189 | 192..=193 => read_class(op, cursor),
        188 => read_array(cursor),
        196 => read_wide(cursor),
        197 => read_multi(cursor),
        200..=201 => read_long_branch(at, op, cursor),
        203..=255 => Err(OpError::Reserved(op)),
        _ => Ok((Instr::Simple { op }, cursor)),
    }
}
