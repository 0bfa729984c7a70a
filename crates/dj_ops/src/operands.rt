ghost use Rattle.dj_cursor.specs.Steps.{Gives};
ghost use Rattle.dj_cursor.specs.Views.{cursor_of};
ghost use Rattle.dj_ops.specs.trusted.Forms.{form_of};
ghost use Rattle.dj_ops.specs.Reading.{is_memory, s1_at, s2_at, s4_at, byte_push_at, short_push_at, short_literal_at, long_literal_at, local_at, increment_at, short_branch_at, long_branch_at, member_at, class_at, index_and_two_at, interface_at, dynamic_at, array_at, multi_at, wide_local_at, wide_increment_at, wide_form_at, wide_at};

use crate::instruction::Instr;
use crate::read::OpError;
use dj_cursor::Cursor;

/// A signed byte.
#[tactic(auto, unfolding(crate::specs::Reading::s1_at))]
pub fn read_s1(cursor: Cursor<'_>) -> Result<(i8, Cursor<'_>), OpError>
    ensures { Gives is_memory (λ x. (x.0, cursor_of x.1)) result (s1_at (cursor_of cursor.entry)) }
{
    let (number, after) = cursor.u8_at()?;
    Ok((number.cast_signed(), after))
}

/// A signed number of two bytes.
#[tactic(auto, unfolding(crate::specs::Reading::s2_at))]
pub fn read_s2(cursor: Cursor<'_>) -> Result<(i16, Cursor<'_>), OpError>
    ensures { Gives is_memory (λ x. (x.0, cursor_of x.1)) result (s2_at (cursor_of cursor.entry)) }
{
    let (number, after) = cursor.u16_at()?;
    Ok((number.cast_signed(), after))
}

/// A signed number of four bytes.
#[tactic(auto, unfolding(crate::specs::Reading::s4_at))]
pub fn read_s4(cursor: Cursor<'_>) -> Result<(i32, Cursor<'_>), OpError>
    ensures { Gives is_memory (λ x. (x.0, cursor_of x.1)) result (s4_at (cursor_of cursor.entry)) }
{
    let (number, after) = cursor.u32_at()?;
    Ok((number.cast_signed(), after))
}

/// What follows bipush.
#[tactic(auto, unfolding(crate::specs::Reading::byte_push_at))]
pub fn read_byte_push(op: u8, cursor: Cursor<'_>) -> Result<(Instr, Cursor<'_>), OpError>
    ensures { Gives is_memory (λ x. (x.0, cursor_of x.1)) result (byte_push_at op (cursor_of cursor.entry)) }
{
    let (value, after) = read_s1(cursor)?;
    let value = i16::from(value);
    Ok((Instr::Push { op, value }, after))
}

/// What follows sipush.
#[tactic(auto, unfolding(crate::specs::Reading::short_push_at))]
pub fn read_short_push(op: u8, cursor: Cursor<'_>) -> Result<(Instr, Cursor<'_>), OpError>
    ensures { Gives is_memory (λ x. (x.0, cursor_of x.1)) result (short_push_at op (cursor_of cursor.entry)) }
{
    let (value, after) = read_s2(cursor)?;
    Ok((Instr::Push { op, value }, after))
}

/// What follows ldc.
#[tactic(auto, unfolding(crate::specs::Reading::short_literal_at))]
pub fn read_short_literal(op: u8, cursor: Cursor<'_>) -> Result<(Instr, Cursor<'_>), OpError>
    ensures { Gives is_memory (λ x. (x.0, cursor_of x.1)) result (short_literal_at op (cursor_of cursor.entry)) }
{
    let (index, after) = cursor.u8_at()?;
    let index = u16::from(index);
    Ok((Instr::Literal { op, index }, after))
}

/// What follows ldc_w and ldc2_w.
#[tactic(auto, unfolding(crate::specs::Reading::long_literal_at))]
pub fn read_long_literal(op: u8, cursor: Cursor<'_>) -> Result<(Instr, Cursor<'_>), OpError>
    ensures { Gives is_memory (λ x. (x.0, cursor_of x.1)) result (long_literal_at op (cursor_of cursor.entry)) }
{
    let (index, after) = cursor.u16_at()?;
    Ok((Instr::Literal { op, index }, after))
}

/// What follows a load, a store or ret.
#[tactic(auto, unfolding(crate::specs::Reading::local_at))]
pub fn read_local(op: u8, cursor: Cursor<'_>) -> Result<(Instr, Cursor<'_>), OpError>
    ensures { Gives is_memory (λ x. (x.0, cursor_of x.1)) result (local_at op (cursor_of cursor.entry)) }
{
    let (slot, after) = cursor.u8_at()?;
    let local = Instr::Local {
        op,
        slot: u16::from(slot),
        wide: false,
    };
    Ok((local, after))
}

/// What follows iinc.
#[tactic(auto, unfolding(crate::specs::Reading::increment_at))]
pub fn read_increment(cursor: Cursor<'_>) -> Result<(Instr, Cursor<'_>), OpError>
    ensures { Gives is_memory (λ x. (x.0, cursor_of x.1)) result (increment_at (cursor_of cursor.entry)) }
{
    let (slot, after) = cursor.u8_at()?;
    let (by, after) = read_s1(after)?;
    let increment = Instr::Inc {
        slot: u16::from(slot),
        by: i16::from(by),
        wide: false,
    };
    Ok((increment, after))
}

/// What follows a jump with an offset of two bytes.
#[tactic(auto, unfolding(crate::specs::Reading::short_branch_at))]
pub fn read_short_branch(
    at: u32,
    op: u8,
    cursor: Cursor<'_>,
) -> Result<(Instr, Cursor<'_>), OpError>
    ensures { Gives is_memory (λ x. (x.0, cursor_of x.1)) result (short_branch_at at op (cursor_of cursor.entry)) }
{
    let (offset, after) = read_s2(cursor)?;
    let target = i64::from(at) + i64::from(offset);
    Ok((Instr::Branch { op, target }, after))
}

/// What follows a jump with an offset of four bytes.
#[tactic(auto, unfolding(crate::specs::Reading::long_branch_at))]
pub fn read_long_branch(at: u32, op: u8, cursor: Cursor<'_>) -> Result<(Instr, Cursor<'_>), OpError>
    ensures { Gives is_memory (λ x. (x.0, cursor_of x.1)) result (long_branch_at at op (cursor_of cursor.entry)) }
{
    let (offset, after) = read_s4(cursor)?;
    let target = i64::from(at) + i64::from(offset);
    Ok((Instr::Branch { op, target }, after))
}

/// What follows an access to a field, or a call.
#[tactic(auto, unfolding(crate::specs::Reading::member_at))]
pub fn read_member(op: u8, cursor: Cursor<'_>) -> Result<(Instr, Cursor<'_>), OpError>
    ensures { Gives is_memory (λ x. (x.0, cursor_of x.1)) result (member_at op (cursor_of cursor.entry)) }
{
    let (index, after) = cursor.u16_at()?;
    Ok((Instr::Member { op, index }, after))
}

/// What follows new, anewarray, checkcast and instanceof.
#[tactic(auto, unfolding(crate::specs::Reading::class_at))]
pub fn read_class(op: u8, cursor: Cursor<'_>) -> Result<(Instr, Cursor<'_>), OpError>
    ensures { Gives is_memory (λ x. (x.0, cursor_of x.1)) result (class_at op (cursor_of cursor.entry)) }
{
    let (index, after) = cursor.u16_at()?;
    Ok((Instr::Class { op, index }, after))
}

/// An index, and two bytes.
#[tactic(auto, unfolding(crate::specs::Reading::index_and_two_at))]
fn read_index_and_two(cursor: Cursor<'_>) -> Result<((u16, (u8, u8)), Cursor<'_>), OpError>
    ensures { Gives is_memory (λ x. (x.0, cursor_of x.1)) result (index_and_two_at (cursor_of cursor.entry)) }
{
    let (index, after) = cursor.u16_at()?;
    let (third, after) = after.u8_at()?;
    let (fourth, after) = after.u8_at()?;
    Ok(((index, (third, fourth)), after))
}

/// What follows invokeinterface.
#[tactic(auto, unfolding(crate::specs::Reading::interface_at))]
pub fn read_interface(cursor: Cursor<'_>) -> Result<(Instr, Cursor<'_>), OpError>
    ensures { Gives is_memory (λ x. (x.0, cursor_of x.1)) result (interface_at (cursor_of cursor.entry)) }
{
    let ((index, (count, zero)), after) = read_index_and_two(cursor)?;
    if 0 < count && zero == 0 {
        Ok((Instr::Interface { index, count }, after))
    } else {
        Err(OpError::BadOperand)
    }
}

/// What follows invokedynamic.
#[tactic(auto, unfolding(crate::specs::Reading::dynamic_at))]
pub fn read_dynamic(cursor: Cursor<'_>) -> Result<(Instr, Cursor<'_>), OpError>
    ensures { Gives is_memory (λ x. (x.0, cursor_of x.1)) result (dynamic_at (cursor_of cursor.entry)) }
{
    let ((index, (third, fourth)), after) = read_index_and_two(cursor)?;
    if third == 0 && fourth == 0 {
        Ok((Instr::Dynamic { index }, after))
    } else {
        Err(OpError::BadOperand)
    }
}

/// What follows newarray.
#[tactic(auto, unfolding(crate::specs::Reading::array_at))]
pub fn read_array(cursor: Cursor<'_>) -> Result<(Instr, Cursor<'_>), OpError>
    ensures { Gives is_memory (λ x. (x.0, cursor_of x.1)) result (array_at (cursor_of cursor.entry)) }
{
    let (base, after) = cursor.u8_at()?;
    if 4 <= base && base <= 11 {
        Ok((Instr::Array { base }, after))
    } else {
        Err(OpError::BadOperand)
    }
}

/// What follows multianewarray.
#[tactic(auto, unfolding(crate::specs::Reading::multi_at))]
pub fn read_multi(cursor: Cursor<'_>) -> Result<(Instr, Cursor<'_>), OpError>
    ensures { Gives is_memory (λ x. (x.0, cursor_of x.1)) result (multi_at (cursor_of cursor.entry)) }
{
    let (index, after) = cursor.u16_at()?;
    let (dims, after) = after.u8_at()?;
    if 0 < dims {
        Ok((Instr::Multi { index, dims }, after))
    } else {
        Err(OpError::BadOperand)
    }
}

/// What follows wide and a load, a store or ret.
#[tactic(auto, unfolding(crate::specs::Reading::wide_local_at))]
fn read_wide_local(op: u8, cursor: Cursor<'_>) -> Result<(Instr, Cursor<'_>), OpError>
    ensures { Gives is_memory (λ x. (x.0, cursor_of x.1)) result (wide_local_at op (cursor_of cursor.entry)) }
{
    let (slot, after) = cursor.u16_at()?;
    let local = Instr::Local {
        op,
        slot,
        wide: true,
    };
    Ok((local, after))
}

/// What follows wide and iinc.
#[tactic(auto, unfolding(crate::specs::Reading::wide_increment_at))]
fn read_wide_increment(cursor: Cursor<'_>) -> Result<(Instr, Cursor<'_>), OpError>
    ensures { Gives is_memory (λ x. (x.0, cursor_of x.1)) result (wide_increment_at (cursor_of cursor.entry)) }
{
    let (slot, after) = cursor.u16_at()?;
    let (by, after) = read_s2(after)?;
    let increment = Instr::Inc {
        slot,
        by,
        wide: true,
    };
    Ok((increment, after))
}

#[tactic(auto, unfolding(crate::specs::trusted::Forms::form_of))]
fn read_wide_form(op: u8, cursor: Cursor<'_>) -> Result<(Instr, Cursor<'_>), OpError>
    ensures { Gives is_memory (λ x. (x.0, cursor_of x.1)) result (wide_form_at (form_of op) op (cursor_of cursor.entry)) }
{
    match op {
        21..=25 | 54..=58 | 169 => read_wide_local(op, cursor),
        132 => read_wide_increment(cursor),
        _ => Err(OpError::BadOperand),
    }
}

/// What follows wide.
#[tactic(auto, unfolding(crate::specs::Reading::wide_at))]
pub fn read_wide(cursor: Cursor<'_>) -> Result<(Instr, Cursor<'_>), OpError>
    ensures { Gives is_memory (λ x. (x.0, cursor_of x.1)) result (wide_at (cursor_of cursor.entry)) }
{
    let (op, after) = cursor.u8_at()?;
    read_wide_form(op, after)
}
