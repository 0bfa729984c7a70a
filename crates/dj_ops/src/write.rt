ghost use Rattle.std.specs.Prelude.{◌+◌, ◌^◌, ◌<◌, FitsSigned, [], ◌∷◌};
ghost use Rattle.std.specs.Int.{w16};
ghost use Rattle.dj_cursor.specs.trusted.Spelling.{u2, s2, s4};
ghost use Rattle.dj_ops.specs.trusted.Forms.{form_of};
ghost use Rattle.dj_ops.specs.trusted.Instructions.{signed_bytes, IsPushed, IsOffset, literal_bytes, IsLiteral, IsLocal, IsIncrement, IsProper, IsFar, AreOffsets, offset, written, length_at};
ghost use Rattle.dj_ops.specs.Instructions.{Appended};
ghost use Rattle.dj_ops.specs.declared.instruction.Instr.TheVariants as instrs;

use crate::instruction::Instr;
use crate::read::OpError;
use crate::write_switches::{offset_of, write_lookup, write_table};
use dj_cursor::{u2_bytes, u4_bytes};

/// Appends the bytes of the instruction at the address, with zeros as padding (JVMS chapter 6). `out` is as it was where memory ran out.
pub fn write_instr(instr: &Instr, at: u32, out: &mut Vec<u8>) -> Result<(), OpError>
    requires proper { IsProper instr.now }
    requires fits { at + length_at at instr.now < 2 ^ 32 }
    requires offsets { AreOffsets at instr.now }
    ensures { Appended result out.old.items out.new.items (written at instr.now) }
{
    match instr {
        Instr::Simple { op } => put(&[*op], out),
        Instr::Push { op, value } => write_push(*op, *value, out),
        Instr::Literal { op, index } => write_literal(*op, *index, out),
        Instr::Local { op, slot, wide } => write_local(*op, *slot, *wide, out),
        Instr::Inc { slot, by, wide } => write_increment(*slot, *by, *wide, out),
        Instr::Branch { op, target } => write_branch(*op, *target, at, out),
        Instr::Table {
            default,
            low,
            targets,
        } => write_table(*default, *low, targets.as_slice(), at, out),
        Instr::Lookup { default, pairs } => write_lookup(*default, pairs.as_slice(), at, out),
        Instr::Member { op, index } => write_index(*op, *index, out),
        Instr::Interface { index, count } => {
            let index = u2_bytes(*index);
            put(&[185, index[0], index[1], *count, 0], out)
        }
        Instr::Dynamic { index } => {
            let index = u2_bytes(*index);
            put(&[186, index[0], index[1], 0, 0], out)
        }
        Instr::Class { op, index } => write_index(*op, *index, out),
        Instr::Array { base } => put(&[188, *base], out),
        Instr::Multi { index, dims } => {
            let index = u2_bytes(*index);
            put(&[197, index[0], index[1], *dims], out)
        }
    }
}

/// Appends all of the bytes, or none.
pub fn put(bytes: &[u8], out: &mut Vec<u8>) -> Result<(), OpError>
    ensures { Appended result out.old.items out.new.items bytes.now }
{
    Ok(out.extend_from_slice(bytes)?)
}

fn write_index(op: u8, index: u16, out: &mut Vec<u8>) -> Result<(), OpError>
    ensures { Appended result out.old.items out.new.items (op ∷ u2 index) }
{
    let index = u2_bytes(index);
    put(&[op, index[0], index[1]], out)
}

/// bipush and sipush.
#[tactic(auto, unfolding(crate::specs::trusted::Forms::form_of))]
fn write_push(op: u8, value: i16, out: &mut Vec<u8>) -> Result<(), OpError>
    requires { IsPushed (form_of op) value }
    ensures { Appended result out.old.items out.new.items (op ∷ signed_bytes (form_of op) value) }
{
    if op == 16 {
        put(&[op, (value as i8).cast_unsigned()], out)
    } else {
        write_index(op, value.cast_unsigned(), out)
    }
}

/// ldc, ldc_w and ldc2_w.
#[tactic(auto, unfolding(crate::specs::trusted::Forms::form_of))]
fn write_literal(op: u8, index: u16, out: &mut Vec<u8>) -> Result<(), OpError>
    requires { IsLiteral (form_of op) index }
    ensures { Appended result out.old.items out.new.items (op ∷ literal_bytes (form_of op) index) }
{
    if op == 18 {
        put(&[op, index as u8], out)
    } else {
        write_index(op, index, out)
    }
}

/// A load, a store or ret.
fn write_local(op: u8, slot: u16, wide: bool, out: &mut Vec<u8>) -> Result<(), OpError>
    requires { IsLocal slot wide }
    ensures { Appended result out.old.items out.new.items (written 0 (instrs.Local op slot wide)) }
{
    if wide {
        let slot = u2_bytes(slot);
        put(&[196, op, slot[0], slot[1]], out)
    } else {
        put(&[op, slot as u8], out)
    }
}

/// iinc.
fn write_increment(slot: u16, by: i16, wide: bool, out: &mut Vec<u8>) -> Result<(), OpError>
    requires slot { IsLocal slot wide }
    requires by { IsIncrement by wide }
    ensures { Appended result out.old.items out.new.items (written 0 (instrs.Inc slot by wide)) }
{
    if wide {
        let slot = u2_bytes(slot);
        let by = u2_bytes(by.cast_unsigned());
        put(&[196, 132, slot[0], slot[1], by[0], by[1]], out)
    } else {
        put(&[132, slot as u8, (by as i8).cast_unsigned()], out)
    }
}

/// A jump with an offset of two bytes.
fn write_short_branch(op: u8, target: i64, at: u32, out: &mut Vec<u8>) -> Result<(), OpError>
    requires { FitsSigned w16 (offset at target) }
    ensures { Appended result out.old.items out.new.items (op ∷ s2 (offset at target)) }
{
    let offset = (target - i64::from(at)) as i16;
    let offset = u2_bytes(offset.cast_unsigned());
    put(&[op, offset[0], offset[1]], out)
}

/// A jump with an offset of four bytes.
fn write_long_branch(op: u8, target: i64, at: u32, out: &mut Vec<u8>) -> Result<(), OpError>
    requires { IsFar at target }
    ensures { Appended result out.old.items out.new.items (op ∷ s4 (offset at target)) }
{
    let offset = offset_of(at, target);
    let offset = u4_bytes(offset.cast_unsigned());
    put(&[op, offset[0], offset[1], offset[2], offset[3]], out)
}

/// A jump.
fn write_branch(op: u8, target: i64, at: u32, out: &mut Vec<u8>) -> Result<(), OpError>
    requires { IsOffset (form_of op) (offset at target) }
    ensures { Appended result out.old.items out.new.items (op ∷ signed_bytes (form_of op) (offset at target)) }
{
    if op < 200 {
        write_short_branch(op, target, at, out)
    } else {
        write_long_branch(op, target, at, out)
    }
}
