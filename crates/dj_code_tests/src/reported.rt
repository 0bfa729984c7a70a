use crate::opcodes::*;
use dj_ops::Instr;

// A letter for the family, the opcode, and up to two numbers.
pub type InstrRow = (u8, u8, i64, i64);

pub fn reported(instr: &Instr) -> InstrRow {
    match instr {
        Instr::Simple { op } => (b's', *op, 0, 0),
        Instr::Push { op, value } => (b'p', *op, i64::from(*value), 0),
        Instr::Literal { op, index } => (b'c', *op, i64::from(*index), 0),
        Instr::Local { op, slot, wide } => (b'l', *op, i64::from(*slot), i64::from(*wide)),
        Instr::Inc { slot, by, wide } => (
            if *wide { b'I' } else { b'i' },
            IINC,
            i64::from(*slot),
            i64::from(*by),
        ),
        Instr::Branch { op, target } => (b'b', *op, *target, 0),
        Instr::Table { default, low, .. } => (b't', TABLESWITCH, *default, i64::from(*low)),
        Instr::Lookup { default, .. } => (b'u', LOOKUPSWITCH, *default, 0),
        Instr::Member { op, index } => (b'm', *op, i64::from(*index), 0),
        Instr::Interface { index, count } => (
            b'f',
            INVOKEINTERFACE,
            i64::from(*index),
            i64::from(*count),
        ),
        Instr::Dynamic { index } => (b'd', INVOKEDYNAMIC, i64::from(*index), 0),
        Instr::Class { op, index } => (b'k', *op, i64::from(*index), 0),
        Instr::Array { base } => (b'a', NEWARRAY, i64::from(*base), 0),
        Instr::Multi { index, dims } => (b'n', MULTIANEWARRAY, i64::from(*index), i64::from(*dims)),
    }
}

pub fn has_targets(instr: &Instr, wanted: &[i64]) -> bool {
    match instr {
        Instr::Table { targets, .. } => targets.as_slice() == wanted,
        _ => wanted.is_empty(),
    }
}

pub fn has_pairs(instr: &Instr, wanted: &[(i32, i64)]) -> bool {
    match instr {
        Instr::Lookup { pairs, .. } => pairs.as_slice() == wanted,
        _ => wanted.is_empty(),
    }
}
