use crate::opcodes::*;
use crate::reported::{InstrRow, has_pairs, has_targets, reported};
use dj_ops::{OpError, read_instr};
use std::alloc::Global;

fn is_read(alloc: Global, code: &[u8], at: u32, wanted: InstrRow, after: u32) -> bool {
    if (at as usize) < code.len() && code.len() < 99 {
        match read_instr(alloc, code, at) {
            Ok((instr, next)) => reported(&instr) == wanted && next == after,
            Err(_) => false,
        }
    } else {
        false
    }
}

// The first and the last opcode of some that have the same operands, the family's letter, two numbers, and the length, where the bytes 1 to 8 follow.
const FAMILIES: [(u8, u8, u8, i64, i64, u32); 23] = [
    (NOP, DCONST_1, b's', 0, 0, 1),
    (BIPUSH, BIPUSH, b'p', 1, 0, 2),
    (SIPUSH, SIPUSH, b'p', 258, 0, 3),
    (LDC, LDC, b'c', 1, 0, 2),
    (LDC_W, LDC2_W, b'c', 258, 0, 3),
    (ILOAD, ALOAD, b'l', 1, 0, 2),
    (ILOAD_0, SALOAD, b's', 0, 0, 1),
    (ISTORE, ASTORE, b'l', 1, 0, 2),
    (ISTORE_0, LXOR, b's', 0, 0, 1),
    (IINC, IINC, b'i', 1, 2, 3),
    (I2L, DCMPG, b's', 0, 0, 1),
    (IFEQ, JSR, b'b', 258, 0, 3),
    (RET, RET, b'l', 1, 0, 2),
    (IRETURN, RETURN, b's', 0, 0, 1),
    (GETSTATIC, INVOKESTATIC, b'm', 258, 0, 3),
    (NEW, NEW, b'k', 258, 0, 3),
    (ANEWARRAY, ANEWARRAY, b'k', 258, 0, 3),
    (ARRAYLENGTH, ATHROW, b's', 0, 0, 1),
    (CHECKCAST, INSTANCEOF, b'k', 258, 0, 3),
    (MONITORENTER, MONITOREXIT, b's', 0, 0, 1),
    (IFNULL, IFNONNULL, b'b', 258, 0, 3),
    (GOTO_W, JSR_W, b'b', 16909060, 0, 5),
    (BREAKPOINT, BREAKPOINT, b's', 0, 0, 1),
];

fn is_family(alloc: Global, op: u8, letter: u8, a: i64, b: i64, after: u32) -> bool {
    is_read(
        alloc,
        &[op, 1, 2, 3, 4, 5, 6, 7, 8],
        0,
        (letter, op, a, b),
        after,
    )
}

fn all_families(alloc: Global, table: &[(u8, u8, u8, i64, i64, u32)]) -> bool {
    for (first, last, letter, a, b, after) in table {
        for op in *first..=*last {
            if !is_family(alloc, op, *letter, *a, *b, *after) {
                return false;
            }
        }
    }
    true
}

#[test]
fn families(rt: HostRuntime) {
    assert!(rt; all_families(rt.alloc(), &FAMILIES));
}

// Code and an address, the instruction there, and the address after it.
const READ: [(&[u8], u32, InstrRow, u32); 47] = [
    (&[BIPUSH, 0x80], 0, (b'p', BIPUSH, -128, 0), 2),
    (&[BIPUSH, 0x7f], 0, (b'p', BIPUSH, 127, 0), 2),
    (&[SIPUSH, 0x80, 0], 0, (b'p', SIPUSH, -32768, 0), 3),
    (&[SIPUSH, 0x7f, 0xff], 0, (b'p', SIPUSH, 32767, 0), 3),
    (&[NOP, BIPUSH, 0xff], 1, (b'p', BIPUSH, -1, 0), 3),
    (&[LDC, 0xff], 0, (b'c', LDC, 255, 0), 2),
    (&[LDC_W, 0xff, 0xff], 0, (b'c', LDC_W, 65535, 0), 3),
    (&[ILOAD, 0xff], 0, (b'l', ILOAD, 255, 0), 2),
    (&[ISTORE, 0xff], 0, (b'l', ISTORE, 255, 0), 2),
    (&[RET, 0xff], 0, (b'l', RET, 255, 0), 2),
    (&[IINC, 0xff, 0x80], 0, (b'i', IINC, 255, -128), 3),
    (&[IINC, 0x7f, 0x7f], 0, (b'i', IINC, 127, 127), 3),
    (
        &[NOP, NOP, NOP, GOTO, 0x80, 0],
        3,
        (b'b', GOTO, -32765, 0),
        6,
    ),
    (
        &[NOP, NOP, NOP, GOTO, 0x7f, 0xff],
        3,
        (b'b', GOTO, 32770, 0),
        6,
    ),
    (&[GOTO, 0xff, 0xff], 0, (b'b', GOTO, -1, 0), 3),
    (
        &[NOP, NOP, GOTO_W, 0x80, 0, 0, 0],
        2,
        (b'b', GOTO_W, -2147483646, 0),
        7,
    ),
    (
        &[GOTO_W, 0x7f, 0xff, 0xff, 0xff],
        0,
        (b'b', GOTO_W, 2147483647, 0),
        5,
    ),
    (&[JSR_W, 0xff, 0xff, 0xff, 0xff], 0, (b'b', JSR_W, -1, 0), 5),
    (&[GETSTATIC, 0xff, 0xff], 0, (b'm', GETSTATIC, 65535, 0), 3),
    (&[NEW, 0xff, 0xff], 0, (b'k', NEW, 65535, 0), 3),
    (&[NOP, NEWARRAY, 4], 1, (b'a', NEWARRAY, 4, 0), 3),
    (
        &[WIDE, ILOAD, 0xff, 0xff, 0x80, 0],
        0,
        (b'l', ILOAD, 65535, 1),
        4,
    ),
    (
        &[WIDE, LLOAD, 0xff, 0xff, 0x80, 0],
        0,
        (b'l', LLOAD, 65535, 1),
        4,
    ),
    (
        &[WIDE, FLOAD, 0xff, 0xff, 0x80, 0],
        0,
        (b'l', FLOAD, 65535, 1),
        4,
    ),
    (
        &[WIDE, DLOAD, 0xff, 0xff, 0x80, 0],
        0,
        (b'l', DLOAD, 65535, 1),
        4,
    ),
    (
        &[WIDE, ALOAD, 0xff, 0xff, 0x80, 0],
        0,
        (b'l', ALOAD, 65535, 1),
        4,
    ),
    (
        &[WIDE, ISTORE, 0xff, 0xff, 0x80, 0],
        0,
        (b'l', ISTORE, 65535, 1),
        4,
    ),
    (
        &[WIDE, LSTORE, 0xff, 0xff, 0x80, 0],
        0,
        (b'l', LSTORE, 65535, 1),
        4,
    ),
    (
        &[WIDE, FSTORE, 0xff, 0xff, 0x80, 0],
        0,
        (b'l', FSTORE, 65535, 1),
        4,
    ),
    (
        &[WIDE, DSTORE, 0xff, 0xff, 0x80, 0],
        0,
        (b'l', DSTORE, 65535, 1),
        4,
    ),
    (
        &[WIDE, ASTORE, 0xff, 0xff, 0x80, 0],
        0,
        (b'l', ASTORE, 65535, 1),
        4,
    ),
    (
        &[WIDE, IINC, 0xff, 0xff, 0x80, 0],
        0,
        (b'I', IINC, 65535, -32768),
        6,
    ),
    (
        &[WIDE, RET, 0xff, 0xff, 0x80, 0],
        0,
        (b'l', RET, 65535, 1),
        4,
    ),
    (&[0xff, WIDE, ILOAD, 1, 2], 1, (b'l', ILOAD, 258, 1), 5),
    (&[NEWARRAY, 4], 0, (b'a', NEWARRAY, 4, 0), 2),
    (&[NEWARRAY, 5], 0, (b'a', NEWARRAY, 5, 0), 2),
    (&[NEWARRAY, 6], 0, (b'a', NEWARRAY, 6, 0), 2),
    (&[NEWARRAY, 7], 0, (b'a', NEWARRAY, 7, 0), 2),
    (&[NEWARRAY, 8], 0, (b'a', NEWARRAY, 8, 0), 2),
    (&[NEWARRAY, 9], 0, (b'a', NEWARRAY, 9, 0), 2),
    (&[NEWARRAY, 10], 0, (b'a', NEWARRAY, 10, 0), 2),
    (&[NEWARRAY, 11], 0, (b'a', NEWARRAY, 11, 0), 2),
    (
        &[INVOKEINTERFACE, 0, 1, 1, 0],
        0,
        (b'f', INVOKEINTERFACE, 1, 1),
        5,
    ),
    (
        &[INVOKEINTERFACE, 0xff, 0xff, 0xff, 0],
        0,
        (b'f', INVOKEINTERFACE, 65535, 255),
        5,
    ),
    (
        &[INVOKEDYNAMIC, 0, 1, 0, 0],
        0,
        (b'd', INVOKEDYNAMIC, 1, 0),
        5,
    ),
    (
        &[MULTIANEWARRAY, 0, 1, 1],
        0,
        (b'n', MULTIANEWARRAY, 1, 1),
        4,
    ),
    (
        &[MULTIANEWARRAY, 0xff, 0xff, 0xff],
        0,
        (b'n', MULTIANEWARRAY, 65535, 255),
        4,
    ),
];

fn all_read(alloc: Global, table: &[(&[u8], u32, InstrRow, u32)]) -> bool {
    for (code, at, wanted, after) in table {
        if !is_read(alloc, code, *at, *wanted, *after) {
            return false;
        }
    }
    true
}

#[test]
fn instructions(rt: HostRuntime) {
    assert!(rt; all_read(rt.alloc(), &READ));
}

// Code and an address, the table there, its targets, and the address after it.
#[rattlefmt::skip]
const TABLES: [(&[u8], u32, InstrRow, &[i64], u32); 11] = [
    (
        &[
            TABLESWITCH, 0xee, 0xee, 0xee,
            0, 0, 0, 20, 0, 0, 0, 0, 0, 0, 0, 0,
            0, 0, 0, 24,
        ],
        0,
        (b't', TABLESWITCH, 20, 0),
        &[24],
        20,
    ),
    (
        &[
            TABLESWITCH, 0xee, 0xee, 0xee,
            0xff, 0xff, 0xff, 0xff, 0xff, 0xff, 0xff, 0xff, 0, 0, 0, 1,
            0, 0, 0, 1, 0, 0, 0, 2, 0, 0, 0, 3,
            0x7a, 0x7a,
        ],
        0,
        (b't', TABLESWITCH, -1, -1),
        &[1, 2, 3],
        28,
    ),
    (
        &[
            NOP,
            TABLESWITCH, 0xee, 0xee,
            0, 0, 0, 20, 0, 0, 0, 0, 0, 0, 0, 0,
            0, 0, 0, 24,
        ],
        1,
        (b't', TABLESWITCH, 21, 0),
        &[25],
        20,
    ),
    (
        &[
            NOP,
            TABLESWITCH, 0xee, 0xee,
            0xff, 0xff, 0xff, 0xff, 0xff, 0xff, 0xff, 0xff, 0, 0, 0, 1,
            0, 0, 0, 1, 0, 0, 0, 2, 0, 0, 0, 3,
            0x7a, 0x7a,
        ],
        1,
        (b't', TABLESWITCH, 0, -1),
        &[2, 3, 4],
        28,
    ),
    (
        &[
            NOP, NOP,
            TABLESWITCH, 0xee,
            0, 0, 0, 20, 0, 0, 0, 0, 0, 0, 0, 0,
            0, 0, 0, 24,
        ],
        2,
        (b't', TABLESWITCH, 22, 0),
        &[26],
        20,
    ),
    (
        &[
            NOP, NOP,
            TABLESWITCH, 0xee,
            0xff, 0xff, 0xff, 0xff, 0xff, 0xff, 0xff, 0xff, 0, 0, 0, 1,
            0, 0, 0, 1, 0, 0, 0, 2, 0, 0, 0, 3,
            0x7a, 0x7a,
        ],
        2,
        (b't', TABLESWITCH, 1, -1),
        &[3, 4, 5],
        28,
    ),
    (
        &[
            NOP, NOP, NOP,
            TABLESWITCH,
            0, 0, 0, 20, 0, 0, 0, 0, 0, 0, 0, 0,
            0, 0, 0, 24,
        ],
        3,
        (b't', TABLESWITCH, 23, 0),
        &[27],
        20,
    ),
    (
        &[
            NOP, NOP, NOP,
            TABLESWITCH,
            0xff, 0xff, 0xff, 0xff, 0xff, 0xff, 0xff, 0xff, 0, 0, 0, 1,
            0, 0, 0, 1, 0, 0, 0, 2, 0, 0, 0, 3,
            0x7a, 0x7a,
        ],
        3,
        (b't', TABLESWITCH, 2, -1),
        &[4, 5, 6],
        28,
    ),
    (
        &[
            TABLESWITCH, 0, 0, 0,
            0, 0, 0, 0, 0x7f, 0xff, 0xff, 0xff, 0x7f, 0xff, 0xff, 0xff,
            0x80, 0, 0, 0,
        ],
        0,
        (b't', TABLESWITCH, 0, 2147483647),
        &[-2147483648],
        20,
    ),
    (
        &[
            TABLESWITCH, 0, 0, 0,
            0x80, 0, 0, 0, 0x80, 0, 0, 0, 0x80, 0, 0, 0,
            0x7f, 0xff, 0xff, 0xff,
        ],
        0,
        (b't', TABLESWITCH, -2147483648, -2147483648),
        &[2147483647],
        20,
    ),
    (
        &[
            TABLESWITCH, 0, 0, 0,
            0, 0, 0, 0, 0xff, 0xff, 0xff, 0xff, 0, 0, 0, 0,
            0, 0, 0, 0, 0, 0, 0, 0,
        ],
        0,
        (b't', TABLESWITCH, 0, -1),
        &[0, 0],
        24,
    ),
];

fn is_table(
    alloc: Global,
    code: &[u8],
    at: u32,
    wanted: InstrRow,
    targets: &[i64],
    after: u32,
) -> bool {
    if (at as usize) < code.len() && code.len() < 99 {
        match read_instr(alloc, code, at) {
            Ok((instr, next)) => {
                reported(&instr) == wanted && has_targets(&instr, targets) && next == after
            }
            Err(_) => false,
        }
    } else {
        false
    }
}

fn all_tables(alloc: Global, table: &[(&[u8], u32, InstrRow, &[i64], u32)]) -> bool {
    for (code, at, wanted, targets, after) in table {
        if !is_table(alloc, code, *at, *wanted, targets, *after) {
            return false;
        }
    }
    true
}

#[test]
fn tables(rt: HostRuntime) {
    assert!(rt; all_tables(rt.alloc(), &TABLES));
}

// Code and an address, the lookup there, its pairs, and the address after it.
#[rattlefmt::skip]
const LOOKUPS: [(&[u8], u32, InstrRow, &[(i32, i64)], u32); 9] = [
    (
        &[LOOKUPSWITCH, 0xee, 0xee, 0xee, 0, 0, 0, 20, 0, 0, 0, 0],
        0,
        (b'u', LOOKUPSWITCH, 20, 0),
        &[],
        12,
    ),
    (
        &[
            LOOKUPSWITCH, 0xee, 0xee, 0xee,
            0xff, 0xff, 0xff, 0xff, 0, 0, 0, 2,
            0xff, 0xff, 0xff, 0xfb, 0, 0, 0, 1,
            0, 0, 0, 7, 0, 0, 0, 2,
            0x7a,
        ],
        0,
        (b'u', LOOKUPSWITCH, -1, 0),
        &[(-5, 1), (7, 2)],
        28,
    ),
    (
        &[NOP, LOOKUPSWITCH, 0xee, 0xee, 0, 0, 0, 20, 0, 0, 0, 0],
        1,
        (b'u', LOOKUPSWITCH, 21, 0),
        &[],
        12,
    ),
    (
        &[
            NOP,
            LOOKUPSWITCH, 0xee, 0xee,
            0xff, 0xff, 0xff, 0xff, 0, 0, 0, 2,
            0xff, 0xff, 0xff, 0xfb, 0, 0, 0, 1,
            0, 0, 0, 7, 0, 0, 0, 2,
            0x7a,
        ],
        1,
        (b'u', LOOKUPSWITCH, 0, 0),
        &[(-5, 2), (7, 3)],
        28,
    ),
    (
        &[NOP, NOP, LOOKUPSWITCH, 0xee, 0, 0, 0, 20, 0, 0, 0, 0],
        2,
        (b'u', LOOKUPSWITCH, 22, 0),
        &[],
        12,
    ),
    (
        &[
            NOP, NOP,
            LOOKUPSWITCH, 0xee,
            0xff, 0xff, 0xff, 0xff, 0, 0, 0, 2,
            0xff, 0xff, 0xff, 0xfb, 0, 0, 0, 1,
            0, 0, 0, 7, 0, 0, 0, 2,
            0x7a,
        ],
        2,
        (b'u', LOOKUPSWITCH, 1, 0),
        &[(-5, 3), (7, 4)],
        28,
    ),
    (
        &[NOP, NOP, NOP, LOOKUPSWITCH, 0, 0, 0, 20, 0, 0, 0, 0],
        3,
        (b'u', LOOKUPSWITCH, 23, 0),
        &[],
        12,
    ),
    (
        &[
            NOP, NOP, NOP,
            LOOKUPSWITCH,
            0xff, 0xff, 0xff, 0xff, 0, 0, 0, 2,
            0xff, 0xff, 0xff, 0xfb, 0, 0, 0, 1,
            0, 0, 0, 7, 0, 0, 0, 2,
            0x7a,
        ],
        3,
        (b'u', LOOKUPSWITCH, 2, 0),
        &[(-5, 4), (7, 5)],
        28,
    ),
    (
        &[
            LOOKUPSWITCH, 0, 0, 0,
            0, 0, 0, 0, 0, 0, 0, 3,
            0x80, 0, 0, 0, 0, 0, 0, 0,
            0, 0, 0, 0, 0, 0, 0, 0,
            0x7f, 0xff, 0xff, 0xff, 0, 0, 0, 0,
        ],
        0,
        (b'u', LOOKUPSWITCH, 0, 0),
        &[(-2147483648, 0), (0, 0), (2147483647, 0)],
        36,
    ),
];

fn is_lookup(
    alloc: Global,
    code: &[u8],
    at: u32,
    wanted: InstrRow,
    pairs: &[(i32, i64)],
    after: u32,
) -> bool {
    if (at as usize) < code.len() && code.len() < 99 {
        match read_instr(alloc, code, at) {
            Ok((instr, next)) => {
                reported(&instr) == wanted && has_pairs(&instr, pairs) && next == after
            }
            Err(_) => false,
        }
    } else {
        false
    }
}

fn all_lookups(alloc: Global, table: &[(&[u8], u32, InstrRow, &[(i32, i64)], u32)]) -> bool {
    for (code, at, wanted, pairs, after) in table {
        if !is_lookup(alloc, code, *at, *wanted, pairs, *after) {
            return false;
        }
    }
    true
}

#[test]
fn lookups(rt: HostRuntime) {
    assert!(rt; all_lookups(rt.alloc(), &LOOKUPS));
}

// Code and an address at which no instruction is read, and why.
const REFUSED: [(&[u8], u32, OpError); 35] = [
    (&[TABLESWITCH], 0, OpError::Cut),
    (&[LOOKUPSWITCH], 0, OpError::Cut),
    (&[INVOKEINTERFACE], 0, OpError::Cut),
    (&[INVOKEDYNAMIC], 0, OpError::Cut),
    (&[NEWARRAY], 0, OpError::Cut),
    (&[MULTIANEWARRAY], 0, OpError::Cut),
    (&[SIPUSH, 1], 0, OpError::Cut),
    (&[BIPUSH], 0, OpError::Cut),
    (&[LDC_W, 0xff], 0, OpError::Cut),
    (&[IINC, 0xff], 0, OpError::Cut),
    (&[IFEQ, 0xff], 0, OpError::Cut),
    (&[GOTO_W, 0xff, 0xff, 0xff], 0, OpError::Cut),
    (&[GETSTATIC, 0xff], 0, OpError::Cut),
    (&[WIDE], 0, OpError::Cut),
    (&[WIDE, ILOAD], 0, OpError::Cut),
    (&[WIDE, ILOAD, 0xff], 0, OpError::Cut),
    (&[WIDE, IINC], 0, OpError::Cut),
    (&[WIDE, IINC, 0, 0], 0, OpError::Cut),
    (&[WIDE, IINC, 0, 0, 0xff], 0, OpError::Cut),
    (&[WIDE, NOP], 0, OpError::BadOperand),
    (
        &[WIDE, ACONST_NULL, 2, 3, 4, 5, 6, 7, 8],
        0,
        OpError::BadOperand,
    ),
    (&[WIDE, ILOAD_0, 0, 0], 0, OpError::BadOperand),
    (&[WIDE, GOTO, 0, 0], 0, OpError::BadOperand),
    (&[WIDE, WIDE], 0, OpError::BadOperand),
    (&[WIDE, 0xff], 0, OpError::BadOperand),
    (&[WIDE, NEWARRAY], 0, OpError::BadOperand),
    (&[NEWARRAY, 0], 0, OpError::BadOperand),
    (&[NEWARRAY, 3], 0, OpError::BadOperand),
    (&[NEWARRAY, 12], 0, OpError::BadOperand),
    (&[NEWARRAY, 0xff], 0, OpError::BadOperand),
    (&[INVOKEINTERFACE, 0, 1, 0, 0], 0, OpError::BadOperand),
    (&[INVOKEINTERFACE, 0, 1, 1, 1], 0, OpError::BadOperand),
    (&[INVOKEINTERFACE, 0, 1, 0, 1], 0, OpError::BadOperand),
    (&[INVOKEINTERFACE, 0, 1, 0], 0, OpError::Cut),
    (&[INVOKEINTERFACE, 0, 1, 1], 0, OpError::Cut),
];

#[rattlefmt::skip]
const REFUSED_MORE: [(&[u8], u32, OpError); 34] = [
    (&[INVOKEDYNAMIC, 0, 1, 0, 1], 0, OpError::BadOperand),
    (&[INVOKEDYNAMIC, 0, 1, 1, 0], 0, OpError::BadOperand),
    (&[INVOKEDYNAMIC, 0, 1, 0], 0, OpError::Cut),
    (&[INVOKEDYNAMIC, 0, 1, 0xff], 0, OpError::Cut),
    (&[MULTIANEWARRAY, 0, 1, 0], 0, OpError::BadOperand),
    (&[MULTIANEWARRAY, 0, 1], 0, OpError::Cut),
    (
        &[TABLESWITCH, 0xee, 0xee, 0xee, 0, 0, 0, 0, 0, 0, 0, 0],
        0,
        OpError::Cut,
    ),
    (&[TABLESWITCH, 0xee, 0xee], 0, OpError::Cut),
    (
        &[NOP, TABLESWITCH, 0xee, 0xee, 0, 0, 0, 0, 0, 0, 0, 0],
        1,
        OpError::Cut,
    ),
    (&[NOP, TABLESWITCH, 0xee], 1, OpError::Cut),
    (
        &[NOP, NOP, TABLESWITCH, 0xee, 0, 0, 0, 0, 0, 0, 0, 0],
        2,
        OpError::Cut,
    ),
    (&[NOP, NOP, TABLESWITCH], 2, OpError::Cut),
    (
        &[NOP, NOP, NOP, TABLESWITCH, 0, 0, 0, 0, 0, 0, 0, 0],
        3,
        OpError::Cut,
    ),
    (&[NOP, NOP, NOP, TABLESWITCH], 3, OpError::Cut),
    (
        &[TABLESWITCH, 0, 0, 0, 0, 0, 0, 0, 0, 0, 0, 1, 0, 0, 0, 0],
        0,
        OpError::BadOperand,
    ),
    (
        &[
            TABLESWITCH, 0, 0, 0,
            0, 0, 0, 0, 0, 0, 0, 1, 0, 0, 0, 0,
            0, 0, 0, 0,
        ],
        0,
        OpError::BadOperand,
    ),
    (
        &[
            TABLESWITCH, 0, 0, 0,
            0, 0, 0, 0, 0x80, 0, 0, 0, 0x7f, 0xff, 0xff, 0xff,
        ],
        0,
        OpError::Cut,
    ),
    (
        &[
            TABLESWITCH, 0, 0, 0,
            0, 0, 0, 0, 0, 0, 0, 0, 0, 0, 0, 1,
            0, 0, 0, 0,
        ],
        0,
        OpError::Cut,
    ),
    (
        &[TABLESWITCH, 0, 0, 0, 0, 0, 0, 0, 0, 0, 0, 0, 0, 0, 0],
        0,
        OpError::Cut,
    ),
    (&[TABLESWITCH, 0, 0], 0, OpError::Cut),
    (
        &[
            TABLESWITCH, 0, 0, 0,
            0, 0, 0, 0, 0x7f, 0xff, 0xff, 0xff, 0x80, 0, 0, 0,
        ],
        0,
        OpError::BadOperand,
    ),
    (
        &[LOOKUPSWITCH, 0xee, 0xee, 0xee, 0, 0, 0, 0],
        0,
        OpError::Cut,
    ),
    (
        &[NOP, LOOKUPSWITCH, 0xee, 0xee, 0, 0, 0, 0],
        1,
        OpError::Cut,
    ),
    (&[NOP, NOP, LOOKUPSWITCH, 0xee, 0, 0, 0, 0], 2, OpError::Cut),
    (&[NOP, NOP, NOP, LOOKUPSWITCH, 0, 0, 0, 0], 3, OpError::Cut),
    (
        &[LOOKUPSWITCH, 0, 0, 0, 0, 0, 0, 0, 0xff, 0xff, 0xff, 0xff],
        0,
        OpError::BadOperand,
    ),
    (
        &[LOOKUPSWITCH, 0, 0, 0, 0, 0, 0, 0, 0x80, 0, 0, 0],
        0,
        OpError::BadOperand,
    ),
    (
        &[
            LOOKUPSWITCH, 0, 0, 0,
            0, 0, 0, 0, 0, 0, 0, 1,
            0, 0, 0, 0, 0, 0, 0,
        ],
        0,
        OpError::Cut,
    ),
    (
        &[
            LOOKUPSWITCH, 0, 0, 0,
            0, 0, 0, 0, 0, 0, 0, 2,
            0, 0, 0, 1, 0, 0, 0, 0,
            0, 0, 0, 1, 0, 0, 0, 4,
        ],
        0,
        OpError::BadOperand,
    ),
    (
        &[
            LOOKUPSWITCH, 0, 0, 0,
            0, 0, 0, 0, 0, 0, 0, 2,
            0, 0, 0, 2, 0, 0, 0, 0,
            0, 0, 0, 1, 0, 0, 0, 4,
        ],
        0,
        OpError::BadOperand,
    ),
    (
        &[
            LOOKUPSWITCH, 0, 0, 0,
            0, 0, 0, 0, 0, 0, 0, 2,
            0xff, 0xff, 0xff, 0xff, 0, 0, 0, 0,
            0xff, 0xff, 0xff, 0xfe, 0, 0, 0, 4,
        ],
        0,
        OpError::BadOperand,
    ),
    (
        &[
            LOOKUPSWITCH, 0, 0, 0,
            0, 0, 0, 0, 0, 0, 0, 2,
            0, 0, 0, 2, 0, 0, 0, 0,
            0, 0, 0, 1, 0, 0, 0,
        ],
        0,
        OpError::Cut,
    ),
    (
        &[LOOKUPSWITCH, 0, 0, 0, 0, 0, 0, 0, 0x7f, 0xff, 0xff, 0xff],
        0,
        OpError::Cut,
    ),
    (
        &[
            LOOKUPSWITCH, 0, 0, 0,
            0, 0, 0, 0, 0, 0, 0, 3,
            0, 0, 0, 0, 0, 0, 0, 0,
            0, 0, 0, 1, 0, 0, 0, 0,
            0, 0, 0, 1, 0, 0, 0, 0,
        ],
        0,
        OpError::BadOperand,
    ),
];

fn refusal(alloc: Global, code: &[u8], at: u32) -> Option<OpError> {
    if (at as usize) < code.len() && code.len() < 99 {
        read_instr(alloc, code, at).err()
    } else {
        None
    }
}

fn all_refusals(alloc: Global, table: &[(&[u8], u32, OpError)]) -> bool {
    for (code, at, wanted) in table {
        if refusal(alloc, code, *at) != Some(*wanted) {
            return false;
        }
    }
    true
}

#[test]
fn refusals(rt: HostRuntime) {
    assert!(rt; all_refusals(rt.alloc(), &REFUSED));
    assert!(rt; all_refusals(rt.alloc(), &REFUSED_MORE));
}

fn is_reserved(alloc: Global, op: u8) -> bool {
    refusal(alloc, &[op, 1, 2, 3, 4, 5, 6, 7, 8], 0) == Some(OpError::Reserved(op))
}

#[test]
fn reserved_opcodes(rt: HostRuntime) {
    for op in 203..=255 {
        assert!(rt; is_reserved(rt.alloc(), op));
    }
}
