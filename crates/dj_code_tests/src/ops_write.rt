use crate::opcodes::*;
use crate::reported::{InstrRow, has_pairs, has_targets, reported};
use dj_ops::{Instr, OpError, length, next_address, read_instr, write_instr};
use std::alloc::Global;

// The instruction that these bytes spell at the address, and what is written for it; none where it isn't as long as `length` says.
fn written_at(alloc: Global, at: u32, bytes: &[u8]) -> Result<Option<(Instr, Vec<u8>)>, OpError> {
    let mut code = Vec::from_elem(alloc, 0, at as usize)?;
    code.extend_from_slice(bytes)?;
    next_address();
    if code.len() < 199_999 && (at as usize) < code.len() {
        let (instr, next) = read_instr(alloc, &code, at)?;
        let mut out = Vec::new(alloc);
        write_instr(&instr, at, &mut out)?;
        if next - at == length(&instr, at) {
            return Ok(Some((instr, out)));
        }
    }
    Ok(None)
}

fn is_written(alloc: Global, at: u32, bytes: &[u8], wanted: InstrRow) -> bool {
    match written_at(alloc, at, bytes) {
        Ok(Some((instr, out))) => reported(&instr) == wanted && out.as_slice() == bytes,
        _ => false,
    }
}

// An address, the bytes that are written there, and the instruction.
const WRITTEN: [(u32, &[u8], InstrRow); 37] = [
    (0, &[NOP], (b's', NOP, 0, 0)),
    (0, &[ACONST_NULL], (b's', ACONST_NULL, 0, 0)),
    (0, &[DCONST_1], (b's', DCONST_1, 0, 0)),
    (0, &[ILOAD_0], (b's', ILOAD_0, 0, 0)),
    (0, &[ALOAD_3], (b's', ALOAD_3, 0, 0)),
    (0, &[IALOAD], (b's', IALOAD, 0, 0)),
    (0, &[SWAP], (b's', SWAP, 0, 0)),
    (0, &[LXOR], (b's', LXOR, 0, 0)),
    (0, &[I2L], (b's', I2L, 0, 0)),
    (0, &[DCMPG], (b's', DCMPG, 0, 0)),
    (0, &[IRETURN], (b's', IRETURN, 0, 0)),
    (0, &[RETURN], (b's', RETURN, 0, 0)),
    (0, &[ARRAYLENGTH], (b's', ARRAYLENGTH, 0, 0)),
    (0, &[ATHROW], (b's', ATHROW, 0, 0)),
    (0, &[MONITORENTER], (b's', MONITORENTER, 0, 0)),
    (0, &[MONITOREXIT], (b's', MONITOREXIT, 0, 0)),
    (0, &[BREAKPOINT], (b's', BREAKPOINT, 0, 0)),
    (0, &[BIPUSH, 0x80], (b'p', BIPUSH, -128, 0)),
    (5, &[BIPUSH, 0x7f], (b'p', BIPUSH, 127, 0)),
    (0, &[SIPUSH, 0x80, 0], (b'p', SIPUSH, -32768, 0)),
    (0, &[SIPUSH, 0x7f, 0xff], (b'p', SIPUSH, 32767, 0)),
    (0, &[SIPUSH, 0, 1], (b'p', SIPUSH, 1, 0)),
    (0, &[LDC, 0xff], (b'c', LDC, 255, 0)),
    (0, &[LDC, 0], (b'c', LDC, 0, 0)),
    (0, &[LDC_W, 0, 0xff], (b'c', LDC_W, 255, 0)),
    (0, &[LDC2_W, 0xff, 0xff], (b'c', LDC2_W, 65535, 0)),
    (0, &[ILOAD, 0], (b'l', ILOAD, 0, 0)),
    (0, &[ASTORE, 0xff], (b'l', ASTORE, 255, 0)),
    (0, &[RET, 7], (b'l', RET, 7, 0)),
    (0, &[WIDE, ALOAD, 0, 5], (b'l', ALOAD, 5, 1)),
    (0, &[WIDE, ISTORE, 0xff, 0xff], (b'l', ISTORE, 65535, 1)),
    (0, &[WIDE, RET, 1, 0], (b'l', RET, 256, 1)),
    (0, &[IINC, 0xff, 0x80], (b'i', IINC, 255, -128)),
    (0, &[IINC, 0, 0x7f], (b'i', IINC, 0, 127)),
    (
        0,
        &[WIDE, IINC, 0, 0xff, 0xff, 0x80],
        (b'I', IINC, 255, -128),
    ),
    (
        0,
        &[WIDE, IINC, 0xff, 0xff, 0x7f, 0xff],
        (b'I', IINC, 65535, 32767),
    ),
    (0, &[WIDE, IINC, 0, 1, 0xff, 0xff], (b'I', IINC, 1, -1)),
];

const WRITTEN_MORE: [(u32, &[u8], InstrRow); 37] = [
    (0, &[IFEQ, 0, 0], (b'b', IFEQ, 0, 0)),
    (10, &[IFNE, 0xff, 0xf9], (b'b', IFNE, 3, 0)),
    (0, &[GOTO, 0x7f, 0xff], (b'b', GOTO, 32767, 0)),
    (32768, &[GOTO, 0x80, 0], (b'b', GOTO, 0, 0)),
    (5, &[JSR, 0, 1], (b'b', JSR, 6, 0)),
    (100, &[IFNULL, 0xff, 0xf6], (b'b', IFNULL, 90, 0)),
    (100, &[IFNONNULL, 0, 100], (b'b', IFNONNULL, 200, 0)),
    (40000, &[IF_ACMPNE, 0x80, 1], (b'b', IF_ACMPNE, 7233, 0)),
    (7233, &[IF_ACMPEQ, 0x7f, 0xff], (b'b', IF_ACMPEQ, 40000, 0)),
    (0, &[GOTO_W, 0, 1, 0x86, 0xa0], (b'b', GOTO_W, 100000, 0)),
    (
        100000,
        &[GOTO_W, 0xff, 0xfe, 0x79, 0x60],
        (b'b', GOTO_W, 0, 0),
    ),
    (7, &[JSR_W, 0, 0, 0, 0], (b'b', JSR_W, 7, 0)),
    (
        1,
        &[GOTO_W, 0x7f, 0xff, 0xff, 0xff],
        (b'b', GOTO_W, 2147483648, 0),
    ),
    (0, &[GETSTATIC, 0, 1], (b'm', GETSTATIC, 1, 0)),
    (0, &[PUTSTATIC, 0, 0xff], (b'm', PUTSTATIC, 255, 0)),
    (0, &[GETFIELD, 1, 0], (b'm', GETFIELD, 256, 0)),
    (0, &[PUTFIELD, 0xff, 0xff], (b'm', PUTFIELD, 65535, 0)),
    (0, &[INVOKEVIRTUAL, 0, 0], (b'm', INVOKEVIRTUAL, 0, 0)),
    (0, &[INVOKESPECIAL, 0, 5], (b'm', INVOKESPECIAL, 5, 0)),
    (0, &[INVOKESTATIC, 0, 5], (b'm', INVOKESTATIC, 5, 0)),
    (
        0,
        &[INVOKEINTERFACE, 0, 7, 1, 0],
        (b'f', INVOKEINTERFACE, 7, 1),
    ),
    (
        0,
        &[INVOKEINTERFACE, 0xff, 0xff, 0xff, 0],
        (b'f', INVOKEINTERFACE, 65535, 255),
    ),
    (
        0,
        &[INVOKEDYNAMIC, 1, 2, 0, 0],
        (b'd', INVOKEDYNAMIC, 258, 0),
    ),
    (0, &[NEW, 0, 1], (b'k', NEW, 1, 0)),
    (0, &[ANEWARRAY, 0, 2], (b'k', ANEWARRAY, 2, 0)),
    (0, &[CHECKCAST, 0, 3], (b'k', CHECKCAST, 3, 0)),
    (0, &[INSTANCEOF, 0xff, 0xfe], (b'k', INSTANCEOF, 65534, 0)),
    (0, &[NEWARRAY, 4], (b'a', NEWARRAY, 4, 0)),
    (0, &[NEWARRAY, 5], (b'a', NEWARRAY, 5, 0)),
    (0, &[NEWARRAY, 6], (b'a', NEWARRAY, 6, 0)),
    (0, &[NEWARRAY, 7], (b'a', NEWARRAY, 7, 0)),
    (0, &[NEWARRAY, 8], (b'a', NEWARRAY, 8, 0)),
    (0, &[NEWARRAY, 9], (b'a', NEWARRAY, 9, 0)),
    (0, &[NEWARRAY, 10], (b'a', NEWARRAY, 10, 0)),
    (0, &[NEWARRAY, 11], (b'a', NEWARRAY, 11, 0)),
    (0, &[MULTIANEWARRAY, 0, 1, 1], (b'n', MULTIANEWARRAY, 1, 1)),
    (
        0,
        &[MULTIANEWARRAY, 0xff, 0xff, 0xff],
        (b'n', MULTIANEWARRAY, 65535, 255),
    ),
];

fn all_written(alloc: Global, table: &[(u32, &[u8], InstrRow)]) -> bool {
    for (at, bytes, wanted) in table {
        if !is_written(alloc, *at, bytes, *wanted) {
            return false;
        }
    }
    true
}

#[test]
fn written_instructions(rt: HostRuntime) {
    assert!(rt; all_written(rt.alloc(), &WRITTEN));
    assert!(rt; all_written(rt.alloc(), &WRITTEN_MORE));
}

fn is_written_table(
    alloc: Global,
    at: u32,
    bytes: &[u8],
    wanted: InstrRow,
    targets: &[i64],
) -> bool {
    match written_at(alloc, at, bytes) {
        Ok(Some((instr, out))) => reported(&instr) == wanted
            && has_targets(&instr, targets)
            && out.as_slice() == bytes,
        _ => false,
    }
}

// An address, the bytes that are written there, the table, and its targets.
#[rattlefmt::skip]
const WRITTEN_TABLES: [(u32, &[u8], InstrRow, &[i64]); 30] = [
    (
        0,
        &[
            TABLESWITCH, 0, 0, 0,
            0, 0, 0, 30, 0, 0, 0, 0, 0, 0, 0, 0,
            0, 0, 0, 0,
        ],
        (b't', TABLESWITCH, 30, 0),
        &[0],
    ),
    (
        0,
        &[
            TABLESWITCH, 0, 0, 0,
            0, 0, 0, 0, 0xff, 0xff, 0xff, 0xff, 0, 0, 0, 1,
            0, 0, 0, 1, 0, 0, 0, 2, 0, 0, 0, 0,
        ],
        (b't', TABLESWITCH, 0, -1),
        &[1, 2, 0],
    ),
    (
        0,
        &[
            TABLESWITCH, 0, 0, 0,
            0, 0, 0, 0, 0x7f, 0xff, 0xff, 0xff, 0x7f, 0xff, 0xff, 0xff,
            0, 0, 0, 5,
        ],
        (b't', TABLESWITCH, 0, 2147483647),
        &[5],
    ),
    (
        0,
        &[
            TABLESWITCH, 0, 0, 0,
            0, 0, 0, 0, 0x80, 0, 0, 0, 0x80, 0, 0, 1,
            0, 0, 0, 1, 0, 0, 0, 2,
        ],
        (b't', TABLESWITCH, 0, -2147483648),
        &[1, 2],
    ),
    (
        0,
        &[
            TABLESWITCH, 0, 0, 0,
            0, 0, 0, 9, 0x7f, 0xff, 0xff, 0xfe, 0x7f, 0xff, 0xff, 0xff,
            0, 0, 0, 1, 0, 0, 0, 2,
        ],
        (b't', TABLESWITCH, 9, 2147483646),
        &[1, 2],
    ),
    (
        1,
        &[
            TABLESWITCH, 0, 0,
            0, 0, 0, 30, 0, 0, 0, 0, 0, 0, 0, 0,
            0, 0, 0, 0,
        ],
        (b't', TABLESWITCH, 31, 0),
        &[1],
    ),
    (
        1,
        &[
            TABLESWITCH, 0, 0,
            0, 0, 0, 0, 0xff, 0xff, 0xff, 0xff, 0, 0, 0, 1,
            0, 0, 0, 1, 0, 0, 0, 2, 0xff, 0xff, 0xff, 0xff,
        ],
        (b't', TABLESWITCH, 1, -1),
        &[2, 3, 0],
    ),
    (
        1,
        &[
            TABLESWITCH, 0, 0,
            0xff, 0xff, 0xff, 0xff, 0x7f, 0xff, 0xff, 0xff, 0x7f, 0xff, 0xff, 0xff,
            0, 0, 0, 4,
        ],
        (b't', TABLESWITCH, 0, 2147483647),
        &[5],
    ),
    (
        1,
        &[
            TABLESWITCH, 0, 0,
            0xff, 0xff, 0xff, 0xff, 0x80, 0, 0, 0, 0x80, 0, 0, 1,
            0, 0, 0, 0, 0, 0, 0, 1,
        ],
        (b't', TABLESWITCH, 0, -2147483648),
        &[1, 2],
    ),
    (
        1,
        &[
            TABLESWITCH, 0, 0,
            0, 0, 0, 8, 0x7f, 0xff, 0xff, 0xfe, 0x7f, 0xff, 0xff, 0xff,
            0, 0, 0, 0, 0, 0, 0, 1,
        ],
        (b't', TABLESWITCH, 9, 2147483646),
        &[1, 2],
    ),
    (
        2,
        &[
            TABLESWITCH, 0,
            0, 0, 0, 30, 0, 0, 0, 0, 0, 0, 0, 0,
            0, 0, 0, 0,
        ],
        (b't', TABLESWITCH, 32, 0),
        &[2],
    ),
    (
        2,
        &[
            TABLESWITCH, 0,
            0, 0, 0, 0, 0xff, 0xff, 0xff, 0xff, 0, 0, 0, 1,
            0, 0, 0, 1, 0, 0, 0, 2, 0xff, 0xff, 0xff, 0xfe,
        ],
        (b't', TABLESWITCH, 2, -1),
        &[3, 4, 0],
    ),
    (
        2,
        &[
            TABLESWITCH, 0,
            0xff, 0xff, 0xff, 0xfe, 0x7f, 0xff, 0xff, 0xff, 0x7f, 0xff, 0xff, 0xff,
            0, 0, 0, 3,
        ],
        (b't', TABLESWITCH, 0, 2147483647),
        &[5],
    ),
    (
        2,
        &[
            TABLESWITCH, 0,
            0xff, 0xff, 0xff, 0xfe, 0x80, 0, 0, 0, 0x80, 0, 0, 1,
            0xff, 0xff, 0xff, 0xff, 0, 0, 0, 0,
        ],
        (b't', TABLESWITCH, 0, -2147483648),
        &[1, 2],
    ),
    (
        2,
        &[
            TABLESWITCH, 0,
            0, 0, 0, 7, 0x7f, 0xff, 0xff, 0xfe, 0x7f, 0xff, 0xff, 0xff,
            0xff, 0xff, 0xff, 0xff, 0, 0, 0, 0,
        ],
        (b't', TABLESWITCH, 9, 2147483646),
        &[1, 2],
    ),
    (
        3,
        &[
            TABLESWITCH,
            0, 0, 0, 30, 0, 0, 0, 0, 0, 0, 0, 0,
            0, 0, 0, 0,
        ],
        (b't', TABLESWITCH, 33, 0),
        &[3],
    ),
    (
        3,
        &[
            TABLESWITCH,
            0, 0, 0, 0, 0xff, 0xff, 0xff, 0xff, 0, 0, 0, 1,
            0, 0, 0, 1, 0, 0, 0, 2, 0xff, 0xff, 0xff, 0xfd,
        ],
        (b't', TABLESWITCH, 3, -1),
        &[4, 5, 0],
    ),
    (
        3,
        &[
            TABLESWITCH,
            0xff, 0xff, 0xff, 0xfd, 0x7f, 0xff, 0xff, 0xff, 0x7f, 0xff, 0xff, 0xff,
            0, 0, 0, 2,
        ],
        (b't', TABLESWITCH, 0, 2147483647),
        &[5],
    ),
    (
        3,
        &[
            TABLESWITCH,
            0xff, 0xff, 0xff, 0xfd, 0x80, 0, 0, 0, 0x80, 0, 0, 1,
            0xff, 0xff, 0xff, 0xfe, 0xff, 0xff, 0xff, 0xff,
        ],
        (b't', TABLESWITCH, 0, -2147483648),
        &[1, 2],
    ),
    (
        3,
        &[
            TABLESWITCH,
            0, 0, 0, 6, 0x7f, 0xff, 0xff, 0xfe, 0x7f, 0xff, 0xff, 0xff,
            0xff, 0xff, 0xff, 0xfe, 0xff, 0xff, 0xff, 0xff,
        ],
        (b't', TABLESWITCH, 9, 2147483646),
        &[1, 2],
    ),
    (
        4,
        &[
            TABLESWITCH, 0, 0, 0,
            0, 0, 0, 30, 0, 0, 0, 0, 0, 0, 0, 0,
            0, 0, 0, 0,
        ],
        (b't', TABLESWITCH, 34, 0),
        &[4],
    ),
    (
        4,
        &[
            TABLESWITCH, 0, 0, 0,
            0, 0, 0, 0, 0xff, 0xff, 0xff, 0xff, 0, 0, 0, 1,
            0, 0, 0, 1, 0, 0, 0, 2, 0xff, 0xff, 0xff, 0xfc,
        ],
        (b't', TABLESWITCH, 4, -1),
        &[5, 6, 0],
    ),
    (
        4,
        &[
            TABLESWITCH, 0, 0, 0,
            0xff, 0xff, 0xff, 0xfc, 0x7f, 0xff, 0xff, 0xff, 0x7f, 0xff, 0xff, 0xff,
            0, 0, 0, 1,
        ],
        (b't', TABLESWITCH, 0, 2147483647),
        &[5],
    ),
    (
        4,
        &[
            TABLESWITCH, 0, 0, 0,
            0xff, 0xff, 0xff, 0xfc, 0x80, 0, 0, 0, 0x80, 0, 0, 1,
            0xff, 0xff, 0xff, 0xfd, 0xff, 0xff, 0xff, 0xfe,
        ],
        (b't', TABLESWITCH, 0, -2147483648),
        &[1, 2],
    ),
    (
        4,
        &[
            TABLESWITCH, 0, 0, 0,
            0, 0, 0, 5, 0x7f, 0xff, 0xff, 0xfe, 0x7f, 0xff, 0xff, 0xff,
            0xff, 0xff, 0xff, 0xfd, 0xff, 0xff, 0xff, 0xfe,
        ],
        (b't', TABLESWITCH, 9, 2147483646),
        &[1, 2],
    ),
    (
        65530,
        &[
            TABLESWITCH, 0,
            0, 0, 0, 30, 0, 0, 0, 0, 0, 0, 0, 0,
            0, 0, 0, 0,
        ],
        (b't', TABLESWITCH, 65560, 0),
        &[65530],
    ),
    (
        65530,
        &[
            TABLESWITCH, 0,
            0, 0, 0, 0, 0xff, 0xff, 0xff, 0xff, 0, 0, 0, 1,
            0, 0, 0, 1, 0, 0, 0, 2, 0xff, 0xff, 0, 6,
        ],
        (b't', TABLESWITCH, 65530, -1),
        &[65531, 65532, 0],
    ),
    (
        65530,
        &[
            TABLESWITCH, 0,
            0xff, 0xff, 0, 6, 0x7f, 0xff, 0xff, 0xff, 0x7f, 0xff, 0xff, 0xff,
            0xff, 0xff, 0, 0x0b,
        ],
        (b't', TABLESWITCH, 0, 2147483647),
        &[5],
    ),
    (
        65530,
        &[
            TABLESWITCH, 0,
            0xff, 0xff, 0, 6, 0x80, 0, 0, 0, 0x80, 0, 0, 1,
            0xff, 0xff, 0, 7, 0xff, 0xff, 0, 8,
        ],
        (b't', TABLESWITCH, 0, -2147483648),
        &[1, 2],
    ),
    (
        65530,
        &[
            TABLESWITCH, 0,
            0xff, 0xff, 0, 0x0f, 0x7f, 0xff, 0xff, 0xfe, 0x7f, 0xff, 0xff, 0xff,
            0xff, 0xff, 0, 7, 0xff, 0xff, 0, 8,
        ],
        (b't', TABLESWITCH, 9, 2147483646),
        &[1, 2],
    ),
];

fn all_written_tables(alloc: Global, table: &[(u32, &[u8], InstrRow, &[i64])]) -> bool {
    for (at, bytes, wanted, targets) in table {
        if !is_written_table(alloc, *at, bytes, *wanted, targets) {
            return false;
        }
    }
    true
}

#[test]
fn written_tables(rt: HostRuntime) {
    assert!(rt; all_written_tables(rt.alloc(), &WRITTEN_TABLES));
}

fn is_written_lookup(
    alloc: Global,
    at: u32,
    bytes: &[u8],
    wanted: InstrRow,
    pairs: &[(i32, i64)],
) -> bool {
    match written_at(alloc, at, bytes) {
        Ok(Some((instr, out))) => reported(&instr) == wanted
            && has_pairs(&instr, pairs)
            && out.as_slice() == bytes,
        _ => false,
    }
}

// An address, the bytes that are written there, the lookup, and its pairs.
#[rattlefmt::skip]
const WRITTEN_LOOKUPS: [(u32, &[u8], InstrRow, &[(i32, i64)]); 18] = [
    (
        0,
        &[LOOKUPSWITCH, 0, 0, 0, 0, 0, 0, 5, 0, 0, 0, 0],
        (b'u', LOOKUPSWITCH, 5, 0),
        &[],
    ),
    (
        0,
        &[
            LOOKUPSWITCH, 0, 0, 0,
            0, 0, 0, 0, 0, 0, 0, 2,
            0xff, 0xff, 0xff, 0xfb, 0, 0, 0, 0,
            0, 0, 0, 7, 0, 0, 0, 3,
        ],
        (b'u', LOOKUPSWITCH, 0, 0),
        &[(-5, 0), (7, 3)],
    ),
    (
        0,
        &[
            LOOKUPSWITCH, 0, 0, 0,
            0, 0, 0, 1, 0, 0, 0, 2,
            0x80, 0, 0, 0, 0, 0, 0, 0,
            0x7f, 0xff, 0xff, 0xff, 0, 0, 0, 9,
        ],
        (b'u', LOOKUPSWITCH, 1, 0),
        &[(-2147483648, 0), (2147483647, 9)],
    ),
    (
        1,
        &[LOOKUPSWITCH, 0, 0, 0, 0, 0, 5, 0, 0, 0, 0],
        (b'u', LOOKUPSWITCH, 6, 0),
        &[],
    ),
    (
        1,
        &[
            LOOKUPSWITCH, 0, 0,
            0xff, 0xff, 0xff, 0xff, 0, 0, 0, 2,
            0xff, 0xff, 0xff, 0xfb, 0, 0, 0, 0,
            0, 0, 0, 7, 0, 0, 0, 2,
        ],
        (b'u', LOOKUPSWITCH, 0, 0),
        &[(-5, 1), (7, 3)],
    ),
    (
        1,
        &[
            LOOKUPSWITCH, 0, 0,
            0, 0, 0, 0, 0, 0, 0, 2,
            0x80, 0, 0, 0, 0xff, 0xff, 0xff, 0xff,
            0x7f, 0xff, 0xff, 0xff, 0, 0, 0, 8,
        ],
        (b'u', LOOKUPSWITCH, 1, 0),
        &[(-2147483648, 0), (2147483647, 9)],
    ),
    (
        2,
        &[LOOKUPSWITCH, 0, 0, 0, 0, 5, 0, 0, 0, 0],
        (b'u', LOOKUPSWITCH, 7, 0),
        &[],
    ),
    (
        2,
        &[
            LOOKUPSWITCH, 0,
            0xff, 0xff, 0xff, 0xfe, 0, 0, 0, 2,
            0xff, 0xff, 0xff, 0xfb, 0, 0, 0, 0,
            0, 0, 0, 7, 0, 0, 0, 1,
        ],
        (b'u', LOOKUPSWITCH, 0, 0),
        &[(-5, 2), (7, 3)],
    ),
    (
        2,
        &[
            LOOKUPSWITCH, 0,
            0xff, 0xff, 0xff, 0xff, 0, 0, 0, 2,
            0x80, 0, 0, 0, 0xff, 0xff, 0xff, 0xfe,
            0x7f, 0xff, 0xff, 0xff, 0, 0, 0, 7,
        ],
        (b'u', LOOKUPSWITCH, 1, 0),
        &[(-2147483648, 0), (2147483647, 9)],
    ),
    (
        3,
        &[LOOKUPSWITCH, 0, 0, 0, 5, 0, 0, 0, 0],
        (b'u', LOOKUPSWITCH, 8, 0),
        &[],
    ),
    (
        3,
        &[
            LOOKUPSWITCH,
            0xff, 0xff, 0xff, 0xfd, 0, 0, 0, 2,
            0xff, 0xff, 0xff, 0xfb, 0, 0, 0, 0,
            0, 0, 0, 7, 0, 0, 0, 0,
        ],
        (b'u', LOOKUPSWITCH, 0, 0),
        &[(-5, 3), (7, 3)],
    ),
    (
        3,
        &[
            LOOKUPSWITCH,
            0xff, 0xff, 0xff, 0xfe, 0, 0, 0, 2,
            0x80, 0, 0, 0, 0xff, 0xff, 0xff, 0xfd,
            0x7f, 0xff, 0xff, 0xff, 0, 0, 0, 6,
        ],
        (b'u', LOOKUPSWITCH, 1, 0),
        &[(-2147483648, 0), (2147483647, 9)],
    ),
    (
        4,
        &[LOOKUPSWITCH, 0, 0, 0, 0, 0, 0, 5, 0, 0, 0, 0],
        (b'u', LOOKUPSWITCH, 9, 0),
        &[],
    ),
    (
        4,
        &[
            LOOKUPSWITCH, 0, 0, 0,
            0xff, 0xff, 0xff, 0xfc, 0, 0, 0, 2,
            0xff, 0xff, 0xff, 0xfb, 0, 0, 0, 0,
            0, 0, 0, 7, 0xff, 0xff, 0xff, 0xff,
        ],
        (b'u', LOOKUPSWITCH, 0, 0),
        &[(-5, 4), (7, 3)],
    ),
    (
        4,
        &[
            LOOKUPSWITCH, 0, 0, 0,
            0xff, 0xff, 0xff, 0xfd, 0, 0, 0, 2,
            0x80, 0, 0, 0, 0xff, 0xff, 0xff, 0xfc,
            0x7f, 0xff, 0xff, 0xff, 0, 0, 0, 5,
        ],
        (b'u', LOOKUPSWITCH, 1, 0),
        &[(-2147483648, 0), (2147483647, 9)],
    ),
    (
        65530,
        &[LOOKUPSWITCH, 0, 0, 0, 0, 5, 0, 0, 0, 0],
        (b'u', LOOKUPSWITCH, 65535, 0),
        &[],
    ),
    (
        65530,
        &[
            LOOKUPSWITCH, 0,
            0xff, 0xff, 0, 6, 0, 0, 0, 2,
            0xff, 0xff, 0xff, 0xfb, 0, 0, 0, 0,
            0, 0, 0, 7, 0xff, 0xff, 0, 9,
        ],
        (b'u', LOOKUPSWITCH, 0, 0),
        &[(-5, 65530), (7, 3)],
    ),
    (
        65530,
        &[
            LOOKUPSWITCH, 0,
            0xff, 0xff, 0, 7, 0, 0, 0, 2,
            0x80, 0, 0, 0, 0xff, 0xff, 0, 6,
            0x7f, 0xff, 0xff, 0xff, 0xff, 0xff, 0, 0x0f,
        ],
        (b'u', LOOKUPSWITCH, 1, 0),
        &[(-2147483648, 0), (2147483647, 9)],
    ),
];

fn all_written_lookups(alloc: Global, table: &[(u32, &[u8], InstrRow, &[(i32, i64)])]) -> bool {
    for (at, bytes, wanted, pairs) in table {
        if !is_written_lookup(alloc, *at, bytes, *wanted, pairs) {
            return false;
        }
    }
    true
}

#[test]
fn written_lookups(rt: HostRuntime) {
    assert!(rt; all_written_lookups(rt.alloc(), &WRITTEN_LOOKUPS));
}

// The longest way back.
#[tactic(auto, unfolding(dj_ops::specs::trusted::Forms::form_of))]
fn far_back(alloc: Global) -> Result<Vec<u8>, OpError> {
    let mut out = Vec::new(alloc);
    let back = Instr::Branch {
        op: GOTO_W,
        target: 0,
    };
    write_instr(&back, 2_147_483_648, &mut out)?;
    Ok(out)
}

#[test]
fn longest_jump(rt: HostRuntime) {
    assert!(rt;
        matches!(far_back(rt.alloc()), Ok(out)
            if out.as_slice() == [GOTO_W, 0x80, 0, 0, 0].as_slice())
    );
}
