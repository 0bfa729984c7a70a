use crate::opcodes::*;
use crate::reported::{InstrRow, reported};
use crate::rows::{RowNumbers, labels_of};
use dj_labels::{CodeError, Protected};
use dj_ops::Instr;
use std::alloc::Global;

// A range: its start, its end, its handler, and the class that is caught.
type Range = (u32, u32, u32, u16);

fn has_instrs(instrs: &[Instr], wanted: &[InstrRow]) -> bool {
    if instrs.len() != wanted.len() {
        return false;
    }
    for i in 0..instrs.len() {
        if reported(&instrs[i]) != wanted[i] {
            return false;
        }
    }
    true
}

fn has_ranges(ranges: &[Protected], wanted: &[Range]) -> bool {
    if ranges.len() != wanted.len() {
        return false;
    }
    for i in 0..ranges.len() {
        let range = &ranges[i];
        if (range.start, range.end, range.handler, range.catch_type) != wanted[i] {
            return false;
        }
    }
    true
}

fn is_labelled(
    alloc: Global,
    code: &[u8],
    rows: &[RowNumbers],
    instrs: &[InstrRow],
    ranges: &[Range],
) -> bool {
    match labels_of(alloc, code, rows) {
        Ok(labels) => {
            has_instrs(labels.code.as_slice(), instrs)
                && has_ranges(labels.ranges.as_slice(), ranges)
        }
        Err(_) => false,
    }
}

fn is_refused(alloc: Global, code: &[u8], rows: &[RowNumbers], wanted: CodeError) -> bool {
    match labels_of(alloc, code, rows) {
        Ok(_) => false,
        Err(error) => error == wanted,
    }
}

// Code, and its instructions.
#[rattlefmt::skip]
const LABELLED: [(&[u8], &[InstrRow]); 19] = [
    (
        &[ALOAD_0, ARETURN],
        &[(b's', ALOAD_0, 0, 0), (b's', ARETURN, 0, 0)],
    ),
    (&[RETURN], &[(b's', RETURN, 0, 0)]),
    (&[GOTO, 0, 0], &[(b'b', GOTO, 0, 0)]),
    (
        &[GOTO, 0, 3, RETURN],
        &[(b'b', GOTO, 1, 0), (b's', RETURN, 0, 0)],
    ),
    (
        &[NOP, GOTO, 0xff, 0xff],
        &[(b's', NOP, 0, 0), (b'b', GOTO, 0, 0)],
    ),
    (
        &[GOTO_W, 0, 0, 0, 5, RETURN],
        &[(b'b', GOTO_W, 1, 0), (b's', RETURN, 0, 0)],
    ),
    (
        &[IFEQ, 0, 3, IFNE, 0xff, 0xfd, RETURN],
        &[(b'b', IFEQ, 1, 0), (b'b', IFNE, 0, 0), (b's', RETURN, 0, 0)],
    ),
    (
        &[JSR, 0, 3, RET, 0],
        &[(b'b', JSR, 1, 0), (b'l', RET, 0, 0)],
    ),
    (&[JSR_W, 0, 0, 0, 0], &[(b'b', JSR_W, 0, 0)]),
    (
        &[IFNULL, 0, 3, IFNONNULL, 0xff, 0xfd],
        &[(b'b', IFNULL, 1, 0), (b'b', IFNONNULL, 0, 0)],
    ),
    (&[BREAKPOINT], &[(b's', BREAKPOINT, 0, 0)]),
    (
        &[
            TABLESWITCH, 0, 0, 0,
            0, 0, 0, 0, 0, 0, 0, 0, 0, 0, 0, 0,
            0, 0, 0, 0,
            RETURN,
        ],
        &[(b't', TABLESWITCH, 0, 0), (b's', RETURN, 0, 0)],
    ),
    (
        &[
            NOP,
            TABLESWITCH, 0, 0,
            0xff, 0xff, 0xff, 0xff, 0, 0, 0, 0, 0, 0, 0, 0,
            0, 0, 0, 0,
            RETURN,
        ],
        &[
            (b's', NOP, 0, 0),
            (b't', TABLESWITCH, 0, 0),
            (b's', RETURN, 0, 0),
        ],
    ),
    (
        &[
            NOP, NOP,
            TABLESWITCH, 0,
            0xff, 0xff, 0xff, 0xfe, 0, 0, 0, 0, 0, 0, 0, 0,
            0, 0, 0, 0,
            RETURN,
        ],
        &[
            (b's', NOP, 0, 0),
            (b's', NOP, 0, 0),
            (b't', TABLESWITCH, 0, 0),
            (b's', RETURN, 0, 0),
        ],
    ),
    (
        &[
            NOP, NOP, NOP,
            TABLESWITCH,
            0xff, 0xff, 0xff, 0xfd, 0, 0, 0, 0, 0, 0, 0, 0,
            0, 0, 0, 0,
            RETURN,
        ],
        &[
            (b's', NOP, 0, 0),
            (b's', NOP, 0, 0),
            (b's', NOP, 0, 0),
            (b't', TABLESWITCH, 0, 0),
            (b's', RETURN, 0, 0),
        ],
    ),
    (
        &[
            NOP,
            TABLESWITCH, 0, 0,
            0, 0, 0, 27, 0xff, 0xff, 0xff, 0xff, 0, 0, 0, 1,
            0, 0, 0, 27, 0, 0, 0, 0, 0xff, 0xff, 0xff, 0xff,
            RETURN,
        ],
        &[
            (b's', NOP, 0, 0),
            (b't', TABLESWITCH, 2, -1),
            (b's', RETURN, 0, 0),
        ],
    ),
    (
        &[
            NOP, NOP,
            LOOKUPSWITCH, 0,
            0, 0, 0, 10, 0, 0, 0, 0,
            RETURN,
        ],
        &[
            (b's', NOP, 0, 0),
            (b's', NOP, 0, 0),
            (b'u', LOOKUPSWITCH, 3, 0),
            (b's', RETURN, 0, 0),
        ],
    ),
    (
        &[
            LOOKUPSWITCH, 0, 0, 0,
            0, 0, 0, 28, 0, 0, 0, 2,
            0xff, 0xff, 0xff, 0xff, 0, 0, 0, 28,
            0, 0, 0, 4, 0, 0, 0, 0,
            RETURN,
        ],
        &[(b'u', LOOKUPSWITCH, 1, 0), (b's', RETURN, 0, 0)],
    ),
    (
        &[
            NOP, NOP, NOP,
            LOOKUPSWITCH,
            0, 0, 0, 0, 0, 0, 0, 3,
            0, 0, 0, 0, 0xff, 0xff, 0xff, 0xfd,
            0, 0, 0, 1, 0xff, 0xff, 0xff, 0xfe,
            0, 0, 0, 2, 0xff, 0xff, 0xff, 0xff,
        ],
        &[
            (b's', NOP, 0, 0),
            (b's', NOP, 0, 0),
            (b's', NOP, 0, 0),
            (b'u', LOOKUPSWITCH, 3, 0),
        ],
    ),
];

fn all_labelled(alloc: Global, table: &[(&[u8], &[InstrRow])]) -> bool {
    for (code, instrs) in table {
        if !is_labelled(alloc, code, &[], instrs, &[]) {
            return false;
        }
    }
    true
}

#[test]
fn labelled(rt: HostRuntime) {
    assert!(rt; all_labelled(rt.alloc(), &LABELLED));
}

// Code whose instructions start at 0, 2, 3 and 4, and the instructions.
const PUSH_POP: &[u8] = &[BIPUSH, 7, POP, NOP, RETURN];

const PUSH_POP_REPORTED: &[InstrRow] = &[
    (b'p', BIPUSH, 7, 0),
    (b's', POP, 0, 0),
    (b's', NOP, 0, 0),
    (b's', RETURN, 0, 0),
];

// Code and rows, and the instructions and ranges.
const RANGES: [(&[u8], &[RowNumbers], &[InstrRow], &[Range]); 8] = [
    (
        PUSH_POP,
        &[(0, 5, 0, 0)],
        PUSH_POP_REPORTED,
        &[(0, 4, 0, 0)],
    ),
    (
        PUSH_POP,
        &[(0, 2, 2, 0)],
        PUSH_POP_REPORTED,
        &[(0, 1, 1, 0)],
    ),
    (
        PUSH_POP,
        &[(2, 5, 4, 7)],
        PUSH_POP_REPORTED,
        &[(1, 4, 3, 7)],
    ),
    (
        PUSH_POP,
        &[(0, 4, 3, 65535)],
        PUSH_POP_REPORTED,
        &[(0, 3, 2, 65535)],
    ),
    (
        PUSH_POP,
        &[(4, 5, 0, 0)],
        PUSH_POP_REPORTED,
        &[(3, 4, 0, 0)],
    ),
    (
        PUSH_POP,
        &[(0, 3, 2, 1), (2, 4, 3, 2)],
        PUSH_POP_REPORTED,
        &[(0, 2, 1, 1), (1, 3, 2, 2)],
    ),
    (
        PUSH_POP,
        &[(0, 5, 0, 0), (0, 5, 0, 0)],
        PUSH_POP_REPORTED,
        &[(0, 4, 0, 0), (0, 4, 0, 0)],
    ),
    (
        &[NOP],
        &[(0, 1, 0, 0)],
        &[(b's', NOP, 0, 0)],
        &[(0, 1, 0, 0)],
    ),
];

fn all_with_ranges(alloc: Global, table: &[(&[u8], &[RowNumbers], &[InstrRow], &[Range])]) -> bool {
    for (code, rows, instrs, ranges) in table {
        if !is_labelled(alloc, code, rows, instrs, ranges) {
            return false;
        }
    }
    true
}

#[test]
fn ranges(rt: HostRuntime) {
    assert!(rt; all_with_ranges(rt.alloc(), &RANGES));
}

// Code, the number of its tableswitch, and the numbers of the targets.
#[rattlefmt::skip]
const TABLES: [(&[u8], usize, &[i64]); 5] = [
    (
        &[
            TABLESWITCH, 0, 0, 0,
            0, 0, 0, 0, 0, 0, 0, 0, 0, 0, 0, 0,
            0, 0, 0, 0,
            RETURN,
        ],
        0,
        &[0],
    ),
    (
        &[
            NOP,
            TABLESWITCH, 0, 0,
            0xff, 0xff, 0xff, 0xff, 0, 0, 0, 0, 0, 0, 0, 0,
            0, 0, 0, 0,
            RETURN,
        ],
        1,
        &[1],
    ),
    (
        &[
            NOP, NOP,
            TABLESWITCH, 0,
            0xff, 0xff, 0xff, 0xfe, 0, 0, 0, 0, 0, 0, 0, 0,
            0, 0, 0, 0,
            RETURN,
        ],
        2,
        &[2],
    ),
    (
        &[
            NOP, NOP, NOP,
            TABLESWITCH,
            0xff, 0xff, 0xff, 0xfd, 0, 0, 0, 0, 0, 0, 0, 0,
            0, 0, 0, 0,
            RETURN,
        ],
        3,
        &[3],
    ),
    (
        &[
            NOP,
            TABLESWITCH, 0, 0,
            0, 0, 0, 27, 0xff, 0xff, 0xff, 0xff, 0, 0, 0, 1,
            0, 0, 0, 27, 0, 0, 0, 0, 0xff, 0xff, 0xff, 0xff,
            RETURN,
        ],
        1,
        &[2, 1, 0],
    ),
];

fn has_table(alloc: Global, code: &[u8], number: usize, wanted: &[i64]) -> bool {
    match labels_of(alloc, code, &[]) {
        Ok(labels) => match labels.code.as_slice().get(number) {
            Some(Instr::Table { targets, .. }) => targets.as_slice() == wanted,
            _ => false,
        },
        Err(_) => false,
    }
}

fn all_tables(alloc: Global, table: &[(&[u8], usize, &[i64])]) -> bool {
    for (code, number, wanted) in table {
        if !has_table(alloc, code, *number, wanted) {
            return false;
        }
    }
    true
}

#[test]
fn tables(rt: HostRuntime) {
    assert!(rt; all_tables(rt.alloc(), &TABLES));
}

// Code, the number of its lookupswitch, and the pairs, with the numbers of the targets.
#[rattlefmt::skip]
const LOOKUPS: [(&[u8], usize, &[(i32, i64)]); 3] = [
    (
        &[
            NOP, NOP,
            LOOKUPSWITCH, 0,
            0, 0, 0, 10, 0, 0, 0, 0,
            RETURN,
        ],
        2,
        &[],
    ),
    (
        &[
            LOOKUPSWITCH, 0, 0, 0,
            0, 0, 0, 28, 0, 0, 0, 2,
            0xff, 0xff, 0xff, 0xff, 0, 0, 0, 28,
            0, 0, 0, 4, 0, 0, 0, 0,
            RETURN,
        ],
        0,
        &[(-1, 1), (4, 0)],
    ),
    (
        &[
            NOP, NOP, NOP,
            LOOKUPSWITCH,
            0, 0, 0, 0, 0, 0, 0, 3,
            0, 0, 0, 0, 0xff, 0xff, 0xff, 0xfd,
            0, 0, 0, 1, 0xff, 0xff, 0xff, 0xfe,
            0, 0, 0, 2, 0xff, 0xff, 0xff, 0xff,
        ],
        3,
        &[(0, 0), (1, 1), (2, 2)],
    ),
];

fn has_lookup(alloc: Global, code: &[u8], number: usize, wanted: &[(i32, i64)]) -> bool {
    match labels_of(alloc, code, &[]) {
        Ok(labels) => match labels.code.as_slice().get(number) {
            Some(Instr::Lookup { pairs, .. }) => pairs.as_slice() == wanted,
            _ => false,
        },
        Err(_) => false,
    }
}

fn all_lookups(alloc: Global, table: &[(&[u8], usize, &[(i32, i64)])]) -> bool {
    for (code, number, wanted) in table {
        if !has_lookup(alloc, code, *number, wanted) {
            return false;
        }
    }
    true
}

#[test]
fn lookups(rt: HostRuntime) {
    assert!(rt; all_lookups(rt.alloc(), &LOOKUPS));
}

// Code and rows that have no labels, and why.
#[rattlefmt::skip]
const REFUSED: [(&[u8], &[RowNumbers], CodeError); 42] = [
    (&[], &[(0, 0, 0, 0)], CodeError::Range(0)),
    (&[GOTO, 0, 1], &[], CodeError::Target(0)),
    (&[GOTO, 0, 4, BIPUSH, 7, RETURN], &[], CodeError::Target(0)),
    (&[GOTO, 0, 3], &[], CodeError::Target(0)),
    (&[NOP, GOTO, 0xff, 0xfe], &[], CodeError::Target(1)),
    (&[GOTO, 0x7f, 0xff], &[], CodeError::Target(0)),
    (&[GOTO_W, 0, 0, 0, 4, RETURN], &[], CodeError::Target(0)),
    (&[GOTO_W, 0x80, 0, 0, 0], &[], CodeError::Target(0)),
    (
        &[IFEQ, 0, 1, IFNE, 0xff, 0xfd, RETURN],
        &[],
        CodeError::Target(0),
    ),
    (
        &[IFEQ, 0, 3, IFNE, 0xff, 0xfe, RETURN],
        &[],
        CodeError::Target(3),
    ),
    (&[0xcb], &[], CodeError::Op(0)),
    (&[NOP, NOP, 0xff], &[], CodeError::Op(2)),
    (&[NOP, BIPUSH], &[], CodeError::Op(1)),
    (&[GOTO, 0, 1, 0xcb], &[], CodeError::Op(3)),
    (&[0xcb, GOTO, 0, 1], &[], CodeError::Op(0)),
    (&[NEWARRAY, 3], &[], CodeError::Op(0)),
    (&[NOP, WIDE, NOP, 0, 0], &[], CodeError::Op(1)),
    (&[GOTO, 0, 0x7f, 0xcb], &[], CodeError::Op(3)),
    (
        &[
            NOP,
            TABLESWITCH, 0, 0,
            0, 0, 0, 23, 0xff, 0xff, 0xff, 0xff, 0, 0, 0, 1,
            0, 0, 0, 23, 0, 0, 0, 0, 0xff, 0xff, 0xff, 0xff,
            RETURN,
        ],
        &[],
        CodeError::Target(1),
    ),
    (
        &[
            TABLESWITCH, 0, 0, 0,
            0, 0, 0, 20, 0, 0, 0, 0, 0, 0, 0, 0,
            0, 0, 0, 1,
            RETURN,
        ],
        &[],
        CodeError::Target(0),
    ),
    (
        &[
            TABLESWITCH, 0, 0, 0,
            0, 0, 0, 1, 0, 0, 0, 0, 0, 0, 0, 0,
            0, 0, 0, 20,
            RETURN,
        ],
        &[],
        CodeError::Target(0),
    ),
    (
        &[NOP, NOP, LOOKUPSWITCH, 0, 0, 0, 0, 8, 0, 0, 0, 0, RETURN],
        &[],
        CodeError::Target(2),
    ),
    (
        &[
            LOOKUPSWITCH, 0, 0, 0,
            0, 0, 0, 28, 0, 0, 0, 2,
            0xff, 0xff, 0xff, 0xff, 0, 0, 0, 27,
            0, 0, 0, 4, 0, 0, 0, 0,
            RETURN,
        ],
        &[],
        CodeError::Target(0),
    ),
    (
        &[
            LOOKUPSWITCH, 0, 0, 0,
            0, 0, 0, 28, 0, 0, 0, 2,
            0xff, 0xff, 0xff, 0xff, 0, 0, 0, 28,
            0, 0, 0, 4, 0, 0, 0, 29,
            RETURN,
        ],
        &[],
        CodeError::Target(0),
    ),
    (PUSH_POP, &[(1, 5, 0, 0)], CodeError::Range(0)),
    (PUSH_POP, &[(0, 1, 0, 0)], CodeError::Range(0)),
    (PUSH_POP, &[(0, 6, 0, 0)], CodeError::Range(0)),
    (PUSH_POP, &[(0, 65535, 0, 0)], CodeError::Range(0)),
    (PUSH_POP, &[(0, 5, 1, 0)], CodeError::Range(0)),
    (PUSH_POP, &[(0, 5, 5, 0)], CodeError::Range(0)),
    (PUSH_POP, &[(5, 5, 0, 0)], CodeError::Range(0)),
    (PUSH_POP, &[(0, 0, 0, 0)], CodeError::Range(0)),
    (PUSH_POP, &[(2, 2, 0, 0)], CodeError::Range(0)),
    (PUSH_POP, &[(3, 2, 0, 0)], CodeError::Range(0)),
    (PUSH_POP, &[(4, 0, 0, 0)], CodeError::Range(0)),
    (PUSH_POP, &[(0, 5, 0, 0), (2, 2, 0, 0)], CodeError::Range(1)),
    (PUSH_POP, &[(3, 2, 0, 0), (0, 1, 0, 0)], CodeError::Range(0)),
    (
        PUSH_POP,
        &[(0, 5, 0, 0), (0, 2, 2, 0), (0, 2, 1, 0)],
        CodeError::Range(2),
    ),
    (&[NOP], &[(0, 0, 0, 0)], CodeError::Range(0)),
    (&[0xcb], &[(0, 0, 0, 0)], CodeError::Op(0)),
    (&[GOTO, 0, 1], &[(0, 0, 0, 0)], CodeError::Target(0)),
    (&[0xcb, GOTO, 0, 1], &[(9, 9, 9, 9)], CodeError::Op(0)),
];

fn all_refused(alloc: Global, table: &[(&[u8], &[RowNumbers], CodeError)]) -> bool {
    for (code, rows, wanted) in table {
        if !is_refused(alloc, code, rows, *wanted) {
            return false;
        }
    }
    true
}

#[test]
fn refused(rt: HostRuntime) {
    assert!(rt; all_refused(rt.alloc(), &REFUSED));
}

// The empty code has no instructions.
#[test]
fn empty(rt: HostRuntime) {
    assert!(rt; is_labelled(rt.alloc(), &[], &[], &[], &[]));
}
