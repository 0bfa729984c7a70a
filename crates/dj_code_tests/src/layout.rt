ghost use Rattle.std.specs.Prelude.{⊤, IfSome, MatchBool};
ghost use Rattle.std.specs.List.{AllByRecursion};
ghost use Rattle.dj_ops.specs.trusted.Forms.{form_of};
ghost use Rattle.dj_ops.specs.trusted.Instructions.{IsProper, IsPushed, IsTable};
ghost use Rattle.dj_labels.specs.trusted.Labels.{IsNumber, HasNumbers};
ghost use Rattle.dj_labels.specs.Labels.{IsWellFormed};

use crate::opcodes::*;
use crate::rows::{RowNumbers, has_rows, laid_again};
use dj_labels::{Labelled, Ranges};
use dj_layout::{Laid, LayError, lay_out};
use dj_ops::{Instr, Instrs, Targets};
use std::alloc::{AllocError, Global};

// This many of an instruction, by a letter for the family, the opcode, and up to two numbers.
type Repeated = (usize, (u8, u8, i64, i64));

fn is_laid(alloc: Global, code: &[u8], starts: &[u32], rows: &[RowNumbers]) -> bool {
    match laid_again(alloc, code, rows) {
        Ok(laid) => {
            laid.code.as_slice() == code
                && laid.starts.as_slice() == starts
                && has_rows(laid.table.as_slice(), rows)
        }
        Err(_) => false,
    }
}

// Bytes, the starts of their instructions, and rows.
#[rattlefmt::skip]
const LAID: [(&[u8], &[u32], &[RowNumbers]); 25] = [
    (&[ALOAD_0, ARETURN], &[0, 1], &[]),
    (&[GOTO, 0, 0], &[0], &[]),
    (
        &[NOP, IFEQ, 0xff, 0xff, GOTO, 0, 3, RETURN],
        &[0, 1, 4, 7],
        &[(0, 8, 0, 0), (1, 4, 7, 7)],
    ),
    (&[NOP], &[0], &[(0, 1, 0, 0)]),
    (
        &[GOTO_W, 0, 0, 0, 5, JSR_W, 0xff, 0xff, 0xff, 0xfb, RETURN],
        &[0, 5, 10],
        &[],
    ),
    (
        &[
            BIPUSH, 0xff, SIPUSH, 1, 0x2c, LDC, 9, LDC_W, 0, 9, ILOAD, 1, WIDE, ILOAD, 0, 1,
            IINC, 1, 1, WIDE, IINC, 0, 1, 0, 1, RETURN,
        ],
        &[0, 2, 5, 7, 10, 12, 16, 19, 25],
        &[(0, 26, 25, 0), (7, 16, 5, 1)],
    ),
    (
        &[
            INVOKESTATIC, 0, 3, INVOKEINTERFACE, 0, 4, 2, 0, INVOKEDYNAMIC, 0, 5, 0, 0, NEW, 0, 6,
            NEWARRAY, 8, MULTIANEWARRAY, 0, 7, 2, RETURN,
        ],
        &[0, 3, 8, 13, 16, 18, 22],
        &[],
    ),
    (
        &[
            TABLESWITCH, 0, 0, 0,
            0, 0, 0, 20, 0, 0, 0, 0, 0, 0, 0, 0,
            0, 0, 0, 20,
            RETURN,
        ],
        &[0, 20],
        &[],
    ),
    (
        &[
            TABLESWITCH, 0, 0, 0,
            0, 0, 0, 0, 0xff, 0xff, 0xff, 0xfd, 0xff, 0xff, 0xff, 0xff,
            0, 0, 0, 0, 0, 0, 0, 0, 0, 0, 0, 28,
            RETURN,
        ],
        &[0, 28],
        &[(0, 28, 28, 0)],
    ),
    (
        &[LOOKUPSWITCH, 0, 0, 0, 0, 0, 0, 12, 0, 0, 0, 0, RETURN],
        &[0, 12],
        &[],
    ),
    (
        &[
            LOOKUPSWITCH, 0, 0, 0,
            0, 0, 0, 0, 0, 0, 0, 3,
            0x80, 0, 0, 0, 0, 0, 0, 0,
            0, 0, 0, 0, 0, 0, 0, 36,
            0x7f, 0xff, 0xff, 0xff, 0, 0, 0, 0,
            RETURN,
        ],
        &[0, 36],
        &[],
    ),
    (
        &[
            NOP,
            TABLESWITCH, 0, 0,
            0, 0, 0, 19, 0, 0, 0, 0, 0, 0, 0, 0,
            0, 0, 0, 19,
            RETURN,
        ],
        &[0, 1, 20],
        &[],
    ),
    (
        &[
            NOP,
            TABLESWITCH, 0, 0,
            0, 0, 0, 0, 0xff, 0xff, 0xff, 0xfd, 0xff, 0xff, 0xff, 0xff,
            0xff, 0xff, 0xff, 0xff, 0, 0, 0, 0, 0, 0, 0, 27,
            RETURN,
        ],
        &[0, 1, 28],
        &[(0, 28, 28, 0)],
    ),
    (
        &[NOP, LOOKUPSWITCH, 0, 0, 0, 0, 0, 11, 0, 0, 0, 0, RETURN],
        &[0, 1, 12],
        &[],
    ),
    (
        &[
            NOP,
            LOOKUPSWITCH, 0, 0,
            0xff, 0xff, 0xff, 0xff, 0, 0, 0, 3,
            0x80, 0, 0, 0, 0, 0, 0, 0,
            0, 0, 0, 0, 0, 0, 0, 35,
            0x7f, 0xff, 0xff, 0xff, 0xff, 0xff, 0xff, 0xff,
            RETURN,
        ],
        &[0, 1, 36],
        &[],
    ),
    (
        &[
            NOP, NOP,
            TABLESWITCH, 0,
            0, 0, 0, 18, 0, 0, 0, 0, 0, 0, 0, 0,
            0, 0, 0, 18,
            RETURN,
        ],
        &[0, 1, 2, 20],
        &[],
    ),
    (
        &[
            NOP, NOP,
            TABLESWITCH, 0,
            0, 0, 0, 0, 0xff, 0xff, 0xff, 0xfd, 0xff, 0xff, 0xff, 0xff,
            0xff, 0xff, 0xff, 0xfe, 0, 0, 0, 0, 0, 0, 0, 26,
            RETURN,
        ],
        &[0, 1, 2, 28],
        &[(0, 28, 28, 0)],
    ),
    (
        &[
            NOP, NOP,
            LOOKUPSWITCH, 0,
            0, 0, 0, 10, 0, 0, 0, 0,
            RETURN,
        ],
        &[0, 1, 2, 12],
        &[],
    ),
    (
        &[
            NOP, NOP,
            LOOKUPSWITCH, 0,
            0xff, 0xff, 0xff, 0xfe, 0, 0, 0, 3,
            0x80, 0, 0, 0, 0, 0, 0, 0,
            0, 0, 0, 0, 0, 0, 0, 34,
            0x7f, 0xff, 0xff, 0xff, 0xff, 0xff, 0xff, 0xfe,
            RETURN,
        ],
        &[0, 1, 2, 36],
        &[],
    ),
    (
        &[
            NOP, NOP, NOP,
            TABLESWITCH,
            0, 0, 0, 17, 0, 0, 0, 0, 0, 0, 0, 0,
            0, 0, 0, 17,
            RETURN,
        ],
        &[0, 1, 2, 3, 20],
        &[],
    ),
    (
        &[
            NOP, NOP, NOP,
            TABLESWITCH,
            0, 0, 0, 0, 0xff, 0xff, 0xff, 0xfd, 0xff, 0xff, 0xff, 0xff,
            0xff, 0xff, 0xff, 0xfd, 0, 0, 0, 0, 0, 0, 0, 25,
            RETURN,
        ],
        &[0, 1, 2, 3, 28],
        &[(0, 28, 28, 0)],
    ),
    (
        &[
            NOP, NOP, NOP,
            LOOKUPSWITCH,
            0, 0, 0, 9, 0, 0, 0, 0,
            RETURN,
        ],
        &[0, 1, 2, 3, 12],
        &[],
    ),
    (
        &[
            NOP, NOP, NOP,
            LOOKUPSWITCH,
            0xff, 0xff, 0xff, 0xfd, 0, 0, 0, 3,
            0x80, 0, 0, 0, 0, 0, 0, 0,
            0, 0, 0, 0, 0, 0, 0, 33,
            0x7f, 0xff, 0xff, 0xff, 0xff, 0xff, 0xff, 0xfd,
            RETURN,
        ],
        &[0, 1, 2, 3, 36],
        &[],
    ),
    (
        &[
            TABLESWITCH, 0, 0, 0,
            0, 0, 0, 40, 0, 0, 0, 0, 0, 0, 0, 0,
            0, 0, 0, 20,
            NOP,
            LOOKUPSWITCH, 0, 0,
            0xff, 0xff, 0xff, 0xeb, 0, 0, 0, 1,
            0, 0, 0, 5, 0, 0, 0, 0,
            RETURN,
        ],
        &[0, 20, 21, 40],
        &[],
    ),
    (
        &[
            LOOKUPSWITCH, 0, 0, 0,
            0, 0, 0, 12, 0, 0, 0, 0,
            TABLESWITCH, 0, 0, 0,
            0, 0, 0, 28, 0, 0, 0, 0, 0, 0, 0, 2,
            0xff, 0xff, 0xff, 0xf4, 0, 0, 0, 0, 0, 0, 0, 28,
            IFEQ, 0xff, 0xd8,
            RETURN,
        ],
        &[0, 12, 40, 43],
        &[(0, 12, 40, 0), (12, 44, 43, 9)],
    ),
];

fn all_laid(alloc: Global, table: &[(&[u8], &[u32], &[RowNumbers])]) -> bool {
    for (code, starts, rows) in table {
        if !is_laid(alloc, code, starts, rows) {
            return false;
        }
    }
    true
}

#[test]
fn layouts(rt: HostRuntime) {
    assert!(rt; all_laid(rt.alloc(), &LAID));
}

// The longest code, with one range over all of it.
fn longest(alloc: Global) -> Result<bool, LayError> {
    let code = Vec::from_elem(alloc, 0, 65535)?;
    let laid = laid_again(alloc, &code, &[(0, 65535, 65534, 0)])?;
    Ok(
        laid.code.as_slice() == code.as_slice()
            && has_rows(laid.table.as_slice(), &[(0, 65535, 65534, 0)]),
    )
}

#[test]
fn longest_code(rt: HostRuntime) {
    assert!(rt; matches!(longest(rt.alloc()), Ok(true)));
}

fn instr_of(alloc: Global, reported: (u8, u8, i64, i64)) -> Result<Instr, AllocError> {
    let (letter, op, a, b) = reported;
    match letter {
        b'b' => Ok(Instr::Branch { op, target: a }),
        b'p' => Ok(Instr::Push { op, value: 5 }),
        b't' => {
            let mut targets = Targets::new(alloc)?;
            targets.push(b)?;
            Ok(Instr::Table {
                default: a,
                low: 0,
                targets,
            })
        }
        _ => Ok(Instr::Simple { op }),
    }
}

fn instrs_of(alloc: Global, parts: &[Repeated]) -> Result<Instrs, AllocError> {
    let mut instrs = Instrs::new(alloc);
    for &(count, reported) in parts {
        for _ in 0..count {
            instrs.push(instr_of(alloc, reported)?)?;
        }
    }
    Ok(instrs)
}

// Whether this is one of this many instructions.
fn is_number(count: usize, target: i64) -> bool
    ensures { MatchBool result (IsNumber count target) ⊤ }
{
    0 <= target && (target as u64) < count as u64
}

// Whether the number fits the opcode.
#[tactic(auto, unfolding(dj_ops::specs::trusted::Forms::form_of))]
fn is_push(op: u8, value: i16) -> bool
    ensures { MatchBool result (IsPushed (form_of op) value) ⊤ }
{
    if op == BIPUSH {
        value == 5
    } else {
        op == SIPUSH
    }
}

// Whether a table has one target, for the number 0.
#[tactic(auto, using(crate::proofs::Single::each_of_one))]
fn is_single(low: i32, targets: &[i64], count: usize) -> bool
    ensures { MatchBool result (IsTable low targets.now × AllByRecursion (IsNumber count) targets.now) ⊤ }
{
    low == 0 && targets.len() == 1 && is_number(count, targets[0])
}

// Whether an instruction is one of those that are tried here, and jumps to one of this many.
#[tactic(auto, unfolding(dj_ops::specs::trusted::Forms::form_of))]
fn is_tried(instr: &Instr, count: usize) -> bool
    ensures { MatchBool result (IsProper instr.now × HasNumbers count instr.now) ⊤ }
{
    match instr {
        Instr::Simple { op } => *op == NOP || *op == RETURN,
        Instr::Push { op, value } => is_push(*op, *value),
        Instr::Branch { op, target } => {
            ((IFEQ..=JSR).contains(op) || (IFNULL..=JSR_W).contains(op))
                && is_number(count, *target)
        }
        Instr::Table {
            default,
            low,
            targets,
        } => is_number(count, *default) && is_single(*low, targets.as_slice(), count),
        _ => false,
    }
}

// The instructions as labelled code, where they are well formed.
fn labelled(alloc: Global, instrs: Instrs) -> Option<Labelled>
    ensures { IfSome result IsWellFormed }
{
    let items = instrs.as_slice();
    for i in 0..items.len() {
        if !is_tried(&items[i], items.len()) {
            return None;
        }
    }
    Some(Labelled {
        code: instrs,
        ranges: Ranges::new(alloc),
    })
}

fn layout_of(alloc: Global, parts: &[Repeated]) -> Result<Option<Laid>, LayError> {
    let instrs = instrs_of(alloc, parts)?;
    match labelled(alloc, instrs) {
        Some(code) => Ok(Some(lay_out(alloc, &code)?)),
        None => Ok(None),
    }
}

fn is_long(alloc: Global, parts: &[Repeated], size: usize, last: u32) -> bool {
    match layout_of(alloc, parts) {
        Ok(Some(laid)) => {
            laid.code.as_slice().len() == size && laid.starts.as_slice().last() == Some(&last)
        }
        _ => false,
    }
}

// Instructions, their bytes' count, and the start of the last.
const LONG: [(&[Repeated], usize, u32); 8] = [
    (
        &[
            (1, (b'b', GOTO, 32765, 0)),
            (32764, (b's', NOP, 0, 0)),
            (1, (b's', RETURN, 0, 0)),
        ],
        32768,
        32767,
    ),
    (
        &[(32768, (b's', NOP, 0, 0)), (1, (b'b', GOTO, 0, 0))],
        32771,
        32768,
    ),
    (
        &[
            (1, (b'b', GOTO_W, 32770, 0)),
            (32769, (b's', NOP, 0, 0)),
            (1, (b's', RETURN, 0, 0)),
        ],
        32775,
        32774,
    ),
    (
        &[
            (32769, (b's', NOP, 0, 0)),
            (1, (b'b', JSR_W, 0, 0)),
            (1, (b's', RETURN, 0, 0)),
        ],
        32775,
        32774,
    ),
    (
        &[
            (40000, (b's', NOP, 0, 0)),
            (1, (b't', TABLESWITCH, 0, 40001)),
            (1, (b's', RETURN, 0, 0)),
        ],
        40021,
        40020,
    ),
    (
        &[(65534, (b's', NOP, 0, 0)), (1, (b's', RETURN, 0, 0))],
        65535,
        65534,
    ),
    (&[(21845, (b'p', SIPUSH, 1, 0))], 65535, 65532),
    (
        &[(65515, (b's', NOP, 0, 0)), (1, (b't', TABLESWITCH, 0, 0))],
        65532,
        65515,
    ),
];

fn all_long(alloc: Global, table: &[(&[Repeated], usize, u32)]) -> bool {
    for (parts, size, last) in table {
        if !is_long(alloc, parts, *size, *last) {
            return false;
        }
    }
    true
}

#[test]
fn long_layouts(rt: HostRuntime) {
    assert!(rt; all_long(rt.alloc(), &LONG));
}

fn is_refused(alloc: Global, parts: &[Repeated], wanted: LayError) -> bool {
    match layout_of(alloc, parts) {
        Ok(_) => false,
        Err(error) => error == wanted,
    }
}

// Instructions that have no layout, and why.
const REFUSED: [(&[Repeated], LayError); 10] = [
    (
        &[
            (1, (b'b', GOTO, 32766, 0)),
            (32765, (b's', NOP, 0, 0)),
            (1, (b's', RETURN, 0, 0)),
        ],
        LayError::Far(0),
    ),
    (
        &[
            (1, (b'b', GOTO, 1, 0)),
            (1, (b'b', IFNE, 32767, 0)),
            (32766, (b's', NOP, 0, 0)),
            (1, (b'b', JSR, 1, 0)),
        ],
        LayError::Far(1),
    ),
    (
        &[
            (33000, (b's', NOP, 0, 0)),
            (1, (b'b', IFNONNULL, 0, 0)),
            (1, (b'b', IFNULL, 1, 0)),
            (1, (b's', RETURN, 0, 0)),
        ],
        LayError::Far(33000),
    ),
    (
        &[(65535, (b's', NOP, 0, 0)), (1, (b's', RETURN, 0, 0))],
        LayError::TooLong(65535),
    ),
    (
        &[
            (65534, (b's', NOP, 0, 0)),
            (1, (b'p', BIPUSH, 5, 0)),
            (1, (b's', RETURN, 0, 0)),
        ],
        LayError::TooLong(65534),
    ),
    (&[(21846, (b'p', SIPUSH, 1, 0))], LayError::TooLong(21845)),
    (
        &[(65520, (b's', NOP, 0, 0)), (1, (b't', TABLESWITCH, 0, 0))],
        LayError::TooLong(65520),
    ),
    (
        &[(65516, (b's', NOP, 0, 0)), (1, (b't', TABLESWITCH, 0, 0))],
        LayError::TooLong(65516),
    ),
    (
        &[(65517, (b's', NOP, 0, 0)), (1, (b't', TABLESWITCH, 0, 0))],
        LayError::TooLong(65517),
    ),
    (
        &[
            (1, (b'b', GOTO, 65534, 0)),
            (65533, (b's', NOP, 0, 0)),
            (1, (b's', RETURN, 0, 0)),
        ],
        LayError::TooLong(65533),
    ),
];

fn all_refused(alloc: Global, table: &[(&[Repeated], LayError)]) -> bool {
    for (parts, wanted) in table {
        if !is_refused(alloc, parts, *wanted) {
            return false;
        }
    }
    true
}

#[test]
fn refusals(rt: HostRuntime) {
    assert!(rt; all_refused(rt.alloc(), &REFUSED));
}

// Whether a jump back over 32,769 bytes is too far for the opcode.
fn is_too_far(alloc: Global, op: u8) -> bool {
    is_refused(
        alloc,
        &[(32769, (b's', NOP, 0, 0)), (1, (b'b', op, 0, 0))],
        LayError::Far(32769),
    )
}

#[test]
fn short_jumps(rt: HostRuntime) {
    for op in IFEQ..=JSR {
        assert!(rt; is_too_far(rt.alloc(), op));
    }
    assert!(rt; is_too_far(rt.alloc(), IFNULL));
    assert!(rt; is_too_far(rt.alloc(), IFNONNULL));
}
