use crate::opcodes::*;
use crate::rows::{RowNumbers, has_rows, laid_again};
use dj_frames::{FrameError, are_well_formed, is_rising, read_frames, write_frames};
use dj_names::Bytes;
use std::alloc::Global;

// The body of a stack map that has the same frames.
fn frames_again(alloc: Global, body: &[u8], starts: &[u32]) -> Result<Bytes, FrameError> {
    if body.len() > 999 || !is_rising(starts) {
        return Err(FrameError::Memory);
    }
    let frames = read_frames(alloc, body, starts)?;
    if are_well_formed(&frames, starts) {
        write_frames(alloc, &frames, starts)
    } else {
        Err(FrameError::Memory)
    }
}

fn is_body_same(alloc: Global, body: &[u8], starts: &[u32]) -> bool {
    match frames_again(alloc, body, starts) {
        Ok(again) => again.as_slice() == body,
        Err(_) => false,
    }
}

fn is_method_same(alloc: Global, code: &[u8], rows: &[RowNumbers], body: &[u8]) -> bool {
    match laid_again(alloc, code, rows) {
        Ok(laid) => {
            laid.code.as_slice() == code
                && has_rows(laid.table.as_slice(), rows)
                && (body.is_empty() || is_body_same(alloc, body, laid.starts.as_slice()))
        }
        Err(_) => false,
    }
}

// For each method of the classes in examples/javac/accepted, as javac wrote it: its code, its exception table, and the body of its
// StackMapTable, empty where it has none.
#[rattlefmt::skip]
const METHODS: [(&[u8], &[RowNumbers], &[u8]); 11] = [
    // Transfer.<init>()V
    (&[ALOAD_0, INVOKESPECIAL, 0, 1, RETURN], &[], b""),
    // Transfer.verify([B)[B
    (
        &[
            NEW, 0, 7, DUP, ALOAD_0, INVOKESPECIAL, 0, 9, ASTORE_1, ICONST_2, ANEWARRAY, 0, 12, DUP,
            ICONST_0, NEW, 0, 14, DUP, INVOKESPECIAL, 0, 16, AASTORE, DUP, ICONST_1, NEW, 0, 17,
            DUP, LDC2_W, 0, 19, INVOKESPECIAL, 0, 21, AASTORE, ASTORE_2, LCONST_0, LSTORE_3,
            ICONST_0, ISTORE, 5, ILOAD, 5, ALOAD_1, INVOKEVIRTUAL, 0, 24, IF_ICMPGE, 0, 29,
            ALOAD_2, ALOAD_1, ILOAD, 5, INVOKEVIRTUAL, 0, 28, INVOKESTATIC, 0, 32, LLOAD_3, ALOAD_1,
            ILOAD, 5, INVOKEVIRTUAL, 0, 28, I2L, LADD, LSTORE_3, IINC, 5, 1, GOTO, 0xff, 0xe0,
            LLOAD_3, INVOKESTATIC, 0, 38, ARETURN,
        ],
        &[],
        b"\0\x02\xff\0\x2a\0\x05\x07\0\x4c\x07\0\x07\x07\0\x4e\x04\x01\0\0\xfa\0\x22",
    ),
    // Transfer.check([Lcash/Rule;I)V
    (
        &[
            ALOAD_0, ASTORE_2, ALOAD_2, ARRAYLENGTH, ISTORE_3, ICONST_0, ISTORE, 4, ILOAD, 4,
            ILOAD_3, IF_ICMPGE, 0, 53,
            ALOAD_2, ILOAD, 4, AALOAD, ASTORE, 5, ALOAD, 5, ILOAD_1, INVOKEINTERFACE, 0, 42, 2, 0,
            IFNE, 0, 30,
            NEW, 0, 46, DUP, NEW, 0, 48, DUP, INVOKESPECIAL, 0, 50, LDC, 51, INVOKEVIRTUAL, 0, 53,
            ILOAD_1, INVOKEVIRTUAL, 0, 57, INVOKEVIRTUAL, 0, 60, INVOKESPECIAL, 0, 64, ATHROW,
            IINC, 4, 1, GOTO, 0xff, 0xcb,
            GETSTATIC, 0, 67, ICONST_1, IADD, PUTSTATIC, 0, 67, GOTO, 0, 16,
            ASTORE, 6, GETSTATIC, 0, 67, ICONST_1, IADD, PUTSTATIC, 0, 67, ALOAD, 6, ATHROW,
            RETURN,
        ],
        &[(0, 64, 75, 0), (75, 77, 75, 0)],
        b"\0\x05\xfe\0\x08\x07\0\x4e\x01\x01\x31\xf8\0\x05\x4a\x07\0\x50\x0c",
    ),
    // Transfer.bytes(J)[B
    (
        &[
            BIPUSH, 8, NEWARRAY, 8, ASTORE_2, BIPUSH, 7, ISTORE_3, ILOAD_3, IFLT, 0, 20,
            ALOAD_2, ILOAD_3, LLOAD_0, L2I, I2B, BASTORE, LLOAD_0, BIPUSH, 8, LSHR, LSTORE_0,
            IINC, 3, 0xff, GOTO, 0xff, 0xee,
            ALOAD_2, ARETURN,
        ],
        &[],
        b"\0\x02\xfd\0\x08\x07\0\x4c\x01\xfa\0\x14",
    ),
    // Amounts.<init>([B)V
    (
        &[
            ALOAD_0, INVOKESPECIAL, 0, 1, ALOAD_1, ARRAYLENGTH, ICONST_4, IREM, IFEQ, 0, 36,
            NEW, 0, 7, DUP, NEW, 0, 9, DUP, INVOKESPECIAL, 0, 11, LDC, 12, INVOKEVIRTUAL, 0, 14,
            ALOAD_1, ARRAYLENGTH, INVOKEVIRTUAL, 0, 18, LDC, 21, INVOKEVIRTUAL, 0, 14,
            INVOKEVIRTUAL, 0, 23, INVOKESPECIAL, 0, 27, ATHROW,
            ALOAD_0, ALOAD_1, PUTFIELD, 0, 30, RETURN,
        ],
        &[],
        b"\0\x01\xff\0\x2c\0\x02\x07\0\x1f\x07\0\x28\0\0",
    ),
    // Amounts.count()I
    (
        &[
            ALOAD_0, GETFIELD, 0, 30, ARRAYLENGTH, ICONST_4, IDIV, IRETURN,
        ],
        &[],
        b"",
    ),
    // Amounts.at(I)I
    (
        &[
            ICONST_0, ISTORE_2, ICONST_4, ILOAD_1, IMUL, ISTORE_3, ILOAD_3, ICONST_4, ILOAD_1, IMUL,
            ICONST_4, IADD, IF_ICMPGE, 0, 25,
            ILOAD_2, BIPUSH, 8, ISHL, ALOAD_0, GETFIELD, 0, 30, ILOAD_3, BALOAD, SIPUSH, 0, 0xff,
            IAND, IOR, ISTORE_2, IINC, 3, 1, GOTO, 0xff, 0xe4,
            ILOAD_2, IRETURN,
        ],
        &[],
        b"\0\x02\xfd\0\x06\x01\x01\xfa\0\x1e",
    ),
    // Limited.<init>(J)V
    (
        &[
            ALOAD_0, INVOKESPECIAL, 0, 1, ALOAD_0, LLOAD_1, PUTFIELD, 0, 7, RETURN,
        ],
        &[],
        b"",
    ),
    // Limited.holds(I)Z
    (
        &[
            ILOAD_1, I2L, ALOAD_0, GETFIELD, 0, 7, LCMP, IFGT, 0, 7,
            ICONST_1, GOTO, 0, 4,
            ICONST_0, IRETURN,
        ],
        &[],
        b"\0\x02\x0e\x40\x01",
    ),
    // Positive.<init>()V
    (&[ALOAD_0, INVOKESPECIAL, 0, 1, RETURN], &[], b""),
    // Positive.holds(I)Z
    (
        &[
            ILOAD_1, IFLE, 0, 7,
            ICONST_1, GOTO, 0, 4,
            ICONST_0, IRETURN,
        ],
        &[],
        b"\0\x02\x08\x40\x01",
    ),
];

fn all_same(alloc: Global, table: &[(&[u8], &[RowNumbers], &[u8])]) -> bool {
    for (code, rows, body) in table {
        if !is_method_same(alloc, code, rows, body) {
            return false;
        }
    }
    true
}

#[test]
fn methods_of_javac(rt: HostRuntime) {
    assert!(rt; all_same(rt.alloc(), &METHODS));
}
