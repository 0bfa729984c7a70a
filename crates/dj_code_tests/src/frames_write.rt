use crate::frames_reported::{
    APPEND, CHOP, FULL, FrameNumbers, SAME, STACK1, are, frames_of, list,
};
use dj_frames::{are_well_formed, write_frames};
use dj_ops::{Form, Frame, Frames, VType, VTypes};
use std::alloc::{AllocError, Global};

fn writes(alloc: Global, frames: &Frames, starts: &[u32], body: &[u8]) -> bool {
    if !are_well_formed(frames, starts) {
        return false;
    }
    match write_frames(alloc, frames, starts) {
        Ok(bytes) => bytes.as_slice() == body,
        Err(_) => false,
    }
}

fn is_written(alloc: Global, starts: &[u32], reported: FrameNumbers<'_>, body: &[u8]) -> bool {
    match frames_of(alloc, starts, body) {
        Ok(frames) => are(alloc, &frames, reported) && writes(alloc, &frames, starts, body),
        Err(_) => false,
    }
}

// Addresses of instructions, frames, and the body that is written for them.
const WRITTEN: [(usize, FrameNumbers<'static>, &[u8]); 41] = [
    (8, &[], b"\0\0"),
    (8, &[(0, SAME), (0, 0)], b"\0\x01\0"),
    (
        8,
        &[(1, SAME), (0, 0), (2, SAME), (0, 0)],
        b"\0\x02\x03\x03",
    ),
    (
        1,
        &[(1, SAME), (0, 0), (2, SAME), (0, 0)],
        b"\0\x02\x03\x03",
    ),
    (
        8,
        &[(3, SAME), (0, 0), (4, SAME), (0, 0)],
        b"\0\x02\x08\x3f",
    ),
    (
        8,
        &[
            (3, SAME),
            (0, 0),
            (4, SAME),
            (0, 0),
            (5, SAME),
            (0, 0),
            (6, SAME),
            (0, 0),
            (7, SAME),
            (0, 0),
        ],
        b"\0\x05\x08\x3f\xfb\0\x7f\xfb\0\xc7\xfb\xfe\x6e",
    ),
    (9, &[(0, SAME), (0, 0)], b"\0\x01\x3f"),
    (10, &[(0, SAME), (0, 0)], b"\0\x01\xfb\0\x40"),
    (9, &[(0, STACK1), (0, 1), (0, 0)], b"\0\x01\x7f\0"),
    (10, &[(0, STACK1), (0, 1), (0, 0)], b"\0\x01\xf7\0\x40\0"),
    (8, &[(0, STACK1), (0, 1), (1, 0)], b"\0\x01\x40\x01"),
    (8, &[(4, STACK1), (0, 1), (1, 0)], b"\0\x01\xf7\0\x48\x01"),
    (8, &[(1, STACK1), (0, 1), (0, 0)], b"\0\x01\x43\0"),
    (8, &[(1, STACK1), (0, 1), (1, 0)], b"\0\x01\x43\x01"),
    (8, &[(1, STACK1), (0, 1), (2, 0)], b"\0\x01\x43\x02"),
    (8, &[(1, STACK1), (0, 1), (3, 0)], b"\0\x01\x43\x03"),
    (8, &[(1, STACK1), (0, 1), (4, 0)], b"\0\x01\x43\x04"),
    (8, &[(1, STACK1), (0, 1), (5, 0)], b"\0\x01\x43\x05"),
    (8, &[(1, STACK1), (0, 1), (6, 0)], b"\0\x01\x43\x06"),
    (8, &[(1, STACK1), (0, 1), (7, 0)], b"\0\x01\x43\x07\0\0"),
    (
        8,
        &[(1, STACK1), (0, 1), (7, 65535)],
        b"\0\x01\x43\x07\xff\xff",
    ),
    (8, &[(1, STACK1), (0, 1), (8, 0)], b"\0\x01\x43\x08\0\0"),
    (8, &[(1, STACK1), (0, 1), (8, 5)], b"\0\x01\x43\x08\0\xc8"),
    (8, &[(1, STACK1), (0, 1), (8, 7)], b"\0\x01\x43\x08\xff\xff"),
    (
        8,
        &[(1, CHOP), (1, 0), (2, CHOP), (2, 0), (3, CHOP), (3, 0)],
        b"\0\x03\xfa\0\x03\xf9\0\x03\xf8\0\0",
    ),
    (
        8,
        &[
            (1, APPEND),
            (1, 0),
            (0, 0),
            (2, APPEND),
            (2, 0),
            (0, 0),
            (4, 0),
            (3, APPEND),
            (3, 0),
            (0, 0),
            (7, 1),
            (8, 2),
        ],
        b"\0\x03\xfc\0\x03\0\xfd\0\x03\0\x04\xfe\0\0\0\x07\0\x01\x08\0\x07",
    ),
    (8, &[(0, APPEND), (1, 0), (1, 0)], b"\0\x01\xfc\0\0\x01"),
    (8, &[(1, FULL), (0, 0)], b"\0\x01\xff\0\x03\0\0\0\0"),
    (
        8,
        &[(1, FULL), (2, 2), (1, 0), (4, 0), (7, 1), (8, 3)],
        b"\0\x01\xff\0\x03\0\x02\x01\x04\0\x02\x07\0\x01\x08\0\x08",
    ),
    (
        8,
        &[(1, FULL), (0, 1), (5, 0), (7, FULL), (1, 0), (6, 0)],
        b"\0\x02\xff\0\x03\0\0\0\x01\x05\xff\xff\xfb\0\x01\x06\0\0",
    ),
    (
        8,
        &[
            (0, SAME),
            (0, 0),
            (1, STACK1),
            (0, 1),
            (5, 0),
            (2, CHOP),
            (1, 0),
            (3, APPEND),
            (1, 0),
            (2, 0),
            (4, FULL),
            (0, 0),
            (5, SAME),
            (0, 0),
            (6, STACK1),
            (0, 1),
            (4, 0),
            (7, SAME),
            (0, 0),
        ],
        b"\0\x08\0\x42\x05\xfa\0\x03\xfc\0\0\x02\xff\0\x3f\0\0\0\0\xfb\0\x7f\xf7\0\xc7\x04\xfb\xfe\x6e",
    ),
    (11, &[(0, SAME), (0, 0), (1, SAME), (0, 0)], b"\0\x02\0\x3f"),
    (
        12,
        &[(0, SAME), (0, 0), (1, SAME), (0, 0)],
        b"\0\x02\0\xfb\0\x40",
    ),
    (
        11,
        &[(0, STACK1), (0, 1), (5, 0), (1, STACK1), (0, 1), (5, 0)],
        b"\0\x02\x40\x05\x7f\x05",
    ),
    (
        12,
        &[(0, STACK1), (0, 1), (5, 0), (1, STACK1), (0, 1), (5, 0)],
        b"\0\x02\x40\x05\xf7\0\x40\x05",
    ),
    (
        13,
        &[(0, SAME), (0, 0), (1, SAME), (0, 0)],
        b"\0\x02\xfb\xff\xfe\0",
    ),
    (14, &[(0, CHOP), (3, 0)], b"\0\x01\xf8\xff\xff"),
    (15, &[(2, SAME), (0, 0)], b"\0\x01\x02"),
    (
        15,
        &[(0, SAME), (0, 0), (1, SAME), (0, 0), (2, SAME), (0, 0)],
        b"\0\x03\0\0\0",
    ),
    (
        5,
        &[(1, APPEND), (2, 0), (8, 0), (8, 1)],
        b"\0\x01\xfd\xff\xff\x08\0\0\x08\xff\xff",
    ),
    (8, &[(7, SAME), (0, 0)], b"\0\x01\xfb\xff\xff"),
];

fn all_written(alloc: Global, table: &[(usize, FrameNumbers<'_>, &[u8])]) -> bool {
    for (starts, reported, body) in table {
        if !is_written(alloc, list(*starts), reported, body) {
            return false;
        }
    }
    true
}

#[test]
fn writes_frames(rt: HostRuntime) {
    assert!(rt; all_written(rt.alloc(), &WRITTEN));
}

// A full frame with 300 local variables, and three operands.
fn wide(alloc: Global) -> Result<Frames, AllocError> {
    let mut locals = VTypes::new(alloc);
    for _ in 0..300 {
        locals.push(VType::Top)?;
    }
    let mut operands = VTypes::new(alloc);
    for _ in 0..3 {
        operands.push(VType::Object(258))?;
    }
    let mut frames = Frames::new(alloc);
    frames.push(Frame {
        at: 1,
        form: Form::Full(locals, operands),
    })?;
    Ok(frames)
}

fn wide_body(alloc: Global) -> Result<Vec<u8>, AllocError> {
    let mut body = Vec::from_slice(alloc, b"\0\x01\xff\0\x03\x01\x2c")?;
    for _ in 0..300 {
        body.push(0)?;
    }
    body.extend_from_slice(b"\0\x03\x07\x01\x02\x07\x01\x02\x07\x01\x02")?;
    Ok(body)
}

fn writes_wide(alloc: Global) -> bool {
    match (wide(alloc), wide_body(alloc)) {
        (Ok(frames), Ok(body)) => writes(alloc, &frames, list(8), body.as_slice()),
        _ => false,
    }
}

#[test]
fn writes_a_wide_frame(rt: HostRuntime) {
    assert!(rt; writes_wide(rt.alloc()));
}
