use crate::frames_reported::{
    APPEND, CHOP, FULL, FrameNumbers, SAME, STACK1, are, frames_of, list,
};
use dj_frames::FrameError;
use std::alloc::Global;

fn is_read(alloc: Global, starts: &[u32], body: &[u8], reported: FrameNumbers<'_>) -> bool {
    match frames_of(alloc, starts, body) {
        Ok(frames) => are(alloc, &frames, reported),
        Err(_) => false,
    }
}

// Addresses of instructions, a body, and its frames.
const READ: [(usize, &[u8], FrameNumbers<'static>); 40] = [
    (0, b"\0\0", &[]),
    (0, b"\0\x01\0", &[(0, SAME), (0, 0)]),
    (0, b"\0\x01\x03", &[(1, SAME), (0, 0)]),
    (
        0,
        b"\0\x03\0\x02\x03",
        &[(0, SAME), (0, 0), (1, SAME), (0, 0), (2, SAME), (0, 0)],
    ),
    (
        0,
        b"\0\x02\x03\x03",
        &[(1, SAME), (0, 0), (2, SAME), (0, 0)],
    ),
    (0, b"\0\x01\x43\x01", &[(1, STACK1), (0, 1), (1, 0)]),
    (0, b"\0\x01\x43\0", &[(1, STACK1), (0, 1), (0, 0)]),
    (0, b"\0\x01\x43\x02", &[(1, STACK1), (0, 1), (2, 0)]),
    (0, b"\0\x01\x43\x03", &[(1, STACK1), (0, 1), (3, 0)]),
    (0, b"\0\x01\x43\x04", &[(1, STACK1), (0, 1), (4, 0)]),
    (0, b"\0\x01\x43\x05", &[(1, STACK1), (0, 1), (5, 0)]),
    (0, b"\0\x01\x43\x06", &[(1, STACK1), (0, 1), (6, 0)]),
    (
        0,
        b"\0\x01\x43\x07\xff\xff",
        &[(1, STACK1), (0, 1), (7, 65535)],
    ),
    (0, b"\0\x01\x43\x08\0\0", &[(1, STACK1), (0, 1), (8, 0)]),
    (0, b"\0\x01\x43\x08\0\x07", &[(1, STACK1), (0, 1), (8, 2)]),
    (0, b"\0\x01\xfb\0\0", &[(0, SAME), (0, 0)]),
    (0, b"\0\x01\xfb\0\x03", &[(1, SAME), (0, 0)]),
    (0, b"\0\x01\xfb\0\x48", &[(4, SAME), (0, 0)]),
    (0, b"\0\x01\xf7\0\x03\x01", &[(1, STACK1), (0, 1), (1, 0)]),
    (
        0,
        b"\0\x01\xf7\0\x48\x07\0\x01",
        &[(4, STACK1), (0, 1), (7, 1)],
    ),
    (0, b"\0\x01\xfa\0\x03", &[(1, CHOP), (1, 0)]),
    (0, b"\0\x01\xf9\0\x03", &[(1, CHOP), (2, 0)]),
    (0, b"\0\x01\xf8\0\x03", &[(1, CHOP), (3, 0)]),
    (0, b"\0\x01\xfc\0\x03\x01", &[(1, APPEND), (1, 0), (1, 0)]),
    (
        0,
        b"\0\x01\xfd\0\x03\x01\x04",
        &[(1, APPEND), (2, 0), (1, 0), (4, 0)],
    ),
    (
        0,
        b"\0\x01\xfe\0\x03\x01\x04\x07\0\x02",
        &[(1, APPEND), (3, 0), (1, 0), (4, 0), (7, 2)],
    ),
    (0, b"\0\x01\xff\0\x03\0\0\0\0", &[(1, FULL), (0, 0)]),
    (
        0,
        b"\0\x01\xff\0\x03\0\x02\x01\x04\0\x01\x05",
        &[(1, FULL), (2, 1), (1, 0), (4, 0), (5, 0)],
    ),
    (
        0,
        b"\0\x01\xff\0\x03\0\x03\x07\0\x01\x08\0\x03\x06\0\x02\x07\0\x02\x08\0\0",
        &[(1, FULL), (3, 2), (7, 1), (8, 1), (6, 0), (7, 2), (8, 0)],
    ),
    (
        0,
        b"\0\x03\0\x02\xfb\0\x03",
        &[(0, SAME), (0, 0), (1, SAME), (0, 0), (2, SAME), (0, 0)],
    ),
    (
        0,
        b"\0\x02\x08\xff\0\x3f\0\0\0\0",
        &[(3, SAME), (0, 0), (4, FULL), (0, 0)],
    ),
    (
        0,
        b"\0\x04\0\xfb\0\x02\xfb\0\x03\0",
        &[
            (0, SAME),
            (0, 0),
            (1, SAME),
            (0, 0),
            (2, SAME),
            (0, 0),
            (3, SAME),
            (0, 0),
        ],
    ),
    (
        0,
        b"\0\x02\xfb\0\x48\xfb\0\x7f",
        &[(4, SAME), (0, 0), (5, SAME), (0, 0)],
    ),
    (
        1,
        b"\0\x02\x03\x03",
        &[(1, SAME), (0, 0), (2, SAME), (0, 0)],
    ),
    (2, b"\0\x01\0", &[(0, SAME), (0, 0)]),
    (3, b"\0\x01\x05", &[(0, SAME), (0, 0)]),
    (4, b"\0\0", &[]),
    (
        5,
        b"\0\x02\xff\0\0\0\0\0\0\xfb\xff\xfe",
        &[(0, FULL), (0, 0), (1, SAME), (0, 0)],
    ),
    (
        6,
        b"\0\x02\xfb\xff\xff\0",
        &[(0, SAME), (0, 0), (1, SAME), (0, 0)],
    ),
    (
        7,
        b"\0\x03\xfb\xff\xff\xfb\xff\xff\0",
        &[(0, SAME), (0, 0), (1, SAME), (0, 0), (2, SAME), (0, 0)],
    ),
];

fn all_read(alloc: Global, table: &[(usize, &[u8], FrameNumbers<'_>)]) -> bool {
    for (starts, body, reported) in table {
        if !is_read(alloc, list(*starts), body, reported) {
            return false;
        }
    }
    true
}

#[test]
fn reads_frames(rt: HostRuntime) {
    assert!(rt; all_read(rt.alloc(), &READ));
}

fn is_refused(alloc: Global, starts: &[u32], body: &[u8], error: FrameError) -> bool {
    frames_of(alloc, starts, body).err() == Some(error)
}

// Addresses of instructions, a body, and its first fault.
const REFUSED: [(usize, &[u8], FrameError); 37] = [
    (0, b"\0\x01\x40", FrameError::BadFrame(3)),
    (0, b"\0\x01\x01", FrameError::NotAnInstruction(2)),
    (0, b"\0\x01\x02", FrameError::NotAnInstruction(2)),
    (0, b"\0\x01\x3f", FrameError::NotAnInstruction(2)),
    (0, b"\0\x01\x41\x01", FrameError::NotAnInstruction(2)),
    (0, b"\0\x01\xfb\0\x01", FrameError::NotAnInstruction(3)),
    (0, b"\0\x01\xfb\xff\xff", FrameError::NotAnInstruction(3)),
    (0, b"\0\x02\xfb\xff\xff\0", FrameError::NotAnInstruction(3)),
    (0, b"\0\x01\xf7\0\x02\x01", FrameError::NotAnInstruction(3)),
    (0, b"\0\x01\xfa\0\x02", FrameError::NotAnInstruction(3)),
    (0, b"\0\x01\xfc\0\x02\x01", FrameError::NotAnInstruction(3)),
    (
        0,
        b"\0\x01\xff\0\x02\0\0\0\0",
        FrameError::NotAnInstruction(3),
    ),
    (0, b"\0\x01\x43\x08\0\x01", FrameError::NotAnInstruction(4)),
    (
        0,
        b"\0\x01\x43\x08\xff\xff",
        FrameError::NotAnInstruction(4),
    ),
    (
        0,
        b"\0\x01\xfc\0\x03\x08\0\x02",
        FrameError::NotAnInstruction(6),
    ),
    (
        0,
        b"\0\x01\xff\0\x03\0\x01\x08\0\x09\0\0",
        FrameError::NotAnInstruction(8),
    ),
    (
        0,
        b"\0\x01\xff\0\x03\0\0\0\x01\x08\0\xc9",
        FrameError::NotAnInstruction(10),
    ),
    (0, b"\0\x02\0\x01", FrameError::NotAnInstruction(3)),
    (0, b"\0\x02\0\0", FrameError::NotAnInstruction(3)),
    (0, b"\0\x02\x03\x02", FrameError::NotAnInstruction(3)),
    (0, b"\0\x03\0\x02\x02", FrameError::NotAnInstruction(4)),
    (0, b"", FrameError::BadFrame(0)),
    (0, b"\0", FrameError::BadFrame(0)),
    (0, b"\0\x01", FrameError::BadFrame(2)),
    (0, b"\0\x01\x80", FrameError::BadFrame(2)),
    (0, b"\0\x01\xc8", FrameError::BadFrame(2)),
    (0, b"\0\x01\xf6", FrameError::BadFrame(2)),
    (0, b"\0\x01\xf6\0", FrameError::BadFrame(2)),
    (0, b"\0\x01\xfb", FrameError::BadFrame(3)),
    (0, b"\0\x01\xfb\0", FrameError::BadFrame(3)),
    (0, b"\0\x01\xf7", FrameError::BadFrame(3)),
    (0, b"\0\x01\xf7\0", FrameError::BadFrame(3)),
    (0, b"\0\x01\xf7\0\x03", FrameError::BadFrame(5)),
    (0, b"\0\x01\x43", FrameError::BadFrame(3)),
    (0, b"\0\x01\x43\x09", FrameError::BadFrame(3)),
    (0, b"\0\x01\x43\xff", FrameError::BadFrame(3)),
    (0, b"\0\x01\x40\x07", FrameError::BadFrame(4)),
];

fn all_refused(alloc: Global, table: &[(usize, &[u8], FrameError)]) -> bool {
    for (starts, body, error) in table {
        if !is_refused(alloc, list(*starts), body, *error) {
            return false;
        }
    }
    true
}

#[test]
fn refuses_bodies(rt: HostRuntime) {
    assert!(rt; all_refused(rt.alloc(), &REFUSED));
}

// The same.
const REFUSED_TOO: [(usize, &[u8], FrameError); 37] = [
    (0, b"\0\x01\x40\x07\0", FrameError::BadFrame(4)),
    (0, b"\0\x01\x40\x08", FrameError::BadFrame(4)),
    (0, b"\0\x01\x40\x08\0", FrameError::BadFrame(4)),
    (0, b"\0\x01\xfc\0\x03", FrameError::BadFrame(5)),
    (0, b"\0\x01\xfd\0\x03\x01", FrameError::BadFrame(6)),
    (0, b"\0\x01\xfe\0\x03\x01\x01", FrameError::BadFrame(7)),
    (0, b"\0\x01\xff", FrameError::BadFrame(3)),
    (0, b"\0\x01\xff\0\x03", FrameError::BadFrame(5)),
    (0, b"\0\x01\xff\0\x03\0", FrameError::BadFrame(5)),
    (0, b"\0\x01\xff\0\x03\0\x01", FrameError::BadFrame(7)),
    (0, b"\0\x01\xff\0\x03\0\x01\x01", FrameError::BadFrame(8)),
    (
        0,
        b"\0\x01\xff\0\x03\0\x01\x01\0\0\0",
        FrameError::BadFrame(10),
    ),
    (0, b"\0\x01\xff\0\x03\0\0\0\x01", FrameError::BadFrame(9)),
    (0, b"\0\x01\xff\0\x03\xff\xff\x01", FrameError::BadFrame(8)),
    (
        0,
        b"\0\x01\xff\0\x03\0\0\xff\xff\x05",
        FrameError::BadFrame(10),
    ),
    (0, b"\0\0\0", FrameError::BadFrame(2)),
    (0, b"\0\x01\0\0", FrameError::BadFrame(3)),
    (0, b"\0\x01\x03\0", FrameError::BadFrame(3)),
    (0, b"\0\x02\0", FrameError::BadFrame(3)),
    (0, b"\0\x02\x03\x80", FrameError::BadFrame(3)),
    (0, b"\0\x03\0\x02", FrameError::BadFrame(4)),
    (0, b"\xff\xff\0", FrameError::BadFrame(3)),
    (0, b"\0\x01\x43\x01\x01", FrameError::BadFrame(4)),
    (0, b"\0\x02\x01\xc8", FrameError::NotAnInstruction(2)),
    (0, b"\0\x02\xc8\x01", FrameError::BadFrame(2)),
    (0, b"\0\x01\x41\x09", FrameError::NotAnInstruction(2)),
    (0, b"\0\x01\x41", FrameError::NotAnInstruction(2)),
    (0, b"\0\x01\xfc\0\x02\x09", FrameError::NotAnInstruction(3)),
    (0, b"\0\x01\xfb\0\x02\0", FrameError::NotAnInstruction(3)),
    (
        0,
        b"\0\x02\x43\x08\0\x01\x80",
        FrameError::NotAnInstruction(4),
    ),
    (
        0,
        b"\0\x01\xff\0\x03\0\x02\x08\0\x01\x09\0\0",
        FrameError::NotAnInstruction(8),
    ),
    (
        0,
        b"\0\x01\xff\0\x03\0\x02\x09\x08\0\x01\0\0",
        FrameError::BadFrame(7),
    ),
    (0, b"\0\x01\xfb\0\x01\xff", FrameError::NotAnInstruction(3)),
    (1, b"\0\x01\xc8", FrameError::BadFrame(2)),
    (2, b"\0\x01\x80", FrameError::BadFrame(2)),
    (3, b"\0\x01\0", FrameError::NotAnInstruction(2)),
    (4, b"\0\x01\0", FrameError::NotAnInstruction(2)),
];

#[test]
fn refuses_more_bodies(rt: HostRuntime) {
    assert!(rt; all_refused(rt.alloc(), &REFUSED_TOO));
}
