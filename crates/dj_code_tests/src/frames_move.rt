use crate::frames_reported::{
    APPEND, CHOP, FULL, FrameNumbers, SAME, STACK1, are, frames_of, list,
};
use dj_frames::{are_below, is_rising, relocate};
use dj_ops::Frames;
use std::alloc::Global;

fn moves(
    alloc: Global,
    frames: &Frames,
    start: &[u32],
    own: &[u32],
    wanted: FrameNumbers<'_>,
) -> bool {
    if !is_rising(start) || !are_below(start.len(), frames) || !are_below(own.len(), frames) {
        return false;
    }
    match relocate(alloc, frames, start, own) {
        Ok(moved) => are(alloc, &moved, wanted),
        Err(_) => false,
    }
}

const NUMBERS: &[u32] = &[0, 1, 2, 3, 4, 5];

fn is_moved(
    alloc: Global,
    start: &[u32],
    own: &[u32],
    body: &[u8],
    wanted: FrameNumbers<'_>,
) -> bool {
    match frames_of(alloc, NUMBERS, body) {
        Ok(frames) => moves(alloc, &frames, start, own, wanted),
        Err(_) => false,
    }
}

// Numbers for frames and for their new instructions, a body of frames where each instruction has a byte, and its frames after that.
const MOVED: [(usize, usize, &[u8], FrameNumbers<'static>); 19] = [
    (2, 2, b"\0\0", &[]),
    (
        15,
        15,
        b"\0\x02\xfb\0\x01\xfb\0\0",
        &[(1, SAME), (0, 0), (2, SAME), (0, 0)],
    ),
    (
        1,
        16,
        b"\0\x02\xfb\0\x01\xf7\0\0\x07\0\x05",
        &[(3, SAME), (0, 0), (7, STACK1), (0, 1), (7, 5)],
    ),
    (
        17,
        18,
        b"\0\x03\xf7\0\0\x08\0\x01\xfe\0\0\x08\0\0\0\x08\0\x02\xff\0\0\0\x02\x08\0\x02\x01\0\x01\x08\0\x01",
        &[
            (0, STACK1),
            (0, 1),
            (8, 7),
            (5, APPEND),
            (3, 0),
            (8, 2),
            (0, 0),
            (8, 11),
            (9, FULL),
            (2, 1),
            (8, 11),
            (1, 0),
            (8, 7),
        ],
    ),
    (
        19,
        20,
        b"\0\x03\xf8\0\0\xfb\0\0\xff\0\x01\0\0\0\0",
        &[(10, CHOP), (3, 0), (20, SAME), (0, 0), (40, FULL), (0, 0)],
    ),
    (
        21,
        22,
        b"\0\x04\xf7\0\x01\x06\xfc\0\0\x04\xfa\0\0\xf7\0\0\x08\0\x04",
        &[
            (2, STACK1),
            (0, 1),
            (6, 0),
            (4, APPEND),
            (1, 0),
            (4, 0),
            (6, CHOP),
            (1, 0),
            (8, STACK1),
            (0, 1),
            (8, 9),
        ],
    ),
    (
        23,
        24,
        b"\0\x01\xfd\0\x01\x08\0\0\x08\0\x01",
        &[(1000000, APPEND), (2, 0), (8, 5), (8, 4294967295)],
    ),
    (
        25,
        26,
        b"\0\x02\xff\0\0\0\x02\x08\0\x01\x08\0\0\0\x02\x08\0\x01\x08\0\0\xfb\0\0",
        &[
            (1, FULL),
            (2, 2),
            (8, 1),
            (8, 2),
            (8, 1),
            (8, 2),
            (2, SAME),
            (0, 0),
        ],
    ),
    (
        27,
        2,
        b"\0\x01\xf7\0\0\x08\0\0",
        &[(7, STACK1), (0, 1), (8, 0)],
    ),
    (
        28,
        29,
        b"\0\x01\xff\0\x01\0\x02\x07\0\0\x07\0\x01\0\x01\x05",
        &[(7, FULL), (2, 1), (7, 0), (7, 1), (5, 0)],
    ),
    (
        30,
        31,
        b"\0\x03\xfb\0\0\xfb\0\0\xf7\0\0\x08\0\0",
        &[
            (3, SAME),
            (0, 0),
            (4, SAME),
            (0, 0),
            (5, STACK1),
            (0, 1),
            (8, 9),
        ],
    ),
    (
        32,
        33,
        b"\0\x01\xf7\0\x01\0",
        &[(6, STACK1), (0, 1), (0, 0)],
    ),
    (
        32,
        33,
        b"\0\x01\xfc\0\x02\0",
        &[(9, APPEND), (1, 0), (0, 0)],
    ),
    (
        32,
        33,
        b"\0\x01\xff\0\x01\0\x01\0\0\x01\0",
        &[(6, FULL), (1, 1), (0, 0), (0, 0)],
    ),
    (
        32,
        33,
        b"\0\x01\xf7\0\x01\x01",
        &[(6, STACK1), (0, 1), (1, 0)],
    ),
    (
        32,
        33,
        b"\0\x01\xfc\0\x02\x01",
        &[(9, APPEND), (1, 0), (1, 0)],
    ),
    (
        32,
        33,
        b"\0\x01\xff\0\x01\0\x01\x01\0\x01\x01",
        &[(6, FULL), (1, 1), (1, 0), (1, 0)],
    ),
    (
        32,
        33,
        b"\0\x01\xf7\0\x01\x02",
        &[(6, STACK1), (0, 1), (2, 0)],
    ),
    (
        32,
        33,
        b"\0\x01\xfc\0\x02\x02",
        &[(9, APPEND), (1, 0), (2, 0)],
    ),
];

fn all_moved(alloc: Global, table: &[(usize, usize, &[u8], FrameNumbers<'_>)]) -> bool {
    for (start, own, body, wanted) in table {
        if !is_moved(alloc, list(*start), list(*own), body, wanted) {
            return false;
        }
    }
    true
}

#[test]
fn moves_frames(rt: HostRuntime) {
    assert!(rt; all_moved(rt.alloc(), &MOVED));
}

// The same.
const MOVED_TOO: [(usize, usize, &[u8], FrameNumbers<'static>); 19] = [
    (
        32,
        33,
        b"\0\x01\xff\0\x01\0\x01\x02\0\x01\x02",
        &[(6, FULL), (1, 1), (2, 0), (2, 0)],
    ),
    (
        32,
        33,
        b"\0\x01\xf7\0\x01\x03",
        &[(6, STACK1), (0, 1), (3, 0)],
    ),
    (
        32,
        33,
        b"\0\x01\xfc\0\x02\x03",
        &[(9, APPEND), (1, 0), (3, 0)],
    ),
    (
        32,
        33,
        b"\0\x01\xff\0\x01\0\x01\x03\0\x01\x03",
        &[(6, FULL), (1, 1), (3, 0), (3, 0)],
    ),
    (
        32,
        33,
        b"\0\x01\xf7\0\x01\x04",
        &[(6, STACK1), (0, 1), (4, 0)],
    ),
    (
        32,
        33,
        b"\0\x01\xfc\0\x02\x04",
        &[(9, APPEND), (1, 0), (4, 0)],
    ),
    (
        32,
        33,
        b"\0\x01\xff\0\x01\0\x01\x04\0\x01\x04",
        &[(6, FULL), (1, 1), (4, 0), (4, 0)],
    ),
    (
        32,
        33,
        b"\0\x01\xf7\0\x01\x05",
        &[(6, STACK1), (0, 1), (5, 0)],
    ),
    (
        32,
        33,
        b"\0\x01\xfc\0\x02\x05",
        &[(9, APPEND), (1, 0), (5, 0)],
    ),
    (
        32,
        33,
        b"\0\x01\xff\0\x01\0\x01\x05\0\x01\x05",
        &[(6, FULL), (1, 1), (5, 0), (5, 0)],
    ),
    (
        32,
        33,
        b"\0\x01\xf7\0\x01\x06",
        &[(6, STACK1), (0, 1), (6, 0)],
    ),
    (
        32,
        33,
        b"\0\x01\xfc\0\x02\x06",
        &[(9, APPEND), (1, 0), (6, 0)],
    ),
    (
        32,
        33,
        b"\0\x01\xff\0\x01\0\x01\x06\0\x01\x06",
        &[(6, FULL), (1, 1), (6, 0), (6, 0)],
    ),
    (
        32,
        33,
        b"\0\x01\xf7\0\x01\x07\0\x01",
        &[(6, STACK1), (0, 1), (7, 1)],
    ),
    (
        32,
        33,
        b"\0\x01\xfc\0\x02\x07\0\x01",
        &[(9, APPEND), (1, 0), (7, 1)],
    ),
    (
        32,
        33,
        b"\0\x01\xff\0\x01\0\x01\x07\0\x01\0\x01\x07\0\x01",
        &[(6, FULL), (1, 1), (7, 1), (7, 1)],
    ),
    (
        32,
        33,
        b"\0\x01\xf7\0\x01\x08\0\x01",
        &[(6, STACK1), (0, 1), (8, 8)],
    ),
    (
        32,
        33,
        b"\0\x01\xfc\0\x02\x08\0\x01",
        &[(9, APPEND), (1, 0), (8, 8)],
    ),
    (
        32,
        33,
        b"\0\x01\xff\0\x01\0\x01\x08\0\x01\0\x01\x08\0\x01",
        &[(6, FULL), (1, 1), (8, 8), (8, 8)],
    ),
];

#[test]
fn moves_more_frames(rt: HostRuntime) {
    assert!(rt; all_moved(rt.alloc(), &MOVED_TOO));
}
