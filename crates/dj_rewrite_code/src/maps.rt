//! The stack map of rewritten code.
ghost use Rattle.std.specs.Prelude.{◌≡◌, map, IfOk};
ghost use Rattle.dj_frames.specs.Moves.{moved_frame};
ghost use Rattle.dj_frames.specs.trusted.Written.{stack_map_bytes};
ghost use Rattle.dj_rewrite_code.specs.Answers.{CanMove};

use dj_emit::Grouped;
use dj_frames::{relocate, write_frames};
use dj_names::Bytes;
use dj_ops::Frames;
use std::alloc::{AllocError, Global};

/// The body of the stack map of code in groups: the frames at the starts of their groups, for instructions at these addresses.
pub(crate) fn moved_map(
    alloc: Global,
    frames: &Frames,
    grouped: &Grouped,
    addresses: &[u32],
) -> Result<Bytes, AllocError>
    requires { CanMove grouped.now addresses.now frames.now }
    ensures { IfOk result (λ body. body ≡ stack_map_bytes addresses.now (map (moved_frame grouped.now.start grouped.now.own) frames.now)) }
{
    let moved = match relocate(
        alloc,
        frames,
        grouped.start.as_slice(),
        grouped.own.as_slice(),
    ) {
        Ok(moved) => moved,
        Err(_) => return Err(AllocError),
    };
    match write_frames(alloc, &moved, addresses) {
        Ok(body) => Ok(body),
        Err(_) => Err(AllocError),
    }
}
