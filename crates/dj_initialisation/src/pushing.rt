ghost use Rattle.std.specs.Prelude.{◌≡◌, ◌≤◌, length, get_or, None, OnOk};
ghost use Rattle.dj_initialisation.specs.Initialisers.{initialiser_count, one_if, pushed, with_initialiser};

use crate::initialisers::{Initialiser, Initialisers};
use dj_stack::Frames;
use std::alloc::AllocError;

/// How many of these classes have an initialiser.
pub fn count_of(initialisers: &Initialisers, classes: &[u32]) -> usize
    ensures is { result ≡ initialiser_count initialisers.now classes.now }
    ensures few { result ≤ length classes.now }
{
    let mut count = 0;
    for class in classes {
        count += one_if(initialisers.initialiser(*class));
    }
    count
}

// 1 where there is an initialiser, else 0.
fn one_if(initialiser: Option<Initialiser>) -> usize
    ensures { result ≡ one_if initialiser }
{
    match initialiser {
        Some(_) => 1,
        None => 0,
    }
}

// Pushes the frame of the initialiser of a class, where it has one.
fn push_one(initialisers: &Initialisers, frames: &mut Frames, class: u32) -> Result<(), AllocError>
    ensures { OnOk result (frames.new ≡ with_initialiser (get_or initialisers.now class None) frames.old) }
{
    let Some(initialiser) = initialisers.initialiser(class) else {
        return Ok(());
    };
    frames
        .push(initialiser.method, initialiser.locals, initialiser.room)
        .or(Err(AllocError))
}

/// Pushes the frames of the initialisers of these classes, that of the last class on top.
pub fn push_all(
    initialisers: &Initialisers,
    frames: &mut Frames,
    classes: &[u32],
) -> Result<(), AllocError>
    ensures { OnOk result (frames.new ≡ pushed initialisers.now classes.now frames.old) }
{
    for class in classes {
        push_one(initialisers, frames, *class)?;
    }
    Ok(())
}
