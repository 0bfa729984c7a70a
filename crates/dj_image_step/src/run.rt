use dj_heap::Heap;
use dj_initialisation::Initialised;
use dj_member_effects::{Literals, Statics};
use dj_names::Value;
use dj_natives::Accounter;
use dj_stack::Frames;
use std::marker::Model;

/// What a run keeps.
#[derive(Drop)]
pub struct Run {
    /// Which classes are initialised.
    pub flags: Initialised,
    pub statics: Statics,
    pub literals: Literals,
    pub heap: Heap,
    pub frames: Frames,
    /// Who counts; nobody, where the classes aren't rewritten.
    pub accounter: Option<Accounter>,
    /// The number of the object that stops the run, once it was thrown, and 0 before.
    pub stop: u32,
    /// Room for the arguments of a call.
    pub arguments: Vec<Value>,
}

impl Model for Run {
    ghost use Rattle.dj_initialisation.specs.Store.{store};
    ghost use Rattle.dj_initialisation.specs.Preparing.{parts};
    ghost use Rattle.dj_image_step.specs.Running.{Running};

    ghost Value = { Running };

    ghost view = { λ run. record {
      parts = parts run.flags (store run.heap run.statics run.literals) run.frames;
      counter = run.accounter;
      stop = run.stop;
    } };
}
