ghost use Rattle.std.specs.Prelude.{◌≡◌, ◌<◌, length, replicate, set, false, true, IfOk};
ghost use Rattle.dj_initialisation.specs.Flags.{has_begun};

use std::alloc::{AllocError, Global};
use std::marker::Model;

/// For each class, in their order, whether its initialisation has begun.
#[derive(Debug, Drop)]
pub struct Initialised {
    flags: Vec<bool>,
}

impl Model for Initialised {
    ghost use Rattle.std.specs.Prelude.{Bool, List};

    ghost Value = { List Bool };

    ghost view = { λ initialised. initialised.flags.items };
}

impl Initialised {
    /// The flags of this many classes, none of which has begun.
    pub fn new(alloc: Global, count: u32) -> Result<Initialised, AllocError>
        ensures { IfOk result (λ initialised. initialised ≡ replicate count false) }
    {
        Ok(Initialised {
            flags: vec![in alloc; false; count as usize]?,
        })
    }

    /// Whether the initialisation of a class has begun. An array has nothing to initialise.
    pub fn has_begun(&self, class: u32) -> bool
        ensures { result ≡ has_begun self.now class }
    {
        match self.flags.get(class as usize) {
            Some(flag) => *flag,
            None => true,
        }
    }

    /// The initialisation of a class begins.
    pub fn mark(&mut self, class: u32)
        requires { class < length self.old }
        ensures { self.new ≡ set self.old class true }
    {
        self.flags[class as usize] = true;
    }
}
