ghost use Rattle.std.specs.Prelude.{◌≡◌, ◌≤◌, ◌<◌, ◌++◌, ◌∷◌, ℕ, [], List, length, IfOk};
ghost use Rattle.dj_names.specs.declared.run.Costs.{Costs};
ghost use Rattle.dj_model.specs.Sound.{IsSound};
ghost use Rattle.dj_model.specs.Standing.{AsksNothing, IsEntry};
ghost use Rattle.dj_natives.specs.Counting.{AreLow};
ghost use Rattle.dj_numbering.specs.Members.{all_methods};
ghost use Rattle.dj_image.specs.Imaged.{program_of};
ghost use Rattle.dj_step.specs.Running.{declared_at};
ghost use Rattle.dj_host.specs.trusted.Hosted.{given_since};
ghost use Rattle.dj_machine.specs.trusted.Engines.{AddsRun};
ghost use Rattle.dj_machine.specs.Engines.{RunsPlainly};

use dj_edge::Host;
use dj_image::{Image, MethodId};
use dj_names::{Costs, Outcome, Thresholds};
use std::alloc::{AllocError, AllocFailed, Global};
use thiserror::Error;

/// How a run ended.
#[derive(Debug, Drop)]
pub struct Ending {
    pub outcome: Outcome,
    /// What the run was charged.
    pub costs: Costs,
    /// How many steps it made.
    pub steps: u64,
}

/// Why a run wasn't made to its end.
#[derive(Clone, Copy, Debug, PartialEq, Eq, Error)]
pub enum EngineError {
    /// There was no memory.
    #[error("out of memory")]
    Memory,
}

impl From<AllocError> for EngineError {
    ghost use Rattle.dj_machine.specs.declared.engine.EngineError.TheVariants.{Memory};

    ghost from_gives = { λ _ e. e ≡ Memory };

    fn from(_error: AllocError) -> EngineError {
        EngineError::Memory
    }
}

impl<T: Drop> From<AllocFailed<T>> for EngineError {
    ghost use Rattle.dj_machine.specs.declared.engine.EngineError.TheVariants.{Memory};

    ghost from_gives = { λ _ e. e ≡ Memory };

    fn from(_error: AllocFailed<T>) -> EngineError {
        EngineError::Memory
    }
}

impl From<EngineError> for AllocError {
    ghost use Rattle.std.specs.declared.alloc.AllocError.{AllocError};

    ghost from_gives = { λ _ e. e ≡ record {} };

    fn from(_error: EngineError) -> AllocError {
        AllocError
    }
}

/// What makes runs of programs.
pub trait Engine {
    /// The costs and steps of its runs so far.
    ghost runs: { Self → List (Costs × ℕ) };

    /// The run of an entry on an input, of at most `fuel` steps: how it ended, and what it was charged where rewritten classes have an accounter.
    fn plain<H: Host>(
        &mut self,
        alloc: Global,
        image: &Image,
        entry: MethodId,
        input: &[u8],
        limits: Thresholds,
        heap_limit: u64,
        steps: u64,
        host: &mut H,
    ) -> Result<Ending, EngineError>
        requires sound { IsSound (program_of image.now) image.now.prefix }
        requires method { entry.number < length (all_methods (program_of image.now)) }
        requires entry { IsEntry (program_of image.now) (declared_at (program_of image.now) entry.number) }
        requires limits { AreLow limits }
        requires limit { heap_limit ≤ 2147483648 }
        ensures ran { IfOk result (RunsPlainly image.now (declared_at (program_of image.now) entry.number) input.now limits heap_limit steps (given_since (H.given host.old) (H.given host.new))) }
        ensures runs { AddsRun (runs self.old) (runs self.new) result }
        ensures gave { H.given host.new ≡ H.given host.old ++ given_since (H.given host.old) (H.given host.new) }
        ensures quiet { AsksNothing (program_of image.now) → H.given host.new ≡ H.given host.old };
}
