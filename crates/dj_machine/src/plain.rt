ghost use Rattle.std.specs.Prelude.{◌≡◌, ◌≤◌, ◌<◌, ◌++◌, ◌∷◌, ℕ, [], List, length, IfOk, IsSome};
ghost use Rattle.dj_names.specs.declared.run.Costs.{Costs};
ghost use Rattle.dj_model.specs.Sound.{IsSound};
ghost use Rattle.dj_model.specs.Standing.{AsksNothing, IsEntry};
ghost use Rattle.dj_natives.specs.Counting.{AreLow};
ghost use Rattle.dj_numbering.specs.Members.{all_methods};
ghost use Rattle.dj_image.specs.Imaged.{program_of};
ghost use Rattle.dj_step.specs.Running.{declared_at};
ghost use Rattle.dj_host.specs.trusted.Hosted.{given_since};
ghost use Rattle.dj_step.specs.Machines.{start_outcome};
ghost use Rattle.dj_machine.specs.trusted.Engines.{AddsRun};
ghost use Rattle.dj_machine.specs.Engines.{IsAtStart, IsEndAtStart, IsEndingOf, IsSpentOf, RunsOn, RunsPlainly};

use crate::answer::RunAnswer;
use crate::engine::{Ending, Engine, EngineError};
use crate::running::run;
use dj_edge::Host;
use dj_image::{Image, MethodId};
use dj_names::{Costs, Outcome, Thresholds};
use dj_step::{Machine, StartError};
use std::alloc::Global;

/// The engine that steps a machine.
#[derive(Drop)]
pub struct PlainEngine {
    runs: Vec<(Costs, u64)>,
}

impl PlainEngine {
    /// An engine that has made no run.
    pub fn new(alloc: Global) -> PlainEngine
        ensures { ⟦<PlainEngine as Engine>⟧.runs result ≡ [] }
    {
        PlainEngine {
            runs: Vec::new(alloc),
        }
    }

    /// The costs and steps of the runs so far.
    pub fn runs(&self) -> &[(Costs, u64)]
        ensures { result.now ≡ ⟦<PlainEngine as Engine>⟧.runs self.now }
    {
        self.runs.as_slice()
    }
}

// How a run ended that ended before its first step.
fn ended_at_start(e: StartError) -> Result<Ending, EngineError>
    ensures { IsEndAtStart (start_outcome e) result }
{
    let outcome = match e {
        StartError::Memory => return Err(EngineError::Memory),
        StartError::Full { used, size } => Outcome::HeapFull { used, size },
        StartError::TooDeep => Outcome::TooDeep,
    };
    let costs = Costs {
        alloc: 0,
        invoke: 0,
        jump: 0,
        throw: 0,
    };
    Ok(Ending {
        outcome,
        costs,
        steps: 0,
    })
}

// How the run of a machine has ended, which made this many steps.
fn ending_of(machine: Machine<'_>, steps: u64) -> Ending
    requires { IsSome machine.outcome }
    ensures { IsEndingOf machine.entry steps result }
{
    let costs = machine.costs();
    match machine.into_outcome() {
        Some(outcome) => Ending {
            outcome,
            costs,
            steps,
        },
        None => unreachable!(),
    }
}

// The ending of a run that still goes on after this many steps.
fn spent_of(machine: Machine<'_>, steps: u64) -> Ending
    ensures { IsSpentOf machine.entry steps result }
{
    Ending {
        outcome: Outcome::OutOfSteps { steps },
        costs: machine.costs(),
        steps,
    }
}

// The run of a machine to its end, or for this many steps.
fn run_machine<H: Host>(
    alloc: Global,
    machine: Machine<'_>,
    steps: u64,
    host: &mut H,
) -> Result<Ending, EngineError>
    requires { IsAtStart machine }
    ensures ran { IfOk result (RunsOn machine.entry steps (given_since (H.given host.old) (H.given host.new))) }
    ensures gave { H.given host.new ≡ H.given host.old ++ given_since (H.given host.old) (H.given host.new) }
    ensures quiet { AsksNothing (program_of machine.entry.image) → H.given host.new ≡ H.given host.old }
{
    let mut machine = machine;
    match run(alloc, &mut machine, host, steps) {
        RunAnswer::Ended { steps: made } => Ok(ending_of(machine, made)),
        RunAnswer::Spent => Ok(spent_of(machine, steps)),
        RunAnswer::Memory => Err(EngineError::Memory),
    }
}

// The run of an entry on an input.
#[tactic(auto, using(crate::proofs::EngineLaws::on_at_start))]
fn run_entry<H: Host>(
    alloc: Global,
    image: &Image,
    entry: MethodId,
    input: &[u8],
    limits: Thresholds,
    heap_limit: u64,
    steps: u64,
    host: &mut H,
) -> Result<Ending, EngineError>
    requires sound { IsSound (program_of image.now) image.now.prefix }
    requires method { entry.number < length (all_methods (program_of image.now)) }
    requires entry { IsEntry (program_of image.now) (declared_at (program_of image.now) entry.number) }
    requires limits { AreLow limits }
    requires limit { heap_limit ≤ 2147483648 }
    ensures ran { IfOk result (RunsPlainly image.now (declared_at (program_of image.now) entry.number) input.now limits heap_limit steps (given_since (H.given host.old) (H.given host.new))) }
    ensures gave { H.given host.new ≡ H.given host.old ++ given_since (H.given host.old) (H.given host.new) }
    ensures quiet { AsksNothing (program_of image.now) → H.given host.new ≡ H.given host.old }
{
    match Machine::new(alloc, image, entry, input, limits, heap_limit) {
        Ok(machine) => run_machine(alloc, machine, steps, host),
        Err(e) => ended_at_start(e),
    }
}

impl Engine for PlainEngine {
    ghost use Rattle.std.specs.Prelude.{ℕ, List};
    ghost use Rattle.dj_names.specs.declared.run.Costs.{Costs};

    ghost runs = { λ engine. engine.runs.items };

    fn plain<H: Host>(
        &mut self,
        alloc: Global,
        image: &Image,
        entry: MethodId,
        input: &[u8],
        limits: Thresholds,
        heap_limit: u64,
        steps: u64,
        host: &mut H,
    ) -> Result<Ending, EngineError> {
        let ending = run_entry(alloc, image, entry, input, limits, heap_limit, steps, host)?;
        self.runs.push((ending.costs, ending.steps))?;
        Ok(ending)
    }
}
