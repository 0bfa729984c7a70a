ghost use Rattle.std.specs.Prelude.{◌≡◌, ◌++◌, ◌≤◌, ◌<◌, false, length, IfOk, IfErr};
ghost use Rattle.std.specs.Option.{option_map};
ghost use Rattle.dj_model.specs.Sound.{IsSound};
ghost use Rattle.dj_model.specs.Standing.{AsksNothing, IsEntry};
ghost use Rattle.dj_natives.specs.Counting.{AreLow};
ghost use Rattle.dj_host.specs.trusted.Hosted.{given_since};
ghost use Rattle.dj_numbering.specs.Members.{all_methods};
ghost use Rattle.dj_image.specs.Imaged.{program_of};
ghost use Rattle.dj_current_method.specs.Activations.{declared_at};
ghost use Rattle.dj_image_step.specs.Memory.{NeedsNoMemory};
ghost use Rattle.dj_step.specs.declared.answers.StepAnswer.TheVariants as steps;
ghost use Rattle.dj_step.specs.Machines.{Begins, EndsAtStart, Steps, is_over, start_outcome, step_answer, terms_of};
ghost use Rattle.dj_step.specs.Running.{HoldsEntry, HoldsInput};

use crate::answers::{StartError, StepAnswer};
use crate::beginning::begin_run;
use crate::entry::entry_frames;
use crate::input::input_heap;
use dj_edge::Host;
use dj_heap::Heap;
use dj_image::{Image, MethodId};
use dj_image_step::{Begun, Run, Settled, Tables, begin_turn, end_turn};
use dj_initialisation::Prepared;
use dj_names::{Costs, Outcome, Thresholds};
use dj_stack::Frames;
use std::alloc::Global;
use std::marker::Model;

/// A run of a program, and how far it has come.
#[derive(Drop)]
pub struct Machine<'a> {
    image: &'a Image,
    // What the run may be charged, and how many bytes its heap may have.
    limits: Thresholds,
    heap_limit: u64,
    tables: Tables,
    run: Run,
    outcome: Option<Outcome>,
    failed: bool,
}

impl<'a> Model for Machine<'a> {
    ghost use Rattle.std.specs.Prelude.{[]};
    ghost use Rattle.dj_image_step.specs.Running.{state_of};
    ghost use Rattle.dj_step.specs.Machines.{Machined, counting_for};
    ghost use Rattle.dj_step.specs.Running.{IsMachine};

    ghost Value = { Machined };

    ghost view = { λ m. record {
      image = m.image.now;
      limit = m.heap_limit;
      counting = counting_for m.image.now.prefix m.limits;
      state = state_of m.image.now [] m.run;
      outcome = m.outcome;
      failed = m.failed;
    } };

    ghost invariant = { λ m. IsMachine m.image.now m.heap_limit m.limits m.tables m.run m.outcome m.failed };
}

impl<'a> Machine<'a> {
    /// The run of an entry on an input, before its first step. The entry's class is initialised first.
    #[tactic(auto, using(crate::proofs::BeginLaws::input_refused, crate::proofs::BeginLaws::no_memory))]
    pub fn new(
        alloc: Global,
        image: &'a Image,
        entry: MethodId,
        input: &[u8],
        limits: Thresholds,
        heap_limit: u64,
    ) -> Result<Machine<'a>, StartError>
        requires sound { IsSound (program_of image.now) image.now.prefix }
        requires method { entry.number < length (all_methods (program_of image.now)) }
        requires entry { IsEntry (program_of image.now) (declared_at (program_of image.now) entry.number) }
        requires limits { AreLow limits }
        requires limit { heap_limit ≤ 2147483648 }
        ensures begins { IfOk result (Begins image.now (declared_at (program_of image.now) entry.number) input.now limits heap_limit) }
        ensures ends { IfErr result (λ e. EndsAtStart image.now (declared_at (program_of image.now) entry.number) input.now limits heap_limit (start_outcome e)) }
    {
        let heap = input_heap(alloc, image, input, heap_limit)?;
        let frames = entry_frames(alloc, image, entry)?;
        begin(alloc, image, entry, input, limits, heap_limit, heap, frames)
    }

    /// The next step. A run that has ended stays as it is, and so does one for which there was no memory.
    #[tactic(auto, using(crate::proofs::StepLaws::stays_failed, crate::proofs::StepLaws::stays_ended, crate::proofs::StepLaws::gave_nothing, crate::proofs::StepLaws::over_not, crate::proofs::StepLaws::went_apart, crate::proofs::StepLaws::ended_apart))]
    pub fn step<H: Host>(&mut self, alloc: Global, host: &mut H) -> StepAnswer
        ensures steps { Steps self.old self.new (given_since (H.given host.old) (H.given host.new)) result }
        ensures gave { H.given host.new ≡ H.given host.old ++ given_since (H.given host.old) (H.given host.new) }
        ensures quiet { AsksNothing (program_of self.old.image) → H.given host.new ≡ H.given host.old }
        ensures frugal { is_over self.old ≡ false → NeedsNoMemory (program_of self.old.image) self.old.image.prefix (terms_of self.old) self.old.state → result ≡ steps.Memory → ⊥ }
    {
        if self.failed {
            return StepAnswer::Memory;
        }
        if self.outcome.is_some() {
            return StepAnswer::Ended;
        }
        let begun = begin_turn(self.image, &mut self.run);
        if let Begun::Went = begun {
            return StepAnswer::Went;
        }
        let Ok(settled) = end_turn(alloc, self.image, &self.tables, &mut self.run, host, begun)
        else {
            self.failed = true;
            return StepAnswer::Memory;
        };
        match settled {
            Settled::Went => StepAnswer::Went,
            Settled::Ended(outcome) => {
                self.outcome = Some(outcome);
                StepAnswer::Ended
            }
        }
    }

    /// What the next step answers, where the run has ended or there was no memory; else that it goes on.
    pub fn answer(&self) -> StepAnswer
        ensures { result ≡ step_answer self.now }
    {
        if self.failed {
            return StepAnswer::Memory;
        }
        match &self.outcome {
            Some(_) => StepAnswer::Ended,
            None => StepAnswer::Went,
        }
    }

    /// How the run has ended, once it has; the machine isn't needed any more.
    pub fn into_outcome(self) -> Option<Outcome>
        ensures { result ≡ self.entry.outcome }
    {
        let Machine { outcome, .. } = self;
        outcome
    }

    /// How the run has ended, once it has.
    pub fn outcome(&self) -> Option<&Outcome>
        ensures { option_map (λ outcome. outcome.now) result ≡ self.now.outcome }
    {
        self.outcome.as_ref()
    }

    /// What the run was charged.
    pub fn costs(&self) -> Costs
        ensures { result ≡ self.now.state.account.costs }
    {
        match &self.run.accounter {
            Some(accounter) => accounter.costs(),
            None => Costs {
                alloc: 0,
                invoke: 0,
                jump: 0,
                throw: 0,
            },
        }
    }
}

// With the input in the heap and the entry's frame.
fn begin<'a>(
    alloc: Global,
    image: &'a Image,
    entry: MethodId,
    input: &[u8],
    limits: Thresholds,
    heap_limit: u64,
    heap: Heap,
    frames: Frames,
) -> Result<Machine<'a>, StartError>
    requires sound { IsSound (program_of image.now) image.now.prefix }
    requires method { entry.number < length (all_methods (program_of image.now)) }
    requires entry { IsEntry (program_of image.now) (declared_at (program_of image.now) entry.number) }
    requires limits { AreLow limits }
    requires heap { HoldsInput image.now input.now heap_limit heap }
    requires frames { HoldsEntry image.now entry.number frames }
    ensures begins { IfOk result (Begins image.now (declared_at (program_of image.now) entry.number) input.now limits heap_limit) }
    ensures ends { IfErr result (λ e. EndsAtStart image.now (declared_at (program_of image.now) entry.number) input.now limits heap_limit (start_outcome e)) }
{
    let tables = Tables::of(alloc, image)?;
    let (run, prepared) = begin_run(alloc, image, &tables, entry, limits, heap, frames)?;
    match prepared {
        Prepared::TooDeep => return Err(StartError::TooDeep),
        Prepared::HeapFull { used, size } => return Err(StartError::Full { used, size }),
        Prepared::Ready => {}
        Prepared::Waits => {}
    }
    Ok(Machine {
        image,
        limits,
        heap_limit,
        tables,
        run,
        outcome: None,
        failed: false,
    })
}
