ghost use Rattle.std.specs.Prelude.{◌≡◌, ◌++◌, false};
ghost use Rattle.dj_model.specs.Standing.{AsksNothing};
ghost use Rattle.dj_host.specs.trusted.Hosted.{given_since};
ghost use Rattle.dj_image.specs.Imaged.{program_of};
ghost use Rattle.dj_step.specs.Machines.{is_over};
ghost use Rattle.dj_machine.specs.Runs.{Runs};

use crate::answer::RunAnswer;
use dj_edge::Host;
use dj_step::{Machine, StepAnswer};
use std::alloc::Global;

/// Makes the machine's next steps, at most `fuel`.
pub fn run<H: Host>(alloc: Global, machine: &mut Machine<'_>, host: &mut H, fuel: u64) -> RunAnswer
    ensures runs { Runs machine.old machine.new (given_since (H.given host.old) (H.given host.new)) fuel result }
    ensures gave { H.given host.new ≡ H.given host.old ++ given_since (H.given host.old) (H.given host.new) }
    ensures quiet { AsksNothing (program_of machine.old.image) → H.given host.new ≡ H.given host.old }
{
    match machine.answer() {
        StepAnswer::Went => run_on(alloc, machine, host, fuel),
        StepAnswer::Ended => RunAnswer::Ended { steps: 0 },
        StepAnswer::Memory => RunAnswer::Memory,
    }
}

// The same for a machine whose run goes on.
fn run_on<H: Host>(alloc: Global, machine: &mut Machine<'_>, host: &mut H, fuel: u64) -> RunAnswer
    requires on { is_over machine.old ≡ false }
    ensures runs { Runs machine.old machine.new (given_since (H.given host.old) (H.given host.new)) fuel result }
    ensures gave { H.given host.new ≡ H.given host.old ++ given_since (H.given host.old) (H.given host.new) }
    ensures quiet { AsksNothing (program_of machine.old.image) → H.given host.new ≡ H.given host.old }
{
    for made in 0..fuel {
        match machine.step(alloc, host) {
            StepAnswer::Went => {}
            StepAnswer::Ended => return RunAnswer::Ended { steps: made + 1 },
            StepAnswer::Memory => return RunAnswer::Memory,
        }
    }
    RunAnswer::Spent
}
