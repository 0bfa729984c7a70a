ghost use Rattle.std.specs.Prelude.{◌≡◌, ◌≤◌, ◌<◌, length, All, IfOk};
ghost use Rattle.dj_names.specs.declared.run.Outcome.TheVariants.{Link};
ghost use Rattle.dj_straight.specs.trusted.Program.{Program, MethodName};
ghost use Rattle.dj_straight.specs.trusted.Metered.{RunsTo};
ghost use Rattle.dj_straight.specs.Shape.{HasShape};
ghost use Rattle.dj_straight.specs.trusted.Methods.{straight_signature};
ghost use Rattle.dj_straight.specs.Methods.{action_view, code_view};
ghost use Rattle.dj_straight.specs.Running.{IsPlainEntry, IsStraightEnd, PushesNull};

mod act;
mod families;
mod first;
mod heap;
mod operands;
mod parts;
mod pay;
mod turns;
mod values;

use crate::program::StraightMethod;
use dj_names::{Costs, Outcome, Thresholds};
use first::first_machine;
use std::alloc::{AllocError, Global};
use turns::Advance;

/// How a run went.
#[derive(Drop)]
pub struct StraightEnding {
    pub outcome: Outcome,
    pub costs: Costs,
}

const NO_COSTS: Costs = Costs {
    alloc: 0,
    invoke: 0,
    jump: 0,
    throw: 0,
};

/// Runs the method on the input.
pub fn run_method(
    alloc: Global,
    method: &StraightMethod,
    input: &[u8],
    thresholds: Thresholds,
) -> Result<StraightEnding, AllocError>
    requires some { 0 < length method.now.actions.items }
    requires shape { HasShape straight_signature (code_view method.now) }
    requires input { length input.now ≤ 1048576 }
    requires thresholds { thresholds.alloc ≤ 1073741824 }
    ensures runs { IfOk result (λ e. (program : Program) (entry : MethodName)
        → IsPlainEntry program entry (code_view method.now) → RunsTo program entry input.now thresholds e.outcome e.costs) }
    ensures kinds { IfOk result (λ e. IsStraightEnd e.outcome) }
    ensures linked { All (λ action. PushesNull (action_view action)) method.now.actions.items → IfOk result (λ e. e.outcome ≡ Link → ⊥) }
{
    let mut machine = first_machine(alloc, method.max_locals, input)?;
    let mut costs = NO_COSTS;
    for action in method.actions.as_slice() {
        match machine.turns(alloc, *action, costs, &thresholds)? {
            Advance::Go(paid) => costs = paid,
            Advance::End(ending) => return Ok(ending),
        }
    }
    unreachable!()
}
