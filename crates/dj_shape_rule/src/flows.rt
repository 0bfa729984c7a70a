ghost use Rattle.std.specs.Prelude.{◌≡◌, Decides};
ghost use Rattle.dj_names.specs.declared.descriptor.Kind.{Kind};
ghost use Rattle.dj_shape_rule.specs.Flows.{Flows, FlowsTo, FlowsToFrame};
ghost use Rattle.dj_shape_rule.specs.Listed.{AreListed};
ghost use Rattle.dj_shape_rule.specs.Reported.{reported_at, reported_by};
ghost use Rattle.dj_shape_rule.specs.Standing.{IsListed};

use crate::frames::{KeptFrames, LentFrame};
use crate::state::KindState;
use dj_names::Kind;

/// Whether operands have the same kinds.
pub fn same_stacks(left: &[Kind], reported: &[Kind]) -> bool
    ensures { Decides result (left.now ≡ reported.now) }
{
    left == reported
}

/// Whether the run may go on with these kinds at a frame with those.
pub fn flows(state: &mut KindState, reported: &LentFrame<'_>) -> bool
    requires { IsListed state.old reported.now.place reported.now.locals }
    ensures same { state.new ≡ state.old }
    ensures flows { Decides result (Flows state.old.kinds (reported_by reported.now)) }
{
    if !same_stacks(state.stack(), reported.stack) {
        return false;
    }
    state.flows(reported.place)
}

/// The same for the frame at the instruction of this number; where there is no frame, the run may go on.
pub fn flows_to(state: &mut KindState, frames: &KeptFrames, number: u64) -> bool
    requires { AreListed frames.now state.old }
    ensures same { state.new ≡ state.old }
    ensures flows { Decides result (FlowsTo state.old.kinds (reported_at frames.now number)) }
{
    if !frames.may_report(number) {
        return true;
    }
    match frames.at(number) {
        None => true,
        Some(reported) => flows(state, &reported),
    }
}

/// The same; where there is no frame, the run may not go on.
pub fn flows_to_frame(state: &mut KindState, frames: &KeptFrames, number: u64) -> bool
    requires { AreListed frames.now state.old }
    ensures same { state.new ≡ state.old }
    ensures flows { Decides result (FlowsToFrame state.old.kinds (reported_at frames.now number)) }
{
    match frames.at(number) {
        None => false,
        Some(reported) => flows(state, &reported),
    }
}
