ghost use Rattle.dj_effects.specs.Actions.{action_view};
ghost use Rattle.dj_effects.specs.Does.{Does, Fits};

use dj_effects::{
    PlainAction, Way, branch, compute, convert, goto, increment, load, monitor, move_operands, nop,
    push, return_top, store, switch_lookup, switch_table,
};
use dj_stack::Frames;

/// An action on local variables and operands alone is done; nothing, where it is another one.
#[tactic(auto, using(crate::proofs::Rooms::none_done))]
#[inline(always)]
pub fn act_on_values(frames: &mut Frames, action: PlainAction<'_>) -> Option<Way>
    requires { Fits (action_view action) frames.old }
    ensures { Does (action_view action.entry) frames.old frames.new result }
{
    match action {
        PlainAction::Nop => nop(frames),
        PlainAction::Push(value) => push(frames, value),
        PlainAction::Load(kind, slot) => load(frames, kind, slot),
        PlainAction::Store(kind, slot) => store(frames, kind, slot),
        PlainAction::Increment(slot, by) => increment(frames, slot, by),
        PlainAction::Move(movement) => move_operands(frames, movement),
        PlainAction::Compute(operation) => compute(frames, operation),
        PlainAction::Convert(operation) => convert(frames, operation),
        PlainAction::Branch(test, target) => branch(frames, test, target),
        PlainAction::Goto(target) => goto(frames, target),
        PlainAction::Table {
            default,
            low,
            targets,
        } => switch_table(frames, default, low, targets),
        PlainAction::Lookup { default, pairs } => switch_lookup(frames, default, pairs),
        PlainAction::Return(kind) => return_top(frames, kind),
        PlainAction::Monitor => monitor(frames),
        _ => None,
    }
}
