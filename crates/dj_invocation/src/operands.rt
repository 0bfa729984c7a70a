ghost use Rattle.std.specs.Prelude.{◌≡◌, ◌<◌, ◌≤◌, Some, None, true, length, reverse, take, drop, slice_get, OnOk, IfSome};
ghost use Rattle.dj_stack.specs.Frames.{SameButOperands, top_operands};
ghost use Rattle.dj_invocation.specs.Operands.{fit, receiver_in};

use dj_effects::is_of_kind;
use dj_names::{Kind, Value};
use dj_stack::Frames;
use std::alloc::AllocError;

/// How many operands the top frame has; none where there is no frame.
#[tactic(auto, using(dj_effects::proofs::TopFacts::last_operands, dj_effects::proofs::TopFacts::no_operands, dj_effects::proofs::TopFacts::some_last))]
pub fn operand_count(frames: &Frames) -> u16
    ensures { result ≡ length (top_operands frames.now) }
{
    match frames.depth() {
        0 => 0,
        depth => frames.operands(depth - 1),
    }
}

/// An operand of the top frame, counted from the top down.
#[tactic(auto, using(dj_effects::proofs::TopFacts::no_operands))]
pub fn operand(frames: &Frames, at: u16) -> Value
    requires { at < length (top_operands frames.now) }
    ensures { slice_get (top_operands frames.now) at ≡ Some result }
{
    let last = operand_count(frames) - 1;
    match frames.depth() {
        0 => unreachable!(),
        depth => frames.operand_of(depth - 1, last - at),
    }
}

/// Whether the upper operands of the top frame are of these kinds, the last one on top. Nothing is taken.
pub fn fit(frames: &Frames, kinds: &[Kind]) -> bool
    ensures fits { result ≡ fit (reverse kinds.now) (top_operands frames.now) }
    ensures few { result ≡ true → length kinds.now < 65536 }
{
    let count = kinds.len();
    if usize::from(operand_count(frames)) < count {
        return false;
    }
    for at in 0..count {
        if !is_of_kind(kinds[count - 1 - at], operand(frames, at as u16)) {
            return false;
        }
    }
    true
}

/// Takes this many operands of the top frame away.
pub fn drop_operands(frames: &mut Frames, count: u16)
    requires { count ≤ length (top_operands frames.old) }
    ensures operands { top_operands frames.new ≡ drop count (top_operands frames.old) }
    ensures rest { SameButOperands frames.old frames.new }
{
    for at in 0..count {
        frames.pop_value();
    }
}

/// Puts this many upper operands of the top frame, where they stay, into a buffer, in the order in which they were pushed.
pub fn copy_operands(frames: &Frames, count: u16, copied: &mut Vec<Value>) -> Result<(), AllocError>
    requires { count ≤ length (top_operands frames.now) }
    ensures { OnOk result (copied.new.items ≡ reverse (take count (top_operands frames.now))) }
{
    copied.clear();
    for at in 0..count {
        copied.push(operand(frames, count - 1 - at))?;
    }
    Ok(())
}

/// The reference below this many upper operands of the top frame, where there is one.
pub fn receiver(frames: &Frames, above: u16) -> Option<u32>
    ensures receiver { result ≡ receiver_in (drop above (top_operands frames.now)) }
    ensures few { IfSome result (λ _. above < 65535) }
{
    if operand_count(frames) <= above {
        return None;
    }
    match operand(frames, above) {
        Value::Ref(r) => Some(r),
        _ => None,
    }
}
