ghost use Rattle.std.specs.Prelude.{◌≡◌, length};
ghost use Rattle.dj_model.specs.trusted.Numbers.{is_long, is_of_kind};
ghost use Rattle.dj_stack.specs.Frames.{SameButOperands, top_locals, top_operands};
ghost use Rattle.dj_effects.specs.Tops.{IsPlaceTop, IsTop};

use dj_names::{Kind, Value};
use dj_stack::Frames;

/// How many operands the top frame has; none where there is no frame.
#[tactic(auto, using(crate::proofs::TopFacts::last_operands, crate::proofs::TopFacts::no_operands, crate::proofs::TopFacts::some_last))]
pub fn operand_count(frames: &Frames) -> u16
    ensures { result ≡ length (top_operands frames.now) }
{
    match frames.depth() {
        0 => 0,
        depth => frames.operands(depth - 1),
    }
}

/// How many local variables the top frame has; none where there is no frame.
#[tactic(auto, using(crate::proofs::TopFacts::last_locals, crate::proofs::TopFacts::no_locals, crate::proofs::TopFacts::some_last))]
pub fn local_count(frames: &Frames) -> u16
    ensures { result ≡ length (top_locals frames.now) }
{
    match frames.depth() {
        0 => 0,
        depth => frames.locals(depth - 1),
    }
}

/// Takes the top operand of the top frame away, if there is one.
#[tactic(auto, using(crate::proofs::TopFacts::no_more))]
pub fn pop(frames: &mut Frames) -> Option<Value>
    ensures top { IsTop result (top_operands frames.old) (top_operands frames.new) }
    ensures rest { SameButOperands frames.old frames.new }
{
    if operand_count(frames) == 0 {
        None
    } else {
        Some(frames.pop_value())
    }
}

/// Takes an index and the reference under it away, where they stand on top.
pub fn pop_place(frames: &mut Frames) -> Option<(i32, u32)>
    ensures top { IsPlaceTop result (top_operands frames.old) (top_operands frames.new) }
    ensures rest { SameButOperands frames.old frames.new }
{
    match (pop(frames), pop(frames)) {
        (Some(Value::Int(index)), Some(Value::Ref(r))) => Some((index, r)),
        _ => None,
    }
}

/// Whether a value is of a kind.
pub fn is_of_kind(kind: Kind, value: Value) -> bool
    ensures { result ≡ is_of_kind kind value }
{
    match kind {
        Kind::Int => matches!(value, Value::Int(_)),
        Kind::Long => matches!(value, Value::Long(_)),
        Kind::Ref => matches!(value, Value::Ref(_)),
    }
}

/// Whether a value takes two slots.
pub fn is_long(value: Value) -> bool
    ensures { result ≡ is_long value }
{
    matches!(value, Value::Long(_))
}
