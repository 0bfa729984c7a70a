ghost use Rattle.std.specs.Prelude.{◌≡◌, ◌<◌, length, nat_lt};
ghost use Rattle.dj_model.specs.trusted.Instructions as model;
ghost use Rattle.dj_model.specs.trusted.Numbers.{is_long};
ghost use Rattle.dj_model.specs.trusted.Values.{is_some_wide, last_slot, local_at, stored, without_half};
ghost use Rattle.dj_stack.specs.Frames.{SameButLocals, top_locals};
ghost use Rattle.dj_effects.specs.Does.{Does, Fits};

use crate::top::{is_long, is_of_kind, local_count, pop};
use crate::way::Way;
use dj_arith::add_int;
use dj_names::{Kind, Value};
use dj_stack::Frames;

/// Nothing is done.
#[tactic(auto, unfolding(dj_model::specs::trusted::Values::on_values))]
pub fn nop(frames: &mut Frames) -> Option<Way>
    ensures { Does model.Nop frames.old frames.new result }
{
    Some(Way::Next)
}

/// A value is pushed.
#[tactic(auto, unfolding(dj_model::specs::trusted::Values::on_values))]
pub fn push(frames: &mut Frames, value: Value) -> Option<Way>
    requires { Fits (model.Push value) frames.old }
    ensures { Does (model.Push value) frames.old frames.new result }
{
    frames.push_value(value);
    Some(Way::Next)
}

/// A local variable of the kind is pushed.
#[tactic(auto, unfolding(dj_model::specs::trusted::Values::on_values))]
pub fn load(frames: &mut Frames, kind: Kind, slot: u16) -> Option<Way>
    requires { Fits (model.Load kind slot) frames.old }
    ensures { Does (model.Load kind slot) frames.old frames.new result }
{
    let value = local_at(frames, slot)?;
    if !is_of_kind(kind, value) {
        return None;
    }
    frames.push_value(value);
    Some(Way::Next)
}

/// The top operand, of the kind, is stored in a local variable.
#[tactic(auto, unfolding(dj_model::specs::trusted::Values::on_values))]
pub fn store(frames: &mut Frames, kind: Kind, slot: u16) -> Option<Way>
    ensures { Does (model.Store kind slot) frames.old frames.new result }
{
    let value = pop(frames)?;
    if !is_of_kind(kind, value) || !has_slots(frames, slot, value) {
        return None;
    }
    set_slots(frames, slot, value);
    Some(Way::Next)
}

/// A number is added to a local variable.
#[tactic(auto, unfolding(dj_model::specs::trusted::Values::on_values), using(crate::proofs::LocalFacts::within))]
pub fn increment(frames: &mut Frames, slot: u16, by: i16) -> Option<Way>
    ensures { Does (model.Increment slot by) frames.old frames.new result }
{
    match local_at(frames, slot) {
        Some(Value::Int(z)) => {
            frames.set_local(slot, Some(Value::Int(add_int(z, i32::from(by)))));
            Some(Way::Next)
        }
        _ => None,
    }
}

// The value of a local variable, if there is one and it has one.
#[tactic(auto, using(crate::proofs::LocalFacts::past))]
fn local_at(frames: &Frames, slot: u16) -> Option<Value>
    ensures { result ≡ local_at (top_locals frames.now) slot }
{
    if slot < local_count(frames) {
        frames.local(slot)
    } else {
        None
    }
}

// Whether there are as many local variables as the value takes.
fn has_slots(frames: &Frames, slot: u16, value: Value) -> bool
    ensures few { length (top_locals frames.now) < 65536 }
    ensures there { result ≡ nat_lt (last_slot (is_long value) slot) (length (top_locals frames.now)) }
{
    u32::from(slot) + u32::from(is_long(value)) < u32::from(local_count(frames))
}

// Whether there is a value, and it takes two slots.
fn is_some_long(value: Option<Value>) -> bool
    ensures { result ≡ is_some_wide is_long value }
{
    match value {
        None => false,
        Some(value) => is_long(value),
    }
}

// A long whose second slot is this one loses its value.
fn cut_half(frames: &mut Frames, slot: u16)
    requires { slot < length (top_locals frames.old) }
    ensures locals { top_locals frames.new ≡ without_half is_long (top_locals frames.old) slot }
    ensures rest { SameButLocals frames.old frames.new }
{
    if 0 < slot && is_some_long(local_at(frames, slot - 1)) {
        frames.set_local(slot - 1, None);
    }
}

// The value is stored in local variables that are there.
#[tactic(auto, using(crate::proofs::LocalFacts::length_without_half))]
fn set_slots(frames: &mut Frames, slot: u16, value: Value)
    requires there { last_slot (is_long value) slot < length (top_locals frames.old) }
    requires few { length (top_locals frames.old) < 65536 }
    ensures locals { top_locals frames.new ≡ stored is_long (top_locals frames.old) slot value }
    ensures rest { SameButLocals frames.old frames.new }
{
    cut_half(frames, slot);
    frames.set_local(slot, Some(value));
    if is_long(value) {
        frames.set_local(slot + 1, None);
    }
}
