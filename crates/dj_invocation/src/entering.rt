ghost use Rattle.std.specs.Prelude.{◌≡◌, ◌≤◌, ◌<◌, ◌∷◌, [], length, replicate, None, IfOk};
ghost use Rattle.dj_model.specs.trusted.Numbers.{is_long};
ghost use Rattle.dj_model.specs.trusted.Values.{in_slots};
ghost use Rattle.dj_model.specs.trusted.Initialisation.{padded};
ghost use Rattle.dj_stack.specs.Frames.{SameButLocals, most_frames, top_locals, top_operands};
ghost use Rattle.dj_invocation.specs.Operands.{with_operands};
ghost use Rattle.dj_invocation.specs.Entering.{EntersIfAllowed};

use crate::operands::{copy_operands, drop_operands};
use dj_names::Value;
use dj_stack::Frames;
use std::alloc::AllocError;

/// What a frame of a method has.
#[derive(Clone, Copy)]
pub struct Room {
    /// The number of the method.
    pub method: u32,
    pub max_locals: u16,
    pub max_stack: u16,
}

// The local variables that a value takes.
fn slots_of(value: Value) -> u16
    ensures { result ≡ length (in_slots is_long (value ∷ [])) }
{
    match value {
        Value::Long(_) => 2,
        Value::Int(_) | Value::Ref(_) => 1,
    }
}

// The local variables that values take.
fn slot_count(values: &[Value]) -> u32
    requires { length values.now ≤ 65535 }
    ensures { result ≡ length (in_slots is_long values.now) }
{
    let mut count: u32 = 0;
    for value in values {
        count += u32::from(slots_of(*value));
    }
    count
}

// Gives the first local variables of the top frame, none of which has a value, arguments.
fn set_arguments(frames: &mut Frames, arguments: &[Value])
    requires empty { top_locals frames.old ≡ replicate (length (top_locals frames.old)) None }
    requires fit { length (in_slots is_long arguments.now) ≤ length (top_locals frames.old) }
    requires few { length (top_locals frames.old) ≤ 65535 }
    ensures locals { top_locals frames.new ≡ padded (length (top_locals frames.old)) (in_slots is_long arguments.now) }
    ensures rest { SameButLocals frames.old frames.new }
{
    let mut slot: u16 = 0;
    for argument in arguments {
        frames.set_local(slot, Some(*argument));
        slot += slots_of(*argument);
    }
}

/// Makes the upper operands the arguments of a new top frame, of this method, and returns whether one more frame was allowed. The buffer has the arguments then.
pub fn enter(
    frames: &mut Frames,
    arguments: &mut Vec<Value>,
    count: u16,
    room: Room,
) -> Result<bool, AllocError>
    requires { count ≤ length (top_operands frames.old) }
    ensures { IfOk result (EntersIfAllowed count room frames.old frames.new) }
{
    if frames.depth() == 1024 {
        drop_operands(frames, count);
        return Ok(false);
    }
    copy_operands(frames, count, arguments)?;
    let Ok(slots) = u16::try_from(slot_count(arguments)) else {
        return Err(AllocError);
    };
    drop_operands(frames, count);
    frames
        .push(room.method, room.max_locals.max(slots), room.max_stack)
        .or(Err(AllocError))?;
    set_arguments(frames, arguments);
    Ok(true)
}
