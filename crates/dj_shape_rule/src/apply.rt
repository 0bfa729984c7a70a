ghost use Rattle.std.specs.Prelude.{◌≡◌, List, [], Some, None, Option, if◌then◌else◌, reverse, IfOk};
ghost use Rattle.dj_names.specs.declared.descriptor.Kind.TheVariants as kinds;
ghost use Rattle.dj_pool.specs.trusted.Pool.{Constant};
ghost use Rattle.dj_program.specs.trusted.Naming.{instruction_in};
ghost use Rattle.dj_model.specs.trusted.Program.{Code};
ghost use Rattle.dj_model.specs.trusted.Instructions.{Instruction};
ghost use Rattle.dj_model.specs.trusted.Kinds.{Signature};
ghost use Rattle.dj_model.specs.trusted.Values.{local_at};
ghost use Rattle.dj_model.specs.trusted.Shape.{after, gives, is_kind, result_list, same_result, taken};
ghost use Rattle.dj_shape_rule.specs.Pools.{ArePoolKinds, call_at};
ghost use Rattle.dj_shape_rule.specs.Standing.{HasRoomOf, SameRoom, SameLocals, Leaves, GivesResult, room};
ghost use Rattle.dj_shape_rule.specs.Works.{arguments_of, called, is_counted, performed, work_of, work_view};

use crate::effect::{
    Effect, array_effect, class_effect, interface_effect, jump_effect, literal_effect,
    local_effect, member_effect, simple_effect,
};
use crate::error::ShapeError;
use crate::kinds::{depth_within, is_kind, same_result};
use crate::moves::move_operands;
use crate::pool::{CallKinds, PoolKinds};
use crate::state::KindState;
use dj_names::Kind;
use dj_ops::Instr;

/// Whether the instruction with this effect finds what it takes, and what it gives fits. Then the state has the kinds after it; else the state
/// doesn't matter any more.
pub fn apply(
    state: &mut KindState,
    kinds: &PoolKinds,
    returned: Option<Kind>,
    effect: Effect,
) -> Result<bool, ShapeError>
    ensures room { SameRoom state.old state.new }
    ensures after { IfOk result (λ fits. (signature : Signature) (code : Code) (i : Instruction) → work_view kinds.now.calls effect ≡ work_of i
        → GivesResult signature returned → HasRoomOf state.old code → Leaves fits (after signature code i state.old.kinds) state.new.kinds) }
{
    perform(state, kinds, returned, effect)
}

/// What an instruction does.
#[tactic(auto, unfolding(dj_model::specs::trusted::Opcodes::instruction_of))]
pub fn effect_of(kinds: &PoolKinds, instr: &Instr) -> Effect
    ensures { (pool : List Constant) → ArePoolKinds pool kinds.now → work_view kinds.now.calls result ≡ work_of (instruction_in pool instr.now) }
{
    match instr {
        Instr::Simple { op } => simple_effect(*op),
        Instr::Push { .. } => Effect::Gives(&[], Some(Kind::Int)),
        Instr::Local { op, slot, .. } => local_effect(*op, *slot),
        Instr::Inc { slot, .. } => Effect::Increment(*slot),
        Instr::Branch { op, .. } => jump_effect(*op),
        Instr::Table { .. } | Instr::Lookup { .. } => Effect::Gives(&[Kind::Int], None),
        Instr::Array { base } => array_effect(*base),
        Instr::Literal { op, index } => literal_effect(*op, kinds.constant(*index)),
        Instr::Member { op, index } => member_effect(*op, kinds.constant(*index)),
        Instr::Interface { index, count } => interface_effect(*count, kinds.constant(*index)),
        Instr::Class { op, index } => class_effect(*op, kinds.constant(*index)),
        Instr::Dynamic { .. } | Instr::Multi { .. } => Effect::Fails,
    }
}

// ---- what is done

fn load(state: &mut KindState, kind: Kind, slot: u16) -> Result<bool, ShapeError>
    ensures room { SameRoom state.old state.new }
    ensures left { IfOk result (λ fits. Leaves fits
        (if is_kind kind (local_at state.old.kinds.locals slot) then gives (room state.old) state.old.kinds [] (Some kind) else None) state.new.kinds) }
{
    if is_kind(kind, state.local_at(usize::from(slot))) {
        state.push(Some(kind))
    } else {
        Ok(false)
    }
}

fn increment(state: &mut KindState, slot: u16) -> Result<bool, ShapeError>
    ensures room { SameRoom state.old state.new }
    ensures left { IfOk result (λ fits. Leaves fits
        (if is_kind kinds.Int (local_at state.old.kinds.locals slot) then gives (room state.old) state.old.kinds [] None else None) state.new.kinds) }
{
    if is_kind(Kind::Int, state.local_at(usize::from(slot))) {
        state.push(None)
    } else {
        Ok(false)
    }
}

fn give_back(
    state: &mut KindState,
    kind: Option<Kind>,
    returned: Option<Kind>,
) -> Result<bool, ShapeError>
    ensures room { SameRoom state.old state.new }
    ensures left { IfOk result (λ fits. Leaves fits
        (if same_result kind returned then gives (room state.old) state.old.kinds (result_list kind) None else None) state.new.kinds) }
{
    if !same_result(kind, returned) {
        return Ok(false);
    }
    match kind {
        None => state.push(None),
        Some(kind) => state.give(&[kind], None),
    }
}

// Whether the count beside a method's index is one more than the slots of its parameters.
fn is_counted(count: Option<u8>, parameters: &[Kind]) -> bool
    ensures { result ≡ is_counted count parameters.now }
{
    match count {
        None => true,
        Some(count) => match depth_within(parameters, 255) {
            None => false,
            Some(slots) => u32::from(count) == slots + 1,
        },
    }
}

// Whether the operands on top are what a method takes, the last parameter at the top. They are popped.
#[tactic(auto, using(crate::proofs::Works::no_parameters))]
fn take_arguments(state: &mut KindState, is_static: bool, parameters: &[Kind]) -> bool
    ensures locals { SameLocals state.old state.new }
    ensures taken { Leaves result (taken (reverse (arguments_of is_static parameters.now)) state.old.kinds.stack) state.new.kinds.stack }
{
    state.take_back(parameters) && (is_static || state.take(Kind::Ref))
}

fn call_method(
    state: &mut KindState,
    is_static: bool,
    count: Option<u8>,
    call: &CallKinds,
) -> Result<bool, ShapeError>
    ensures room { SameRoom state.old state.new }
    ensures left { IfOk result (λ fits. Leaves fits
        (called (room state.old) state.old.kinds is_static count (Some call.now)) state.new.kinds) }
{
    if is_counted(count, call.parameters()) && take_arguments(state, is_static, call.parameters()) {
        state.push(call.result())
    } else {
        Ok(false)
    }
}

// What a call of a method does whose descriptor has this index.
fn call_by(
    state: &mut KindState,
    kinds: &PoolKinds,
    is_static: bool,
    count: Option<u8>,
    desc: u16,
) -> Result<bool, ShapeError>
    ensures room { SameRoom state.old state.new }
    ensures left { IfOk result (λ fits. Leaves fits
        (called (room state.old) state.old.kinds is_static count (call_at kinds.now.calls desc)) state.new.kinds) }
{
    match kinds.call(desc) {
        None => Ok(false),
        Some(call) => call_method(state, is_static, count, call),
    }
}

fn perform(
    state: &mut KindState,
    kinds: &PoolKinds,
    returned: Option<Kind>,
    effect: Effect,
) -> Result<bool, ShapeError>
    ensures room { SameRoom state.old state.new }
    ensures performed { IfOk result (λ fits. Leaves fits
        (performed returned (room state.old) state.old.kinds (work_view kinds.now.calls effect)) state.new.kinds) }
{
    match effect {
        Effect::Gives(wanted, given) => state.give(wanted, given),
        Effect::Load(kind, slot) => load(state, kind, slot),
        Effect::Store(kind, slot) => state.store(kind, slot),
        Effect::Increment(slot) => increment(state, slot),
        Effect::Move(movement) => move_operands(state, movement),
        Effect::Return(kind) => give_back(state, kind, returned),
        Effect::Call {
            is_static,
            count,
            desc,
        } => call_by(state, kinds, is_static, count, desc),
        Effect::Fails => Ok(false),
    }
}
