ghost use Rattle.std.specs.Prelude.{◌≡◌, ℕ, List, All, Decides};
ghost use Rattle.dj_pool.specs.trusted.Pool.{Constant};
ghost use Rattle.dj_program.specs.trusted.Naming.{instruction_in};
ghost use Rattle.dj_model.specs.trusted.Instructions.{Nothing, ends, targets};
ghost use Rattle.dj_model.specs.trusted.Opcodes.{jump_rows, last_rows, operand_does, row_does, simple};
ghost use Rattle.dj_shape_rule.specs.Forms.{FlowsAt, FormFlows, form_ends};
ghost use Rattle.dj_shape_rule.specs.Listed.{AreListed};
ghost use Rattle.dj_shape_rule.specs.Makes.{form_makes, is_class};
ghost use Rattle.dj_shape_rule.specs.Passing.{IsRun, JumpsFlow};

use crate::flows::flows_to_frame;
use crate::frames::KeptFrames;
use crate::pool::{ConstantKind, PoolKinds};
use crate::state::KindState;
use dj_ops::Instr;

// ---- whether the run never goes on at the next instruction

fn last_ends(op: u8) -> bool
    ensures { result ≡ ends (row_does last_rows Nothing op) }
{
    match op {
        172..=173 | 176..=177 | 191 => true,
        133 | 136 | 145..=148 | 190 | 194..=195 => false,
        _ => false, // none that is run
    }
}

// The same for an instruction without operands.
fn simple_ends(op: u8) -> bool
    ensures { result ≡ ends (simple Nothing op) }
{
    if op < 133 {
        return false;
    }
    last_ends(op)
}

// The same for a jump.
fn jump_ends(op: u8) -> bool
    ensures { (target : ℕ) → result ≡ ends (operand_does jump_rows Nothing op target) }
{
    match op {
        167 | 200 => true,
        153..=166 | 198..=199 => false,
        _ => false, // none that is run
    }
}

fn form_ends(instr: &Instr) -> bool
    ensures { result ≡ form_ends instr.now }
{
    match instr {
        Instr::Simple { op } => simple_ends(*op),
        Instr::Branch { op, .. } => jump_ends(*op),
        Instr::Table { .. } | Instr::Lookup { .. } => true,
        _ => false,
    }
}

/// Whether the run never goes on at the next instruction.
pub fn ends(instr: &Instr) -> bool
    ensures { (pool : List Constant) → result ≡ ends (instruction_in pool instr.now) }
{
    form_ends(instr)
}

// ---- where it jumps to

fn flows_at(state: &mut KindState, frames: &KeptFrames, target: i64) -> bool
    requires { AreListed frames.now state.old }
    ensures same { state.new ≡ state.old }
    ensures flows { Decides result (FlowsAt state.old.kinds frames.now target) }
{
    flows_to_frame(state, frames, target.unsigned_abs())
}

fn all_flow(state: &mut KindState, frames: &KeptFrames, targets: &[i64]) -> bool
    requires { AreListed frames.now state.old }
    ensures same { state.new ≡ state.old }
    ensures flows { Decides result (All (FlowsAt state.old.kinds frames.now) targets.now) }
{
    for target in targets {
        if !flows_at(state, frames, *target) {
            return false;
        }
    }
    true
}

fn pairs_flow(state: &mut KindState, frames: &KeptFrames, pairs: &[(i32, i64)]) -> bool
    requires { AreListed frames.now state.old }
    ensures same { state.new ≡ state.old }
    ensures flows { Decides result (All (λ pair. FlowsAt state.old.kinds frames.now pair.1) pairs.now) }
{
    for pair in pairs {
        if !flows_at(state, frames, pair.1) {
            return false;
        }
    }
    true
}

fn form_flows(state: &mut KindState, frames: &KeptFrames, instr: &Instr) -> bool
    requires { AreListed frames.now state.old }
    ensures same { state.new ≡ state.old }
    ensures flows { Decides result (FormFlows state.old.kinds frames.now instr.now) }
{
    match instr {
        Instr::Branch { target, .. } => flows_at(state, frames, *target),
        Instr::Table {
            default,
            targets,
            ..
        } => { flows_at(state, frames, *default) && all_flow(state, frames, targets.as_slice()) }
        Instr::Lookup { default, pairs } => {
            flows_at(state, frames, *default) && pairs_flow(state, frames, pairs.as_slice())
        }
        _ => true,
    }
}

/// Whether each target of the instruction has a frame, into which these kinds flow; an instruction that isn't supported has no targets.
pub fn jumps_flow(state: &mut KindState, frames: &KeptFrames, instr: &Instr) -> bool
    requires { AreListed frames.now state.old }
    ensures same { state.new ≡ state.old }
    ensures flows { (pool : List Constant) → IsRun (instruction_in pool instr.now) → Decides result (JumpsFlow state.old.kinds frames.now (targets (instruction_in pool instr.now))) }
{
    form_flows(state, frames, instr)
}

// ---- what it makes

fn is_class(constant: ConstantKind) -> bool
    ensures { result ≡ is_class constant }
{
    matches!(constant, ConstantKind::Class)
}

/// Whether it makes an object of a class.
pub fn makes_object(kinds: &PoolKinds, instr: &Instr) -> bool
    ensures { result ≡ form_makes kinds.now.constants instr.now }
{
    match instr {
        Instr::Class { op, index } => *op == 187 && is_class(kinds.constant(*index)),
        _ => false,
    }
}
