ghost use Rattle.std.specs.Prelude.{◌≡◌, ◌^◌, ◌+◌, ◌<◌, length, List, [], ◌∷◌, ◌++◌, IfOk, Decides, IsTrue, true, Some, slice_get};
ghost use Rattle.dj_labels.specs.declared.labelled.Protected.{Protected};
ghost use Rattle.dj_pool.specs.trusted.Pool.{Constant};
ghost use Rattle.dj_program.specs.trusted.Naming.{instruction_in};
ghost use Rattle.dj_model.specs.trusted.Linking.{or_else};
ghost use Rattle.dj_shape_rule.specs.Flows.{FlowsTo};
ghost use Rattle.dj_shape_rule.specs.Listed.{AreListed};
ghost use Rattle.dj_shape_rule.specs.Passing.{Answers, Before, Case, HasHandlerFrame, IsCase, IsFirst, IsFirstBut, IsFirstUnhandled, Leaving, MeetsFrame, least_of, limit_of};
ghost use Rattle.dj_shape_rule.specs.Standing.{SameButStates, SameRoom};
ghost use Rattle.dj_shape_rule.specs.Reported.{reported_at};

use crate::apply::{apply, effect_of};
use crate::error::ShapeError;
use crate::flows::{flows, flows_to, same_stacks};
use crate::frames::KeptFrames;
use crate::handlers::ranges_of;
use crate::instrs::{ends, jumps_flow};
use crate::pool::PoolKinds;
use crate::state::KindState;
use dj_labels::Protected;
use dj_names::Kind;
use dj_ops::Instr;
use std::alloc::Global;

/// The code of a method, and what is known of it before the pass over its instructions.
#[derive(Drop)]
pub struct Method<'a> {
    pub kinds: &'a PoolKinds,
    pub code: &'a [Instr],
    pub rows: &'a [Protected],
    /// The kinds of its frames, by the numbers of their instructions.
    pub frames: KeptFrames,
    /// The kind of what the method returns.
    pub returned: Option<Kind>,
    /// The least first instruction of a handler that has no handler's frame.
    pub unhandled: Option<u32>,
}

/// What is known before an instruction.
#[derive(Drop)]
pub struct Pass {
    /// What the instruction before it leaves, where the run goes on from there.
    state: KindState,
    going: bool,
}

impl Method<'_> {
    // Whether it is the least first instruction of a handler without a handler's frame.
    fn is_unhandled(&self, number: u32) -> bool
        ensures { Decides result (self.now.unhandled ≡ Some number) }
    {
        self.unhandled == Some(number)
    }
}

impl Pass {
    // Whether there are kinds before the instruction: those of its frame, or else those that the instruction before it leaves.
    fn meet_frame(&mut self, method: &Method<'_>, number: u32) -> Result<bool, ShapeError>
        requires { AreListed method.now.frames self.old.state }
        ensures room { SameRoom self.old.state self.new.state }
        ensures met { IfOk result (λ stands. MeetsFrame stands (reported_at method.now.frames number) number self.old self.new) }
    {
        if !method.frames.may_report(u64::from(number)) {
            return Ok(self.going);
        }
        let Some(reported) = method.frames.at(u64::from(number)) else {
            return Ok(self.going);
        };
        if number == 0 && !flows(&mut self.state, &reported) {
            return Ok(false);
        }
        self.state.set(&reported)
    }

    // Whether the run goes on at an instruction, and with kinds that flow into its frame, if it has one.
    fn goes_on(&mut self, method: &Method<'_>, next: usize) -> bool
        requires { AreListed method.now.frames self.old.state }
        ensures same { self.new ≡ self.old }
        ensures goes { Decides result ((next < length method.now.code.now) × FlowsTo self.old.state.kinds (reported_at method.now.frames next)) }
    {
        next < method.code.len() && flows_to(&mut self.state, &method.frames, next as u64)
    }

    // Whether what is left fits wherever the run goes on.
    fn leave(&mut self, method: &Method<'_>, number: u32, instr: &Instr) -> bool
        requires number { number < length method.now.code.now }
        requires listed { AreListed method.now.frames self.old.state }
        ensures same { self.new.state ≡ self.old.state }
        ensures left { (pool : List Constant) → Leaving method.now number self.new.state.kinds self.new.going (instruction_in pool instr.now) result }
    {
        self.going = !ends(instr);
        jumps_flow(&mut self.state, &method.frames, instr)
            && (!self.going || self.goes_on(method, number as usize + 1))
    }

    /// Whether the instruction holds, except for the handlers of the ranges that it is in.
    pub fn step(
        &mut self,
        method: &Method<'_>,
        number: u32,
        instr: &Instr,
    ) -> Result<bool, ShapeError>
        requires at { slice_get method.now.code.now number ≡ Some instr.now }
        requires listed { AreListed method.now.frames self.old.state }
        ensures room { SameButStates self.old.state self.new.state }
        ensures answers { IfOk result (λ holds. (c : Case) → IsCase method.now c → Before method.now c number self.old → Answers holds method.now c number self.new) }
    {
        if !self.meet_frame(method, number)? {
            return Ok(false);
        }
        if method.is_unhandled(number) {
            return Ok(false);
        }
        self.state.note()?;
        let effect = effect_of(method.kinds, instr);
        if !apply(&mut self.state, method.kinds, method.returned, effect)? {
            return Ok(false);
        }
        Ok(self.leave(method, number, instr))
    }

    /// The pass at the beginning, with these kinds before the first instruction.
    pub fn new(state: KindState) -> Pass
        ensures state { result.state ≡ state }
        ensures going { result.going ≡ true }
    {
        Pass { state, going: true }
    }

    /// The number of the first instruction that doesn't hold, whatever the handlers of ranges ask.
    pub fn first_fault(&mut self, method: &Method<'_>) -> Result<Option<u32>, ShapeError>
        requires few { length method.now.code.now < 2 ^ 32 }
        requires listed { AreListed method.now.frames self.old.state }
        ensures room { SameButStates self.old.state self.new.state }
        ensures first { IfOk result (λ fault. (c : Case) → IsCase method.now c → Before method.now c 0 self.old → IsFirstBut method.now c fault self.new) }
    {
        for (number, instr) in method.code.iter().enumerate() {
            if !self.step(method, number as u32, instr)? {
                return Ok(Some(number as u32));
            }
        }
        Ok(None)
    }

    /// The number of the first instruction that doesn't hold, where that is it but for the handlers of ranges.
    pub fn with_handlers(
        &mut self,
        alloc: Global,
        method: &Method<'_>,
        fault: Option<u32>,
    ) -> Result<Option<u32>, ShapeError>
        requires few { length method.now.code.now < 2 ^ 32 }
        requires listed { AreListed method.now.frames self.old.state }
        ensures { IfOk result (λ first. (c : Case) → IsCase method.now c → IsFirstBut method.now c fault self.old → IsFirst c first) }
    {
        let limit = limit_of(fault, method.code.len());
        let ranges = ranges_of(alloc, &method.frames, method.rows)?;
        let found = self.state.first_lacking(alloc, &ranges, limit)?;
        Ok(first_of(found, fault))
    }
}

// The number of a fault; the count of instructions where there is none.
fn limit_of(fault: Option<u32>, count: usize) -> u32
    requires { count < 2 ^ 32 }
    ensures { result ≡ limit_of fault count }
{
    match fault {
        None => count as u32,
        Some(number) => number,
    }
}

// What was found, or else the other.
fn first_of(found: Option<u32>, other: Option<u32>) -> Option<u32>
    ensures { result ≡ or_else found other }
{
    match found {
        None => other,
        Some(number) => Some(number),
    }
}

// Whether the frame at the instruction has one operand, a reference.
fn has_handler_frame(frames: &KeptFrames, number: u32) -> bool
    ensures { Decides result (HasHandlerFrame frames.now number) }
{
    match frames.at(u64::from(number)) {
        None => false,
        Some(reported) => same_stacks(reported.stack, &[Kind::Ref]),
    }
}

fn least_of(least: Option<u32>, number: u32) -> u32
    ensures { result ≡ least_of least number }
{
    match least {
        None => number,
        Some(least) => least.min(number),
    }
}

// The lesser of this number and the first instruction of the row's handler, where that has no handler's frame.
fn with_row(frames: &KeptFrames, least: Option<u32>, row: Protected) -> Option<u32>
    ensures { (rows : List Protected) → IsFirstUnhandled frames.now rows least → IsFirstUnhandled frames.now (rows ++ row ∷ []) result }
{
    if has_handler_frame(frames, row.handler) {
        least
    } else {
        Some(least_of(least, row.handler))
    }
}

/// The least first instruction of a handler that has no handler's frame.
pub fn first_unhandled(frames: &KeptFrames, rows: &[Protected]) -> Option<u32>
    ensures { IsFirstUnhandled frames.now rows.now result }
{
    let mut least: Option<u32> = None;
    for row in rows {
        least = with_row(frames, least, *row);
    }
    least
}
