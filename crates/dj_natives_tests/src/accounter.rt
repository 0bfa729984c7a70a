ghost use Rattle.std.specs.Prelude.{◌≤◌, ◌^◌};

use crate::sums::{ARRAYS, SUMS};
use dj_names::{Charge, Costs, Thresholds};
use dj_natives::{Accounter, Charged};

/// What is added.
#[derive(Clone, Copy)]
pub enum Call {
    Jump,
    Invocation,
    Throw,
    Allocation(i32),
    Array(i32, i32),
    Text(u32),
}

/// A call with its answer.
#[derive(Clone, Copy)]
pub enum Step {
    Fine(Call),
    Stop(Call),
    /// Of allocations, invocations, jumps and exceptions.
    Costs(u64, u64, u64, u64),
    Exceeded(Option<Charge>),
}

/// The thresholds, in the same order, and calls one after the other.
pub type Sequence = ((u64, u64, u64, u64), &'static [Step]);

// No threshold is higher.
fn low(threshold: u64) -> u64
    ensures { result ≤ 2 ^ 32 }
{
    threshold.min(1 << 32)
}

/// An accounter with these thresholds.
pub fn accounter(thresholds: (u64, u64, u64, u64)) -> Accounter {
    Accounter::new(Thresholds {
        alloc: low(thresholds.0),
        invoke: low(thresholds.1),
        jump: low(thresholds.2),
        throw: low(thresholds.3),
    })
}

fn charged(accounter: &mut Accounter, call: Call) -> Charged {
    match call {
        Call::Jump => accounter.record_jump(),
        Call::Invocation => accounter.record_invocation(),
        Call::Throw => accounter.record_throw(),
        Call::Allocation(size) => accounter.record_allocation(size),
        Call::Array(length, element) => accounter.record_array(length, element),
        Call::Text(units) => accounter.record_text(units),
    }
}

// Whether the step answers so.
fn is_answered(accounter: &mut Accounter, step: &Step) -> bool {
    match step {
        Step::Fine(call) => charged(accounter, *call) == Charged::Fine,
        Step::Stop(call) => charged(accounter, *call) == Charged::Stop,
        Step::Costs(alloc, invoke, jump, throw) => {
            let costs = Costs {
                alloc: *alloc,
                invoke: *invoke,
                jump: *jump,
                throw: *throw,
            };
            accounter.costs() == costs
        }
        Step::Exceeded(charge) => accounter.exceeded() == *charge,
    }
}

fn are_answered(sequence: &Sequence) -> bool {
    let mut accounter = accounter(sequence.0);
    for step in sequence.1 {
        if !is_answered(&mut accounter, step) {
            return false;
        }
    }
    true
}

#[test]
fn sums_stop_past_their_thresholds(rt: HostRuntime) {
    for (number, sequence) in SUMS.iter().enumerate() {
        assert!(rt; are_answered(sequence), "sequence {number}");
    }
}

#[test]
fn arrays_are_charged_by_their_sizes(rt: HostRuntime) {
    for (number, sequence) in ARRAYS.iter().enumerate() {
        assert!(rt; are_answered(sequence), "sequence {number}");
    }
}
