ghost use Rattle.std.specs.Prelude.{◌≡◌, if◌then◌else◌};
ghost use Rattle.dj_model.specs.trusted.Instructions as model;
ghost use Rattle.dj_model.specs.trusted.Numbers.{agrees, holds, same_number, target_of};
ghost use Rattle.dj_model.specs.trusted.Opcodes.{lookup_pairs, table_pairs};
ghost use Rattle.dj_effects.specs.Actions.{condition_view, test_view};
ghost use Rattle.dj_effects.specs.Does.{Does};
ghost use Rattle.dj_effects.specs.declared.way.Way.TheVariants as ways;

use crate::actions::{Condition, Test};
use crate::top::{is_of_kind, pop};
use crate::way::Way;
use dj_names::{Kind, Value};
use dj_ops::Pairs;
use dj_stack::Frames;

/// The run goes on at the target where the operands, which are taken, are such as the test asks.
pub fn branch(frames: &mut Frames, test: Test, target: u64) -> Option<Way>
    ensures { Does (model.Branch (test_view test) target) frames.old frames.new result }
{
    match test {
        Test::WithZero(condition) => with_zero(frames, condition, target),
        Test::OfInts(condition) => of_ints(frames, condition, target),
        Test::OfReferences(same) => of_references(frames, same, target),
        Test::OfNull(null) => of_null(frames, null, target),
    }
}

/// The run goes on at the target.
#[tactic(auto, unfolding(dj_model::specs::trusted::Values::on_values))]
pub fn goto(frames: &mut Frames, target: u64) -> Option<Way>
    ensures { Does (model.Goto target) frames.old frames.new result }
{
    Some(Way::To(target))
}

/// The run goes on where a table from low on says for the int that is taken.
#[tactic(auto, unfolding(dj_model::specs::trusted::Values::on_values))]
pub fn switch_table(frames: &mut Frames, default: u64, low: i32, targets: &[i64]) -> Option<Way>
    ensures { Does (model.Switch (table_pairs low targets.now) default) frames.old frames.new result }
{
    match pop(frames) {
        Some(Value::Int(z)) => Some(Way::To(table_target(default, low, targets, z))),
        _ => None,
    }
}

/// lookupswitch: takes an int, and the run goes on at the target of the first pair that it matches, or at the default.
#[tactic(auto, unfolding(dj_model::specs::trusted::Values::on_values))]
pub fn switch_lookup(frames: &mut Frames, default: u64, pairs: &Pairs) -> Option<Way>
    ensures { Does (model.Switch (lookup_pairs pairs.now) default) frames.old frames.new result }
{
    match pop(frames) {
        Some(Value::Int(z)) => Some(Way::To(lookup_target(default, pairs, z))),
        _ => None,
    }
}

/// The method returns the top operand, of the kind, or nothing.
#[tactic(auto, unfolding(dj_model::specs::trusted::Values::on_values))]
pub fn return_top(frames: &mut Frames, kind: Option<Kind>) -> Option<Way>
    ensures { Does (model.Return kind) frames.old frames.new result }
{
    let Some(kind) = kind else {
        return Some(Way::Back(None));
    };
    let value = pop(frames)?;
    if is_of_kind(kind, value) {
        Some(Way::Back(Some(value)))
    } else {
        None
    }
}

/// A reference is taken.
#[tactic(auto, unfolding(dj_model::specs::trusted::Values::on_values))]
pub fn monitor(frames: &mut Frames) -> Option<Way>
    ensures { Does model.Monitor frames.old frames.new result }
{
    match pop(frames) {
        Some(Value::Ref(_)) => Some(Way::Next),
        _ => None,
    }
}

// ---- tests

#[tactic(auto, unfolding(dj_model::specs::trusted::Values::on_values))]
fn with_zero(frames: &mut Frames, condition: Condition, target: u64) -> Option<Way>
    ensures { Does (model.Branch (model.WithZero (condition_view condition)) target) frames.old frames.new result }
{
    match pop(frames) {
        Some(Value::Int(a)) => Some(jump_if(holds(condition, a, 0), target)),
        _ => None,
    }
}

#[tactic(auto, unfolding(dj_model::specs::trusted::Values::on_values))]
fn of_ints(frames: &mut Frames, condition: Condition, target: u64) -> Option<Way>
    ensures { Does (model.Branch (model.OfInts (condition_view condition)) target) frames.old frames.new result }
{
    match (pop(frames), pop(frames)) {
        (Some(Value::Int(b)), Some(Value::Int(a))) => {
            Some(jump_if(holds(condition, a, b), target))
        }
        _ => None,
    }
}

#[tactic(auto, unfolding(dj_model::specs::trusted::Values::on_values))]
fn of_references(frames: &mut Frames, same: bool, target: u64) -> Option<Way>
    ensures { Does (model.Branch (model.OfReferences same) target) frames.old frames.new result }
{
    match (pop(frames), pop(frames)) {
        (Some(Value::Ref(b)), Some(Value::Ref(a))) => Some(jump_if(agrees(same, a == b), target)),
        _ => None,
    }
}

#[tactic(auto, unfolding(dj_model::specs::trusted::Values::on_values))]
fn of_null(frames: &mut Frames, null: bool, target: u64) -> Option<Way>
    ensures { Does (model.Branch (model.OfNull null) target) frames.old frames.new result }
{
    match pop(frames) {
        Some(Value::Ref(a)) => Some(jump_if(agrees(null, a == 0), target)),
        _ => None,
    }
}

fn jump_if(jumps: bool, target: u64) -> Way
    ensures { result ≡ (if jumps then ways.To target else ways.Next) }
{
    if jumps { Way::To(target) } else { Way::Next }
}

fn agrees(wanted: bool, found: bool) -> bool
    ensures { result ≡ agrees wanted found }
{
    if wanted { found } else { !found }
}

fn holds(condition: Condition, a: i32, b: i32) -> bool
    ensures { result ≡ holds (condition_view condition) a b }
{
    match condition {
        Condition::Equal => same_number(a, b),
        Condition::NotEqual => !same_number(a, b),
        Condition::Less => a < b,
        Condition::GreaterOrEqual => b <= a,
        Condition::Greater => b < a,
        Condition::LessOrEqual => a <= b,
    }
}

fn same_number(a: i32, b: i32) -> bool
    ensures { result ≡ same_number a b }
{
    a <= b && b <= a
}

// ---- tables

// The target of a number in a table from low on.
#[tactic(auto, using(crate::proofs::SwitchFacts::table_below, crate::proofs::SwitchFacts::table_outside))]
fn table_target(default: u64, low: i32, targets: &[i64], z: i32) -> u64
    ensures { result ≡ target_of (table_pairs low targets.now) default z }
{
    if z < low {
        return default;
    }
    let place = (i64::from(z) - i64::from(low)).unsigned_abs() as usize;
    if place < targets.len() {
        targets[place].unsigned_abs()
    } else {
        default
    }
}

// The target of the first match of a number.
#[tactic(auto, using(crate::proofs::SwitchFacts::pair_found, crate::proofs::SwitchFacts::no_pair))]
fn lookup_target(default: u64, pairs: &Pairs, z: i32) -> u64
    ensures { result ≡ target_of (lookup_pairs pairs.now) default z }
{
    match pairs.target_of(z) {
        Some(target) => target.unsigned_abs(),
        None => default,
    }
}
