ghost use Rattle.std.specs.Prelude.{◌≡◌};
ghost use Rattle.dj_names.specs.declared.descriptor.Kind.TheVariants as kinds;
ghost use Rattle.dj_model.specs.trusted.Instructions as model;
ghost use Rattle.dj_model.specs.trusted.Numbers.{compute, convert};
ghost use Rattle.dj_effects.specs.Actions.{binary_view, operation_view, shift_view, unary_view};
ghost use Rattle.dj_effects.specs.Does.{Does, Fits};
ghost use Rattle.dj_effects.specs.Results.{of_one, of_two, value_result};

use crate::actions::{BinaryOperation, Operation, Shift, UnaryOperation};
use crate::top::pop;
use crate::way::Way;
use dj_arith::{
    add_int, add_long, and_int, and_long, cmp_long, div_int, div_long, int_to_byte, int_to_char,
    int_to_long, int_to_short, long_to_int, mul_int, mul_long, neg_int, neg_long, or_int, or_long,
    rem_int, rem_long, shl_int, shl_long, shr_int, shr_long, sub_int, sub_long, ushr_int,
    ushr_long, xor_int, xor_long,
};
use dj_names::{Raised, Value};
use dj_stack::Frames;

/// Two numbers are taken, and what is computed of them is pushed, or an exception raised.
#[tactic(auto, unfolding(dj_model::specs::trusted::Values::on_values))]
pub fn compute(frames: &mut Frames, operation: BinaryOperation) -> Option<Way>
    requires { Fits (model.Compute (binary_view operation)) frames.old }
    ensures { Does (model.Compute (binary_view operation)) frames.old frames.new result }
{
    let (Some(b), Some(a)) = (pop(frames), pop(frames)) else {
        return None;
    };
    match of_two(operation, a, b)? {
        Ok(value) => {
            frames.push_value(value);
            Some(Way::Next)
        }
        Err(raised) => Some(Way::Raise(raised)),
    }
}

/// A number is taken, and what it is converted to is pushed.
#[tactic(auto, unfolding(dj_model::specs::trusted::Values::on_values))]
pub fn convert(frames: &mut Frames, operation: UnaryOperation) -> Option<Way>
    requires { Fits (model.Convert (unary_view operation)) frames.old }
    ensures { Does (model.Convert (unary_view operation)) frames.old frames.new result }
{
    let a = pop(frames)?;
    frames.push_value(of_one(operation, a)?);
    Some(Way::Next)
}

// What the operation computes from the two values; none where they aren't of the kinds that it takes.
fn of_two(operation: BinaryOperation, a: Value, b: Value) -> Option<Result<Value, Raised>>
    ensures { result ≡ of_two (binary_view operation) a b }
{
    match operation {
        BinaryOperation::Ints(operation) => ints(operation, a, b),
        BinaryOperation::Longs(operation) => longs(operation, a, b),
        BinaryOperation::ShiftInt(shift) => int_shifted(shift, a, b),
        BinaryOperation::ShiftLong(shift) => long_shifted(shift, a, b),
        BinaryOperation::CompareLongs => longs_compared(a, b),
    }
}

fn ints(operation: Operation, a: Value, b: Value) -> Option<Result<Value, Raised>>
    ensures { result ≡ of_two (operation_view kinds.Int operation) a b }
{
    match (a, b) {
        (Value::Int(a), Value::Int(b)) => Some(int_value(of_ints(operation, a, b))),
        _ => None,
    }
}

fn longs(operation: Operation, a: Value, b: Value) -> Option<Result<Value, Raised>>
    ensures { result ≡ of_two (operation_view kinds.Long operation) a b }
{
    match (a, b) {
        (Value::Long(a), Value::Long(b)) => Some(long_value(of_longs(operation, a, b))),
        _ => None,
    }
}

fn int_shifted(shift: Shift, a: Value, b: Value) -> Option<Result<Value, Raised>>
    ensures { result ≡ of_two (shift_view kinds.Int shift) a b }
{
    match (a, b) {
        (Value::Int(a), Value::Int(b)) => Some(int_value(shift_int(shift, a, b))),
        _ => None,
    }
}

fn long_shifted(shift: Shift, a: Value, b: Value) -> Option<Result<Value, Raised>>
    ensures { result ≡ of_two (shift_view kinds.Long shift) a b }
{
    match (a, b) {
        (Value::Long(a), Value::Int(b)) => Some(long_value(shift_long(shift, a, b))),
        _ => None,
    }
}

#[tactic(auto, unfolding(dj_model::specs::trusted::Numbers::compute))]
fn longs_compared(a: Value, b: Value) -> Option<Result<Value, Raised>>
    ensures { result ≡ of_two model.CompareLongs a b }
{
    match (a, b) {
        (Value::Long(a), Value::Long(b)) => Some(Ok(Value::Int(cmp_long(a, b)))),
        _ => None,
    }
}

fn int_value(number: Result<i32, Raised>) -> Result<Value, Raised>
    ensures { result ≡ value_result kinds.Int number }
{
    Ok(Value::Int(number?))
}

fn long_value(number: Result<i64, Raised>) -> Result<Value, Raised>
    ensures { result ≡ value_result kinds.Long number }
{
    Ok(Value::Long(number?))
}

#[tactic(auto, unfolding(dj_model::specs::trusted::Numbers::compute), using(crate::proofs::NumberFacts::no_divisor, crate::proofs::NumberFacts::some_divisor))]
fn of_ints(operation: Operation, a: i32, b: i32) -> Result<i32, Raised>
    ensures { result ≡ compute (operation_view kinds.Int operation) a b }
{
    match operation {
        Operation::Add => Ok(add_int(a, b)),
        Operation::Subtract => Ok(sub_int(a, b)),
        Operation::Multiply => Ok(mul_int(a, b)),
        Operation::Divide => div_int(a, b).ok_or(Raised::Arithmetic),
        Operation::Remainder => rem_int(a, b).ok_or(Raised::Arithmetic),
        Operation::And => Ok(and_int(a, b)),
        Operation::Or => Ok(or_int(a, b)),
        Operation::Xor => Ok(xor_int(a, b)),
    }
}

#[tactic(auto, unfolding(dj_model::specs::trusted::Numbers::compute), using(crate::proofs::NumberFacts::no_divisor, crate::proofs::NumberFacts::some_divisor))]
fn of_longs(operation: Operation, a: i64, b: i64) -> Result<i64, Raised>
    ensures { result ≡ compute (operation_view kinds.Long operation) a b }
{
    match operation {
        Operation::Add => Ok(add_long(a, b)),
        Operation::Subtract => Ok(sub_long(a, b)),
        Operation::Multiply => Ok(mul_long(a, b)),
        Operation::Divide => div_long(a, b).ok_or(Raised::Arithmetic),
        Operation::Remainder => rem_long(a, b).ok_or(Raised::Arithmetic),
        Operation::And => Ok(and_long(a, b)),
        Operation::Or => Ok(or_long(a, b)),
        Operation::Xor => Ok(xor_long(a, b)),
    }
}

#[tactic(auto, unfolding(dj_model::specs::trusted::Numbers::compute))]
fn shift_int(shift: Shift, a: i32, count: i32) -> Result<i32, Raised>
    ensures { result ≡ compute (shift_view kinds.Int shift) a count }
{
    Ok(match shift {
        Shift::Left => shl_int(a, count),
        Shift::Right => shr_int(a, count),
        Shift::RightUnsigned => ushr_int(a, count),
    })
}

#[tactic(auto, unfolding(dj_model::specs::trusted::Numbers::compute))]
fn shift_long(shift: Shift, a: i64, count: i32) -> Result<i64, Raised>
    ensures { result ≡ compute (shift_view kinds.Long shift) a count }
{
    Ok(match shift {
        Shift::Left => shl_long(a, count),
        Shift::Right => shr_long(a, count),
        Shift::RightUnsigned => ushr_long(a, count),
    })
}

// What a value is converted to; none where it isn't of the kind that the operation takes.
#[tactic(auto, unfolding(dj_model::specs::trusted::Numbers::convert))]
fn of_one(operation: UnaryOperation, a: Value) -> Option<Value>
    ensures { result ≡ of_one (unary_view operation) a }
{
    Some(match (operation, a) {
        (UnaryOperation::NegateInt, Value::Int(z)) => Value::Int(neg_int(z)),
        (UnaryOperation::NegateLong, Value::Long(z)) => Value::Long(neg_long(z)),
        (UnaryOperation::IntToLong, Value::Int(z)) => Value::Long(int_to_long(z)),
        (UnaryOperation::LongToInt, Value::Long(z)) => Value::Int(long_to_int(z)),
        (UnaryOperation::IntToByte, Value::Int(z)) => Value::Int(int_to_byte(z)),
        (UnaryOperation::IntToChar, Value::Int(z)) => Value::Int(int_to_char(z)),
        (UnaryOperation::IntToShort, Value::Int(z)) => Value::Int(int_to_short(z)),
        _ => return None,
    })
}
