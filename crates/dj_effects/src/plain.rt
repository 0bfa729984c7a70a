ghost use Rattle.std.specs.Prelude.{Some, unsigned_abs};
ghost use Rattle.dj_model.specs.trusted.Instructions.{Nothing};
ghost use Rattle.dj_model.specs.trusted.Opcodes.{array_rows, bit_rows, constant_rows, instruction_of, jump_rows, last_rows, local_rows, new_array, number_rows, operand_does, row_does, simple, stack_rows, store_rows};
ghost use Rattle.dj_effects.specs.Actions.{IsActionOf};

use crate::actions::{
    Access, BinaryOperation, Condition, Movement, Operation, PlainAction, Shift, Slots, Test,
    UnaryOperation,
};
use dj_names::{Base, Element, Kind, Value};
use dj_ops::Instr;

/// What an instruction does that names no constant; none where it names one, or isn't run.
#[tactic(auto, unfolding(dj_model::specs::trusted::Opcodes::instruction_of))]
#[inline(always)]
pub fn plain_action(instr: &Instr) -> Option<PlainAction<'_>>
    ensures { IsActionOf result (instruction_of instr.now Nothing) }
{
    match instr {
        Instr::Simple { op } => simple_action(*op),
        Instr::Push { value, .. } => Some(PlainAction::Push(Value::Int(i32::from(*value)))),
        Instr::Local { op, slot, .. } => local_action(*op, *slot),
        Instr::Inc { slot, by, .. } => Some(PlainAction::Increment(*slot, *by)),
        Instr::Branch { op, target } => jump_action(*op, target.unsigned_abs()),
        Instr::Table {
            default,
            low,
            targets,
        } => Some(PlainAction::Table {
            default: default.unsigned_abs(),
            low: *low,
            targets: targets.as_slice(),
        }),
        Instr::Lookup { default, pairs } => Some(PlainAction::Lookup {
            default: default.unsigned_abs(),
            pairs,
        }),
        Instr::Array { base } => array_action(*base),
        _ => None,
    }
}

// ---- instructions without operands

#[tactic(auto, unfolding(dj_model::specs::trusted::Opcodes::simple))]
#[inline(always)]
fn simple_action(op: u8) -> Option<PlainAction<'static>>
    ensures { IsActionOf result (simple Nothing op) }
{
    match op {
        0..=45 => constant_action(op),
        46..=86 => element_action(op),
        87..=95 => move_action(op),
        96..=119 => number_action(op),
        120..=132 => bit_action(op),
        _ => last_action(op),
    }
}

#[inline(always)]
fn constant_action(op: u8) -> Option<PlainAction<'static>>
    ensures { IsActionOf result (row_does constant_rows Nothing op) }
{
    Some(match op {
        0 => PlainAction::Nop,
        1 => PlainAction::Push(Value::Ref(0)),
        2..=8 => PlainAction::Push(Value::Int(i32::from(op - 2) - 1)),
        9..=10 => PlainAction::Push(Value::Long(i64::from(op - 9))),
        26..=29 => PlainAction::Load(Kind::Int, u16::from(op - 26)),
        30..=33 => PlainAction::Load(Kind::Long, u16::from(op - 30)),
        42..=45 => PlainAction::Load(Kind::Ref, u16::from(op - 42)),
        _ => return None,
    })
}

#[inline(always)]
fn element_action(op: u8) -> Option<PlainAction<'static>>
    ensures { IsActionOf result (row_does store_rows Nothing op) }
{
    Some(match op {
        46 => PlainAction::LoadElement(Access::Ints),
        47 => PlainAction::LoadElement(Access::Longs),
        50 => PlainAction::LoadElement(Access::References),
        51 => PlainAction::LoadElement(Access::Bytes),
        52 => PlainAction::LoadElement(Access::Chars),
        53 => PlainAction::LoadElement(Access::Shorts),
        59..=62 => PlainAction::Store(Kind::Int, u16::from(op - 59)),
        63..=66 => PlainAction::Store(Kind::Long, u16::from(op - 63)),
        75..=78 => PlainAction::Store(Kind::Ref, u16::from(op - 75)),
        79 => PlainAction::StoreElement(Access::Ints),
        80 => PlainAction::StoreElement(Access::Longs),
        83 => PlainAction::StoreElement(Access::References),
        84 => PlainAction::StoreElement(Access::Bytes),
        85 => PlainAction::StoreElement(Access::Chars),
        86 => PlainAction::StoreElement(Access::Shorts),
        _ => return None,
    })
}

#[inline(always)]
fn move_action(op: u8) -> Option<PlainAction<'static>>
    ensures { IsActionOf result (row_does stack_rows Nothing op) }
{
    Some(PlainAction::Move(match op {
        87 => Movement::Drop(Slots::One),
        88 => Movement::Drop(Slots::Two),
        89 => Movement::Double(Slots::One),
        90 => Movement::Under(Slots::One, Slots::One),
        91 => Movement::Under(Slots::One, Slots::Two),
        92 => Movement::Double(Slots::Two),
        93 => Movement::Under(Slots::Two, Slots::One),
        94 => Movement::Under(Slots::Two, Slots::Two),
        95 => Movement::Swap,
        _ => return None,
    }))
}

#[inline(always)]
fn number_action(op: u8) -> Option<PlainAction<'static>>
    ensures { IsActionOf result (row_does number_rows Nothing op) }
{
    Some(match op {
        96 => PlainAction::Compute(BinaryOperation::Ints(Operation::Add)),
        97 => PlainAction::Compute(BinaryOperation::Longs(Operation::Add)),
        100 => PlainAction::Compute(BinaryOperation::Ints(Operation::Subtract)),
        101 => PlainAction::Compute(BinaryOperation::Longs(Operation::Subtract)),
        104 => PlainAction::Compute(BinaryOperation::Ints(Operation::Multiply)),
        105 => PlainAction::Compute(BinaryOperation::Longs(Operation::Multiply)),
        108 => PlainAction::Compute(BinaryOperation::Ints(Operation::Divide)),
        109 => PlainAction::Compute(BinaryOperation::Longs(Operation::Divide)),
        112 => PlainAction::Compute(BinaryOperation::Ints(Operation::Remainder)),
        113 => PlainAction::Compute(BinaryOperation::Longs(Operation::Remainder)),
        116 => PlainAction::Convert(UnaryOperation::NegateInt),
        117 => PlainAction::Convert(UnaryOperation::NegateLong),
        _ => return None,
    })
}

#[inline(always)]
fn bit_action(op: u8) -> Option<PlainAction<'static>>
    ensures { IsActionOf result (row_does bit_rows Nothing op) }
{
    Some(PlainAction::Compute(match op {
        120 => BinaryOperation::ShiftInt(Shift::Left),
        121 => BinaryOperation::ShiftLong(Shift::Left),
        122 => BinaryOperation::ShiftInt(Shift::Right),
        123 => BinaryOperation::ShiftLong(Shift::Right),
        124 => BinaryOperation::ShiftInt(Shift::RightUnsigned),
        125 => BinaryOperation::ShiftLong(Shift::RightUnsigned),
        126 => BinaryOperation::Ints(Operation::And),
        127 => BinaryOperation::Longs(Operation::And),
        128 => BinaryOperation::Ints(Operation::Or),
        129 => BinaryOperation::Longs(Operation::Or),
        130 => BinaryOperation::Ints(Operation::Xor),
        131 => BinaryOperation::Longs(Operation::Xor),
        _ => return None,
    }))
}

#[inline(always)]
fn last_action(op: u8) -> Option<PlainAction<'static>>
    ensures { IsActionOf result (row_does last_rows Nothing op) }
{
    Some(match op {
        133 => PlainAction::Convert(UnaryOperation::IntToLong),
        136 => PlainAction::Convert(UnaryOperation::LongToInt),
        145 => PlainAction::Convert(UnaryOperation::IntToByte),
        146 => PlainAction::Convert(UnaryOperation::IntToChar),
        147 => PlainAction::Convert(UnaryOperation::IntToShort),
        148 => PlainAction::Compute(BinaryOperation::CompareLongs),
        172 => PlainAction::Return(Some(Kind::Int)),
        173 => PlainAction::Return(Some(Kind::Long)),
        176 => PlainAction::Return(Some(Kind::Ref)),
        177 => PlainAction::Return(None),
        190 => PlainAction::ArrayLength,
        191 => PlainAction::Throw,
        194..=195 => PlainAction::Monitor,
        _ => return None,
    })
}

// ---- instructions with operands

#[inline(always)]
fn local_action(op: u8, slot: u16) -> Option<PlainAction<'static>>
    ensures { IsActionOf result (operand_does local_rows Nothing op slot) }
{
    Some(match op {
        21 => PlainAction::Load(Kind::Int, slot),
        22 => PlainAction::Load(Kind::Long, slot),
        25 => PlainAction::Load(Kind::Ref, slot),
        54 => PlainAction::Store(Kind::Int, slot),
        55 => PlainAction::Store(Kind::Long, slot),
        58 => PlainAction::Store(Kind::Ref, slot),
        _ => return None,
    })
}

#[inline(always)]
fn jump_action(op: u8, target: u64) -> Option<PlainAction<'static>>
    ensures { IsActionOf result (operand_does jump_rows Nothing op target) }
{
    Some(match op {
        153 => PlainAction::Branch(Test::WithZero(Condition::Equal), target),
        154 => PlainAction::Branch(Test::WithZero(Condition::NotEqual), target),
        155 => PlainAction::Branch(Test::WithZero(Condition::Less), target),
        156 => PlainAction::Branch(Test::WithZero(Condition::GreaterOrEqual), target),
        157 => PlainAction::Branch(Test::WithZero(Condition::Greater), target),
        158 => PlainAction::Branch(Test::WithZero(Condition::LessOrEqual), target),
        159 => PlainAction::Branch(Test::OfInts(Condition::Equal), target),
        160 => PlainAction::Branch(Test::OfInts(Condition::NotEqual), target),
        161 => PlainAction::Branch(Test::OfInts(Condition::Less), target),
        162 => PlainAction::Branch(Test::OfInts(Condition::GreaterOrEqual), target),
        163 => PlainAction::Branch(Test::OfInts(Condition::Greater), target),
        164 => PlainAction::Branch(Test::OfInts(Condition::LessOrEqual), target),
        165 => PlainAction::Branch(Test::OfReferences(true), target),
        166 => PlainAction::Branch(Test::OfReferences(false), target),
        167 | 200 => PlainAction::Goto(target),
        198 => PlainAction::Branch(Test::OfNull(true), target),
        199 => PlainAction::Branch(Test::OfNull(false), target),
        _ => return None,
    })
}

fn array_action(base: u8) -> Option<PlainAction<'static>>
    ensures { IsActionOf result (new_array array_rows base) }
{
    Some(match base {
        4 => PlainAction::NewArray(Base::Boolean, Element::Boolean),
        5 => PlainAction::NewArray(Base::Char, Element::Char),
        8 => PlainAction::NewArray(Base::Byte, Element::Byte),
        9 => PlainAction::NewArray(Base::Short, Element::Short),
        10 => PlainAction::NewArray(Base::Int, Element::Int),
        11 => PlainAction::NewArray(Base::Long, Element::Long),
        _ => return None,
    })
}
