use dj_names::Value;

/// A call on frames, and at its end what it answers, if it answers something. A frame is given by its number from 0 at the bottom,
/// and an operand of it likewise.
#[derive(Clone, Copy)]
pub enum Call {
    /// This many local variables, and room for this many operands.
    Push(u16, u16),
    Pop,
    Depth(u32),
    Set(u16, Option<Value>),
    Local(u16, Option<Value>),
    LocalOf(u32, u16, Option<Value>),
    /// Each local variable from one number up to another, but not that, is given the value of its number.
    SetEach(u16, u16),
    LocalEach(u16, u16),
    Give(Value),
    Take(Value),
    OperandOf(u32, u16, Value),
    Spare(u16),
    Unwind(Value),
    /// The values of these numbers are pushed, one after the other, or popped, the last first.
    GiveEach(u16, u16),
    TakeEach(u16, u16),
}

/// The value of a number: an int, a long whose two halves differ, and a reference in turn.
pub fn value_of(number: u16) -> Value {
    match number % 3 {
        0 => Value::Int(-2147483648 + i32::from(number)),
        1 => Value::Long(-81985529216486896 - i64::from(number)),
        _ => Value::Ref(4294967295 - u32::from(number)),
    }
}

// The most local variables and operands that a frame has.
const MOST: u16 = 65535;
// More than are kept whole, by one and by some.
const JUST_LARGE: u16 = 1025;

const LARGE: u16 = 1500;

/// Local variables of large frames (JVMS 2.6.1): each has the value that it was given last, or none.
pub const LOCALS: [&[Call]; 9] = [
    &[
        Call::Push(JUST_LARGE, 0),
        Call::Local(0, None),
        Call::Local(1024, None),
        Call::Set(0, Some(Value::Int(5))),
        Call::Set(1024, Some(Value::Int(-6))),
        Call::Local(0, Some(Value::Int(5))),
        Call::Local(1, None),
        Call::Local(1023, None),
        Call::Local(1024, Some(Value::Int(-6))),
    ],
    // The ends of each kind, at low places and at high ones.
    &[
        Call::Push(MOST, 0),
        Call::Set(65534, Some(Value::Ref(4294967295))),
        Call::Set(65533, Some(Value::Ref(0))),
        Call::Set(65532, Some(Value::Int(-2147483648))),
        Call::Set(65531, Some(Value::Int(2147483647))),
        Call::Set(65530, Some(Value::Long(-9223372036854775808))),
        Call::Set(65529, Some(Value::Long(9223372036854775807))),
        Call::Set(2, Some(Value::Long(4294967296))),
        Call::Set(1, Some(Value::Long(4294967295))),
        Call::Set(0, Some(Value::Long(-1))),
        Call::Local(0, Some(Value::Long(-1))),
        Call::Local(1, Some(Value::Long(4294967295))),
        Call::Local(2, Some(Value::Long(4294967296))),
        Call::Local(3, None),
        Call::Local(65528, None),
        Call::Local(65529, Some(Value::Long(9223372036854775807))),
        Call::Local(65530, Some(Value::Long(-9223372036854775808))),
        Call::Local(65531, Some(Value::Int(2147483647))),
        Call::Local(65532, Some(Value::Int(-2147483648))),
        Call::Local(65533, Some(Value::Ref(0))),
        Call::Local(65534, Some(Value::Ref(4294967295))),
    ],
    // A long takes two: its second is overwritten, and then its first, each by a store that takes the value of the other away.
    &[
        Call::Push(LARGE, 0),
        Call::Set(1200, Some(Value::Long(81985529216486895))),
        Call::Set(1201, None),
        Call::Local(1200, Some(Value::Long(81985529216486895))),
        Call::Local(1201, None),
        Call::Set(1200, None),
        Call::Set(1201, Some(Value::Int(7))),
        Call::Local(1200, None),
        Call::Local(1201, Some(Value::Int(7))),
        Call::Set(1201, Some(Value::Long(-2))),
        Call::Set(1202, None),
        Call::Local(1200, None),
        Call::Local(1201, Some(Value::Long(-2))),
        Call::Set(1200, Some(Value::Long(-3))),
        Call::Set(1201, None),
        Call::Local(1200, Some(Value::Long(-3))),
        Call::Local(1201, None),
        Call::Local(1202, None),
    ],
    // Nothing is left of a value that was of another kind.
    &[
        Call::Push(LARGE, 0),
        Call::Set(1499, Some(Value::Long(-1))),
        Call::Set(1499, Some(Value::Int(3))),
        Call::Local(1499, Some(Value::Int(3))),
        Call::Set(1499, Some(Value::Long(3))),
        Call::Local(1499, Some(Value::Long(3))),
        Call::Set(1499, Some(Value::Ref(8))),
        Call::Local(1499, Some(Value::Ref(8))),
        Call::Set(1499, Some(Value::Int(8))),
        Call::Local(1499, Some(Value::Int(8))),
    ],
    // A variable is cleared, one that never had a value too, and given one again.
    &[
        Call::Push(LARGE, 0),
        Call::Set(1100, Some(Value::Int(1))),
        Call::Set(1101, Some(Value::Int(2))),
        Call::Set(1100, None),
        Call::Set(1102, None),
        Call::Local(1100, None),
        Call::Local(1101, Some(Value::Int(2))),
        Call::Local(1102, None),
        Call::Set(1102, Some(Value::Int(3))),
        Call::Set(1100, Some(Value::Ref(4))),
        Call::Local(1100, Some(Value::Ref(4))),
        Call::Local(1101, Some(Value::Int(2))),
        Call::Local(1102, Some(Value::Int(3))),
    ],
    // All of them, the upper ones first.
    &[
        Call::Push(LARGE, 0),
        Call::SetEach(1030, LARGE),
        Call::SetEach(0, 1030),
        Call::LocalEach(0, LARGE),
        Call::Set(1029, None),
        Call::SetEach(0, 1029),
        Call::LocalEach(0, 1029),
        Call::Local(1029, None),
        Call::LocalEach(1030, LARGE),
    ],
    &[
        Call::Push(MOST, 0),
        Call::SetEach(0, MOST),
        Call::LocalEach(0, MOST),
    ],
    // Each frame has its own.
    &[
        Call::Push(LARGE, 0),
        Call::Set(1400, Some(Value::Int(1))),
        Call::Push(LARGE, 0),
        Call::Local(1400, None),
        Call::Set(1400, Some(Value::Int(2))),
        Call::Push(3, 0),
        Call::Set(2, Some(Value::Int(3))),
        Call::LocalOf(0, 1400, Some(Value::Int(1))),
        Call::LocalOf(1, 1400, Some(Value::Int(2))),
        Call::LocalOf(2, 2, Some(Value::Int(3))),
        Call::Pop,
        Call::Local(1400, Some(Value::Int(2))),
        Call::Pop,
        Call::Local(1400, Some(Value::Int(1))),
        Call::Local(1401, None),
        Call::Depth(1),
        Call::Pop,
        Call::Depth(0),
    ],
    // A frame that is large in both.
    &[
        Call::Push(MOST, MOST),
        Call::GiveEach(0, 1100),
        Call::SetEach(64000, MOST),
        Call::Unwind(Value::Ref(6)),
        Call::LocalEach(64000, MOST),
        Call::Take(Value::Ref(6)),
    ],
];

/// Operands of large frames (JVMS 2.6.2): the last that was pushed is popped first.
pub const OPERANDS: [&[Call]; 8] = [
    &[
        Call::Push(0, JUST_LARGE),
        Call::Spare(JUST_LARGE),
        Call::GiveEach(0, JUST_LARGE),
        Call::Spare(0),
        Call::OperandOf(0, 0, Value::Int(-2147483648)),
        Call::OperandOf(0, 1024, Value::Long(-81985529216487920)),
        Call::TakeEach(0, JUST_LARGE),
        Call::Spare(JUST_LARGE),
    ],
    &[
        Call::Push(0, MOST),
        Call::GiveEach(0, MOST),
        Call::OperandOf(0, 65534, Value::Ref(4294901761)),
        Call::TakeEach(0, MOST),
        Call::Spare(MOST),
    ],
    // The top is duplicated, an int, a long and a reference.
    &[
        Call::Push(0, LARGE),
        Call::GiveEach(0, 1099),
        Call::Take(Value::Int(-2147482550)),
        Call::Give(Value::Int(-2147482550)),
        Call::Give(Value::Int(-2147482550)),
        Call::Give(Value::Long(-9223372036854775808)),
        Call::Take(Value::Long(-9223372036854775808)),
        Call::Give(Value::Long(-9223372036854775808)),
        Call::Give(Value::Long(-9223372036854775808)),
        Call::Give(Value::Ref(4294967295)),
        Call::Give(Value::Ref(4294967295)),
        Call::Spare(396),
        Call::Take(Value::Ref(4294967295)),
        Call::Take(Value::Ref(4294967295)),
        Call::Take(Value::Long(-9223372036854775808)),
        Call::Take(Value::Long(-9223372036854775808)),
        Call::Take(Value::Int(-2147482550)),
        Call::TakeEach(0, 1099),
    ],
    // Two are swapped, and the upper one is put below both.
    &[
        Call::Push(0, LARGE),
        Call::GiveEach(0, 1100),
        Call::Give(Value::Int(1)),
        Call::Give(Value::Ref(2)),
        Call::Take(Value::Ref(2)),
        Call::Take(Value::Int(1)),
        Call::Give(Value::Ref(2)),
        Call::Give(Value::Int(1)),
        Call::Give(Value::Ref(2)),
        Call::OperandOf(0, 1100, Value::Ref(2)),
        Call::OperandOf(0, 1101, Value::Int(1)),
        Call::OperandOf(0, 1102, Value::Ref(2)),
    ],
    // A long is popped, and another pushed in its place.
    &[
        Call::Push(0, LARGE),
        Call::GiveEach(0, 1200),
        Call::Give(Value::Long(1)),
        Call::Give(Value::Int(2)),
        Call::Give(Value::Long(3)),
        Call::Take(Value::Long(3)),
        Call::Give(Value::Long(4)),
        Call::Give(Value::Long(4294967295)),
        Call::Take(Value::Long(4294967295)),
        Call::Take(Value::Long(4)),
        Call::Take(Value::Int(2)),
        Call::Give(Value::Int(5)),
        Call::Take(Value::Int(5)),
        Call::Take(Value::Long(1)),
        Call::TakeEach(0, 1200),
    ],
    // One is left alone where a handler begins, and as many more have room as before.
    &[
        Call::Push(1, LARGE),
        Call::Set(0, Some(Value::Int(9))),
        Call::GiveEach(0, LARGE),
        Call::Unwind(Value::Ref(9)),
        Call::OperandOf(0, 0, Value::Ref(9)),
        Call::Spare(1499),
        Call::GiveEach(0, 1499),
        Call::TakeEach(0, 1499),
        Call::Take(Value::Ref(9)),
        Call::Local(0, Some(Value::Int(9))),
    ],
    // Each frame has its own.
    &[
        Call::Push(0, LARGE),
        Call::GiveEach(0, 1300),
        Call::Push(0, LARGE),
        Call::Spare(LARGE),
        Call::GiveEach(100, 1400),
        Call::OperandOf(0, 1299, Value::Int(-2147482349)),
        Call::OperandOf(1, 1299, Value::Long(-81985529216488295)),
        Call::TakeEach(100, 1400),
        Call::Pop,
        Call::TakeEach(0, 1300),
    ],
    // A frame is popped while it has operands.
    &[
        Call::Push(0, 2),
        Call::Give(Value::Int(1)),
        Call::Push(0, LARGE),
        Call::GiveEach(0, LARGE),
        Call::Pop,
        Call::Give(Value::Int(2)),
        Call::Take(Value::Int(2)),
        Call::Take(Value::Int(1)),
        Call::Depth(1),
    ],
];
