use dj_names::{Base, Element, Kind, Value};
use dj_ops::Pairs;

/// What takes one slot, or two.
#[derive(Clone, Copy)]
pub enum Slots {
    One,
    Two,
}

/// What is done to the upper operands alone.
#[derive(Clone, Copy)]
pub enum Movement {
    /// They are dropped.
    Drop(Slots),
    /// They are pushed once more.
    Double(Slots),
    /// Copies of the upper ones are put below those under them.
    Under(Slots, Slots),
    /// The upper two change places.
    Swap,
}

/// What is computed from two numbers of one kind.
#[derive(Clone, Copy)]
pub enum Operation {
    Add,
    Subtract,
    Multiply,
    Divide,
    Remainder,
    And,
    Or,
    Xor,
}

/// How a number is shifted.
#[derive(Clone, Copy)]
pub enum Shift {
    Left,
    Right,
    RightUnsigned,
}

/// What is computed from two numbers.
#[derive(Clone, Copy)]
pub enum BinaryOperation {
    Ints(Operation),
    Longs(Operation),
    ShiftInt(Shift),
    /// By an int.
    ShiftLong(Shift),
    CompareLongs,
}

/// What is computed from one number.
#[derive(Clone, Copy)]
pub enum UnaryOperation {
    NegateInt,
    NegateLong,
    IntToLong,
    LongToInt,
    IntToByte,
    IntToChar,
    IntToShort,
}

/// How two numbers compare.
#[derive(Clone, Copy)]
pub enum Condition {
    Equal,
    NotEqual,
    Less,
    GreaterOrEqual,
    Greater,
    LessOrEqual,
}

/// What a conditional jump asks.
#[derive(Clone, Copy)]
pub enum Test {
    /// Of an int, how it compares with zero.
    WithZero(Condition),
    /// Of two ints, how the lower one compares with the top one.
    OfInts(Condition),
    /// Of two references, whether they are equal, or whether they differ.
    OfReferences(bool),
    /// Of a reference, whether it is null, or whether it isn't.
    OfNull(bool),
}

/// Which arrays an instruction loads from or stores in, by their elements.
#[derive(Clone, Copy)]
pub enum Access {
    /// Bytes and booleans.
    Bytes,
    Chars,
    Shorts,
    Ints,
    Longs,
    References,
}

/// What an instruction does that names no constant.
#[derive(Clone, Copy)]
pub enum PlainAction<'a> {
    Nop,
    /// A constant that is no text.
    Push(Value),
    /// A local variable, of the kind and in the slot.
    Load(Kind, u16),
    Store(Kind, u16),
    Increment(u16, i16),
    LoadElement(Access),
    StoreElement(Access),
    Move(Movement),
    Compute(BinaryOperation),
    Convert(UnaryOperation),
    Branch(Test, u64),
    Goto(u64),
    /// A jump by a table from low on.
    Table {
        default: u64,
        low: i32,
        targets: &'a [i64],
    },
    /// A jump by the first match.
    Lookup {
        default: u64,
        pairs: &'a Pairs,
    },
    Return(Option<Kind>),
    /// An array of this base type, with such elements.
    NewArray(Base, Element),
    ArrayLength,
    Throw,
    /// monitorenter and monitorexit.
    Monitor,
}
