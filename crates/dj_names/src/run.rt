use crate::lists::{Bytes, Name, Units};

/// A value of the machine (JVMS 2.6). A boolean, byte, char or short is an int.
#[derive(Clone, Copy, Debug, PartialEq, Eq)]
pub enum Value {
    Int(i32),
    Long(i64),
    /// The number of an object, or 0 for null.
    Ref(u32),
}

/// What the elements of an array are (JVMS 2.4 and table 6.5.newarray-A).
#[derive(Clone, Copy, Debug, PartialEq, Eq)]
pub enum Element {
    Boolean,
    Byte,
    Char,
    Short,
    Int,
    Long,
    Ref,
}

/// An exception that an instruction or a native method raises itself, by its class of `java/lang`.
#[derive(Clone, Copy, Debug, PartialEq, Eq)]
pub enum Raised {
    Arithmetic,
    ArrayIndexOutOfBounds,
    ArrayStore,
    ClassCast,
    NegativeArraySize,
    NullPointer,
    StringIndexOutOfBounds,
}

/// What is charged: bytes that are allocated, invocations, jumps, and exceptions that are thrown or caught.
#[derive(Clone, Copy, Debug, PartialEq, Eq)]
pub enum Charge {
    Alloc,
    Invoke,
    Jump,
    Throw,
}

/// What a run was charged.
#[derive(Clone, Copy, Debug, PartialEq, Eq)]
pub struct Costs {
    /// Bytes.
    pub alloc: u64,
    pub invoke: u64,
    pub jump: u64,
    pub throw: u64,
}

/// The most that a run may be charged. A charge that passes one of these stops the run.
#[derive(Clone, Copy, Debug, PartialEq, Eq)]
pub struct Thresholds {
    /// Bytes.
    pub alloc: u64,
    pub invoke: u64,
    pub jump: u64,
    pub throw: u64,
}

/// The message of an exception.
#[derive(Debug, Drop)]
pub enum Message {
    Null,
    Text(Units),
}

/// How a run ends.
#[derive(Debug, Drop)]
pub enum Outcome {
    /// The entry returned null.
    OkNull,
    /// The entry returned an array of these bytes.
    OkBytes(Bytes),
    /// An exception of this class left the entry.
    Threw(Name, Message),
    /// An exception left the initialiser of the first class; the second is the exception's.
    Init(Name, Name, Message),
    /// A reference was of a class that its use doesn't allow, or no code was found for a call.
    Link,
    /// There were as many frames as there may be, and one more was needed.
    TooDeep,
    /// A charge passed its threshold.
    Stopped(Charge),
    /// An object of this size didn't fit beside the used bytes.
    HeapFull { used: u64, size: u64 },
    /// The run had not ended after this many steps.
    OutOfSteps { steps: u64 },
}
