use dj_names::{Raised, Value};

/// How the run goes on after an instruction on values.
#[derive(Clone, Copy)]
pub enum Way {
    /// At the next instruction.
    Next,
    /// At the instruction of this number.
    To(u64),
    /// With an exception of the instruction's own.
    Raise(Raised),
    /// In the caller, with what the method returns.
    Back(Option<Value>),
}

/// How the run goes on after an instruction on arrays, or how it ends.
#[derive(Clone, Copy)]
pub enum Flow {
    Goes(Way),
    /// A reference is of a class that its use doesn't allow.
    Link,
    /// An object of this size doesn't fit beside the used bytes.
    HeapFull { used: u64, size: u64 },
}
