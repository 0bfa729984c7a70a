use dj_names::{NativeId, Raised};

/// How the run goes on after a call.
#[derive(Clone, Copy, Debug)]
pub enum Invoked {
    /// In a frame of the method, which was pushed.
    Entered,
    /// The run ends, as there are 1,024 frames.
    TooDeep,
    /// By a native method, whose arguments are this many upper operands, the receiver the lowest. They stay.
    Native(NativeId, u16),
    /// With an exception of the instruction's own.
    Raise(Raised),
    /// The run ends, as the receiver or an argument isn't of the required class, or as there is no such method.
    Link,
}
