use crate::acted::Acted;

/// What was done at once of the next instruction of the top frame.
#[derive(Clone, Copy)]
pub enum Begun {
    /// All of it, and the frame is at the instruction that is next.
    Went,
    /// Nothing.
    Nothing,
    /// The instruction, but not what follows.
    Left(Acted),
}
