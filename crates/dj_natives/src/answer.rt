ghost use Rattle.std.specs.Prelude.{◌≡◌, pos, Some, IfSome};
ghost use Rattle.dj_model.specs.trusted.Natives as model;
ghost use Rattle.dj_natives.specs.Answers.{answer_view};
ghost use Rattle.dj_natives.specs.declared.answer.Answer.TheVariants as answers;

use crate::amount::Amount;
use dj_names::{Raised, Units, Value};

/// What a call of a native method did.
#[derive(Clone, Copy, Debug, PartialEq, Eq)]
pub enum NativeAnswer {
    /// It returned without a value.
    Nothing,
    Gives(Value),
    Raise(Raised),
    /// The object that stops the run is to be thrown.
    Stop,
    /// An object of this size doesn't fit beside the used bytes.
    Full { used: u64, size: u64 },
    /// There was no memory.
    Memory,
}

/// What a native method answers, before anything of it is done.
#[derive(Debug, Drop)]
pub enum Answer {
    Returns(Option<Value>),
    Raises(Raised),
    // It makes a text, and returns it.
    MakesText(Units),
    // It makes a text, which becomes the first field of the object, and returns the object.
    KeepsText(u32, Units),
    // It makes an array of chars, and returns it.
    MakesChars(Units),
    // It sets the first field of the object to this reference.
    SetsField(u32, u32),
    // It sets the first two fields of the object to these references.
    SetsFields(u32, u32, u32),
    // It adds to a sum.
    Adds(Amount),
    // There was no memory.
    Memory,
}

/// It returns this number, which is small, such as the number of an object.
pub fn gives_int(n: u32) -> Answer
    ensures { IfSome (answer_view result) (λ a. a ≡ model.gives_int (pos n)) }
{
    match i32::try_from(n) {
        Ok(z) => Answer::Returns(Some(Value::Int(z))),
        Err(_) => Answer::Memory,
    }
}

/// It returns this reference.
pub fn gives_reference(r: u32) -> Answer
    ensures { answer_view result ≡ Some (model.gives_reference r) }
{
    Answer::Returns(Some(Value::Ref(r)))
}

/// It returns this truth value.
pub fn gives_truth(b: bool) -> Answer
    ensures { answer_view result ≡ Some (model.gives_truth b) }
{
    Answer::Returns(Some(Value::Int(i32::from(b))))
}

/// It returns this value.
pub fn given(value: Value) -> Option<Answer>
    ensures { result ≡ Some (answers.Returns (Some value)) }
{
    Some(Answer::Returns(Some(value)))
}
