ghost use Rattle.std.specs.Prelude.{◌≡◌, true, is_some};
ghost use Rattle.dj_asm_tokens.specs.trusted.Words.{string_units};

/// A word, by its bytes.
#[derive(Clone, Copy)]
pub struct Word<'t> {
    pub bytes: &'t [u8],
}

/// A string, by the bytes of its line from after its opening quote on.
#[derive(Clone, Copy)]
pub struct Quoted<'t> {
    pub bytes: &'t [u8],
    pub ghost closed: { is_some (string_units 0 bytes.now) ≡ true },
}

/// What a line has.
#[derive(Clone, Copy)]
pub enum Token<'t> {
    /// A word.
    Word(Word<'t>),
    /// A string.
    Quoted(Quoted<'t>),
    /// A word, string or comment that no text has.
    Bad,
    /// The end of a line that has words.
    LineEnd,
}

/// A token, and the line and column at which it begins. Both count from 1.
#[derive(Clone, Copy)]
pub struct Placed<'t> {
    pub line: u32,
    pub column: u32,
    pub token: Token<'t>,
}
