/// Whether static fields were given their constants.
#[derive(Clone, Copy, Debug)]
pub enum Filled {
    /// They have their constants.
    Done,
    /// The object of a text doesn't fit.
    HeapFull { used: u64, size: u64 },
}
