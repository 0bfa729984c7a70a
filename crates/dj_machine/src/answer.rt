/// What a run of at most a given number of steps answers.
#[derive(Clone, Copy, Debug, PartialEq, Eq)]
pub enum RunAnswer {
    /// The run has ended, after this many steps of this call.
    Ended { steps: u64 },
    /// The run goes on after all of the steps.
    Spent,
    /// There was no memory.
    Memory,
}
