use dj_names::Outcome;

/// How a run goes on after an instruction.
#[derive(Debug, Drop)]
pub enum Settled {
    /// With the top frame's instruction.
    Went,
    /// The run has ended.
    Ended(Outcome),
}
