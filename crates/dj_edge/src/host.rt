ghost use Rattle.std.specs.Prelude.{List};
ghost use Rattle.dj_edge.specs.declared.host.HostAnswer.{HostAnswer};
ghost use Rattle.dj_edge.specs.declared.host.HostAnswer.TheVariants.{Word, Nanos, Millis};

use thiserror::Error;

/// What a host answered.
#[derive(Clone, Copy, Debug, PartialEq, Eq)]
pub enum HostAnswer {
    /// A word for an identity hash.
    Word(i32),
    /// A time in nanoseconds, from a start of the host's own.
    Nanos(i64),
    /// A time in milliseconds since the start of 1970.
    Millis(i64),
}

/// Why a host gave no answer.
#[derive(Clone, Copy, Debug, PartialEq, Eq, Error)]
pub enum HostError {
    /// There was no memory.
    #[error("out of memory")]
    Memory,
}

/// What differs from one machine to another, and from run to run.
pub trait Host {
    ghost use Rattle.dj_edge.specs.trusted.Calls.{Gives};

    /// The answers so far.
    ghost given: { Self → List HostAnswer };

    /// A word for an identity hash.
    fn hash_word(&mut self) -> Result<i32, HostError>
        ensures { Gives Word (given self.old) (given self.new) result };

    /// A time in nanoseconds.
    fn nanos(&mut self) -> Result<i64, HostError>
        ensures { Gives Nanos (given self.old) (given self.new) result };

    /// A time in milliseconds.
    fn millis(&mut self) -> Result<i64, HostError>
        ensures { Gives Millis (given self.old) (given self.new) result };
}
