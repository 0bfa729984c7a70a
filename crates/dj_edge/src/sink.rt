ghost use Rattle.std.specs.Prelude.{ℕ, ◌<◌, ◌≤◌, List, Option, length};
ghost use Rattle.dj_edge.specs.trusted.Calls.{Writes, WriteCounts};
ghost use Rattle.dj_edge.specs.Calls.{Puts};

use thiserror::Error;

/// Why bytes were not written.
#[derive(Clone, Copy, Debug, PartialEq, Eq, Error)]
pub enum SinkError {
    /// The sink failed.
    #[error("the bytes were not written")]
    Failed,
    /// There was no memory.
    #[error("out of memory")]
    Memory,
}

/// Where bytes go.
pub trait Sink {
    /// What was written, where that is known.
    ghost written: { Self → Option (List ℕ) };

    /// How many writes failed, up to 2^64 - 1. No write makes it less.
    ghost faults: { Self → ℕ };

    /// Writes the first of these bytes, at least one, and returns how many.
    fn write(&mut self, piece: &[u8]) -> Result<usize, SinkError>
        requires { 0 < length piece.now }
        ensures writes { Writes (written self.old) (written self.new) piece.now result }
        ensures never_falls { faults self.old ≤ faults self.new }
        ensures counts { WriteCounts (faults self.old) (faults self.new) result };
}

/// Writes all of the bytes. Where it fails, a prefix of them is written.
pub fn put_all<S: Sink>(sink: &mut S, bytes: &[u8]) -> Result<(), SinkError>
    ensures puts { Puts (S.written sink.old) (S.written sink.new) bytes.now result }
    ensures never_falls { S.faults sink.old ≤ S.faults sink.new }
    ensures counts { WriteCounts (S.faults sink.old) (S.faults sink.new) result }
{
    let mut rest = bytes;
    while !rest.is_empty() {
        let taken = sink.write(rest)?;
        rest = &rest[taken..];
    }
    Ok(())
}
