ghost use Rattle.std.specs.Prelude.{◌≤◌};

use crate::sink::{Sink, SinkError};
use std::alloc::Global;

/// A sink into memory, with room for this many bytes.
#[derive(Drop)]
pub struct MemSink {
    piece: u32,
    room: u64,
    bytes: Vec<u8>,
    faults: u64,
    ghost takes_some: { 1 ≤ piece },
}

impl MemSink {
    ghost use Rattle.std.specs.Prelude.{◌≡◌, ◌≤◌, [], Some};
    ghost use Rattle.dj_edge.specs.Sinks.{piece_of, room_of};

    /// An empty sink that takes at most `piece` bytes at a write, and at most `room` in all.
    pub fn new(alloc: Global, piece: u32, room: u64) -> MemSink
        requires { 1 ≤ piece }
        ensures piece { piece_of result ≡ piece }
        ensures room { room_of result ≡ room }
        ensures written { ⟦<MemSink as Sink>⟧.written result ≡ Some [] }
        ensures no_faults { ⟦<MemSink as Sink>⟧.faults result ≡ 0 }
    {
        MemSink {
            piece,
            room,
            bytes: Vec::new(alloc),
            faults: 0,
        }
    }

    /// What was written.
    pub fn bytes(&self) -> &[u8]
        ensures { ⟦<MemSink as Sink>⟧.written self.now ≡ Some result.now }
    {
        &self.bytes
    }
}

impl Sink for MemSink {
    ghost use Rattle.std.specs.Prelude.{◌≡◌, ◌<◌, ◌≤◌, ℕ, List, Option, Some, length};
    ghost use Rattle.dj_edge.specs.trusted.Calls.{Writes, WriteCounts};
    ghost use Rattle.dj_edge.specs.Calls.{CountsWrite};
    ghost use Rattle.dj_edge.specs.Sinks.{piece_of, bytes_of, failed_writes, Takes};

    ghost written = { λ m. Some (bytes_of m) };

    ghost faults = { failed_writes };

    fn write(&mut self, piece: &[u8]) -> Result<usize, SinkError>
        requires { 0 < length piece.now }
        ensures writes { Writes (Some (bytes_of self.old)) (Some (bytes_of self.new)) piece.now result }
        ensures never_falls { failed_writes self.old ≤ failed_writes self.new }
        ensures counts { WriteCounts (failed_writes self.old) (failed_writes self.new) result }
        ensures counts_one { CountsWrite (failed_writes self.old) (failed_writes self.new) result }
        ensures piece { piece_of self.new ≡ piece_of self.old }
        ensures takes { Takes self.old self.new (length piece.now) result }
    {
        if self.room == 0 {
            self.faults = self.faults.saturating_add(1);
            return Err(SinkError::Failed);
        }
        let taken = self.room.min(piece.len() as u64).min(u64::from(self.piece)) as usize;
        let Ok(()) = self.bytes.extend_from_slice(&piece[..taken]) else {
            return Err(SinkError::Memory);
        };
        self.room -= taken as u64;
        Ok(taken)
    }
}
