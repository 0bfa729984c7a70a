ghost use Rattle.std.specs.Prelude.{◌≡◌, ◌<◌, ◌≤◌, None, length};
ghost use Rattle.dj_edge.specs.trusted.Calls.{Writes, WriteCounts};
ghost use Rattle.dj_edge.specs.Calls.{CountsWrite};

use crate::notes::Notes;
use dj_edge::{Sink, SinkError, write_piece};
use std::io;
use std::io::Write;
use std::rc::Rc;

/// Standard output. Why a write fails is written to standard error.
#[derive(Drop)]
struct NotedOutput<'a, R: Print + Eprint + Drop> {
    rt: &'a R,
    notes: &'a Notes<R>,
}

impl<R: Print + Eprint + Drop> Write for NotedOutput<'_, R> {
    fn write(&mut self, buf: &[u8]) -> io::Result<usize> {
        let written = self.rt.write_some(buf);
        match &written {
            Ok(taken) => self.notes.see_written(buf.get(..*taken).unwrap_or(buf)),
            Err(error) => self.notes.say_output(error),
        }
        written
    }

    fn flush(&mut self) -> io::Result<()> {
        Ok(())
    }
}

/// Standard output, as a sink. What was written to it isn't known.
#[derive(Drop)]
pub struct OutSink<R: Print + Eprint + Drop> {
    rt: R,
    notes: Rc<Notes<R>>,
    faults: u64,
}

impl<R: Print + Eprint + Drop> OutSink<R> {
    /// Standard output, to which no write has failed.
    pub fn new(rt: R, notes: Rc<Notes<R>>) -> OutSink<R>
        ensures { ⟦<OutSink<R> as Sink>⟧.faults result ≡ 0 }
    {
        OutSink {
            rt,
            notes,
            faults: 0,
        }
    }
}

impl<R: Print + Eprint + Drop> Sink for OutSink<R> {
    ghost written = { λ _. None };

    ghost faults = { λ sink. sink.faults };

    fn write(&mut self, piece: &[u8]) -> Result<usize, SinkError>
        requires { 0 < length piece.now }
        ensures writes { Writes (⟦<OutSink<R> as Sink>⟧.written self.old) (⟦<OutSink<R> as Sink>⟧.written self.new) piece.now result }
        ensures never_falls { ⟦<OutSink<R> as Sink>⟧.faults self.old ≤ ⟦<OutSink<R> as Sink>⟧.faults self.new }
        ensures counts { WriteCounts (⟦<OutSink<R> as Sink>⟧.faults self.old) (⟦<OutSink<R> as Sink>⟧.faults self.new) result }
        ensures counts_one { CountsWrite (⟦<OutSink<R> as Sink>⟧.faults self.old) (⟦<OutSink<R> as Sink>⟧.faults self.new) result }
    {
        let mut output = NotedOutput {
            rt: &self.rt,
            notes: &self.notes,
        };
        let written = write_piece(&mut output, piece);
        if matches!(written, Err(SinkError::Failed)) {
            self.faults = self.faults.saturating_add(1);
        }
        written
    }
}

#[cfg(test)]
mod tests {
    use super::*;
    use std::test::Fail;

    #[test]
    fn real_output(rt: HostRuntime) -> Result<(), Fail> {
        let notes = Rc::new(rt.alloc(), Notes::new(rt.alloc(), rt))
            .ok()
            .ok_or("memory")?;
        let mut sink = OutSink::new(rt, notes);
        let taken = sink.write(b"out\n").ok().ok_or("a write")?;
        assert!(rt; taken >= 1 && taken <= 4);
        assert_eq!(rt; sink.faults, 0);
        Ok(())
    }
}
