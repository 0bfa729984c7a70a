use crate::clock_host::ClockHost;
use crate::djvm::djvm;
use crate::notes::Notes;
use crate::out_sink::OutSink;
use crate::texts::{TIMES, class_file};
use dj_edge::{MemFiles, Order, paths_differ};
use dj_sandbox::PlainEngine;
use std::alloc::{AllocError, Global};
use std::cell::{Cell, RefCell};
use std::fmt::Display;
use std::io;
use std::io::ErrorKind;
use std::rc::Rc;
use std::rt::Clock;
use std::test::Fail;
use std::time::Duration;

/// Clocks that go on by this many nanoseconds whenever one of them is read.
#[derive(Drop)]
pub struct Rising {
    nanos: Cell<u64>,
    step: u64,
}

impl Rising {
    /// Clocks whose first reading is this one.
    pub fn new(start: u64, step: u64) -> Rising {
        Rising {
            nanos: Cell::new(start),
            step,
        }
    }

    fn read(&self) -> Duration {
        let nanos = self.nanos.get();
        self.nanos.set(nanos.saturating_add(self.step));
        Duration::from_nanos(nanos)
    }
}

impl Clock for Rising {
    fn monotonic(&self) -> io::Result<Duration> {
        Ok(self.read())
    }

    fn since_1970(&self) -> io::Result<Duration> {
        Ok(self.read())
    }
}

// A standard output that takes this many bytes at a write, and this many in all, and keeps them.
#[derive(Drop)]
struct Narrow {
    at_once: usize,
    most: usize,
    taken: RefCell<Vec<u8>>,
}

impl Print for Narrow {
    fn print<D: Display + Drop>(&self, _value: D) -> io::Result<()> {
        Err(io::Error::from(ErrorKind::Unsupported))
    }

    fn println<D: Display + Drop>(&self, _value: D) -> io::Result<()> {
        Err(io::Error::from(ErrorKind::Unsupported))
    }

    fn write_all(&self, _bytes: &[u8]) -> io::Result<()> {
        Err(io::Error::from(ErrorKind::Unsupported))
    }

    fn write_some(&self, bytes: &[u8]) -> io::Result<usize> {
        let Ok(mut taken) = self.taken.try_borrow_mut() else {
            return Err(io::Error::from(ErrorKind::ResourceBusy));
        };
        let room = self.most.saturating_sub(taken.len());
        let count = bytes.len().min(self.at_once).min(room);
        if count == 0 {
            return Err(io::Error::from(ErrorKind::StorageFull));
        }
        taken
            .extend_from_slice(&bytes[..count])
            .map_err(|_| io::Error::from(ErrorKind::OutOfMemory))?;
        Ok(count)
    }
}

impl Eprint for Narrow {
    fn eprint<D: Display + Drop>(&self, _value: D) -> io::Result<()> {
        Ok(())
    }

    fn eprintln<D: Display + Drop>(&self, _value: D) -> io::Result<()> {
        Ok(())
    }
}

fn held(alloc: Global) -> Result<Vec<(String, Vec<u8>)>, AllocError> {
    let mut held = Vec::new(alloc);
    let class = class_file(alloc, TIMES)?;
    held.push((String::from_str(alloc, "c/A.class")?, class))?;
    held.push((String::from_str(alloc, "in")?, Vec::new(alloc)))?;
    Ok(held)
}

fn words(alloc: Global) -> Result<Vec<String>, AllocError> {
    let mut words = Vec::new(alloc);
    for word in &["raw", "c", "A", "in"] {
        words.push(String::from_str(alloc, word)?)?;
    }
    Ok(words)
}

// The clocks' step, how many bytes the output takes at a write and in all, the status and what the output took.
type Run = (u64, usize, usize, u8, &'static [u8]);

const RUNS: [Run; 7] = [
    (7, 1, 99, 0, b"OK 1 07\nsteps 13\n"),
    (0, 1, 99, 0, b"OK 1 00\nsteps 13\n"),
    (255, 1, 99, 0, b"OK 1 ff\nsteps 13\n"),
    (7, 5, 99, 0, b"OK 1 07\nsteps 13\n"),
    (7, 99, 17, 0, b"OK 1 07\nsteps 13\n"),
    (7, 1, 16, 66, b"OK 1 07\nsteps 13"),
    (7, 1, 0, 66, b""),
];

fn are_same(some: &[u8], other: &[u8]) -> bool {
    some == other
}

// Whether the run under such clocks has this report, through the adapters that the program has.
fn is_reported(alloc: Global, run: &Run) -> Result<bool, AllocError> {
    let held = held(alloc)?;
    if !paths_differ(&held) {
        return Ok(false);
    }
    let clock = Rising::new(3, run.0);
    let output = Narrow {
        at_once: run.1,
        most: run.2,
        taken: RefCell::new(Vec::new(alloc)),
    };
    let notes = Rc::new(alloc, Notes::new(alloc, &output)).map_err(|_| AllocError)?;
    let mut files = MemFiles::new(alloc, held, Order::Given, Vec::new(alloc));
    let mut host = ClockHost::new((&clock, alloc));
    let mut sink = OutSink::new(&output, notes);
    let mut engine = PlainEngine::new(alloc);
    let words = words(alloc)?;
    let status = djvm(alloc, &words, &mut files, &mut host, &mut sink, &mut engine);
    match output.taken.try_borrow() {
        Ok(taken) => Ok(status == run.3 && are_same(taken.as_slice(), run.4)),
        Err(_) => Ok(false),
    }
}

// An output that takes one byte at a write gets them all, and a run is given the times of the clocks that it runs under.
#[test]
fn runs_through_the_adapters(rt: HostRuntime) -> Result<(), Fail> {
    for run in &RUNS {
        assert!(rt; is_reported(rt.alloc(), run)?);
    }
    Ok(())
}
