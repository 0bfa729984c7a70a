use dj_edge::{ReadError, SinkError, read_bounded, write_piece};
use std::alloc::{AllocError, Global};
use std::io;
use std::io::{ErrorKind, Read, Write};
use std::test::Fail;

// A reader that gives three bytes at most at a read, and of which one read fails.
#[derive(Drop)]
struct Pieces<'a> {
    left: &'a [u8],
    reads: u32,
    failing: u32,
    kind: ErrorKind,
}

impl Read for Pieces<'_> {
    fn read(&mut self, buf: &mut [u8]) -> io::Result<usize> {
        let number = self.reads;
        self.reads = self.reads.saturating_add(1);
        if number == self.failing {
            return Err(io::Error::from(self.kind));
        }
        let taken = buf.len().min(self.left.len()).min(3);
        buf[..taken].copy_from_slice(&self.left[..taken]);
        self.left = &self.left[taken..];
        Ok(taken)
    }
}

// What was read, and then how many bytes were left.
fn reading(
    alloc: Global,
    most: u64,
    expected: u64,
    failing: u32,
    kind: ErrorKind,
) -> Result<String, AllocError> {
    let mut reader = Pieces {
        left: b"abcdefghijk",
        reads: 0,
        failing,
        kind,
    };
    let read = read_bounded(alloc, &mut reader, most, expected);
    let left = reader.left.len();
    match &read {
        Ok(bytes) => format!(in alloc; "{:?} {left}", bytes.as_slice()),
        Err(ReadError::TooLong) => format!(in alloc; "too long {left}"),
        Err(ReadError::Memory) => format!(in alloc; "memory {left}"),
        Err(ReadError::Failed) => format!(in alloc; "failed {left}"),
        Err(ReadError::Absent) => format!(in alloc; "absent {left}"),
    }
}

const ALL: &str = "[97, 98, 99, 100, 101, 102, 103, 104, 105, 106, 107] 0";

#[test]
fn reads_all_or_fails(rt: HostRuntime) -> Result<(), Fail> {
    let rows = [
        (11, 0, 99, ErrorKind::Other, ALL),
        (11, 5, 99, ErrorKind::Other, ALL),
        (12, 1_000, 99, ErrorKind::Other, ALL),
        (10, 11, 99, ErrorKind::Other, "too long 0"),
        (4, 11, 99, ErrorKind::Other, "too long 6"),
        (0, 11, 99, ErrorKind::Other, "too long 10"),
        (11, 11, 0, ErrorKind::PermissionDenied, "failed 11"),
        (11, 11, 2, ErrorKind::Other, "failed 5"),
        (11, 11, 4, ErrorKind::Other, "failed 0"),
        (11, 11, 2, ErrorKind::OutOfMemory, "memory 5"),
        (11, 11, 2, ErrorKind::Interrupted, ALL),
    ];
    for (most, expected, failing, kind, wanted) in rows {
        let read = reading(rt.alloc(), most, expected, failing, kind)?;
        assert_eq!(rt; read.as_str(), wanted);
    }
    Ok(())
}

// A writer that takes at most this many bytes at a write, or fails.
#[derive(Drop)]
struct Takes(Result<usize, ErrorKind>);

impl Write for Takes {
    fn write(&mut self, buf: &[u8]) -> io::Result<usize> {
        match self.0 {
            Ok(most) => Ok(buf.len().min(most)),
            Err(kind) => Err(io::Error::from(kind)),
        }
    }

    fn flush(&mut self) -> io::Result<()> {
        Ok(())
    }
}

#[test]
fn writes_some_or_fails(rt: HostRuntime) -> Result<(), Fail> {
    let rows = [
        (Ok(2), Ok(2)),
        (Ok(9), Ok(4)),
        (Ok(0), Err(SinkError::Failed)),
        (Err(ErrorKind::BrokenPipe), Err(SinkError::Failed)),
        (Err(ErrorKind::StorageFull), Err(SinkError::Failed)),
        (Err(ErrorKind::OutOfMemory), Err(SinkError::Memory)),
    ];
    for (takes, wanted) in rows {
        let mut writer = Takes(takes);
        let written = write_piece(&mut writer, b"four");
        assert!(rt; written == wanted);
    }
    Ok(())
}
