//! One write of a piece, and reading to the end within a bound, over the readers and writers of std.
ghost use Rattle.std.specs.Prelude.{◌≡◌, ◌≢◌, ◌↔◌, ◌+◌, ◌<◌, ◌≤◌, length};
ghost use Rattle.std.specs.IoError.{error_kind};
ghost use Rattle.dj_edge.specs.trusted.Calls.{Writes};
ghost use Rattle.dj_edge.specs.Streams.{ReadsMore, ReadsWithin, TakesAtMost};

use crate::files::ReadError;
use crate::sink::SinkError;
use std::alloc::Global;
use std::io;
use std::io::{ErrorKind, Read, Write};

/// Why a write failed, by the system's error.
fn sink_error(error: io::Error) -> SinkError
    ensures { (result ≡ SinkError.Memory) ↔ (error_kind error ≡ ErrorKind.OutOfMemory) }
{
    if error.kind() == ErrorKind::OutOfMemory {
        SinkError::Memory
    } else {
        SinkError::Failed
    }
}

/// Writes the first bytes of the piece, at least one, by one write. A write that takes none is a failure.
pub fn write_piece<W: Write>(writer: &mut W, piece: &[u8]) -> Result<usize, SinkError>
    requires { 0 < length piece.now }
    ensures { Writes (W.contents writer.old) (W.contents writer.new) piece.now result }
{
    match writer.write(piece) {
        Ok(0) => Err(SinkError::Failed),
        Ok(taken) => Ok(taken),
        Err(error) => Err(sink_error(error)),
    }
}

/// Why a read failed, by the system's error.
pub fn read_error(error: io::Error) -> ReadError
    ensures memory { (result ≡ ReadError.Memory) ↔ (error_kind error ≡ ErrorKind.OutOfMemory) }
    ensures failed { (result ≡ ReadError.Failed) ↔ (error_kind error ≢ ErrorKind.OutOfMemory) }
{
    if error.kind() == ErrorKind::OutOfMemory {
        ReadError::Memory
    } else {
        ReadError::Failed
    }
}

/// The most bytes that one read takes.
const CHUNK: usize = 8_192;

/// What one read found.
#[derive(Clone, Copy)]
pub enum ReadFound {
    /// There may be more.
    Some,
    /// The end.
    End,
}

/// One read of bytes, which are added to those that were read before, up to one more than `most` in all.
fn read_more<R: Read>(
    reader: &mut R,
    bytes: &mut Vec<u8>,
    most: u64,
) -> Result<ReadFound, ReadError>
    requires { length bytes.old.items ≤ most }
    ensures { ReadsMore (R.remaining reader.old) (R.remaining reader.new) bytes.old.items bytes.new.items most result }
{
    let mut chunk = [0; CHUNK];
    let room = most - bytes.len() as u64;
    let wanted = if room < CHUNK as u64 {
        room as usize + 1
    } else {
        CHUNK
    };
    match reader.read(&mut chunk[..wanted]) {
        Ok(0) => Ok(ReadFound::End),
        Ok(taken) => {
            bytes.extend_from_slice(&chunk[..taken])?;
            Ok(ReadFound::Some)
        }
        Err(error) if error.kind() == ErrorKind::Interrupted => Ok(ReadFound::Some),
        Err(error) => Err(read_error(error)),
    }
}

/// All bytes of the reader where they are at most `most`; else it is too long, which reading one byte more shows.
/// Room is made for `expected` bytes before the first read, so that a reader of as many bytes takes no more room.
pub fn read_bounded<R: Read>(
    alloc: Global,
    reader: &mut R,
    most: u64,
    expected: u64,
) -> Result<Vec<u8>, ReadError>
    ensures reads { ReadsWithin (λ bytes. bytes.items) (R.remaining reader.old) most result }
    ensures takes { TakesAtMost (R.remaining reader.old) (R.remaining reader.new) (most + 1) }
{
    let mut bytes = Vec::with_capacity(alloc, expected.min(most) as usize)?;
    for _ in 0..u64::MAX {
        match read_more(reader, &mut bytes, most)? {
            ReadFound::Some => {
                if bytes.len() as u64 > most {
                    return Err(ReadError::TooLong);
                }
            }
            ReadFound::End => {
                bytes.shrink_to_fit();
                return Ok(bytes);
            }
        }
    }
    Err(ReadError::Failed)
}
