//! Calls of readers and writers that are tried again if a signal interrupts them.
//!
//! If a process is stopped and continued, a signal can interrupt its read or write before any byte is moved. Such an interruption
//! is not a fault of the device.
ghost use Rattle.std.specs.Io.{ReadsAtMost, WritesAtMost};
ghost use Rattle.std.specs.Io.KnownBytes.{Keeps, ReadConsumes, WriteAppends};

use std::io::{self, ErrorKind, Read, Write};

// How often a call is tried. No process gets so many signals.
const TRIES: u64 = u64::MAX;

/// Reads from `reader`, and tries again each time a signal interrupts the read.
///
/// # Errors
///
/// Returns the error of the reader.
pub(crate) fn read_again<R: Read>(reader: &mut R, buf: &mut [u8]) -> io::Result<usize>
    ensures bound { ReadsAtMost result buf.new }
    ensures bytes { ReadConsumes (R.remaining reader.old) (R.remaining reader.new) result buf.new }
{
    'tries: for _ in 0..TRIES {
        match reader.read(buf) {
            Err(error) if error.kind() == ErrorKind::Interrupted => {}
            answer => return answer,
        }
    }
    Err(io::Error::from(ErrorKind::Interrupted))
}

/// Writes to `writer`, and tries again each time a signal interrupts the write.
///
/// # Errors
///
/// Returns the error of the writer.
pub(crate) fn write_again<W: Write>(writer: &mut W, buf: &[u8]) -> io::Result<usize>
    ensures bound { WritesAtMost result buf.now }
    ensures bytes { WriteAppends (W.contents writer.old) (W.contents writer.new) result buf.now }
{
    'tries: for _ in 0..TRIES {
        match writer.write(buf) {
            Err(error) if error.kind() == ErrorKind::Interrupted => {}
            answer => return answer,
        }
    }
    Err(io::Error::from(ErrorKind::Interrupted))
}

/// Flushes `writer`, and tries again each time a signal interrupts the flush.
///
/// # Errors
///
/// Returns the error of the writer.
pub(crate) fn flush_again<W: Write>(writer: &mut W) -> io::Result<()>
    ensures bytes { Keeps (W.contents writer.old) (W.contents writer.new) }
{
    'tries: for _ in 0..TRIES {
        match writer.flush() {
            Err(error) if error.kind() == ErrorKind::Interrupted => {}
            answer => return answer,
        }
    }
    Err(io::Error::from(ErrorKind::Interrupted))
}
