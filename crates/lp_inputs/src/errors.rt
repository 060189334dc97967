//! What the system says of a device that failed.
//!
//! The fault of a run says which side failed, and no more. So the program puts a [`Watched`] before each reader and writer of
//! std: it hands on each call, and keeps the error that comes, for the message.
ghost use Rattle.std.specs.Prelude.{◌≡◌, None};
ghost use Rattle.std.specs.Io.{ReadsAtMost};

use lp_cuts::windows::ReadAt;
use lp_endings::endings::Device;
use lp_places::opens::TRIES;
use lp_rebuild::DeviceFault;
use std::cell::Cell;
use std::fs::File;
use std::io::{self, ErrorKind, Read, Write};
use std::os::unix::fs::FileExt;

/// The error of a file that ends before the bytes that it was said to have.
pub fn shorter() -> io::Error {
    io::Error::from(ErrorKind::UnexpectedEof)
}

/// A reader or a writer, and the place for its last error.
#[derive(Drop)]
pub struct Watched<'a, 'n, D> {
    device: &'a Cell<Device<'n>>,
    inner: D,
}

impl<'a, 'n, D> Watched<'a, 'n, D> {
    /// A reader or a writer that hands on each call to another.
    pub fn new(device: &'a Cell<Device<'n>>, inner: D) -> Self
        ensures { result.inner ≡ inner }
    {
        Watched { device, inner }
    }

    // Keeps the error of an answer, if it is one. A call that a signal interrupts is tried again, so that is none.
    fn keep<T>(&self, answer: &io::Result<T>) {
        if let Err(error) = answer {
            if error.kind() == ErrorKind::Interrupted {
                return;
            }
            self.device.set(Device {
                error: Some(*error),
                ..self.device.get()
            });
        }
    }
}

impl<'a, 'n, R: Read> Read for Watched<'a, 'n, R> {
    ghost remaining = { λ d. R.remaining d.inner };

    fn read(&mut self, buf: &mut [u8]) -> io::Result<usize> {
        let answer = self.inner.read(buf);
        self.keep(&answer);
        answer
    }
}

impl<'a, 'n, W: Write> Write for Watched<'a, 'n, W> {
    ghost contents = { λ d. W.contents d.inner };

    fn write(&mut self, buf: &[u8]) -> io::Result<usize> {
        let answer = self.inner.write(buf);
        self.keep(&answer);
        answer
    }

    fn flush(&mut self) -> io::Result<()> {
        let answer = self.inner.flush();
        self.keep(&answer);
        answer
    }
}

// Reads at a place, and again as often as a signal interrupts that.
fn read_at_again(file: &File, buf: &mut [u8], place: u64) -> io::Result<usize>
    ensures bound { ReadsAtMost result buf.new }
{
    for _ in 0..TRIES {
        match file.read_at(buf, place) {
            Err(error) if error.kind() == ErrorKind::Interrupted => {}
            answer => return answer,
        }
    }
    Err(io::Error::from(ErrorKind::Interrupted))
}

/// A file that ends before a place has failed there.
impl<'a, 'n> ReadAt for Watched<'a, 'n, File> {
    ghost text = { λ _. None };

    fn read_at(&self, buf: &mut [u8], place: usize) -> Result<usize, DeviceFault> {
        let answer = match read_at_again(&self.inner, buf, place as u64) {
            Ok(0) if !buf.is_empty() => Err(shorter()),
            answer => answer,
        };
        self.keep(&answer);
        match answer {
            Ok(n) => Ok(n),
            Err(_) => Err(DeviceFault),
        }
    }
}
