//! A reader and a writer of std that do at each call what a list of steps says, and a clock.
//!
//! A device moves at most as many bytes at a call as its next step says, and fails where that is `usize::MAX`. The last step comes again and
//! again; without a step it moves all. It tells how many bytes it moved, how many calls it had, and how many of them were flushes.

use lp_relay::Clock;
use std::io::{self, Read, Write};

// What a device does, and what it tells.
#[derive(Drop)]
struct Steps<'a> {
    left: &'a [usize],
    told: &'a mut [u64; 3],
}

impl Steps<'_> {
    // Counts a call. How many bytes it moves at most.
    fn next(&mut self) -> io::Result<usize> {
        self.told[1] = self.told[1].saturating_add(1);
        let [step, left @ ..] = self.left else {
            return Ok(usize::MAX);
        };
        if !left.is_empty() {
            self.left = left;
        }
        if *step == usize::MAX {
            return Err(io::Error::from(io::ErrorKind::Other));
        }
        Ok(*step)
    }
}

/// A reader of bytes.
#[derive(Drop)]
pub struct Stepped<'a> {
    left: &'a [u8],
    steps: Steps<'a>,
}

impl<'a> Stepped<'a> {
    /// A reader of these bytes by these steps.
    pub fn new(left: &'a [u8], steps: &'a [usize], told: &'a mut [u64; 3]) -> Self {
        Stepped {
            left,
            steps: Steps { left: steps, told },
        }
    }
}

impl<'a> Read for Stepped<'a> {
    fn read(&mut self, buf: &mut [u8]) -> io::Result<usize> {
        let n = self.steps.next()?.min(buf.len()).min(self.left.len());
        let left: &'a [u8] = self.left;
        buf[..n].copy_from_slice(&left[..n]);
        self.left = &left[n..];
        self.steps.told[0] = self.steps.told[0].saturating_add(n as u64);
        Ok(n)
    }
}

/// A writer that fills a buffer.
#[derive(Drop)]
pub struct SteppedRoom<'a> {
    bytes: &'a mut [u8],
    steps: Steps<'a>,
}

impl<'a> SteppedRoom<'a> {
    /// A writer that fills this buffer by these steps.
    pub fn new(bytes: &'a mut [u8], steps: &'a [usize], told: &'a mut [u64; 3]) -> Self {
        SteppedRoom {
            bytes,
            steps: Steps { left: steps, told },
        }
    }
}

impl Write for SteppedRoom<'_> {
    fn write(&mut self, buf: &[u8]) -> io::Result<usize> {
        let filled = self.steps.told[0] as usize;
        let room = self.bytes.len().saturating_sub(filled);
        let n = self.steps.next()?.min(buf.len()).min(room);
        if n > 0 {
            self.bytes[filled..filled + n].copy_from_slice(&buf[..n]);
            self.steps.told[0] = (filled + n) as u64;
        }
        Ok(n)
    }

    fn flush(&mut self) -> io::Result<()> {
        self.steps.told[2] = self.steps.told[2].saturating_add(1);
        self.steps.next()?;
        Ok(())
    }
}

/// A clock that tells this first, and one more at each time.
#[derive(Drop)]
pub struct Ticks {
    pub next: i64,
}

impl Clock for Ticks {
    ghost use Rattle.std.specs.Prelude.{None};

    ghost told = { λ _. None };

    fn now(&mut self) -> i64 {
        let time = self.next;
        self.next = time.saturating_add(1);
        time
    }
}
