//! How far a relay is, as one line on a terminal.
//!
//! A [`Meter`] counts what the devices of a relay move. They hand on each call to a device of their own, so that what a
//! relay promises of its bytes and failures is promised of theirs.
ghost use Rattle.std.specs.Prelude.{◌≡◌, ◌≤◌, ◌<◌, ◌+◌, ◌-◌, ◌*◌, ◌/◌, ◌^◌, length, min};

use lp_rebuild::{DeviceFault, Sink, Source};
use lp_scan::newlines::newlines_in;
use std::cell::Cell;
use std::time::{Clock, Duration, Instant};

// Back to the start of the line, which is then cleared.
const CLEAR: &str = "\r\x1b[K";

/// What a relay moved so far, and the line that shows it.
#[derive(Drop)]
pub struct Meter<'a, R> {
    rt: &'a R,
    started: Option<Instant>,
    /// How many bytes there are to read, if that is known.
    total: Option<u64>,
    /// How many whole seconds had passed when the line was shown last.
    shown_at: Cell<u64>,
    /// Whether the line is on the terminal.
    is_shown: Cell<bool>,
    bytes: Cell<u64>,
    lines: Cell<u64>,
    faults: Cell<u64>,
}

impl<'a, R: Clock + Eprint> Meter<'a, R> {
    /// A meter that starts now, of so many bytes, if that is known. If the clock cannot be read it shows nothing.
    pub fn new(rt: &'a R, total: Option<u64>) -> Self {
        Meter {
            rt,
            started: Instant::now(rt).ok(),
            total,
            shown_at: Cell::new(0),
            is_shown: Cell::new(false),
            bytes: Cell::new(0),
            lines: Cell::new(0),
            faults: Cell::new(0),
        }
    }

    /// Clears the line, if it is on the terminal.
    pub fn clear(&self) {
        if self.is_shown.replace(false) {
            let _ = eprint!(self.rt; "{CLEAR}");
        }
    }

    /// Shows the line a last time, and leaves it on the terminal.
    pub fn finish(&self) {
        if let Some(elapsed) = self.elapsed() {
            self.show(elapsed);
            self.is_shown.set(false);
            let _ = eprint!(self.rt; "\n");
        }
    }

    // The time since it started.
    fn elapsed(&self) -> Option<Duration> {
        self.started?.elapsed(self.rt).ok()
    }

    // Counts bytes that were read, and shows the line if a second has passed since it was shown last.
    fn on_read(&self, n: usize) {
        add(&self.bytes, n);
        let Some(elapsed) = self.elapsed() else {
            return;
        };
        if self.shown_at.get() < elapsed.as_secs() {
            self.shown_at.set(elapsed.as_secs());
            self.show(elapsed);
        }
    }

    // Writes the line over the one that was there.
    fn show(&self, elapsed: Duration) {
        let bytes = self.bytes.get();
        let lines = self.lines.get();
        let faults = self.faults.get();
        let rate = tenths_of_megabytes_a_second(bytes, elapsed);
        let whole = rate / 10;
        let tenth = rate % 10;
        self.is_shown.set(true);
        let _ = match self.total {
            Some(total) if total > 0 => {
                let percent = percent_of(bytes, total);
                eprint!(self.rt;
                    "{CLEAR}{bytes} bytes read, {percent} %, {lines} lines written, faults: {faults}, {whole}.{tenth} MB/s"
                )
            }
            _ => eprint!(self.rt;
                "{CLEAR}{bytes} bytes read, {lines} lines written, faults: {faults}, {whole}.{tenth} MB/s"
            ),
        };
    }
}

// Tenths of megabytes, of a million bytes each, in a second of the time that has passed.
fn tenths_of_megabytes_a_second(bytes: u64, elapsed: Duration) -> u64 {
    let milliseconds = elapsed
        .as_secs()
        .saturating_mul(1000)
        .saturating_add(u64::from(elapsed.subsec_millis()));
    bytes / milliseconds.saturating_mul(100).max(1)
}

// How many hundredths of all bytes so many bytes are, and 100 if they are more, as of a file that grows.
fn percent_of(bytes: u64, total: u64) -> u64
    requires { 0 < total }
    ensures { result ≡ min (bytes * 100 / total) 100 }
{
    let percent = u128::from(bytes) * 100 / u128::from(total);
    percent.min(100) as u64
}

// So many and more, and the greatest number if no `u64` holds that.
fn total(count: u64, more: usize) -> u64
    ensures { result ≡ min (count + more) (2 ^ 64 - 1) }
{
    count.saturating_add(more as u64)
}

// Counts more of them.
fn add(count: &Cell<u64>, more: usize) {
    count.set(total(count.get(), more));
}

/// A source that shows on a meter, if there is one, what is read of another.
#[derive(Drop)]
pub struct MeteredSource<'a, R, S> {
    meter: Option<&'a Meter<'a, R>>,
    inner: S,
}

impl<'a, R: Clock + Eprint, S: Source> MeteredSource<'a, R, S> {
    /// A source that hands on the reads of another.
    pub fn new(meter: Option<&'a Meter<'a, R>>, inner: S) -> Self
        ensures { result.inner ≡ inner }
    {
        MeteredSource { meter, inner }
    }
}

impl<'a, R: Clock + Eprint, S: Source> Source for MeteredSource<'a, R, S> {
    ghost bytes = { λ s. S.bytes s.inner };

    ghost failures = { λ s. S.failures s.inner };

    fn read(&mut self, buf: &mut [u8]) -> Result<usize, DeviceFault> {
        let answer = self.inner.read(buf);
        if let (Some(meter), Ok(n)) = (self.meter, answer) {
            meter.on_read(n);
        }
        answer
    }
}

/// What the lines of a sink are.
#[derive(Clone, Copy, PartialEq, Eq)]
pub enum Counted {
    /// Lines that were written again.
    Lines,
    /// Fault lines.
    Faults,
    /// Lines that go nowhere, which are not counted.
    Nothing,
}

/// A sink that shows on a meter, if there is one, how many lines are written to another.
#[derive(Drop)]
pub struct MeteredSink<'a, R, S> {
    meter: Option<&'a Meter<'a, R>>,
    counted: Counted,
    /// Whether it writes to the terminal that shows the line, which is then cleared before each write.
    is_on_terminal: bool,
    inner: S,
}

impl<'a, R: Clock + Eprint, S: Sink> MeteredSink<'a, R, S> {
    /// A sink that hands on the writes to another.
    pub fn new(
        meter: Option<&'a Meter<'a, R>>,
        counted: Counted,
        is_on_terminal: bool,
        inner: S,
    ) -> Self
        ensures { result.inner ≡ inner }
    {
        MeteredSink {
            meter,
            counted,
            is_on_terminal,
            inner,
        }
    }
}

impl<'a, R: Clock + Eprint, S: Sink> Sink for MeteredSink<'a, R, S> {
    ghost bytes = { λ s. S.bytes s.inner };

    ghost failures = { λ s. S.failures s.inner };

    ghost is_flushed = { λ s. S.is_flushed s.inner };

    fn write(&mut self, buf: &[u8]) -> Result<usize, DeviceFault> {
        let Some(meter) = self.meter else {
            return self.inner.write(buf);
        };
        if self.is_on_terminal {
            meter.clear();
        }
        let answer = self.inner.write(buf);
        if let Ok(n) = answer {
            let lines = newlines_in(&buf[..n]);
            match self.counted {
                Counted::Lines => add(&meter.lines, lines),
                Counted::Faults => add(&meter.faults, lines),
                Counted::Nothing => {}
            }
        }
        answer
    }

    fn flush(&mut self) -> Result<(), DeviceFault> {
        self.inner.flush()
    }
}
