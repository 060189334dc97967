//! What a relay reads, counted for its summary.
ghost use Rattle.std.specs.Prelude.{◌≡◌, ◌≤◌, false, length, take, IfOk};
ghost use Rattle.std.specs.Io.KnownBytes.{ReadConsumes};
ghost use Rattle.lp_rebuild.specs.Devices.{CountsFailure};
ghost use Rattle.lp_inputs.specs.Counted.{counts_after, counts_if, ends_in_line, totals_of};

use lp_conditions::kinds::Relayed;
use lp_endings::summary::Totals;
use lp_rebuild::{DeviceFault, Source};
use lp_scan::newlines::newlines_in;

/// How many bytes and lines were read. A count that no `u64` holds stays at `u64::MAX`.
#[derive(Clone, Copy)]
pub struct Counts {
    /// How many bytes.
    pub bytes: u64,
    /// How many lines: a last line without a newline is a line too.
    pub lines: u64,
    /// Whether the last byte is no newline.
    is_in_line: bool,
}

/// Whether these bytes end within a line.
pub fn ends_in_line(bytes: &[u8]) -> bool
    ensures { result ≡ ends_in_line bytes.now }
{
    !bytes.is_empty() && bytes[bytes.len() - 1] != b'\n'
}

impl Counts {
    /// Nothing was read.
    pub fn none() -> Self
        ensures { result ≡ record { bytes = 0; lines = 0; is_in_line = false } }
    {
        Counts {
            bytes: 0,
            lines: 0,
            is_in_line: false,
        }
    }

    /// These, and bytes that were read then; none at the end of an input.
    pub fn after(self, bytes: &[u8]) -> Self
        ensures { result ≡ counts_after self bytes.now }
    {
        let ends_line = bytes.is_empty() && self.is_in_line;
        Counts {
            bytes: self.bytes.saturating_add(bytes.len() as u64),
            lines: self
                .lines
                .saturating_add(newlines_in(bytes) as u64)
                .saturating_add(u64::from(ends_line)),
            is_in_line: ends_in_line(bytes),
        }
    }
}

/// A source that counts what is read of another, if a summary is asked for.
#[derive(Drop)]
pub struct CountedSource<S> {
    inner: S,
    is_asked: bool,
    counts: Counts,
}

impl<S: Source> CountedSource<S> {
    /// Nothing was read so far.
    pub fn new(is_asked: bool, inner: S) -> Self
        ensures { result ≡ record {
          inner = inner;
          is_asked = is_asked;
          counts = record { bytes = 0; lines = 0; is_in_line = false };
        } }
    {
        CountedSource {
            inner,
            is_asked,
            counts: Counts::none(),
        }
    }

    /// The other source, once all is read.
    pub fn into_inner(self) -> S
        ensures { result ≡ self.inner }
    {
        self.inner
    }

    /// What was read, of which so many items came.
    pub fn totals(&self, items: Relayed) -> Totals
        ensures { result ≡ totals_of self.now.counts items }
    {
        Totals {
            bytes: self.counts.bytes,
            lines: self.counts.lines,
            counts: items,
        }
    }
}

impl<S: Source> Source for CountedSource<S> {
    ghost bytes = { λ s. S.bytes s.inner };

    ghost failures = { λ s. S.failures s.inner };

    fn read(&mut self, buf: &mut [u8]) -> Result<usize, DeviceFault>
        ensures bound { IfOk result (λ n. n ≤ length buf.new) }
        ensures bytes { ReadConsumes (S.bytes self.old.inner) (S.bytes self.new.inner) result buf.new }
        ensures counts { CountsFailure result (S.failures self.old.inner) (S.failures self.new.inner) }
        ensures counted { IfOk result (λ n. self.new.counts ≡ counts_if self.old.is_asked self.old.counts (take n buf.new)) }
        ensures asked { self.new.is_asked ≡ self.old.is_asked }
    {
        let n = self.inner.read(buf)?;
        if self.is_asked {
            self.counts = self.counts.after(&buf[..n]);
        }
        Ok(n)
    }
}
