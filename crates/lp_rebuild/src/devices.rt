//! Sources and sinks: readers and writers that can fail.
//!
//! The error [`DeviceFault`] says only that a device failed. Contracts also know the bytes of a device, how often it has failed,
//! and whether all bytes that were written to it were flushed.
ghost use Rattle.std.specs.Prelude.{Option, ◌≡◌, ℕ, ◌+◌, ◌≤◌, ◌<◌, Bool, true, false, List, [], length, Some, None};
ghost use Rattle.std.specs.Prelude.{IfOk, IsOk, OnOk, OnErr};
ghost use Rattle.std.specs.Io.KnownBytes.{ReadConsumes, WriteAppends, Keeps};
ghost use Rattle.lp_rebuild.specs.Devices.{CountsFailure, kept_bytes, kept_capacity, kept_failures, kept_is_flushed};
ghost use Rattle.lp_rebuild.specs.Devices.{reading_failures, reading_inner, writing_failures, writing_inner, writing_is_flushed};

use crate::failures::Failures;
use crate::tries::{flush_again, read_again, write_again};
use std::alloc::Global;
use std::io::{Read, Write};

/// The error of a source or a sink: the device failed.
#[derive(Clone, Copy, Debug, PartialEq, Eq)]
pub struct DeviceFault;

/// A source of bytes, such as standard input or a slice.
///
/// Contracts know two facts about a source: `bytes`, the bytes that are left, if they are known, and `failures`, how many calls
/// failed so far.
pub trait Source {
    ghost bytes: { Self → Option (List ℕ) };

    ghost failures: { Self → ℕ };

    /// Reads the next bytes into the front of `buf`, and returns how many bytes it read. Returns 0 only at the end of the input,
    /// or if `buf` is empty.
    ///
    /// ```text
    /// reads of the slice b"abc" into 2 bytes return 2, then 1, and then 0
    /// ```
    ///
    /// # Errors
    ///
    /// Returns `DeviceFault` if the device failed. No byte of the source is lost.
    fn read(&mut self, buf: &mut [u8]) -> Result<usize, DeviceFault>
        ensures bound { IfOk result (λ n. n ≤ length buf.new) }
        ensures bytes { ReadConsumes (bytes self.old) (bytes self.new) result buf.new }
        ensures counts { CountsFailure result (failures self.old) (failures self.new) };
}

/// A sink for bytes, such as standard output or memory.
///
/// Contracts know three facts about a sink: `bytes`, the bytes that it holds, if they are known; `failures`, how many calls
/// failed so far; and `is_flushed`, whether all bytes that were written were flushed.
pub trait Sink {
    ghost bytes: { Self → Option (List ℕ) };

    ghost failures: { Self → ℕ };

    ghost is_flushed: { Self → Bool };

    /// Appends the first bytes of `buf`, and returns how many bytes it appended. Returns 0 only if `buf` is empty.
    ///
    /// # Errors
    ///
    /// Returns `DeviceFault` if the device failed. No byte was appended.
    fn write(&mut self, buf: &[u8]) -> Result<usize, DeviceFault>
        ensures bound { IfOk result (λ n. n ≤ length buf.now) }
        ensures moves { IfOk result (λ n. 0 < length buf.now → 0 < n) }
        ensures bytes { WriteAppends (bytes self.old) (bytes self.new) result buf.now }
        ensures counts { CountsFailure result (failures self.old) (failures self.new) }
        ensures unflushed { IfOk result (λ n. 0 < n → is_flushed self.new ≡ false) };

    /// Hands on all bytes that the sink may still hold back. The bytes of the sink stay as they are.
    ///
    /// # Errors
    ///
    /// Returns `DeviceFault` if the device failed.
    fn flush(&mut self) -> Result<(), DeviceFault>
        ensures bytes { Keeps (bytes self.old) (bytes self.new) }
        ensures counts { CountsFailure result (failures self.old) (failures self.new) }
        ensures flushed { OnOk result (is_flushed self.new ≡ true) };
}

/// A source that reads from a reader of `std`, such as standard input. A read that a signal interrupts is tried again.
///
/// Contracts do not know the `bytes` of such a source, but each read returns the bytes that the reader gives.
#[derive(Drop)]
pub struct Reading<R> {
    inner: R,
    failures: Failures,
}

impl<R: Read> Reading<R> {
    /// Returns a source over `inner` that has not failed so far. Takes no memory.
    ///
    /// ```
    /// let mut reader = Reading::new(rt.stdin());
    /// ```
    pub fn new(inner: R) -> Self
        ensures inner { reading_inner result ≡ inner }
        ensures unfailed { reading_failures result ≡ 0 }
    {
        Reading {
            inner,
            failures: Failures::new(),
        }
    }
}

impl<R: Read> Source for Reading<R> {
    ghost bytes = { λ _. None };

    ghost failures = { λ r. reading_failures r };

    fn read(&mut self, buf: &mut [u8]) -> Result<usize, DeviceFault>
        ensures bound { IfOk result (λ n. n ≤ length buf.new) }
        ensures inner { ReadConsumes (R.remaining (reading_inner self.old)) (R.remaining (reading_inner self.new)) result buf.new }
        ensures counts { CountsFailure result (reading_failures self.old) (reading_failures self.new) }
    {
        match read_again(&mut self.inner, buf) {
            Ok(n) => Ok(n),
            Err(_) => {
                self.failures.add();
                Err(DeviceFault)
            }
        }
    }
}

/// A slice is a source of its bytes, from the first byte on. A read from it never fails.
impl<'a> Source for &'a [u8] {
    ghost bytes = { λ s. Some s.now };

    ghost failures = { λ _. 0 };

    fn read(&mut self, buf: &mut [u8]) -> Result<usize, DeviceFault> {
        let n = self.len().min(buf.len());
        let all: &'a [u8] = *self;
        buf[..n].copy_from_slice(&all[..n]);
        *self = &all[n..];
        Ok(n)
    }
}

/// A sink that writes to a writer of `std`, such as standard output. A call that a signal interrupts is tried again. A write that
/// takes none of the bytes it was given is a failure.
///
/// Contracts do not know the `bytes` of such a sink, but each write hands its bytes to the writer.
#[derive(Drop)]
pub struct Writing<W> {
    inner: W,
    failures: Failures,
    // Whether all bytes that were written were flushed, for contracts.
    is_flushed: bool,
}

impl<W: Write> Writing<W> {
    /// Returns a sink over `inner` that has not failed so far. Takes no memory.
    ///
    /// ```
    /// let mut out = Writing::new(rt.stdout());
    /// ```
    pub fn new(inner: W) -> Self
        ensures inner { writing_inner result ≡ inner }
        ensures unfailed { writing_failures result ≡ 0 }
        ensures flushed { writing_is_flushed result ≡ true }
    {
        Writing {
            inner,
            failures: Failures::new(),
            is_flushed: true,
        }
    }
}

impl<W: Write> Sink for Writing<W> {
    ghost bytes = { λ _. None };

    ghost failures = { λ w. writing_failures w };

    ghost is_flushed = { λ w. writing_is_flushed w };

    fn write(&mut self, buf: &[u8]) -> Result<usize, DeviceFault>
        ensures bound { IfOk result (λ n. n ≤ length buf.now) }
        ensures moves { IfOk result (λ n. 0 < length buf.now → 0 < n) }
        ensures inner { WriteAppends (W.contents (writing_inner self.old)) (W.contents (writing_inner self.new)) result buf.now }
        ensures counts { CountsFailure result (writing_failures self.old) (writing_failures self.new) }
        ensures unflushed { IfOk result (λ n. 0 < n → writing_is_flushed self.new ≡ false) }
    {
        match write_again(&mut self.inner, buf) {
            Ok(n) if n > 0 || buf.is_empty() => {
                self.is_flushed = false;
                Ok(n)
            }
            _ => {
                self.failures.add();
                Err(DeviceFault)
            }
        }
    }

    fn flush(&mut self) -> Result<(), DeviceFault>
        ensures inner { Keeps (W.contents (writing_inner self.old)) (W.contents (writing_inner self.new)) }
        ensures counts { CountsFailure result (writing_failures self.old) (writing_failures self.new) }
        ensures flushed { OnOk result (writing_is_flushed self.new ≡ true) }
    {
        match flush_again(&mut self.inner) {
            Ok(()) => {
                self.is_flushed = true;
                Ok(())
            }
            Err(_) => {
                self.failures.add();
                Err(DeviceFault)
            }
        }
    }
}

/// A sink that keeps all bytes in memory.
#[derive(Drop)]
pub struct Kept {
    bytes: Vec<u8>,
    failures: Failures,
    // Whether all bytes that were written were flushed, for contracts.
    is_flushed: bool,
}

impl Kept {
    /// Returns an empty sink that has not failed so far. Takes no memory until the first write.
    ///
    /// ```
    /// let mut out = Kept::new(alloc);
    /// write_bytes(&mut out, b"m f=1i")?;
    /// // out.as_slice() is b"m f=1i"
    /// ```
    pub fn new(alloc: Global) -> Self
        ensures empty { kept_bytes result ≡ [] }
        ensures unfailed { kept_failures result ≡ 0 }
        ensures flushed { kept_is_flushed result ≡ true }
    {
        Kept {
            bytes: Vec::new(alloc),
            failures: Failures::new(),
            is_flushed: true,
        }
    }

    /// Returns all bytes that were written so far.
    ///
    /// ```text
    /// after writes of b"m f" and b"=1i", as_slice() is b"m f=1i"
    /// ```
    pub fn as_slice(&self) -> &[u8]
        ensures { result.now ≡ kept_bytes self.now }
    {
        self.bytes.as_slice()
    }
}

/// A write takes all of `buf`, and fails only if memory was refused. A flush changes no byte.
impl Sink for Kept {
    ghost bytes = { λ k. Some (kept_bytes k) };

    ghost failures = { λ k. kept_failures k };

    ghost is_flushed = { λ k. kept_is_flushed k };

    fn write(&mut self, buf: &[u8]) -> Result<usize, DeviceFault>
        ensures bound { IfOk result (λ n. n ≤ length buf.now) }
        ensures moves { IfOk result (λ n. 0 < length buf.now → 0 < n) }
        ensures bytes { WriteAppends (Some (kept_bytes self.old)) (Some (kept_bytes self.new)) result buf.now }
        ensures counts { CountsFailure result (kept_failures self.old) (kept_failures self.new) }
        ensures unflushed { IfOk result (λ n. 0 < n → kept_is_flushed self.new ≡ false) }
        ensures whole { IfOk result (λ n. n ≡ length buf.now) }
        ensures refused { OnErr result
            (kept_capacity self.old < length (kept_bytes self.old) + length buf.now) }
    {
        if self.bytes.extend_from_slice(buf).is_err() {
            self.failures.add();
            return Err(DeviceFault);
        }
        self.is_flushed = false;
        Ok(buf.len())
    }

    fn flush(&mut self) -> Result<(), DeviceFault>
        ensures bytes { kept_bytes self.new ≡ kept_bytes self.old }
        ensures counts { CountsFailure result (kept_failures self.old) (kept_failures self.new) }
        ensures flushed { OnOk result (kept_is_flushed self.new ≡ true) }
        ensures succeeds { IsOk result }
    {
        // It holds nothing back.
        self.is_flushed = true;
        Ok(())
    }
}
