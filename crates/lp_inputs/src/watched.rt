//! A reader whose bytes something else takes too, as they are read.
//!
//! So a program counts what a relay reads without a second reading of the input, and what the relay promises of the input holds still.
ghost use Rattle.std.specs.Prelude.{◌≡◌, ◌+◌, ◌≤◌, length, IfOk, if◌then◌else◌};
ghost use Rattle.std.specs.Io.KnownBytes.{ReadConsumes};
ghost use Rattle.lp_rebuild.specs.Devices.{CountsFailure};

use lp_rebuild::{DeviceFault, Source};
use std::alloc::AllocError;

/// What takes the bytes of a reader as they are read.
pub trait Watcher {
    /// Takes bytes that were read: none at the end of an input.
    ///
    /// # Errors
    ///
    /// If memory was refused. It is then not called again, and the next read of the inputs fails.
    fn take(&mut self, bytes: &[u8]) -> Result<(), AllocError>;
}

/// Takes all bytes, and does nothing with them.
#[derive(Drop)]
pub struct Unwatched;

impl Watcher for Unwatched {
    fn take(&mut self, _bytes: &[u8]) -> Result<(), AllocError> {
        Ok(())
    }
}

/// A source whose bytes a watcher takes. If that is refused memory, the next read fails.
#[derive(Drop)]
pub struct WatchedSource<S, W> {
    inner: S,
    watcher: W,
    /// Whether the watcher was refused memory, and the next read fails for it.
    is_refused: bool,
    /// Whether a read failed for that.
    has_failed: bool,
}

impl<S, W> WatchedSource<S, W> {
    /// Nothing was read so far.
    pub fn new(inner: S, watcher: W) -> Self {
        WatchedSource {
            inner,
            watcher,
            is_refused: false,
            has_failed: false,
        }
    }
}

impl<S: Drop, W> WatchedSource<S, W> {
    /// Its watcher, once all is read.
    pub fn into_watcher(self) -> W {
        self.watcher
    }
}

impl<S: Source, W: Watcher> Source for WatchedSource<S, W> {
    ghost bytes = { λ s. S.bytes s.inner };

    ghost failures = { λ s. S.failures s.inner + (if s.has_failed then 1 else 0) };

    fn read(&mut self, buf: &mut [u8]) -> Result<usize, DeviceFault> {
        if self.is_refused && !self.has_failed {
            self.has_failed = true;
            return Err(DeviceFault);
        }
        let n = self.inner.read(buf)?;
        if !self.is_refused {
            self.is_refused = self.watcher.take(&buf[..n]).is_err();
        }
        Ok(n)
    }
}
