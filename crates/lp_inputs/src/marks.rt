//! A reader that tells of each input that begins with a byte order mark.
//!
//! Some editors put the mark there. A line has no such mark: what is read of it is the first name of the first line, and that line goes out
//! with it. So it is told, and no byte is dropped.
ghost use Rattle.std.specs.Prelude.{◌≡◌, ◌≤◌, length, IfOk};
ghost use Rattle.std.specs.Io.KnownBytes.{ReadConsumes};
ghost use Rattle.lp_rebuild.specs.Devices.{CountsFailure};

use crate::meter::Meter;
use lp_endings::endings::Device;
use lp_endings::speaking::{Notice, Speaker};
use lp_rebuild::{DeviceFault, Source};
use std::cell::Cell;

/// What tells of inputs that begin with a byte order mark.
#[derive(Drop)]
pub struct Marks<'a, 'n> {
    rt: &'a HostRuntime,
    /// What tells of them.
    program: Speaker<'a>,
    /// The line on the terminal that shows progress, which is cleared before.
    meter: Option<&'a Meter<'a, HostRuntime>>,
    /// The input that was opened last.
    device: &'a Cell<Device<'n>>,
    /// Whether it was found to begin so, and this was not told.
    is_marked: &'a Cell<bool>,
}

impl<'a, 'n> Marks<'a, 'n> {
    /// It tells of an input once its cell says so, by the name that is in the other cell.
    pub fn new(
        rt: &'a HostRuntime,
        program: Speaker<'a>,
        meter: Option<&'a Meter<'a, HostRuntime>>,
        device: &'a Cell<Device<'n>>,
        is_marked: &'a Cell<bool>,
    ) -> Self {
        Marks {
            rt,
            program,
            meter,
            device,
            is_marked,
        }
    }

    // Tells of the input that was opened last, if there is something to tell.
    fn tell(&self) {
        if !self.is_marked.replace(false) {
            return;
        }
        if let Some(meter) = self.meter {
            meter.clear();
        }
        let notice = Notice::Marked(self.device.get().name);
        self.program.notify(self.rt, notice);
    }
}

/// A source that tells of each input of another that begins with a byte order mark, once that is read.
#[derive(Drop)]
pub struct MarkedSource<'a, 'n, S> {
    marks: Marks<'a, 'n>,
    inner: S,
}

impl<'a, 'n, S: Source> MarkedSource<'a, 'n, S> {
    /// A source that hands on the reads of another.
    pub fn new(marks: Marks<'a, 'n>, inner: S) -> Self
        ensures { result.inner ≡ inner }
    {
        MarkedSource { marks, inner }
    }
}

impl<'a, 'n, S: Source> Source for MarkedSource<'a, 'n, S> {
    ghost bytes = { λ s. S.bytes s.inner };

    ghost failures = { λ s. S.failures s.inner };

    fn read(&mut self, buf: &mut [u8]) -> Result<usize, DeviceFault> {
        let answer = self.inner.read(buf);
        self.marks.tell();
        answer
    }
}
