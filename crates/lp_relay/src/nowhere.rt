//! A writer for what nobody wants.
ghost use Rattle.std.specs.Prelude.{◌≡◌, None, true};

use lp_rebuild::{DeviceFault, Sink};

/// A sink that takes all that is written, keeps none of it, and never fails.
#[derive(Drop)]
pub struct Nowhere {
    // Whether all that was written was flushed, for contracts.
    is_flushed: bool,
}

impl Nowhere {
    /// A sink to which nothing was written so far.
    pub fn new() -> Self
        ensures { result.is_flushed ≡ true }
    {
        Nowhere { is_flushed: true }
    }
}

impl Sink for Nowhere {
    ghost bytes = { λ _. None };

    ghost failures = { λ _. 0 };

    ghost is_flushed = { λ sink. sink.is_flushed };

    fn write(&mut self, buf: &[u8]) -> Result<usize, DeviceFault> {
        self.is_flushed = false;
        Ok(buf.len())
    }

    fn flush(&mut self) -> Result<(), DeviceFault> {
        self.is_flushed = true;
        Ok(())
    }
}
