//! The time of the system, as a relay gives it to lines that come without a timestamp.
ghost use Rattle.std.specs.Prelude.{◌≡◌, ◌≤ℤ◌, None};

use lp_relay::Clock;
use std::time::{self, SystemTime, UNIX_EPOCH};

/// The clock of the system, as a run tells it: it never goes back. If the clock of the system does, or cannot be read, it tells the
/// last time once more.
#[derive(Clone, Copy)]
pub(crate) struct SystemClock<'a, R> {
    rt: &'a R,
    last: i64,
}

// The time of the system in nanoseconds since 1970, if the clock can be read, and an `i64` holds it.
fn time_now<R: time::Clock>(rt: &R) -> Option<i64> {
    let now = SystemTime::now(rt).ok()?;
    let since = now.duration_since(UNIX_EPOCH).ok()?;
    i64::try_from(since.as_nanos()).ok()
}

impl<'a, R: time::Clock> SystemClock<'a, R> {
    /// The clock, if it can be read.
    pub(crate) fn new(rt: &'a R) -> Option<Self> {
        let last = time_now(rt)?;
        Some(SystemClock { rt, last })
    }
}

impl<'a, R: time::Clock> Clock for SystemClock<'a, R> {
    ghost told = { λ _. None };

    fn now(&mut self) -> i64
        ensures told { result ≡ self.new.last }
        ensures onward { self.old.last ≤ℤ self.new.last }
    {
        if let Some(time) = time_now(self.rt) {
            self.last = self.last.max(time);
        }
        self.last
    }
}
