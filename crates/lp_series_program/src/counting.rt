//! Counts what a relay reads, and tells so far what it has counted, if that is asked for.
//!
//! The relay tells the faults, and goes over the lines once; the counter reads the same bytes once more, which takes less than its tables.

use crate::report::{Counted, tell};
use crate::words::Report;
use lp_endings::endings::Failure;
use lp_endings::speaking::Speaker;
use lp_inputs::counted::Counts;
use lp_inputs::watched::Watcher;
use lp_relay::{KindCounts, Settings};
use lp_series::SeriesCounter;
use std::alloc::AllocError;
use std::hash::RandomState;
use std::time::Instant;

/// What is counted of the inputs.
#[derive(Drop)]
pub(crate) struct Counting<'a, 'n> {
    rt: &'a HostRuntime,
    // What says that a file of metrics is not of the owner of the old one.
    program: Speaker<'a>,
    report: Report<'n>,
    read: Counts,
    counter: SeriesCounter,
    started: Option<Instant>,
    // How many whole seconds had passed when it was told last.
    told_at: u64,
    /// Whether memory was refused.
    pub(crate) is_refused: bool,
    /// Why it could not be told, if it could not.
    pub(crate) failure: Option<Failure<'n>>,
}

impl<'a, 'n> Counting<'a, 'n> {
    /// Nothing was read so far, by a relay of these settings, whose `limit` holds for the lines that are counted too.
    pub(crate) fn new(
        rt: &'a HostRuntime,
        program: Speaker<'a>,
        hashes: RandomState,
        relay: Settings<'n>,
        report: Report<'n>,
    ) -> Self {
        Counting {
            rt,
            program,
            report,
            read: Counts::none(),
            counter: SeriesCounter::new(
                rt.alloc(),
                hashes,
                relay.dialect,
                relay.limit,
                report.max_series,
            ),
            started: Instant::now(rt).ok(),
            told_at: 0,
            is_refused: false,
            failure: None,
        }
    }

    // How many whole seconds have passed.
    fn seconds(&self) -> Option<u64> {
        let elapsed = self.started?.elapsed(self.rt).ok()?;
        Some(elapsed.as_secs())
    }

    // Whether it is time to be told, which is so once in so many seconds.
    fn is_time(&mut self) -> bool {
        let (Some(every), Some(now)) = (self.report.every, self.seconds()) else {
            return false;
        };
        if now < self.told_at.saturating_add(every as u64) {
            return false;
        }
        self.told_at = now;
        true
    }

    /// Tells what was counted so far, with the items that were refused, once all is read.
    ///
    /// # Errors
    ///
    /// Why it could not be told.
    pub(crate) fn tell(&self, refused: Option<KindCounts>) -> Result<(), Failure<'n>> {
        let counted = Counted {
            read: self.read,
            counts: self.counter.counts(),
            items_refused: self.counter.refused(),
            refused,
        };
        tell(self.rt, self.program, self.report, counted)
    }
}

impl<'a, 'n> Watcher for Counting<'a, 'n> {
    fn take(&mut self, bytes: &[u8]) -> Result<(), AllocError> {
        self.read = self.read.after(bytes);
        let counted = if bytes.is_empty() {
            self.counter.finish()
        } else {
            self.counter.push(bytes)
        };
        if counted.is_err() {
            self.is_refused = true;
            return Err(AllocError);
        }
        if self.is_time() {
            self.failure = self.tell(None).err();
        }
        if self.failure.is_some() {
            return Err(AllocError);
        }
        Ok(())
    }
}
