//! Counts the line of a piece, read into the room of the lines before it.

ghost use Rattle.std.specs.Prelude.{◌≡◌, IfOk, OnErr, OnOk};
ghost use Rattle.influxdb_line_protocol.specs.code.Rules.{rules_of};
ghost use Rattle.lp_series.specs.CountSteps.{KeepsCounts, one_if};
ghost use Rattle.lp_series.specs.Texts.{points_of_text, refused_of_text};
ghost use Rattle.lp_series.specs.TextSteps.{CountsGiven, CountsMore, refused_given};

use crate::SeriesCounts;
use crate::texts::text_of;
use influxdb_line_protocol::{Dialect, ParsedLine, PieceTooLong, TagSet};
use lp_lines::freeing::{forget_line, free_line};
use lp_lines::{Unread, refill_line};
use lp_scan::trim::trimmed;
use std::alloc::{AllocError, Global};

// A line that is used again.
#[derive(Drop)]
pub(crate) struct LineRoom<'a> {
    line: ParsedLine<'a>,
    // A tag set that has grown, of a line that has none now.
    spare: Option<TagSet<'a>>,
}

impl<'a> LineRoom<'a> {
    // Before the first line. It takes no memory.
    #[inline(always)]
    pub(crate) fn new(alloc: Global) -> Self {
        LineRoom {
            line: ParsedLine::new(alloc),
            spare: None,
        }
    }

    // Lets it go, without a visit to each place of its line's sets. Its memory is freed.
    #[inline(always)]
    pub(crate) fn free(mut self, alloc: Global) {
        free_line(alloc, &mut self.line);
        forget_line(self.line);
    }
}

// Counts the line of a piece, if it has one, and tells whether it has an item that is none.
#[tactic(auto, using(crate::proofs::KeptCounts::same_counts))]
pub(crate) fn count_text<'a>(
    alloc: Global,
    dialect: Dialect,
    counts: &mut SeriesCounts,
    room: &mut LineRoom<'a>,
    piece: &'a str,
) -> Result<bool, AllocError>
    ensures refused { IfOk result (λ refused. one_if refused ≡ refused_of_text (rules_of dialect) piece.now) }
    ensures counts { OnOk result (CountsMore counts.old counts.new (points_of_text (rules_of dialect) piece.now)) }
    ensures most { counts.new.max_series ≡ counts.old.max_series }
    ensures kept { OnErr result (KeepsCounts counts.old counts.new) }
{
    let text = trimmed(piece);
    if text.is_empty() {
        return Ok(false);
    }
    match refill_line(alloc, dialect, text, &mut room.line, &mut room.spare) {
        Ok(()) => {
            counts.add_read(alloc, &room.line)?;
            Ok(false)
        }
        Err(Unread::Fault(_)) => Ok(true),
        Err(Unread::OutOfMemory) => Err(AllocError),
    }
}

// Counts the line of what a stream gave, if it has one, and tells whether it has an item that is none.
#[inline(never)]
pub(crate) fn count_given(
    alloc: Global,
    dialect: Dialect,
    counts: &mut SeriesCounts,
    given: Result<&[u8], PieceTooLong<'_>>,
) -> Result<bool, AllocError>
    ensures refused { IfOk result (λ refused. one_if refused ≡ refused_given (rules_of dialect) given.entry) }
    ensures counts { OnOk result (CountsGiven (rules_of dialect) counts.old counts.new given.entry) }
    ensures most { counts.new.max_series ≡ counts.old.max_series }
    ensures kept { OnErr result (KeepsCounts counts.old counts.new) }
{
    let Ok(bytes) = given else {
        return Ok(true);
    };
    let Some(piece) = text_of(bytes) else {
        return Ok(true);
    };
    let mut room = LineRoom::new(alloc);
    let counted = count_text(alloc, dialect, counts, &mut room, piece);
    room.free(alloc);
    counted
}
