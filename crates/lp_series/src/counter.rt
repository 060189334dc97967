//! Counts the lines of a text that comes in parts.

ghost use Rattle.std.specs.Prelude.{◌≡◌, ◌+◌, ◌++◌, ◌<◌, ℕ, [], List, IfOk, OnErr, OnOk, true};
ghost use Rattle.std.specs.HashMap.{hasher_of};
ghost use Rattle.influxdb_line_protocol.specs.code.{Bounded.most_given, Rules.rules_of};
ghost use Rattle.influxdb_line_protocol.specs.format.{Dialects.Dialect as Format, Pieces.Pieces, Points.Point};
ghost use Rattle.lp_series.specs.CountSteps.{KeepsCounts};
ghost use Rattle.lp_series.specs.Texts.{HasCounted, HasCountedSome, points_of, refused_of};
ghost use Rattle.lp_series.specs.TextSteps.{CountsFirst};

use crate::SeriesCounts;
use crate::lines::count_given;
use crate::sums::{count_if, one_of};
use influxdb_line_protocol::{BoundedLineStream, Dialect, laws};
use std::alloc::{AllocError, Global};
use std::hash::RandomState;

/// Counts the lines of a text that comes in parts, however it is cut.
///
/// A piece that is longer than the limit, or is not UTF-8, is no line, and neither is one with a fault: these are passed over. What is
/// held of the text is the line that has not ended yet, no more of it than the limit, and the part that was given last.
///
/// ```text
/// new(alloc, RandomState::new(&rt)?, Dialect::Crate, usize::MAX, 1000)
/// push(b"m a=1 1\nm a=")   counts: 1 point
/// push(b"2 2\nno line\n")  counts: 2 points
/// push(b"m a=3 3")         counts: 2 points
/// finish()                 counts: 3 points
/// ```
#[derive(Drop)]
pub struct SeriesCounter {
    alloc: Global,
    dialect: Dialect,
    stream: BoundedLineStream,
    counts: SeriesCounts,
    refused: u64,
}

impl SeriesCounter {
    /// Before the first part, by the rules of a dialect. A line may have so many bytes at most, without the newline that ends it;
    /// `usize::MAX` is no limit. At most so many series are kept, in tables that hash by `hashes`: [`SeriesCounts::new`] says how to make it.
    /// It takes no memory.
    pub fn new(
        alloc: Global,
        hashes: RandomState,
        dialect: Dialect,
        limit: usize,
        max_series: usize,
    ) -> Self
        ensures counts { HasCounted result (rules_of dialect) limit [] 0 [] }
        ensures most { result.counts.max_series ≡ max_series }
        ensures hashes { hasher_of result.counts.series ≡ hashes }
    {
        laws::pieces_join();
        SeriesCounter {
            alloc,
            dialect,
            stream: BoundedLineStream::new_in(alloc, dialect, limit),
            counts: SeriesCounts::new(alloc, hashes, max_series),
            refused: 0,
        }
    }

    /// What was counted so far: the lines of all pieces that a newline ended, and after [`finish`](Self::finish) all lines.
    pub fn counts(&self) -> &SeriesCounts
        ensures { result.now ≡ self.now.counts }
    {
        &self.counts
    }

    /// How many items so far are no line: a piece with a fault, one that is too long, and one that is not UTF-8.
    pub fn refused(&self) -> u64
        ensures { result ≡ self.now.refused }
    {
        self.refused
    }

    // Counts the line of the next piece, and tells whether the stream could give one.
    #[tactic(auto, using(crate::proofs::KeptCounts::same_counts))]
    fn count_next(&mut self) -> Result<bool, AllocError>
        ensures fewer { IfOk result (λ some. some ≡ true → most_given self.new.stream < most_given self.old.stream) }
        ensures counts { IfOk result (λ some. CountsFirst self.old self.new some) }
        ensures most { self.new.counts.max_series ≡ self.old.counts.max_series }
        ensures kept { OnErr result (KeepsCounts self.old.counts self.new.counts) }
    {
        let one_more = count_if(self.refused, true)?;
        let Some(given) = self.stream.next() else {
            return Ok(false);
        };
        let refused = count_given(self.alloc, self.dialect, &mut self.counts, given)?;
        self.refused = one_of(refused, self.refused, one_more);
        Ok(true)
    }

    /// Takes the next part of the text, and counts each line that ends in it.
    ///
    /// A line whose text begins with its key takes no memory if its series is known; any other takes what
    /// [`SeriesCounts::add`] does. The time is that of reading the lines, and of their look-ups.
    ///
    /// # Errors
    ///
    /// A request for memory was refused, or no `u64` holds a count, or no `usize` how many bytes a piece has that is too long. Then
    /// lines of the part may be lost. Each count is that of the first lines; only tags and fields may be there of the one after them.
    pub fn push(&mut self, part: &[u8]) -> Result<(), AllocError>
        ensures counts { OnOk result ((dialect : Format) (limit : ℕ) (before : List Point) (others : ℕ) (given : List ℕ)
            → HasCounted self.old dialect limit before others given
            → HasCounted self.new dialect limit before others (given ++ part.now)) }
        ensures most { self.new.counts.max_series ≡ self.old.counts.max_series }
        ensures some { OnErr result ((dialect : Format) (limit : ℕ) (before : List Point) (others : ℕ) (given : List ℕ)
            → HasCounted self.old dialect limit before others given
            → HasCountedSome self.new dialect limit before (given ++ part.now)) }
    {
        self.stream.push(part)?;
        while self.count_next()? {}
        Ok(())
    }

    /// Takes the last piece, which no newline ended, once no more parts come. Then the parts of another text can be given, whose lines
    /// are counted too.
    ///
    /// # Errors
    ///
    /// Those of [`push`](Self::push). The last piece is lost then.
    pub fn finish(&mut self) -> Result<(), AllocError>
        ensures counts { OnOk result ((dialect : Format) (limit : ℕ) (before : List Point) (others : ℕ) (given : List ℕ)
            → HasCounted self.old dialect limit before others given → (pieces : List (List ℕ)) × Pieces dialect given pieces
            × HasCounted self.new dialect limit (before ++ points_of dialect limit pieces) (others + refused_of dialect limit pieces) []) }
        ensures most { self.new.counts.max_series ≡ self.old.counts.max_series }
        ensures some { OnErr result ((dialect : Format) (limit : ℕ) (before : List Point) (others : ℕ) (given : List ℕ)
            → HasCounted self.old dialect limit before others given → HasCountedSome self.new dialect limit before given) }
    {
        laws::pieces_join();
        laws::runs_give_pieces();
        let one_more = count_if(self.refused, true)?;
        let last = self.stream.finish();
        let refused = count_given(self.alloc, self.dialect, &mut self.counts, last)?;
        self.refused = one_of(refused, self.refused, one_more);
        Ok(())
    }
}
