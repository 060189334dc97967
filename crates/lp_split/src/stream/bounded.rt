//! Lines that come in parts, with a greatest length of a piece.

ghost use Rattle.std.specs.Prelude.{◌≡◌, ◌+◌, ◌++◌, ◌<◌, ◌≤◌, ◌^◌, ℕ, List, [], length, OnOk, OnErr};
ghost use Rattle.std.specs.Borrow.{sem};
ghost use Rattle.lp_split.specs.code.{rules_of, Counts, FindsLast, FindsWithin, GivesLastWithin, GivesWithin, Holds, kept, KeepsRules};
ghost use Rattle.lp_split.specs.code.{TakesLong, TellsSoFar};
ghost use Rattle.lp_split.specs.declared.stream.bounded.Skipped.{Skipped};
ghost use Rattle.lp_format.specs.format.{newlines_in, IsLastPiece};

use super::LineStream;
use crate::split::{Dialect, Mark, Track, track_on};
use lp_scan::newlines::newlines_in;
use std::alloc::{AllocError, Global};
use std::marker::Model;

/// The fault of a piece that is longer than the limit of its stream.
#[derive(Clone, Copy, Debug, PartialEq, Eq)]
pub struct PieceTooLong<'a> {
    /// How many newlines the piece has, without the newline that ends it.
    pub newlines: usize,
    /// How many bytes the piece has.
    pub len: usize,
    /// The first bytes of the piece, as many as the limit.
    pub front: &'a [u8],
}

// The number of bytes of a text, and the number of newlines among them.
#[derive(Clone, Copy)]
struct Counted {
    len: usize,
    newlines: usize,
}

impl Counted {
    // Counts these bytes.
    fn of(bytes: &[u8]) -> Counted
        ensures few { result.newlines ≤ result.len }
        ensures counts { Counts result bytes.now }
    {
        Counted {
            len: bytes.len(),
            newlines: newlines_in(bytes),
        }
    }

    // Adds the counts of these bytes.
    fn with(self, bytes: &[u8]) -> Counted
        requires few { self.newlines ≤ self.len }
        requires room { self.len + length bytes.now < 2 ^ 64 }
        ensures few { result.newlines ≤ result.len }
        ensures len { result.len ≡ self.len + length bytes.now }
        ensures newlines { result.newlines ≡ self.newlines + newlines_in bytes.now }
    {
        Counted {
            len: self.len + bytes.len(),
            newlines: self.newlines + newlines_in(bytes),
        }
    }
}

// The counts of a piece that is too long, of which the first bytes are held, as many as the limit.
#[derive(Clone, Copy)]
enum Skipped {
    // There is no piece that is too long.
    Nothing,
    // The bytes of the piece that came so far, with their track.
    Within { track: Track, counted: Counted },
    // The whole piece.
    Ended { counted: Counted },
}

/// The pieces of a text that comes in parts, as [`LineStream`] gives them, with a limit: a piece that has more bytes than the
/// limit is a fault. The fault tells how many newlines and bytes the piece has, and lends its first bytes, as many as the limit.
///
/// If more bytes are held than a piece can have, and no newline that came ends the piece, the stream keeps the first bytes of the
/// piece, as many as the limit. It lets go of the other bytes and of all that come, up to the end of the piece. The pieces after
/// it are given.
#[derive(Drop)]
pub struct BoundedLineStream {
    stream: LineStream,
    limit: usize,
    skipped: Skipped,
}

impl Model for BoundedLineStream {
    ghost use Rattle.lp_split.specs.code.{HeldWithin, IsKept};

    ghost Value = { HeldWithin };

    ghost view = { λ s. record { limit = s.limit; held = s.stream; skipped = s.skipped } };

    ghost invariant = { λ s. IsKept s.limit s.stream s.skipped };
}

impl BoundedLineStream {
    ghost use Rattle.lp_split.specs.code.Lending.{EndsWithinBy};

    /// Makes a stream that holds nothing and splits by the rules of a dialect, into pieces of at most `limit` bytes. The limit
    /// `usize::MAX` means no limit. No memory is taken.
    pub fn new_in(alloc: Global, dialect: Dialect, limit: usize) -> BoundedLineStream
        ensures dialect { result.held.dialect ≡ rules_of dialect }
        ensures limit { result.limit ≡ limit }
        ensures holds { Holds result [] }
        ensures memory { result.held.capacity ≡ 0 }
    {
        BoundedLineStream {
            stream: LineStream::new_in(alloc, dialect),
            limit,
            skipped: Skipped::Nothing,
        }
    }

    /// Appends the next part of the text.
    ///
    /// # Errors
    ///
    /// A request for memory was refused, or the length of a piece that is too long does not fit a `usize`. The stream then holds
    /// all that it held before, and you can push the same part again.
    pub fn push(&mut self, part: &[u8]) -> Result<(), AllocError>
        ensures rules { KeepsRules self.old self.new }
        ensures ok { OnOk result ((text : List ℕ) → Holds self.old text → Holds self.new (text ++ part.now)) }
        ensures err { OnErr result ((text : List ℕ) → Holds self.old text → Holds self.new text) }
        ensures few { kept self.new ≤ kept self.old + length part.now }
    {
        let Skipped::Within { track, counted } = self.skipped else {
            return self.stream.push(part);
        };
        if counted.len.checked_add(part.len()).is_none() {
            return Err(AllocError);
        }
        match track_on(part, track) {
            Ok(end) => {
                self.stream.push(&part[end + 1..])?;
                let counted = counted.with(&part[..end]);
                self.skipped = Skipped::Ended { counted };
            }
            Err(track) => {
                let counted = counted.with(part);
                self.skipped = Skipped::Within { track, counted };
            }
        }
        Ok(())
    }

    // Lets go of the bytes that are held after as many bytes as a piece can have.
    fn let_go(&mut self)
        requires nothing { self.old.skipped ≡ Skipped.Nothing }
        requires is_last { IsLastPiece self.old.held.dialect self.old.held.bytes }
        ensures rules { KeepsRules self.old self.new }
        ensures holds { Holds self.new self.old.held.bytes }
        ensures few { (kept self.new ≤ kept self.old) × (kept self.new ≤ self.old.limit) }
    {
        if self.stream.held().len() <= self.limit {
            return;
        }
        let first = Track::new(self.stream.dialect());
        if let Err(track) = track_on(self.stream.held(), first) {
            let counted = Counted::of(self.stream.held());
            self.stream.keep_front(self.limit);
            self.skipped = Skipped::Within { track, counted };
        }
    }

    // Returns the cut of the first piece. If the piece is too long, returns its counts and how many bytes of it are held, its
    // newline included. Returns `None` until its newline has come.
    #[tactic(auto, using(crate::proofs::lemmas::stream::HeldTexts::first_pieces))]
    fn first(&mut self) -> Option<Result<Mark, (Counted, usize)>>
        ensures { FindsWithin self.old result self.new }
    {
        match self.skipped {
            Skipped::Nothing => {}
            Skipped::Within { .. } => return None,
            Skipped::Ended { counted } => return Some(Err((counted, self.limit))),
        }
        match self.stream.cut() {
            None => {
                self.let_go();
                None
            }
            Some(cut) if cut.at <= self.limit => Some(Ok(cut)),
            Some(cut) => {
                let counted = Counted::of(&self.stream.held()[..cut.at]);
                Some(Err((counted, cut.at + 1)))
            }
        }
    }

    // Takes the first `held` bytes, which are of a piece that is too long, and returns its fault.
    fn take_long(&mut self, counted: Counted, held: usize) -> PieceTooLong<'_>
        requires within { (self.old.limit ≤ held) × (held ≤ kept self.old) }
        ensures* after { sem 𝓛 (EndsWithinBy self.entry (λ before after. TakesLong before counted held result after)) }
    {
        let limit = self.limit;
        self.skipped = Skipped::Nothing;
        PieceTooLong {
            newlines: counted.newlines,
            len: counted.len,
            front: self.stream.take_front(limit, held),
        }
    }

    /// Takes and returns the first piece that a newline ends, or its fault if it is too long. Returns `None` until this newline
    /// has come. No memory is taken.
    pub fn next(&mut self) -> Option<Result<&[u8], PieceTooLong<'_>>>
        ensures* after { sem 𝓛 (EndsWithinBy self.entry (λ before held. GivesWithin before result held)) }
    {
        match self.first()? {
            Ok(cut) => Some(Ok(self.stream.take(cut))),
            Err((counted, held)) => Some(Err(self.take_long(counted, held))),
        }
    }

    // Returns the counts of all bytes that are held, if they are of a piece that is too long.
    #[tactic(auto, using(lp_format::proofs::lemmas::split::SplitPieces::no_cut_within))]
    fn long_last(&self) -> Option<Counted>
        ensures { FindsLast self.now result }
    {
        match self.skipped {
            Skipped::Nothing if self.stream.held().len() <= self.limit => None,
            Skipped::Nothing => Some(Counted::of(self.stream.held())),
            Skipped::Within { counted, .. } | Skipped::Ended { counted } => Some(counted),
        }
    }

    /// Returns the fault of the first piece, if this piece is already too long although it has not ended. Call it when
    /// [`next`](Self::next) has given `None`, to report a piece before it ends. The fault has the newlines and bytes that came so
    /// far, and the first bytes of the piece, as many as the limit. Returns `None` if no more bytes of the piece came than the
    /// limit.
    ///
    /// Nothing is changed: `next` or [`finish`](Self::finish) still gives the fault when the piece ends. It takes no memory, and
    /// no more time for a longer piece.
    ///
    /// ```text
    /// new_in(alloc, Dialect::Crate, 6)
    /// push(b"longer a=")   next gives None, too_long_so_far gives newlines 0, len 9, front b"longer"
    /// push(b"1i\nm b=")    next gives Err: newlines 0, len 11, front b"longer"; then None; too_long_so_far gives None
    /// ```
    pub fn too_long_so_far(&self) -> Option<PieceTooLong<'_>>
        ensures { TellsSoFar self.now result }
    {
        let counted = self.long_last()?;
        Some(PieceTooLong {
            newlines: counted.newlines,
            len: counted.len,
            front: &self.stream.held()[..self.limit],
        })
    }

    /// Takes and returns the last piece, or its fault if it is too long. Call it when [`next`](Self::next) has given `None` and
    /// no more parts come. The stream then holds nothing, and the parts of another text can be pushed.
    pub fn finish(&mut self) -> Result<&[u8], PieceTooLong<'_>>
        ensures* after { sem 𝓛 (EndsWithinBy self.entry (λ before held. GivesLastWithin before result held)) }
    {
        match self.long_last() {
            Some(counted) => {
                let held = self.stream.held().len();
                Err(self.take_long(counted, held))
            }
            None => Ok(self.stream.take_all()),
        }
    }
}
