//! Lines that come in parts.

ghost use Rattle.std.specs.Prelude.{◌≡◌, ◌++◌, ◌-◌, ◌≤◌, [], drop, length, take, vec_len, IsUtf8, MatchResult, OnOk, OnErr, Some};
ghost use Rattle.std.specs.Borrow.{sem};
ghost use Rattle.lp_format.specs.format.{Crate, IsLastPiece};
ghost use Rattle.lp_split.specs.code.{rules_of, FindsCut, GivesCut, GivesCutText, GivesFront, GivesLast, GivesLastText, HoldsThen};

use crate::split::{Dialect, Mark, Search, first_cut, search_on};
use simdutf8::basic;
use std::alloc::{AllocError, Global};
use std::marker::Model;
use std::str::{self, Utf8Error};

mod bounded;

pub use bounded::{BoundedLineStream, PieceTooLong};

// Drops the bytes before `start` if they are at least as many as the bytes after it, and returns where the bytes after it begin.
// Each byte is moved at most once, and bytes that were given take no more room than bytes that are held.
fn compact(buffer: &mut Vec<u8>, start: usize) -> usize
    requires { start ≤ vec_len buffer.old }
    ensures few { result ≤ vec_len buffer.old - start }
    ensures within { result ≤ vec_len buffer.new }
    ensures others { drop result buffer.new.items ≡ drop start buffer.old.items }
{
    let len = buffer.len();
    if start < len - start {
        return start;
    }
    buffer.as_mut_slice().copy_within(start..len, 0);
    buffer.truncate(len - start);
    0
}

// Returns the bytes as text. Wide loads test the bytes. If the test fails, a second test finds the place of the error.
fn read_text(bytes: &[u8]) -> Result<&str, Utf8Error>
    ensures { MatchResult result (λ text. (text.now ≡ bytes.now) × IsUtf8 bytes.now) (λ _. ¬ (IsUtf8 bytes.now)) }
{
    match basic::from_utf8(bytes) {
        Ok(text) => Ok(text),
        Err(_) => str::from_utf8(bytes),
    }
}

/// The pieces of a text that comes in parts: the pieces that [`split_lines`](crate::split_lines) gives for the whole text.
///
/// [`push`](Self::push) takes a part, which can be cut anywhere, also within a character or an escape. A piece is there as soon
/// as the newline that ends it has come, and the last piece when no more parts come.
///
/// The stream asks for memory only if its buffer grows.
///
/// ```text
/// stream.push(b"m s=\"a")         next_text gives None
/// stream.push(b"\nb\"\nn c=1i")   next_text gives Some(Ok("m s=\"a\nb\"")), and then None
///                                 finish_text gives Ok("n c=1i")
/// ```
#[derive(Drop)]
pub struct LineStream {
    dialect: Dialect,
    buffer: Vec<u8>,
    // The place in the buffer where the bytes begin that are held.
    start: usize,
    // The knowledge of a search for a cut about the bytes that are held.
    known: Search,
}

impl Model for LineStream {
    ghost use Rattle.std.specs.Prelude.{drop};
    ghost use Rattle.std.specs.Vec.{vec_capacity};
    ghost use Rattle.lp_split.specs.code.{rules_of, Held, IsHeldAt};

    ghost Value = { Held };

    ghost view = { λ s. record {
      dialect = rules_of s.dialect;
      bytes = drop s.start s.buffer.items;
      capacity = vec_capacity s.buffer;
      given = s.start;
    } };

    ghost invariant = { λ s. IsHeldAt (rules_of s.dialect) s.buffer.items s.start s.known };
}

impl LineStream {
    ghost use Rattle.lp_split.specs.code.Lending.{EndsBy};

    /// Makes a stream that holds nothing and splits by the rules of the crate. No memory is taken.
    pub fn new(alloc: Global) -> LineStream
        ensures { result ≡ record { dialect = Crate; bytes = []; capacity = 0; given = 0 } }
    {
        LineStream::new_in(alloc, Dialect::Crate)
    }

    /// Makes a stream that holds nothing and splits by the rules of a dialect. No memory is taken.
    pub fn new_in(alloc: Global, dialect: Dialect) -> LineStream
        ensures { result ≡ record { dialect = rules_of dialect; bytes = []; capacity = 0; given = 0 } }
    {
        LineStream {
            dialect,
            buffer: Vec::new(alloc),
            start: 0,
            known: Search::Begins(0),
        }
    }

    /// Appends the next part of the text.
    ///
    /// After a call, the buffer has no more bytes that were already given than bytes that are held.
    ///
    /// # Errors
    ///
    /// A request for memory was refused. The stream then holds all that it held before, and you can push the same part again.
    #[tactic(auto, using(crate::proofs::lemmas::stream::HeldTexts::held_longer))]
    pub fn push(&mut self, part: &[u8]) -> Result<(), AllocError>
        ensures dialect { self.new.dialect ≡ self.old.dialect }
        ensures ok { OnOk result (self.new.bytes ≡ self.old.bytes ++ part.now) }
        ensures err { OnErr result (self.new.bytes ≡ self.old.bytes) }
        ensures few { self.new.given ≤ length self.new.bytes }
    {
        self.start = compact(&mut self.buffer, self.start);
        self.buffer.extend_from_slice(part)
    }

    // Returns the cut that ends the first piece, or `None` until its newline has come. Most cuts are found without the state of
    // an earlier search, which is large.
    #[inline(always)]
    fn cut(&mut self) -> Option<Mark>
        ensures stays { self.new ≡ self.old }
        ensures found { FindsCut self.old.dialect self.old.bytes result }
    {
        if let Search::Begins(seen) = self.known {
            if let Some(cut) = first_cut(self.dialect, &self.buffer[self.start..], seen) {
                return Some(cut);
            }
        }
        self.cut_on()
    }

    // Returns the cut that ends the first piece, by a search that goes on where it stopped.
    #[cold]
    #[inline(never)]
    fn cut_on(&mut self) -> Option<Mark>
        ensures stays { self.new ≡ self.old }
        ensures found { FindsCut self.old.dialect self.old.bytes result }
    {
        match search_on(self.dialect, &self.buffer[self.start..], self.known) {
            Ok(cut) => Some(cut),
            Err(known) => {
                self.known = known;
                None
            }
        }
    }

    // Takes the piece before the first cut.
    fn take(&mut self, cut: Mark) -> &[u8]
        requires { FindsCut self.old.dialect self.old.bytes (Some cut) }
        ensures len { length result.now ≡ cut.at }
        ensures* after { sem 𝓛 (EndsBy self.entry (λ before held. GivesCut before (Some result) held)) }
    {
        let from = self.start;
        self.start = from + cut.at + 1;
        self.known = Search::Begins(cut.later);
        &self.buffer[from..from + cut.at]
    }

    /// Takes and returns the first piece that a newline ends, or returns `None` until this newline has come. No memory is taken.
    #[inline(always)]
    pub fn next(&mut self) -> Option<&[u8]>
        ensures* after { sem 𝓛 (EndsBy self.entry (λ before held. GivesCut before result held)) }
    {
        let cut = self.cut()?;
        Some(self.take(cut))
    }

    /// Takes and returns the first piece that a newline ends, as text, or returns `None` until this newline has come. A piece
    /// that is not UTF-8 is an error, and is taken all the same.
    pub fn next_text(&mut self) -> Option<Result<&str, Utf8Error>>
        ensures* after { sem 𝓛 (EndsBy self.entry (λ before held. GivesCutText before result held)) }
    {
        let piece = self.next()?;
        Some(read_text(piece))
    }

    /// Takes and returns the last piece: all bytes that are held. Call it when [`next`](Self::next) has given `None` and no more
    /// parts come. The stream then holds nothing, and the parts of another text can be pushed.
    pub fn finish(&mut self) -> &[u8]
        requires { IsLastPiece self.old.dialect self.old.bytes }
        ensures* after { sem 𝓛 (EndsBy self.entry (λ before held. GivesLast before result.now held)) }
    {
        self.take_all()
    }

    // Takes all bytes that are held.
    fn take_all(&mut self) -> &[u8]
        ensures* after { sem 𝓛 (EndsBy self.entry (λ before held. GivesLast before result.now held)) }
    {
        let from = self.start;
        self.start = self.buffer.len();
        self.known = Search::Begins(0);
        &self.buffer[from..]
    }

    // Takes the first `taken` bytes, and returns the first `len` of them.
    fn take_front(&mut self, len: usize, taken: usize) -> &[u8]
        requires within { (len ≤ taken) × (taken ≤ length self.old.bytes) }
        ensures* after { sem 𝓛 (EndsBy self.entry (λ before held. GivesFront before len taken result.now held)) }
    {
        let from = self.start;
        self.start = from + taken;
        self.known = Search::Begins(0);
        &self.buffer[from..from + len]
    }

    // Keeps the first `len` bytes, and lets the others go.
    #[tactic(auto, using(crate::proofs::lemmas::stream::HeldTexts::front_of_rest))]
    fn keep_front(&mut self, len: usize)
        requires within { len ≤ length self.old.bytes }
        ensures { HoldsThen self.old (take len self.old.bytes) self.new }
    {
        self.buffer.truncate(self.start + len);
        self.known = Search::Begins(0);
    }

    // Returns the bytes that are held.
    fn held(&self) -> &[u8]
        ensures { result.now ≡ self.now.bytes }
    {
        &self.buffer[self.start..]
    }

    // Returns the dialect by whose rules the stream splits.
    fn dialect(&self) -> Dialect
        ensures { rules_of result ≡ self.now.dialect }
    {
        self.dialect
    }

    /// Takes and returns the last piece as text, as [`finish`](Self::finish) does. A piece that is not UTF-8 is an error, and is
    /// taken all the same.
    pub fn finish_text(&mut self) -> Result<&str, Utf8Error>
        requires { IsLastPiece self.old.dialect self.old.bytes }
        ensures* after { sem 𝓛 (EndsBy self.entry (λ before held. GivesLastText before result held)) }
    {
        read_text(self.finish())
    }
}
