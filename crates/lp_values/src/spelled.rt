//! Names, strings, values and faults as they are spelled in the input. They take no memory.

ghost use Rattle.std.specs.Prelude.{◌≡◌, ◌≤◌, ◌+◌, ◌++◌, true, false, drop, length, not, IfOk, IsOk, MatchOption, bytes_eq};
ghost use Rattle.lp_format.specs.format.{backslash, is_one_of};
ghost use Rattle.lp_values.specs.code.{SpelledParts.spelled_text, SpelledParts.spelling_of, Texts.read_of};

use crate::error::{Error, ErrorKind, OutOfRange};
use crate::escaped::EscapedStr;
use crate::literals::FloatText;
use crate::tokens::{RawToken, put_unescaped, stretch_at, unescaped};
use std::alloc::{AllocError, Global};

/// A name or a string as it is spelled in the input, with its escapes.
///
/// ```text
/// in  cpu\ load a=1i  the measurement  is spelled  cpu\ load  and reads  cpu load
/// ```
#[derive(Clone, Copy)]
pub struct Spelled<'a> {
    pub(crate) token: RawToken<'a>,
}

impl<'a> Spelled<'a> {
    /// Returns the spelling, which is a part of the input.
    ///
    /// ```text
    /// cpu\ load  is spelled  cpu\ load
    /// ```
    #[inline(always)]
    pub fn spelled(&self) -> &'a str
        ensures { result.now ≡ spelling_of self.now }
    {
        self.token.text
    }

    /// Returns whether the spelling holds no backslash, so that it equals the logical text.
    ///
    /// ```text
    /// cpu  is plain,  cpu\ load  is not
    /// ```
    #[inline(always)]
    pub fn is_plain(&self) -> bool
        ensures { result ≡ not (is_one_of (spelling_of self.now) backslash) }
    {
        self.token.is_plain
    }

    /// Returns how many bytes the logical text has.
    ///
    /// ```text
    /// cpu\ load  has 8 bytes, because its logical text is  cpu load
    /// ```
    #[inline(always)]
    pub fn len(&self) -> usize
        ensures { result ≡ length (spelled_text self.now).bytes }
    {
        self.token.len
    }

    /// Returns whether the logical text equals `other`. It takes no memory.
    ///
    /// ```text
    /// cpu\ load  equals  "cpu load"
    /// ```
    #[tactic(auto, using(crate::proofs::lemmas::tokens::TokenLemmas::spelling_steps))]
    pub fn eq_text(&self, other: &str) -> bool
        ensures { result ≡ bytes_eq (spelled_text self.now).bytes other.now }
    {
        let spelling = self.token.text.as_bytes();
        let (mut at, mut left) = (0, other.as_bytes());
        while at < spelling.len() {
            let (from, end) = stretch_at(self.token.kind, spelling, at);
            let Some(others) = left.strip_prefix(&spelling[from..end]) else {
                return false;
            };
            at = end;
            left = others;
        }
        left.is_empty()
    }

    /// Writes the logical text to the front of `to`, which must have room for it. It takes no memory.
    ///
    /// ```text
    /// cpu\ load  writes  cpu load  to the first 8 bytes
    /// ```
    #[tactic(auto, using(crate::proofs::lemmas::tokens::TokenLemmas::spelling_steps))]
    pub fn put(&self, to: &mut [u8])
        requires { length (spelled_text self.now).bytes ≤ length to.old }
        ensures { to.new ≡ (spelled_text self.now).bytes ++ drop (length (spelled_text self.now).bytes) to.old }
    {
        let spelling = self.token.text.as_bytes();
        let (mut at, mut place) = (0, 0);
        while at < spelling.len() {
            let (from, end) = stretch_at(self.token.kind, spelling, at);
            let run = &spelling[from..end];
            to[place..place + run.len()].copy_from_slice(run);
            place += run.len();
            at = end;
        }
    }

    /// Returns the logical text. Only a copy takes memory: one request, for exactly its length.
    ///
    /// ```text
    /// cpu  gives a slice,  cpu\ load  gives the copy  cpu load
    /// ```
    ///
    /// # Errors
    ///
    /// A request for memory was refused.
    #[tactic(auto, using(std::proofs::lemmas::Grind::common_steps, crate::proofs::lemmas::tokens::TokenLemmas::read_plain))]
    #[inline(always)]
    pub fn to_escaped_str(&self, alloc: Global) -> Result<EscapedStr<'a>, AllocError>
        ensures text { IfOk result (λ text. read_of text ≡ spelled_text self.now) }
        ensures no_memory { (spelled_text self.now).is_single ≡ true → IsOk result }
    {
        let token = self.token;
        if token.is_plain {
            return Ok(EscapedStr::SingleSlice(token.text));
        }
        unescaped(alloc, token.kind, token.text, token.len)
    }
}

/// Replaces the text at `place` by the logical text of a spelling, and returns whether memory for it was granted. Only a copy
/// takes memory.
///
/// ```text
/// cpu\ load  replaces  disk load  by the copy  cpu load
/// ```
#[tactic(auto, using(std::proofs::lemmas::Grind::common_steps, crate::proofs::lemmas::tokens::TokenLemmas::read_plain))]
#[inline(always)]
pub fn put_text<'a>(alloc: Global, place: &mut EscapedStr<'a>, text: Spelled<'a>) -> bool
    ensures text { result ≡ true → read_of place.new ≡ spelled_text text.entry }
    ensures needs { result ≡ false → (spelled_text text.entry).is_single ≡ false }
{
    let token = text.token;
    if !token.is_plain {
        return put_unescaped(alloc, token.kind, token.text, token.len, place);
    }
    // To replace a slice by a slice is to write two words.
    if let EscapedStr::SingleSlice(slice) = place {
        *slice = token.text;
    } else {
        *place = EscapedStr::SingleSlice(token.text);
    }
    true
}

/// Returns the logical text of a spelling if it is a part of the input, and else `None`. Without a backslash it is the whole
/// spelling, and of one known escape it is the byte after the backslash.
///
/// ```text
/// cpu  gives  cpu,  \,  gives  ,  and  cpu\ load  gives None
/// ```
#[inline(always)]
pub fn shared<'a>(text: Spelled<'a>) -> Option<&'a str>
    ensures { MatchOption result ((spelled_text text.entry).is_single ≡ false)
        (λ part. record { bytes = part.now; is_single = true } ≡ spelled_text text.entry) }
{
    let spelling = text.token.text;
    if text.token.is_plain {
        return Some(spelling);
    }
    if spelling.len() == 2 && text.token.len == 1 {
        return Some(&spelling[1..]);
    }
    None
}

/// A value of a field as it is spelled in the input.
///
/// ```text
/// 64i  is  I64(64),  1.5  is  F64 of the text 1.5,  "a\"b"  is  String, spelled  a\"b
/// ```
#[derive(Clone, Copy)]
pub enum SpelledValue<'a> {
    /// An integer: digits and `i`.
    I64(i64),
    /// An unsigned integer: digits and `u`.
    U64(u64),
    /// A float, by its text.
    F64(FloatText<'a>),
    /// A text between quotes.
    String(Spelled<'a>),
    /// `true` or `false`, in one of their spellings.
    Boolean(bool),
}

/// The fault of a line. Its texts are parts of the input.
///
/// ```text
/// m a=9223372036854775808i  has  IntegerValueInvalid  with the value  9223372036854775808
/// ```
#[derive(Clone, Copy, Debug)]
pub enum SpelledFault<'a> {
    /// The line does not begin with a measurement.
    MeasurementValueInvalid,
    /// The line has no field.
    FieldSetMissing,
    /// An integer is out of the range of `i64`; `value` are its digits as they were spelled.
    IntegerValueInvalid { source: OutOfRange, value: &'a str },
    /// An unsigned integer is out of the range of `u64`; `value` are its digits as they were spelled.
    UIntegerValueInvalid { source: OutOfRange, value: &'a str },
    /// A timestamp is out of the range of `i64`; `value` is the number as it was spelled.
    TimestampValueInvalid { source: OutOfRange, value: &'a str },
    /// A name ends in a backslash.
    EndsWithBackslash,
    /// Something is left after the last part that could be read.
    CannotParseEntireLine { trailing_content: &'a str },
    /// A comma comes after the measurement, and no tag after it.
    TagSetMalformed,
    /// No space comes after the measurement.
    GenericParsingError { kind: ErrorKind },
}

impl<'a> SpelledFault<'a> {
    ghost use Rattle.std.specs.Prelude.{◌≢◌};
    ghost use Rattle.lp_format.specs.code.Light.{carries_no_text};
    ghost use Rattle.lp_values.specs.code.Outcomes.{IsFault};
    ghost use Rattle.lp_values.specs.code.SpelledParts.{spelled_fault};

    /// Returns the fault as an [`Error`], with a copy of its text. Only a fault with a text takes memory. Returns `OutOfMemory`
    /// if this memory was refused.
    ///
    /// ```text
    /// IntegerValueInvalid  with the part  9223372036854775808  of the input  gives it with a copy of this text
    /// ```
    #[cold]
    #[inline(never)]
    pub fn to_error(self, alloc: Global) -> Error
        ensures fault { IsFault result (λ fault. fault ≡ spelled_fault self.entry) }
        ensures no_memory { carries_no_text (spelled_fault self.entry) ≡ true → result ≢ Error.OutOfMemory }
    {
        match self {
            SpelledFault::MeasurementValueInvalid => Error::MeasurementValueInvalid,
            SpelledFault::FieldSetMissing => Error::FieldSetMissing,
            SpelledFault::EndsWithBackslash => Error::EndsWithBackslash,
            SpelledFault::TagSetMalformed => Error::TagSetMalformed,
            SpelledFault::GenericParsingError { kind } => Error::GenericParsingError { kind },
            SpelledFault::IntegerValueInvalid { source, value } => match String::from_str(
                alloc, value,
            ) {
                Ok(value) => Error::IntegerValueInvalid { source, value },
                Err(_) => Error::OutOfMemory,
            },
            SpelledFault::UIntegerValueInvalid { source, value } => match String::from_str(
                alloc, value,
            ) {
                Ok(value) => Error::UIntegerValueInvalid { source, value },
                Err(_) => Error::OutOfMemory,
            },
            SpelledFault::TimestampValueInvalid { source, value } => match String::from_str(
                alloc, value,
            ) {
                Ok(value) => Error::TimestampValueInvalid { source, value },
                Err(_) => Error::OutOfMemory,
            },
            SpelledFault::CannotParseEntireLine { trailing_content } => match String::from_str(
                alloc,
                trailing_content,
            ) {
                Ok(trailing_content) => Error::CannotParseEntireLine { trailing_content },
                Err(_) => Error::OutOfMemory,
            },
        }
    }
}
