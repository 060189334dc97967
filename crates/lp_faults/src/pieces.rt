//! Pieces of the input.
ghost use Rattle.std.specs.Prelude.{◌≡◌, length};
ghost use Rattle.std.specs.Str.Lines.{strip_carriage_return};
ghost use Rattle.lp_faults.specs.Objects.{bytes_given, len_given, newlines_given};
ghost use Rattle.lp_faults.specs.Refusals.{IsPieceOf, front_in, given_of};

use influxdb_line_protocol::PieceTooLong;
use lp_escapes::texts::text_of;
use lp_scan::newlines::newlines_in;
use lp_scan::trim::trimmed;

/// A piece of the input, and whether it is text.
#[derive(Clone, Copy)]
pub enum Piece<'a> {
    Text(&'a str),
    /// It is not UTF-8.
    NoText(&'a [u8]),
    TooLong(PieceTooLong<'a>),
}

/// The piece that a stream gave.
pub fn piece_of<'a>(given: Result<&'a [u8], PieceTooLong<'a>>) -> Piece<'a>
    ensures { IsPieceOf given.entry result }
{
    match given {
        Ok(bytes) => match text_of(bytes) {
            Ok(text) => Piece::Text(text),
            Err(_) => Piece::NoText(bytes),
        },
        Err(fault) => Piece::TooLong(fault),
    }
}

/// A text without the carriage return at its end, if there is one.
pub fn without_return(text: &str) -> &str
    ensures { result.now ≡ strip_carriage_return text.now }
{
    match text.strip_suffix('\r') {
        Some(line) => line,
        None => text,
    }
}

/// Bytes without the carriage return at their end, if there is one.
pub fn bytes_without_return(bytes: &[u8]) -> &[u8]
    ensures { result.now ≡ strip_carriage_return bytes.now }
{
    if bytes.ends_with(b"\r") {
        return &bytes[..bytes.len() - 1];
    }
    bytes
}

impl<'a> Piece<'a> {
    /// Its bytes, or the first ones if it is too long.
    #[inline(always)]
    pub fn bytes(self) -> &'a [u8]
        ensures { result.now ≡ bytes_given (given_of self.entry) }
    {
        match self {
            Piece::Text(text) => text.as_bytes(),
            Piece::NoText(bytes) => bytes,
            Piece::TooLong(fault) => fault.front,
        }
    }

    /// How many newlines it has.
    #[inline(always)]
    pub fn newlines(self) -> usize
        ensures { result ≡ newlines_given (given_of self.entry) }
    {
        match self {
            Piece::Text(text) => newlines_in(text.as_bytes()),
            Piece::NoText(bytes) => newlines_in(bytes),
            Piece::TooLong(fault) => fault.newlines,
        }
    }

    /// How many bytes it has.
    #[inline(always)]
    pub fn len(self) -> usize
        ensures { result ≡ len_given (given_of self.entry) }
    {
        match self {
            Piece::Text(text) => text.len(),
            Piece::NoText(bytes) => bytes.len(),
            Piece::TooLong(fault) => fault.len,
        }
    }

    /// What comes before its text.
    pub fn front(self) -> &'a [u8]
        ensures { result.now ≡ front_in self.entry }
    {
        match self {
            Piece::Text(text) => {
                let front = text.len().saturating_sub(trimmed(text).len());
                &text.as_bytes()[..front]
            }
            _ => b"",
        }
    }
}
