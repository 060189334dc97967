//! Tokens, which are names and the texts between quotes: their ends, and their logical texts.

ghost use Rattle.std.specs.Prelude.{◌≡◌, ◌+◌, ◌-◌, ◌<◌, ◌≤◌, ◌==◌, ◌&&◌, ◌++◌, ◌∷◌, [], true, false, length, take, drop};
ghost use Rattle.std.specs.Prelude.{slice_index, string_bytes, IsCharBoundary, IfOk, IsOk, OnOk, string_capacity};
ghost use Rattle.lp_format.specs.format.{backslash, is_one_of, EscapeScan, first_bare, without_escapes, ends_in_backslash};
ghost use Rattle.lp_format.specs.format.{is_shared, read_text};
ghost use Rattle.lp_scan.specs.code.{stops_of, known_of, is_plain, IsRunAt};
ghost use Rattle.lp_values.specs.code.{RawTokens.IsTold, Texts.read_of};

use crate::escaped::EscapedStr;
use lp_scan::lanes::{LANES, backslash_run, backslashes, first_set, known_in, plain_run, stops_in};
use lp_scan::scan::{WIDE, bare, escapes_next, ones_below, places_of};
use lp_scan::sets::TokenKind;
use std::alloc::{AllocError, Global};

/// A token as it is in the input, with its escapes: a name, or the text between quotes.
#[derive(Clone, Copy)]
pub struct RawToken<'a> {
    pub text: &'a str,
    // The length of the token without its escapes.
    pub(crate) len: usize,
    pub kind: TokenKind,
    // Whether the token holds no backslash.
    pub(crate) is_plain: bool,
    ghost told: { IsTold (known_of kind) text.now len is_plain },
}

impl<'a> RawToken<'a> {
    /// Returns whether the token ends in a backslash.
    #[inline(always)]
    pub fn ends_in_backslash(self) -> bool
        ensures { result ≡ ends_in_backslash self.entry.text.now }
    {
        !self.is_plain && matches!(self.text.as_bytes(), [.., b'\\'])
    }
}

// Returns the first place from `at` on of a backslash or of a byte that ends a token of this kind, or the end, byte by byte.
#[inline(always)]
fn plain_tail(kind: TokenKind, bytes: &[u8], at: usize) -> usize
    requires { at ≤ length bytes.now }
    ensures { IsRunAt (is_plain (stops_of kind)) bytes.now at result }
{
    let mut end = at;
    while end < bytes.len() && bytes[end] != b'\\' && !kind.is_stop(bytes[end]) {
        end += 1;
    }
    end
}

// Returns the first place from `at` on of a backslash or of a byte that ends a token of this kind, or the end, 16 bytes at a
// time.
#[inline(always)]
fn plain_end(kind: TokenKind, bytes: &[u8], at: usize) -> usize
    requires { at ≤ length bytes.now }
    ensures { IsRunAt (is_plain (stops_of kind)) bytes.now at result }
{
    let mut end = at;
    while bytes.len() - end >= LANES {
        let run = plain_run(kind, bytes, end);
        if run < LANES {
            return end + run;
        }
        end += LANES;
    }
    plain_tail(kind, bytes, end)
}

// Goes over the 64 bytes from `at` on, up to one that ends the token or to the next bare place after them. Returns the place that
// is reached, and how many of the escapes before it are known.
#[inline(always)]
fn escapes_in_load(kind: TokenKind, bytes: &[u8], at: usize, found: usize) -> (usize, usize)
    requires walked { EscapeScan (known_of kind) (stops_of kind) bytes.now at found }
    requires room { at + WIDE < length bytes.now }
    ensures walked { EscapeScan (known_of kind) (stops_of kind) bytes.now result.0 result.1 }
    ensures stops { result.0 < at + WIDE → stops_of kind (slice_index bytes.now result.0) ≡ true }
{
    let backslashes = places_of(b'\\', bytes, at);
    let run = first_set(bare(stops_in(kind, bytes, at), backslashes), WIDE);
    // The bare backslashes before a known byte.
    let known = bare(backslashes, backslashes) & known_in(kind, bytes, at + 1);
    let found = found + ones_below(known, run);
    if run < WIDE {
        return (at + run, found);
    }
    (at + (WIDE + escapes_next(backslashes)), found)
}

// Goes on from escape to escape to the end of the token, however many bytes are left. Returns the place that is reached, and how
// many of the escapes before it are known.
#[inline(never)]
fn escapes_to_end(kind: TokenKind, bytes: &[u8], at: usize, found: usize) -> (usize, usize)
    requires walked { EscapeScan (known_of kind) (stops_of kind) bytes.now at found }
    ensures value { result.0 ≡ first_bare (stops_of kind) bytes.now }
    ensures within { result.0 ≤ length bytes.now }
    ensures stops { result.0 < length bytes.now → stops_of kind (slice_index bytes.now result.0) ≡ true }
    ensures len { length (without_escapes (known_of kind) (take result.0 bytes.now)) + result.1 ≡ result.0 }
{
    let mut end = plain_end(kind, bytes, at);
    let mut known = found;
    while end < bytes.len() && bytes[end] == b'\\' {
        if end + 1 == bytes.len() {
            return (end + 1, known);
        }
        known += usize::from(kind.is_known(bytes[end + 1]));
        end = plain_end(kind, bytes, end + 2);
    }
    (end, known)
}

// Returns the end of the token at the start of `bytes`, and the length of the token without its escapes. `at` is the place of the
// first backslash of the token.
#[inline(always)]
fn escaped_end_of(kind: TokenKind, bytes: &[u8], at: usize) -> (usize, usize)
    requires run { IsRunAt (is_plain (stops_of kind)) bytes.now 0 at }
    requires here { slice_index bytes.now at ≡ backslash }
    requires within { at < length bytes.now }
    ensures end { result.0 ≡ first_bare (stops_of kind) bytes.now }
    ensures told { IsTold (known_of kind) (take result.0 bytes.now) result.1 false }
    ensures within { result.0 ≤ length bytes.now }
    ensures stops { result.0 < length bytes.now → stops_of kind (slice_index bytes.now result.0) ≡ true }
{
    let mut end = at;
    let mut known = 0;
    while bytes.len() - end > WIDE {
        let (next, found) = escapes_in_load(kind, bytes, end, known);
        if next < end + WIDE {
            return (next, next - found);
        }
        end = next;
        known = found;
    }
    let (end, known) = escapes_to_end(kind, bytes, end, known);
    (end, end - known)
}

// Does what `escaped_end_of` does, with a loop for each set of bytes that end a token, so that the compiler knows these bytes:
// with one loop for all of them, events take 2.8 times the instructions on `escapes`.
#[cold]
#[inline(never)]
fn escaped_end(kind: TokenKind, bytes: &[u8], at: usize) -> (usize, usize)
    requires run { IsRunAt (is_plain (stops_of kind)) bytes.now 0 at }
    requires here { slice_index bytes.now at ≡ backslash }
    requires within { at < length bytes.now }
    ensures end { result.0 ≡ first_bare (stops_of kind) bytes.now }
    ensures told { IsTold (known_of kind) (take result.0 bytes.now) result.1 false }
    ensures within { result.0 ≤ length bytes.now }
    ensures stops { result.0 < length bytes.now → stops_of kind (slice_index bytes.now result.0) ≡ true }
{
    match kind {
        TokenKind::Measurement => escaped_end_of(TokenKind::Measurement, bytes, at),
        TokenKind::TagKey | TokenKind::FieldKey => { escaped_end_of(TokenKind::TagKey, bytes, at) }
        TokenKind::TagValue => escaped_end_of(TokenKind::TagValue, bytes, at),
        TokenKind::String => escaped_end_of(TokenKind::String, bytes, at),
    }
}

// Returns the end of the token at the start of `text`, the length of the token without its escapes, and whether it holds no
// backslash.
#[inline(always)]
fn scan_token(kind: TokenKind, text: &str) -> (usize, usize, bool)
    ensures end { result.0 ≡ first_bare (stops_of kind) text.now }
    ensures told { IsTold (known_of kind) (take result.0 text.now) result.1 result.2 }
    ensures boundary { IsCharBoundary text.now result.0 }
{
    let bytes = text.as_bytes();
    let end = plain_end(kind, bytes, 0);
    if end < bytes.len() && bytes[end] == b'\\' {
        let (end, len) = escaped_end(kind, bytes, end);
        return (end, len, false);
    }
    (end, end, true)
}

/// Takes the token at the start of `text`, which can be empty, and returns it with the rest.
#[inline(always)]
pub fn take_token(kind: TokenKind, text: &str) -> (RawToken<'_>, &str)
    ensures kind { result.0.kind ≡ kind }
    ensures text { result.0.text.now ≡ take (first_bare (stops_of kind) text.now) text.now }
    ensures rest { result.1.now ≡ drop (first_bare (stops_of kind) text.now) text.now }
{
    let (end, len, is_plain) = scan_token(kind, text);
    let (text, rest) = text.split_at(end);
    let token = RawToken {
        text,
        len,
        kind,
        is_plain,
    };
    (token, rest)
}

// Returns whether a spelling begins with a known escape.
#[inline(always)]
fn begins_escaped(kind: TokenKind, spelling: &[u8]) -> bool
    ensures { result ≡ (slice_index spelling.now 0 == backslash && is_one_of (known_of kind) (slice_index spelling.now 1)) }
{
    matches!(spelling, [b'\\', byte, ..] if kind.is_known(*byte))
}

// Returns the place of the byte that the logical text from `at` on begins with: after the backslash of a known escape, and else
// `at`.
#[tactic(auto, using(crate::proofs::lemmas::tokens::TokenLemmas::byte_steps))]
#[inline(always)]
fn first_byte_at(kind: TokenKind, spelling: &[u8], at: usize) -> usize
    requires { at < length spelling.now }
    ensures value { without_escapes (known_of kind) (drop at spelling.now)
        ≡ slice_index spelling.now result ∷ without_escapes (known_of kind) (drop (result + 1) spelling.now) }
    ensures further { at ≤ result }
    ensures within { result < length spelling.now }
    ensures boundary { IsCharBoundary spelling.now at → IsCharBoundary spelling.now result }
{
    if begins_escaped(kind, &spelling[at..]) {
        return at + 1;
    }
    at
}

// Returns the place of the first backslash from `at` on, or the end, byte by byte.
#[inline(always)]
fn backslash_walk(bytes: &[u8], at: usize) -> usize
    requires { at ≤ length bytes.now }
    ensures { IsRunAt (is_plain (λ b. false)) bytes.now at result }
{
    let mut end = at;
    while end < bytes.len() && bytes[end] != b'\\' {
        end += 1;
    }
    end
}

// Returns the place of the first backslash of the last bytes, which are fewer than 16, or the end: by a load that overlaps the
// bytes before them, if the text is long enough.
#[inline(always)]
fn backslash_tail(bytes: &[u8], at: usize) -> usize
    requires within { at ≤ length bytes.now }
    requires few { length bytes.now < at + LANES }
    ensures { IsRunAt (is_plain (λ b. false)) bytes.now at result }
{
    if bytes.len() < LANES {
        return backslash_walk(bytes, at);
    }
    let left = bytes.len() - at;
    let mask = backslashes(bytes, bytes.len() - LANES) >> (LANES - left);
    at + first_set(mask, left)
}

// Returns the place of the first backslash from `at` on, or the end, 16 bytes at a time.
//
// This function is separate from `plain_end`: one search for both makes the reader of a field so large that the compiler drops
// `inline(always)` from it, and events take 1.4 times the instructions.
#[inline(always)]
fn backslash_at(bytes: &[u8], at: usize) -> usize
    requires { at ≤ length bytes.now }
    ensures { IsRunAt (is_plain (λ b. false)) bytes.now at result }
{
    let mut end = at;
    while bytes.len() - end >= LANES {
        let run = backslash_run(bytes, end);
        if run < LANES {
            return end + run;
        }
        end += LANES;
    }
    backslash_tail(bytes, end)
}

/// Returns the first stretch from `at` on that a spelling and its logical text have in common: it goes from a place up to a
/// backslash, or to the end.
#[tactic(auto, using(std::proofs::lemmas::Grind::common_steps, crate::proofs::lemmas::tokens::TokenLemmas::stretch_stays))]
#[inline(always)]
pub(crate) fn stretch_at(kind: TokenKind, spelling: &[u8], at: usize) -> (usize, usize)
    requires { at < length spelling.now }
    ensures value { without_escapes (known_of kind) (drop at spelling.now)
        ≡ take (result.1 - result.0) (drop result.0 spelling.now) ++ without_escapes (known_of kind) (drop result.1 spelling.now) }
    ensures further { at ≤ result.0 }
    ensures some { result.0 < result.1 }
    ensures within { result.1 ≤ length spelling.now }
    ensures start { IsCharBoundary spelling.now at → IsCharBoundary spelling.now result.0 }
    ensures end { IsCharBoundary spelling.now result.1 }
{
    let from = first_byte_at(kind, spelling, at);
    (from, backslash_at(spelling, from + 1))
}

// Appends the logical text of `spelled` to `to`, which must have room for it. It asks for no memory.
#[tactic(auto, using(crate::proofs::lemmas::tokens::TokenLemmas::spelling_steps))]
#[inline(always)]
fn put(kind: TokenKind, spelled: &str, to: &mut String) -> Result<(), AllocError>
    requires empty { string_bytes to.old ≡ [] }
    requires room { length (without_escapes (known_of kind) spelled.now) ≤ string_capacity to.old }
    ensures has_room { IsOk result }
    ensures text { string_bytes to.new ≡ without_escapes (known_of kind) spelled.now }
{
    let mut at = 0;
    while at < spelled.len() {
        let (from, end) = stretch_at(kind, spelled.as_bytes(), at);
        to.push_str(&spelled[from..end])?;
        at = end;
    }
    Ok(())
}

// Returns a copy of the logical text of `spelled`, which has `len` bytes. It asks for memory once.
#[inline(never)]
fn copy(alloc: Global, kind: TokenKind, spelled: &str, len: usize) -> Result<String, AllocError>
    requires { len ≡ length (without_escapes (known_of kind) spelled.now) }
    ensures { IfOk result (λ text. string_bytes text ≡ without_escapes (known_of kind) spelled.now) }
{
    let mut text = String::with_capacity(alloc, len)?;
    put(kind, spelled, &mut text)?;
    Ok(text)
}

// Returns the logical text of `text`, which holds a backslash and has `len` bytes without its escapes.
#[tactic(auto, using(std::proofs::lemmas::Grind::common_steps, crate::proofs::lemmas::tokens::TokenLemmas::read_escape))]
#[inline(always)]
pub(crate) fn unescaped<'a>(
    alloc: Global,
    kind: TokenKind,
    text: &'a str,
    len: usize,
) -> Result<EscapedStr<'a>, AllocError>
    requires { IsTold (known_of kind) text.now len false }
    ensures text { IfOk result (λ r. read_of r ≡ read_text (known_of kind) text.now) }
    ensures no_memory { is_shared (known_of kind) text.now ≡ true → IsOk result }
{
    if matches!(text.as_bytes(), [b'\\', byte] if kind.is_known(*byte)) {
        return Ok(EscapedStr::SingleSlice(&text[1..]));
    }
    let text = copy(alloc, kind, text, len)?;
    Ok(EscapedStr::CopiedValue(text))
}

// Replaces another text by the logical text of `text`, which holds a backslash, and returns whether memory for it was granted.
// The old text is let go first, so that its memory can be used again.
//
// It takes the parts of a token, and not the token, so that no reader has to put a token together in memory.
#[inline(never)]
pub(crate) fn put_unescaped<'a>(
    alloc: Global,
    kind: TokenKind,
    text: &'a str,
    len: usize,
    place: &mut EscapedStr<'a>,
) -> bool
    requires { IsTold (known_of kind) text.now len false }
    ensures text { result ≡ true → read_of place.new ≡ read_text (known_of kind) text.now }
    ensures needs { result ≡ false → is_shared (known_of kind) text.now ≡ false }
{
    *place = EscapedStr::SingleSlice("");
    match unescaped(alloc, kind, text, len) {
        Ok(text) => {
            *place = text;
            true
        }
        Err(_) => false,
    }
}
