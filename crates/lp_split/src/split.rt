//! The splitter, which cuts a text into its pieces.

ghost use Rattle.std.specs.Prelude.{◌≡◌, ◌≢◌, ◌+◌, ◌/◌, ◌^◌, ◌<◌, ◌≤◌, ◌==◌, ◌||◌, ℕ, length, take, drop, option_map, slice_index, IfSome};
ghost use Rattle.std.specs.Prelude.{MatchOption, true, false, All};
ghost use Rattle.std.specs.Iterator.{at_most};
ghost use Rattle.lp_format.specs.format.{backslash, newline, quote, IsBareAfter, begins_comment, IsFirstCut, GivesPiece, most_pieces};
ghost use Rattle.lp_format.specs.format.{Crate, newlines_in};
ghost use Rattle.memchr.specs.Find.{IsFirstByte, is_byte, is_byte3};
ghost use Rattle.lp_scan.specs.code.{mask_of, IsBarePassed};
ghost use Rattle.lp_split.specs.code.{IsAhead, AreSeen, is_mark, is_stop, EndsIn, Quoted, FindsCut, rules_of};

use lp_scan::lanes::first_set;
use lp_scan::scan::{WIDE, bare, escapes_next, ones_below, places_of};
use memchr::{memchr, memchr2, memchr3};
use std::marker::Model;
use std::simd::prelude::*;

mod resumed;
mod tracked;

use resumed::cut_after;
pub use resumed::{Region, cut_or_track};
pub(crate) use resumed::{Search, search_on};
pub use tracked::{Place, Track, track_on};

// The number of bytes that wide loads look at, if they find nothing, before `memchr` goes on with the search.
const NEAR: usize = 320;

/// A dialect of line protocol, that is, a set of rules.
///
/// A call that names no dialect uses [`Dialect::Crate`].
#[derive(Clone, Copy, Debug, PartialEq, Eq)]
pub enum Dialect {
    /// The rules of the Rust crate `influxdb-line-protocol`.
    Crate,
    /// The rules of `Crate` with two differences: a comment ends at the first newline, whatever the comment holds, and the comma
    /// after the first field is taken only together with a second field.
    Strict,
    /// The strict rules, and each newline ends a line, even within a string, within a comment or after a backslash. Each line is
    /// read as if it were alone, whatever the other lines hold. No string holds a newline.
    NewlineDelimited,
}

// The two bytes that end a stretch. Both can be the same byte.
#[derive(Clone, Copy)]
struct Stops(u8, u8);

// The bytes that end a head.
const HEAD: Stops = Stops(b' ', b'\n');

// The bytes that end a plain stretch.
const PLAIN: Stops = Stops(b'\n', b'"');

// The byte that ends a quoted stretch.
const QUOTED: Stops = Stops(b'"', b'"');

// Returns the mask of the bytes that end a stretch, among the 64 bytes from `at` on.
#[inline(always)]
fn stops_in(stops: Stops, text: &[u8], at: usize) -> u64
    requires { at + WIDE ≤ length text.now }
    ensures { result ≡ mask_of (is_stop stops) text.now at WIDE }
{
    let v = u8x64::from_slice(&text[at..]);
    (v.simd_eq(u8x64::splat(stops.0)) | v.simd_eq(u8x64::splat(stops.1))).to_bitmask()
}

// Returns how many of the 64 bytes from `at` on come before the first bare byte that ends a stretch. Returns 64 if there is none,
// or 65 if the last byte is a bare backslash. `backslashes` is the mask of the backslashes among the 64 bytes.
#[inline(always)]
fn stop_in(stops: Stops, text: &[u8], at: usize, backslashes: u64) -> usize
    requires room { at + WIDE < length text.now }
    requires passed { IsBarePassed (is_stop stops) text.now at }
    requires given { backslashes ≡ mask_of (λ b. b == backslash) text.now at WIDE }
    ensures within { result ≤ WIDE + 1 }
    ensures passed { IsBarePassed (is_stop stops) text.now (at + result) }
    ensures stops { result < WIDE → is_stop stops (slice_index text.now (at + result)) ≡ true }
{
    let run = first_set(bare(stops_in(stops, text, at), backslashes), WIDE);
    if run < WIDE {
        return run;
    }
    WIDE + escapes_next(backslashes)
}

// Returns the place of the first byte that ends a stretch or is a backslash. In a head `memchr3` looks for three bytes, and in a
// quoted stretch `memchr2` looks for the backslash and the quote.
#[inline(always)]
fn next_mark(stops: Stops, text: &[u8]) -> Option<usize>
    ensures { IsFirstByte (is_byte3 backslash stops.0 stops.1) text.now result }
{
    if stops.0 == stops.1 {
        return memchr2(b'\\', stops.0, text);
    }
    memchr3(b'\\', stops.0, stops.1, text)
}

// Returns how many bytes come before the first bare byte that ends a stretch. Returns the length of the text if there is none,
// less one if the text ends in a bare backslash. Wide loads look at the first bytes, and then `memchr` goes on.
#[inline(always)]
fn bare_len(stops: Stops, text: &[u8]) -> usize
    requires { is_stop stops backslash ≡ false }
    ensures { IsBarePassed (is_stop stops) text.now result }
{
    let (mut at, mut quiet) = (0, 0);
    loop {
        if quiet < NEAR && text.len() - at > WIDE {
            let backslashes = places_of(b'\\', text, at);
            let run = stop_in(stops, text, at, backslashes);
            at += run;
            if run < WIDE {
                return at;
            }
            quiet = if backslashes == 0 { quiet + WIDE } else { 0 };
            continue;
        }
        let Some(found) = next_mark(stops, &text[at..]) else {
            return text.len();
        };
        at += found;
        if text[at] != b'\\' || at + 1 == text.len() {
            return at;
        }
        // The byte after a backslash is escaped.
        at += 2;
        quiet = 0;
    }
}

// The masks that a load showed of the bytes from a place on: of the bare newlines and quotes, of the bare `=`, and of the bare
// `,`. `end` is the place after the bytes that are passed with them.
#[derive(Clone, Copy)]
struct Ahead {
    stops: u64,
    equals: u64,
    commas: u64,
    end: usize,
}

// Returns the masks of a load that saw nothing from this place on.
#[inline(always)]
fn nothing_from(at: usize) -> Ahead
    ensures { result ≡ record { stops = 0; equals = 0; commas = 0; end = at } }
{
    Ahead {
        stops: 0,
        equals: 0,
        commas: 0,
        end: at,
    }
}

// Loads the 64 bytes from `at` on, and returns their masks.
#[inline(always)]
fn load_ahead(text: &[u8], at: usize) -> Ahead
    requires room { at + WIDE < length text.now }
    requires starts_bare { IsBareAfter (take at text.now) }
    ensures seen { IsAhead text.now at result }
    ensures further { at < result.end }
{
    let backslashes = places_of(b'\\', text, at);
    Ahead {
        stops: bare(stops_in(PLAIN, text, at), backslashes),
        equals: bare(places_of(b'=', text, at), backslashes),
        commas: bare(places_of(b',', text, at), backslashes),
        end: at + WIDE + escapes_next(backslashes),
    }
}

// Returns the masks of the bytes that come after the first `run` bytes and one more.
#[inline(always)]
fn seen_past(ahead: Ahead, run: usize) -> Ahead
    requires { run < WIDE }
    ensures { result ≡ record {
      stops = ahead.stops / 2 ^ run / 2;
      equals = ahead.equals / 2 ^ run / 2;
      commas = ahead.commas / 2 ^ run / 2;
      end = ahead.end;
    } }
{
    Ahead {
        stops: (ahead.stops >> run) >> 1,
        equals: (ahead.equals >> run) >> 1,
        commas: (ahead.commas >> run) >> 1,
        end: ahead.end,
    }
}

// Returns the place of the first bare quote of a quoted stretch that begins at the bare place `at`, or else a bare place up to
// which the stretch goes on, and the masks of the bytes after it.
#[tactic(auto, using(crate::proofs::lemmas::split::SplitStretches::quoted_ends))]
#[inline(always)]
fn quoted_end(text: &[u8], at: usize, ahead: Ahead) -> (usize, Ahead)
    requires { IsAhead text.now at ahead }
    ensures ordered { (at ≤ result.0) × (result.0 ≤ length text.now) }
    ensures bare { IsBareAfter (take result.0 text.now) }
    ensures stays { (e c : ℕ) → EndsIn Quoted e c (take at text.now) → EndsIn Quoted e c (take result.0 text.now) }
    ensures later { result.0 < length text.now → slice_index text.now result.0 ≡ quote → IsAhead text.now (result.0 + 1) result.1 }
{
    if ahead.stops != 0 {
        let run = ahead.stops.trailing_zeros() as usize;
        if text[at + run] == b'"' {
            return (at + run, seen_past(ahead, run));
        }
    }
    let end = at + bare_len(QUOTED, &text[at..]);
    (end, nothing_from(end + 1))
}

/// Returns the place of the newline that ends the first piece, or `None` if the text is one piece. Comments are not looked for.
/// Loads find the ends of plain stretches, and the bytes after the last load or stretch are tracked.
#[tactic(auto, using(crate::proofs::lemmas::split::SplitStretches::stretches))]
#[inline(never)]
fn cut_by_stretches(text: &[u8]) -> Option<usize>
    ensures { IsFirstCut Crate text.now result }
{
    let head = bare_len(HEAD, text);
    match text.get(head) {
        Some(b' ') => {}
        Some(b'\n') => return Some(head),
        _ => return cut_after(text, head, Region::Head, 0, 0),
    }
    let mut at = head + 1;
    let (mut equals, mut commas, mut ahead) = (0, 0, nothing_from(at));
    loop {
        // A plain stretch begins or goes on at `at`.
        if ahead.stops == 0 {
            at = ahead.end;
            equals += ones_below(ahead.equals, WIDE);
            commas += ones_below(ahead.commas, WIDE);
            if text.len() - at <= WIDE {
                return cut_after(text, at, Region::Plain, equals, commas);
            }
            ahead = load_ahead(text, at);
            continue;
        }
        let run = ahead.stops.trailing_zeros() as usize;
        let end = at + run;
        if text[end] == b'\n' {
            return Some(end);
        }
        equals += ones_below(ahead.equals, run);
        commas += ones_below(ahead.commas, run);
        at = end + 1;
        ahead = seen_past(ahead, run);
        if commas < equals {
            (at, ahead) = quoted_end(text, at, ahead);
            let Some(b'"') = text.get(at) else {
                return cut_after(text, at, Region::Quoted, equals, commas);
            };
            at += 1;
        }
    }
}

/// A byte that can tell of a cut: a newline, and, except in the newline-delimited dialect, a quote or a backslash.
#[derive(Clone, Copy)]
pub struct Mark {
    /// The place of the byte in the text.
    pub at: usize,
    /// The mask of the bytes that can tell of a cut, among at most 64 bytes after this one.
    pub later: u64,
    /// Whether no other byte that can tell of a cut comes before it.
    pub is_first: bool,
}

// Returns the mask of the newlines among the 64 bytes from `at` on.
#[inline(always)]
fn newlines_at(text: &[u8], at: usize) -> u64
    requires { at + WIDE ≤ length text.now }
    ensures { result ≡ mask_of (is_byte newline) text.now at WIDE }
{
    u8x64::from_slice(&text[at..])
        .simd_eq(u8x64::splat(b'\n'))
        .to_bitmask()
}

// Returns the mask of the newlines, quotes and backslashes among the 64 bytes from `at` on.
#[inline(always)]
fn three_at(text: &[u8], at: usize) -> u64
    requires { at + WIDE ≤ length text.now }
    ensures { result ≡ mask_of (is_byte3 backslash newline quote) text.now at WIDE }
{
    let v = u8x64::from_slice(&text[at..]);
    let newlines = v.simd_eq(u8x64::splat(b'\n'));
    let others = v.simd_eq(u8x64::splat(b'"')) | v.simd_eq(u8x64::splat(b'\\'));
    (newlines | others).to_bitmask()
}

// Returns the mask of the bytes that can tell of a cut, among the 64 bytes from `at` on.
#[inline(always)]
fn marks_in(dialect: Dialect, text: &[u8], at: usize) -> u64
    requires { at + WIDE ≤ length text.now }
    ensures { result ≡ mask_of (is_mark (rules_of dialect)) text.now at WIDE }
{
    match dialect {
        Dialect::Crate | Dialect::Strict => three_at(text, at),
        Dialect::NewlineDelimited => newlines_at(text, at),
    }
}

// Returns the place of the first byte that can tell of a cut.
#[inline(always)]
fn find_mark(dialect: Dialect, text: &[u8]) -> Option<usize>
    ensures { IsFirstByte (is_mark (rules_of dialect)) text.now result }
{
    match dialect {
        Dialect::Crate | Dialect::Strict => memchr3(b'\\', b'\n', b'"', text),
        Dialect::NewlineDelimited => memchr(b'\n', text),
    }
}

// Returns the first byte that can tell of a cut. `seen` is the mask of the bytes that were seen at the start of the text.
#[inline(always)]
fn first_mark(dialect: Dialect, text: &[u8], seen: u64) -> Option<Mark>
    requires { AreSeen (rules_of dialect) text.now seen }
    ensures first { IsFirstByte (is_mark (rules_of dialect)) text.now (option_map (λ m. m.at) result) }
    ensures later { IfSome result (λ m. AreSeen (rules_of dialect) (drop (m.at + 1) text.now) m.later) }
{
    if seen != 0 {
        let at = seen.trailing_zeros();
        return Some(Mark {
            at: at as usize,
            later: (seen >> at) >> 1,
            is_first: true,
        });
    }
    let mut at = 0;
    while text.len() - at >= WIDE {
        let marks = marks_in(dialect, text, at);
        if marks != 0 {
            let run = marks.trailing_zeros();
            return Some(Mark {
                at: at + run as usize,
                later: (marks >> run) >> 1,
                is_first: true,
            });
        }
        at += WIDE;
    }
    let last = find_mark(dialect, &text[at..])?;
    Some(Mark {
        at: at + last,
        later: 0,
        is_first: true,
    })
}

/// Returns whether a text begins with any spaces and tabs and then `#`.
fn is_comment(text: &[u8]) -> bool
    ensures { result ≡ begins_comment text.now }
{
    for byte in text {
        match *byte {
            b' ' | b'\t' => {}
            b'#' => return true,
            _ => return false,
        }
    }
    false
}

/// Returns the place of the first newline.
fn first_newline(text: &[u8]) -> Option<usize>
    ensures { MatchOption result (All (λ b. b ≢ newline) text.now)
        (λ i. (i < length text.now) × (slice_index text.now i ≡ newline) × All (λ b. b ≢ newline) (take i text.now)) }
{
    memchr(b'\n', text)
}

/// Returns the place of the newline that ends the first piece, or `None` if the text is one piece.
#[tactic(auto, using(lp_format::proofs::lemmas::split::SplitPieces::strict_cuts))]
#[inline(always)]
fn late_cut(dialect: Dialect, text: &[u8]) -> Option<usize>
    ensures { IsFirstCut (rules_of dialect) text.now result }
{
    match dialect {
        Dialect::Crate => cut_by_stretches(text),
        Dialect::Strict if is_comment(text) => first_newline(text),
        Dialect::Strict => cut_by_stretches(text),
        Dialect::NewlineDelimited => first_newline(text),
    }
}

/// Returns the newline that ends the first piece, or `None` if the text is one piece. It takes no memory.
///
/// `seen` is the mask of the bytes at the start of the text that can tell of a cut: the mask that the search of the text before
/// it returned in [`Mark::later`], or 0.
#[tactic(auto, using(crate::proofs::lemmas::split::FirstMarks::no_cut, crate::proofs::lemmas::split::FirstMarks::cut_at_newline, crate::proofs::lemmas::split::FirstMarks::no_newlines))]
#[inline(always)]
pub fn first_cut(dialect: Dialect, text: &[u8], seen: u64) -> Option<Mark>
    requires { AreSeen (rules_of dialect) text.now seen }
    ensures cut { FindsCut (rules_of dialect) text.now result }
    ensures first { IfSome result (λ cut. cut.is_first ≡ true → newlines_in (take cut.at text.now) ≡ 0) }
{
    let found = first_mark(dialect, text, seen)?;
    // Nothing before it is escaped or quoted, and it is the first newline: it ends a comment too.
    if text[found.at] == b'\n' {
        return Some(found);
    }
    let at = late_cut(dialect, text)?;
    Some(Mark {
        at,
        later: 0,
        is_first: false,
    })
}

/// The pieces of a text, in order. [`split_lines`] returns it.
///
/// The iterator gives one piece more than the number of newlines that it cuts at, at most `input.len() + 1` pieces. After the
/// last piece it gives `None`, also if it is called again. It takes no memory.
#[derive(Drop)]
pub struct SplitLines<'a> {
    dialect: Dialect,
    rest: Option<&'a str>,
    // The mask of the bytes at the start of the rest that can tell of a cut.
    seen: u64,
}

impl<'a> Model for SplitLines<'a> {
    ghost use Rattle.std.specs.Prelude.{option_map, IfSome};
    ghost use Rattle.lp_format.specs.format.{Left};
    ghost use Rattle.lp_split.specs.code.{AreSeen, rules_of};

    ghost Value = { Left };

    ghost view = { λ s. record { dialect = rules_of s.dialect; text = option_map (λ x. x.now) s.rest } };

    ghost invariant = { λ s. IfSome s.rest (λ text. AreSeen (rules_of s.dialect) text.now s.seen) };
}

/// Splits a text into its pieces, at each newline that ends a line.
///
/// A newline after a backslash, or between the quotes of a string value, does not end a line. Joined by newlines, the pieces are
/// the text. Each piece borrows from the input; no memory is taken.
///
/// ```text
/// split_lines("m s=\"a\nb\"\nn c=1i")  gives  "m s=\"a\nb\""  and  "n c=1i"
/// ```
pub fn split_lines(input: &str) -> SplitLines<'_>
    ensures { result ≡ record { dialect = Crate; text = Some input.now } }
{
    split_lines_in(Dialect::Crate, input)
}

/// Splits a text into its pieces by the rules of a dialect.
///
/// [`split_lines`] uses [`Dialect::Crate`]. In the strict dialect, a piece that begins with any spaces and tabs and then `#` ends
/// at the first newline, even after a backslash or within quotes. In the newline-delimited dialect, each piece ends at the first
/// newline. No memory is taken.
///
/// ```text
/// split_lines_in(Dialect::Crate, "# a=\"\nm b=1i")   gives  "# a=\"\nm b=1i"
/// split_lines_in(Dialect::Strict, "# a=\"\nm b=1i")  gives  "# a=\""  and  "m b=1i"
/// split_lines_in(Dialect::NewlineDelimited, "m a=\"\nm b=1i")  gives  "m a=\""  and  "m b=1i"
/// ```
pub fn split_lines_in(dialect: Dialect, input: &str) -> SplitLines<'_>
    ensures { result ≡ record { dialect = rules_of dialect; text = Some input.now } }
{
    SplitLines {
        dialect,
        rest: Some(input),
        seen: 0,
    }
}

impl<'a> SplitLines<'a> {
    /// Returns the text that is left: the text after the newline of the last cut, or `None` after the last piece was given.
    ///
    /// You can tell from it where a piece begins and ends in the text, and in which line, by the number of bytes that are left
    /// before and after the piece.
    ///
    /// ```text
    /// "a\nb"   after split_lines  Some("a\nb")
    ///          after "a"          Some("b")
    ///          after "b"          None
    /// "a\n"    after "a"          Some(""), the piece that comes next
    /// ```
    pub fn remainder(&self) -> Option<&'a str>
        ensures { option_map (λ rest. rest.now) result ≡ self.now.text }
    {
        self.rest
    }
}

// Returns the dialect by whose rules the text is split.
pub fn dialect_of(lines: &SplitLines<'_>) -> Dialect
    ensures { rules_of result ≡ lines.now.dialect }
{
    lines.dialect
}

impl<'a> Iterator for SplitLines<'a> {
    type Item = &'a str;

    ghost next_gives = { GivesPiece };

    ghost remaining = { λ left. at_most (most_pieces left.text) };

    #[inline(always)]
    fn next(&mut self) -> Option<&'a str> {
        let text = self.rest?;
        match first_cut(self.dialect, text.as_bytes(), self.seen) {
            Some(cut) => {
                self.rest = Some(&text[cut.at + 1..]);
                self.seen = cut.later;
                Some(&text[..cut.at])
            }
            None => {
                self.rest = None;
                Some(text)
            }
        }
    }
}
