//! The track of a piece: the data about its bytes, which are not kept, that decides the meaning of the next byte.

ghost use Rattle.std.specs.Prelude.{◌≡◌, ◌+◌, ◌<◌, ◌≤◌, ◌^◌, [], false, true, length, take, IfSome};
ghost use Rattle.lp_split.specs.code.{rules_of, Plain, Line, IsTrackOf, Leads, LeadsTo, most_counted, Steps, TracksOn};

use super::resumed::Region;
use super::{Dialect, HEAD, QUOTED, bare_len, load_ahead};
use lp_scan::scan::{WIDE, ones_below};

/// A place in a piece: its region, whether the byte there is escaped, and how many bare `=` and `,` the plain stretches before it
/// hold.
#[derive(Clone, Copy)]
pub struct Place {
    /// The region of the place.
    pub region: Region,
    /// Whether a bare backslash comes before the place.
    pub is_escaped: bool,
    /// How many bare `=` the plain stretches before the place hold.
    pub equals: usize,
    /// How many bare `,` the plain stretches before the place hold.
    pub commas: usize,
}

impl Place {
    /// Returns a bare place of this region of a piece, with these counts.
    #[inline(always)]
    pub(crate) fn bare(region: Region, equals: usize, commas: usize) -> Place
        ensures { result ≡ record { region = region; is_escaped = false; equals = equals; commas = commas } }
    {
        Place {
            region,
            is_escaped: false,
            equals,
            commas,
        }
    }
}

/// The data about the bytes of a piece so far.
#[derive(Clone, Copy)]
pub enum Track {
    /// The next newline ends the piece: the bytes begin a comment, or each newline ends a line.
    ToNewline,
    /// The bytes are blanks, after which a comment can begin.
    Blanks(Place),
    /// The bytes do not begin a comment.
    Line(Place),
}

// Returns the place after one more byte, or `None` if the piece ends before this byte.
#[tactic(auto, using(crate::proofs::lemmas::split::SplitWalk::byte_steps))]
fn after_byte(place: Place, byte: u8) -> Option<Place>
    requires room { (place.equals + 1 < 2 ^ 64) × (place.commas + 1 < 2 ^ 64) }
    ensures steps { Steps place byte result }
    ensures few { IfSome result (λ next. (next.equals ≤ place.equals + 1) × (next.commas ≤ place.commas + 1)) }
{
    let mut next = place;
    next.is_escaped = false;
    if place.is_escaped {
        return Some(next);
    }
    match (place.region, byte) {
        (Region::Head | Region::Plain, b'\n') => return None,
        (_, b'\\') => next.is_escaped = true,
        (Region::Head, b' ') => next.region = Region::Plain,
        (Region::Plain, b'=') => next.equals += 1,
        (Region::Plain, b',') => next.commas += 1,
        (Region::Plain, b'"') if place.commas < place.equals => next.region = Region::Quoted,
        (Region::Quoted, b'"') => next.region = Region::Plain,
        _ => {}
    }
    Some(next)
}

// Returns the track after one more byte, or `None` if the piece ends before this byte.
fn after(track: Track, byte: u8) -> Option<Track>
    requires room { most_counted track + 1 < 2 ^ 64 }
    ensures leads { Leads track byte result }
    ensures few { IfSome result (λ next. most_counted next ≤ most_counted track + 1) }
{
    match track {
        Track::ToNewline if byte == b'\n' => None,
        Track::ToNewline => Some(Track::ToNewline),
        Track::Blanks(_) if byte == b'#' => Some(Track::ToNewline),
        Track::Blanks(place) if byte == b' ' || byte == b'\t' => {
            Some(Track::Blanks(after_byte(place, byte)?))
        }
        Track::Blanks(place) => Some(Track::Line(after_byte(place, byte)?)),
        Track::Line(place) => Some(Track::Line(after_byte(place, byte)?)),
    }
}

impl Track {
    /// Returns the track before the first byte of a piece.
    #[tactic(auto, using(crate::proofs::lemmas::split::TrackedPieces::first_tracks))]
    pub(crate) fn new(dialect: Dialect) -> Track
        ensures track { IsTrackOf (rules_of dialect) [] result }
        ensures few { most_counted result ≡ 0 }
    {
        let place = Place::bare(Region::Head, 0, 0);
        match dialect {
            Dialect::Crate => Track::Line(place),
            Dialect::Strict => Track::Blanks(place),
            Dialect::NewlineDelimited => Track::ToNewline,
        }
    }
}

// Returns how many bytes of a plain stretch a load at the start of the text shows, and the place after them: the bytes up to the
// first bare newline or quote, or all bytes that the load shows. A text that is no longer than a load is not looked at.
#[inline(always)]
fn plain_leap(place: Place, text: &[u8]) -> (usize, Place)
    requires plain { place.region ≡ Region.Plain }
    requires is_bare { place.is_escaped ≡ false }
    requires room { (place.equals + length text.now < 2 ^ 64) × (place.commas + length text.now < 2 ^ 64) }
    ensures within { result.0 ≤ length text.now }
    ensures leads { LeadsTo (take result.0 text.now) (Line place) (Line result.1) }
    ensures few { (result.1.equals ≤ place.equals + result.0) × (result.1.commas ≤ place.commas + result.0) }
{
    if text.len() <= WIDE {
        return (0, place);
    }
    let ahead = load_ahead(text, 0);
    if ahead.stops == 0 {
        let next = Place {
            equals: place.equals + ones_below(ahead.equals, WIDE),
            commas: place.commas + ones_below(ahead.commas, WIDE),
            ..place
        };
        return (ahead.end, next);
    }
    let run = ahead.stops.trailing_zeros() as usize;
    let next = Place {
        equals: place.equals + ones_below(ahead.equals, run),
        commas: place.commas + ones_below(ahead.commas, run),
        ..place
    };
    (run, next)
}

// Returns how many bytes can be passed together, and the track after them. In a head or a quoted stretch these are the bytes up
// to the bare byte that ends it, or to the last bare place; in a plain stretch, the bytes that a load shows.
#[inline(always)]
fn leap(track: Track, text: &[u8]) -> (usize, Track)
    requires room { most_counted track + length text.now < 2 ^ 64 }
    ensures within { result.0 ≤ length text.now }
    ensures leads { LeadsTo (take result.0 text.now) track result.1 }
    ensures few { most_counted result.1 ≤ most_counted track + result.0 }
{
    match track {
        Track::Line(place) if !place.is_escaped => match place.region {
            Region::Head => (bare_len(HEAD, text), track),
            Region::Plain => {
                let (len, next) = plain_leap(place, text);
                (len, Track::Line(next))
            }
            Region::Quoted => (bare_len(QUOTED, text), track),
        },
        _ => (0, track),
    }
}

/// Returns the place, in `text`, of the newline that ends the piece of the track `from`, where `text` comes after the bytes of
/// the track.
///
/// If no newline ends the piece, the error is the track of all bytes, from which the next call can go on. Each byte is looked at
/// once. No memory is taken.
pub fn track_on(text: &[u8], from: Track) -> Result<usize, Track>
    requires room { most_counted from + length text.now < 2 ^ 64 }
    ensures { TracksOn text.now from result }
{
    let (mut track, mut at) = (from, 0);
    loop {
        let (len, next) = leap(track, &text[at..]);
        track = next;
        at += len;
        if at == text.len() {
            return Err(track);
        }
        match after(track, text[at]) {
            Some(next) => track = next,
            None => return Ok(at),
        }
        at += 1;
    }
}
