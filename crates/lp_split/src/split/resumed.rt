//! A search for the first cut that goes on as bytes come.
//!
//! At first, the splitter's own search looks for the cut. If the text is one piece, the search waits for a newline. When one has
//! come, the splitter's search looks again. If it finds no cut, the bytes are tracked, and the track is kept. However the bytes
//! come, each byte is searched only a few times.

ghost use Rattle.std.specs.Prelude.{◌≤◌, Some, length, take};
ghost use Rattle.lp_format.specs.format.{IsBareAfter, IsFirstCut};
ghost use Rattle.lp_format.specs.format.Dialects as dialects;
ghost use Rattle.lp_split.specs.code.{rules_of, CutsOrTracks, EndsIn, IsKnown, SearchesOn, IsTrackOf, most_counted};

use super::tracked::Place;
use super::{Dialect, Mark, Track, first_cut, first_newline, late_cut, track_on};

/// A region of a piece. Its stretches end at different bytes.
#[derive(Clone, Copy)]
pub enum Region {
    /// The bytes before the first bare space: the measurement and the tags.
    Head,
    /// The fields and the bytes after them, outside of quotes.
    Plain,
    /// The bytes between the quotes of a string.
    Quoted,
}

/// The knowledge of a search about a text.
#[derive(Clone, Copy)]
pub(crate) enum Search {
    /// The search begins. This is the mask of the bytes at the start of the text that can tell of a cut.
    Begins(u64),
    /// The number of bytes at the start of the text that hold no cut.
    Quiet(usize),
    /// The track of the bytes before the place `at`.
    Within { at: usize, track: Track },
}

// Returns the place of the newline that ends the first piece, by a search that goes on where it stopped. If the text is one
// piece, the error is the new knowledge of the search.
fn cut_from(text: &[u8], at: usize, track: Track) -> Result<Mark, Search>
    requires within { at ≤ length text.now }
    requires few { most_counted track ≤ at }
    ensures { (dialect : dialects.Dialect) → IsTrackOf dialect (take at text.now) track → SearchesOn dialect text.now result }
{
    match track_on(&text[at..], track) {
        Ok(found) => Ok(Mark {
            at: at + found,
            later: 0,
            is_first: false,
        }),
        Err(track) => Err(Search::Within {
            at: text.len(),
            track,
        }),
    }
}

// Does what `cut_from` does, for a text that begins no comment, from a bare place in this region and with these counts on.
pub(super) fn cut_after(
    text: &[u8],
    at: usize,
    region: Region,
    equals: usize,
    commas: usize,
) -> Option<usize>
    requires within { at ≤ length text.now }
    requires few { (equals ≤ at) × (commas ≤ at) }
    requires is_bare { IsBareAfter (take at text.now) }
    requires ends_in { EndsIn region equals commas (take at text.now) }
    ensures { IsFirstCut dialects.Crate text.now result }
{
    match cut_from(text, at, Track::Line(Place::bare(region, equals, commas))) {
        Ok(cut) => Some(cut.at),
        Err(_) => None,
    }
}

/// Returns the place of the newline that ends the first piece of a text. If the text is one piece, the error is the track of all
/// its bytes.
///
/// With this track, [`track_on`] searches the bytes that come after the text. No memory is taken.
#[tactic(auto, using(crate::proofs::lemmas::split::TrackedPieces::tracks_all))]
pub fn cut_or_track(dialect: Dialect, text: &[u8]) -> Result<usize, Track>
    ensures { CutsOrTracks (rules_of dialect) text.now result }
{
    match first_cut(dialect, text, 0) {
        Some(cut) => Ok(cut.at),
        None => track_on(text, Track::new(dialect)),
    }
}

/// Returns the place of the newline that ends the first piece, by the knowledge of an earlier search of the text. If the text is
/// one piece, the error is the new knowledge.
pub(crate) fn search_on(dialect: Dialect, text: &[u8], known: Search) -> Result<Mark, Search>
    requires { IsKnown (rules_of dialect) text.now known }
    ensures { SearchesOn (rules_of dialect) text.now result }
{
    match known {
        Search::Within { at, track } => cut_from(text, at, track),
        Search::Begins(seen) => match first_cut(dialect, text, seen) {
            Some(cut) => Ok(cut),
            None => Err(Search::Quiet(text.len())),
        },
        Search::Quiet(n) if first_newline(&text[n..]).is_none() => Err(Search::Quiet(text.len())),
        Search::Quiet(_) => match late_cut(dialect, text) {
            Some(at) => Ok(Mark {
                at,
                later: 0,
                is_first: false,
            }),
            None => cut_from(text, 0, Track::new(dialect)),
        },
    }
}
