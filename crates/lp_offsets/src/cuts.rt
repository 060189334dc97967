//! A search for the cuts of a text that comes in parts, over the caller's own bytes.

ghost use Rattle.std.specs.Prelude.{◌≡◌, ◌≢◌, ◌↔◌, ◌≤◌, ◌<◌, ◌+◌, ◌^◌, ℕ, List, [], length, IsFalse, IsTrue};
ghost use Rattle.lp_split.specs.code.{most_counted};
ghost use Rattle.lp_offsets.specs.declared.enums.Answer.TheVariants.{MoreText, OutOfMemory, Piece, TooLong};
ghost use Rattle.lp_offsets.specs.Cutting.{CutsOn, FindsOn, HasCome, IsWithin, KeepsRules, is_cut_answer, place_in, region_in, track_in};
ghost use Rattle.lp_offsets.specs.Numbers.{IsNoDialect, answer_number, dialect_of};

use crate::enums::{Answer, Dialect, dialect_of};
use lp_split::split::{Place, Region, Track, cut_or_track, track_on};

/// A search for cuts: what is known of the bytes of the piece that came so far.
#[repr(C)]
#[derive(Clone, Copy)]
pub struct Cuts {
    /// How many bytes a piece may have.
    pub limit: usize,
    /// How many bytes of the piece came so far. If none did, nothing below but the dialect is looked at.
    pub len: usize,
    /// How many bare `=` the plain stretches of these hold.
    pub equals: usize,
    /// How many bare `,` they hold.
    pub commas: usize,
    /// What they begin: 1 is a comment, 2 is said of blanks, which may begin one, and any other number of a line.
    pub begins: u32,
    /// In which part of a line they end: 1 is a plain stretch, 2 a quoted one, and any other number the head.
    pub part: u32,
    /// The number of the [`Dialect`] by whose rules pieces end; a number of none is taken for that of the Rust crate.
    pub dialect: u32,
    /// Whether the byte after them is escaped.
    pub escaped: bool,
}

// The region of a piece that a number names.
fn region_of(number: u32) -> Region
    ensures { result ≡ region_in number }
{
    match number {
        1 => Region::Plain,
        2 => Region::Quoted,
        _ => Region::Head,
    }
}

// The number of a region of a piece.
fn region_number(region: Region) -> u32
    ensures { region_in result ≡ region }
{
    match region {
        Region::Head => 0,
        Region::Plain => 1,
        Region::Quoted => 2,
    }
}

// The track that a search names.
fn track_of(cuts: &Cuts) -> Track
    ensures { result ≡ track_in cuts.now }
{
    let place = Place {
        region: region_of(cuts.part),
        is_escaped: cuts.escaped,
        equals: cuts.equals.min(cuts.len),
        commas: cuts.commas.min(cuts.len),
    };
    match cuts.begins {
        1 => Track::ToNewline,
        2 => Track::Blanks(place),
        _ => Track::Line(place),
    }
}

// The search that names this place of a piece of which so many bytes came.
fn at_place(cuts: &Cuts, len: usize, begins: u32, place: Place) -> Cuts
    requires few { (place.equals ≤ len) × (place.commas ≤ len) }
    ensures rules { KeepsRules cuts.now result }
    ensures names { (place_in result ≡ place) × (result.begins ≡ begins) × (result.len ≡ len) }
{
    Cuts {
        limit: cuts.limit,
        len,
        equals: place.equals,
        commas: place.commas,
        begins,
        part: region_number(place.region),
        dialect: cuts.dialect,
        escaped: place.is_escaped,
    }
}

// The search that names this track of a piece of which so many bytes came.
fn on_track(cuts: &Cuts, len: usize, track: Track) -> Cuts
    requires few { most_counted track ≤ len }
    ensures rules { KeepsRules cuts.now result }
    ensures names { (track_in result ≡ track) × (result.len ≡ len) }
{
    match track {
        Track::ToNewline => Cuts {
            len,
            begins: 1,
            ..*cuts
        },
        Track::Blanks(place) => at_place(cuts, len, 2, place),
        Track::Line(place) => at_place(cuts, len, 0, place),
    }
}

// The place of the newline that ends the piece, among the bytes that come; or the track of all its bytes.
#[tactic(auto, using(crate::proofs::CutLemmas::finds_on))]
fn search(cuts: &Cuts, text: &[u8]) -> Result<usize, Track>
    requires room { cuts.now.len + length text.now < 2 ^ 64 }
    ensures within { IsWithin cuts.now.len text.now result }
    ensures finds { (before : List ℕ) → HasCome cuts.now before → FindsOn (dialect_of cuts.now.dialect) before text.now result }
{
    if cuts.len == 0 {
        return cut_or_track(dialect_of(cuts.dialect), text);
    }
    track_on(text, track_of(cuts))
}

// The number of the answer for a piece of so many bytes that is answered so if it is not too long.
fn answer_within(limit: usize, len: usize, answer: Answer) -> u32
    ensures fits { len ≤ limit → result ≡ answer_number answer }
    ensures long { limit < len → result ≡ answer_number TooLong }
{
    if len <= limit {
        answer.number()
    } else {
        Answer::TooLong.number()
    }
}

/// Begins a search for the cuts of a text by the rules of the [`Dialect`] of this number, whose pieces may have so many bytes, and
/// says whether it did: whether a dialect has the number. Else `cuts` is as it was. It asks for no memory.
pub fn begin_cuts(dialect: u32, limit: usize, cuts: &mut Cuts) -> bool
    ensures begins { IsFalse result ↔ IsNoDialect dialect }
    ensures rules { IsTrue result → (cuts.new.limit ≡ limit) × (cuts.new.dialect ≡ dialect) }
    ensures begun { IsTrue result → HasCome cuts.new [] }
    ensures refused { IsFalse result → cuts.new ≡ cuts.old }
{
    if Dialect::numbered(dialect).is_none() {
        return false;
    }
    *cuts = Cuts {
        limit,
        len: 0,
        equals: 0,
        commas: 0,
        begins: 0,
        part: 0,
        dialect,
        escaped: false,
    };
    true
}

/// Searches the bytes that come after those that were searched, and answers the number of an [`Answer`]. It asks for no memory.
///
/// `Piece`: the byte at `cut` is the newline that ends the piece; search the bytes after it next. `MoreText`: none of the bytes
/// ends the piece, and `cut` is how many they are; search those that come next. `TooLong`: the piece has more bytes than it may
/// have; if `cut` is less than how many bytes there are, a newline ends it there, and else it goes on. What was found is the
/// first cut, whatever comes after it. `OutOfMemory`: no `usize` holds how many bytes came since the last cut, with all of `text`;
/// nothing is changed.
///
/// Each byte is passed a few times at most. A search that was not begun finds some place of the bytes, or none, and no more.
pub fn search_next(cuts: &mut Cuts, text: &[u8], cut: &mut usize) -> u32
    ensures rules { KeepsRules cuts.old cuts.new }
    ensures answers { IsTrue (is_cut_answer result) }
    ensures memory { result ≡ answer_number OutOfMemory ↔ 2 ^ 64 ≤ cuts.old.len + length text.now }
    ensures refused { result ≡ answer_number OutOfMemory → (cuts.new ≡ cuts.old) × (cut.new ≡ cut.old) }
    ensures within { result ≢ answer_number OutOfMemory → cut.new ≤ length text.now }
    ensures piece { result ≡ answer_number Piece → (cut.new < length text.now) × (cuts.old.len + cut.new ≤ cuts.old.limit) }
    ensures more { result ≡ answer_number MoreText → (cut.new ≡ length text.now) × (cuts.old.len + cut.new ≤ cuts.old.limit) }
    ensures long { result ≡ answer_number TooLong → cuts.old.limit < cuts.old.len + cut.new }
    ensures finds { result ≢ answer_number OutOfMemory → (before : List ℕ) → HasCome cuts.old before →
        CutsOn (dialect_of cuts.old.dialect) before text.now cut.new cuts.new }
{
    let Some(end) = cuts.len.checked_add(text.len()) else {
        return Answer::OutOfMemory.number();
    };
    match search(cuts, text) {
        Ok(at) => {
            let len = cuts.len + at;
            cuts.len = 0;
            *cut = at;
            answer_within(cuts.limit, len, Answer::Piece)
        }
        Err(track) => {
            *cuts = on_track(cuts, end, track);
            *cut = text.len();
            answer_within(cuts.limit, end, Answer::MoreText)
        }
    }
}
