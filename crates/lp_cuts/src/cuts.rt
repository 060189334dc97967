//! Where a text can be cut, so that its parts can be rebuilt or relayed apart.
//!
//! A walk goes from cut to cut, and what it knows of the piece that it is in is a track, so of the text a block is held, and no piece
//! whole. Where each newline ends a line, it goes to the places themselves instead, and reads a block at each.
ghost use Rattle.std.specs.Prelude.{◌≡◌, ◌<◌, ◌≤◌, ◌*◌, ◌/◌, ◌^◌, ℕ, List, [], ◌∷◌, ◌++◌, ◌+◌, length, max, Option, None, Some, true, IfErr, IfOk, OnOk, Result};
ghost use Rattle.influxdb_line_protocol.specs.code.Rules.{rules_of};
ghost use Rattle.influxdb_line_protocol.specs.format.Dialects.{NewlineDelimited};
ghost use Rattle.influxdb_line_protocol.specs.format.Readings.{Fault};
ghost use Rattle.influxdb_line_protocol.specs.format.Lines.{Line};
ghost use Rattle.influxdb_line_protocol.specs.format.Items.{HasAnswers};
ghost use Rattle.influxdb_line_protocol.specs.laws.StreamLaws.{HaveAnswers};
ghost use Rattle.lp_split.specs.code.{most_counted};
ghost use Rattle.lp_cuts.specs.Cuts.{ArePartEnds, JoinsPieces, parts_from, IsCutFor};
ghost use Rattle.lp_cuts.specs.CutSteps.{FindsOn, GoesOn, IsFurther, IsTracked, IsWalkOf, IsWithin, PassesNone, most_tracked};
ghost use Rattle.lp_cuts.specs.Windows.{HasText, IsWindow};

use crate::windows::{ReadAt, Window};
use influxdb_line_protocol::{Dialect, laws};
use lp_rebuild::RunFault;
use lp_split::split::{Track, cut_or_track, track_on};
use memchr::memchr;
use std::alloc::{AllocError, Global};

// A walk over a text, from cut to cut: where it is, how many bytes of the text were looked at, and the track of those after the cut.
#[derive(Clone, Copy)]
struct Walk {
    at: usize,
    given: usize,
    track: Option<Track>,
}

// A walk that is at a cut, after which no byte was looked at.
fn walk_at(at: usize) -> Walk
    ensures { result ≡ record { at = at; given = at; track = None } }
{
    Walk {
        at,
        given: at,
        track: None,
    }
}

// The newline that ends the piece, among the bytes that come after those of a track; or the track of all.
#[tactic(auto, using(crate::proofs::WalkLemmas::finds_on))]
fn search(dialect: Dialect, track: Option<Track>, text: &[u8]) -> Result<usize, Track>
    requires room { most_tracked track + length text.now < 2 ^ 64 }
    ensures within { IfOk result (λ at. at < length text.now) }
    ensures few { IfErr result (λ next. most_counted next ≤ most_tracked track + length text.now) }
    ensures finds { (before : List ℕ) → IsTracked (rules_of dialect) before track → FindsOn (rules_of dialect) before text.now result }
{
    let Some(track) = track else {
        return cut_or_track(dialect, text);
    };
    track_on(text, track)
}

// Goes on to the next cut, and tells whether there is one.
fn next_cut<R: ReadAt>(
    dialect: Dialect,
    walk: &mut Walk,
    window: &mut Window<'_, R>,
) -> Result<bool, RunFault>
    requires within { IsWithin window.old.len walk.old }
    requires window { IsWindow R.text window.old }
    ensures within { OnOk result (IsWithin window.new.len walk.new) }
    ensures window { IsWindow R.text window.new }
    ensures over { (window.new.file.now ≡ window.old.file.now) × (window.new.len ≡ window.old.len) }
    ensures goes { (text : List ℕ) → HasText R.text window.old text → IsWalkOf (rules_of dialect) text walk.old →
        IfOk result (λ found. IsWalkOf (rules_of dialect) text walk.new × GoesOn (rules_of dialect) text walk.old.at found walk.new.at) }
    ensures further { IfOk result (λ found. IsFurther found walk.old.at walk.new.at) }
{
    laws::pieces_join();
    while walk.given < window.len {
        window.fill(walk.given)?;
        let rest = window.rest(walk.given);
        match search(dialect, walk.track, rest) {
            Ok(i) => {
                *walk = walk_at(walk.given + i + 1);
                return Ok(true);
            }
            Err(track) => {
                walk.given += rest.len();
                walk.track = Some(track);
            }
        }
    }
    Ok(false)
}

// Whether each newline ends a line.
fn ends_at_newlines(dialect: Dialect) -> bool
    ensures { result ≡ true → rules_of dialect ≡ NewlineDelimited }
{
    matches!(dialect, Dialect::NewlineDelimited)
}

// Goes at once to the cut for a place, if each newline ends a line, and one comes at the place or after it.
fn jump_to<R: ReadAt>(
    dialect: Dialect,
    walk: &mut Walk,
    window: &mut Window<'_, R>,
    place: usize,
) -> Result<(), RunFault>
    requires within { IsWithin window.old.len walk.old }
    requires window { IsWindow R.text window.old }
    ensures within { OnOk result (IsWithin window.new.len walk.new) }
    ensures window { IsWindow R.text window.new }
    ensures over { (window.new.file.now ≡ window.old.file.now) × (window.new.len ≡ window.old.len) }
    ensures goes { (text : List ℕ) → HasText R.text window.old text → IsWalkOf (rules_of dialect) text walk.old →
        PassesNone (rules_of dialect) text place walk.old.at →
        OnOk result (IsWalkOf (rules_of dialect) text walk.new × PassesNone (rules_of dialect) text place walk.new.at) }
    ensures further { OnOk result (walk.old.at ≤ walk.new.at) }
{
    laws::pieces_join();
    laws::lines_are_read_alone();
    if !ends_at_newlines(dialect) || place <= walk.at || walk.given == window.len {
        return Ok(());
    }
    let mut at = place - 1;
    while at < window.len {
        window.fill(at)?;
        let rest = window.rest(at);
        match memchr(b'\n', rest) {
            Some(i) => {
                *walk = walk_at(at + i + 1);
                return Ok(());
            }
            None => at += rest.len(),
        }
    }
    Ok(())
}

// Goes on to the cut for a place.
fn walk_to<R: ReadAt>(
    dialect: Dialect,
    walk: &mut Walk,
    window: &mut Window<'_, R>,
    place: usize,
) -> Result<(), RunFault>
    requires within { IsWithin window.old.len walk.old }
    requires window { IsWindow R.text window.old }
    ensures within { OnOk result (IsWithin window.new.len walk.new) }
    ensures window { IsWindow R.text window.new }
    ensures over { (window.new.file.now ≡ window.old.file.now) × (window.new.len ≡ window.old.len) }
    ensures goes { (text : List ℕ) → HasText R.text window.old text → IsWalkOf (rules_of dialect) text walk.old →
        PassesNone (rules_of dialect) text place walk.old.at →
        OnOk result (IsWalkOf (rules_of dialect) text walk.new × IsCutFor (rules_of dialect) text place walk.new.at) }
    ensures further { OnOk result (walk.old.at ≤ walk.new.at) }
{
    jump_to(dialect, walk, window, place)?;
    while walk.at < place {
        if !next_cut(dialect, walk, window)? {
            return Ok(());
        }
    }
    Ok(())
}

// Where the first `k` of so many parts end, if all have one length. None ends at the start.
fn even_end(len: usize, k: usize, count: usize) -> usize
    requires { k < count }
    ensures { result ≡ max 1 (k * len / count) }
{
    ((k as u128 * len as u128 / count as u128) as usize).max(1)
}

/// Where a text can be cut into so many parts of about one length, so that each can be rebuilt or relayed on a machine of
/// its own: the ends of the parts, in order.
///
/// Each part but the last ends after a newline that ends a piece, or is empty, and the last one ends with the text. So the
/// pieces of the parts are those of the text, but for an empty one at the end of each part that is not the last; and the
/// items of the parts are those of the text, in order. What the parts give is, one after another, what the text gives; but
/// the numbers of its items begin anew in each part.
///
/// Part `k` ends at the first such place at or after `k * input.len() / count`, though not at 0, or if none is there, at the
/// last one of all. A line is never cut, so a part may be empty, and then two ends are equal. If no newline ends a piece, all
/// parts but the last are empty, and end at 0. A `count` of 0 is taken as 1.
///
/// The text need not be UTF-8. It is searched once; if each newline ends a line, it is searched at the places alone. A block of it is
/// copied at a time, and no piece is held.
///
/// ```text
/// part_ends(alloc, Dialect::Crate, b"m a=1i\nm a=2i\nm a=3i\n", 2)   gives  [14, 21]
/// part_ends(alloc, Dialect::Crate, b"m s=\"a\nb\"\nn c=1i", 2)       gives  [10, 16]
/// part_ends(alloc, Dialect::Crate, b"a\n", 5)                       gives  [2, 2, 2, 2, 2]
/// ```
///
/// # Errors
///
/// If a request for memory is refused.
pub fn part_ends(
    alloc: Global,
    dialect: Dialect,
    input: &[u8],
    count: usize,
) -> Result<Vec<usize>, AllocError>
    ensures ends { IfOk result (λ ends. ArePartEnds (rules_of dialect) input.now count ends.items) }
    ensures pieces { IfOk result (λ ends. JoinsPieces (rules_of dialect) input.now (parts_from 0 input.now ends.items)) }
    ensures answers { IfOk result (λ ends. (answers : List (Result Line Fault))
        → HaveAnswers (rules_of dialect) (parts_from 0 input.now ends.items) answers
        → HasAnswers (rules_of dialect) input.now answers) }
{
    laws::pieces_join();
    match part_ends_at(alloc, dialect, &input, input.len(), count) {
        Ok(ends) => Ok(ends),
        Err(_) => Err(AllocError),
    }
}

// Adds an end.
fn push_end(ends: &mut Vec<usize>, end: usize) -> Result<(), RunFault>
    ensures { OnOk result (ends.new.items ≡ ends.old.items ++ end ∷ []) }
{
    match ends.push(end) {
        Ok(()) => Ok(()),
        Err(_) => Err(RunFault::OutOfMemory),
    }
}

/// Where the bytes of a file, of which there are so many, can be cut, as [`part_ends`] says of a text. A block of it is held, however
/// long its lines are.
///
/// # Errors
///
/// * `Read` if the file could not be read, or ends before so many bytes.
/// * `OutOfMemory` if memory was refused.
pub fn part_ends_at<R: ReadAt>(
    alloc: Global,
    dialect: Dialect,
    file: &R,
    len: usize,
    count: usize,
) -> Result<Vec<usize>, RunFault>
    ensures ends { (text : List ℕ) → R.text file.now ≡ Some text → length text ≡ len →
        IfOk result (λ ends. ArePartEnds (rules_of dialect) text count ends.items) }
{
    laws::pieces_join();
    let Ok(mut window) = Window::new(alloc, file, len) else {
        return Err(RunFault::OutOfMemory);
    };
    let mut walk = walk_at(0);
    let mut ends = Vec::new(alloc);
    for k in 1..count {
        walk_to(dialect, &mut walk, &mut window, even_end(len, k, count))?;
        push_end(&mut ends, walk.at)?;
    }
    push_end(&mut ends, len)?;
    Ok(ends)
}
