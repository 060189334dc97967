//! What is refused before anything is opened: an output that is an input, a file of refused pieces that is one of these or holds
//! something, and standard error that is one of these. So are a range that its file does not have, batches that have no names of their own, and parts
//! that are none or too many.
ghost use Rattle.std.specs.Prelude.{◌≡◌, ◌≢◌, Some, false, true, ◌<◌, ◌-◌, [], ◌∷◌, codes, drop, length, map};
ghost use Rattle.lp_words.specs.Refusals.{are_one, are_unnamed, batches_refusal, faults_refusal, held_refusal, input_at, input_text, is_backwards, parts_refusal, range_refusal, refusal, refused_refusal, unseen_refusal};

use crate::batch_names::batch_names_of;
use crate::options::{MOST_PARTS, Range};
use crate::paths::folder_and_file;
use crate::told::ToldName;
use std::fmt;

/// The names of inputs if no word names an input.
pub const STANDARD_INPUT: &[&str] = &["-"];

/// A regular file of the system: its device, and its number there.
#[derive(Clone, Copy)]
pub struct FileId {
    pub device: u64,
    pub number: u64,
}

/// A name, and the regular file to which it leads, if it does.
#[derive(Clone, Copy)]
pub struct Located<'a> {
    pub name: &'a str,
    pub file: Option<FileId>,
}

/// What becomes of the pieces that are in the file of refused pieces before a run, if that is a regular file.
#[derive(Clone, Copy)]
pub enum OldPieces {
    /// A run is refused if there are any.
    Refuse,
    /// The pieces of the run come after them.
    Append,
    /// The pieces of the run replace them.
    Replace,
}

/// Why a run is refused before anything is opened, with the name of the file that it would spoil.
#[derive(Clone, Copy)]
pub enum Refusal<'a> {
    /// The lines would go to an input.
    OutputIsInput(&'a str),
    /// The refused pieces would go to an input.
    RefusedIsInput(&'a str),
    /// The refused pieces would go where the lines go.
    RefusedIsOutput(&'a str),
    /// The faults would go to an input.
    FaultsAreInput(&'a str),
    /// The faults would go to the file of the lines.
    OutputIsFaults(&'a str),
    /// The faults would go to the file of the refused pieces.
    RefusedIsFaults(&'a str),
    /// It cannot be seen whether a standard stream is this file.
    StreamsUnseen(&'a str),
    /// The file of the refused pieces holds bytes, of which no option says what becomes.
    RefusedHolds(&'a str),
    /// A range ends before it begins.
    RangeIsBackwards(Range),
    /// A range begins or ends after the end of a file, which has so many bytes.
    RangeIsPastEnd(&'a str, usize),
    /// A range of what is no regular file.
    RangeOfNoFile(&'a str),
    /// The output does not say how batches are named.
    BatchesUnnamed,
    /// A file is there already that is named as a batch.
    BatchIsThere(&'a str),
    /// The file of the refused pieces is named as a batch.
    RefusedIsBatch(&'a str),
    /// No part is asked for, or so many that their ends are not held.
    PartsOutOfRange(usize),
    /// The time of the system cannot be read, or an `i64` does not hold it in nanoseconds.
    NoClock,
}

// Whether both are files, and one.
fn are_one(one: Option<FileId>, other: Option<FileId>) -> bool
    ensures { result ≡ are_one one other }
{
    match (one, other) {
        (Some(one), Some(other)) => one.device == other.device && one.number == other.number,
        _ => false,
    }
}

// The name of the first input that is this file.
fn input_at<'a>(inputs: &[Located<'a>], file: Option<FileId>) -> Option<&'a str>
    ensures { result ≡ input_at inputs.now file }
{
    let input = inputs.iter().find(|input| are_one(input.file, file))?;
    Some(input.name)
}

// Why the refused pieces cannot go to a file.
fn refusal_of_refused<'a>(
    inputs: &[Located<'a>],
    output: Option<FileId>,
    refused: Located<'a>,
) -> Option<Refusal<'a>>
    ensures { result ≡ refused_refusal inputs.now output refused.entry }
{
    if let Some(name) = input_at(inputs, refused.file) {
        return Some(Refusal::RefusedIsInput(name));
    }
    if are_one(output, refused.file) {
        return Some(Refusal::RefusedIsOutput(refused.name));
    }
    None
}

/// Why a run over these inputs is refused, whose lines go to this file, and its refused pieces to that, if they do.
pub fn refusal_of<'a>(
    inputs: &[Located<'a>],
    output: Option<FileId>,
    refused: Option<Located<'a>>,
) -> Option<Refusal<'a>>
    ensures { result ≡ refusal inputs.now output refused.entry }
{
    if let Some(name) = input_at(inputs, output) {
        return Some(Refusal::OutputIsInput(name));
    }
    match refused {
        Some(refused) => refusal_of_refused(inputs, output, refused),
        None => None,
    }
}

/// Why a run over these inputs is refused, whose faults go to this file, and its lines and refused pieces to files that are named, if
/// they are. What comes to the place of such a file takes away the faults.
pub fn refusal_of_faults<'a>(
    inputs: &[Located<'a>],
    faults: Option<FileId>,
    output: Option<Located<'a>>,
    refused: Option<Located<'a>>,
) -> Option<Refusal<'a>>
    ensures { result ≡ faults_refusal inputs.now faults output.entry refused.entry }
{
    if let Some(name) = input_at(inputs, faults) {
        return Some(Refusal::FaultsAreInput(name));
    }
    match (output, refused) {
        (Some(output), _) if are_one(output.file, faults) => {
            Some(Refusal::OutputIsFaults(output.name))
        }
        (_, Some(refused)) if are_one(refused.file, faults) => {
            Some(Refusal::RefusedIsFaults(refused.name))
        }
        _ => None,
    }
}

/// Why a run is refused whose standard streams cannot be looked at, if it is: one may be the first of these files that is there.
pub fn refusal_of_unseen<'a>(files: &[Located<'a>]) -> Option<Refusal<'a>>
    ensures { result ≡ unseen_refusal files.now }
{
    let file = files.iter().find(|file| file.file.is_some())?;
    Some(Refusal::StreamsUnseen(file.name))
}

/// Why refused pieces cannot go to the file of this name, if that is a regular file, and holds so many bytes.
pub fn refusal_of_old<'a>(old: OldPieces, name: &'a str, len: Option<usize>) -> Option<Refusal<'a>>
    ensures { result ≡ held_refusal old name.entry len }
{
    match (old, len) {
        (OldPieces::Refuse, Some(len)) if len > 0 => Some(Refusal::RefusedHolds(name)),
        _ => None,
    }
}

// Whether a range ends before it begins.
fn is_backwards(range: Range) -> bool
    ensures { result ≡ is_backwards range }
{
    match range.to {
        Some(to) => to < range.from,
        None => false,
    }
}

/// Why a range of an input is refused that has so many bytes, if it is a regular file.
pub fn refusal_of_range<'a>(range: Range, name: &'a str, len: Option<usize>) -> Option<Refusal<'a>>
    ensures { result ≡ range_refusal range name.entry len }
{
    if is_backwards(range) {
        return Some(Refusal::RangeIsBackwards(range));
    }
    let end = range.to.unwrap_or(range.from);
    match len {
        None => Some(Refusal::RangeOfNoFile(name)),
        Some(len) if len < end => Some(Refusal::RangeIsPastEnd(name, len)),
        Some(_) => None,
    }
}

/// Why lines cannot go to batches that this word names, and the refused pieces to that file, if they do.
pub fn refusal_of_batches<'a>(output: Option<&str>, refused: Option<&'a str>) -> Option<Refusal<'a>>
    ensures unnamed { are_unnamed output.entry ≡ true → result ≡ Some Refusal.BatchesUnnamed }
    ensures named { are_unnamed output.entry ≡ false → result ≢ Some Refusal.BatchesUnnamed }
    ensures value { result ≡ batches_refusal output.entry refused.entry }
{
    let names = match output {
        Some(word) => batch_names_of(word),
        None => None,
    };
    match (names, refused) {
        (None, _) => Some(Refusal::BatchesUnnamed),
        (Some(names), Some(name)) if names.is_one(folder_and_file(name).1) => {
            Some(Refusal::RefusedIsBatch(name))
        }
        _ => None,
    }
}

/// Why a cut into so many parts is refused.
pub fn refusal_of_parts<'a>(parts: usize) -> Option<Refusal<'a>>
    ensures { result ≡ parts_refusal parts }
{
    if parts == 0 || parts > MOST_PARTS {
        return Some(Refusal::PartsOutOfRange(parts));
    }
    None
}

// How an input is named.
fn input_text<'a>(name: &'a str) -> ToldName<'a>
    ensures { result.bytes.now ≡ input_text name.now }
{
    ToldName::of(if name == "-" { "standard input" } else { name })
}

impl<'a> fmt::Display for Refusal<'a> {
    ghost use Rattle.lp_words.specs.Refusals.{refusal_text};

    ghost output = { λ refusal. Some (refusal_text refusal) };

    fn fmt<W: fmt::Write>(&self, f: &mut fmt::Formatter<W>) -> fmt::Result {
        match self {
            Refusal::OutputIsInput(name) => {
                let name = input_text(name);
                write!(f, "the output is an input too: {name}")
            }
            Refusal::RefusedIsInput(name) => {
                let name = input_text(name);
                write!(f, "the file of --refused is an input too: {name}")
            }
            Refusal::RefusedIsOutput(name) => {
                let name = ToldName::of(name);
                write!(f, "the file of --refused is the output too: {name}")
            }
            Refusal::FaultsAreInput(name) => {
                let name = input_text(name);
                write!(f, "standard error is an input too: {name}")
            }
            Refusal::OutputIsFaults(name) => {
                let name = ToldName::of(name);
                write!(f, "the output is standard error too: {name}")
            }
            Refusal::RefusedIsFaults(name) => {
                let name = ToldName::of(name);
                write!(f, "the file of --refused is standard error too: {name}")
            }
            Refusal::StreamsUnseen(name) => {
                let name = ToldName::of(name);
                f.write_str("without /proc it cannot be seen whether a standard stream is ")?;
                write!(f, "this file: {name}")
            }
            Refusal::RefusedHolds(name) => {
                let name = ToldName::of(name);
                write!(
                    f,
                    "the file of --refused needs --append or --replace: {name}"
                )
            }
            Refusal::RangeIsBackwards(range) => {
                let from = range.from;
                let to = range.to.unwrap_or(0);
                write!(f, "the range {from}..{to}")?;
                f.write_str(" ends before it begins")
            }
            Refusal::RangeIsPastEnd(name, len) => {
                let name = input_text(name);
                let len = *len;
                write!(f, "the range goes past the {len} bytes of ")?;
                write!(f, "{name}")
            }
            Refusal::RangeOfNoFile(name) => {
                let name = input_text(name);
                write!(f, "--range reads a regular file, which this is not: {name}")
            }
            Refusal::BatchesUnnamed => f.write_str(
                "batches need an --output with one %0Nd in the name of the file, as lines-%06d.lp",
            ),
            Refusal::BatchIsThere(name) => {
                let name = ToldName::of(name);
                write!(f, "a batch is there already: {name}")
            }
            Refusal::RefusedIsBatch(name) => {
                let name = ToldName::of(name);
                write!(f, "the file of --refused is named as a batch: {name}")
            }
            Refusal::PartsOutOfRange(parts) => {
                write!(f, "--cut takes from 1 to 1000000 parts, not {parts}")
            }
            Refusal::NoClock => f.write_str("--now: the time of the system cannot be read"),
        }
    }
}

/// The names of the inputs, of which so many words are the last: standard input if there is none.
pub fn names_of<'a>(words: &'a [&'a str], count: usize) -> &'a [&'a str]
    ensures named { 0 < count → result.now ≡ drop (length words.now - count) words.now }
    ensures standard { count ≡ 0 → map (λ name. name.now) result.now ≡ codes "-" ∷ [] }
{
    if count == 0 {
        return STANDARD_INPUT;
    }
    &words[words.len().saturating_sub(count)..]
}
