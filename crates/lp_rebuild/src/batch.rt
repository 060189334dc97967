//! The lines of a text, written again.
ghost use Rattle.std.specs.Prelude.{◌≡◌, ◌+◌, ◌<◌, ◌≤◌, ◌++◌, ◌∷◌, [], length, IfOk, OnOk, Ok, Some};
ghost use Rattle.influxdb_line_protocol.specs.code.Rules.{rules_of};
ghost use Rattle.influxdb_line_protocol.specs.format.Bytes.{newline};
ghost use Rattle.influxdb_line_protocol.specs.format.Points.{built};
ghost use Rattle.influxdb_line_protocol.specs.format.Lines.{answer};
ghost use Rattle.influxdb_line_protocol.specs.format.Trimming.{trimmed};
ghost use Rattle.influxdb_line_protocol.specs.code.Parsed.{line_read, parsed_point};
ghost use Rattle.lp_rebuild.specs.Rebuilding.{Rebuilds, RebuildsIn, ReadsBack, ReadsBackIn};
ghost use Rattle.lp_rebuild.specs.RebuildSteps.{IsReadAs, IsTrimmed, Refuses, Takes, TakesLine, line_refusal_text};

use crate::refusals::LineRefusal;
use influxdb_line_protocol::builder::is_as_written;
use influxdb_line_protocol::{
    Dialect, EscapedStr, FieldSet, LineProtocolBuilder, ParsedLine, Series, SpelledFault, TagSet,
    is_admitted, laws, split_lines_in, write_line,
};
use lp_lines::freeing::{forget_line, free_line};
use lp_lines::{Unread, refill_line};
use lp_scan::trim::trimmed;
use std::alloc::{AllocError, Global};
use std::mem;

/// The result of rebuilding a text. Each item of the text, numbered from 1, is either carried or refused: it is written again in
/// `batch`, or it has a line in `faults`.
#[derive(Drop)]
pub struct Rebuilt {
    /// The carried lines, each with a newline.
    pub batch: Vec<u8>,
    /// A line for each refused item: `item N: ` and the reason.
    pub faults: Vec<u8>,
    /// The number of items in `batch`.
    pub carried: usize,
    /// The number of items in `faults`.
    pub refused: usize,
}

// The result of the pieces that were taken so far.
#[derive(Drop)]
struct Progress {
    batch: Vec<u8>,
    faults: String,
    carried: usize,
    refused: usize,
}

/// Reads lines one after another and reuses one buffer for all of them.
#[derive(Drop)]
pub struct LineReader<'a> {
    /// The allocator that lines take memory from.
    pub alloc: Global,
    /// The dialect by which lines are read.
    pub dialect: Dialect,
    line: ParsedLine<'a>,
    // A grown tag set that the line, which has no tags, does not use now.
    spare: Option<TagSet<'a>>,
}

impl<'a> LineReader<'a> {
    /// Returns a reader that has read no line. Takes no memory.
    ///
    /// ```
    /// let mut reader = LineReader::new(alloc, Dialect::Strict);
    /// ```
    #[inline(always)]
    pub fn new(alloc: Global, dialect: Dialect) -> Self
        ensures { result.dialect ≡ dialect }
    {
        LineReader {
            alloc,
            dialect,
            line: ParsedLine {
                series: Series {
                    raw_input: "",
                    measurement: EscapedStr::SingleSlice(""),
                    tag_set: Some(TagSet::new(alloc)),
                },
                field_set: FieldSet::new(alloc),
                timestamp: None,
            },
            spare: None,
        }
    }

    /// Reads a trimmed text. Returns `None` if the text is a line, which [`LineReader::line`] then returns. Returns the fault of
    /// the text if it is not.
    ///
    /// ```text
    /// read("m f=1i") returns Ok(None),  and  read("m 5") returns the fault `No fields were provided`
    /// ```
    ///
    /// # Errors
    ///
    /// Returns `AllocError` if memory for the line was refused.
    #[inline(always)]
    pub fn read(&mut self, text: &'a str) -> Result<Option<SpelledFault<'a>>, AllocError>
        ensures read { IfOk result (λ fault. IsReadAs fault self.new.line (answer (rules_of self.old.dialect) text.now)) }
        ensures dialect { self.new.dialect ≡ self.old.dialect }
    {
        let read = refill_line(
            self.alloc,
            self.dialect,
            text,
            &mut self.line,
            &mut self.spare,
        );
        match read {
            Ok(()) => Ok(None),
            Err(Unread::Fault(fault)) => Ok(Some(fault)),
            Err(Unread::OutOfMemory) => Err(AllocError),
        }
    }

    /// Returns the line that was read last. After a fault, no contract says what the line holds.
    #[inline(always)]
    pub fn line(&self) -> &ParsedLine<'a>
        ensures { result.now ≡ self.now.line }
    {
        &self.line
    }

    /// Sets the timestamp of the line that was read last, and replaces the timestamp that the line has.
    #[inline(always)]
    pub fn set_timestamp(&mut self, timestamp: i64)
        ensures line { self.new.line ≡ record self.old.line { timestamp = Some timestamp } }
        ensures dialect { self.new.dialect ≡ self.old.dialect }
    {
        self.line.timestamp = Some(timestamp);
    }

    /// Frees the memory of the reader without a visit to each place of its sets.
    #[inline(always)]
    pub fn free(mut self) {
        free_line(self.alloc, &mut self.line);
        forget_line(self.line);
    }
}

// Appends the text of a line to `batch`, as the builder writes it.
fn append(batch: Vec<u8>, line: &ParsedLine<'_>) -> Result<Vec<u8>, AllocError>
    requires { 0 < length line.now.field_set.items }
    ensures { IfOk result (λ longer. longer.items ≡ batch.items ++ built (parsed_point line.now)) }
{
    match write_line(LineProtocolBuilder::new_with(batch), line) {
        Ok(builder) => Ok(builder.build()),
        Err(_) => Err(AllocError),
    }
}

/// Writes a line that was read again, at the end of `batch`. Returns `None` if the line was written. Returns
/// [`LineRefusal::NotAdmitted`], and leaves `batch` as it was, if a name of the line is not admitted.
///
/// The line must have a field, as each line has that was read. In the newline-delimited dialect, no string that was read holds a
/// newline, so `is_admitted` decides in each dialect whether the line reads back.
///
/// ```text
/// the line of  m a=007i                         appends m a=7i⏎   and returns None
/// the line of  login,user=guest\⏎payments ok=t  appends nothing   and returns NotAdmitted
/// ```
///
/// # Errors
///
/// Returns `AllocError` if memory for `batch` was refused. `batch` may then be empty.
pub fn take_line<'a>(
    alloc: Global,
    batch: &mut Vec<u8>,
    line: &ParsedLine<'_>,
) -> Result<Option<LineRefusal<'a>>, AllocError>
    requires { 0 < length line.now.field_set.items }
    ensures { IfOk result (λ refusal. TakesLine batch.old.items refusal (Ok (line_read line.now)) batch.new.items) }
{
    if !is_admitted(line) {
        return Ok(Some(LineRefusal::NotAdmitted));
    }
    let before = mem::replace(batch, Vec::new(alloc));
    *batch = append(before, line)?;
    Ok(None)
}

/// Appends the bytes of a line and a newline.
///
/// ```text
/// of  m f=1i  appends m f=1i⏎
/// ```
///
/// # Errors
///
/// Returns `AllocError` if memory was refused. Nothing is then appended, or a front of these bytes.
#[inline(always)]
pub fn copy_line(batch: &mut Vec<u8>, line: &[u8]) -> Result<(), AllocError>
    ensures { OnOk result (batch.new.items ≡ batch.old.items ++ (line.now ++ newline ∷ [])) }
{
    batch.reserve(line.len() + 1)?;
    batch.extend_from_slice(line)?;
    batch.push(b'\n')?;
    Ok(())
}

/// Reads a trimmed text and writes its line again, at the end of `batch`. Returns `None` if the line was written. Returns the
/// reason, and leaves `batch` as it was, if the text is not a line or a name of the line is not admitted.
///
/// ```text
/// of  m a=007i       appends m a=7i⏎          and returns None
/// of  cpu usage=64i  appends cpu usage=64i⏎   and returns None
/// of  m 5            appends nothing          and returns the fault `No fields were provided`
/// ```
///
/// # Errors
///
/// Returns `AllocError` if memory for the line or for `batch` was refused. `batch` may then be empty.
pub fn take_text<'a>(
    batch: &mut Vec<u8>,
    reader: &mut LineReader<'a>,
    text: &'a str,
) -> Result<Option<LineRefusal<'a>>, AllocError>
    requires { IsTrimmed text.now }
    ensures taken { IfOk result (λ refusal.
        TakesLine batch.old.items refusal (answer (rules_of reader.old.dialect) text.now) batch.new.items) }
    ensures dialect { reader.new.dialect ≡ reader.old.dialect }
{
    laws::lines_are_points();
    match reader.read(text)? {
        None => take_line(reader.alloc, batch, &reader.line),
        Some(fault) => Ok(Some(LineRefusal::Fault(fault))),
    }
}

/// Does what [`take_text`] does, but copies the text if it is already written as the builder writes it.
///
/// A copied text is not parsed, and takes no memory except for the growth of `batch`.
///
/// # Errors
///
/// Returns the errors of [`take_text`].
#[inline(always)]
pub fn put_line<'a>(
    batch: &mut Vec<u8>,
    reader: &mut LineReader<'a>,
    text: &'a str,
) -> Result<Option<LineRefusal<'a>>, AllocError>
    requires { IsTrimmed text.now }
    ensures taken { IfOk result (λ refusal.
        TakesLine batch.old.items refusal (answer (rules_of reader.old.dialect) text.now) batch.new.items) }
    ensures dialect { reader.new.dialect ≡ reader.old.dialect }
{
    laws::written_lines_stay();
    if is_as_written(text) {
        copy_line(batch, text.as_bytes())?;
        return Ok(None);
    }
    take_text(batch, reader, text)
}

// Appends a fault line for the next item, and counts the item as refused.
#[cold]
#[inline(never)]
fn refuse(so_far: &mut Progress, refusal: LineRefusal<'_>) -> Result<(), AllocError>
    requires { so_far.old.carried + so_far.old.refused < usize.MAX }
    ensures { OnOk result (Refuses so_far.old (line_refusal_text refusal.entry) so_far.new) }
{
    let number = so_far.carried + so_far.refused + 1;
    writeln!(so_far.faults, "item {number}: {refusal}")?;
    so_far.refused += 1;
    Ok(())
}

// Takes the next piece of a text: carries or refuses its item. A blank piece has no item.
#[tactic(auto, using(crate::proofs::RebuildLemmas::carried_answer, crate::proofs::RebuildLemmas::refused_answer))]
#[inline(always)]
fn take_piece<'a>(
    so_far: &mut Progress,
    reader: &mut LineReader<'a>,
    piece: &'a str,
) -> Result<(), AllocError>
    requires { so_far.old.carried + so_far.old.refused < usize.MAX }
    ensures blank { length (trimmed piece.now) ≡ 0 → so_far.new ≡ so_far.old }
    ensures taken { OnOk result (0 < length (trimmed piece.now)
        → Takes so_far.old (answer (rules_of reader.old.dialect) (trimmed piece.now)) so_far.new) }
    ensures counted { OnOk result
        (so_far.new.carried + so_far.new.refused ≤ so_far.old.carried + so_far.old.refused + 1) }
    ensures dialect { reader.new.dialect ≡ reader.old.dialect }
{
    let text = trimmed(piece);
    if text.is_empty() {
        return Ok(());
    }
    match put_line(&mut so_far.batch, reader, text)? {
        None => so_far.carried += 1,
        Some(refusal) => refuse(so_far, refusal)?,
    }
    Ok(())
}

/// Writes each line of a text whose names are all admitted again, and refuses every other item.
///
/// [`is_admitted`] decides whether the names of a line are admitted. For every other item, `faults` gains `item N: TEXT` and a
/// newline, where TEXT is the error of the item or `a name cannot be written again`. With any text after it, `batch` reads back
/// as the lines that were written, and then as that text alone.
///
/// A line that is already written as the builder writes it is copied, and takes no memory except for the growth of `batch`. Any
/// other line is read twice, first to compare its text with the text that the builder writes, and takes memory for its copies.
///
/// ```text
/// the text           gives the batch     and the faults
/// cpu usage=64i⏎m 5⏎ cpu usage=64i⏎      item 2: No fields were provided⏎
/// m a=007i⏎m a=-0i⏎  m a=7i⏎m a=0i⏎
/// ```
///
/// # Errors
///
/// Returns `AllocError` if a request for memory is refused, also a request of the parser for a line, and if the text of a line
/// would be longer than `usize::MAX` bytes. The lines that were rebuilt so far are dropped.
pub fn rebuild(alloc: Global, input: &str) -> Result<Rebuilt, AllocError>
    ensures rebuilds { IfOk result (λ r. Rebuilds input.now r) }
    ensures reads_back { IfOk result (λ r. ReadsBack input.now r) }
{
    rebuild_in(alloc, Dialect::Crate, input)
}

/// Writes each line of a text whose names are all admitted again, and refuses every other item, by the rules of a dialect.
///
/// [`rebuild`] does the same by the rules of the Rust crate, and describes the batch, the faults and the memory. The batch reads
/// back in each dialect, whichever dialect the text was read in, with one exception: a batch that was read in another dialect
/// reads back in `NewlineDelimited` only if no string in it holds a newline.
///
/// ```text
/// m s="a⏎n b=01i    in Crate and Strict has one item, and the fault `item 1: No fields were provided`
///                  in NewlineDelimited has the same fault, and the batch `n b=1i⏎`
/// ```
///
/// # Errors
///
/// Returns the errors of [`rebuild`].
#[inline]
pub fn rebuild_in(alloc: Global, dialect: Dialect, input: &str) -> Result<Rebuilt, AllocError>
    ensures rebuilds { IfOk result (λ r. RebuildsIn (rules_of dialect) input.now r) }
    ensures reads_back { IfOk result (λ r. ReadsBackIn (rules_of dialect) input.now r) }
{
    laws::batch_reads_back();
    laws::lines_are_read_alone();
    laws::lines_are_points();
    laws::pieces_join();
    let mut so_far = Progress {
        batch: Vec::new(alloc),
        faults: String::new(alloc),
        carried: 0,
        refused: 0,
    };
    let mut reader = LineReader::new(alloc, dialect);
    let mut pieces = split_lines_in(dialect, input);
    while let Some(piece) = pieces.next() {
        take_piece(&mut so_far, &mut reader, piece)?;
    }
    Ok(Rebuilt {
        batch: so_far.batch,
        faults: so_far.faults.into_bytes(),
        carried: so_far.carried,
        refused: so_far.refused,
    })
}
