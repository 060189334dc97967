//! The reader of whole lines.

ghost use Rattle.std.specs.Prelude.{◌≡◌, ◌≢◌, ◌<◌, ◌≤◌, [], length, max, take, true, Err, None, Some, IfSome, OnErr, option_map};
ghost use Rattle.lp_format.specs.format.{Crate, answer, trimmed};
ghost use Rattle.lp_format.specs.code.Light.{inline_fields, inline_tags, is_light_in};
ghost use Rattle.lp_split.specs.code.{rules_of};
ghost use Rattle.lp_values.specs.code.Outcomes.{IsNotOutOfMemory};
ghost use Rattle.lp_lines.specs.code.{Lookups.room_of, Lookups.some_items, Lookups.tag_room, Parsed.FillsLine, ReadInto.IsEmptyLine};
ghost use Rattle.lp_lines.specs.code.{ReadInto.KeepsTagRoom, Unreads.FillsSpelled};
ghost use Rattle.lp_events.specs.code.LineSteps.{most_items};

use crate::filling::{Filling, tell_line};
use crate::freeing::{forget_line, free_line};
use crate::unread::Unread;
use crate::{FieldSet, ParsedLine, Series, TagSet};
use lp_events::lines;
use lp_split::Dialect;
use lp_split::split::{SplitLines, dialect_of, split_lines_in};
use lp_values::{Error, EscapedStr, Result};
use smallvec::SmallVec;
use std::alloc::Global;
use std::marker::Model;
use std::mem;

// Makes an empty tag set `None`. A set that has grown is kept at `spare`, if this place is given. A set that has not grown holds
// no memory and is forgotten, because to drop it would visit each of its places.
#[inline(always)]
fn let_go<'a>(set: &mut Option<TagSet<'a>>, spare: Option<&mut Option<TagSet<'a>>>)
    ensures { set.new ≡ None }
{
    if !set.as_ref().is_some_and(|tags| tags.spilled()) {
        mem::forget(set.take());
        return;
    }
    let grown = set.take();
    if let Some(place) = spare {
        *place = grown;
    }
}

// Keeps the first `count` tags of a line, and lets its tag set go if it is then empty.
#[inline(always)]
fn keep_tags<'a>(set: &mut Option<TagSet<'a>>, count: usize, spare: Option<&mut Option<TagSet<'a>>>)
    ensures tags { some_items set.new ≡ take count (some_items set.old) }
    ensures some { IfSome set.new (λ tags. 0 < length tags.items) }
    ensures room { IfSome set.new (λ tags. room_of set.old ≤ tags.capacity) }
{
    if let Some(tags) = set {
        if tags.len() > count {
            tags.truncate(count);
        }
        if !tags.is_empty() {
            return;
        }
    }
    let_go(set, spare);
}

// Keeps the first `count` fields of a line.
#[inline(always)]
fn keep_fields<'a>(fields: &mut FieldSet<'a>, count: usize)
    ensures fields { fields.new.items ≡ take count fields.old.items }
    ensures room { fields.new.capacity ≡ fields.old.capacity }
{
    if fields.len() > count {
        fields.truncate(count);
    }
}

// Fills the line `parsed` with the parts of the trimmed text `line`. After a fault, and after memory was refused, it is filled in
// part. A tag set that has grown is kept at `spare`, if this place is given and the line has no tags.
#[tactic(auto, using(crate::proofs::lemmas::line::Filled::fill_steps))]
#[inline(never)]
fn fill<'a>(
    alloc: Global,
    dialect: Dialect,
    line: &'a str,
    parsed: &mut ParsedLine<'a>,
    spare: Option<&mut Option<TagSet<'a>>>,
) -> std::result::Result<(), Unread<'a>>
    ensures value { FillsSpelled parsed.new result (answer (rules_of dialect) line.now) }
    ensures light { is_light_in (tag_room parsed.old.series.tag_set) parsed.old.field_set.capacity (rules_of dialect)
        line.now ≡ true → result ≢ Err Unread.OutOfMemory }
    ensures tag_room { KeepsTagRoom parsed.old parsed.new }
    ensures field_room { parsed.old.field_set.capacity ≤ parsed.new.field_set.capacity }
{
    let mut filling = Filling {
        alloc,
        line: parsed,
        tag_count: 0,
        field_count: 0,
        refused: false,
        fault: None,
    };
    tell_line(dialect, line, &mut filling);
    let Filling {
        line,
        tag_count,
        field_count,
        refused,
        fault,
        ..
    } = filling;
    if let Some(fault) = fault {
        return Err(Unread::Fault(fault));
    }
    if refused {
        return Err(Unread::OutOfMemory);
    }
    keep_fields(&mut line.field_set, field_count);
    keep_tags(&mut line.series.tag_set, tag_count, spare);
    Ok(())
}

// Gives a line without a tag set the set at `spare`. It is a function of its own, because the room for a set that is moved is
// cleared first.
#[cold]
#[inline(never)]
fn give_back<'a>(set: &mut Option<TagSet<'a>>, spare: &mut Option<TagSet<'a>>)
    ensures set { room_of set.old ≤ room_of set.new }
    ensures tags { tag_room set.old ≤ tag_room set.new }
{
    if set.is_none() {
        *set = spare.take();
    }
}

// Empties a line that is at fault. Its sets keep their room.
#[cold]
#[inline(never)]
fn empty(parsed: &mut ParsedLine<'_>)
    ensures empty { IsEmptyLine parsed.new }
    ensures tag_room { option_map (λ tags. tags.capacity) parsed.new.series.tag_set ≡ option_map
        (λ tags. tags.capacity) parsed.old.series.tag_set }
    ensures field_room { parsed.new.field_set.capacity ≡ parsed.old.field_set.capacity }
{
    parsed.series.raw_input = "";
    parsed.series.measurement = EscapedStr::SingleSlice("");
    if let Some(tags) = &mut parsed.series.tag_set {
        tags.clear();
    }
    parsed.field_set.clear();
    parsed.timestamp = None;
}

// Fills the line of a new item, as [`fill`] does, and makes an error of its fault.
#[tactic(auto, using(crate::proofs::lemmas::line::AnsweredLines::light_fault))]
#[inline(always)]
fn fill_new<'a>(
    alloc: Global,
    dialect: Dialect,
    line: &'a str,
    parsed: &mut ParsedLine<'a>,
) -> Result<()>
    ensures value { FillsLine parsed.new result (answer (rules_of dialect) line.now) }
    ensures light { is_light_in (tag_room parsed.old.series.tag_set) parsed.old.field_set.capacity (rules_of dialect)
        line.now ≡ true → IsNotOutOfMemory result }
{
    match fill(alloc, dialect, line, parsed, None) {
        Ok(()) => Ok(()),
        Err(unread) => Err(unread.to_error(alloc)),
    }
}

// Makes the item of a line that is at fault. The parts of the line that were read are freed here and nowhere else, because to
// drop the line would visit each place of its sets.
#[cold]
#[inline(never)]
fn refuse(alloc: Global, item: &mut Result<ParsedLine<'_>>, fault: Error)
    ensures { item.new ≡ Err fault }
{
    let read = mem::replace(item, Err(fault));
    if let Ok(mut parsed) = read {
        free_line(alloc, &mut parsed);
        forget_line(parsed);
    }
}

/// Fills a line that is used again with the parts of a trimmed text.
///
/// The sets of the line keep their room. A tag set that has grown is kept at `spare` while the line has no tags.
///
/// # Errors
///
/// `Fault` with the fault of the text as it is spelled, if it has one, and else `OutOfMemory` if memory for the line was refused.
/// The line is then filled in part, and can be filled again.
#[tactic(auto, using(crate::proofs::lemmas::line::AnsweredLines::more_room))]
#[inline(always)]
pub fn refill_line<'a>(
    alloc: Global,
    dialect: Dialect,
    text: &'a str,
    line: &mut ParsedLine<'a>,
    spare: &mut Option<TagSet<'a>>,
) -> std::result::Result<(), Unread<'a>>
    ensures value { FillsSpelled line.new result (answer (rules_of dialect) text.now) }
    ensures tag_room { KeepsTagRoom line.old line.new }
    ensures field_room { line.old.field_set.capacity ≤ line.new.field_set.capacity }
    ensures light { is_light_in (max inline_tags (room_of line.old.series.tag_set)) (max inline_fields line.old.field_set.capacity)
        (rules_of dialect) text.now ≡ true → result ≢ Err Unread.OutOfMemory }
{
    let _at_least_inline = line.field_set.capacity();
    if spare.is_some() {
        give_back(&mut line.series.tag_set, spare);
    }
    fill(alloc, dialect, text, line, Some(spare))
}

/// Reads a trimmed text into a line that is used again, as [`read_into`] does, but its error is the fault of the text as it is
/// spelled.
///
/// # Errors
///
/// The errors of [`refill_line`]. The line is then empty.
#[inline(always)]
pub fn read_spelled_into<'a>(
    alloc: Global,
    dialect: Dialect,
    text: &'a str,
    line: &mut ParsedLine<'a>,
    spare: &mut Option<TagSet<'a>>,
) -> std::result::Result<(), Unread<'a>>
    ensures value { FillsSpelled line.new result (answer (rules_of dialect) text.now) }
    ensures fault { OnErr result (IsEmptyLine line.new) }
    ensures tag_room { KeepsTagRoom line.old line.new }
    ensures field_room { line.old.field_set.capacity ≤ line.new.field_set.capacity }
    ensures light { is_light_in (max inline_tags (room_of line.old.series.tag_set)) (max inline_fields line.old.field_set.capacity)
        (rules_of dialect) text.now ≡ true → result ≢ Err Unread.OutOfMemory }
{
    match refill_line(alloc, dialect, text, line, spare) {
        Ok(()) => Ok(()),
        Err(unread) => {
            empty(line);
            Err(unread)
        }
    }
}

/// Reads a trimmed text into a line that is used again.
///
/// The sets of the line keep their room. A tag set that has grown is kept at `spare` while the line has no tags.
///
/// # Errors
///
/// The fault of the text, or `OutOfMemory` if memory for the line, or for the text of its fault, was refused. The line is then
/// empty.
#[tactic(auto, using(crate::proofs::lemmas::line::AnsweredLines::light_fault))]
#[inline(always)]
pub fn read_into<'a>(
    alloc: Global,
    dialect: Dialect,
    text: &'a str,
    line: &mut ParsedLine<'a>,
    spare: &mut Option<TagSet<'a>>,
) -> Result<()>
    ensures value { FillsLine line.new result (answer (rules_of dialect) text.now) }
    ensures fault { OnErr result (IsEmptyLine line.new) }
    ensures tag_room { KeepsTagRoom line.old line.new }
    ensures field_room { line.old.field_set.capacity ≤ line.new.field_set.capacity }
    ensures light { is_light_in (max inline_tags (room_of line.old.series.tag_set)) (max inline_fields line.old.field_set.capacity)
        (rules_of dialect) text.now ≡ true → IsNotOutOfMemory result }
{
    match read_spelled_into(alloc, dialect, text, line, spare) {
        Ok(()) => Ok(()),
        Err(unread) => Err(unread.to_error(alloc)),
    }
}

/// The lines of a text, one after another. [`parse_lines`] returns it.
///
/// Each item is the answer for one piece that holds more than blanks and comments: its line, or its one fault. A tag set of a
/// line holds at least one tag. The items after an item, whatever it is, are those of the pieces after its piece. The iterator
/// gives at most `input.len()` items. After the last item it gives `None`, also if it is called again.
#[derive(Drop)]
pub struct ParseLines<'a> {
    lines: SplitLines<'a>,
    // A tag set that has grown, of a line that has no tags now. The next line without a tag set gets it.
    spare: Option<TagSet<'a>>,
    alloc: Global,
}

impl<'a> Model for ParseLines<'a> {
    ghost use Rattle.lp_format.specs.format.{Left};

    ghost Value = { Left };

    ghost view = { λ s. s.lines };
}

impl<'a> ParseLines<'a> {
    ghost use Rattle.std.specs.Prelude.{IfNone};
    ghost use Rattle.lp_lines.specs.code.ParseSteps.{GivesItem};
    ghost use Rattle.lp_lines.specs.code.ReadInto.{GivesInRoom, LeavesEmpty, item_in};

    /// Returns the text that is left: the text after the piece of the last item, or `None` if no text is left.
    ///
    /// You can tell from it where an item ends in the text: `input.len() - rest.len()` bytes from the start, after its newline,
    /// or at the end of the input if no text is left. The number of the last line of an item is the number of newlines up to
    /// there, and one more if no text is left.
    ///
    /// ```text
    /// "m a=1i\n# c\nm b=x"  after the line m a=1i     Some("# c\nm b=x"): one newline before it, so it ends line 1
    ///                       after the fault of m b=x  None: two newlines in all, so it ends line 3
    /// ```
    pub fn remainder(&self) -> Option<&'a str>
        ensures { option_map (λ rest. rest.now) result ≡ self.now.text }
    {
        self.lines.remainder()
    }

    /// Reads the next item into a line that is used again, or returns `None` if no item is left. The line then stays as it was.
    ///
    /// After `Some(Ok(()))` the line is the line that `next` would have given. A line asks for no memory if its tags and fields
    /// fit the sets of `line`, which keep their room, or the room of new sets, and if it needs no memory for copies and for the
    /// text of a fault.
    ///
    /// # Errors
    ///
    /// The fault of the line, as `next` gives it, or `OutOfMemory` if a request for memory was refused. The line is then empty.
    #[inline(always)]
    pub fn next_into(&mut self, line: &mut ParsedLine<'a>) -> Option<Result<()>>
        ensures gives { GivesItem self.old (option_map (item_in line.new) result) self.new }
        ensures fewer { IfSome result (λ answer. most_items self.new.text < most_items self.old.text) }
        ensures fault { LeavesEmpty line.new result }
        ensures ended { IfNone result (line.new ≡ line.old) }
        ensures tag_room { KeepsTagRoom line.old line.new }
        ensures field_room { line.old.field_set.capacity ≤ line.new.field_set.capacity }
        ensures memory { GivesInRoom (max inline_tags (room_of line.old.series.tag_set))
            (max inline_fields line.old.field_set.capacity) self.old result self.new }
    {
        let text = lines::next_line(&mut self.lines)?;
        let dialect = dialect_of(&self.lines);
        Some(read_into(self.alloc, dialect, text, line, &mut self.spare))
    }
}

/// Reads the pieces of a text, and gives one item for each piece that holds more than blanks and comments.
///
/// A piece is a line together with the lines after it that belong to it: up to the quote that closes a string, and after a
/// backslash at its end. A piece that cannot be read is one `Err`, and the next pieces are answered as if it had not been there.
/// For example, `m a="x`, a newline and `n b=1i` are one `Err(FieldSetMissing)`, because the quote is never closed.
///
/// ```text
/// "cpu usage=64i\nm 5\n"  gives  Ok, with the measurement cpu and the field usage=64i, and Err(FieldSetMissing)
/// ```
///
/// If memory for a line is refused, its item is `Err(Error::OutOfMemory)`, or the fault of the line if it has one. A line of at
/// most 8 tags and 4 fields asks for no memory if each name and string is a part of the input, or if the line holds no backslash
/// and its fault carries no text.
pub fn parse_lines(alloc: Global, input: &str) -> ParseLines<'_>
    ensures { result ≡ record { dialect = Crate; text = Some input.now } }
{
    parse_lines_in(alloc, Dialect::Crate, input)
}

/// Reads all lines of a text by the rules of a dialect.
///
/// [`parse_lines`] uses [`Dialect::Crate`], and treats faults and memory in the same way. In the strict dialect, a comment ends
/// at the first newline, and a comma after the first field stays in the rest of the line unless a second field follows it.
///
/// ```text
/// parse_lines_in(alloc, Dialect::Crate, "m a=1i,")   gives  Ok, with the field a=1i
/// parse_lines_in(alloc, Dialect::Strict, "m a=1i,")  gives  CannotParseEntireLine, with the rest ","
/// ```
#[inline]
pub fn parse_lines_in(alloc: Global, dialect: Dialect, input: &str) -> ParseLines<'_>
    ensures { result ≡ record { dialect = rules_of dialect; text = Some input.now } }
{
    ParseLines {
        lines: split_lines_in(dialect, input),
        spare: None,
        alloc,
    }
}

impl<'a> Iterator for ParseLines<'a> {
    type Item = Result<ParsedLine<'a>>;

    ghost use Rattle.std.specs.Iterator.{at_most};
    ghost use Rattle.lp_lines.specs.code.ParseSteps.{GivesItem, most_items};

    ghost next_gives = { GivesItem };

    ghost remaining = { λ left. at_most (most_items left.text) };

    // The item is made with an empty line in it, and filled in place, because a line is large and each move copies it. It is made
    // before its text is found: locals are zeroed where a function starts, and only there does the compiler see that all of the
    // item is written, and leave out the zeros.
    #[inline(always)]
    fn next(&mut self) -> Option<Result<ParsedLine<'a>>> {
        let mut item = Ok(ParsedLine {
            series: Series {
                raw_input: "",
                measurement: EscapedStr::SingleSlice(""),
                tag_set: Some(SmallVec::new(self.alloc)),
            },
            field_set: SmallVec::new(self.alloc),
            timestamp: None,
        });
        let Some(line) = lines::next_line(&mut self.lines) else {
            // The item holds no memory, and to drop it would visit each place of its sets.
            mem::forget(item);
            return None;
        };
        if let Ok(parsed) = &mut item {
            if let Err(fault) = fill_new(self.alloc, dialect_of(&self.lines), line, parsed) {
                refuse(self.alloc, &mut item, fault);
            }
        }
        Some(item)
    }
}
