//! Many lines in one call that rows by offsets hold: each is written, if it reads back, into a buffer that the caller lends.

ghost use Rattle.std.specs.Prelude.{◌≡◌, ◌≢◌, ◌↔◌, ◌≤◌, ◌<◌, ◌++◌, [], length, map, min, take, drop, IfErr, OnOk};
ghost use Rattle.std.specs.List.{AllByRecursion};
ghost use Rattle.influxdb_line_protocol.specs.code.Rules.{rules_of};
ghost use Rattle.influxdb_line_protocol.specs.format.Points.{IsPoint, built};
ghost use Rattle.lp_c.specs.HandedRows.{point_there};
ghost use Rattle.lp_offsets.specs.Numbers.{IsNoDialect, answer_number, dialect_of};
ghost use Rattle.lp_c.specs.WritingRows.{AreLinesOf, IsWrittenIn, StopsAt, StopsAtRow, WritesRows};
ghost use Rattle.lp_offsets.specs.declared.enums.Answer.TheVariants as Answer;

use crate::handed::empty_line;
use crate::handed_rows::{Texts, take_row};
use crate::writing::put_front;
use influxdb_line_protocol::builder::Unwritten;
use influxdb_line_protocol::{
    Dialect as Rules, LineProtocolBuilder, ParsedLine, laws, write_admitted_line_in,
};
use lp_offsets::enums::{Answer, Dialect};
use lp_offsets::offsets::OffsetRow;
use lp_offsets::placed::OffsetPart;
use lp_offsets::portions::no_portion;
use std::alloc::Global;
use std::mem;

/// How far after the one before a row may begin whose texts are tested with those of the rows after it.
const NEAR: u32 = 1024;

// How many bytes are tested for UTF-8 at once for each row.
const EACH: usize = 256;

/// Where writing rows begins, and how far it came.
#[repr(C)]
#[derive(Clone, Copy)]
pub struct RowsWritten {
    /// The row to begin with; then the one that was not written, or how many rows there are.
    pub row: usize,
    /// How many bytes the lines take that were written.
    pub len: usize,
    /// How many bytes the line of `row` takes, if there is no room for it, or else 0.
    pub need: usize,
}

// Why no more rows were written, and how many bytes the next line takes, if there is no room for it.
#[derive(Clone, Copy)]
pub(crate) struct Stop {
    pub(crate) answer: Answer,
    pub(crate) need: usize,
}

// A stop for another reason than a lack of room.
fn stop_for(answer: Answer) -> Stop
    ensures { (result.answer ≡ answer) × (result.need ≡ 0) }
{
    Stop { answer, need: 0 }
}

// Lines that are written: by which rules, and into how many bytes at most.
#[derive(Drop)]
pub(crate) struct Writing<'a> {
    alloc: Global,
    rules: Rules,
    most: usize,
    // The line of a row, whose memory is used again for the next one.
    taken: ParsedLine<'a>,
    lines: Vec<u8>,
}

// Writes the line of a row after others, if it reads back and all take no more bytes than they may.
fn write_row<'a>(
    writing: &mut Writing<'a>,
    texts: &Texts<'a>,
    row: &OffsetRow,
    parts: &[OffsetPart],
) -> Result<(), Stop>
    requires { length writing.old.lines.items ≤ writing.old.most }
    ensures same { (writing.new.rules ≡ writing.old.rules) × (writing.new.most ≡ writing.old.most) }
    ensures is { OnOk result (IsWrittenIn (rules_of writing.old.rules) texts.now.portion.bytes.now texts.now.room.now parts.now row.now) }
    ensures point { OnOk result (IsPoint (point_there texts.now.portion.bytes.now texts.now.room.now parts.now row.now)) }
    ensures put { OnOk result (writing.new.lines.items
        ≡ writing.old.lines.items ++ built (point_there texts.now.portion.bytes.now texts.now.room.now parts.now row.now)) }
    ensures fits { length writing.new.lines.items ≤ writing.new.most }
    ensures stops { IfErr result (λ stop. StopsAtRow (rules_of writing.old.rules) texts.now.portion.bytes.now texts.now.room.now parts.now
        writing.old.most (length writing.old.lines.items) stop row.now) }
    ensures kept { IfErr result (λ stop. writing.new.lines.items ≡ writing.old.lines.items) }
{
    if let Err(answer) = take_row(writing.alloc, texts, row, parts, &mut writing.taken) {
        return Err(stop_for(answer));
    }
    let used = writing.lines.len();
    let before = mem::replace(&mut writing.lines, Vec::new(writing.alloc));
    let builder = LineProtocolBuilder::new_with(before);
    match write_admitted_line_in(builder, writing.rules, &writing.taken) {
        Ok(longer) => {
            writing.lines = longer.build();
            if writing.lines.len() <= writing.most {
                return Ok(());
            }
            let need = writing.lines.len() - used;
            writing.lines.truncate(used);
            Err(Stop {
                answer: Answer::MoreRoom,
                need,
            })
        }
        Err(Unwritten::NotAdmitted(builder)) => {
            writing.lines = builder.build();
            Err(stop_for(Answer::NotAdmitted))
        }
        Err(Unwritten::Refused(refused)) => {
            writing.lines = refused.builder.build();
            Err(stop_for(Answer::OutOfMemory))
        }
    }
}

// Begins the next portion at a row that begins in the bytes a little after the row before it.
#[inline(always)]
fn move_near(texts: &mut Texts<'_>, rows: &[OffsetRow], at: usize)
    requires { at < length rows.now }
    ensures text { texts.new.portion.bytes.now ≡ texts.old.portion.bytes.now }
    ensures room { texts.new.room.now ≡ texts.old.room.now }
{
    if at == 0 || rows[at - 1].measurement_copied != 0 || rows[at].measurement_copied != 0 {
        return;
    }
    let (before, next) = (rows[at - 1].measurement.at, rows[at].measurement.at);
    if before <= next && next - before < NEAR {
        texts.portion.move_to(next as usize, EACH);
    }
}

// Writes the lines of rows, as far as each reads back and they take no more bytes than they may. Gives how many rows it wrote, and why
// no more.
fn write_rows<'a>(
    writing: &mut Writing<'a>,
    texts: Texts<'a>,
    rows: &[OffsetRow],
    parts: &[OffsetPart],
) -> (usize, Stop)
    requires { writing.old.lines.items ≡ [] }
    ensures count { result.0 ≤ length rows.now }
    ensures fits { length writing.new.lines.items ≤ writing.old.most }
    ensures lines { AreLinesOf (rules_of writing.old.rules) texts.entry.portion.bytes.now texts.entry.room.now parts.now (take result.0 rows.now)
        writing.new.lines.items }
    ensures points { AllByRecursion IsPoint
        (map (point_there texts.entry.portion.bytes.now texts.entry.room.now parts.now) (take result.0 rows.now)) }
    ensures stops { StopsAt (rules_of writing.old.rules) texts.entry.portion.bytes.now texts.entry.room.now parts.now writing.old.most
        (length writing.new.lines.items) result.1 (drop result.0 rows.now) }
{
    let mut near = texts;
    for at in 0..rows.len() {
        move_near(&mut near, rows, at);
        if let Err(stop) = write_row(writing, &near, &rows[at], parts) {
            return (at, stop);
        }
    }
    (rows.len(), stop_for(Answer::Written))
}

/// Writes the lines of rows by offsets, in order, each with its newline, as `lp_line_write` writes it if it reads back: if it is
/// admitted in the [`Dialect`] of this number. The places of `rows` and `parts` lie in `text` and `room`, as `lp_offsets_block` fills
/// them: so what was read can be written again. What is written is read as the points of these rows and as no others.
///
/// `written` says with which row to begin; then which row was not written, and how many bytes of `out` are filled. What comes after
/// them is as it was.
///
/// Answers `Written`, if no row is left; `MoreRoom`, if `out` has no room for the next line; or `NotAdmitted`, `NotALine` or
/// `OutOfMemory`, if that line is not written for such a cause. A row holds no line if a place of it is past the end of what it lies in,
/// a text is no UTF-8, a literal no float, a kind none, or if it has no field. `NotADialect`: then all is as it was.
#[unsafe(no_mangle)]
pub extern "C" fn lp_offsets_write(
    alloc: Global,
    dialect: u32,
    text: &[u8],
    room: &[u8],
    rows: &[OffsetRow],
    parts: &[OffsetPart],
    out: &mut [u8],
    written: &mut RowsWritten,
) -> u32
    ensures writes { result ≢ answer_number Answer.NotADialect → WritesRows (dialect_of dialect) text.now room.now parts.now
        rows.now (min written.old.row (length rows.now)) out.old out.new written.new result }
    ensures not_a_dialect { result ≡ answer_number Answer.NotADialect ↔ IsNoDialect dialect }
    ensures refused { result ≡ answer_number Answer.NotADialect → (out.new ≡ out.old) × (written.new ≡ written.old) }
{
    let Some(dialect) = Dialect::numbered(dialect) else {
        return Answer::NotADialect.number();
    };
    let from = written.row.min(rows.len());
    let (_, rest) = rows.split_at(from);
    let mut writing = Writing {
        alloc,
        rules: dialect.rules(),
        most: out.len(),
        taken: empty_line(alloc),
        lines: Vec::new(alloc),
    };
    let texts = Texts {
        portion: no_portion(text, rest.len()),
        room,
    };
    let (count, stop) = write_rows(&mut writing, texts, rest, parts);
    put_front(writing.lines.as_slice(), out);
    laws::admitted_lines_read_back();
    *written = RowsWritten {
        row: from + count,
        len: writing.lines.len(),
        need: stop.need,
    };
    stop.answer.number()
}
