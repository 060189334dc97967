//! Many items in one call, for callers to whom a call is dear.

ghost use Rattle.std.specs.Prelude.{◌≡◌, ◌≢◌, ◌≤◌, ◌+◌, drop, false, length, take, IsTrue, IsUtf8};
ghost use Rattle.lp_c.specs.Blocks.{ReadsBlock, parts_of};
ghost use Rattle.lp_c.specs.Crossing.{ReadsItem, is_item, left_of};
ghost use Rattle.lp_offsets.specs.Numbers.{answer_number};

use crate::reading::{pieces_of, read_next};
use crate::views::{Line, Lines, Part, Room};
use influxdb_line_protocol::SplitLines;
use lp_offsets::enums::Answer;

/// An item, and where its parts begin.
#[repr(C)]
#[derive(Clone, Copy)]
pub struct Row<'a> {
    /// The line, or the fault.
    pub line: Line<'a>,
    /// How many parts those before it have.
    pub parts_at: usize,
    /// The number of the [`Answer`] for the item.
    pub answer: u32,
}

// Whether an answer is for an item that was passed.
fn is_item(answer: u32) -> bool
    ensures { result ≡ is_item answer }
{
    answer == Answer::Line.number() || answer == Answer::Fault.number()
}

// Reads the next item into a row, with its parts from where the row says, and gives its answer and how many parts it has.
#[inline(always)]
fn read_row<'a>(
    pieces: &mut SplitLines<'a>,
    lines: &mut Lines<'a>,
    room: &mut Room<'a>,
    row: &mut Row<'a>,
    parts: &mut [Part<'a>],
) -> (u32, usize)
    requires text { IsUtf8 lines.old.rest.now }
    requires left { lines.old.ended ≡ false → pieces.old ≡ left_of lines.old }
    requires at { row.old.parts_at ≤ length parts.old }
    ensures text { IsUtf8 lines.new.rest.now }
    ensures left { IsTrue (is_item result.0) → lines.new.ended ≡ false → pieces.new ≡ left_of lines.new }
    ensures answer { result.0 ≡ row.new.answer }
    ensures own { result.1 ≡ parts_of row.new }
    ensures at { row.new.parts_at ≡ row.old.parts_at }
    ensures size { length parts.new ≡ length parts.old }
    ensures kept { take row.old.parts_at parts.new ≡ take row.old.parts_at parts.old }
    ensures fits { row.old.parts_at + result.1 ≤ length parts.new }
    ensures reads { ∥ ReadsItem lines.old (length room.old.bytes.now) (length room.new.bytes.now) row.new.answer row.new.line
        (drop row.old.parts_at parts.new) lines.new ∥₁ }
    ensures memory { result.0 ≢ answer_number Answer.OutOfMemory }
{
    let own_parts = &mut parts[row.parts_at..];
    row.answer = read_next(pieces, lines, room, &mut row.line, own_parts);
    let own = if row.answer == Answer::Line.number() {
        row.line.tags + row.line.fields
    } else {
        0
    };
    (row.answer, own)
}

/// Reads items into rows, in order, as long as rows, parts and room last. `filled` is how many rows were filled. It asks for no
/// memory.
///
/// Each row has the answer for its item (`Line` or `Fault`) and what [`lp_lines_next`](crate::reading) shows of it; the parts of
/// a line begin at `parts_at`. Answers `Line`, if each row is filled; `End`, if no item is left; or `MoreParts` or
/// `MoreRoom`, if the next item takes more than is left. Then the row after the filled ones says how much, and `lines` is before
/// that item. What is left of `room` is all but the bytes that the items of the rows take.
#[unsafe(no_mangle)]
pub extern "C" fn lp_lines_block<'a>(
    lines: &mut Lines<'a>,
    room: &mut Room<'a>,
    rows: &mut [Row<'a>],
    parts: &mut [Part<'a>],
    filled: &mut usize,
) -> u32
    requires { IsUtf8 lines.old.rest.now }
    ensures text { IsUtf8 lines.new.rest.now }
    ensures reads { ∥ ReadsBlock lines.old (length room.old.bytes.now) (length room.new.bytes.now) rows.new parts.new filled.new
        result lines.new ∥₁ }
    ensures memory { result ≢ answer_number Answer.OutOfMemory }
{
    let mut pieces = pieces_of(lines);
    let mut used = 0usize;
    for at in 0..rows.len() {
        let row = &mut rows[at];
        row.parts_at = used;
        let (answer, own) = read_row(&mut pieces, lines, room, row, parts);
        if !is_item(answer) {
            *filled = at;
            return answer;
        }
        used += own;
    }
    *filled = rows.len();
    Answer::Line.number()
}
