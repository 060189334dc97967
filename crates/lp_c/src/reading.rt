//! The calls that read.

ghost use Rattle.std.specs.Prelude.{◌≡◌, ◌≢◌, ◌≤◌, ◌+◌, ◌↔◌, [], length, false, IsFalse, IsTrue, IsUtf8, Some, option_map};
ghost use Rattle.lp_c.specs.Crossing.{GivesView, ReadsItem, is_item, left_of};
ghost use Rattle.lp_offsets.specs.Numbers.{IsNoDialect, answer_number, dialect_of};

use crate::telling::put_item;
use crate::views::{Line, Lines, Part, Room, View};
use influxdb_line_protocol::{SplitLines, split_lines_in};
use lp_events::lines::next_line;
use lp_offsets::enums::{Answer, Dialect, dialect_of};

/// The version of the library: 10,000 times its first number, 100 times its second, and its third.
#[unsafe(no_mangle)]
pub extern "C" fn lp_version() -> u32
    ensures { result ≡ 30000 }
{
    30000
}

/// Begins to read a text by the rules of the [`Dialect`] of this number, and says whether it did: whether a dialect has the number,
/// and the text is UTF-8. Else `lines` is as it was, and nothing may be read of the text.
#[unsafe(no_mangle)]
pub extern "C" fn lp_lines_begin<'a>(text: &'a [u8], dialect: u32, lines: &mut Lines<'a>) -> bool
    ensures begins { IsTrue result ↔ IsUtf8 text.now × (¬ IsNoDialect dialect) }
    ensures begun { IsTrue result → left_of lines.new ≡ record { dialect = dialect_of dialect; text = Some text.now } }
    ensures refused { IsFalse result → lines.new ≡ lines.old }
{
    if Dialect::numbered(dialect).is_none() || simdutf8::basic::from_utf8(text).is_err() {
        return false;
    }
    *lines = Lines {
        rest: text,
        dialect,
        ended: false,
    };
    true
}

// Leaves this of the text.
fn leave<'a>(lines: &mut Lines<'a>, rest: Option<&'a str>)
    requires { IsUtf8 lines.old.rest.now }
    ensures text { IsUtf8 lines.new.rest.now }
    ensures left { left_of lines.new ≡ record { dialect = dialect_of lines.old.dialect; text = option_map (λ left. left.now) rest.entry } }
{
    match rest {
        Some(rest) => {
            lines.rest = rest.as_bytes();
            lines.ended = false;
        }
        None => lines.ended = true,
    }
}

// The pieces of what is left, if the cursor has not ended.
#[inline(always)]
pub(crate) fn pieces_of<'a>(lines: &Lines<'a>) -> SplitLines<'a>
    requires { IsUtf8 lines.now.rest.now }
    ensures { lines.now.ended ≡ false → result ≡ left_of lines.now }
{
    let text = unsafe { str::from_utf8_unchecked(lines.rest) };
    split_lines_in(dialect_of(lines.dialect), text)
}

// Reads the next item into what the caller lends; `pieces` may be used again if the item was passed.
#[inline(always)]
pub(crate) fn read_next<'a>(
    pieces: &mut SplitLines<'a>,
    lines: &mut Lines<'a>,
    room: &mut Room<'a>,
    line: &mut Line<'a>,
    parts: &mut [Part<'a>],
) -> u32
    requires text { IsUtf8 lines.old.rest.now }
    requires left { lines.old.ended ≡ false → pieces.old ≡ left_of lines.old }
    ensures text { IsUtf8 lines.new.rest.now }
    ensures left { IsTrue (is_item result) → lines.new.ended ≡ false → pieces.new ≡ left_of lines.new }
    ensures reads { ∥ ReadsItem lines.old (length room.old.bytes.now) (length room.new.bytes.now) result line.new parts.new
        lines.new ∥₁ }
    ensures fits { result ≡ 1 → line.new.tags + line.new.fields ≤ length parts.new }
    ensures memory { result ≢ answer_number Answer.OutOfMemory }
{
    if lines.ended {
        return Answer::End.number();
    }
    let Some(text) = next_line(pieces) else {
        lines.ended = true;
        return Answer::End.number();
    };
    let answer = put_item(dialect_of(lines.dialect), text, room, line, parts);
    if !answer.is_more() {
        leave(lines, pieces.remainder());
    }
    answer.number()
}

/// Reads the next item into what the caller lends, and answers the number of an [`Answer`]. It asks for no memory.
///
/// `Line`, `Fault` and `End` pass the item. `MoreParts` and `MoreRoom` leave `lines` as it was, and `line` says how much the
/// item takes: lend that much, and call again. What is left of `room` is all but the bytes that a line or a fault takes.
#[unsafe(no_mangle)]
pub extern "C" fn lp_lines_next<'a>(
    lines: &mut Lines<'a>,
    room: &mut Room<'a>,
    line: &mut Line<'a>,
    parts: &mut [Part<'a>],
) -> u32
    requires { IsUtf8 lines.old.rest.now }
    ensures text { IsUtf8 lines.new.rest.now }
    ensures reads { ∥ ReadsItem lines.old (length room.old.bytes.now) (length room.new.bytes.now) result line.new parts.new
        lines.new ∥₁ }
    ensures memory { result ≢ answer_number Answer.OutOfMemory }
{
    read_next(&mut pieces_of(lines), lines, room, line, parts)
}

/// Takes the next piece off what is left, not parsed, and says whether there was one.
#[unsafe(no_mangle)]
pub extern "C" fn lp_lines_piece<'a>(lines: &mut Lines<'a>, piece: &mut View<'a>) -> bool
    requires { IsUtf8 lines.old.rest.now }
    ensures text { IsUtf8 lines.new.rest.now }
    ensures gives { GivesView (left_of lines.old) result piece.new (left_of lines.new) }
    ensures stays { IsFalse result → lines.new ≡ lines.old }
{
    if lines.ended {
        return false;
    }
    let mut pieces = pieces_of(lines);
    let Some(first) = pieces.next() else {
        return false;
    };
    *piece = View {
        text: first.as_bytes(),
        copied: false,
    };
    leave(lines, pieces.remainder());
    true
}
