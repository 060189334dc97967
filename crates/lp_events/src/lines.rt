//! The lines of a text: its pieces without the blank ones, each trimmed.

ghost use Rattle.std.specs.Prelude.{◌<◌, ◌^◌, length, IfSome};
ghost use Rattle.lp_events.specs.code.LineSteps.{GivesLine, most_items};

use lp_scan::trim::trimmed;
use lp_split::split::SplitLines;

/// Takes the pieces up to the next one that holds more than blanks and comments, and returns it, trimmed. Returns `None` if no
/// such piece is left. It takes no memory.
///
/// ```text
/// "\n# c\nm a=1i\nn b=1i"  gives  m a=1i, and leaves the piece n b=1i
/// ```
#[inline(always)]
pub fn next_line<'a>(lines: &mut SplitLines<'a>) -> Option<&'a str>
    ensures gives { GivesLine lines.old result lines.new }
    ensures fewer { IfSome result (λ line. most_items lines.new.text < most_items lines.old.text) }
    ensures fits { IfSome result (λ line. length line.now < 2 ^ 63) }
{
    while let Some(piece) = lines.next() {
        let line = trimmed(piece);
        if !line.is_empty() {
            return Some(line);
        }
    }
    None
}
