//! The messages of the clauses of what is portable, each into a buffer that the caller lends.

ghost use Rattle.std.specs.Prelude.{◌≡◌, ◌≢◌, MatchOption};
ghost use Rattle.lp_c.specs.ClauseMessages.{IsClauseBit, clause_message};
ghost use Rattle.lp_c.specs.Writing.{Writes};
ghost use Rattle.lp_offsets.specs.Numbers.{answer_number};
ghost use Rattle.lp_offsets.specs.declared.enums.Answer.TheVariants.{OutOfMemory, Written};

use crate::writing::put_out;
use lp_offsets::enums::Answer;

// The message of the clause with this bit, if there is such a clause.
fn message_by(bit: u64) -> Option<&'static str>
    ensures { MatchOption result (¬ IsClauseBit bit) (λ message. IsClauseBit bit × (message.now ≡ clause_message bit)) }
{
    match bit {
        0x1 => Some("what is there is not one line for the strict reader"),
        0x2 => Some("a space or a tab comes before the line"),
        0x4 => Some("a space ends the line"),
        0x8 => Some("the line holds a newline: in a string, or escaped"),
        0x10 => Some("an equals sign is escaped in the measurement"),
        0x20 => Some("a backslash or a quote is escaped in the measurement"),
        0x40 => Some("a backslash is escaped in a tag key or a tag value"),
        0x80 => Some("a comma is bare in a tag key"),
        0x100 => Some("an equals sign is bare in a tag value"),
        0x200 => Some("two tags have one key"),
        0x400 => Some("a backslash or a quote is escaped in a field key"),
        0x800 => Some("a comma is bare in a field key"),
        0x1000 => Some("a field key holds a quote"),
        0x2000 => Some("the series, four bytes and a field key are longer than 65,535 bytes"),
        0x4000 => Some("a value is an unsigned integer"),
        0x8000 => Some("a float is too large for a finite number"),
        0x10000 => Some("a float has an exponent, or takes over 310 bytes"),
        0x20000 => Some("the first field key begins with a byte 0"),
        0x40000 => Some("the timestamp is the greatest of 64 bits, or one of the two least"),
        0x80000 => Some("the tags are 100, 200, 400, 800 and so on"),
        0x100000 => Some("a tag key or a field key is `time`"),
        0x200000 => Some("the measurement or a field key is a name of the server's own"),
        0x400000 => Some("two fields have one key"),
        0x800000 => Some("the series holds `#!~`"),
        0x1000000 => Some("the measurement or a field key holds a byte 0 or a carriage return"),
        0x2000000 => Some("a tag key is `__name__`"),
        0x4000000 => Some("a tag key is longer than 256 bytes"),
        0x8000000 => Some("a tag value is longer than 16,384 bytes"),
        0x10000000 => Some("the measurement, a byte and a field key are longer than 16,384 bytes"),
        0x20000000 => Some("the series, a byte and a field key are longer than 32,000 bytes"),
        0x40000000 => Some("there are more tags than the limit"),
        0x80000000 => Some("the line is longer than the limit"),
        0x100000000 => Some("the timestamp is before or after what is kept"),
        _ => None,
    }
}

/// The message of a clause of what is portable: what breaks it, in words. `clause` is one bit of a verdict. It asks for no memory.
///
/// Answers `Written`, and `len` is how many bytes were written; or `MoreRoom`, and `len` is how many are needed; or `NotALine`, if
/// `clause` is not the bit of one clause, and `len` is as it was. Only `Written` changes `out`.
///
/// ```text
/// 1 << 9  ->  two tags have one key
/// 1       ->  what is there is not one line for the strict reader
/// 0       ->  NotALine
/// ```
#[unsafe(no_mangle)]
pub extern "C" fn lp_clause_message(clause: u64, out: &mut [u8], len: &mut usize) -> u32
    ensures puts { Writes (IsClauseBit clause) Written (clause_message clause) out.old out.new len.old len.new result }
    ensures memory { result ≢ answer_number OutOfMemory }
{
    match message_by(clause) {
        Some(message) => put_out(Answer::Written, message.as_bytes(), out, len),
        None => Answer::NotALine.number(),
    }
}
