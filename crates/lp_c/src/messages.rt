//! The messages of faults, each into a buffer that the caller lends.

ghost use Rattle.std.specs.Prelude.{◌≡◌, ◌≢◌, ◌≤◌, ◌++◌, ◌^◌, ◌<◌, [], drop, length, IfSome, MatchOption};
ghost use Rattle.influxdb_line_protocol.specs.code.Faults.{error_text};
ghost use Rattle.influxdb_line_protocol.specs.types.Error.{Error};
ghost use Rattle.lp_offsets.specs.declared.enums.Answer.TheVariants.{NotALine, OutOfMemory, Written};
ghost use Rattle.lp_c.specs.Messages.{IsFaultIn, IsFaultNumber, IsShort, ShowsError, message_by, message_bytes, message_in};
ghost use Rattle.lp_offsets.specs.Numbers.{answer_number};
ghost use Rattle.lp_c.specs.Writing.{Writes};

use crate::views::Line;
use crate::writing::put_front;
use lp_offsets::enums::Answer;

// A message: the text that a fault names, if it names one, and what comes before and after it.
#[derive(Clone, Copy)]
struct Message<'a> {
    front: &'a [u8],
    text: &'a [u8],
    back: &'a [u8],
}

// The message that has this text between two others.
fn framed<'a>(front: &'a [u8], text: &'a [u8], back: &'a [u8]) -> Message<'a>
    requires front { length front.now ≤ 128 }
    requires back { length back.now ≤ 128 }
    ensures bytes { message_bytes result ≡ front.now ++ text.now ++ back.now }
    ensures short { IsShort result }
{
    Message { front, text, back }
}

// The message that names no text.
fn bare<'a>(front: &'a [u8]) -> Message<'a>
    requires { length front.now ≤ 128 }
    ensures bytes { message_bytes result ≡ front.now }
    ensures short { IsShort result }
{
    Message {
        front,
        text: b"",
        back: b"",
    }
}

// The message of the fault with this number, if there is such a fault, and this text.
fn message_by<'a>(number: u32, text: &'a [u8]) -> Option<Message<'a>>
    ensures message { MatchOption result (¬ IsFaultNumber number)
        (λ message. IsFaultNumber number × (message_bytes message ≡ message_by number text.now)) }
    ensures short { IfSome result IsShort }
{
    match number {
        1 => Some(framed(
            b"Must not contain duplicate tags, but \"",
            text,
            b"\" was repeated",
        )),
        2 => Some(bare(b"Invalid measurement was provided")),
        3 => Some(bare(b"No fields were provided")),
        4 => Some(framed(b"Unable to parse integer value '", text, b"'")),
        5 => Some(framed(b"Unable to parse unsigned integer value '", text, b"'")),
        6 => Some(framed(b"Unable to parse timestamp value '", text, b"'")),
        7 => Some(bare(
            b"Measurements, tag keys and values, and field keys may not end with a backslash",
        )),
        8 => Some(framed(
            b"Could not parse entire line. Found trailing content: '",
            text,
            b"'",
        )),
        9 => Some(bare(b"Tag Set Malformed")),
        10 => Some(bare(b"A generic parsing error occurred: TakeWhile1")),
        _ => None,
    }
}

// Puts a message at the start of a buffer that has room for it.
fn put_message(message: Message<'_>, out: &mut [u8])
    requires { length (message_bytes message) ≤ length out.old }
    ensures { out.new ≡ message_bytes message.entry ++ drop (length (message_bytes message.entry)) out.old }
{
    let (front, rest) = out.split_at_mut(message.front.len());
    front.copy_from_slice(message.front);
    let (text, rest) = rest.split_at_mut(message.text.len());
    text.copy_from_slice(message.text);
    put_front(message.back, rest);
}

/// The message of the fault that a line shows, which is what `{}` writes of the library's `Error`. It asks for no memory.
///
/// Answers as [`lp_line_show`](crate::writing) does: `NotALine`, if the kind of the fault is none, or its text is no UTF-8. The
/// kind and the text alone are looked at, and a fault with the number of `DuplicateTag` has its key as its text.
#[unsafe(no_mangle)]
pub extern "C" fn lp_fault_message(line: &Line<'_>, out: &mut [u8], len: &mut usize) -> u32
    ensures puts { Writes (IsFaultIn line.now) Written (message_in line.now) out.old out.new len.old len.new result }
    ensures displays { (e : Error) → ShowsError line.now e → message_in line.now ≡ error_text e }
    ensures memory { result ≢ answer_number OutOfMemory }
{
    if str::from_utf8(line.fault_text).is_err() {
        return Answer::NotALine.number();
    }
    let Some(message) = message_by(line.fault, line.fault_text) else {
        return Answer::NotALine.number();
    };
    *len = message.front.len() + message.text.len() + message.back.len();
    if out.len() < *len {
        return Answer::MoreRoom.number();
    }
    put_message(message, out);
    Answer::Written.number()
}
