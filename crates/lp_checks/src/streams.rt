//! Streams of pieces, with a greatest length of a piece or without, whose calls the caller spells as numbers.
//!
//! A number pushes so many bytes of a text, those after the push before. The greatest numbers are the other calls. What a call gives is
//! reported, an entry each: `<PIECE>`, `TooLong NEWLINES LEN <FRONT>`, `NotUtf8`, or `none`. If a push is refused memory, an entry is
//! `out of memory LEFT`, with how many bytes of the text come after those of the push; then all that `next` gives is reported, and the same
//! bytes are pushed again.
//!
//! | number | call |
//! |---|---|
//! | `usize::MAX` | `next` |
//! | 1 less | `finish`, which gives nothing if a piece is before the last one |
//! | 2 less | `next_text` |
//! | 3 less | `finish_text`, as `finish` |
//! | 4 less | `next` as often as it gives something, and an entry for each |

use crate::report::Report;
use influxdb_line_protocol::{BoundedLineStream, LineStream, PieceTooLong};
use std::alloc::AllocError;
use std::fmt::Write;

const NEXT: usize = usize::MAX;

const FINISH: usize = usize::MAX - 1;

const NEXT_TEXT: usize = usize::MAX - 2;

const ALL: usize = usize::MAX - 4;

/// A stream of one of the two kinds.
#[derive(Drop)]
pub enum AnyStream {
    Whole(LineStream),
    Bounded(BoundedLineStream),
}

// What a call gives: a piece, a piece that is too long, or `NotUtf8`.
enum Given<'s> {
    Piece(&'s [u8]),
    TooLong(PieceTooLong<'s>),
    NotUtf8,
}

fn push(stream: &mut AnyStream, part: &[u8]) -> Result<(), AllocError> {
    match stream {
        AnyStream::Whole(stream) => stream.push(part),
        AnyStream::Bounded(stream) => stream.push(part),
    }
}

// Makes the call of this number of a stream without a limit.
fn give_whole(stream: &mut LineStream, step: usize) -> Option<Given<'_>> {
    if step == NEXT {
        return match stream.next() {
            Some(piece) => Some(Given::Piece(piece)),
            None => None,
        };
    }
    if step == NEXT_TEXT {
        return match stream.next_text()? {
            Ok(piece) => Some(Given::Piece(piece.as_bytes())),
            Err(_) => Some(Given::NotUtf8),
        };
    }
    if stream.next().is_some() {
        return None;
    }
    if step == FINISH {
        return Some(Given::Piece(stream.finish()));
    }
    match stream.finish_text() {
        Ok(piece) => Some(Given::Piece(piece.as_bytes())),
        Err(_) => Some(Given::NotUtf8),
    }
}

// Makes the call of this number of a stream with a limit, which has no call for text.
fn give_bounded(stream: &mut BoundedLineStream, step: usize) -> Option<Given<'_>> {
    let given = match step {
        NEXT => stream.next()?,
        FINISH => stream.finish(),
        _ => return None,
    };
    match given {
        Ok(piece) => Some(Given::Piece(piece)),
        Err(fault) => Some(Given::TooLong(fault)),
    }
}

// Makes the call of this number, and reports what it gives. Whether that is something.
fn report_call(report: &mut Report<'_>, stream: &mut AnyStream, step: usize) -> bool {
    let given = match stream {
        AnyStream::Whole(stream) => give_whole(stream, step),
        AnyStream::Bounded(stream) => give_bounded(stream, step),
    };
    let Some(given) = given else {
        return false;
    };
    let piece = match given {
        Given::Piece(piece) => piece,
        Given::TooLong(fault) => {
            let newlines = fault.newlines;
            let len = fault.len;
            let _ = write!(report, "TooLong {newlines} {len} ");
            fault.front
        }
        Given::NotUtf8 => {
            report.push(b"NotUtf8");
            report.end();
            return true;
        }
    };
    report.push(b"<");
    report.push(piece);
    report.push(b">");
    report.end();
    true
}

// Reports each piece that comes before the last one.
fn report_all(report: &mut Report<'_>, stream: &mut AnyStream) {
    for _ in 0..usize::MAX {
        if !report_call(report, stream, NEXT) {
            break;
        }
    }
}

/// Makes the call of this number. What it leaves of the text, or `None` if memory was refused twice, or if the text is shorter than a push.
pub fn make_call<'t>(
    report: &mut Report<'_>,
    stream: &mut AnyStream,
    text: &'t [u8],
    step: usize,
) -> Option<&'t [u8]> {
    if step == ALL {
        report_all(report, stream);
    } else if step > ALL {
        if !report_call(report, stream, step) {
            report.push(b"none");
            report.end();
        }
    } else {
        let (part, rest) = text.split_at_checked(step)?;
        if push(stream, part).is_err() {
            let left = rest.len();
            let _ = write!(report, "out of memory {left}");
            report.end();
            report_all(report, stream);
            push(stream, part).ok()?;
        }
        return Some(rest);
    }
    Some(text)
}
