//! A text that comes in parts.

// [parts]
use crate::print::print_lines;
use influxdb_line_protocol::LineStream;
use std::alloc::{AllocError, Global};
use std::io;

/// Takes a part of a text, and prints the lines that end in it.
pub fn print_part(
    rt: &impl Print,
    alloc: Global,
    stream: &mut LineStream,
    part: &[u8],
) -> Result<io::Result<()>, AllocError> {
    stream.push(part)?;
    while let Some(piece) = stream.next_text() {
        let printed = match piece {
            Ok(lines) => print_lines(rt, alloc, lines),
            Err(_) => println!(rt; "a fault: the line is not UTF-8"),
        };
        if printed.is_err() {
            return Ok(printed);
        }
    }
    Ok(Ok(()))
}
// [end]
