//! Prints the results of the callers that build lines.

use crate::bounded::Bounded;
use crate::build::reading;
use crate::floats::float_line;
use crate::given_back::begun;
use crate::packets::packet;
use crate::refusals::with_tag_if_room;
use crate::vectors::two_readings;
use arrayvec::ArrayVec;
use influxdb_line_protocol::LineProtocolBuilder;
use influxdb_line_protocol::builder::NoRoom;
use std::alloc::Global;
use std::io;

// Prints bytes, or the cause why there are none.
fn print_bytes(rt: &impl Print, what: &str, bytes: Result<&[u8], NoRoom>) -> io::Result<()> {
    match bytes {
        Ok(bytes) => println!(rt; "{what}: {}", bytes.escape_ascii()),
        Err(cause) => println!(rt; "{what}: {cause:?}"),
    }
}

// A line in an `ArrayVec`.
fn print_packet(rt: &impl Print, city: &str) -> io::Result<()> {
    match packet(city, 21, 1_000) {
        Ok(packet) => print_bytes(rt, "packet", Ok(packet.as_slice())),
        Err(cause) => print_bytes(rt, "packet", Err(cause)),
    }
}

// Prints a line in a buffer that holds at most `most` bytes.
fn print_bounded(rt: &impl Print, alloc: Global, most: usize) -> io::Result<()> {
    let buffer = Bounded {
        bytes: Vec::new(alloc),
        most,
    };
    match reading(LineProtocolBuilder::new_with(buffer), "Ems", 21, 1_000) {
        Ok(lines) => print_bytes(rt, "bounded", Ok(lines.build().bytes.as_slice())),
        Err(cause) => print_bytes(rt, "bounded", Err(cause)),
    }
}

// Returns a line in a buffer of 12 bytes, which has no room for the second tag of the line.
fn short_line() -> Result<ArrayVec<u8, 12>, NoRoom> {
    let lines = LineProtocolBuilder::new_with(ArrayVec::new());
    let line = lines.measurement("m").map_err(|refused| refused.cause)?;
    let line = with_tag_if_room(line, "a", "1");
    let line = with_tag_if_room(line, "city", "Bad Ems");
    let line = line.field("f", 1i64).map_err(|refused| refused.cause)?;
    let lines = line.close_line().map_err(|refused| refused.cause)?;
    Ok(lines.build())
}

// The line of one float.
fn print_float(rt: &impl Print, alloc: Global, degrees: &str) -> io::Result<()> {
    match float_line(alloc, degrees) {
        Some(line) => print_bytes(rt, degrees, Ok(line.as_slice())),
        None => println!(rt; "{degrees}: no float"),
    }
}

/// Prints the results of the callers that build lines.
pub fn print_built(rt: &impl Print, alloc: Global) -> io::Result<()> {
    println!(rt; "\nbuilt")?;
    if let Ok(lines) = two_readings(alloc, "Bad Ems") {
        print_bytes(rt, "readings", Ok(lines.as_slice()))?;
    }
    print_packet(rt, "Ems")?;
    print_packet(rt, "a city of a name that is far too long")?;
    for most in [45, 44, 0] {
        print_bounded(rt, alloc, most)?;
    }
    if let Ok(line) = short_line() {
        print_bytes(rt, "short", Ok(line.as_slice()))?;
    }
    print_float(rt, alloc, "21.50")?;
    print_float(rt, alloc, "inf")?;
    let is_begun = begun(LineProtocolBuilder::new(alloc), "m").is_ok();
    println!(rt; "begun: {is_begun}")
}
