//! A line in an `ArrayVec`.

// [packets]
use crate::build::reading;
use arrayvec::ArrayVec;
use influxdb_line_protocol::LineProtocolBuilder;
use influxdb_line_protocol::builder::NoRoom;

/// Returns a line in an `ArrayVec`, which never asks for memory. Returns `Full` if the line has more than 64 bytes.
pub fn packet(city: &str, degrees: i64, at: i64) -> Result<ArrayVec<u8, 64>, NoRoom> {
    let lines = LineProtocolBuilder::new_with(ArrayVec::new());
    Ok(reading(lines, city, degrees, at)?.build())
}
// [end]
