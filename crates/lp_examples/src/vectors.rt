//! Lines in a `Vec`.

// [vectors]
use crate::build::reading;
use influxdb_line_protocol::LineProtocolBuilder;
use influxdb_line_protocol::builder::NoRoom;
use std::alloc::Global;

/// Returns two lines in a `Vec`. The `Vec` grows, so a call is refused only if memory is refused or a text is too long.
pub fn two_readings(alloc: Global, city: &str) -> Result<Vec<u8>, NoRoom> {
    let lines = LineProtocolBuilder::new(alloc);
    let lines = reading(lines, city, 21, 1_000)?;
    let lines = reading(lines, city, 22, 2_000)?;
    Ok(lines.build())
}
// [end]
