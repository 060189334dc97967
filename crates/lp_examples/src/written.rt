//! Lines that were read, written again.

// [written]
ghost use Rattle.std.specs.Prelude.{◌≡◌, ◌<◌, ◌++◌, length, IfOk, if◌then◌else◌};
ghost use Rattle.influxdb_line_protocol.specs.code.Built.{buffer_of};
ghost use Rattle.influxdb_line_protocol.specs.code.Parsed.{parsed_point};
ghost use Rattle.influxdb_line_protocol.specs.format.Points.{built, is_admitted_point};

use influxdb_line_protocol::builder::{BeforeMeasurement, NoRoom};
use influxdb_line_protocol::{LineProtocolBuilder, ParsedLine, is_admitted, write_line};

/// Appends a line that was read, unless it would not read back.
pub fn write_again(
    lines: LineProtocolBuilder<Vec<u8>, BeforeMeasurement>,
    line: &ParsedLine<'_>,
) -> Result<LineProtocolBuilder<Vec<u8>, BeforeMeasurement>, NoRoom>
    requires { 0 < length line.now.field_set.items }
    ensures { IfOk result (λ longer. (buffer_of longer).items
        ≡ (if is_admitted_point (parsed_point line.now) then (buffer_of lines).items ++ built (parsed_point line.now)
        else (buffer_of lines).items)) }
{
    if !is_admitted(line) {
        return Ok(lines);
    }
    write_line(lines, line).map_err(|refused| refused.cause)
}
// [end]
