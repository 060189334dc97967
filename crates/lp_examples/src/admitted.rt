//! Lines whose names come from outside.

// [admitted]
ghost use Rattle.std.specs.Prelude.{◌≡◌, ◌⊎◌, [], ◌∷◌, IfOk};
ghost use Rattle.influxdb_line_protocol.specs.code.Built.{buffer_of};
ghost use Rattle.influxdb_line_protocol.specs.code.Parsed.{parsed_point};
ghost use Rattle.influxdb_line_protocol.specs.laws.AdmittedLines.{AddsPoints};

use influxdb_line_protocol::builder::{BeforeMeasurement, NoRoom, Unwritten};
use influxdb_line_protocol::{LineProtocolBuilder, ParsedLine, write_admitted_line};

/// Appends a line whose names can be any text. Leaves out a line that would not read back, and counts it.
pub fn append(
    lines: LineProtocolBuilder<Vec<u8>, BeforeMeasurement>,
    line: &ParsedLine<'_>,
    left_out: &mut u64,
) -> Result<LineProtocolBuilder<Vec<u8>, BeforeMeasurement>, NoRoom>
    ensures { IfOk result (λ longer. ((buffer_of longer).items ≡ (buffer_of lines).items)
        ⊎ AddsPoints (buffer_of lines).items (parsed_point line.now ∷ []) (buffer_of longer).items) }
{
    match write_admitted_line(lines, line) {
        Ok(longer) => Ok(longer),
        Err(Unwritten::NotAdmitted(unchanged)) => {
            *left_out = left_out.saturating_add(1);
            Ok(unchanged)
        }
        Err(Unwritten::Refused(refused)) => Err(refused.cause),
    }
}
// [end]
