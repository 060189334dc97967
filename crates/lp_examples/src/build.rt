//! Points that are built.

// [build]
ghost use Rattle.std.specs.Prelude.{◌≡◌, ◌++◌, [], ◌∷◌, Some, IfOk, codes, true};
ghost use Rattle.influxdb_line_protocol.specs.code.Built.{buffer_of};
ghost use Rattle.influxdb_line_protocol.specs.format.Points.{Point, built};
ghost use Rattle.influxdb_line_protocol.specs.format.Values.{integer, boolean};

use influxdb_line_protocol::LineProtocolBuilder;
use influxdb_line_protocol::builder::{BeforeMeasurement, BufMut, NoRoom};

/// Appends one reading of a thermometer to closed lines.
pub fn reading<B: BufMut>(
    lines: LineProtocolBuilder<B, BeforeMeasurement>,
    city: &str,
    degrees: i64,
    at: i64,
) -> Result<LineProtocolBuilder<B, BeforeMeasurement>, NoRoom>
    ensures { let point : Point = record {
      measurement = codes "weather";
      tags = record { key = codes "city"; value = city.now } ∷ [];
      fields = record { key = codes "degrees"; value = integer degrees } ∷ record { key = codes "valid"; value = boolean true } ∷ [];
      timestamp = Some at;
    } in
        IfOk result (λ longer. B.bytes (buffer_of longer) ≡ B.bytes (buffer_of lines) ++ built point) }
{
    let line = lines
        .measurement("weather")
        .map_err(|refused| refused.cause)?;
    let line = line.tag("city", city).map_err(|refused| refused.cause)?;
    let line = line
        .field("degrees", degrees)
        .map_err(|refused| refused.cause)?;
    let line = line.field("valid", true).map_err(|refused| refused.cause)?;
    let line = line.timestamp(at).map_err(|refused| refused.cause)?;
    let lines = line.close_line().map_err(|refused| refused.cause)?;
    Ok(lines)
}
// [end]
