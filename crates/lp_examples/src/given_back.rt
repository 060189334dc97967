//! Lines that are given back if the next one cannot be begun.

// [given_back]
ghost use Rattle.std.specs.Prelude.{◌≡◌, IfErr};
ghost use Rattle.influxdb_line_protocol.specs.code.Built.{buffer_of};

use influxdb_line_protocol::LineProtocolBuilder;
use influxdb_line_protocol::builder::{AfterMeasurement, BeforeMeasurement, NoRoom};

/// Begins a line. If the call is refused, for lack of memory or for any other cause, returns the closed lines and the cause.
pub fn begun(
    lines: LineProtocolBuilder<Vec<u8>, BeforeMeasurement>,
    name: &str,
) -> Result<LineProtocolBuilder<Vec<u8>, AfterMeasurement>, (Vec<u8>, NoRoom)>
    ensures { IfErr result (λ given_back. given_back.0.items ≡ (buffer_of lines).items) }
{
    match lines.measurement(name) {
        Ok(line) => Ok(line),
        Err(refused) => Err((refused.builder.build(), refused.cause)),
    }
}
// [end]
