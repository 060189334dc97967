//! Floats of the builder, which are texts.

// [floats]
ghost use Rattle.std.specs.Prelude.{◌≡◌, IfSome};
ghost use Rattle.influxdb_line_protocol.specs.format.Values.{IsFloat};

use influxdb_line_protocol::{FloatText, LineProtocolBuilder};
use std::alloc::Global;

/// Returns the line of one float. Returns `None` if `degrees` is not a float, such as `inf`, or if memory was refused.
pub fn float_line(alloc: Global, degrees: &str) -> Option<Vec<u8>>
    ensures { IfSome result (λ _. IsFloat degrees.now) }
{
    let degrees = FloatText::new(degrees)?;
    let line = LineProtocolBuilder::new(alloc).measurement("weather").ok()?;
    let line = line.field("degrees", degrees).ok()?;
    Some(line.close_line().ok()?.build())
}
// [end]
