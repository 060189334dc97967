//! A tag that is left out if there is no room for it.

// [refusals]
ghost use Rattle.std.specs.Prelude.{◌≡◌, ◌++◌, ◌⊎◌};
ghost use Rattle.influxdb_line_protocol.specs.code.Built.{buffer_of};
ghost use Rattle.influxdb_line_protocol.specs.format.Points.{built_tag};

use influxdb_line_protocol::LineProtocolBuilder;
use influxdb_line_protocol::builder::{AfterMeasurement, BufMut};

/// Appends a tag if there is room for it. If there is none, returns the line as it was, which can go on without the tag.
pub fn with_tag_if_room<B: BufMut>(
    line: LineProtocolBuilder<B, AfterMeasurement>,
    key: &str,
    value: &str,
) -> LineProtocolBuilder<B, AfterMeasurement>
    ensures { let tag = built_tag (record { key = key.now; value = value.now }) in
        (B.bytes (buffer_of result) ≡ B.bytes (buffer_of line)) ⊎ (B.bytes (buffer_of result) ≡ B.bytes (buffer_of line) ++ tag) }
{
    match line.tag(key, value) {
        Ok(longer) => longer,
        Err(refused) => refused.builder,
    }
}
// [end]
