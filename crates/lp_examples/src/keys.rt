//! The value of a tag.

// [keys]
ghost use Rattle.std.specs.Prelude.{◌≡◌, codes};
ghost use Rattle.std.specs.Option.{option_copied};
ghost use Rattle.influxdb_line_protocol.specs.code.Lookups.{some_items, value_by_key};

use influxdb_line_protocol::{EscapedStr, ParsedLine};

/// Returns the host of a line.
pub fn host<'l, 'a>(line: &'l ParsedLine<'a>) -> Option<&'l EscapedStr<'a>>
    ensures { option_copied result ≡ value_by_key (codes "host") (some_items line.now.series.tag_set) }
{
    line.tag_value("host")
}

/// Returns true if a line has this host.
pub fn is_of_host(line: &ParsedLine<'_>, name: &str) -> bool {
    host(line).is_some_and(|host| host.eq_text(name))
}
// [end]
