//! Whether a text is as the builder writes it: a line, or the key of a series.

ghost use Rattle.std.specs.Prelude.{◌↔◌, IsTrue, IsUtf8};
ghost use Rattle.lp_format.specs.format.Points.{IsAsWritten};

use influxdb_line_protocol::is_as_written;

/// Whether a text is what the builder writes, before a newline, for a point whose names are all admitted. It asks for no memory.
///
/// ```text
/// m,t=x a=1i 7  ->  true
/// m,t=x a=01i   ->  false: the builder writes no leading zero
/// ```
#[unsafe(no_mangle)]
pub extern "C" fn lp_is_as_written(text: &[u8]) -> bool
    ensures { IsTrue result ↔ IsUtf8 text.now × IsAsWritten text.now }
{
    let Ok(line) = str::from_utf8(text) else {
        return false;
    };
    is_as_written(line)
}
