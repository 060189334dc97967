//! The numbers of the literals of floats.

ghost use Rattle.std.specs.Prelude.{◌≡◌, ◌↔◌, IsFalse, IsTrue, Some};
ghost use Rattle.std.specs.Float.{binary64};
ghost use Rattle.fast_float.specs.Parse.{parse_float};
ghost use Rattle.influxdb_line_protocol.specs.format.Values.{IsFloat};

use influxdb_line_protocol::FloatText;

/// The number of the literal of a float: the nearest `f64`, and of two that are as near that with an even significand. It is
/// infinite if the literal is too large for a finite one. It asks for no memory.
///
/// Says whether the text is such a literal: else `value` is as it was.
#[unsafe(no_mangle)]
pub extern "C" fn lp_float_value(text: &[u8], value: &mut f64) -> bool
    ensures literal { IsTrue result ↔ IsFloat text.now }
    ensures nearest { IsTrue result → parse_float binary64 text.now ≡ Some value.new }
    ensures refused { IsFalse result → value.new ≡ value.old }
{
    let Ok(spelling) = str::from_utf8(text) else {
        return false;
    };
    if FloatText::new(spelling).is_none() {
        return false;
    }
    let Ok(number) = fast_float::parse::<f64, &[u8]>(text) else {
        return false;
    };
    *value = number;
    true
}
