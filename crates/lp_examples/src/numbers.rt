//! The value of a field.

// [numbers]
ghost use Rattle.std.specs.Prelude.{◌≡◌, ◌<◌, ◌^◌, ℕ, ℤ, Some, pos};
ghost use Rattle.influxdb_line_protocol.specs.code.Lookups.{value_by_key};
ghost use Rattle.influxdb_line_protocol.specs.types.FieldValue.TheVariants.{I64, U64};

use influxdb_line_protocol::{FieldValue, ParsedLine};

/// Returns the whole number of a field, if the field has one that an `i64` can hold.
pub fn whole_number(line: &ParsedLine<'_>, key: &str) -> Option<i64>
    ensures signed { (n : ℤ) → value_by_key key.now line.now.field_set.items ≡ Some (I64 n) → result ≡ Some n }
    ensures unsigned { (n : ℕ) → value_by_key key.now line.now.field_set.items ≡ Some (U64 n) → n < 2 ^ 63
        → result ≡ Some (pos n) }
{
    match line.field_value(key)? {
        FieldValue::I64(number) => Some(*number),
        FieldValue::U64(number) => i64::try_from(*number).ok(),
        FieldValue::F64(_) | FieldValue::String(_) | FieldValue::Boolean(_) => None,
    }
}
// [end]
