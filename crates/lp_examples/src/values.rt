//! The number and the text of a value.

// [values]
use influxdb_line_protocol::FieldValue;
use std::num::{nearest_i64_to_f64, nearest_u64_to_f64};

/// Returns the number of a value, if the value is a number. A float is kept as its text, so the function parses it.
pub fn number(value: &FieldValue<'_>) -> Option<f64> {
    match value {
        FieldValue::I64(number) => Some(nearest_i64_to_f64(*number)),
        FieldValue::U64(number) => Some(nearest_u64_to_f64(*number)),
        FieldValue::F64(literal) => literal.as_str().parse::<f64>().ok(),
        FieldValue::String(_) | FieldValue::Boolean(_) => None,
    }
}

/// Returns the text of a value, if the value is a string.
pub fn text<'v>(value: &'v FieldValue<'_>) -> Option<&'v str> {
    match value {
        FieldValue::String(text) => Some(text.as_str()),
        _ => None,
    }
}
// [end]
