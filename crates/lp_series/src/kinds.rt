//! The kinds of values that fields have.

ghost use Rattle.std.specs.Prelude.{◌≡◌, ◌++◌, List, OnOk, map};
ghost use Rattle.std.specs.BTreeMap.{get_by_text};
ghost use Rattle.influxdb_line_protocol.specs.code.{Parsed.field_of, ReadValues.value_of};
ghost use Rattle.influxdb_line_protocol.specs.format.{Lines.logical_field, Lines.logical_value, Points.Field};
ghost use Rattle.lp_series.specs.Counting.{HasKinds};
ghost use Rattle.lp_series.specs.CountSteps.{SetsText, kinds_or_none, no_kinds, with_value};

use influxdb_line_protocol::{EscapedStr, FieldValue};
use std::alloc::{AllocError, Global};
use std::collections::BTreeMap;

/// The kinds of values that a field has had.
///
/// Each member says whether some value of it was of that kind, so more than one may be true.
#[derive(Clone, Copy, Debug, PartialEq, Eq)]
pub struct FieldKinds {
    /// A float.
    pub float: bool,
    /// An integer.
    pub integer: bool,
    /// An unsigned integer.
    pub unsigned: bool,
    /// A string.
    pub string: bool,
    /// A Boolean.
    pub boolean: bool,
}

impl FieldKinds {
    // No kinds.
    fn none() -> Self
        ensures { result ≡ no_kinds }
    {
        FieldKinds {
            float: false,
            integer: false,
            unsigned: false,
            string: false,
            boolean: false,
        }
    }

    // These, and the kind of a value.
    fn with(self, value: &FieldValue<'_>) -> Self
        ensures { result ≡ with_value self (logical_value (value_of value.now)) }
    {
        let mut kinds = self;
        match value {
            FieldValue::I64(_) => kinds.integer = true,
            FieldValue::U64(_) => kinds.unsigned = true,
            FieldValue::F64(_) => kinds.float = true,
            FieldValue::String(_) => kinds.string = true,
            FieldValue::Boolean(_) => kinds.boolean = true,
        }
        kinds
    }
}

// Counts the kind of a field's value.
fn count_field(
    alloc: Global,
    kinds: &mut BTreeMap<String, FieldKinds>,
    key: &str,
    value: &FieldValue<'_>,
) -> Result<(), AllocError>
    ensures { OnOk result (SetsText kinds.old kinds.new key.now
        (with_value (kinds_or_none (get_by_text kinds.old key.now)) (logical_value (value_of value.now)))) }
{
    if let Some(known) = kinds.get_mut(key) {
        *known = known.with(value);
        return Ok(());
    }
    let first = FieldKinds::none().with(value);
    kinds.insert(String::from_str(alloc, key)?, first)?;
    Ok(())
}

// Counts the kinds of the values of a line's fields.
pub(crate) fn count_fields(
    alloc: Global,
    kinds: &mut BTreeMap<String, FieldKinds>,
    fields: &[(EscapedStr<'_>, FieldValue<'_>)],
) -> Result<(), AllocError>
    ensures { OnOk result ((before : List Field) → HasKinds kinds.old before
        → HasKinds kinds.new (before ++ map logical_field (map field_of fields.now))) }
{
    for (key, value) in fields {
        count_field(alloc, kinds, key.as_str(), value)?;
    }
    Ok(())
}
