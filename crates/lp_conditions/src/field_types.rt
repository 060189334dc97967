//! The types of fields, if the first type of each stays.
//!
//! What is known is held by the measurement and the key of a field. A line is looked at first, and what is new of it is held apart, so that a
//! line that is refused leaves what is known.
ghost use Rattle.std.specs.Prelude.{◌≡◌, IfOk, List, OnOk, Some, ℕ};
ghost use Rattle.std.specs.{BTreeMap.get_by_text, Option.option_or};
ghost use Rattle.influxdb_line_protocol.specs.code.{Parsed.parsed_point, ReadValues.value_of};
ghost use Rattle.influxdb_line_protocol.specs.format.Lines.{logical_value};
ghost use Rattle.lp_conditions.specs.FieldTypes.{after_field, after_fields, is_type, no_types, type_fault_text, type_of, type_text, types_of};
ghost use Rattle.lp_conditions.specs.TypeSteps.{Keeps, KeepsIn, fields_of, of_checked, of_table, types_unless, with_fresh};

use influxdb_line_protocol::{EscapedStr, FieldValue, ParsedLine};
use std::alloc::{AllocError, Global};
use std::collections::BTreeMap;
use std::fmt::{self, Display};

/// That the first type of each field stays: a line that gives a field another type is refused.
///
/// A field is known by its measurement and its key, as they are read. Its type is one of those that InfluxDB keeps: float, integer,
/// unsigned integer, string or Boolean. What is known takes memory for each field, so there is a limit.
#[derive(Clone, Copy, Debug, PartialEq, Eq)]
pub struct StrictTypes {
    /// Of how many fields the types are kept at most. A line with a new field beyond these is refused.
    pub max_fields: usize,
}

/// The type of a field.
#[derive(Clone, Copy, Debug, PartialEq, Eq)]
pub enum FieldType {
    Float,
    Integer,
    Unsigned,
    String,
    Boolean,
}

/// Why a line is refused for the type of a field.
#[derive(Clone, Copy, Debug, PartialEq, Eq)]
pub enum TypeFault {
    /// The field of this number has this type, and had that one before.
    Conflict(usize, FieldType, FieldType),
    /// The field of this number is new, and there is no room for its type.
    TooMany(usize),
}

/// The first types of fields.
#[derive(Drop)]
pub struct KnownTypes {
    // By the measurements and the keys of the fields.
    fields: BTreeMap<String, BTreeMap<String, FieldType>>,
    // Of how many fields.
    count: usize,
}

/// What came of the fields of a line.
#[derive(Drop)]
pub enum Checked {
    /// They fit, and these of them are new.
    Fit(BTreeMap<String, FieldType>),
    Fault(TypeFault),
}

// The type of a value.
fn type_of(value: &FieldValue<'_>) -> FieldType
    ensures { result ≡ type_of (logical_value (value_of value.now)) }
{
    match value {
        FieldValue::F64(_) => FieldType::Float,
        FieldValue::I64(_) => FieldType::Integer,
        FieldValue::U64(_) => FieldType::Unsigned,
        FieldValue::String(_) => FieldType::String,
        FieldValue::Boolean(_) => FieldType::Boolean,
    }
}

// Whether two types are the same.
fn is_type(a: FieldType, b: FieldType) -> bool
    ensures { result ≡ is_type a b }
{
    a as usize == b as usize
}

// A type, as faults name it.
fn type_text(of: FieldType) -> &'static str
    ensures { result.now ≡ type_text of }
{
    match of {
        FieldType::Float => "a float",
        FieldType::Integer => "an integer",
        FieldType::Unsigned => "an unsigned integer",
        FieldType::String => "a string",
        FieldType::Boolean => "a Boolean",
    }
}

// What is wrong with the line.
impl fmt::Display for TypeFault {
    ghost output = { λ fault. Some (type_fault_text fault) };

    fn fmt<W: fmt::Write>(&self, f: &mut fmt::Formatter<W>) -> fmt::Result {
        match self {
            TypeFault::Conflict(field, is, was) => write!(
                f,
                "field type conflict: field {field} is {}, and was {} before",
                type_text(*is),
                type_text(*was)
            ),
            TypeFault::TooMany(field) => write!(f, "too many fields: field {field} is new"),
        }
    }
}

// The type that a field has already: that of a field of this key before it in its line, or the one that is known.
fn first_type(
    known: &BTreeMap<String, FieldType>,
    fresh: &BTreeMap<String, FieldType>,
    key: &str,
) -> Option<FieldType>
    ensures { result ≡ option_or (get_by_text fresh.now key.now) (get_by_text known.now key.now) }
{
    match fresh.get(key) {
        Some(of) => Some(*of),
        None => known.get(key).copied(),
    }
}

// Looks at a field of a line, by its number: if it is new, and there is room for it, it is put among the new ones.
fn check_field(
    alloc: Global,
    most: usize,
    known: &BTreeMap<String, FieldType>,
    count: usize,
    fresh: &mut BTreeMap<String, FieldType>,
    number: usize,
    key: &str,
    value: &FieldValue<'_>,
) -> Result<Option<TypeFault>, AllocError>
    ensures { IfOk result (λ fault. after_field most (with_fresh known.now count fresh.old) number
        (record { key = key.now; value = logical_value (value_of value.now) }) ≡ types_unless fault (with_fresh known.now count fresh.new)) }
{
    let is = type_of(value);
    if let Some(was) = first_type(known, fresh, key) {
        if is_type(was, is) {
            return Ok(None);
        }
        return Ok(Some(TypeFault::Conflict(number, is, was)));
    }
    if fresh.len() >= most.saturating_sub(count) {
        return Ok(Some(TypeFault::TooMany(number)));
    }
    fresh.insert(String::from_str(alloc, key)?, is)?;
    Ok(None)
}

// Looks at the fields of a line, one after another.
fn check(
    alloc: Global,
    most: usize,
    known: &BTreeMap<String, FieldType>,
    count: usize,
    fields: &[(EscapedStr<'_>, FieldValue<'_>)],
) -> Result<Checked, AllocError>
    ensures { IfOk result (λ checked. after_fields most (of_table known.now count) 1 (fields_of fields.now) ≡ of_checked known.now count checked) }
{
    let mut fresh = BTreeMap::new(alloc);
    let mut number = 0;
    for (key, value) in fields {
        number += 1;
        let fault = check_field(
            alloc,
            most,
            known,
            count,
            &mut fresh,
            number,
            key.as_str(),
            value,
        )?;
        if let Some(fault) = fault {
            return Ok(Checked::Fault(fault));
        }
    }
    Ok(Checked::Fit(fresh))
}

// Puts the new types of a line into the table of its measurement.
fn put_all(
    known: &mut BTreeMap<String, FieldType>,
    fresh: BTreeMap<String, FieldType>,
) -> Result<(), AllocError>
    ensures { OnOk result ((key : List ℕ) → get_by_text known.new key ≡ option_or (get_by_text fresh key) (get_by_text known.old key)) }
{
    let mut left = fresh;
    while let Some((key, of)) = left.pop_first() {
        known.insert(key, of)?;
    }
    Ok(())
}

// Looks at the fields of a line, and if they fit, puts the new ones into the table of its measurement. Gives of how many fields a type is
// known then.
fn keep_in(
    alloc: Global,
    most: usize,
    known: &mut BTreeMap<String, FieldType>,
    count: usize,
    fields: &[(EscapedStr<'_>, FieldValue<'_>)],
) -> Result<Result<usize, TypeFault>, AllocError>
    ensures { IfOk result (λ kept. KeepsIn most known.old count (fields_of fields.now) kept known.new) }
{
    match check(alloc, most, known, count, fields)? {
        Checked::Fault(fault) => Ok(Err(fault)),
        Checked::Fit(fresh) => {
            let all = count.checked_add(fresh.len()).ok_or(AllocError)?;
            put_all(known, fresh)?;
            Ok(Ok(all))
        }
    }
}

impl KnownTypes {
    /// Before the first line. It takes no memory.
    pub fn none(alloc: Global) -> Self
        ensures { types_of result ≡ no_types }
    {
        KnownTypes {
            fields: BTreeMap::new(alloc),
            count: 0,
        }
    }

    /// Keeps the types of the fields of a line, of at most so many fields in all. Gives the fault of the line, if that has one: then what is
    /// known stays.
    pub fn keep(
        &mut self,
        alloc: Global,
        most: usize,
        line: &ParsedLine<'_>,
    ) -> Result<Option<TypeFault>, AllocError>
        ensures { IfOk result (λ fault. Keeps most (types_of self.old) (parsed_point line.now) fault (types_of self.new)) }
    {
        let name = line.series.measurement.as_str();
        let fields = line.field_set.as_slice();
        if let Some(known) = self.fields.get_mut(name) {
            return match keep_in(alloc, most, known, self.count, fields)? {
                Err(fault) => Ok(Some(fault)),
                Ok(count) => {
                    self.count = count;
                    Ok(None)
                }
            };
        }
        let mut known = BTreeMap::new(alloc);
        match keep_in(alloc, most, &mut known, self.count, fields)? {
            Err(fault) => Ok(Some(fault)),
            Ok(count) => {
                self.fields.insert(String::from_str(alloc, name)?, known)?;
                self.count = count;
                Ok(None)
            }
        }
    }
}
