//! Why an item is refused.
ghost use Rattle.std.specs.Prelude.{◌≡◌, Some};
ghost use Rattle.lp_faults.specs.Objects.{fault_kind};
ghost use Rattle.lp_faults.specs.Refusals.{is_fault, refusal_kind, wrong_of};
ghost use Rattle.lp_values.specs.code.SpelledParts.{spelled_fault};

use influxdb_line_protocol::SpelledFault;
use influxdb_line_protocol::portable::{Servers, Verdict};
use lp_conditions::field_types::TypeFault;
use lp_conditions::kinds::Kind;
use lp_conditions::portable::{servers_text, told_text};
use lp_conditions::times::TimeFault;
use lp_rebuild::LineRefusal;
use std::fmt::{self, Display};

/// Why an item is refused. It is made once, where the item is.
#[derive(Drop)]
pub enum Refusal<'a> {
    /// Its line cannot be read, or has a name that is not admitted.
    Line(LineRefusal<'a>),
    /// Its line is not as it would be written: this is what is wrong.
    NotAsWritten(String),
    /// Its line is not portable to these servers, of which this is told.
    NotPortable(Servers, Verdict),
    /// A field of its line is of another type than before, or is one too many.
    NotOfType(TypeFault),
    /// The time of its line does not fit, is out of range, or is not there.
    NotOfTime(TimeFault),
    /// Its piece is not UTF-8.
    NotUtf8,
    /// Its piece is too long, and so many bytes of it are kept, if any are.
    TooLong(Option<usize>),
}

// The kind of the fault of a text.
fn kind_of(fault: SpelledFault<'_>) -> Kind
    ensures { result ≡ fault_kind (spelled_fault fault.entry) }
{
    match fault {
        SpelledFault::MeasurementValueInvalid => Kind::MeasurementValueInvalid,
        SpelledFault::FieldSetMissing => Kind::FieldSetMissing,
        SpelledFault::IntegerValueInvalid { .. } => Kind::IntegerValueInvalid,
        SpelledFault::UIntegerValueInvalid { .. } => Kind::UintegerValueInvalid,
        SpelledFault::TimestampValueInvalid { .. } => Kind::TimestampValueInvalid,
        SpelledFault::EndsWithBackslash => Kind::EndsWithBackslash,
        SpelledFault::CannotParseEntireLine { .. } => Kind::CannotParseEntireLine,
        SpelledFault::TagSetMalformed => Kind::TagSetMalformed,
        SpelledFault::GenericParsingError { .. } => Kind::GenericParsingError,
    }
}

impl<'a> Refusal<'a> {
    /// The kind of its fault.
    pub fn kind(&self) -> Kind
        ensures { result ≡ refusal_kind self.now }
    {
        match self {
            Refusal::Line(LineRefusal::Fault(fault)) => kind_of(*fault),
            Refusal::Line(LineRefusal::NotAdmitted) => Kind::NameNotAdmitted,
            Refusal::NotAsWritten(_) => Kind::NotAsWritten,
            Refusal::NotPortable(..) => Kind::NotPortable,
            Refusal::NotOfType(TypeFault::Conflict(..)) => Kind::FieldTypeConflict,
            Refusal::NotOfType(TypeFault::TooMany(..)) => Kind::TooManyFields,
            Refusal::NotOfTime(TimeFault::Overflow(..)) => Kind::TimeOverflow,
            Refusal::NotOfTime(TimeFault::OutOfRange(_)) => Kind::TimeOutOfRange,
            Refusal::NotOfTime(TimeFault::Missing) => Kind::TimeMissing,
            Refusal::NotUtf8 => Kind::NotUtf8,
            Refusal::TooLong(_) => Kind::TooLong,
        }
    }

    /// Whether it is a fault of the text.
    pub fn is_fault(&self) -> bool
        ensures { result ≡ is_fault self.now }
    {
        matches!(self, Refusal::Line(LineRefusal::Fault(_)))
    }
}

// What is wrong with the item.
impl<'a> fmt::Display for Refusal<'a> {
    ghost output = { λ refusal. Some (wrong_of refusal) };

    fn fmt<W: fmt::Write>(&self, f: &mut fmt::Formatter<W>) -> fmt::Result {
        match self {
            Refusal::Line(refusal) => refusal.fmt(f),
            Refusal::NotAsWritten(wrong) => f.write_str(wrong.as_str()),
            Refusal::NotPortable(to, told) => write!(
                f,
                "not portable to {}: {}",
                servers_text(*to),
                told_text(*told)
            ),
            Refusal::NotOfType(fault) => fault.fmt(f),
            Refusal::NotOfTime(fault) => fault.fmt(f),
            Refusal::NotUtf8 => f.write_str("the line is not UTF-8"),
            Refusal::TooLong(None) => f.write_str("the line is too long"),
            Refusal::TooLong(Some(kept)) => {
                write!(f, "the line is too long: its first {kept} bytes are kept")
            }
        }
    }
}
