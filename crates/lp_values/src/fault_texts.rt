//! The messages of faults, for those that are spelled in the input and for those that have copies.

ghost use Rattle.std.specs.Prelude.{◌≡◌, Some, option_map};
ghost use Rattle.lp_values.specs.code.Faults.{error_text, fault_text};
ghost use Rattle.lp_values.specs.code.Outcomes.{fault_of};
ghost use Rattle.lp_values.specs.code.SpelledParts.{spelled_fault};

use crate::error::{Error, ErrorKind};
use crate::spelled::SpelledFault;
use std::fmt;

/// Writes the message of the fault, which is the message of its [`Error`].
impl<'a> fmt::Display for SpelledFault<'a> {
    ghost output = { λ fault. Some (fault_text (spelled_fault fault)) };

    fn fmt<W: fmt::Write>(&self, f: &mut fmt::Formatter<W>) -> fmt::Result {
        match self {
            SpelledFault::MeasurementValueInvalid => write!(f, "Invalid measurement was provided"),
            SpelledFault::FieldSetMissing => write!(f, "No fields were provided"),
            SpelledFault::IntegerValueInvalid { source: _, value } => {
                write!(f, "Unable to parse integer value '{value}'")
            }
            SpelledFault::UIntegerValueInvalid { source: _, value } => {
                write!(f, "Unable to parse unsigned integer value '{value}'")
            }
            SpelledFault::TimestampValueInvalid { source: _, value } => {
                write!(f, "Unable to parse timestamp value '{value}'")
            }
            SpelledFault::EndsWithBackslash => write!(
                f,
                "Measurements, tag keys and values, and field keys may not end with a backslash"
            ),
            SpelledFault::CannotParseEntireLine { trailing_content } => write!(
                f,
                "Could not parse entire line. Found trailing content: '{trailing_content}'"
            ),
            SpelledFault::TagSetMalformed => write!(f, "Tag Set Malformed"),
            SpelledFault::GenericParsingError {
                kind: ErrorKind::TakeWhile1,
            } => write!(f, "A generic parsing error occurred: TakeWhile1"),
        }
    }
}

// Returns the fault of a line that an error is, or `None` if it is `DuplicateTag` or `OutOfMemory`.
fn fault_of(error: &Error) -> Option<SpelledFault<'_>>
    ensures { option_map spelled_fault result ≡ fault_of error.now }
{
    let fault = match error {
        Error::DuplicateTag { .. } | Error::OutOfMemory => return None,
        Error::MeasurementValueInvalid => SpelledFault::MeasurementValueInvalid,
        Error::FieldSetMissing => SpelledFault::FieldSetMissing,
        Error::IntegerValueInvalid { source, value } => SpelledFault::IntegerValueInvalid {
            source: *source,
            value: value.as_str(),
        },
        Error::UIntegerValueInvalid { source, value } => SpelledFault::UIntegerValueInvalid {
            source: *source,
            value: value.as_str(),
        },
        Error::TimestampValueInvalid { source, value } => SpelledFault::TimestampValueInvalid {
            source: *source,
            value: value.as_str(),
        },
        Error::EndsWithBackslash => SpelledFault::EndsWithBackslash,
        Error::CannotParseEntireLine { trailing_content } => SpelledFault::CannotParseEntireLine {
            trailing_content: trailing_content.as_str(),
        },
        Error::TagSetMalformed => SpelledFault::TagSetMalformed,
        Error::GenericParsingError { kind } => SpelledFault::GenericParsingError { kind: *kind },
    };
    Some(fault)
}

impl fmt::Display for Error {
    ghost output = { λ e. Some (error_text e) };

    fn fmt<W: fmt::Write>(&self, f: &mut fmt::Formatter<W>) -> fmt::Result {
        if let Error::DuplicateTag { tag_key } = self {
            return write!(
                f,
                "Must not contain duplicate tags, but \"{tag_key}\" was repeated"
            );
        }
        match fault_of(self) {
            Some(fault) => write!(f, "{fault}"),
            None => write!(f, "out of memory"),
        }
    }
}
