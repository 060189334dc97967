//! What a caller sees of a fault.

ghost use Rattle.std.specs.Prelude.{◌≡◌};
ghost use Rattle.influxdb_line_protocol.specs.code.Outcomes.{side};
ghost use Rattle.influxdb_line_protocol.specs.code.SpelledParts.{spelled_fault};
ghost use Rattle.lp_offsets.specs.Numbers.{fault_seen, side_of};

use crate::enums::{FaultKind, Side};
use influxdb_line_protocol::{ErrorKind, OutOfRange, SpelledFault};

// The side that a fault names.
fn side_of(source: OutOfRange) -> Side
    ensures { result ≡ side_of (side source) }
{
    match source {
        OutOfRange::Above => Side::Above,
        OutOfRange::Below => Side::Below,
    }
}

/// What a caller sees of a fault: its kind, its side and its text.
pub fn fault_seen<'a>(fault: SpelledFault<'a>) -> (FaultKind, Side, &'a str)
    ensures { fault_seen (spelled_fault fault.entry) ≡ record { kind = result.0; side = result.1; text = result.2.now } }
{
    match fault {
        SpelledFault::MeasurementValueInvalid => (
            FaultKind::MeasurementValueInvalid,
            Side::Neither,
            "",
        ),
        SpelledFault::FieldSetMissing => (FaultKind::FieldSetMissing, Side::Neither, ""),
        SpelledFault::IntegerValueInvalid { source, value } => (
            FaultKind::IntegerValueInvalid,
            side_of(source),
            value,
        ),
        SpelledFault::UIntegerValueInvalid { source, value } => (
            FaultKind::UIntegerValueInvalid,
            side_of(source),
            value,
        ),
        SpelledFault::TimestampValueInvalid { source, value } => (
            FaultKind::TimestampValueInvalid,
            side_of(source),
            value,
        ),
        SpelledFault::EndsWithBackslash => (FaultKind::EndsWithBackslash, Side::Neither, ""),
        SpelledFault::CannotParseEntireLine { trailing_content } => (
            FaultKind::CannotParseEntireLine,
            Side::Neither,
            trailing_content,
        ),
        SpelledFault::TagSetMalformed => (FaultKind::TagSetMalformed, Side::Neither, ""),
        SpelledFault::GenericParsingError {
            kind: ErrorKind::TakeWhile1,
        } => (FaultKind::GenericParsingError, Side::Neither, ""),
    }
}
