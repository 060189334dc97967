//! The faults of lines, and the errors that the library returns.

ghost use Rattle.std.specs.Prelude.{◌≡◌};
ghost use Rattle.lp_values.specs.declared.error.Error.TheVariants.{OutOfMemory};

use std::alloc::{AllocError, AllocFailed};

/// A result whose error is an [`Error`].
pub type Result<T> = std::result::Result<T, Error>;

/// The side on which a number is out of the range of its type.
#[derive(Clone, Copy, Debug, PartialEq, Eq)]
pub enum OutOfRange {
    /// The number is greater than the type's greatest value.
    Above,
    /// The number is less than the type's least value.
    Below,
}

/// The kind of text that is missing in a line that could not be read at all.
#[derive(Clone, Copy, Debug, PartialEq, Eq)]
pub enum ErrorKind {
    /// At least one space.
    TakeWhile1,
}

/// The fault of a line or of a series, or `OutOfMemory`. `{}` writes its message.
///
/// ```text
/// m a=9223372036854775808i  has the fault  IntegerValueInvalid, whose message is
/// Unable to parse integer value '9223372036854775808'
/// ```
#[derive(Debug, Drop)]
pub enum Error {
    /// A series has no base, because a tag key is repeated. `tag_key` is the first key, in the order of the line, that is also at
    /// an earlier place.
    DuplicateTag { tag_key: String },
    /// The line does not begin with a measurement.
    MeasurementValueInvalid,
    /// The line has no field.
    FieldSetMissing,
    /// An integer is out of the range of `i64`; `value` are its digits as they were spelled.
    IntegerValueInvalid { source: OutOfRange, value: String },
    /// An unsigned integer is out of the range of `u64`; `value` are its digits as they were spelled.
    UIntegerValueInvalid { source: OutOfRange, value: String },
    /// A timestamp is out of the range of `i64`; `value` is the number as it was spelled.
    TimestampValueInvalid { source: OutOfRange, value: String },
    /// A name ends in a backslash.
    EndsWithBackslash,
    /// Something is left after the last part that could be read.
    CannotParseEntireLine { trailing_content: String },
    /// A comma comes after the measurement, and no tag after it.
    TagSetMalformed,
    /// No space comes after the measurement.
    GenericParsingError { kind: ErrorKind },
    /// A request for memory was refused.
    OutOfMemory,
}

impl std::error::Error for Error {}

impl From<AllocError> for Error {
    ghost from_gives = { λ _ e. e ≡ OutOfMemory };

    fn from(_error: AllocError) -> Error {
        Error::OutOfMemory
    }
}

impl<T: Drop> From<AllocFailed<T>> for Error {
    ghost from_gives = { λ _ e. e ≡ OutOfMemory };

    fn from(_error: AllocFailed<T>) -> Error {
        Error::OutOfMemory
    }
}
