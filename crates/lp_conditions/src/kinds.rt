//! The kinds of faults for which items are refused, and how many items are refused for each.
//!
//! A kind is a value, and its name is told in one place. A count is found at the place of its kind, so to count takes one step, and no
//! text is compared. A new kind is a variant with a name, which is listed in [`KINDS`]: a clause of [`relay`](crate::relay) says that
//! the counts of these add up to all items that are refused.
ghost use Rattle.std.specs.Prelude.{◌≡◌, ◌+◌, ◌<◌, length, min, OnOk};
ghost use Rattle.lp_conditions.specs.KindCounts.{counts_of, place, with_fault, kind_name};
ghost use Rattle.lp_conditions.specs.declared.kinds.{Kind.Kind, TheConstants.KINDS};

use std::alloc::AllocError;

/// For what an item is refused: a kind of fault, as objects name it.
#[derive(Clone, Copy, Debug, PartialEq, Eq)]
#[non_exhaustive]
pub enum Kind {
    /// Something is left after the last part that could be read.
    CannotParseEntireLine,
    /// A name ends in a backslash.
    EndsWithBackslash,
    /// The line has no field.
    FieldSetMissing,
    /// A field is of another type than before.
    FieldTypeConflict,
    /// No space comes after the measurement.
    GenericParsingError,
    /// An integer is out of the range of `i64`.
    IntegerValueInvalid,
    /// The line does not begin with a measurement.
    MeasurementValueInvalid,
    /// A name of the line cannot be written again.
    NameNotAdmitted,
    /// The line is not as it would be written.
    NotAsWritten,
    /// The line is not portable to the servers that the settings name.
    NotPortable,
    /// The piece is not UTF-8.
    NotUtf8,
    /// A comma comes after the measurement, and no tag after it.
    TagSetMalformed,
    /// A range of times is asked for, and the line has no time.
    TimeMissing,
    /// The time of the line is not within the range that is asked for.
    TimeOutOfRange,
    /// A timestamp in its unit is more nanoseconds than an `i64` holds.
    TimeOverflow,
    /// A timestamp is out of the range of `i64`.
    TimestampValueInvalid,
    /// The piece has more bytes than the limit.
    TooLong,
    /// A field is new, and the types of as many are kept as the settings allow.
    TooManyFields,
    /// An unsigned integer is out of the range of `u64`.
    UintegerValueInvalid,
}

/// All kinds, in the alphabetical order of their names. There may be more in a later version.
pub const KINDS: &[Kind] = &[
    Kind::CannotParseEntireLine,
    Kind::EndsWithBackslash,
    Kind::FieldSetMissing,
    Kind::FieldTypeConflict,
    Kind::GenericParsingError,
    Kind::IntegerValueInvalid,
    Kind::MeasurementValueInvalid,
    Kind::NameNotAdmitted,
    Kind::NotAsWritten,
    Kind::NotPortable,
    Kind::NotUtf8,
    Kind::TagSetMalformed,
    Kind::TimeMissing,
    Kind::TimeOutOfRange,
    Kind::TimeOverflow,
    Kind::TimestampValueInvalid,
    Kind::TooLong,
    Kind::TooManyFields,
    Kind::UintegerValueInvalid,
];

impl Kind {
    /// The name of this kind, as objects tell it. That of `Kind::NotUtf8` is `not_utf8`.
    pub fn name(self) -> &'static str
        ensures { result.now ≡ kind_name self }
    {
        match self {
            Kind::CannotParseEntireLine => "cannot_parse_entire_line",
            Kind::EndsWithBackslash => "ends_with_backslash",
            Kind::FieldSetMissing => "field_set_missing",
            Kind::FieldTypeConflict => "field_type_conflict",
            Kind::GenericParsingError => "generic_parsing_error",
            Kind::IntegerValueInvalid => "integer_value_invalid",
            Kind::MeasurementValueInvalid => "measurement_value_invalid",
            Kind::NameNotAdmitted => "name_not_admitted",
            Kind::NotAsWritten => "not_as_written",
            Kind::NotPortable => "not_portable",
            Kind::NotUtf8 => "not_utf8",
            Kind::TagSetMalformed => "tag_set_malformed",
            Kind::TimeMissing => "time_missing",
            Kind::TimeOutOfRange => "time_out_of_range",
            Kind::TimeOverflow => "time_overflow",
            Kind::TimestampValueInvalid => "timestamp_value_invalid",
            Kind::TooLong => "too_long",
            Kind::TooManyFields => "too_many_fields",
            Kind::UintegerValueInvalid => "uinteger_value_invalid",
        }
    }

    // Its place among the counts.
    fn place(self) -> usize
        ensures value { result ≡ place self }
        ensures within { result < length KINDS.now }
    {
        self as usize
    }
}

/// How many items were refused for each kind of fault: [`of`](KindCounts::of) tells it of each of [`KINDS`].
#[derive(Clone, Copy, Debug, PartialEq, Eq)]
pub struct KindCounts {
    counts: [usize; KINDS.len()],
}

impl KindCounts {
    /// Before the first fault.
    pub fn none() -> Self
        ensures { (kind : Kind) → counts_of result kind ≡ 0 }
    {
        KindCounts {
            counts: [0; KINDS.len()],
        }
    }

    /// How many items were refused for faults of this kind.
    ///
    /// ```text
    /// for kind in KINDS {
    ///     println!(rt; "{} {}", counts.of(*kind), kind.name())?;
    /// }
    /// ```
    pub fn of(&self, kind: Kind) -> usize
        ensures { result ≡ counts_of self.now kind }
    {
        self.counts[kind.place()]
    }

    /// Adds the counts of more items, as of another input. A sum that no `usize` holds becomes `usize::MAX`.
    pub fn add(&mut self, more: &KindCounts)
        ensures { (kind : Kind) → counts_of self.new kind ≡ min usize.MAX (counts_of self.old kind + counts_of more.now kind) }
    {
        for at in 0..KINDS.len() {
            self.counts[at] = self.counts[at].saturating_add(more.counts[at]);
        }
    }

    /// Counts a fault of this kind. It is refused if its count would not fit.
    pub fn count(&mut self, kind: Kind) -> Result<(), AllocError>
        ensures { OnOk result (counts_of self.new ≡ with_fault kind (counts_of self.old)) }
    {
        let place = kind.place();
        self.counts[place] = self.counts[place].checked_add(1).ok_or(AllocError)?;
        Ok(())
    }
}

/// How many items a relay carried, and how many it refused.
#[derive(Clone, Copy, Debug, PartialEq, Eq)]
pub struct Relayed {
    /// How many items were read and not refused: they went out, but for the lines of other shards.
    pub carried: usize,
    /// How many items were refused: each has a fault line, if it is one of those that are told.
    pub refused: usize,
    /// How many items were refused for each kind of fault, if the settings ask for that.
    pub kinds: Option<KindCounts>,
}
