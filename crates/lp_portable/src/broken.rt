//! The clauses of portability, and the clauses that a line breaks.

ghost use Rattle.std.specs.Prelude.{◌≡◌, ◌≤◌, ◌<◌, ◌^◌};
ghost use Rattle.lp_portable.specs.code.Bits.{bit_of, bits_of, place};
ghost use Rattle.lp_portable.specs.{code.Clauses.clause_of, code.Clauses.first_broken, code.Clauses.first_of, code.Clauses.is_broken};
ghost use Rattle.lp_portable.specs.{code.Clauses.is_broken_for, code.Clauses.servers_of, format.Portable.concerns};

use crate::limits::Servers;

/// A clause of portability, named by what breaks it. The clauses stand in the order in which [`Broken::first`] checks them.
#[derive(Clone, Copy, Debug)]
pub enum Clause {
    /// A space or a tab comes before the line.
    LeadingBlank,
    /// A space ends the line.
    TrailingSpace,
    /// The line holds a newline: in a string, or escaped.
    Newline,
    /// An equals sign is escaped in the measurement.
    MeasurementEquals,
    /// A backslash or a quote is escaped in the measurement.
    MeasurementEscape,
    /// A backslash is escaped in a tag key or a tag value.
    TagEscape,
    /// A comma is bare in a tag key.
    TagKeyComma,
    /// An equals sign is bare in a tag value.
    TagValueEquals,
    /// Two tags have one key.
    RepeatedTag,
    /// A backslash or a quote is escaped in a field key.
    FieldKeyEscape,
    /// A comma is bare in a field key.
    FieldKeyComma,
    /// A field key holds a quote.
    FieldKeyQuote,
    /// The series, four bytes and a field key are longer than 65,535 bytes.
    LongSeries,
    /// A value is an unsigned integer.
    Unsigned,
    /// A float is too large for a finite number.
    InfiniteFloat,
    /// A float has an exponent, or takes over 310 bytes.
    RoundedFloat,
    /// The first field key begins with a byte 0.
    LeadingNul,
    /// The timestamp is the greatest of 64 bits, or one of the two least.
    TimeOutOfRange,
    /// The tags are 100, 200, 400, 800 and so on.
    TagCount,
    /// A tag key or a field key is `time`.
    TimeName,
    /// The measurement or a field key is a name of the server's own.
    SystemName,
    /// Two fields have one key.
    RepeatedField,
    /// The series holds `#!~`.
    KeySeparator,
    /// The measurement or a field key holds a byte 0 or a carriage return.
    ControlByte,
    /// A tag key is `__name__`.
    NameLabel,
    /// A tag key is longer than 256 bytes.
    LongTagKey,
    /// A tag value is longer than 16,384 bytes.
    LongTagValue,
    /// The measurement, a byte and a field key are longer than 16,384 bytes.
    LongMetricName,
    /// The series, a byte and a field key are longer than 32,000 bytes.
    LongLabels,
    /// There are more tags than the limit.
    TooManyTags,
    /// The line is longer than the limit.
    LongLine,
    /// The timestamp is before or after what is kept.
    TimeNotKept,
}

// The clauses, in order.
pub(crate) const CLAUSES: &[Clause] = &[
    Clause::LeadingBlank,
    Clause::TrailingSpace,
    Clause::Newline,
    Clause::MeasurementEquals,
    Clause::MeasurementEscape,
    Clause::TagEscape,
    Clause::TagKeyComma,
    Clause::TagValueEquals,
    Clause::RepeatedTag,
    Clause::FieldKeyEscape,
    Clause::FieldKeyComma,
    Clause::FieldKeyQuote,
    Clause::LongSeries,
    Clause::Unsigned,
    Clause::InfiniteFloat,
    Clause::RoundedFloat,
    Clause::LeadingNul,
    Clause::TimeOutOfRange,
    Clause::TagCount,
    Clause::TimeName,
    Clause::SystemName,
    Clause::RepeatedField,
    Clause::KeySeparator,
    Clause::ControlByte,
    Clause::NameLabel,
    Clause::LongTagKey,
    Clause::LongTagValue,
    Clause::LongMetricName,
    Clause::LongLabels,
    Clause::TooManyTags,
    Clause::LongLine,
    Clause::TimeNotKept,
];

/// The clauses that a line breaks. A member is true if its clause is broken.
#[derive(Clone, Copy, Debug)]
pub struct Broken {
    /// A space or a tab comes before the line. As in ` m f=1`.
    pub leading_blank: bool,
    /// A space ends the line. As in `m f=1 5 `.
    pub trailing_space: bool,
    /// The line holds a newline: in a string, or escaped. As in `m s="a⏎b"`.
    pub newline: bool,
    /// An equals sign is escaped in the measurement. As in `m\=x f=1`.
    pub measurement_equals: bool,
    /// A backslash or a quote is escaped in the measurement. As in `m\\x f=1`.
    pub measurement_escape: bool,
    /// A backslash is escaped in a tag key or a tag value. As in `m,a=x\\y f=1`.
    pub tag_escape: bool,
    /// A comma is bare in a tag key. As in `m,a,b=v f=1`.
    pub tag_key_comma: bool,
    /// An equals sign is bare in a tag value. As in `m,a=b=c f=1`.
    pub tag_value_equals: bool,
    /// Two tags have one key. As in `m,a=1,a=2 f=1`.
    pub repeated_tag: bool,
    /// A backslash or a quote is escaped in a field key. As in `m a\\b=1`.
    pub field_key_escape: bool,
    /// A comma is bare in a field key. As in `m a,b=1`.
    pub field_key_comma: bool,
    /// A field key holds a quote. As in `m a"=1`.
    pub field_key_quote: bool,
    /// The series, four bytes and a field key are longer than 65,535 bytes.
    pub long_series: bool,
    /// A value is an unsigned integer. As in `m f=1u`.
    pub unsigned: bool,
    /// A float is too large for a finite number. As in `m f=1e400`.
    pub infinite_float: bool,
    /// A float has an exponent, or takes over 310 bytes. As in `m f=1e3`.
    pub rounded_float: bool,
    /// The first field key begins with a byte 0.
    pub leading_nul: bool,
    /// The timestamp is the greatest of 64 bits, or one of the two least. As in `m f=1 9223372036854775807`.
    pub time_out_of_range: bool,
    /// The tags are 100, 200, 400, 800 and so on.
    pub tag_count: bool,
    /// A tag key or a field key is `time`. As in `m time=1`.
    pub time_name: bool,
    /// The measurement or a field key is a name of the server's own. As in `_series f=1`.
    pub system_name: bool,
    /// Two fields have one key. As in `m f=1,f=2`.
    pub repeated_field: bool,
    /// The series holds `#!~`. As in `m,t=a#!~#b f=1`.
    pub key_separator: bool,
    /// The measurement or a field key holds a byte 0 or a carriage return.
    pub control_byte: bool,
    /// A tag key is `__name__`. As in `m,__name__=x f=1`.
    pub name_label: bool,
    /// A tag key is longer than 256 bytes.
    pub long_tag_key: bool,
    /// A tag value is longer than 16,384 bytes.
    pub long_tag_value: bool,
    /// The measurement, a byte and a field key are longer than 16,384 bytes.
    pub long_metric_name: bool,
    /// The series, a byte and a field key are longer than 32,000 bytes.
    pub long_labels: bool,
    /// There are more tags than the limit.
    pub too_many_tags: bool,
    /// The line is longer than the limit.
    pub long_line: bool,
    /// The timestamp is before or after what is kept. As in `m f=1 0`.
    pub time_not_kept: bool,
}

// What a line breaks that breaks no clause.
pub(crate) const NOTHING: Broken = Broken {
    leading_blank: false,
    trailing_space: false,
    newline: false,
    measurement_equals: false,
    measurement_escape: false,
    tag_escape: false,
    tag_key_comma: false,
    tag_value_equals: false,
    repeated_tag: false,
    field_key_escape: false,
    field_key_comma: false,
    field_key_quote: false,
    long_series: false,
    unsigned: false,
    infinite_float: false,
    rounded_float: false,
    leading_nul: false,
    time_out_of_range: false,
    tag_count: false,
    time_name: false,
    system_name: false,
    repeated_field: false,
    key_separator: false,
    control_byte: false,
    name_label: false,
    long_tag_key: false,
    long_tag_value: false,
    long_metric_name: false,
    long_labels: false,
    too_many_tags: false,
    long_line: false,
    time_not_kept: false,
};

// Returns true if a clause concerns these servers: if one of them reads a line that breaks the clause in another way.
fn concerns(to: Servers, clause: Clause) -> bool
    ensures { result ≡ concerns (servers_of to) (clause_of clause) }
{
    match clause {
        Clause::MeasurementEscape
        | Clause::TagEscape
        | Clause::TagValueEquals
        | Clause::FieldKeyEscape
        | Clause::LongSeries
        | Clause::Unsigned
        | Clause::InfiniteFloat
        | Clause::LeadingNul
        | Clause::TimeOutOfRange
        | Clause::TagCount
        | Clause::TimeName
        | Clause::SystemName
        | Clause::KeySeparator
        | Clause::ControlByte => !matches!(to, Servers::Victoria),
        Clause::LeadingBlank
        | Clause::TrailingSpace
        | Clause::Newline
        | Clause::FieldKeyQuote
        | Clause::RoundedFloat
        | Clause::NameLabel
        | Clause::LongTagKey
        | Clause::LongTagValue
        | Clause::LongMetricName
        | Clause::LongLabels
        | Clause::TooManyTags
        | Clause::LongLine
        | Clause::TimeNotKept => !matches!(to, Servers::Influx1),
        Clause::MeasurementEquals
        | Clause::TagKeyComma
        | Clause::RepeatedTag
        | Clause::FieldKeyComma
        | Clause::RepeatedField => true,
    }
}

impl Clause {
    // Returns the place of the clause among the clauses. The place of the first clause is 0.
    pub(crate) fn place(self) -> usize
        ensures value { result ≡ place self }
        ensures within { result < 32 }
    {
        self as usize
    }
}

impl Broken {
    /// Returns true if a clause is broken.
    ///
    /// ```text
    /// of  m f=1u  has(Clause::Unsigned)  is true
    /// ```
    pub fn has(&self, clause: Clause) -> bool
        ensures { result ≡ is_broken self.now clause }
    {
        match clause {
            Clause::LeadingBlank => self.leading_blank,
            Clause::TrailingSpace => self.trailing_space,
            Clause::Newline => self.newline,
            Clause::MeasurementEquals => self.measurement_equals,
            Clause::MeasurementEscape => self.measurement_escape,
            Clause::TagEscape => self.tag_escape,
            Clause::TagKeyComma => self.tag_key_comma,
            Clause::TagValueEquals => self.tag_value_equals,
            Clause::RepeatedTag => self.repeated_tag,
            Clause::FieldKeyEscape => self.field_key_escape,
            Clause::FieldKeyComma => self.field_key_comma,
            Clause::FieldKeyQuote => self.field_key_quote,
            Clause::LongSeries => self.long_series,
            Clause::Unsigned => self.unsigned,
            Clause::InfiniteFloat => self.infinite_float,
            Clause::RoundedFloat => self.rounded_float,
            Clause::LeadingNul => self.leading_nul,
            Clause::TimeOutOfRange => self.time_out_of_range,
            Clause::TagCount => self.tag_count,
            Clause::TimeName => self.time_name,
            Clause::SystemName => self.system_name,
            Clause::RepeatedField => self.repeated_field,
            Clause::KeySeparator => self.key_separator,
            Clause::ControlByte => self.control_byte,
            Clause::NameLabel => self.name_label,
            Clause::LongTagKey => self.long_tag_key,
            Clause::LongTagValue => self.long_tag_value,
            Clause::LongMetricName => self.long_metric_name,
            Clause::LongLabels => self.long_labels,
            Clause::TooManyTags => self.too_many_tags,
            Clause::LongLine => self.long_line,
            Clause::TimeNotKept => self.time_not_kept,
        }
    }

    // Returns true if a clause concerns these servers and is broken.
    fn breaks(&self, to: Servers, clause: Clause) -> bool
        ensures { result ≡ is_broken_for to self.now clause }
    {
        concerns(to, clause) && self.has(clause)
    }

    // Returns the first of these clauses that concerns these servers and is broken.
    fn first_of(&self, to: Servers, clauses: &[Clause]) -> Option<Clause>
        ensures { result ≡ first_of (is_broken_for to self.now) clauses.now }
    {
        let mut left = clauses;
        while let Some((clause, others)) = left.split_first() {
            if self.breaks(to, *clause) {
                return Some(*clause);
            }
            left = others;
        }
        None
    }

    /// Returns the first broken clause that concerns these servers. Returns `None` if the line is portable to these servers.
    ///
    /// ```text
    /// of  m f=1u  first(Servers::Influx1)  is Some(Clause::Unsigned),  and  first(Servers::Victoria)  is None
    /// ```
    #[tactic(auto, unfolding(crate::specs::code::Clauses::first_broken))]
    pub fn first(&self, to: Servers) -> Option<Clause>
        ensures { result ≡ first_broken to self.now }
    {
        self.first_of(to, CLAUSES)
    }

    // Returns the bit of a clause that is broken, and 0 for a clause that is not broken.
    fn bit(&self, clause: Clause) -> u64
        ensures value { result ≡ bit_of self.now clause }
        ensures within { result ≤ 2 ^ 32 }
    {
        if self.has(clause) {
            2 << clause.place()
        } else {
            0
        }
    }

    /// Returns the broken clauses as one number, with a bit for each clause: bit 1 for the first clause of [`Clause`], bit 2 for
    /// the second, and so on. Bit 0 is left for a text that is no line. Takes no memory.
    ///
    /// ```text
    /// of ` m f=1u`  bits()  is  2 + 16384: leading_blank and unsigned
    /// ```
    pub fn bits(&self) -> u64
        ensures { result ≡ bits_of self.now }
    {
        let mut bits = 0;
        for at in 0..CLAUSES.len() {
            bits += self.bit(CLAUSES[at]);
        }
        bits
    }
}
