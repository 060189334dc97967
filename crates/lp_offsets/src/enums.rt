//! The enums that both sides see, each variant with its number.

ghost use Rattle.std.specs.Prelude.{◌≡◌, ◌↔◌, IfSome, None};
ghost use Rattle.influxdb_line_protocol.specs.code.Rules.{rules_of};
ghost use Rattle.lp_offsets.specs.Numbers.{IsNoDialect, answer_number, dialect_number, dialect_of, fault_number, is_more, kind_number, side_number};

/// What a call answers.
#[derive(Clone, Copy, Drop)]
pub enum Answer {
    /// No item is left.
    End = 0,
    /// A line was read.
    Line = 1,
    /// A fault, in the place of the item or of the result.
    Fault = 2,
    /// The line has more tags and fields than parts were lent: nothing was read.
    MoreParts = 3,
    /// The texts take more room than was lent: nothing was read, or nothing was written.
    MoreRoom = 4,
    /// A request for memory was refused.
    OutOfMemory = 5,
    /// What was handed in is no line: a text is no UTF-8, a literal no float, a kind none, or it has no field.
    NotALine = 6,
    /// What was asked for was written.
    Written = 7,
    /// The text is no UTF-8.
    NotUtf8 = 8,
    /// A newline of the text ends the piece.
    Piece = 9,
    /// No newline of the text ends the piece: it goes on in the text that comes.
    MoreText = 10,
    /// The piece has more bytes than it may have, whether a newline of the text ends it or not.
    TooLong = 11,
    /// The line would not read back, since a name of it is not admitted: nothing was written.
    NotAdmitted = 12,
    /// No dialect has the number.
    NotADialect = 13,
}

impl Answer {
    /// The number of an answer.
    #[inline]
    pub fn number(self) -> u32
        ensures { result ≡ answer_number self }
    {
        self as u32
    }

    /// Whether more parts or more room is needed.
    #[inline]
    pub fn is_more(self) -> bool
        ensures { result ≡ is_more self }
    {
        matches!(self, Answer::MoreParts | Answer::MoreRoom)
    }
}

/// By whose rules a text is read, and a line is to read back.
#[derive(Clone, Copy, Drop)]
pub enum Dialect {
    /// Those of the Rust crate.
    Crate = 0,
    /// Those of the strict dialect.
    Strict = 1,
    /// The same, and each newline ends a line, whatever is open.
    NewlineDelimited = 2,
}

impl Dialect {
    /// The number of a dialect.
    #[inline]
    pub fn number(self) -> u32
        ensures { result ≡ dialect_number self }
    {
        self as u32
    }

    /// The dialect of a number, if a dialect has it.
    #[inline]
    pub fn numbered(number: u32) -> Option<Dialect>
        ensures some { IfSome result (λ dialect. number ≡ dialect_number dialect) }
        ensures none { result ≡ None ↔ IsNoDialect number }
    {
        match number {
            0 => Some(Dialect::Crate),
            1 => Some(Dialect::Strict),
            2 => Some(Dialect::NewlineDelimited),
            _ => None,
        }
    }

    /// Its rules.
    #[inline]
    pub fn rules(self) -> influxdb_line_protocol::Dialect
        ensures { rules_of result ≡ dialect_of (dialect_number self) }
    {
        match self {
            Dialect::Crate => influxdb_line_protocol::Dialect::Crate,
            Dialect::Strict => influxdb_line_protocol::Dialect::Strict,
            Dialect::NewlineDelimited => influxdb_line_protocol::Dialect::NewlineDelimited,
        }
    }
}

/// The rules of the dialect that a number names; a number of none names those of the Rust crate.
#[inline]
pub fn dialect_of(number: u32) -> influxdb_line_protocol::Dialect
    ensures { rules_of result ≡ dialect_of number }
{
    match Dialect::numbered(number) {
        Some(dialect) => dialect.rules(),
        None => influxdb_line_protocol::Dialect::Crate,
    }
}

/// What a part is.
#[derive(Clone, Copy, Drop)]
pub enum Kind {
    /// A tag.
    Tag = 0,
    /// A field that is an integer.
    Integer = 1,
    /// A field that is an unsigned integer.
    Unsigned = 2,
    /// A field that is a float.
    Float = 3,
    /// A field that is a string.
    String = 4,
    /// A field that is a Boolean.
    Boolean = 5,
}

impl Kind {
    /// The number of a kind.
    #[inline]
    pub fn number(self) -> u32
        ensures { result ≡ kind_number self }
    {
        self as u32
    }
}

/// What is wrong with a line.
#[derive(Clone, Copy, Drop)]
pub enum FaultKind {
    /// Nothing.
    None = 0,
    /// A key of the tags is repeated.
    DuplicateTag = 1,
    /// The line does not begin with a measurement.
    MeasurementValueInvalid = 2,
    /// The line has no field.
    FieldSetMissing = 3,
    /// An integer is out of its range.
    IntegerValueInvalid = 4,
    /// An unsigned integer is out of its range.
    UIntegerValueInvalid = 5,
    /// A timestamp is out of its range.
    TimestampValueInvalid = 6,
    /// A name ends in a backslash.
    EndsWithBackslash = 7,
    /// Something is left after the last part that could be read.
    CannotParseEntireLine = 8,
    /// A comma comes after the measurement, and no tag after it.
    TagSetMalformed = 9,
    /// No space comes after the measurement.
    GenericParsingError = 10,
}

impl FaultKind {
    /// The number of a kind of fault.
    #[inline]
    pub fn number(self) -> u32
        ensures { result ≡ fault_number self }
    {
        self as u32
    }
}

/// On which side of its range a number lies.
#[derive(Clone, Copy, Drop)]
pub enum Side {
    /// The fault is not that of a number.
    Neither = 0,
    /// The number is greater than the greatest one.
    Above = 1,
    /// The number is less than the least one.
    Below = 2,
}

impl Side {
    /// The number of a side.
    #[inline]
    pub fn number(self) -> u32
        ensures { result ≡ side_number self }
    {
        self as u32
    }
}
