//! The layouts of the types that both sides see. Their numbers are of [`lp_offsets::enums`].

/// A text, and whether it is a copy without its escapes.
#[repr(C)]
#[derive(Clone, Copy)]
pub struct View<'a> {
    /// The bytes of the text: UTF-8.
    pub text: &'a [u8],
    /// Whether the text lies in the caller's room and not in its input.
    pub copied: bool,
}

/// Room that the caller lends for copies. What is put into it is taken off its front.
#[repr(C)]
#[derive(Drop)]
pub struct Room<'a> {
    /// The bytes that are free.
    pub bytes: &'a mut [u8],
}

/// A tag or a field. Which of the values counts is told by `kind`; if a part was read, the others are empty, zero and false.
#[repr(C)]
#[derive(Clone, Copy)]
pub struct Part<'a> {
    /// The key.
    pub key: View<'a>,
    /// The value of a tag or of a string, or the literal of a float as it was spelled.
    pub text: View<'a>,
    /// The value of an integer.
    pub integer: i64,
    /// The value of an unsigned integer.
    pub unsigned: u64,
    /// The number of a [`Kind`].
    pub kind: u32,
    /// The value of a Boolean.
    pub boolean: bool,
}

/// A line without its tags and fields, which are parts; or the fault of a line, which has no tags, no fields and no timestamp.
#[repr(C)]
#[derive(Clone, Copy)]
pub struct Line<'a> {
    /// The part of the input that holds the measurement and the tags.
    pub series: &'a [u8],
    /// The measurement.
    pub measurement: View<'a>,
    /// What the fault names: a number, or the rest of the line; in the caller's room.
    pub fault_text: &'a [u8],
    /// How many of the parts are tags: the first ones.
    pub tags: usize,
    /// How many parts come after the tags: the fields.
    pub fields: usize,
    /// How many bytes of room the copies of the line, or the fault's text, take.
    pub copied_len: usize,
    /// The timestamp, if the line has one, or else 0.
    pub timestamp: i64,
    /// The number of a [`FaultKind`].
    pub fault: u32,
    /// The number of a [`Side`], if the fault is that of a number.
    pub side: u32,
    /// Whether the line has a tag set.
    pub has_tag_set: bool,
    /// Whether the line has a timestamp.
    pub has_timestamp: bool,
    /// Whether `series` is the base of the series as it stands.
    pub series_is_base: bool,
}

/// What is left of a text that is read.
#[repr(C)]
#[derive(Clone, Copy)]
pub struct Lines<'a> {
    /// The text that is left.
    pub rest: &'a [u8],
    /// The number of the [`Dialect`] by whose rules it is read; a number of none is taken for that of the Rust crate.
    pub dialect: u32,
    /// Whether no piece of the text is left.
    pub ended: bool,
}
