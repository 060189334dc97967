//! The place in a line where the parts that were read end.

ghost use Rattle.std.specs.Prelude.{◌≡◌, ◌++◌};
ghost use Rattle.lp_format.specs.format.Lines.{front_before};

/// The place where the measurement of a line ends, or a tag.
#[derive(Clone, Copy)]
pub(crate) struct Names<'a> {
    pub line: &'a str,
    /// The text that is left of the line.
    pub rest: &'a str,
    /// Whether no tag was read.
    pub is_first: bool,
    ghost ends: { front_before line.now rest.now ++ rest.now ≡ line.now },
}

/// The place where a field of a line ends.
#[derive(Clone, Copy)]
pub(crate) struct Fields<'a> {
    /// The front of the line that was read as measurement and tags.
    pub series: &'a str,
    /// The text that is left of the line.
    pub rest: &'a str,
    /// Whether the field is the first of its line.
    pub is_first: bool,
}

/// The place in a text where the parts that were read end.
#[derive(Clone, Copy)]
pub(crate) enum LinePlace<'a> {
    /// Between two lines.
    Between,
    /// In a line, before its fields.
    Names(Names<'a>),
    /// In a line, after a field.
    Fields(Fields<'a>),
}
