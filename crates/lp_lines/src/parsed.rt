//! A line that was read: its series and its fields.

ghost use Rattle.std.specs.Prelude.{◌≡◌, ◌^◌, Some, ◌<◌, None, map, option_map};
ghost use Rattle.lp_lines.specs.code.{Lookups.some_items, Parsed.tag_of, Parsed.tags_of, ReadInto.IsEmptyLine};
ghost use Rattle.lp_format.specs.format.{some_tags};

use lp_values::{EscapedStr, FieldValue, Measurement};
use smallvec::SmallVec;
use std::alloc::Global;

// The number of tags that a set holds without memory.
const INLINE_TAGS: usize = 8;

// The number of fields that a set holds without memory.
const INLINE_FIELDS: usize = 4;

/// The tags of a series, in the order of the line. Repeated keys are kept. Up to 8 tags take no memory.
pub type TagSet<'a> = SmallVec<(EscapedStr<'a>, EscapedStr<'a>), INLINE_TAGS>;

/// A series: the measurement and the tags of a line.
#[derive(Debug, Drop)]
pub struct Series<'a> {
    /// The part of the input that was read as measurement and tags.
    pub raw_input: &'a str,
    /// The measurement.
    pub measurement: Measurement<'a>,
    /// The tags, or `None` if no comma comes after the measurement.
    pub tag_set: Option<TagSet<'a>>,
}

/// Returns the tags of a series, or no tags if it has no tag set.
pub fn tags_in<'l, 'a>(series: &'l Series<'a>) -> &'l [(EscapedStr<'a>, EscapedStr<'a>)]
    ensures items { result.now ≡ some_items series.now.tag_set }
    ensures read { some_tags (option_map tags_of series.now.tag_set) ≡ map tag_of result.now }
{
    match &series.tag_set {
        Some(tags) => tags.as_slice(),
        None => &[],
    }
}

/// The fields of a line, in the order of the line. Repeated keys are kept. Up to 4 fields take no memory.
pub type FieldSet<'a> = SmallVec<(EscapedStr<'a>, FieldValue<'a>), INLINE_FIELDS>;

/// A line that was read.
///
/// ```text
/// m,k=1 a=1i 5  has the measurement m, the tag k=1, the field a=1i and the timestamp 5
/// ```
#[derive(Debug, Drop)]
pub struct ParsedLine<'a> {
    /// The measurement and the tags.
    pub series: Series<'a>,
    /// The fields. A line that `parse_lines` gave has at least one.
    pub field_set: FieldSet<'a>,
    /// The timestamp, if the line has one.
    pub timestamp: Option<i64>,
}

impl<'a> ParsedLine<'a> {
    ghost use Rattle.std.specs.Prelude.{option_copied};
    ghost use Rattle.lp_lines.specs.code.Lookups.{columns, some_items, value_by_key};

    /// Makes an empty line, into which [`ParseLines::next_into`] can read. It takes no memory.
    pub fn new(alloc: Global) -> ParsedLine<'a>
        ensures { IsEmptyLine result }
    {
        ParsedLine {
            series: Series {
                raw_input: "",
                measurement: EscapedStr::SingleSlice(""),
                tag_set: None,
            },
            field_set: SmallVec::new(alloc),
            timestamp: None,
        }
    }

    /// Returns the number of columns of the line: one for the timestamp, one for each field, and one for each tag.
    ///
    /// The caller must show that the number fits a `usize`. It does for each line that `parse_lines` gave. It takes no memory.
    ///
    /// ```text
    /// m,k=1,k=2 a=1i,a=2i  has 5 columns
    /// ```
    pub fn column_count(&self) -> usize
        requires { columns self.now < 2 ^ 64 }
        ensures { result ≡ columns self.now }
    {
        1 + self.field_set.len() + tags_in(&self.series).len()
    }

    /// Returns the value of the first tag whose key has the text `tag_key`, or `None` if no tag has this key. It takes no memory.
    ///
    /// ```text
    /// m,k=1,k=2 a=1i,a=2i  gives  1  for the key k, and None for the key a
    /// ```
    pub fn tag_value(&self, tag_key: &str) -> Option<&EscapedStr<'a>>
        ensures { option_copied result ≡ value_by_key tag_key.now (some_items self.now.series.tag_set) }
    {
        let tags = self.series.tag_set.as_ref()?;
        let tag = tags.iter().find(|tag| tag.0.as_str() == tag_key)?;
        Some(&tag.1)
    }

    /// Returns the value of the first field whose key has the text `field_key`, or `None` if no field has this key. It takes no
    /// memory.
    ///
    /// ```text
    /// m,k=1,k=2 a=1i,a=2i  gives  I64(1)  for the key a, and None for the key k
    /// ```
    pub fn field_value(&self, field_key: &str) -> Option<&FieldValue<'a>>
        ensures { option_copied result ≡ value_by_key field_key.now self.now.field_set.items }
    {
        let field = self
            .field_set
            .iter()
            .find(|field| field.0.as_str() == field_key)?;
        Some(&field.1)
    }
}
