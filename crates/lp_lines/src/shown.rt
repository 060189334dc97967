//! Display of series and lines.

ghost use Rattle.std.specs.Prelude.{◌≡◌, ◌∷◌, [], Some, map, option_map};
ghost use Rattle.std.specs.Fmt.{DisplaysOnOk};
ghost use Rattle.std.specs.List.{join_by};
ghost use Rattle.lp_format.specs.format.{comma};
ghost use Rattle.lp_lines.specs.code.Parsed.{field_of, tag_of, tags_of};
ghost use Rattle.lp_format.specs.code.Shown.{comma_before, shown_field, shown_tag, shown_timestamp};
ghost use Rattle.lp_values.specs.code.Texts.{read_of};

use crate::{ParsedLine, Series};
use lp_scan::sets::TokenKind;
use lp_values::shown::show_escaped;
use lp_values::{EscapedStr, FieldValue};
use std::fmt;

// Writes the comma before the item at this place, except before the first.
fn show_comma<W: fmt::Write>(place: usize, f: &mut fmt::Formatter<W>) -> fmt::Result
    ensures { DisplaysOnOk W.write_str_gives f.old result (Some (comma_before place)) f.new }
{
    f.write_str(if place == 0 { "" } else { "," })
}

// Writes a tag.
fn show_tag<'a, W: fmt::Write>(
    key: &EscapedStr<'a>,
    value: &EscapedStr<'a>,
    f: &mut fmt::Formatter<W>,
) -> fmt::Result
    ensures { DisplaysOnOk W.write_str_gives f.old result (Some (shown_tag (tag_of (key.now, value.now)))) f.new }
{
    show_escaped(TokenKind::TagKey, key.as_str(), f)?;
    f.write_str("=")?;
    show_escaped(TokenKind::TagValue, value.as_str(), f)
}

// Writes a field.
fn show_field<'a, W: fmt::Write>(
    key: &EscapedStr<'a>,
    value: &FieldValue<'a>,
    f: &mut fmt::Formatter<W>,
) -> fmt::Result
    ensures { DisplaysOnOk W.write_str_gives f.old result (Some (shown_field (field_of (key.now, value.now)))) f.new }
{
    show_escaped(TokenKind::FieldKey, key.as_str(), f)?;
    f.write_str("=")?;
    fmt::Display::fmt(value, f)
}

// Writes the tags, with a comma between each two.
fn show_tags<'a, W: fmt::Write>(
    tags: &[(EscapedStr<'a>, EscapedStr<'a>)],
    f: &mut fmt::Formatter<W>,
) -> fmt::Result
    ensures { DisplaysOnOk W.write_str_gives f.old result (Some (join_by shown_tag (comma ∷ []) (map tag_of tags.now))) f.new }
{
    for (place, (key, value)) in tags.iter().enumerate() {
        show_comma(place, f)?;
        show_tag(key, value, f)?;
    }
    Ok(())
}

// Writes the fields, with a comma between each two.
fn show_fields<'a, W: fmt::Write>(
    fields: &[(EscapedStr<'a>, FieldValue<'a>)],
    f: &mut fmt::Formatter<W>,
) -> fmt::Result
    ensures { DisplaysOnOk W.write_str_gives f.old result (Some (join_by shown_field (comma ∷ []) (map field_of fields.now))) f.new }
{
    for (place, (key, value)) in fields.iter().enumerate() {
        show_comma(place, f)?;
        show_field(key, value, f)?;
    }
    Ok(())
}

impl<'a> fmt::Display for Series<'a> {
    ghost use Rattle.std.specs.Prelude.{Some, option_map};
    ghost use Rattle.lp_lines.specs.code.Parsed.{tags_of};
    ghost use Rattle.lp_values.specs.code.Texts.{read_of};
    ghost use Rattle.lp_format.specs.code.Shown.{shown_series};

    ghost output = { λ s. Some (shown_series (read_of s.measurement) (option_map tags_of s.tag_set)) };

    fn fmt<W: fmt::Write>(&self, f: &mut fmt::Formatter<W>) -> fmt::Result {
        show_escaped(TokenKind::Measurement, self.measurement.as_str(), f)?;
        match &self.tag_set {
            None => Ok(()),
            Some(tags) => {
                f.write_str(",")?;
                show_tags(tags.as_slice(), f)
            }
        }
    }
}

// Writes a space and the timestamp, if there is one.
fn show_timestamp<W: fmt::Write>(timestamp: Option<i64>, f: &mut fmt::Formatter<W>) -> fmt::Result
    ensures { DisplaysOnOk W.write_str_gives f.old result (Some (shown_timestamp timestamp)) f.new }
{
    match timestamp {
        None => Ok(()),
        Some(number) => write!(f, " {number}"),
    }
}

impl<'a> fmt::Display for ParsedLine<'a> {
    ghost use Rattle.std.specs.Prelude.{Some};
    ghost use Rattle.lp_lines.specs.code.Parsed.{line_read};
    ghost use Rattle.lp_format.specs.code.Shown.{shown_line};

    ghost output = { λ l. Some (shown_line (line_read l)) };

    fn fmt<W: fmt::Write>(&self, f: &mut fmt::Formatter<W>) -> fmt::Result {
        fmt::Display::fmt(&self.series, f)?;
        let fields = self.field_set.as_slice();
        if !fields.is_empty() {
            f.write_str(" ")?;
            show_fields(fields, f)?;
        }
        show_timestamp(self.timestamp, f)
    }
}
