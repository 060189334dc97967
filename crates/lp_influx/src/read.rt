//! Types and functions that the readers of parts share.

ghost use Rattle.std.specs.Prelude.{◌≡◌, ◌<◌, IfSome, MatchOption, length};
ghost use Rattle.lp_format.specs.format.{byte, is_one_of, miss, reads};

/// A value of a field as it is spelled.
#[derive(Clone, Copy)]
pub(crate) enum Spelled<'a> {
    Integer(i64),
    Unsigned(u64),
    /// The literal of a float.
    Float(&'a [u8]),
    /// The text between quotes, with its escapes.
    Quoted(&'a [u8]),
    Boolean(bool),
}

/// A tag as it is spelled: its key and its value.
pub(crate) type SpelledTag<'a> = (&'a [u8], &'a [u8]);

/// A field as it is spelled: its key and its value.
pub(crate) type SpelledField<'a> = (&'a [u8], Spelled<'a>);

/// Returns true if a byte is among these bytes.
pub(crate) fn is_one_of(bytes: &[u8], byte: u8) -> bool
    ensures { result ≡ is_one_of bytes.now byte }
{
    bytes.contains(&byte)
}

/// Returns the text after `mark`, if `mark` is at the start of `text`.
pub(crate) fn strip_byte(mark: u8, text: &[u8]) -> Option<&[u8]>
    ensures value { MatchOption result (byte mark text.now ≡ miss) (λ rest. byte mark text.now ≡ reads mark rest.now) }
    ensures less { IfSome result (λ rest. length rest.now < length text.now) }
{
    match text {
        [first, rest @ ..] if *first == mark => Some(rest),
        _ => None,
    }
}
