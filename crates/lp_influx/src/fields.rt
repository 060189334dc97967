//! Fields, as InfluxDB 1.x reads them, in two scans. The first scan finds the end of the fields, and checks that each field has a
//! value. The second scan reads the fields.

ghost use Rattle.std.specs.Prelude.{◌≡◌, ◌≤◌, ◌<◌, ◌+◌, ◌∷◌, if◌then◌else◌, [], false, map, length, IfOk, IfSome, MatchOption};
ghost use Rattle.lp_format.specs.format.{after_comma, equals, many, prepend, reads};
ghost use Rattle.lp_influx.specs.format.InfluxFields.{a_byte, a_divider, after_fields, influx_field, influx_fields, whole_fields};
ghost use Rattle.lp_influx.specs.code.Read.{Gives, after_bare, after_comma_of, after_plain, after_sign, counts_in, goes_on, on_from, spelled_field};

use crate::names::until;
use crate::read::{SpelledField, strip_byte};
use crate::values::{has_value, influx_value};
use std::alloc::{AllocError, Global};

/// The thing directly before a byte of the fields.
#[derive(Clone, Copy)]
pub(crate) enum Before {
    /// A backslash that escapes the byte.
    Escape,
    /// A backslash that is escaped itself.
    Backslash,
    /// The comma or the space after which a key begins.
    Divider,
    /// Any other byte.
    Byte,
}

/// The state of the first scan: the numbers of equals signs and commas so far, whether the text is in quotes, and the thing
/// directly before it.
#[derive(Clone, Copy)]
pub(crate) struct Scan {
    pub signs: usize,
    pub commas: usize,
    pub quoted: bool,
    pub before: Before,
}

/// The effect of a byte of the fields.
#[derive(Clone, Copy)]
pub(crate) enum Step {
    /// A field has no key or no value.
    Refused,
    /// The fields end before the byte.
    Ended,
    On(Scan),
}

impl Scan {
    // Returns the effect of an equals sign outside of quotes.
    fn sign(self, rest: &[u8]) -> Step
        requires { self.signs < usize.MAX }
        ensures value { on_from result equals rest.now ≡ after_sign self rest.now }
        ensures counts { counts_in result ≤ self.signs + self.commas + 1 }
    {
        if matches!(self.before, Before::Divider) || !has_value(rest) {
            return Step::Refused;
        }
        let signs = self.signs + 1;
        Step::On(Scan {
            signs,
            before: Before::Byte,
            ..self
        })
    }

    // Returns the effect of a comma outside of quotes.
    fn comma(self) -> Scan
        requires { self.commas < usize.MAX }
        ensures { result ≡ after_comma_of self }
    {
        let commas = self.commas + 1;
        let before = match self.before {
            Before::Backslash => Before::Byte,
            _ => Before::Divider,
        };
        Scan {
            commas,
            before,
            ..self
        }
    }

    // Returns the effect of a byte outside of quotes that is not escaped.
    fn bare(self, byte: u8, rest: &[u8]) -> Step
        requires { self.signs + self.commas + 1 < usize.MAX }
        ensures value { on_from result byte rest.now ≡ after_bare self byte rest.now }
        ensures counts { counts_in result ≤ self.signs + self.commas + 1 }
    {
        match byte {
            b'=' => self.sign(rest),
            b' ' if self.signs == self.commas + 1 => Step::Ended,
            b' ' => Step::Refused,
            b',' => Step::On(self.comma()),
            _ => Step::On(Scan {
                before: Before::Byte,
                ..self
            }),
        }
    }

    // Returns the effect of a byte that is not escaped.
    fn plain(self, byte: u8, rest: &[u8]) -> Step
        requires { self.signs + self.commas + 1 < usize.MAX }
        ensures value { on_from result byte rest.now ≡ after_plain self byte rest.now }
        ensures counts { counts_in result ≤ self.signs + self.commas + 1 }
    {
        if byte == b'\\' {
            Step::On(Scan {
                before: Before::Escape,
                ..self
            })
        } else if byte == b'"' && self.commas < self.signs {
            Step::On(Scan {
                quoted: !self.quoted,
                before: Before::Byte,
                ..self
            })
        } else if self.quoted {
            Step::On(Scan {
                before: Before::Byte,
                ..self
            })
        } else {
            self.bare(byte, rest)
        }
    }

    // Returns the effect of a byte before this rest of the text.
    #[tactic(auto, unfolding(crate::specs::format::InfluxFields::after_fields))]
    fn step(self, byte: u8, rest: &[u8]) -> Step
        requires { self.signs + self.commas + 1 < usize.MAX }
        ensures value { on_from result byte rest.now ≡ goes_on self (byte ∷ rest.now) }
        ensures counts { counts_in result ≤ self.signs + self.commas + 1 }
    {
        match self.before {
            Before::Escape => {
                let before = if byte == b'\\' {
                    Before::Backslash
                } else {
                    Before::Byte
                };
                Step::On(Scan { before, ..self })
            }
            _ => self.plain(byte, rest),
        }
    }
}

// Returns the text after the fields, if each field has a key and a value. The flag says whether a key begins with the text.
#[tactic(auto, unfolding(crate::specs::format::InfluxFields::after_fields))]
fn after_fields<'a>(at_key: bool, text: &'a [u8]) -> Option<&'a [u8]>
    ensures value { MatchOption result (after_fields 0 0 false (if at_key then a_divider else a_byte) text.now ≡ None)
        (λ rest. after_fields 0 0 false (if at_key then a_divider else a_byte) text.now ≡ Some rest.now) }
    ensures less { IfSome result (λ rest. length rest.now ≤ length text.now) }
{
    let before = if at_key {
        Before::Divider
    } else {
        Before::Byte
    };
    let mut scan = Scan {
        signs: 0,
        commas: 0,
        quoted: false,
        before,
    };
    let mut left = text;
    while let [byte, rest @ ..] = left {
        match scan.step(*byte, rest) {
            Step::Refused => return None,
            Step::Ended => return Some(left),
            Step::On(next) => scan = next,
        }
        left = rest;
    }
    if scan.quoted || scan.signs != scan.commas + 1 {
        return None;
    }
    Some(left)
}

// Returns a field, and the text after it.
fn influx_field<'a>(text: &'a [u8]) -> Option<(SpelledField<'a>, &'a [u8])>
    ensures value { Gives spelled_field result (influx_field text.now) }
    ensures less { IfSome result (λ p. length p.1.now ≤ length text.now) }
{
    let (key, rest) = until(b"=", text);
    let rest = strip_byte(b'=', rest)?;
    let (value, rest) = influx_value(rest)?;
    Some(((key, value), rest))
}

// Returns the field after a comma, and the text after it.
fn next_field<'a>(text: &'a [u8]) -> Option<(SpelledField<'a>, &'a [u8])>
    ensures value { Gives spelled_field result (after_comma influx_field text.now) }
    ensures less { IfSome result (λ p. length p.1.now < length text.now) }
{
    influx_field(strip_byte(b',', text)?)
}

// Returns the first field, the fields after it, each after a comma, and the text after them.
fn more_fields<'a>(
    alloc: Global,
    first: SpelledField<'a>,
    text: &'a [u8],
) -> Result<(Vec<SpelledField<'a>>, &'a [u8]), AllocError>
    ensures { IfOk result (λ got. prepend (spelled_field first.entry ∷ []) (many (after_comma influx_field) (length text.now) text.now)
        ≡ reads (map spelled_field got.0.items) got.1.now) }
{
    let mut fields = Vec::new(alloc);
    fields.push(first)?;
    let mut left = text;
    while let Some((field, rest)) = next_field(left) {
        fields.push(field)?;
        left = rest;
    }
    Ok((fields, left))
}

// Returns all fields of a text, after which one comma may be left.
fn whole_fields<'a>(
    alloc: Global,
    text: &'a [u8],
) -> Result<Option<Vec<SpelledField<'a>>>, AllocError>
    ensures { IfOk result (λ got. MatchOption got (whole_fields text.now ≡ None)
        (λ fields. whole_fields text.now ≡ Some (map spelled_field fields.items))) }
{
    let Some((first, rest)) = influx_field(text) else {
        return Ok(None);
    };
    let (fields, rest) = more_fields(alloc, first, rest)?;
    match rest {
        [] | [b','] => Ok(Some(fields)),
        _ => Ok(None),
    }
}

/// Returns the fields at the start of a text, and the text after them. The first argument is the byte before the text.
pub(crate) fn influx_fields<'a>(
    alloc: Global,
    gap: u8,
    text: &'a [u8],
) -> Result<Option<(Vec<SpelledField<'a>>, &'a [u8])>, AllocError>
    ensures { IfOk result (λ got. Gives (λ fields. map spelled_field fields.items) got (influx_fields gap text.now)) }
{
    let Some(rest) = after_fields(gap == b' ', text) else {
        return Ok(None);
    };
    let front = text.split_at(text.len() - rest.len()).0;
    let Some(fields) = whole_fields(alloc, front)? else {
        return Ok(None);
    };
    Ok(Some((fields, rest)))
}
