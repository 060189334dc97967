//! Values of fields.

ghost use Rattle.std.specs.Prelude.{◌≡◌, ◌≤◌, ◌<◌, ◌-◌, ◌==◌, ◌||◌, true, length, slice_index, if◌then◌else◌, IfOk, IfSome, IsOk};
ghost use Rattle.std.specs.Prelude.{MatchOption};
ghost use Rattle.std.specs.Char.{is_ascii_digit};
ghost use Rattle.lp_format.specs.format.{minus, word_len, true_words, false_words};
ghost use Rattle.lp_format.specs.code.Light.{is_single_value};
ghost use Rattle.lp_values.specs.code.{ReadValues.is_same_variant, ReadValues.value_of, SpelledParts.spelled_value};

use crate::escaped::EscapedStr;
use crate::literals::FloatText;
use crate::spelled::SpelledValue;
use std::alloc::{AllocError, Global};

/// A value of a field.
///
/// ```text
/// 64i  is  I64(64),  1.5  is  F64 of the text 1.5,  "a\"b"  is  String, with the logical text  a"b
/// ```
#[derive(Debug, Drop, PartialEq)]
pub enum FieldValue<'a> {
    /// An integer: digits and `i`.
    I64(i64),
    /// An unsigned integer: digits and `u`.
    U64(u64),
    /// A float, by its text.
    F64(FloatText<'a>),
    /// A text between quotes.
    String(EscapedStr<'a>),
    /// `true` or `false`, in one of their spellings.
    Boolean(bool),
}

/// The integer 0.
impl<'a> Default for FieldValue<'a> {
    ghost use Rattle.std.specs.Prelude.{◌≡◌, pos};
    ghost use Rattle.lp_values.specs.code.ReadValues.{value_of};
    ghost use Rattle.lp_format.specs.format.{integer};

    ghost is_default = { λ v. value_of v ≡ integer (pos 0) };

    fn default() -> Self {
        FieldValue::I64(0)
    }
}

impl<'a> FieldValue<'a> {
    /// Returns whether both values are integers, both unsigned integers, both floats, both strings, or both Booleans.
    ///
    /// ```text
    /// 64i and 5i  are of one type,  64i and 64u  are not
    /// ```
    pub fn is_same_type(&self, other: &Self) -> bool
        ensures { result ≡ is_same_variant self.now other.now }
    {
        match (self, other) {
            (FieldValue::I64(_), FieldValue::I64(_)) => true,
            (FieldValue::U64(_), FieldValue::U64(_)) => true,
            (FieldValue::F64(_), FieldValue::F64(_)) => true,
            (FieldValue::String(_), FieldValue::String(_)) => true,
            (FieldValue::Boolean(_), FieldValue::Boolean(_)) => true,
            _ => false,
        }
    }

    /// Returns an equal value. Only a string that is a copy takes memory.
    ///
    /// # Errors
    ///
    /// A request for memory was refused.
    pub fn clone(&self, alloc: Global) -> Result<Self, AllocError>
        ensures same { IfOk result (λ copy. value_of copy ≡ value_of self.now) }
        ensures no_memory { is_single_value (value_of self.now) ≡ true → IsOk result }
    {
        Ok(match self {
            FieldValue::I64(value) => FieldValue::I64(*value),
            FieldValue::U64(value) => FieldValue::U64(*value),
            FieldValue::F64(value) => FieldValue::F64(*value),
            FieldValue::String(value) => FieldValue::String(value.clone(alloc)?),
            FieldValue::Boolean(value) => FieldValue::Boolean(*value),
        })
    }

    /// Makes a value from its spelling. Only a string that is a copy takes memory: one request, for exactly its length.
    ///
    /// ```text
    /// 64i  gives  I64(64),  "a\"b"  gives  String, with the copy  a"b
    /// ```
    ///
    /// # Errors
    ///
    /// A request for memory was refused.
    #[inline(always)]
    pub fn from_spelled(alloc: Global, value: SpelledValue<'a>) -> Result<Self, AllocError>
        ensures value { IfOk result (λ read. value_of read ≡ spelled_value value.entry) }
        ensures no_memory { is_single_value (spelled_value value.entry) ≡ true → IsOk result }
    {
        Ok(match value {
            SpelledValue::I64(value) => FieldValue::I64(value),
            SpelledValue::U64(value) => FieldValue::U64(value),
            SpelledValue::F64(value) => FieldValue::F64(value),
            SpelledValue::String(text) => FieldValue::String(text.to_escaped_str(alloc)?),
            SpelledValue::Boolean(value) => FieldValue::Boolean(value),
        })
    }
}

/// Returns whether `byte` is at `place`. Returns `false` if `place` is past the end.
#[inline(always)]
pub fn has_byte_at(bytes: &[u8], place: usize, byte: u8) -> bool
    requires { 0 < byte }
    ensures { result ≡ (slice_index bytes.now place == byte) }
{
    matches!(bytes.get(place), Some(found) if *found == byte)
}

// Returns whether the first of `bytes` can begin a number: it is a digit or `-`.
#[inline(always)]
pub(crate) fn begins_number(bytes: &[u8]) -> bool
    ensures { result ≡ (is_ascii_digit (slice_index bytes.now 0) || slice_index bytes.now 0 == minus) }
{
    matches!(bytes, [b'0'..=b'9' | b'-', ..])
}

// Returns the Boolean of the longest word at the start of `bytes`, and the length of this word, or `None` if no word is there.
#[inline(never)]
pub(crate) fn longest_word(bytes: &[u8]) -> Option<(bool, usize)>
    ensures value { MatchOption result ((word_len true_words bytes.now ≡ 0) × (word_len false_words bytes.now ≡ 0)) (λ word.
        (word_len true_words bytes.now ≡ if word.0 then word.1 else 0) × (word_len false_words bytes.now ≡ if word.0 then 0 else word.1)) }
    ensures last { IfSome result (λ word. (0 < word.1) × (word.1 ≤ length bytes.now) × (slice_index bytes.now (word.1 - 1) < 128)) }
{
    match bytes {
        [b't' | b'T', b'r', b'u', b'e', ..] | [b'T', b'R', b'U', b'E', ..] => Some((true, 4)),
        [b'f' | b'F', b'a', b'l', b's', b'e', ..] | [b'F', b'A', b'L', b'S', b'E', ..] => Some((
            false, 5,
        )),
        [b't' | b'T', ..] => Some((true, 1)),
        [b'f' | b'F', ..] => Some((false, 1)),
        _ => None,
    }
}
