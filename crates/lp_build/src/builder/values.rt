//! Values of fields, as the builder writes them.

ghost use Rattle.std.specs.Prelude.{◌≡◌, ◌+◌, ◌<◌, ◌≤◌, ◌^◌, List, ◌++◌, ℕ, length, SomeIff, decimal};
ghost use Rattle.lp_format.specs.format.{integer, unsigned, string, boolean, built_value};

use super::buffer::BufMut;
use super::texts::{escaped_len, put_escaped};
use lp_scan::sets::TokenKind;

/// A value that the builder can write for a field: `i64`, `u64`, `bool`, `&str`, a `FloatText`, or the value of a parsed field.
///
/// Contracts know `text`, the bytes that a line has for the value.
pub trait FieldValue: Drop {
    ghost text: { Self → List ℕ };

    /// Returns the length of the text, or `None` if no `usize` can hold it.
    ///
    /// ```text
    /// (-7i64).fmt_len() returns Some(3): the text is `-7i`
    /// ```
    fn fmt_len(&self) -> Option<usize>
        ensures { SomeIff result (length (text self.now) < 2 ^ 64) (length (text self.now)) };

    /// Appends the text. The buffer must have room for it, and its room shrinks by at most the length of the text.
    fn fmt<B: BufMut>(&self, buf: &mut B)
        requires { length (text self.now) ≤ B.room buf.old }
        ensures bytes { B.bytes buf.new ≡ B.bytes buf.old ++ text self.now }
        ensures room { B.room buf.old ≤ B.room buf.new + length (text self.now) };
}

// Returns the number of decimal digits of `n`.
#[tactic(auto, using(crate::proofs::lemmas::builder::BuilderLemmas::lengths_of_decimals))]
fn decimal_len(n: u64) -> usize
    ensures value { result ≡ length (decimal n) }
    ensures few { result ≤ 20 }
{
    match n.checked_ilog10() {
        Some(last) => last as usize + 1,
        None => 1,
    }
}

/// An integer is written as its digits and `i`, such as `-7i`.
impl FieldValue for i64 {
    ghost text = { λ z. built_value (integer z) };

    fn fmt_len(&self) -> Option<usize> {
        let sign_len = usize::from(*self < 0);
        Some(sign_len + decimal_len(self.unsigned_abs()) + 1)
    }

    fn fmt<B: BufMut>(&self, buf: &mut B) {
        let mut digits = itoa::Buffer::new();
        buf.put(digits.format(*self).as_bytes());
        buf.put(b"i");
    }
}

/// An unsigned integer is written as its digits and `u`, such as `7u`.
impl FieldValue for u64 {
    ghost text = { λ n. built_value (unsigned n) };

    fn fmt_len(&self) -> Option<usize> {
        Some(decimal_len(*self) + 1)
    }

    fn fmt<B: BufMut>(&self, buf: &mut B) {
        let mut digits = itoa::Buffer::new();
        buf.put(digits.format(*self).as_bytes());
        buf.put(b"u");
    }
}

/// A boolean is written as `true` or `false`.
impl FieldValue for bool {
    ghost text = { λ b. built_value (boolean b) };

    fn fmt_len(&self) -> Option<usize> {
        if *self { Some(4) } else { Some(5) }
    }

    fn fmt<B: BufMut>(&self, buf: &mut B) {
        if *self {
            buf.put(b"true");
        } else {
            buf.put(b"false");
        }
    }
}

/// A string is written between quotes, with a backslash before each `"` and `\`.
impl FieldValue for &str {
    ghost text = { λ s. built_value (string s.now) };

    fn fmt_len(&self) -> Option<usize> {
        escaped_len(TokenKind::String, self.as_bytes()).checked_add(2)
    }

    fn fmt<B: BufMut>(&self, buf: &mut B) {
        buf.put(b"\"");
        put_escaped(buf, TokenKind::String, self.as_bytes());
        buf.put(b"\"");
    }
}
