//! Numbers by their texts.

ghost use Rattle.std.specs.Prelude.{◌≡◌, ◌≤◌, ◌<◌, ◌+◌, ◌==◌, if◌then◌else◌, IsCharBoundary, codes, length, IfSome, MatchOption, Some};
ghost use Rattle.std.specs.Prelude.{nat_eq};
ghost use Rattle.std.specs.Cmp.{on_equiv, on_per, partial_equiv_from_equiv};
ghost use Rattle.std.specs.Cmp.Lexicographic.{nat_list_eq_equiv, pointwise};
ghost use Rattle.lp_format.specs.format.{miss, reads, IsFloat, digits_len, exponent_len, float_len, fraction_len, integer_len, float};
ghost use Rattle.lp_format.specs.format.{float_at, number_len};

use crate::digits::digits_len;
use std::fmt;

/// The text of a float: digits, optionally with `-` before them; then optionally a point and digits; then optionally `e` or `E`
/// and digits, optionally with `+` or `-` before these.
#[derive(Clone, Copy, Debug)]
pub struct FloatText<'a> {
    text: &'a str,
    ghost is_literal: { ∥ IsFloat text.now ∥₁ },
}

// Returns how many bytes `-` and the digits after it have, or 0 if no digit is there. Few numbers have a sign, and a branch takes
// the sign out of the way of the others.
#[inline(never)]
fn negative_len(digits: &[u8]) -> usize
    ensures value { result ≡ if digits_len digits.now == 0 then 0 else 1 + digits_len digits.now }
{
    let len = digits_len(digits);
    if len == 0 { 0 } else { 1 + len }
}

/// Returns how many bytes of `text` the integer at the start has, or 0 if no integer is there.
///
/// ```text
/// integer_len("-5i")  gives  2
/// ```
#[inline(always)]
pub fn integer_len(text: &str) -> usize
    ensures value { result ≡ integer_len text.now }
    ensures boundary { IsCharBoundary text.now result }
{
    match text.as_bytes() {
        [b'-', digits @ ..] => negative_len(digits),
        bytes => digits_len(bytes),
    }
}

// Returns how many bytes a point and digits have at the start of `bytes`, or 0 if they are not there.
#[inline(always)]
fn fraction_len(bytes: &[u8]) -> usize
    ensures value { result ≡ fraction_len bytes.now }
    ensures fits { result ≤ length bytes.now }
{
    let [b'.', after @ ..] = bytes else {
        return 0;
    };
    let digits = digits_len(after);
    if digits == 0 { 0 } else { 1 + digits }
}

// Returns how many bytes digits, optionally with a sign before them, have at the start of `bytes`.
#[cold]
#[inline(never)]
fn power_len(bytes: &[u8]) -> usize
    ensures value { result ≡ number_len (codes "+-") bytes.now }
    ensures fits { result ≤ length bytes.now }
{
    let [b'+' | b'-', after @ ..] = bytes else {
        return digits_len(bytes);
    };
    let digits = digits_len(after);
    if digits == 0 { 0 } else { 1 + digits }
}

// Returns how many bytes the exponent at the start of `bytes` has, or 0 if no exponent is there.
#[inline(always)]
fn exponent_len(bytes: &[u8]) -> usize
    ensures value { result ≡ exponent_len bytes.now }
    ensures fits { result ≤ length bytes.now }
{
    let [b'e' | b'E', after @ ..] = bytes else {
        return 0;
    };
    let power = power_len(after);
    if power == 0 { 0 } else { 1 + power }
}

// Returns how many bytes of `text` the longest float at the start has. The integer at the start has `whole` bytes.
#[tactic(auto, using(crate::proofs::lemmas::fields::ReadingLemmas::float_len_steps))]
#[inline(always)]
fn float_len(text: &str, whole: usize) -> usize
    requires { whole ≡ integer_len text.now }
    ensures value { result ≡ float_len text.now }
    ensures boundary { IsCharBoundary text.now result }
{
    if whole == 0 {
        return 0;
    }
    let after = &text.as_bytes()[whole..];
    let fraction = fraction_len(after);
    whole + fraction + exponent_len(&after[fraction..])
}

impl<'a> FloatText<'a> {
    ghost use Rattle.lp_values.specs.code.Texts.{literal_of};

    /// Makes a float of this text. Returns `Some` exactly if the whole text is a float.
    ///
    /// ```text
    /// "-1.234456E+3"  gives Some,  "1."  and  "+1"  give None
    /// ```
    #[tactic(auto, using(crate::proofs::lemmas::fields::ReadingLemmas::whole_float_steps))]
    pub fn new(text: &'a str) -> Option<Self>
        ensures { MatchOption result (¬ IsFloat text.now) (λ f. IsFloat text.now × (literal_of f ≡ text.now)) }
    {
        let len = float_len(text, integer_len(text));
        if len == 0 || len < text.len() {
            return None;
        }
        Some(FloatText { text })
    }

    /// Returns the text, as it was given.
    pub fn as_str(&self) -> &'a str
        ensures { result.now ≡ literal_of self.now }
    {
        self.text
    }

    /// Returns the longest float at the start of `text`, and the rest, or `None` if no float is there. The integer at the start
    /// has `whole` bytes.
    #[tactic(auto, using(crate::proofs::lemmas::fields::ReadingLemmas::float_steps))]
    #[inline(always)]
    pub fn front(text: &'a str, whole: usize) -> Option<(Self, &'a str)>
        requires { whole ≡ integer_len text.now }
        ensures value { MatchOption result (float_at text.now ≡ miss) (λ p. float_at text.now ≡ reads (float (literal_of p.0)) p.1.now) }
        ensures less { IfSome result (λ p. length p.1.now < length text.now) }
    {
        let (text, rest) = text.split_at(float_len(text, whole));
        if text.is_empty() {
            return None;
        }
        Some((FloatText { text }, rest))
    }
}

impl<'a> PartialEq for FloatText<'a> {
    ghost use Rattle.lp_values.specs.code.Texts.{literal_of};

    ghost eq = { λ x y. pointwise nat_eq (literal_of x) (literal_of y) };

    ghost laws = { on_per literal_of (partial_equiv_from_equiv nat_list_eq_equiv) };

    fn eq(&self, other: &Self) -> bool {
        self.as_str() == other.as_str()
    }
}

impl<'a> Eq for FloatText<'a> {
    ghost use Rattle.lp_values.specs.code.Texts.{literal_of};

    ghost laws = { on_equiv literal_of nat_list_eq_equiv };
}

impl<'a> fmt::Display for FloatText<'a> {
    ghost use Rattle.lp_values.specs.code.Texts.{literal_of};

    ghost output = { λ f. Some (literal_of f) };

    fn fmt<W: fmt::Write>(&self, f: &mut fmt::Formatter<W>) -> fmt::Result {
        let text = self.as_str();
        f.write_str(text)
    }
}
