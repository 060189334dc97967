//! Counts the bytes that numbers take at the start of a text.

ghost use Rattle.std.specs.Prelude.{◌≡◌, ◌≤◌, ◌+◌, ◌==◌, if◌then◌else◌, codes, drop, length, slice_index};
ghost use Rattle.lp_format.specs.format.{digits_len, exponent_len, float_len, fraction_len, integer_len, minus, number_len};
ghost use Rattle.lp_influx.specs.format.InfluxFields.{pointed_len};

use crate::read::strip_byte;

/// Returns the number of digits at the start.
pub(crate) fn digits_len(text: &[u8]) -> usize
    ensures value { result ≡ digits_len text.now }
    ensures fits { result ≤ length text.now }
{
    text.iter().take_while(|byte| byte.is_ascii_digit()).count()
}

// Returns the number of bytes that a sign and the digits after it take, or 0 if there is no digit.
fn signed_len(digits: &[u8]) -> usize
    ensures value { result ≡ if digits_len digits.now == 0 then 0 else 1 + digits_len digits.now }
    ensures fits { result ≤ length digits.now + 1 }
{
    let len = digits_len(digits);
    if len == 0 { 0 } else { 1 + len }
}

/// Returns the number of bytes that an integer takes at the start, or 0 if there is none.
pub(crate) fn integer_len(text: &[u8]) -> usize
    ensures value { result ≡ integer_len text.now }
    ensures fits { result ≤ length text.now }
{
    match text {
        [b'-', digits @ ..] => signed_len(digits),
        digits => digits_len(digits),
    }
}

// Returns the number of bytes that a point and the digits after it take, or 0 if there are none.
fn fraction_len(text: &[u8]) -> usize
    ensures value { result ≡ fraction_len text.now }
    ensures fits { result ≤ length text.now }
{
    match text {
        [b'.', digits @ ..] => signed_len(digits),
        _ => 0,
    }
}

// Returns the number of bytes that digits take, with a sign or without.
fn power_len(text: &[u8]) -> usize
    ensures value { result ≡ number_len (codes "+-") text.now }
    ensures fits { result ≤ length text.now }
{
    match text {
        [b'+' | b'-', digits @ ..] => signed_len(digits),
        digits => digits_len(digits),
    }
}

// Returns the number of bytes that an exponent takes, or 0 if there is none.
fn exponent_len(text: &[u8]) -> usize
    ensures value { result ≡ exponent_len text.now }
    ensures fits { result ≤ length text.now }
{
    let [b'e' | b'E', after @ ..] = text else {
        return 0;
    };
    let power = power_len(after);
    if power == 0 { 0 } else { 1 + power }
}

/// Returns the number of bytes that the longest float takes that has a digit before its point and after it, or 0 if there is
/// none.
#[tactic(auto, using(std::proofs::lemmas::Grind::common_steps, lp_format::proofs::lemmas::literals::FloatLemmas::integer_len_fits))]
pub(crate) fn float_len(text: &[u8]) -> usize
    ensures value { result ≡ float_len text.now }
    ensures fits { result ≤ length text.now }
{
    let whole = integer_len(text);
    if whole == 0 {
        return 0;
    }
    let after = &text[whole..];
    let fraction = fraction_len(after);
    whole + fraction + exponent_len(&after[fraction..])
}

// Returns the number of bytes that `-` takes: 1, or 0 if it is not there.
fn sign_len(text: &[u8]) -> usize
    ensures value { result ≡ if slice_index text.now 0 == minus then 1 else 0 }
    ensures fits { result ≤ length text.now }
{
    match text {
        [b'-', ..] => 1,
        _ => 0,
    }
}

/// Returns the number of bytes that a number takes that has a point and a digit before or after the point, or 0 if there is none.
#[tactic(auto, using(crate::proofs::Literals::pointed_is, crate::proofs::Literals::no_point, crate::proofs::Literals::no_digits))]
pub(crate) fn pointed_len(text: &[u8]) -> usize
    ensures value { result ≡ pointed_len text.now }
    ensures fits { result ≤ length text.now }
{
    let sign = sign_len(text);
    let whole = digits_len(text.split_at(sign).1);
    let point = sign + whole;
    let Some(after) = strip_byte(b'.', text.split_at(point).1) else {
        return 0;
    };
    let fraction = digits_len(after);
    if whole + fraction == 0 {
        return 0;
    }
    let front = point + 1 + fraction;
    front + exponent_len(text.split_at(front).1)
}
