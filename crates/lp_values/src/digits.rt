//! Digits at the start of a text, and the numbers that they write.

ghost use Rattle.std.specs.Prelude.{◌≡◌, ◌≤◌, ◌<◌, ◌^◌, ◌-◌, ◌++◌, if◌then◌else◌, MatchOption, ℕ, codes, false, length, map, neg_ℤ, pos};
ghost use Rattle.std.specs.Prelude.{replicate, take, true};
ghost use Rattle.std.specs.Char.{digit_value};
ghost use Rattle.std.specs.Int.Digits.{AllBelowBase, number_from_digits};
ghost use Rattle.std.specs.Str.Parse.{AllDigits, IsNumeral, digits_value, digits_value_after, signed_digits_value, without_leading_sign};
ghost use Rattle.lp_format.specs.format.Values.{IsSigned, digits_len, fits_i64};

use lp_scan::lanes::{LANES, first_set};
use std::simd::prelude::*;

// A number of this many digits fits a u64.
const MOST_DIGITS: usize = 19;

// The sum of the codes of four zeros, each multiplied by the weight of its place.
const FOUR_ZEROS: u32 = 1111 * 48;

// The weight of a digit that comes before 16 others.
const BEFORE_LANES: u64 = 10_000_000_000_000_000;

// A table of moves. Its 16 entries from place n on move the first n lanes to the end: the entry 255 makes a lane 0, and any other
// entry is the place of the lane that is moved there.
const MOVES: [u8; 32] = [
    255, 255, 255, 255, 255, 255, 255, 255, 255, 255, 255, 255, 255, 255, 255, 255, 0, 1, 2, 3, 4,
    5, 6, 7, 8, 9, 10, 11, 12, 13, 14, 15,
];

// The weight of the first of each four digits, divided by eight, because a weight must be less than 128.
const FIRST_WEIGHTS: [u8; 16] = [125, 0, 0, 0, 125, 0, 0, 0, 125, 0, 0, 0, 125, 0, 0, 0];

// The weights of the other three of each four digits.
const OTHER_WEIGHTS: [u8; 16] = [0, 100, 10, 1, 0, 100, 10, 1, 0, 100, 10, 1, 0, 100, 10, 1];

// Returns how many digits are at the start of `bytes`, by looking at one byte after another.
#[inline(always)]
fn walked_len(bytes: &[u8]) -> usize
    ensures value { result ≡ digits_len bytes.now }
    ensures fits { result ≤ length bytes.now }
{
    bytes
        .iter()
        .take_while(|byte| byte.is_ascii_digit())
        .count()
}

// Returns how many digits are at the start of the first 16 bytes.
#[inline(always)]
fn lanes_len(bytes: &[u8]) -> usize
    requires { LANES ≤ length bytes.now }
    ensures { result ≡ digits_len (take LANES bytes.now) }
{
    let lanes = u8x16::from_slice(bytes);
    let others = (lanes - u8x16::splat(b'0')).simd_ge(u8x16::splat(10));
    first_set(others.to_bitmask(), LANES)
}

/// Returns how many digits are at the start of `bytes`.
#[inline(always)]
pub(crate) fn digits_len(bytes: &[u8]) -> usize
    ensures value { result ≡ digits_len bytes.now }
    ensures fits { result ≤ length bytes.now }
{
    if bytes.len() < LANES {
        return walked_len(bytes);
    }
    let len = lanes_len(bytes);
    if len < LANES {
        len
    } else {
        LANES + walked_len(&bytes[LANES..])
    }
}

// Returns the number `before` with at most three `digits` after its own.
#[tactic(auto, using(crate::proofs::lemmas::digits::DigitLemmas::digits_after))]
#[inline(always)]
fn value_after(before: u64, digits: &[u8]) -> u64
    requires digits { AllDigits 10 digits.now }
    requires few { length digits.now < 4 }
    requires fits { digits_value_after 10 before digits.now < 2 ^ 64 }
    ensures { result ≡ digits_value_after 10 before digits.now }
{
    match digits {
        [a] => before * 10 + u64::from(*a - b'0'),
        [a, b] => before * 100 + u64::from((*a - b'0') * 10 + (*b - b'0')),
        [a, b, c] => {
            let front = u32::from((*a - b'0') * 10 + (*b - b'0'));
            before * 1000 + u64::from(front * 10 + u32::from(*c - b'0'))
        }
        _ => before,
    }
}

// Returns the number of at most 19 digits, four digits at a time.
#[tactic(auto, using(crate::proofs::lemmas::digits::DigitLemmas::four_steps))]
#[inline(never)]
fn value_by_fours(digits: &[u8]) -> u64
    requires digits { AllDigits 10 digits.now }
    requires few { length digits.now ≤ MOST_DIGITS }
    ensures { result ≡ digits_value 10 digits.now }
{
    let mut value = 0;
    let mut left = digits;
    while let [a, b, c, d, rest @ ..] = left {
        let front = u32::from(*a) * 1000 + u32::from(*b) * 100;
        let codes = front + u32::from(*c) * 10 + u32::from(*d);
        value = value * 10_000 + u64::from(codes - FOUR_ZEROS);
        left = rest;
    }
    value_after(value, left)
}

// Returns the first 16 bytes as values of digits, as far as they are digits.
#[tactic(auto, using(crate::proofs::lemmas::digits::DigitLemmas::lanes_are_digits))]
#[inline(always)]
fn digit_lanes(bytes: &[u8]) -> u8x16
    requires { LANES ≤ length bytes.now }
    ensures whole { length result ≡ LANES }
    ensures value { (n : ℕ) → n ≤ LANES → AllDigits 10 (take n bytes.now) → take n result ≡ map digit_value (take n bytes.now) }
{
    u8x16::from_slice(bytes) - u8x16::splat(b'0')
}

// Moves the first `len` lanes to the end, after zeros.
#[tactic(auto, using(crate::proofs::lemmas::digits::DigitLemmas::window_steps))]
#[inline(always)]
fn moved_to_end(lanes: u8x16, len: usize) -> u8x16
    requires whole { length lanes ≡ LANES }
    requires fits { len ≤ LANES }
    ensures { result ≡ replicate (LANES - len) 0 ++ take len lanes }
{
    lanes.swizzle_dyn(u8x16::from_slice(&MOVES[len..]))
}

// Returns the number of 16 digits: two sums of products give the number of each four, and these are joined two by two.
#[tactic(auto, using(crate::proofs::lemmas::digits::DigitLemmas::lanes_steps))]
#[inline(always)]
fn lanes_number(digits: u8x16) -> u64
    requires whole { length digits ≡ LANES }
    requires digits { AllBelowBase 10 digits }
    ensures { result ≡ number_from_digits 10 digits }
{
    let firsts = digits.dot4(u8x16::from_array(FIRST_WEIGHTS));
    let others = digits.dot4(u8x16::from_array(OTHER_WEIGHTS));
    let [a, b, c, d] = ((firsts << 3) + others).to_array();
    let front = u64::from(a) * 10_000 + u64::from(b);
    let back = u64::from(c) * 10_000 + u64::from(d);
    front * 100_000_000 + back
}

// Returns the number of the first `len` bytes, by one load.
#[tactic(auto, using(crate::proofs::lemmas::digits::DigitLemmas::moved_steps))]
#[inline(always)]
fn loaded_value(bytes: &[u8], len: usize) -> u64
    requires room { LANES ≤ length bytes.now }
    requires few { len ≤ LANES }
    requires digits { AllDigits 10 (take len bytes.now) }
    ensures { result ≡ digits_value 10 (take len bytes.now) }
{
    lanes_number(moved_to_end(digit_lanes(bytes), len))
}

// Returns the number of 17 to 19 digits: one load reads the last 16, after the first ones.
#[tactic(auto, using(crate::proofs::lemmas::digits::DigitLemmas::last_steps))]
#[inline(always)]
fn long_value(digits: &[u8]) -> u64
    requires digits { AllDigits 10 digits.now }
    requires least { LANES < length digits.now }
    requires few { length digits.now ≤ MOST_DIGITS }
    ensures { result ≡ digits_value 10 digits.now }
{
    let (first, last) = digits.split_at(digits.len() - LANES);
    value_after(0, first) * BEFORE_LANES + lanes_number(digit_lanes(last))
}

// Returns the number of at most 19 digits at the start of `text`.
#[inline(always)]
fn digits_value(digits: &[u8], text: &[u8]) -> u64
    requires digits { AllDigits 10 digits.now }
    requires few { length digits.now ≤ MOST_DIGITS }
    requires front { digits.now ≡ take (length digits.now) text.now }
    ensures { result ≡ digits_value 10 digits.now }
{
    let len = digits.len();
    if len > LANES {
        return long_value(digits);
    }
    if text.len() < LANES {
        return value_by_fours(digits);
    }
    loaded_value(text, len)
}

// Returns whether `number`, at the start of `text`, begins with `-`, and its digits, and the text from its digits on.
#[inline(always)]
fn sign_and_digits<'a>(number: &'a str, text: &'a str) -> (bool, &'a [u8], &'a [u8])
    requires signed { IsSigned (codes "-") number.now }
    requires front { number.now ≡ take (length number.now) text.now }
    ensures digits { AllDigits 10 result.1.now }
    ensures front { result.1.now ≡ take (length result.1.now) result.2.now }
    ensures value { signed_digits_value 10 number.now ≡ if result.0 then neg_ℤ
        (pos (digits_value 10 result.1.now)) else pos (digits_value 10 result.1.now) }
{
    match number.as_bytes() {
        [b'-', digits @ ..] => (true, digits, &text.as_bytes()[1..]),
        digits => (false, digits, text.as_bytes()),
    }
}

// Returns the integer of a number of any length, or `None` if it does not fit an i64.
#[cold]
#[inline(never)]
fn parsed_integer(number: &str) -> Option<i64>
    requires { IsNumeral 10 (without_leading_sign number.now) }
    ensures { MatchOption result (fits_i64 (signed_digits_value 10 number.now) ≡ false)
        (λ value. (fits_i64 (signed_digits_value 10 number.now) ≡ true) × (value ≡ signed_digits_value 10 number.now)) }
{
    number.parse::<i64>().ok()
}

/// Returns the number of the digits `number`, which are at the start of `text`, or `None` if it does not fit a u64.
#[inline(always)]
pub fn unsigned_value(number: &str, text: &str) -> Option<u64>
    requires numeral { IsNumeral 10 number.now }
    requires front { number.now ≡ take (length number.now) text.now }
    ensures { MatchOption result (2 ^ 64 ≤ digits_value 10 number.now) (λ value. (value < 2 ^ 64) × (value ≡ digits_value 10 number.now)) }
{
    let digits = number.as_bytes();
    if digits.len() <= MOST_DIGITS {
        return Some(digits_value(digits, text.as_bytes()));
    }
    number.parse::<u64>().ok()
}

/// Returns the integer that `number`, at the start of `text`, writes, or `None` if it does not fit an i64. The number can begin
/// with `-`.
#[inline(always)]
pub fn integer_value(number: &str, text: &str) -> Option<i64>
    requires signed { IsSigned (codes "-") number.now }
    requires front { number.now ≡ take (length number.now) text.now }
    ensures { MatchOption result (fits_i64 (signed_digits_value 10 number.now) ≡ false)
        (λ value. (fits_i64 (signed_digits_value 10 number.now) ≡ true) × (value ≡ signed_digits_value 10 number.now)) }
{
    let (is_negative, digits, after) = sign_and_digits(number, text);
    if digits.len() <= MOST_DIGITS {
        if let Ok(value) = i64::try_from(digits_value(digits, after)) {
            return Some(if is_negative { -value } else { value });
        }
    }
    parsed_integer(number)
}
