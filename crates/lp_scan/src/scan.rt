//! Masks of 64 bytes of a text: their places with a given byte, their escaped bytes, and their bare marks.
ghost use Rattle.std.specs.Prelude.{◌≡◌, ◌+◌, ◌%◌, ◌^◌, ◌≤◌, ◌==◌, count_ones, length};
ghost use Rattle.lp_scan.specs.code.{mask_of, TellsBare, TellsEscaped, TellsEscapesNext};

use std::simd::prelude::*;

/// The number of bytes that one wide load looks at.
pub const WIDE: usize = 64;

// The odd places of 64.
const ODD: u64 = 0xAAAA_AAAA_AAAA_AAAA;

/// Returns the mask of the places of `byte` among the 64 bytes from `at` on.
#[inline(always)]
pub fn places_of(byte: u8, text: &[u8], at: usize) -> u64
    requires { at + WIDE ≤ length text.now }
    ensures { result ≡ mask_of (λ b. b == byte) text.now at WIDE }
{
    let v = u8x64::from_slice(&text[at..]);
    v.simd_eq(u8x64::splat(byte)).to_bitmask()
}

/// Returns the mask of the escaped bytes among 64 bytes, by the mask of their backslashes. The first of the 64 bytes must not be
/// escaped.
///
/// The backslashes are subtracted, as one number, from the mask of the places that are odd or come after a backslash. A borrow
/// goes along each run of backslashes, so that one subtraction tells whether the run began at an odd or an even place.
#[inline(always)]
pub fn escaped(backslashes: u64) -> u64
    ensures { TellsEscaped backslashes result }
{
    if backslashes == 0 {
        return 0;
    }
    let left = ((backslashes << 1) | ODD).wrapping_sub(backslashes);
    left ^ ODD ^ backslashes
}

/// Returns the mask of the bare marks among 64 bytes, by the masks of their marks and of their backslashes. The first of the 64
/// bytes must not be escaped.
#[inline(always)]
pub fn bare(marks: u64, backslashes: u64) -> u64
    ensures { TellsBare marks backslashes result }
{
    marks & !escaped(backslashes)
}

/// Returns 1 if the last of 64 bytes escapes the byte after it, and else 0, by the mask of the backslashes. The first of the 64
/// bytes must not be escaped.
#[inline(always)]
pub fn escapes_next(backslashes: u64) -> usize
    ensures { TellsEscapesNext backslashes result }
{
    (bare(backslashes, backslashes) >> (WIDE - 1)) as usize
}

/// Returns how many of the lowest `n` bits of `mask` are set.
#[inline(always)]
#[tactic(auto, using(crate::proofs::lemmas::scan::MaskLemmas::below_is))]
pub fn ones_below(mask: u64, n: usize) -> usize
    requires { n ≤ WIDE }
    ensures { result ≡ count_ones (mask % 2 ^ n) }
{
    let below = if n < WIDE {
        mask & ((1 << n) - 1)
    } else {
        mask
    };
    below.count_ones() as usize
}
