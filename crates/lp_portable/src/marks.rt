//! Counts the marks of a text. Marks are bytes that mean something to a reader of lines or to a server.
//!
//! A line needs a comma before each part except the first, and an equals sign in each part. If a text holds exactly as many
//! marks, no name and no value holds a mark. One count, 16 bytes at a time, therefore decides about all names and values.

ghost use Rattle.std.specs.Prelude.{◌≡◌, ◌+◌, ◌-◌, ◌≤◌, bit_and, drop, length, map, slice_index};
ghost use Rattle.lp_scan.specs.code.{mask_of};
ghost use Rattle.lp_portable.specs.code.Marks.{held, is_mark};

use lp_scan::scan::ones_below;
use std::simd::prelude::*;

const LANES: usize = 16;

// The marks except the comma and the equals sign, each at its low half. A place without a mark holds 0, except place 0, which has
// the byte 0.
const SPECIAL: [u8; 16] = *b"\0\0\"#\0\0\0\0\0\0\n\0\\\r\0\0";

// The comma and the equals sign, in the same way. No byte is 1 whose low half is 0.
const JOINTS: [u8; 16] = *b"\x01\0\0\0\0\0\0\0\0\0\0\0,=\0\0";

// Returns the entry of the table for the low half of each byte.
#[inline(always)]
fn by_low_half(table: [u8; 16], v: u8x16) -> u8x16
    requires { length v ≡ LANES }
    ensures { result ≡ map (λ b. slice_index table (bit_and b 15)) v }
{
    u8x16::from_array(table).swizzle_dyn(v & u8x16::splat(15))
}

// Returns the mask of the marks among the 16 bytes from `at` on.
#[inline(always)]
fn mark_mask(bytes: &[u8], at: usize) -> u64
    requires { at + LANES ≤ length bytes.now }
    ensures { result ≡ mask_of is_mark bytes.now at LANES }
{
    let v = u8x16::from_slice(&bytes[at..]);
    let special = by_low_half(SPECIAL, v).simd_eq(v);
    let joints = by_low_half(JOINTS, v).simd_eq(v);
    (special | joints).to_bitmask()
}

// Returns true if a byte is a mark.
fn is_mark(byte: u8) -> bool
    ensures { result ≡ is_mark byte }
{
    matches!(byte, 0 | b'\n' | b'\r' | b'"' | b'#' | b'\\' | b',' | b'=')
}

// Counts the marks, byte by byte.
fn few_marks(bytes: &[u8]) -> usize
    ensures value { result ≡ held is_mark bytes.now }
    ensures few { result ≤ length bytes.now }
{
    let mut count = 0;
    for at in 0..bytes.len() {
        if is_mark(bytes[at]) {
            count += 1;
        }
    }
    count
}

// Counts the marks of the last bytes, of at most 16 bytes, by loading the last 16 bytes.
#[inline(always)]
fn last_marks(bytes: &[u8], left: usize) -> usize
    requires { (left ≤ LANES) × (LANES ≤ length bytes.now) }
    ensures value { result ≡ held is_mark (drop (length bytes.now - left) bytes.now) }
    ensures few { result ≤ left }
{
    let mask = mark_mask(bytes, bytes.len() - LANES);
    mask.count_ones() as usize - ones_below(mask, LANES - left)
}

/// Returns the number of marks that a text holds.
pub(crate) fn marks_in(bytes: &[u8]) -> usize
    ensures value { result ≡ held is_mark bytes.now }
    ensures few { result ≤ length bytes.now }
{
    if bytes.len() < LANES {
        return few_marks(bytes);
    }
    let (mut at, mut count) = (0, 0);
    while bytes.len() - at > LANES {
        count += mark_mask(bytes, at).count_ones() as usize;
        at += LANES;
    }
    count + last_marks(bytes, bytes.len() - at)
}
