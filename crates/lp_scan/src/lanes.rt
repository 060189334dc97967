//! Masks of the bytes of one load that end a token or are backslashes.
ghost use Rattle.std.specs.Prelude.{◌≡◌, ◌+◌, ◌<◌, ◌≤◌, bit_and, false, length, map, not, slice_index};
ghost use Rattle.lp_format.specs.format.{is_one_of};
ghost use Rattle.lp_scan.specs.code.{is_end, is_mark, is_plain, known_of, stops_of, IsRunIn, first_set, mask_of};

use crate::scan::WIDE;
use crate::sets::TokenKind;
use std::simd::prelude::*;

pub const LANES: usize = 16;

/// Returns the place of the lowest bit of `mask` that is set, or `lanes` if no bit is set.
#[inline(always)]
pub fn first_set(mask: u64, lanes: usize) -> usize
    ensures { result ≡ first_set mask lanes }
{
    if mask == 0 {
        lanes
    } else {
        mask.trailing_zeros() as usize
    }
}

// The bytes that end a key, and the backslash, each at its low half. The entry 0 stands for no byte; the low half of the byte 0
// itself has the space.
const KEY_ENDS: [u8; 16] = *b" \0\0\0\0\0\0\0\0\t\n\0\\=\0\0";

// The bytes that end the value of a tag, each at its low half. The backslash is left out, because it has the low half of the
// comma.
const TAG_VALUE_ENDS: [u8; 16] = *b" \0\0\0\0\0\0\0\0\t\n\0,\0\0\0";

// Looks up the entry of the table for the low half of each byte.
#[inline(always)]
fn by_low_half(table: [u8; 16], v: u8x16) -> u8x16
    requires { length v ≡ LANES }
    ensures { result ≡ map (λ b. slice_index table (bit_and b 15)) v }
{
    u8x16::from_array(table).swizzle_dyn(v & u8x16::splat(15))
}

/// Returns the mask of the bytes that end a token of this kind or are backslashes, among the 16 bytes from `at` on.
#[inline(always)]
pub fn end_mask(kind: TokenKind, bytes: &[u8], at: usize) -> u64
    requires { at + LANES ≤ length bytes.now }
    ensures { result ≡ mask_of (is_end (stops_of kind)) bytes.now at LANES }
{
    let v = u8x16::from_slice(&bytes[at..]);
    let backslashes = v.simd_eq(u8x16::splat(b'\\'));
    match kind {
        TokenKind::Measurement => {
            let blanks = v.simd_eq(u8x16::splat(b' ')) | v.simd_eq(u8x16::splat(b'\t'));
            let stops = blanks | v.simd_eq(u8x16::splat(b'\n')) | backslashes;
            let own = v.simd_eq(u8x16::splat(b',')) | v.simd_eq(u8x16::splat(0));
            (stops | own).to_bitmask()
        }
        TokenKind::TagKey | TokenKind::FieldKey => by_low_half(KEY_ENDS, v).simd_eq(v).to_bitmask(),
        TokenKind::TagValue => {
            let stops = by_low_half(TAG_VALUE_ENDS, v).simd_eq(v);
            (stops | backslashes).to_bitmask()
        }
        TokenKind::String => {
            let quotes = v.simd_eq(u8x16::splat(b'"'));
            (backslashes | quotes).to_bitmask()
        }
    }
}

/// Returns the mask of the bytes that end a token of this kind if they are bare, or that a backslash escapes in it, among the 16
/// bytes from `at` on.
#[inline(always)]
pub fn mark_mask(kind: TokenKind, bytes: &[u8], at: usize) -> u64
    requires { at + LANES ≤ length bytes.now }
    ensures { result ≡ mask_of (is_mark kind) bytes.now at LANES }
{
    match kind {
        TokenKind::Measurement | TokenKind::String => end_mask(kind, bytes, at),
        TokenKind::TagKey | TokenKind::TagValue | TokenKind::FieldKey => {
            let v = u8x16::from_slice(&bytes[at..]);
            let ends = by_low_half(KEY_ENDS, v).simd_eq(v);
            (ends | v.simd_eq(u8x16::splat(b','))).to_bitmask()
        }
    }
}

/// Returns how many of the 16 bytes from `at` on come before the first that ends a token of this kind, or that a backslash
/// escapes in it.
#[inline(always)]
pub fn unmarked_run(kind: TokenKind, bytes: &[u8], at: usize) -> usize
    requires { at + LANES ≤ length bytes.now }
    ensures { IsRunIn (λ b. not (is_mark kind b)) bytes.now at LANES result }
{
    first_set(mark_mask(kind, bytes, at), LANES)
}

/// Returns the mask of the bytes that end a token of this kind if they are bare, among the 64 bytes from `at` on.
#[inline(always)]
pub fn stops_in(kind: TokenKind, bytes: &[u8], at: usize) -> u64
    requires { at + WIDE ≤ length bytes.now }
    ensures { result ≡ mask_of (stops_of kind) bytes.now at WIDE }
{
    let v = u8x64::from_slice(&bytes[at..]);
    let [first, b, c, d, e] = kind.stops();
    let second = v.simd_eq(u8x64::splat(b)) | v.simd_eq(u8x64::splat(c));
    let others = second | (v.simd_eq(u8x64::splat(d)) | v.simd_eq(u8x64::splat(e)));
    (v.simd_eq(u8x64::splat(first)) | others).to_bitmask()
}

/// Returns the mask of the bytes that a backslash escapes in a token of this kind, among the 64 bytes from `at` on.
#[inline(always)]
pub fn known_in(kind: TokenKind, bytes: &[u8], at: usize) -> u64
    requires { at + WIDE ≤ length bytes.now }
    ensures { result ≡ mask_of (λ b. is_one_of (known_of kind) b) bytes.now at WIDE }
{
    let v = u8x64::from_slice(&bytes[at..]);
    let [a, b, c, d] = kind.known();
    let first = v.simd_eq(u8x64::splat(a)) | v.simd_eq(u8x64::splat(b));
    let others = v.simd_eq(u8x64::splat(c)) | v.simd_eq(u8x64::splat(d));
    (first | others).to_bitmask()
}

/// Returns how many of the 16 bytes from `at` on come before the first that ends a token of this kind or is a backslash.
#[inline(always)]
pub fn plain_run(kind: TokenKind, bytes: &[u8], at: usize) -> usize
    requires { at + LANES ≤ length bytes.now }
    ensures { IsRunIn (is_plain (stops_of kind)) bytes.now at LANES result }
{
    first_set(end_mask(kind, bytes, at), LANES)
}

/// Returns the mask of the backslashes among the 16 bytes from `at` on.
#[inline(always)]
pub fn backslashes(bytes: &[u8], at: usize) -> u64
    requires { at + LANES ≤ length bytes.now }
    ensures { result ≡ mask_of (is_end (λ b. false)) bytes.now at LANES }
{
    let lanes = u8x16::from_slice(&bytes[at..]).simd_eq(u8x16::splat(b'\\'));
    lanes.to_bitmask()
}

/// Returns how many of the 16 bytes from `at` on come before the first backslash.
#[inline(always)]
pub fn backslash_run(bytes: &[u8], at: usize) -> usize
    requires { at + LANES ≤ length bytes.now }
    ensures { IsRunIn (is_plain (λ b. false)) bytes.now at LANES result }
{
    first_set(backslashes(bytes, at), LANES)
}
