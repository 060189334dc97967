//! Searches of a text for one of a few bytes. A search loads many bytes at a time.
ghost use Rattle.std.specs.Prelude.{◌≡◌, ◌+◌, ◌<◌, ◌≤◌, length, not};
ghost use Rattle.lp_format.specs.format.Bytes.{is_one_of};
ghost use Rattle.lp_scan.specs.code.{IsRunAt, IsRunIn};

use crate::lanes::first_set;
use std::simd::prelude::*;

// Returns whether the byte is one of the marks. The array can have a mark twice.
#[inline(always)]
fn is_mark(marks: [u8; 4], byte: u8) -> bool
    ensures { result ≡ is_one_of marks byte }
{
    (byte == marks[0]) | (byte == marks[1]) | (byte == marks[2]) | (byte == marks[3])
}

// Returns how many bytes of the text come before the first mark, by looking at one byte after another.
#[inline(always)]
fn walked_before_first(marks: [u8; 4], text: &[u8]) -> usize
    ensures { IsRunAt (λ b. not (is_one_of marks b)) text.now 0 result }
{
    let mut at = 0;
    while at < text.len() && !is_mark(marks, text[at]) {
        at += 1;
    }
    at
}

// Returns how many of the `N` bytes from `at` on come before the first mark.
#[inline(always)]
fn run_of<const N: usize>(marks: [u8; 4], text: &[u8], at: usize) -> usize
    requires few { N ≤ 64 }
    requires room { at + N ≤ length text.now }
    ensures { IsRunIn (λ b. not (is_one_of marks b)) text.now at N result }
{
    let bytes = Simd::<u8, N>::from_slice(&text[at..]);
    let found = (bytes.simd_eq(Simd::splat(marks[0])) | bytes.simd_eq(Simd::splat(marks[1])))
        | (bytes.simd_eq(Simd::splat(marks[2])) | bytes.simd_eq(Simd::splat(marks[3])));
    first_set(found.to_bitmask(), N)
}

// Returns how many bytes of a text of `N` bytes or more come before the first mark, by loads of `N` bytes. The last load can
// overlap the one before it.
#[inline(always)]
fn loaded_before_first<const N: usize>(marks: [u8; 4], text: &[u8]) -> usize
    requires some { 0 < N }
    requires few { N ≤ 64 }
    requires room { N ≤ length text.now }
    ensures { IsRunAt (λ b. not (is_one_of marks b)) text.now 0 result }
{
    let mut at = 0;
    while text.len() - at > N {
        let run = run_of::<N>(marks, text, at);
        if run < N {
            return at + run;
        }
        at += N;
    }
    text.len() - N + run_of::<N>(marks, text, text.len() - N)
}

/// Returns how many bytes of the text come before the first mark, by the longest loads that the text has room for.
#[inline(always)]
pub fn before_first(marks: [u8; 4], text: &[u8]) -> usize
    ensures { IsRunAt (λ b. not (is_one_of marks b)) text.now 0 result }
{
    match text.len() {
        16.. => loaded_before_first::<16>(marks, text),
        8.. => loaded_before_first::<8>(marks, text),
        4.. => loaded_before_first::<4>(marks, text),
        _ => walked_before_first(marks, text),
    }
}
