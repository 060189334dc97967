//! The key of a series: a text that no other series has, by which series can be grouped and compared.

ghost use Rattle.std.specs.Prelude.{◌≡◌, ◌↔◌, ◌≤◌, ◌-◌, ◌^◌, ◌++◌, true, IfOk, IsOk, OnOk, fold, length, map, min, string_bytes, option_map};
ghost use Rattle.lp_format.specs.format.{Escapes.escaped, Escapes.escaped_byte, built_tag, logical_tag, some_tags};
ghost use Rattle.lp_lines.specs.code.Keys.{hash_byte, hash_of, key_text, lent_tag, series_key, sorted_by};
ghost use Rattle.lp_lines.specs.code.{Lookups.some_items, Parsed.tag_of, Parsed.tags_of};
ghost use Rattle.lp_scan.specs.code.{known_of};
ghost use Rattle.lp_values.specs.code.Texts.{text_of};

use crate::Series;
use crate::parsed::tags_in;
use lp_scan::sets::TokenKind;
use lp_values::EscapedStr;
use smallvec::SmallVec;
use std::alloc::{AllocError, Global};

// The number of tags that are sorted without memory.
const INLINE_TAGS: usize = 8;

// The first value of a hash, and the number by which it is multiplied at each byte.
const FNV_OFFSET: u64 = 14_695_981_039_346_656_037;

const FNV_PRIME: u64 = 1_099_511_628_211;

// The names of tags.
type Names<'l> = SmallVec<(&'l str, &'l str), INLINE_TAGS>;

impl<'a> Series<'a> {
    /// Returns the key of this series: a text that no other series has, whatever its names hold.
    ///
    /// The key is the measurement and the tags as the builder writes them, in the order of the tag keys, by bytes; tags with
    /// equal keys stay in their order. Two series have the same key exactly if they have the same measurement and, for each tag
    /// key, the same values in the same order; `laws::keys_tell_series` says so. If all names are admitted, the key reads back as
    /// the series.
    ///
    /// It asks for memory once for the text, once for the places of more than 8 tags, and once to sort more than 20 tags that are
    /// not in order. It compares each tag once if the tags are in order, and else needs n log n comparisons.
    ///
    /// # Errors
    ///
    /// A request for memory was refused.
    ///
    /// ```text
    /// cpu,host=a,az=b   ->  cpu,az=b,host=a
    /// m,a=2,a=1         ->  m,a=2,a=1
    /// m,a=1,b=2         ->  m,a=1,b=2
    /// m,a=1\,b\=2       ->  m,a=1\,b\=2
    /// m,,=v             ->  m,\,=v
    /// m,\,=v            ->  m,\,=v
    /// ```
    #[tactic(auto, unfolding(crate::specs::code::Keys::series_key))]
    pub fn key(&self, alloc: Global) -> Result<String, AllocError>
        ensures { IfOk result (λ key. string_bytes key ≡ series_key (text_of self.now.measurement)
            (map logical_tag (some_tags (option_map tags_of self.now.tag_set)))) }
    {
        let names = sorted_names(alloc, tags_in(self))?;
        written_key(alloc, self.measurement.as_str(), names.as_slice())
    }
}

/// Returns the hash of the key of a series, by FNV-1a of 64 bits: the hash of the bytes of [`key`](Series::key), without making
/// the key.
///
/// With at most 8 tags it takes no memory and is never refused. With more tags it asks for memory as `key` does, but not for the
/// text.
///
/// # Errors
///
/// A request for memory was refused.
///
/// ```text
/// m,a=1,b=2  and  m,b=2,a=1  have one hash
/// ```
#[tactic(auto, unfolding(crate::specs::code::Keys::series_key))]
pub fn hash_series(alloc: Global, series: &Series<'_>) -> Result<u64, AllocError>
    ensures value { IfOk result (λ hash. hash ≡ hash_of (series_key (text_of series.now.measurement)
        (map logical_tag (some_tags (option_map tags_of series.now.tag_set))))) }
    ensures memory { length (some_items series.now.tag_set) ≤ 8 → IsOk result }
{
    let names = sorted_names(alloc, tags_in(series))?;
    Ok(hash_key(series.measurement.as_str(), names.as_slice()))
}

/// Returns whether two series are one: whether they have the same measurement and, for each tag key, the same values in the same
/// order.
///
/// Two series are one exactly if they have one [`key`](Series::key); the keys are not made. With at most 8 tags each it takes no
/// memory and is never refused. With more tags it asks for memory as `key` does, but not for a text.
///
/// # Errors
///
/// A request for memory was refused.
///
/// ```text
/// m,a=1,b=2  and  m,b=2,a=1  are one series
/// m,a=1,a=2  and  m,a=2,a=1  are two
/// ```
#[tactic(auto, unfolding(crate::specs::code::Keys::series_key))]
pub fn same_series(
    alloc: Global,
    series: &Series<'_>,
    other: &Series<'_>,
) -> Result<bool, AllocError>
    ensures value { IfOk result (λ same. (same ≡ true)
        ↔ (series_key (text_of series.now.measurement) (map logical_tag (some_tags (option_map tags_of series.now.tag_set)))
        ≡ series_key (text_of other.now.measurement) (map logical_tag (some_tags (option_map tags_of other.now.tag_set))))) }
    ensures memory { length (some_items series.now.tag_set) ≤ 8 → length (some_items other.now.tag_set) ≤ 8 → IsOk result }
{
    if series.measurement.as_str() != other.measurement.as_str() {
        return Ok(false);
    }
    let names = sorted_names(alloc, tags_in(series))?;
    let others = sorted_names(alloc, tags_in(other))?;
    Ok(are_same(names.as_slice(), others.as_slice()))
}

// Returns whether these are the same names in the same order.
fn are_same(names: &[(&str, &str)], others: &[(&str, &str)]) -> bool
    ensures { (result ≡ true) ↔ (map lent_tag names.now ≡ map lent_tag others.now) }
{
    names == others
}

// Returns the names of these tags, lent.
fn names_in<'l, 'a>(
    alloc: Global,
    tags: &'l [(EscapedStr<'a>, EscapedStr<'a>)],
) -> Result<Names<'l>, AllocError>
    ensures names { IfOk result (λ names. map lent_tag names.items ≡ map logical_tag (map tag_of tags.now)) }
    ensures few { length tags.now ≤ 8 → IsOk result }
{
    let mut names: Names<'l> = SmallVec::with_capacity(alloc, tags.len())?;
    for (key, value) in tags {
        names.push_reserved((key.as_str(), value.as_str()));
    }
    Ok(names)
}

// Sorts names of tags by their keys. Equal keys stay in their order.
fn sort_names(alloc: Global, names: &mut [(&str, &str)]) -> Result<(), AllocError>
    ensures sorted { OnOk result (names.new ≡ sorted_by (λ t. t.0.now) names.old) }
    ensures len { length names.new ≡ length names.old }
    ensures few { length names.old ≤ 20 → IsOk result }
{
    names.sort_by_key(alloc, |name| name.0)?;
    Ok(())
}

// Returns the names of these tags, lent and sorted by their keys.
fn sorted_names<'l, 'a>(
    alloc: Global,
    tags: &'l [(EscapedStr<'a>, EscapedStr<'a>)],
) -> Result<Names<'l>, AllocError>
    ensures names { IfOk result (λ names. map lent_tag names.items ≡ sorted_by (λ t. t.key) (map logical_tag (map tag_of tags.now))) }
    ensures few { length tags.now ≤ 8 → IsOk result }
{
    let mut names = names_in(alloc, tags)?;
    sort_names(alloc, names.as_mut_slice())?;
    Ok(names)
}

// Returns the hash after one more byte.
fn hash_byte(hash: u64, byte: u8) -> u64
    ensures { result ≡ hash_byte hash byte }
{
    (hash ^ u64::from(byte)).wrapping_mul(FNV_PRIME)
}

// Returns the hash after a byte of a name as the builder writes it.
fn hash_escaped(hash: u64, kind: TokenKind, byte: u8) -> u64
    ensures { result ≡ fold hash_byte hash (escaped_byte (known_of kind) byte) }
{
    if kind.is_known(byte) {
        return hash_byte(hash_byte(hash, b'\\'), byte);
    }
    hash_byte(hash, byte)
}

// Returns the hash after a name as the builder writes it.
#[tactic(auto, using(crate::proofs::lemmas::series::KeyTexts::hash_steps))]
fn hash_name(before: u64, kind: TokenKind, name: &str) -> u64
    ensures { result ≡ fold hash_byte before (escaped (known_of kind) name.now) }
{
    let mut hash = before;
    for byte in name.as_bytes() {
        hash = hash_escaped(hash, kind, *byte);
    }
    hash
}

// Returns the hash after a tag as the builder writes it.
#[tactic(auto, using(crate::proofs::lemmas::series::KeyTexts::hash_steps))]
fn hash_tag(before: u64, key: &str, value: &str) -> u64
    ensures { result ≡ fold hash_byte before (built_tag (lent_tag (key.entry, value.entry))) }
{
    let hash = hash_byte(before, b',');
    let hash = hash_name(hash, TokenKind::TagKey, key);
    let hash = hash_byte(hash, b'=');
    hash_name(hash, TokenKind::TagValue, value)
}

// Returns the hash of a key with its tags in this order.
#[tactic(auto, using(crate::proofs::lemmas::series::KeyTexts::hash_steps), unfolding(crate::specs::code::Keys::hash_of))]
fn hash_key(measurement: &str, tags: &[(&str, &str)]) -> u64
    ensures { result ≡ hash_of (key_text measurement.now (map lent_tag tags.now)) }
{
    let mut hash = hash_name(FNV_OFFSET, TokenKind::Measurement, measurement);
    for (key, value) in tags {
        hash = hash_tag(hash, key, value);
    }
    hash
}

// Returns the length of a byte of a name as the builder writes it.
fn escaped_byte_len(kind: TokenKind, byte: u8) -> usize
    ensures { result ≡ length (escaped_byte (known_of kind) byte) }
{
    if kind.is_known(byte) { 2 } else { 1 }
}

// Returns the length of a name as the builder writes it, or `usize::MAX` if the length does not fit a `usize`.
#[tactic(auto, using(crate::proofs::lemmas::series::KeyTexts::len_steps))]
fn escaped_len(kind: TokenKind, name: &str) -> usize
    ensures { result ≡ min (length (escaped (known_of kind) name.now)) (2 ^ 64 - 1) }
{
    let mut len: usize = 0;
    for byte in name.as_bytes() {
        len = len.saturating_add(escaped_byte_len(kind, *byte));
    }
    len
}

// Returns the length of a key with its tags in this order, or `usize::MAX` if the length does not fit a `usize`.
fn key_len(measurement: &str, tags: &[(&str, &str)]) -> usize
    ensures { result ≡ min (length (key_text measurement.now (map lent_tag tags.now))) (2 ^ 64 - 1) }
{
    let mut len = escaped_len(TokenKind::Measurement, measurement);
    for (key, value) in tags {
        len = len.saturating_add(2);
        len = len.saturating_add(escaped_len(TokenKind::TagKey, key));
        len = len.saturating_add(escaped_len(TokenKind::TagValue, value));
    }
    len
}

// Appends a name as the builder writes it. The bytes between two backslashes are appended as one run.
fn push_name(text: &mut String, kind: TokenKind, name: &str) -> Result<(), AllocError>
    ensures { OnOk result (string_bytes text.new ≡ string_bytes text.old ++ escaped (known_of kind) name.now) }
{
    let bytes = name.as_bytes();
    let mut start = 0;
    for at in 0..bytes.len() {
        if kind.is_known(bytes[at]) {
            text.push_str(&name[start..at])?;
            text.push_str("\\")?;
            start = at;
        }
    }
    text.push_str(&name[start..])
}

// Appends a tag as the builder writes it.
fn push_tag(text: &mut String, key: &str, value: &str) -> Result<(), AllocError>
    ensures { OnOk result (string_bytes text.new ≡ string_bytes text.old ++ built_tag (lent_tag (key.entry, value.entry))) }
{
    text.push_str(",")?;
    push_name(text, TokenKind::TagKey, key)?;
    text.push_str("=")?;
    push_name(text, TokenKind::TagValue, value)
}

// Returns the key with its tags in this order.
fn written_key(
    alloc: Global,
    measurement: &str,
    tags: &[(&str, &str)],
) -> Result<String, AllocError>
    ensures { IfOk result (λ key. string_bytes key ≡ key_text measurement.now (map lent_tag tags.now)) }
{
    let mut text = String::with_capacity(alloc, key_len(measurement, tags))?;
    push_name(&mut text, TokenKind::Measurement, measurement)?;
    for (key, value) in tags {
        push_tag(&mut text, key, value)?;
    }
    Ok(text)
}
