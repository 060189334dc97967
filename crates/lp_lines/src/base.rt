//! The base of a series, which is a text by which series can be grouped, and a test of whether it is safe to group by it.

ghost use Rattle.std.specs.Prelude.{◌≡◌, ◌&&◌, ◌-◌, ◌^◌, ◌++◌, IfOk, OnOk, length, map, min, not, true, string_bytes, option_map};
ghost use Rattle.std.specs.List.{list_all, list_any};
ghost use Rattle.lp_lines.specs.code.Bases.{GivesBase, TellsRepeated, base_by_key, base_of, base_text, based_tag};
ghost use Rattle.lp_lines.specs.code.Bases.{in_order, is_ambiguous_name, is_ambiguous_tag, is_base_safe, is_borrowed};
ghost use Rattle.lp_lines.specs.code.Bases.{is_byte_alone};
ghost use Rattle.lp_events.specs.code.OwnBases.{is_own_base, is_strictly_sorted, keys_of};
ghost use Rattle.lp_lines.specs.code.Ranks.{lent_of};
ghost use Rattle.lp_lines.specs.code.Parsed.{tag_of, tags_of};
ghost use Rattle.lp_format.specs.{code.Light.is_single_tag, format.is_one_of, format.some_tags};
ghost use Rattle.lp_values.specs.code.{Outcomes.IsNotOutOfMemory, Texts.is_single_slice, Texts.read_of, Texts.text_of};
ghost use Rattle.lp_scan.specs.code.{known_of};

use crate::parsed::tags_in;
use crate::ranks::{FEW_TAGS, Ranked, put_sorted, ranks_rise};
use crate::{Series, TagSet};
use lp_scan::sets::TokenKind;
use lp_values::{Error, EscapedStr, Result};
use std::alloc::{AllocError, Global};
use std::borrow::CowStr;
use std::collections::BTreeMap;

impl<'a> Series<'a> {
    /// Returns the base of this series, a text by which series can be grouped: the measurement, and the tags in the order of
    /// their keys, by bytes.
    ///
    /// The base tells this series from others if [`is_base_safe`](Self::is_base_safe) is true. Otherwise it may not:
    /// `m,a=1\,b\=2` and `m,a=1,b=2` are two series with one base, and `m,\,=v` and `m,,=v` are one series with two bases.
    ///
    /// If each key is greater than the one before it and no name is a copy, the base is `raw_input`, borrowed; it takes no memory
    /// and is never refused. The events of a line tell at its end whether its series is of this kind. Otherwise the base is a
    /// text of its own, without escapes. It takes one request for memory, and more than 16 tags take one more for their order and
    /// can take one to be sorted.
    ///
    /// The base is made of the members as they are. After a change of `measurement` or `tag_set`, `raw_input` is still the text
    /// of the line.
    ///
    /// ```text
    /// m,B=1,a=2          gives  m,B=1,a=2, borrowed
    /// foo,tag2=2,tag1=1  gives  foo,tag1=1,tag2=2
    /// foo,tag=1,tag=2    gives  DuplicateTag with the key tag
    /// ```
    ///
    /// # Errors
    ///
    /// `DuplicateTag` if a key is repeated: with the first key, in the order of the tags, that is also at an earlier place.
    /// `OutOfMemory` if a request for memory was refused. The series is dropped in both cases.
    #[tactic(auto, using(crate::proofs::lemmas::series::BaseLemmas::own_is_borrowed))]
    pub fn generate_base(self, alloc: Global) -> Result<CowStr<'a>>
        ensures value { GivesBase result (base_of self.entry.raw_input.now (read_of self.entry.measurement)
            (some_tags (option_map tags_of self.entry.tag_set))) }
        ensures memory { is_borrowed (base_of self.entry.raw_input.now (read_of self.entry.measurement)
            (some_tags (option_map tags_of self.entry.tag_set))) ≡ true → IsNotOutOfMemory result }
        ensures own { is_borrowed (base_of self.entry.raw_input.now (read_of self.entry.measurement)
            (some_tags (option_map tags_of self.entry.tag_set)))
            ≡ is_own_base (read_of self.entry.measurement) (some_tags (option_map tags_of self.entry.tag_set)) }
    {
        base(alloc, self.raw_input, &self.measurement, tags_in(&self))
    }

    /// Returns whether the base of this series is safe to group by.
    ///
    /// The base is safe if the measurement and the tag values hold no comma and the tag keys no `=`, which divide the names in a
    /// base, and if no name is only one byte that a backslash may escape in it. Some bases write such a name, for example the tag
    /// key `,`, with the backslash, and others without it. Two series that were read, that repeat no key, and whose bases are
    /// both safe have the same base exactly if they have the same measurement and the same tags, in any order;
    /// `laws::bases_tell_series` says so.
    ///
    /// It takes no memory, and reads each name once.
    ///
    /// ```text
    /// m,a=1,b=2      true
    /// m,a=1\,b\=2    false: the value holds a comma
    /// m,\,=v         false: the key is only a comma
    /// m,,=v          false: it is the same series
    /// ```
    pub fn is_base_safe(&self) -> bool
        ensures { result ≡ is_base_safe (read_of self.now.measurement) (some_tags (option_map tags_of self.now.tag_set)) }
    {
        !is_ambiguous(&self.measurement, tags_in(self))
    }
}

// Returns whether the byte is one of these bytes.
fn has_byte(bytes: &[u8], wanted: u8) -> bool
    ensures { result ≡ is_one_of bytes.now wanted }
{
    bytes.iter().any(|byte| *byte == wanted)
}

// Returns whether a name is only one byte that a backslash may escape in it.
fn is_known_alone(kind: TokenKind, name: &[u8]) -> bool
    ensures { result ≡ is_byte_alone (known_of kind) name.now }
{
    match name {
        [byte] => kind.is_known(*byte),
        _ => false,
    }
}

// Returns whether a name is ambiguous in a base where the byte `divider` divides it from the next name.
fn is_ambiguous_name(kind: TokenKind, divider: u8, name: &EscapedStr<'_>) -> bool
    ensures { result ≡ is_ambiguous_name (known_of kind) divider (text_of name.now) }
{
    let bytes = name.as_str().as_bytes();
    has_byte(bytes, divider) || is_known_alone(kind, bytes)
}

// Returns whether the key or the value of a tag is ambiguous in a base.
fn is_ambiguous_tag<'a>(key: &EscapedStr<'a>, value: &EscapedStr<'a>) -> bool
    ensures { result ≡ is_ambiguous_tag (tag_of (key.now, value.now)) }
{
    is_ambiguous_name(TokenKind::TagKey, b'=', key)
        || is_ambiguous_name(TokenKind::TagValue, b',', value)
}

// Returns whether the key or the value of any tag is ambiguous in a base.
fn is_some_ambiguous<'a>(tags: &[(EscapedStr<'a>, EscapedStr<'a>)]) -> bool
    ensures { result ≡ list_any (λ t. is_ambiguous_tag (tag_of t)) tags.now }
{
    tags.iter().any(|(key, value)| is_ambiguous_tag(key, value))
}

// Returns whether the measurement, or the key or the value of any tag, is ambiguous in their base.
#[tactic(auto, using(crate::proofs::lemmas::series::BaseLemmas::any_ambiguous))]
fn is_ambiguous<'a>(measurement: &EscapedStr<'a>, tags: &[(EscapedStr<'a>, EscapedStr<'a>)]) -> bool
    ensures { not result ≡ is_base_safe (read_of measurement.now) (map tag_of tags.now) }
{
    is_ambiguous_name(TokenKind::Measurement, b',', measurement) || is_some_ambiguous(tags)
}

// Returns the base of a series with this raw text, measurement and tags. If the keys rise, the tags stay in their order.
#[tactic(auto, using(crate::proofs::lemmas::series::SortedTags::rising_by_key, crate::proofs::lemmas::series::BaseLemmas::not_borrowed), unfolding(crate::specs::code::Bases::base_of))]
fn base<'a>(
    alloc: Global,
    raw_input: &'a str,
    measurement: &EscapedStr<'a>,
    tags: &[(EscapedStr<'a>, EscapedStr<'a>)],
) -> Result<CowStr<'a>>
    ensures value { GivesBase result (base_of raw_input.now (read_of measurement.now) (map tag_of tags.now)) }
    ensures memory { is_borrowed (base_of raw_input.now (read_of measurement.now) (map tag_of tags.now)) ≡ true → IsNotOutOfMemory result }
{
    if !keys_rise(tags) {
        return base_by_key(alloc, measurement.as_str(), tags);
    }
    if is_all_single(measurement, tags) {
        return Ok(CowStr::Borrowed(raw_input));
    }
    base_by_key(alloc, measurement.as_str(), tags)
}

// Returns whether each key is greater than the one before it.
fn keys_rise<'a>(tags: &[(EscapedStr<'a>, EscapedStr<'a>)]) -> bool
    ensures { result ≡ is_strictly_sorted (keys_of (map tag_of tags.now)) }
{
    tags.is_sorted_by(|(before, _), (key, _)| before < key)
}

// Returns whether the text is a part of the input.
fn is_single<'a>(text: &EscapedStr<'a>) -> bool
    ensures { result ≡ is_single_slice text.now }
{
    matches!(text, EscapedStr::SingleSlice(_))
}

// Returns whether all keys and values are parts of the input.
fn are_single<'a>(tags: &[(EscapedStr<'a>, EscapedStr<'a>)]) -> bool
    ensures { result ≡ list_all (λ t. is_single_tag (tag_of t)) tags.now }
{
    tags.iter()
        .all(|(key, value)| is_single(key) && is_single(value))
}

// Returns whether the measurement and all keys and values are parts of the input.
#[tactic(auto, using(crate::proofs::lemmas::series::BaseLemmas::all_single))]
fn is_all_single<'a>(
    measurement: &EscapedStr<'a>,
    tags: &[(EscapedStr<'a>, EscapedStr<'a>)],
) -> bool
    ensures { result ≡ (is_single_slice measurement.now && list_all is_single_tag (map tag_of tags.now)) }
{
    is_single(measurement) && are_single(tags)
}

// Appends a tag without escapes.
fn push_tag(base: &mut String, key: &str, value: &str) -> std::result::Result<(), AllocError>
    ensures { OnOk result (string_bytes base.new ≡ string_bytes base.old ++ based_tag (key.now, value.now)) }
{
    base.push_str(",")?;
    base.push_str(key)?;
    base.push_str("=")?;
    base.push_str(value)
}

// Returns the length of a base, or `usize::MAX` if the length does not fit a `usize`.
fn base_len<'l, 'a>(measurement: &str, tags: &[Ranked<'l, 'a>]) -> usize
    ensures { result ≡ min (length (base_text measurement.now (in_order (map lent_of tags.now)))) (2 ^ 64 - 1) }
{
    let mut len = measurement.len();
    for (_, tag) in tags {
        len = len.saturating_add(2);
        len = len.saturating_add(tag.0.as_str().len());
        len = len.saturating_add(tag.1.as_str().len());
    }
    len
}

// Returns the base with its tags in this order.
fn base_in_order<'l, 'a>(
    alloc: Global,
    measurement: &str,
    tags: &[Ranked<'l, 'a>],
) -> std::result::Result<String, AllocError>
    ensures { IfOk result (λ base. string_bytes base ≡ base_text measurement.now (in_order (map lent_of tags.now))) }
{
    let mut base = String::with_capacity(alloc, base_len(measurement, tags))?;
    base.push_str(measurement)?;
    for (_, tag) in tags {
        push_tag(&mut base, tag.0.as_str(), tag.1.as_str())?;
    }
    Ok(base)
}

// Looks for the first key that is repeated, and returns it as an error.
#[tactic(auto, using(crate::proofs::lemmas::series::BaseLemmas::repeat_steps))]
#[cold]
#[inline(never)]
fn check_keys<'a>(alloc: Global, tags: &[(EscapedStr<'a>, EscapedStr<'a>)]) -> Result<()>
    ensures { TellsRepeated result (map tag_of tags.now) }
{
    let mut keys = BTreeMap::new(alloc);
    for (key, _) in tags {
        let name = key.as_str();
        if keys.contains_key(name) {
            let tag_key = String::from_str(alloc, name)?;
            return Err(Error::DuplicateTag { tag_key });
        }
        keys.insert(name, ())?;
    }
    Ok(())
}

// Returns the base with the tags in the order of their keys, into which they are sorted. A repeated key is looked for only if the
// sorted keys do not rise.
#[tactic(auto, unfolding(crate::specs::code::Bases::base_by_key))]
fn base_by_ranks<'l, 'a>(
    alloc: Global,
    measurement: &str,
    tags: &'l [(EscapedStr<'a>, EscapedStr<'a>)],
    out: &mut [Ranked<'l, 'a>],
) -> Result<CowStr<'a>>
    requires { length out.old ≡ length tags.now }
    ensures { GivesBase result (base_by_key measurement.now (map tag_of tags.now)) }
{
    put_sorted(alloc, tags, out)?;
    if !ranks_rise(out) {
        check_keys(alloc, tags)?;
    }
    let base = base_in_order(alloc, measurement, out)?;
    Ok(CowStr::Owned(base))
}

// Returns the base with the tags in the order of their keys. It is a function of its own, because the room for few tags is
// cleared first.
#[inline(never)]
fn base_by_key<'l, 'a>(
    alloc: Global,
    measurement: &str,
    tags: &'l [(EscapedStr<'a>, EscapedStr<'a>)],
) -> Result<CowStr<'a>>
    ensures { GivesBase result (base_by_key measurement.now (map tag_of tags.now)) }
{
    let Some(first) = tags.first() else {
        return base_by_ranks(alloc, measurement, tags, &mut []);
    };
    if tags.len() <= FEW_TAGS {
        let mut few = [(0, first); FEW_TAGS];
        return base_by_ranks(alloc, measurement, tags, &mut few[..tags.len()]);
    }
    let mut many = vec![in alloc; (0, first); tags.len()]?;
    base_by_ranks(alloc, measurement, tags, many.as_mut_slice())
}
