//! A text that is a slice of the input, or a copy without the escapes.
ghost use Rattle.std.specs.Prelude.{◌≡◌, length, true, false, IfOk, IsOk, IsTrue, ◌↔◌, Some, string_bytes, refl, nat_eq};
ghost use Rattle.std.proofs.Common.{rules};
ghost use Rattle.std.specs.Ordering.{nat_cmp};
ghost use Rattle.std.specs.Hash as fed;
ghost use Rattle.std.specs.Cmp.Lexicographic.{pointwise, slice_cmp, nat_list_eq_equiv, nat_list_cmp_total, texts_ties, texts_po};
ghost use Rattle.std.specs.Cmp.{on_equiv, on_total, on_per, on_po, partial_equiv_from_equiv};
ghost use Rattle.std.specs.Cmp.Rules.{hashing};
ghost use Rattle.lp_values.specs.code.Texts.{text_of, is_single_slice, read_of};

use std::alloc::{AllocError, Global};
use std::cmp::Ordering;
use std::fmt;
use std::hash::{Hash, Hasher};

/// A name or a string value, with its logical text.
///
/// Equality, order and hash are those of the text, whichever variant holds it. The order is by bytes.
///
/// ```text
/// cpu  is  SingleSlice("cpu"),  cpu\ load  is  CopiedValue("cpu load")
/// ```
#[derive(Drop)]
pub enum EscapedStr<'a> {
    /// A part of the input, or a fixed text.
    SingleSlice(&'a str),
    /// A copy: the spelled text held a backslash.
    CopiedValue(String),
}

/// The name at the start of a line.
pub type Measurement<'a> = EscapedStr<'a>;

/// The empty text.
impl<'a> Default for EscapedStr<'a> {
    ghost use Rattle.std.specs.Prelude.{◌≡◌, [], true};
    ghost use Rattle.lp_values.specs.code.Texts.{read_of};

    ghost is_default = { λ e. read_of e ≡ record { bytes = []; is_single = true } };

    fn default() -> Self {
        EscapedStr::SingleSlice("")
    }
}

impl<'a> fmt::Debug for EscapedStr<'a> {
    fn fmt<W: fmt::Write>(&self, f: &mut fmt::Formatter<W>) -> fmt::Result {
        let s = self.as_str();
        fmt::Debug::fmt(&s, f)
    }
}

impl<'a> EscapedStr<'a> {
    /// Returns the text.
    pub fn as_str(&self) -> &str
        ensures value { result.now ≡ text_of self.now }
        ensures len { length result.now ≡ length (text_of self.now) }
    {
        match self {
            EscapedStr::SingleSlice(s) => s,
            EscapedStr::CopiedValue(s) => s.as_str(),
        }
    }

    /// Returns whether the text equals `other`.
    pub fn eq_text(&self, other: &str) -> bool
        ensures { IsTrue result ↔ (text_of self.now ≡ other.now) }
    {
        let text = self.as_str();
        text == other
    }

    /// Returns the text as a `String`. A copy is returned as it is, which takes no memory.
    ///
    /// # Errors
    ///
    /// The memory for the text of a slice was refused. The value is dropped.
    pub fn into_string(self, alloc: Global) -> Result<String, AllocError>
        ensures ok { IfOk result (λ s. string_bytes s ≡ text_of self.entry) }
        ensures succeeds { is_single_slice self.entry ≡ false → IsOk result }
    {
        match self {
            EscapedStr::SingleSlice(s) => String::from_str(alloc, s),
            EscapedStr::CopiedValue(s) => Ok(s),
        }
    }

    /// Returns a copy of the text.
    ///
    /// # Errors
    ///
    /// A request for memory was refused. The value stays as it is.
    pub fn to_string(&self, alloc: Global) -> Result<String, AllocError>
        ensures { IfOk result (λ s. string_bytes s ≡ text_of self.now) }
    {
        String::from_str(alloc, self.as_str())
    }

    /// Returns an equal text in the same variant. A slice takes no memory.
    ///
    /// # Errors
    ///
    /// The memory for a copy was refused. The value stays as it is.
    pub fn clone(&self, alloc: Global) -> Result<EscapedStr<'a>, AllocError>
        ensures ok { IfOk result (λ copy. read_of copy ≡ read_of self.now) }
        ensures succeeds { is_single_slice self.now ≡ true → IsOk result }
    {
        match self {
            EscapedStr::SingleSlice(s) => Ok(EscapedStr::SingleSlice(*s)),
            EscapedStr::CopiedValue(s) => Ok(EscapedStr::CopiedValue(String::from_str(
                alloc,
                s.as_str(),
            )?)),
        }
    }
}

impl<'a> From<&'a str> for EscapedStr<'a> {
    ghost use Rattle.std.specs.Prelude.{◌≡◌};
    ghost use Rattle.lp_values.specs.declared.escaped.EscapedStr.TheVariants.{SingleSlice};

    ghost from_gives = { λ s e. e ≡ SingleSlice s };

    fn from(text: &'a str) -> EscapedStr<'a> {
        EscapedStr::SingleSlice(text)
    }
}

impl<'a> PartialEq for EscapedStr<'a> {
    ghost eq = { λ x y. pointwise nat_eq (text_of x) (text_of y) };

    ghost laws = { on_per text_of (partial_equiv_from_equiv nat_list_eq_equiv) };

    fn eq(&self, other: &Self) -> bool {
        self.as_str() == other.as_str()
    }
}

impl<'a> Eq for EscapedStr<'a> {
    ghost laws = { on_equiv text_of nat_list_eq_equiv };
}

impl<'a> PartialOrd for EscapedStr<'a> {
    ghost partial_cmp = { λ x y. Some (slice_cmp nat_cmp (text_of x) (text_of y)) };

    ghost laws = { on_po text_of texts_po };

    fn partial_cmp(&self, other: &Self) -> Option<Ordering> {
        Some(self.cmp(other))
    }
}

impl<'a> Ord for EscapedStr<'a> {
    ghost cmp = { λ x y. slice_cmp nat_cmp (text_of x) (text_of y) };

    ghost total = { on_total text_of nat_list_cmp_total };

    ghost matches_partial_cmp = { λ x y. refl };

    ghost matches_eq = { λ x y. texts_ties (text_of x) (text_of y) };

    fn cmp(&self, other: &Self) -> Ordering {
        self.as_str().cmp(other.as_str())
    }
}

impl<'a> Hash for EscapedStr<'a> {
    ghost hash_input = { λ c. fed.str (text_of c) };

    ghost respects_eq = { Prim.search (hashing, rules) };

    fn hash<H: Hasher>(&self, state: &mut H) {
        self.as_str().hash(state);
    }
}

impl<'a> fmt::Display for EscapedStr<'a> {
    ghost output = { λ c. Some (text_of c) };

    fn fmt<W: fmt::Write>(&self, f: &mut fmt::Formatter<W>) -> fmt::Result {
        let s = self.as_str();
        f.write_str(s)
    }
}
