//! Texts that lie in bytes, tested for UTF-8 many at a time.
//!
//! A test of a short text takes about as long as one of a hundred bytes. So a portion of the bytes is tested at once, and a text that lies
//! in it is one if it begins and ends between two characters. It costs a test of bytes of which no text is taken: fewer than 4 KiB
//! after the last one, and few if a call is for few rows. If a portion is not UTF-8, each text in it is tested again, alone.

ghost use Rattle.std.specs.Prelude.{◌≡◌, ◌+◌, ◌≤◌, ◌<◌, ◌^◌, IfSome, Some, drop, length, take};
ghost use Rattle.lp_offsets.specs.Portions.{IsTextOf};

/// How many bytes are tested at once, at most, but for a text that is longer.
const MOST: usize = 4096;

// Of a text with fewer bytes std's test is the fastest.
const SHORT: usize = 64;

// A text with as many bytes gains nothing by a portion.
const LONG: usize = 1024;

/// A portion of bytes that was tested.
#[derive(Clone, Copy)]
pub struct Portion<'a> {
    /// The bytes.
    pub bytes: &'a [u8],
    /// Where it begins.
    pub from: usize,
    /// What it says.
    pub text: &'a str,
    /// For how many texts the next one is, at most.
    pub texts: usize,
    pub ghost lies: { text.now ≡ take (length text.now) (drop from bytes.now) },
}

/// A portion of none of these bytes. The next one is for so many texts.
#[inline]
pub fn no_portion<'a>(bytes: &'a [u8], texts: usize) -> Portion<'a>
    ensures { result.bytes.now ≡ bytes.now }
{
    Portion {
        bytes,
        from: 0,
        text: "",
        texts,
    }
}

// The text that bytes are, if they are UTF-8. Std's test of a short text is made without a call of the other one.
#[inline(always)]
fn text_of(bytes: &[u8]) -> Option<&str>
    ensures { IsTextOf bytes.now result }
{
    if bytes.len() < SHORT {
        str::from_utf8(bytes).ok()
    } else {
        simdutf8::basic::from_utf8(bytes).ok()
    }
}

// The same of so many bytes at a place.
#[inline(always)]
fn text_alone(bytes: &[u8], at: usize, len: usize) -> Option<&str>
    requires { at + len ≤ length bytes.now }
    ensures { IsTextOf (take len (drop at bytes.now)) result }
{
    text_of(&bytes[at..at + len])
}

// Whether a character goes on with this byte.
fn goes_on(byte: u8) -> bool {
    matches!(byte, 0x80..=0xBF)
}

// Where a portion ends that could end here: up to three bytes before, so that no character is cut, but not before the least end.
fn end_before(bytes: &[u8], least: usize, most: usize) -> usize
    requires { (least ≤ most) × (most ≤ length bytes.now) }
    ensures { (least ≤ result) × (result ≤ most) }
{
    let mut end = most;
    while least < end && most - end < 3 && end < bytes.len() && goes_on(bytes[end]) {
        end -= 1;
    }
    end
}

// The portion after another one from a place on, as far as the least end and some bytes further: for texts of so many bytes. If it is not
// UTF-8, it is none, at its end.
#[inline(never)]
fn portion_from<'a>(before: &Portion<'a>, from: usize, least: usize, each: usize) -> Portion<'a>
    requires { (from ≤ least) × (least ≤ length before.now.bytes.now) }
    ensures { result.bytes.now ≡ before.now.bytes.now }
{
    let bytes = before.bytes;
    let texts = before.texts;
    let size = texts.saturating_mul(each).min(MOST);
    let most = from.saturating_add(size).max(least).min(bytes.len());
    let until = end_before(bytes, least, most);
    let Some(text) = text_of(&bytes[from..until]) else {
        return Portion {
            bytes,
            from: until,
            text: "",
            texts,
        };
    };
    Portion {
        bytes,
        from,
        text,
        texts,
    }
}

impl<'a> Portion<'a> {
    // Where it ends.
    #[inline(always)]
    fn end(&self) -> usize {
        self.from.wrapping_add(self.text.len())
    }

    // The text of so many bytes at a place, if they lie in this portion, between two characters.
    #[inline(always)]
    fn text_in(&self, at: usize, len: usize) -> Option<&'a str>
        requires { at + len < 2 ^ 64 }
        ensures { IfSome result (λ text. IsTextOf (take len (drop at self.now.bytes.now)) (Some text)) }
    {
        if at < self.from {
            return None;
        }
        let start = at - self.from;
        let text = self.text.get(start..start + len)?;
        // The proof takes from this call that a text is UTF-8.
        let _bytes = text.as_bytes();
        Some(text)
    }

    /// The text of so many bytes at a place, if they are UTF-8.
    #[inline(always)]
    pub fn text_at(&self, at: usize, len: usize) -> Option<&'a str>
        requires { at + len ≤ length self.now.bytes.now }
        ensures { IsTextOf (take len (drop at self.now.bytes.now)) result }
    {
        match self.text_in(at, len) {
            Some(text) => Some(text),
            None => text_alone(self.bytes, at, len),
        }
    }

    // The same of a text that does not lie in this portion. If it ends after it, the next portion begins with it, unless it is long: for
    // texts as long as this one.
    #[inline(never)]
    fn text_past(&mut self, at: usize, len: usize) -> Option<&'a str>
        requires { at + len ≤ length self.old.bytes.now }
        ensures bytes { self.new.bytes.now ≡ self.old.bytes.now }
        ensures text { IsTextOf (take len (drop at self.old.bytes.now)) result }
    {
        if LONG <= len || at + len <= self.end() {
            return text_alone(self.bytes, at, len);
        }
        *self = portion_from(self, at, at + len, len + 1);
        self.text_at(at, len)
    }

    /// The same of the next text.
    #[inline(always)]
    pub fn next_text(&mut self, at: usize, len: usize) -> Option<&'a str>
        requires { at + len ≤ length self.old.bytes.now }
        ensures bytes { self.new.bytes.now ≡ self.old.bytes.now }
        ensures text { IsTextOf (take len (drop at self.old.bytes.now)) result }
    {
        match self.text_in(at, len) {
            Some(text) => Some(text),
            None => self.text_past(at, len),
        }
    }

    /// Begins the next portion at a place that this one does not reach, for texts of so many bytes.
    #[inline]
    pub fn move_to(&mut self, at: usize, each: usize)
        ensures { self.new.bytes.now ≡ self.old.bytes.now }
    {
        if self.end() <= at && at <= self.bytes.len() {
            *self = portion_from(self, at, at, each);
        }
    }
}
