//! Writes lines with a builder whose type allows only correct lines.
//!
//! A new [`LineProtocolBuilder`] waits for a measurement. The type of the builder says what may come next: a line without a
//! field, a tag after a field and a second timestamp do not compile. [`LineProtocolBuilder::build`] can return the buffer only
//! between two lines.

ghost use Rattle.std.specs.Prelude.{◌≡◌, ◌≢◌, ◌+◌, ◌<◌, ◌≤◌, ◌^◌, [], ◌∷◌, ◌++◌, length, IfOk, IfErr, IsOk, SomeIff};
ghost use Rattle.std.specs.Fmt.{signed_decimal};
ghost use Rattle.lp_build.specs.declared.builder.buffer.NoRoom.{NoRoom, TheVariants.TooLong};
ghost use Rattle.lp_build.specs.code.Built.{Writes, buffer_of};
ghost use Rattle.lp_format.specs.format.{newline, space, comma, a_measurement, built_tag, field_text, spelling};

use lp_scan::sets::TokenKind;
use std::alloc::Global;
use std::marker::PhantomData;

mod buffer;
mod lines;
mod texts;
mod values;

pub use buffer::{BufMut, NoRoom};
pub use lines::{is_admitted, is_admitted_in, write_line};
use texts::{escaped_len, put_escaped};
pub use values::FieldValue;

// Returns the length of a tag with the comma before it, or `None` if no `usize` can hold the length.
#[inline(always)]
fn tag_len(key: &[u8], value: &[u8]) -> Option<usize>
    ensures { let text = built_tag (record { key = key.now; value = value.now }) in
        SomeIff result (length text < 2 ^ 64) (length text) }
{
    let key_len = escaped_len(TokenKind::TagKey, key);
    let value_len = escaped_len(TokenKind::TagValue, value);
    key_len.checked_add(value_len)?.checked_add(2)
}

// Appends a tag with the comma before it.
fn put_tag<B: BufMut>(buf: &mut B, key: &[u8], value: &[u8])
    requires { length (built_tag (record { key = key.now; value = value.now })) ≤ B.room buf.old }
    ensures bytes { B.bytes buf.new
        ≡ B.bytes buf.old ++ built_tag (record { key = key.now; value = value.now }) }
    ensures room { B.room buf.old
        ≤ B.room buf.new + length (built_tag (record { key = key.now; value = value.now })) }
{
    buf.put(b",");
    put_escaped(buf, TokenKind::TagKey, key);
    buf.put(b"=");
    put_escaped(buf, TokenKind::TagValue, value);
}

// Returns the length of a field with the byte before it, or `None` if no `usize` can hold the length.
fn field_len<F: FieldValue>(key: &[u8], value: &F) -> Option<usize>
    ensures { let text = space ∷ field_text key.now (F.text value.now) in
        SomeIff result (length text < 2 ^ 64) (length text) }
{
    let key_len = escaped_len(TokenKind::FieldKey, key);
    let value_len = value.fmt_len()?;
    key_len.checked_add(value_len)?.checked_add(2)
}

// Appends `before`, and then a field.
fn put_field<B: BufMut, F: FieldValue>(buf: &mut B, before: u8, key: &[u8], value: &F)
    requires { length (before ∷ field_text key.now (F.text value.now)) ≤ B.room buf.old }
    ensures bytes { B.bytes buf.new ≡ B.bytes buf.old ++ before ∷ field_text key.now (F.text value.now) }
    ensures room { B.room buf.old ≤ B.room buf.new + length (before ∷ field_text key.now (F.text value.now)) }
{
    buf.put(&[before]);
    put_escaped(buf, TokenKind::FieldKey, key);
    buf.put(b"=");
    value.fmt(buf);
}

/// The state between two lines. A measurement can come next, or `build`.
#[derive(Clone, Copy, Debug, Default)]
pub struct BeforeMeasurement;

/// The state after a measurement and its tags so far. A tag or the first field can come next.
#[derive(Clone, Copy, Debug)]
pub struct AfterMeasurement;

/// A state that no builder is in. The original Rust crate has a type of this name.
#[derive(Clone, Copy, Debug)]
pub struct AfterTag;

/// The state after a field. A field, the timestamp or the end of the line can come next.
#[derive(Clone, Copy, Debug)]
pub struct AfterField;

/// The state after a timestamp. The end of the line must come next.
#[derive(Clone, Copy, Debug)]
pub struct AfterTimestamp;

/// A builder that appends lines to a buffer of type `B`. The type `S` is the state of the builder.
///
/// Each call that writes makes room for its whole text and then appends exactly this text. If the buffer has no room, the call
/// returns [`Refused`], which holds the builder in the state and with the bytes that it had.
///
/// ```
/// let line = LineProtocolBuilder::new(alloc);
/// let line = line.measurement("weather").map_err(|refused| refused.cause)?;
/// let line = line.tag("city", "Bad Ems").map_err(|refused| refused.cause)?;
/// let line = line.field("degrees", 21i64).map_err(|refused| refused.cause)?;
/// let line = line.timestamp(1_234).map_err(|refused| refused.cause)?;
/// let lines = line.close_line().map_err(|refused| refused.cause)?;
/// // weather,city=Bad\ Ems degrees=21i 1234
/// let bytes = lines.build();
/// ```
#[derive(Drop)]
pub struct LineProtocolBuilder<B: BufMut, S> {
    buf: B,
    state: PhantomData<S>,
}

/// The error of a call that was refused. It holds the builder as the builder was before the call, and the cause.
#[derive(Drop)]
pub struct Refused<B: BufMut, S> {
    /// The builder, in the state in which the call was made, with the bytes that it had.
    pub builder: LineProtocolBuilder<B, S>,
    /// The reason why the call was refused.
    pub cause: NoRoom,
}

impl<B: BufMut, S> LineProtocolBuilder<B, S> {
    // Returns a builder over `buf`, in this state.
    fn over(buf: B) -> Self
        ensures { buffer_of result ≡ buf }
    {
        LineProtocolBuilder {
            buf,
            state: PhantomData,
        }
    }

    // Returns the buffer with room for `n` more bytes, or the error that the buffer gives.
    fn with_room(self, n: usize) -> Result<B, Refused<B, S>>
        ensures bytes { IfOk result (λ b. B.bytes b ≡ B.bytes (buffer_of self)) }
        ensures more { IfOk result (λ b. B.room (buffer_of self) ≤ B.room b) }
        ensures room { IfOk result (λ b. n ≤ B.room b) }
        ensures unchanged { IfErr result (λ r. B.bytes (buffer_of r.builder) ≡ B.bytes (buffer_of self)) }
        ensures kept { IfErr result (λ r. B.room (buffer_of self) ≤ B.room (buffer_of r.builder)) }
        ensures refused { IfErr result (λ r. B.room (buffer_of self) < n) }
        ensures cause { IfErr result (λ r. B.refuses r.cause) }
        ensures fits { IfErr result (λ r. r.cause ≢ TooLong) }
        ensures succeeds { n ≤ B.room (buffer_of self) → IsOk result }
    {
        let LineProtocolBuilder { mut buf, state: _ } = self;
        match buf.reserve(n) {
            Ok(()) => Ok(buf),
            Err(cause) => Err(Refused {
                builder: LineProtocolBuilder::over(buf),
                cause,
            }),
        }
    }

    // Returns the error of a text whose length no `usize` can hold.
    fn too_long(self) -> Refused<B, S>
        ensures builder { buffer_of result.builder ≡ buffer_of self }
        ensures cause { result.cause ≡ TooLong }
    {
        Refused {
            builder: self,
            cause: NoRoom::TooLong,
        }
    }

    // Appends `before`, and then a field.
    fn add_field<F: FieldValue>(
        self,
        before: u8,
        key: &str,
        value: &F,
    ) -> Result<LineProtocolBuilder<B, AfterField>, Refused<B, S>>
        ensures { Writes B.bytes B.room B.refuses
            (before ∷ field_text key.now (F.text value.now)) (buffer_of self) result }
    {
        let Some(n) = field_len(key.as_bytes(), value) else {
            return Err(self.too_long());
        };
        let mut buf = self.with_room(n)?;
        put_field(&mut buf, before, key.as_bytes(), value);
        Ok(LineProtocolBuilder::over(buf))
    }

    // Ends the line.
    fn end_line(self) -> Result<LineProtocolBuilder<B, BeforeMeasurement>, Refused<B, S>>
        ensures { Writes B.bytes B.room B.refuses (newline ∷ []) (buffer_of self) result }
    {
        let mut buf = self.with_room(1)?;
        buf.put(b"\n");
        Ok(LineProtocolBuilder::over(buf))
    }
}

impl LineProtocolBuilder<Vec<u8>, BeforeMeasurement> {
    /// Returns a builder over an empty `Vec`. Takes no memory until the first call that writes.
    ///
    /// ```
    /// let lines = LineProtocolBuilder::new(alloc);
    /// ```
    pub fn new(alloc: Global) -> Self
        ensures { (buffer_of result).items ≡ [] }
    {
        LineProtocolBuilder::new_with(Vec::new(alloc))
    }
}

impl<B: BufMut> LineProtocolBuilder<B, BeforeMeasurement> {
    /// Returns a builder that appends to `buf`. The bytes that `buf` holds stay in front.
    ///
    /// If the bytes must read back, `buf` should hold closed lines: no bytes, or lines that each end with a newline.
    ///
    /// ```
    /// // a builder of packets of at most 64 bytes, which never takes memory
    /// let lines: LineProtocolBuilder<ArrayVec<u8, 64>, BeforeMeasurement> = LineProtocolBuilder::new_with(ArrayVec::new());
    /// ```
    pub fn new_with(buf: B) -> Self
        ensures { buffer_of result ≡ buf }
    {
        Self::over(buf)
    }

    /// Begins a line: appends the measurement `name`, with a backslash before each `,`, space and `\`.
    ///
    /// ```text
    /// line.measurement("weather")     appends weather
    /// line.measurement("with space")  appends with\ space
    /// line.measurement("with,comma")  appends with\,comma
    /// line.measurement("with=eq")     appends with=eq
    /// ```
    ///
    /// # Errors
    ///
    /// Returns the cause that the buffer gives if the buffer has no room for this text. The builder is then as it was.
    pub fn measurement(
        self,
        name: &str,
    ) -> Result<LineProtocolBuilder<B, AfterMeasurement>, Refused<B, BeforeMeasurement>>
        ensures { Writes B.bytes B.room B.refuses
            (spelling a_measurement name.now) (buffer_of self) result }
    {
        let mut buf = self.with_room(escaped_len(TokenKind::Measurement, name.as_bytes()))?;
        put_escaped(&mut buf, TokenKind::Measurement, name.as_bytes());
        Ok(LineProtocolBuilder::over(buf))
    }

    /// Returns the buffer with all lines that were written.
    ///
    /// ```
    /// let bytes = lines.build();
    /// ```
    pub fn build(self) -> B
        ensures { result ≡ buffer_of self }
    {
        self.buf
    }
}

impl<B: BufMut> LineProtocolBuilder<B, AfterMeasurement> {
    /// Appends a tag: a comma, `key`, `=` and `value`. The key and the value get a backslash before each `,`, `=`, space and `\`.
    ///
    /// Tags are written in the order of the calls. A key can be written twice.
    ///
    /// ```text
    /// line.tag("city", "Bad Ems")  appends ,city=Bad\ Ems
    /// line.tag("dummy", "with=eq") appends ,dummy=with\=eq
    /// ```
    ///
    /// # Errors
    ///
    /// Returns `TooLong` if no `usize` can hold the length of this text, and otherwise the cause that the buffer gives if the
    /// buffer has no room for it. The builder is then as it was.
    pub fn tag(
        self,
        key: &str,
        value: &str,
    ) -> Result<LineProtocolBuilder<B, AfterMeasurement>, Refused<B, AfterMeasurement>>
        ensures { Writes B.bytes B.room B.refuses
            (built_tag (record { key = key.now; value = value.now })) (buffer_of self) result }
    {
        let Some(n) = tag_len(key.as_bytes(), value.as_bytes()) else {
            return Err(self.too_long());
        };
        let mut buf = self.with_room(n)?;
        put_tag(&mut buf, key.as_bytes(), value.as_bytes());
        Ok(LineProtocolBuilder::over(buf))
    }

    /// Appends the first field: a space, `key`, `=` and the text of `value`. The key gets a backslash before each `,`, `=`, space
    /// and `\`.
    ///
    /// ```text
    /// line.field("degrees", 21i64)           appends ` degrees=21i`
    /// line.field("ok", true)                 appends ` ok=true`
    /// line.field("s", "some \" value")       appends ` s="some \" value"`
    /// ```
    ///
    /// # Errors
    ///
    /// Returns `TooLong` if no `usize` can hold the length of this text, and otherwise the cause that the buffer gives if the
    /// buffer has no room for it. The builder is then as it was.
    pub fn field<F: FieldValue>(
        self,
        key: &str,
        value: F,
    ) -> Result<LineProtocolBuilder<B, AfterField>, Refused<B, AfterMeasurement>>
        ensures { Writes B.bytes B.room B.refuses
            (space ∷ field_text key.now (F.text value)) (buffer_of self) result }
    {
        self.add_field(b' ', key, &value)
    }
}

impl<B: BufMut> LineProtocolBuilder<B, AfterField> {
    /// Appends another field: a comma, `key`, `=` and the text of `value`. The key gets a backslash before each `,`, `=`, space
    /// and `\`.
    ///
    /// ```text
    /// line.field("valid", true)              appends ,valid=true
    /// ```
    ///
    /// # Errors
    ///
    /// Returns `TooLong` if no `usize` can hold the length of this text, and otherwise the cause that the buffer gives if the
    /// buffer has no room for it. The builder is then as it was.
    pub fn field<F: FieldValue>(
        self,
        key: &str,
        value: F,
    ) -> Result<LineProtocolBuilder<B, AfterField>, Refused<B, AfterField>>
        ensures { Writes B.bytes B.room B.refuses
            (comma ∷ field_text key.now (F.text value)) (buffer_of self) result }
    {
        self.add_field(b',', key, &value)
    }

    /// Appends the timestamp: a space and the number.
    ///
    /// ```text
    /// line.timestamp(1_234)                  appends ` 1234`
    /// ```
    ///
    /// # Errors
    ///
    /// Returns the cause that the buffer gives if the buffer has no room for this text. The builder is then as it was.
    pub fn timestamp(
        self,
        timestamp: i64,
    ) -> Result<LineProtocolBuilder<B, AfterTimestamp>, Refused<B, AfterField>>
        ensures { Writes B.bytes B.room B.refuses
            (space ∷ signed_decimal timestamp) (buffer_of self) result }
    {
        let mut digits = itoa::Buffer::new();
        let digits = digits.format(timestamp).as_bytes();
        let mut buf = self.with_room(digits.len() + 1)?;
        buf.put(b" ");
        buf.put(digits);
        Ok(LineProtocolBuilder::over(buf))
    }

    /// Ends the line: appends a newline.
    ///
    /// ```
    /// let lines = line.close_line().map_err(|refused| refused.cause)?;
    /// ```
    ///
    /// # Errors
    ///
    /// Returns the cause that the buffer gives if the buffer has no room for one byte. The builder is then as it was.
    pub fn close_line(
        self,
    ) -> Result<LineProtocolBuilder<B, BeforeMeasurement>, Refused<B, AfterField>>
        ensures { Writes B.bytes B.room B.refuses (newline ∷ []) (buffer_of self) result }
    {
        self.end_line()
    }
}

impl<B: BufMut> LineProtocolBuilder<B, AfterTimestamp> {
    /// Ends the line after its timestamp: appends a newline.
    ///
    /// ```
    /// let lines = line.close_line().map_err(|refused| refused.cause)?;
    /// ```
    ///
    /// # Errors
    ///
    /// Returns the cause that the buffer gives if the buffer has no room for one byte. The builder is then as it was.
    pub fn close_line(
        self,
    ) -> Result<LineProtocolBuilder<B, BeforeMeasurement>, Refused<B, AfterTimestamp>>
        ensures { Writes B.bytes B.room B.refuses (newline ∷ []) (buffer_of self) result }
    {
        self.end_line()
    }
}
