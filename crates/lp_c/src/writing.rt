//! Lines that are written, shown or tested, and bases and keys of series: each into a buffer that the caller lends.

ghost use Rattle.std.specs.Prelude.{◌≡◌, ◌≢◌, ◌↔◌, ◌≤◌, ◌++◌, length, take, drop, false};
ghost use Rattle.influxdb_line_protocol.specs.code.Bases.{is_base_safe};
ghost use Rattle.influxdb_line_protocol.specs.format.Lines.{some_tags};
ghost use Rattle.influxdb_line_protocol.specs.format.Points.{is_admitted_in};
ghost use Rattle.lp_offsets.specs.declared.enums.Answer.TheVariants.{MoreRoom, NotADialect, NotALine, OutOfMemory, Written};
ghost use Rattle.lp_c.specs.Handed.{IsLineIn, IsSeriesIn, tag_set_in, text_in};
ghost use Rattle.lp_offsets.specs.Numbers.{IsNoDialect, answer_number, dialect_of};
ghost use Rattle.lp_c.specs.Writing.{PutsOut, ReadsAs, Writes, WritesAdmittedLine, answer_for_base, base_in, key_in, point_in, shown_in, text_of_base};

use crate::handed::{empty_line, take_line, take_series};
use crate::views::{Line, Part};
use influxdb_line_protocol::builder::Unwritten;
use influxdb_line_protocol::{
    Error, LineProtocolBuilder, is_admitted_in, laws, write_admitted_line_in,
};
use lp_offsets::enums::{Answer, Dialect};
use std::alloc::Global;

/// Puts a text at the start of a buffer that has room for it.
pub(crate) fn put_front(text: &[u8], out: &mut [u8])
    requires { length text.now ≤ length out.old }
    ensures { out.new ≡ text.now ++ drop (length text.now) out.old }
{
    let (front, _) = out.split_at_mut(text.len());
    front.copy_from_slice(text);
}

/// Puts a text at the start of a buffer, and tells its length.
pub(crate) fn put_out(done: Answer, text: &[u8], out: &mut [u8], len: &mut usize) -> u32
    ensures { PutsOut done text.now out.old out.new len.new result }
{
    *len = text.len();
    if out.len() < text.len() {
        return Answer::MoreRoom.number();
    }
    put_front(text, out);
    done.number()
}

/// Whether [`lp_line_write`] writes a line in the [`Dialect`] of this number: whether the line is admitted there.
///
/// Answers `Written` and sets `admitted`; or `NotADialect`, `NotALine` or `OutOfMemory`, and changes nothing. With at most eight
/// tags and four fields it takes no memory.
#[unsafe(no_mangle)]
pub extern "C" fn lp_line_is_admitted(
    alloc: Global,
    dialect: u32,
    line: &Line<'_>,
    parts: &[Part<'_>],
    admitted: &mut bool,
) -> u32
    ensures not_a_dialect { result ≡ answer_number NotADialect ↔ IsNoDialect dialect }
    ensures not_a_line { result ≡ answer_number NotALine → ¬ IsLineIn line.now parts.now }
    ensures kept { result ≢ answer_number Written → admitted.new ≡ admitted.old }
    ensures memory { line.now.tags ≤ 8 → line.now.fields ≤ 4 → result ≢ answer_number OutOfMemory }
    ensures told { result ≢ answer_number NotADialect → result ≢ answer_number NotALine → result ≢ answer_number OutOfMemory →
        (result ≡ answer_number Written) × IsLineIn line.now parts.now
        × (admitted.new ≡ is_admitted_in (dialect_of dialect) (point_in line.now parts.now)) }
{
    let Some(dialect) = Dialect::numbered(dialect) else {
        return Answer::NotADialect.number();
    };
    let mut taken = empty_line(alloc);
    match take_line(alloc, false, line, parts, &mut taken) {
        Ok(()) => {
            *admitted = is_admitted_in(dialect.rules(), &taken);
            Answer::Written.number()
        }
        Err(answer) => answer.number(),
    }
}

/// Writes a line, with its newline, as the builder does, if it reads back: if it is admitted in the [`Dialect`] of this number. What is
/// written is read as the point of the line and as no other, whatever text comes after it, in each dialect in which it is admitted.
///
/// Answers `Written`, and `len` is how many bytes were written; or `MoreRoom`, and `len` is how many are needed; or `NotADialect`,
/// `NotALine`, `NotAdmitted` or `OutOfMemory`, and `len` is as it was. Only `Written` changes `out`. With at most eight tags and four
/// fields a line that is not admitted is refused without memory.
#[unsafe(no_mangle)]
pub extern "C" fn lp_line_write(
    alloc: Global,
    dialect: u32,
    line: &Line<'_>,
    parts: &[Part<'_>],
    out: &mut [u8],
    len: &mut usize,
) -> u32
    ensures writes { WritesAdmittedLine dialect line.now parts.now out.old out.new len.old len.new result }
    ensures memory { line.now.tags ≤ 8 → line.now.fields ≤ 4 → is_admitted_in (dialect_of dialect) (point_in line.now parts.now) ≡ false →
        result ≢ answer_number OutOfMemory }
    ensures reads_back { result ≡ answer_number Written → ReadsAs (point_in line.now parts.now) (take len.new out.new) }
{
    let Some(dialect) = Dialect::numbered(dialect) else {
        return Answer::NotADialect.number();
    };
    let mut taken = empty_line(alloc);
    if let Err(answer) = take_line(alloc, false, line, parts, &mut taken) {
        return answer.number();
    }
    laws::admitted_lines_read_back();
    match write_admitted_line_in(LineProtocolBuilder::new(alloc), dialect.rules(), &taken) {
        Ok(builder) => put_out(Answer::Written, builder.build().as_slice(), out, len),
        Err(Unwritten::NotAdmitted(_)) => Answer::NotAdmitted.number(),
        Err(Unwritten::Refused(_)) => Answer::OutOfMemory.number(),
    }
}

/// Shows a line: what `{}` writes of it.
///
/// Answers `Written`, and `len` is how many bytes were written; or `MoreRoom`, and `len` is how many are needed; or
/// `NotALine` or `OutOfMemory`, and `len` is as it was. Only `Written` changes `out`.
#[unsafe(no_mangle)]
pub extern "C" fn lp_line_show(
    alloc: Global,
    line: &Line<'_>,
    parts: &[Part<'_>],
    out: &mut [u8],
    len: &mut usize,
) -> u32
    ensures { Writes (IsLineIn line.now parts.now) Written (shown_in line.now parts.now) out.old out.new len.old len.new result }
{
    let mut taken = empty_line(alloc);
    if let Err(answer) = take_line(alloc, false, line, parts, &mut taken) {
        return answer.number();
    }
    match format!(in alloc; "{taken}") {
        Ok(text) => put_out(Answer::Written, text.as_str().as_bytes(), out, len),
        Err(_) => Answer::OutOfMemory.number(),
    }
}

/// The base of the series of a line.
///
/// Answers as [`lp_line_show`] does, but if a key of the tags is repeated it answers `Fault`, and writes that key. The
/// fields are not looked at. It tells the series from others if [`lp_line_is_base_safe`], and else it may not: `m,a=1\,b\=2` and
/// `m,a=1,b=2` are two series with one base, and `m,\,=v` and `m,,=v` one series with two.
#[unsafe(no_mangle)]
pub extern "C" fn lp_line_base(
    alloc: Global,
    line: &Line<'_>,
    parts: &[Part<'_>],
    out: &mut [u8],
    len: &mut usize,
) -> u32
    ensures { let base = base_in line.now parts.now in
        Writes (IsSeriesIn line.now parts.now) (answer_for_base base) (text_of_base base) out.old out.new len.old len.new result }
{
    let mut taken = empty_line(alloc);
    if let Err(answer) = take_series(alloc, true, line, parts, &mut taken.series) {
        return answer.number();
    }
    match taken.series.generate_base(alloc) {
        Ok(base) => put_out(Answer::Written, base.as_str().as_bytes(), out, len),
        Err(Error::DuplicateTag { tag_key }) => put_out(
            Answer::Fault,
            tag_key.as_str().as_bytes(),
            out,
            len,
        ),
        Err(_) => Answer::OutOfMemory.number(),
    }
}

/// The key of the series of a line: a text that the series has alone, whatever its names hold.
///
/// Answers as [`lp_line_show`] does. The fields are not looked at. Two series have the same key exactly if they have the same
/// measurement and, for each tag key, the same values in the same order, as `laws::keys_tell_series` says.
#[unsafe(no_mangle)]
pub extern "C" fn lp_line_key(
    alloc: Global,
    line: &Line<'_>,
    parts: &[Part<'_>],
    out: &mut [u8],
    len: &mut usize,
) -> u32
    ensures { Writes (IsSeriesIn line.now parts.now) Written (key_in line.now parts.now) out.old out.new len.old len.new result }
{
    let mut taken = empty_line(alloc);
    if let Err(answer) = take_series(alloc, false, line, parts, &mut taken.series) {
        return answer.number();
    }
    match taken.series.key(alloc) {
        Ok(key) => put_out(Answer::Written, key.as_str().as_bytes(), out, len),
        Err(_) => Answer::OutOfMemory.number(),
    }
}

/// Whether the base of the series of a line is safe to group by. It is if no measurement and no tag value holds a comma, no tag
/// key an `=`, and no name is one byte alone that a backslash may escape in it.
///
/// Answers `Written` and sets `safe`; or `NotALine` or `OutOfMemory`, and changes nothing. The fields are not looked at. With
/// at most eight tags it takes no memory.
#[unsafe(no_mangle)]
pub extern "C" fn lp_line_is_base_safe(
    alloc: Global,
    line: &Line<'_>,
    parts: &[Part<'_>],
    safe: &mut bool,
) -> u32
    ensures not_a_line { result ≡ answer_number NotALine → (¬ IsSeriesIn line.now parts.now) × (safe.new ≡ safe.old) }
    ensures out_of_memory { result ≡ answer_number OutOfMemory → safe.new ≡ safe.old }
    ensures memory { line.now.tags ≤ 8 → result ≢ answer_number OutOfMemory }
    ensures told { result ≢ answer_number NotALine → result ≢ answer_number OutOfMemory →
        (result ≡ answer_number Written) × IsSeriesIn line.now parts.now
        × (safe.new ≡ is_base_safe (text_in false line.now.measurement) (some_tags (tag_set_in false line.now parts.now))) }
{
    let mut taken = empty_line(alloc);
    match take_series(alloc, false, line, parts, &mut taken.series) {
        Ok(()) => {
            *safe = taken.series.is_base_safe();
            Answer::Written.number()
        }
        Err(answer) => answer.number(),
    }
}
