//! A line of 19 bytes in buffers that have room for 0 to 19, and shorter lines. The values come from the format's rules.

ghost use Rattle.std.specs.Prelude.{◌<◌};

use crate::fault::Fault;
use crate::given::{accepted, parsed};
use crate::lent::Lent;
use arrayvec::ArrayVec;
use influxdb_line_protocol::builder::{BufMut, NoRoom};
use influxdb_line_protocol::{FloatText, LineProtocolBuilder, ParsedLine, write_line};
use std::process::Abort;

// The calls that write the line.
#[derive(Clone, Copy, Debug, PartialEq, Eq)]
enum Call {
    Measurement,
    Tag,
    Field,
    CloseLine,
}

// For each capacity from 0 on: the call that is refused, if any, and the bytes that the buffer then holds.
const BY_CALLS: [(Option<Call>, &str); 20] = [
    (Some(Call::Measurement), ""),
    (Some(Call::Measurement), ""),
    (Some(Call::Measurement), ""),
    (Some(Call::Tag), "foo"),
    (Some(Call::Tag), "foo"),
    (Some(Call::Tag), "foo"),
    (Some(Call::Tag), "foo"),
    (Some(Call::Tag), "foo"),
    (Some(Call::Tag), "foo"),
    (Some(Call::Tag), "foo"),
    (Some(Call::Tag), "foo"),
    (Some(Call::Field), "foo,bar=baz"),
    (Some(Call::Field), "foo,bar=baz"),
    (Some(Call::Field), "foo,bar=baz"),
    (Some(Call::Field), "foo,bar=baz"),
    (Some(Call::Field), "foo,bar=baz"),
    (Some(Call::Field), "foo,bar=baz"),
    (Some(Call::Field), "foo,bar=baz"),
    (Some(Call::CloseLine), "foo,bar=baz qux=42"),
    (None, "foo,bar=baz qux=42\n"),
];

// For each capacity from 0 on: the cause for which the whole line is refused, if any, and the bytes that the buffer then holds.
const WHOLE: [(Option<NoRoom>, &str); 20] = [
    (Some(NoRoom::Full), ""),
    (Some(NoRoom::Full), ""),
    (Some(NoRoom::Full), ""),
    (Some(NoRoom::Full), ""),
    (Some(NoRoom::Full), ""),
    (Some(NoRoom::Full), ""),
    (Some(NoRoom::Full), ""),
    (Some(NoRoom::Full), ""),
    (Some(NoRoom::Full), ""),
    (Some(NoRoom::Full), ""),
    (Some(NoRoom::Full), ""),
    (Some(NoRoom::Full), ""),
    (Some(NoRoom::Full), ""),
    (Some(NoRoom::Full), ""),
    (Some(NoRoom::Full), ""),
    (Some(NoRoom::Full), ""),
    (Some(NoRoom::Full), ""),
    (Some(NoRoom::Full), ""),
    (Some(NoRoom::Full), ""),
    (None, "foo,bar=baz qux=42\n"),
];

// Writes the line call by call. Returns the first call that is refused, and the cause.
fn first_refused<B: BufMut>(buffer: B, literal: FloatText<'_>) -> Option<(Call, NoRoom)> {
    let line = match LineProtocolBuilder::new_with(buffer).measurement("foo") {
        Ok(line) => line,
        Err(refused) => return Some((Call::Measurement, refused.cause)),
    };
    let line = match line.tag("bar", "baz") {
        Ok(line) => line,
        Err(refused) => return Some((Call::Tag, refused.cause)),
    };
    let line = match line.field("qux", literal) {
        Ok(line) => line,
        Err(refused) => return Some((Call::Field, refused.cause)),
    };
    match line.close_line() {
        Ok(_) => None,
        Err(refused) => Some((Call::CloseLine, refused.cause)),
    }
}

// Checks that the line is written call by call into a buffer of this capacity as its row says.
fn sees_calls<const CAP: usize>(rt: &impl Abort, literal: FloatText<'_>)
    requires { CAP < 20 }
{
    let (call, held) = BY_CALLS[CAP];
    let wanted = call.map(|call| (call, NoRoom::Full));
    let refused = first_refused(ArrayVec::<u8, CAP>::new(), literal);
    assert_eq!(rt; refused, wanted, "in {CAP} bytes");
    let mut bytes = ArrayVec::<u8, CAP>::new();
    let refused = first_refused(Lent { buffer: &mut bytes }, literal);
    assert_eq!(rt; refused, wanted, "in {CAP} bytes that are lent");
    assert_eq!(rt; bytes.as_slice(), held.as_bytes(), "in {CAP} bytes");
}

// Writes a whole line into a buffer of this capacity. Returns the cause of the refusal, if any, and the buffer.
fn written<const CAP: usize>(
    rt: &impl Abort,
    line: &ParsedLine<'_>,
) -> (Option<NoRoom>, ArrayVec<u8, CAP>) {
    assert!(rt; line.field_set.len() > 0);
    let lines = LineProtocolBuilder::new_with(ArrayVec::<u8, CAP>::new());
    match write_line(lines, line) {
        Ok(lines) => (None, lines.build()),
        Err(refused) => (Some(refused.cause), refused.builder.build()),
    }
}

// Checks that a whole line is written into a buffer of this capacity as its row says.
fn sees_line<const CAP: usize>(rt: &impl Abort, line: &ParsedLine<'_>)
    requires { CAP < 20 }
{
    let (wanted, held) = WHOLE[CAP];
    let (refused, bytes) = written::<CAP>(rt, line);
    assert_eq!(rt; refused, wanted, "in {CAP} bytes");
    assert_eq!(rt; bytes.as_slice(), held.as_bytes(), "in {CAP} bytes");
}

#[test]
fn the_call_that_does_not_fit_is_refused(rt: HostRuntime) -> Result<(), Fault> {
    let literal = FloatText::new("42").ok_or(Fault::Unexpected)?;
    sees_calls::<0>(&rt, literal);
    sees_calls::<1>(&rt, literal);
    sees_calls::<2>(&rt, literal);
    sees_calls::<3>(&rt, literal);
    sees_calls::<4>(&rt, literal);
    sees_calls::<5>(&rt, literal);
    sees_calls::<6>(&rt, literal);
    sees_calls::<7>(&rt, literal);
    sees_calls::<8>(&rt, literal);
    sees_calls::<9>(&rt, literal);
    sees_calls::<10>(&rt, literal);
    sees_calls::<11>(&rt, literal);
    sees_calls::<12>(&rt, literal);
    sees_calls::<13>(&rt, literal);
    sees_calls::<14>(&rt, literal);
    sees_calls::<15>(&rt, literal);
    sees_calls::<16>(&rt, literal);
    sees_calls::<17>(&rt, literal);
    sees_calls::<18>(&rt, literal);
    sees_calls::<19>(&rt, literal);
    Ok(())
}

#[test]
fn a_line_that_does_not_fit_is_refused_as_a_whole(rt: HostRuntime) -> Result<(), Fault> {
    let line = parsed(rt.alloc(), "foo,bar=baz qux=42")?;
    sees_line::<0>(&rt, &line);
    sees_line::<1>(&rt, &line);
    sees_line::<2>(&rt, &line);
    sees_line::<3>(&rt, &line);
    sees_line::<4>(&rt, &line);
    sees_line::<5>(&rt, &line);
    sees_line::<6>(&rt, &line);
    sees_line::<7>(&rt, &line);
    sees_line::<8>(&rt, &line);
    sees_line::<9>(&rt, &line);
    sees_line::<10>(&rt, &line);
    sees_line::<11>(&rt, &line);
    sees_line::<12>(&rt, &line);
    sees_line::<13>(&rt, &line);
    sees_line::<14>(&rt, &line);
    sees_line::<15>(&rt, &line);
    sees_line::<16>(&rt, &line);
    sees_line::<17>(&rt, &line);
    sees_line::<18>(&rt, &line);
    sees_line::<19>(&rt, &line);
    Ok(())
}

#[test]
fn a_refused_timestamp_leaves_room_to_end_the_line(rt: HostRuntime) -> Result<(), Fault> {
    let line = LineProtocolBuilder::new_with(ArrayVec::<u8, 8>::new());
    let line = accepted(accepted(line.measurement("m"))?.field("a", 1i64))?;
    let Err(refused) = line.timestamp(12) else {
        return Err(Fault::Unexpected);
    };
    assert_eq!(rt; refused.cause, NoRoom::Full);
    let bytes = accepted(refused.builder.close_line())?.build();
    assert_eq!(rt; bytes.as_slice(), b"m a=1i\n".as_slice());
    Ok(())
}

#[test]
fn a_buffer_without_room_refuses_a_byte(rt: HostRuntime) -> Result<(), Fault> {
    let lines = LineProtocolBuilder::new_with(ArrayVec::<u8, 0>::new());
    let Err(refused) = lines.measurement("m") else {
        return Err(Fault::Unexpected);
    };
    assert_eq!(rt; refused.cause, NoRoom::Full);
    assert_eq!(rt; refused.builder.build().len(), 0);
    Ok(())
}

#[test]
fn a_buffer_without_room_takes_an_empty_text(rt: HostRuntime) {
    let mut bytes = ArrayVec::<u8, 0>::new();
    let lines = LineProtocolBuilder::new_with(Lent { buffer: &mut bytes });
    assert!(rt; lines.measurement("").is_ok());
    assert_eq!(rt; bytes.len(), 0);
}
