//! A type of the caller's own, whose values are written as fields, up to the greatest length. The values come from the format's rules.

ghost use Rattle.std.specs.Prelude.{replicate};

use crate::fault::Fault;
use crate::given::accepted;
use influxdb_line_protocol::LineProtocolBuilder;
use influxdb_line_protocol::builder::{AfterMeasurement, BufMut, FieldValue, NoRoom, Refused};
use std::alloc::Global;
use std::process::Abort;

// A value whose text is this number of zeros.
#[derive(Drop)]
struct Zeros {
    count: u128,
}

impl FieldValue for Zeros {
    ghost text = { λ z. replicate z.count 48 };

    fn fmt_len(&self) -> Option<usize> {
        usize::try_from(self.count).ok()
    }

    fn fmt<B: BufMut>(&self, buf: &mut B) {
        for i in 0..self.count {
            buf.put(b"0");
        }
    }
}

// Begins a line.
fn begun(alloc: Global) -> Result<LineProtocolBuilder<Vec<u8>, AfterMeasurement>, Fault> {
    accepted(LineProtocolBuilder::new(alloc).measurement("m"))
}

// Writes the line with this field.
fn built<V: FieldValue>(
    line: LineProtocolBuilder<Vec<u8>, AfterMeasurement>,
    key: &str,
    value: V,
) -> Result<Vec<u8>, Fault> {
    let line = accepted(line.field(key, value))?;
    Ok(accepted(line.close_line())?.build())
}

// Returns the refusal of a field of this number of zeros.
fn refused(alloc: Global, count: u128) -> Result<Refused<Vec<u8>, AfterMeasurement>, Fault> {
    match begun(alloc)?.field("a", Zeros { count }) {
        Ok(_) => Err(Fault::Unexpected),
        Err(refused) => Ok(refused),
    }
}

// Checks that a field of this number of zeros is refused for this cause, and that the line is as it was: another field is then
// its only field.
fn is_refused(rt: &impl Abort, alloc: Global, count: u128, cause: NoRoom) -> Result<(), Fault> {
    let refused = refused(alloc, count)?;
    assert_eq!(rt; refused.cause, cause, "for {count} zeros");
    let bytes = built(refused.builder, "b", true)?;
    assert_eq!(rt;
        bytes.as_slice(),
        b"m b=true\n".as_slice(),
        "after {count} zeros"
    );
    Ok(())
}

#[test]
fn a_value_of_the_callers_own_is_written(rt: HostRuntime) -> Result<(), Fault> {
    let bytes = built(begun(rt.alloc())?, "a", Zeros { count: 3 })?;
    assert_eq!(rt; bytes.as_slice(), b"m a=000\n".as_slice());
    Ok(())
}

// For each number of zeros: the cause for which a field of them is refused. No `usize` can hold the first number, or the length
// of the second field.
const REFUSED: [(u128, NoRoom); 3] = [
    (18_446_744_073_709_551_616, NoRoom::TooLong),
    (18_446_744_073_709_551_615, NoRoom::TooLong),
    (18_446_744_073_709_551_605, NoRoom::OutOfMemory),
];

#[test]
fn a_value_without_room_is_refused(rt: HostRuntime) -> Result<(), Fault> {
    for (count, cause) in REFUSED {
        is_refused(&rt, rt.alloc(), count, cause)?;
    }
    Ok(())
}
