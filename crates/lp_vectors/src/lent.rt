//! A buffer that is lent to a builder, so that a test sees its bytes also if the line was left open.

use influxdb_line_protocol::builder::{BufMut, NoRoom};

/// A buffer that the test keeps.
#[derive(Drop)]
pub struct Lent<'a, B: BufMut> {
    pub buffer: &'a mut B,
}

impl<'a, B: BufMut> BufMut for Lent<'a, B> {
    ghost bytes = { λ l. B.bytes l.buffer.now };

    ghost room = { λ l. B.room l.buffer.now };

    ghost refuses = { B.refuses };

    fn reserve(&mut self, n: usize) -> Result<(), NoRoom> {
        self.buffer.reserve(n)
    }

    fn put(&mut self, s: &[u8]) {
        self.buffer.put(s);
    }
}
