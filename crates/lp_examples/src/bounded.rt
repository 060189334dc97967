//! A buffer of your own.

// [bounded]
ghost use Rattle.std.specs.Prelude.{◌≡◌, ◌⊎◌, ◌-◌, min, vec_len, vec_capacity};
ghost use Rattle.influxdb_line_protocol.specs.types.NoRoom.TheVariants.{OutOfMemory, Full};

use influxdb_line_protocol::builder::{BufMut, NoRoom};

/// A `Vec` that holds at most `most` bytes.
#[derive(Drop)]
pub struct Bounded {
    pub bytes: Vec<u8>,
    pub most: usize,
}

impl BufMut for Bounded {
    ghost bytes = { λ b. b.bytes.items };

    ghost room = { λ b. min (vec_capacity b.bytes - vec_len b.bytes) (b.most - vec_len b.bytes) };

    ghost refuses = { λ cause. (cause ≡ OutOfMemory) ⊎ (cause ≡ Full) };

    fn reserve(&mut self, n: usize) -> Result<(), NoRoom> {
        if self.most.saturating_sub(self.bytes.len()) < n {
            return Err(NoRoom::Full);
        }
        if self.bytes.reserve(n).is_err() {
            return Err(NoRoom::OutOfMemory);
        }
        Ok(())
    }

    // There is room, so nothing is refused.
    fn put(&mut self, s: &[u8]) {
        let _ = self.bytes.extend_from_slice(s);
    }
}
// [end]
