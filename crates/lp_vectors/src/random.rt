//! Random texts, the same ones at each run.

// The bytes that mean something to the splitter, and two that do not.
const BYTES: &[u8; 8] = b"\\ =,\"\n#a";

/// Random numbers: the numbers of a linear congruence, with their bits mixed.
#[derive(Drop)]
pub struct Random {
    state: u64,
}

impl Random {
    /// Returns the random numbers that follow this number.
    pub fn new(seed: u64) -> Random {
        Random { state: seed }
    }

    /// Returns the next random number.
    pub fn number(&mut self) -> u64 {
        self.state = self
            .state
            .wrapping_mul(6_364_136_223_846_793_005)
            .wrapping_add(1_442_695_040_888_963_407);
        let mixed = (self.state ^ (self.state >> 32)).wrapping_mul(0xd6e8_feb8_6659_fd93);
        mixed ^ (mixed >> 32)
    }

    /// Fills the buffer with bytes. One byte in a few is drawn from `BYTES`, and the others are letters.
    pub fn fill(&mut self, buffer: &mut [u8], few: u64) {
        for byte in buffer.iter_mut() {
            let number = self.number();
            let is_drawn = number.checked_rem(few).unwrap_or(0) == 0;
            *byte = if is_drawn {
                BYTES[(number >> 32) as usize % 8]
            } else {
                b'b'
            };
        }
    }
}
