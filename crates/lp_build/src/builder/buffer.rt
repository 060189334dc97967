//! Buffers that the builder writes to.

ghost use Rattle.std.specs.Prelude.{◌≡◌, ◌≢◌, ◌+◌, ◌-◌, ◌<◌, ◌≤◌, ◌↔◌, List, ◌++◌, ℕ, length, IfErr, OnOk, OnErr, IsOk, IsErr, vec_len};
ghost use Rattle.std.specs.Prelude.{vec_capacity};
ghost use Rattle.arrayvec.specs.ArrayVec.{array_vec_len};
ghost use Rattle.lp_build.specs.declared.builder.buffer.NoRoom.{NoRoom};
ghost use Rattle.lp_build.specs.declared.builder.buffer.NoRoom.TheVariants.{OutOfMemory, Full, TooLong};

use arrayvec::ArrayVec;
use std::alloc::Allocator;

/// The cause of a refusal: why a call could not write its text.
#[derive(Clone, Copy, Debug, PartialEq, Eq)]
pub enum NoRoom {
    /// A request for memory was refused.
    OutOfMemory,
    /// The buffer cannot grow, and has less room than the text has bytes.
    Full,
    /// No `usize` can hold the length of the text.
    TooLong,
}

/// A buffer to which bytes can be appended. Implement this trait to let the builder write to your own buffer.
///
/// Contracts know three facts about a buffer: `bytes`, the bytes that it holds; `room`, how many more bytes it takes without a
/// refusal; and `refuses`, the causes that it can give. `Vec<u8>` and `ArrayVec<u8, CAP>` implement the trait.
pub trait BufMut: Drop {
    ghost bytes: { Self → List ℕ };

    ghost room: { Self → ℕ };

    ghost refuses: { NoRoom → Type 0 };

    /// Makes room for `n` more bytes. The bytes stay as they are, and the room does not shrink, even if the call fails.
    ///
    /// ```text
    /// an ArrayVec<u8, 8> that holds 5 bytes:  reserve(3) returns Ok(()),  and  reserve(4) returns Err(NoRoom::Full)
    /// ```
    ///
    /// # Errors
    ///
    /// Returns a cause of the buffer if the room was less than `n` and the buffer could not get more. The cause is never
    /// `TooLong`.
    fn reserve(&mut self, n: usize) -> Result<(), NoRoom>
        ensures bytes { bytes self.new ≡ bytes self.old }
        ensures kept { room self.old ≤ room self.new }
        ensures ok { OnOk result (n ≤ room self.new) }
        ensures succeeds { n ≤ room self.old → IsOk result }
        ensures full { OnErr result (room self.old < n) }
        ensures cause { IfErr result (λ e. refuses e) }
        ensures fits { IfErr result (λ e. e ≢ TooLong) };

    /// Appends `s`. The buffer must have room for it: call [`BufMut::reserve`] first. The room shrinks by at most the length of
    /// `s`.
    fn put(&mut self, s: &[u8])
        requires { length s.now ≤ room self.old }
        ensures bytes { bytes self.new ≡ bytes self.old ++ s.now }
        ensures room { room self.old ≤ room self.new + length s.now };
}

/// A `Vec` can grow. Its room is the part of its capacity that is free, and the only cause that it gives is `OutOfMemory`.
impl<A: Allocator> BufMut for Vec<u8, A> {
    ghost bytes = { λ v. v.items };

    ghost room = { λ v. vec_capacity v - vec_len v };

    ghost refuses = { λ e. e ≡ OutOfMemory };

    fn reserve(&mut self, n: usize) -> Result<(), NoRoom> {
        if self.reserve(n).is_err() {
            return Err(NoRoom::OutOfMemory);
        }
        Ok(())
    }

    // The `Vec` has room, so it refuses nothing.
    fn put(&mut self, s: &[u8]) {
        let _ = self.extend_from_slice(s);
    }
}

/// An `ArrayVec` never grows. It gives the cause `Full` exactly if it has less room than the call asks for.
impl<const CAP: usize> BufMut for ArrayVec<u8, CAP> {
    ghost bytes = { λ v. v.items };

    ghost room = { λ v. CAP - array_vec_len v };

    ghost refuses = { λ e. e ≡ Full };

    fn reserve(&mut self, n: usize) -> Result<(), NoRoom>
        ensures bytes { self.new.items ≡ self.old.items }
        ensures kept { CAP - array_vec_len self.old ≤ CAP - array_vec_len self.new }
        ensures ok { OnOk result (n ≤ CAP - array_vec_len self.new) }
        ensures succeeds { n ≤ CAP - array_vec_len self.old → IsOk result }
        ensures exactly { IsErr result ↔ (CAP - array_vec_len self.old < n) }
        ensures full { OnErr result (CAP - array_vec_len self.old < n) }
        ensures cause { IfErr result (λ e. e ≡ Full) }
        ensures fits { IfErr result (λ e. e ≢ TooLong) }
    {
        if self.remaining_capacity() < n {
            return Err(NoRoom::Full);
        }
        Ok(())
    }

    // The `ArrayVec` has room, so it refuses nothing.
    fn put(&mut self, s: &[u8]) {
        let _ = self.try_extend_from_slice(s);
    }
}
