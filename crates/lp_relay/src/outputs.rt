//! The three writers of a relay, as one value.
//!
//! A relay hands all three from call to call, and each of its contracts speaks of all three. So they have one name, and one
//! member for contracts. A trait gives it that name, since a member of a type with three parameters is named by all of them.
//! A relay is compiled for each kind of its writers, and a call of `put` or `flush` is one of each of them.
ghost use Rattle.std.specs.Prelude.{OnErr, OnOk};
ghost use Rattle.lp_rebuild.specs.Running.{WriterTold, writer_told};
ghost use Rattle.lp_relay.specs.Writers.{AreFlushed, CountsWriteFault, Gains, GainsFronts, KeepsBytes, Writers, of_writers};

use lp_rebuild::program::write_bytes;
use lp_rebuild::{RunFault, Sink};

/// The three writers of a relay: for lines, for faults, and for refused pieces. [`Outputs`] makes them of three sinks.
///
/// For contracts it has one member, `told`: what each of the three tells of itself.
pub trait ThreeWriters {
    ghost told: { Self → Writers WriterTold };

    /// Writes all of these bytes, each to its writer.
    ///
    /// # Errors
    ///
    /// `Write` if a writer failed; then each has a beginning of its bytes.
    fn put(&mut self, lines: &[u8], faults: &[u8], refused: &[u8]) -> Result<(), RunFault>
        ensures ok { OnOk result (Gains (told self.old) (told self.new) lines.now faults.now refused.now) }
        ensures part { OnErr result (GainsFronts (told self.old) (told self.new) lines.now faults.now refused.now) }
        ensures counts { CountsWriteFault result (told self.old) (told self.new) };

    /// Flushes each writer. Its bytes stay as they are.
    ///
    /// # Errors
    ///
    /// `Write` if a writer failed.
    fn flush(&mut self) -> Result<(), RunFault>
        ensures bytes { KeepsBytes (told self.old) (told self.new) }
        ensures counts { CountsWriteFault result (told self.old) (told self.new) }
        ensures flushed { OnOk result (AreFlushed (told self.new)) };
}

/// Three sinks as the writers of a relay. It takes no memory.
///
/// ```text
/// let mut outputs = Outputs { lines: Kept::new(alloc), faults: Kept::new(alloc), refused: Nowhere::new() };
/// let relayed = relay(alloc, Settings::default(), &mut reader, &mut outputs)?;
/// ```
#[derive(Drop)]
pub struct Outputs<L, F, P> {
    /// Where the lines go.
    pub lines: L,
    /// Where the faults go.
    pub faults: F,
    /// Where the refused pieces go: [`Nowhere`](crate::Nowhere) if none are wanted.
    pub refused: P,
}

/// Lines are written and flushed first, then faults, then refused pieces; after a failure, no sink that comes later is called.
impl<L: Sink, F: Sink, P: Sink> ThreeWriters for Outputs<L, F, P> {
    ghost told = { λ outputs. of_writers (writer_told L.bytes L.failures L.is_flushed outputs.lines)
        (writer_told F.bytes F.failures F.is_flushed outputs.faults)
        (writer_told P.bytes P.failures P.is_flushed outputs.refused) };

    #[tactic(auto, using(crate::proofs::PassLemmas::front_all, crate::proofs::PassLemmas::front_none))]
    fn put(&mut self, lines: &[u8], faults: &[u8], refused: &[u8]) -> Result<(), RunFault> {
        if write_bytes(&mut self.lines, lines).is_err() {
            return Err(RunFault::Write);
        }
        if write_bytes(&mut self.faults, faults).is_err() {
            return Err(RunFault::Write);
        }
        if write_bytes(&mut self.refused, refused).is_err() {
            return Err(RunFault::Write);
        }
        Ok(())
    }

    fn flush(&mut self) -> Result<(), RunFault> {
        if self.lines.flush().is_err() {
            return Err(RunFault::Write);
        }
        if self.faults.flush().is_err() {
            return Err(RunFault::Write);
        }
        if self.refused.flush().is_err() {
            return Err(RunFault::Write);
        }
        Ok(())
    }
}
