//! What the first bytes of an input say of it.
//!
//! Packed bytes are no lines: each scrap of them would be refused for itself. A byte order mark is no part of a line either, but its reader may
//! want it as it came. A read may give one byte alone, so the first four bytes are kept, whatever reads they came by: no byte is held back for them.
ghost use Rattle.std.specs.Prelude.{◌≡◌, OnOk};
ghost use Rattle.lp_inputs.specs.Starts.{first_bytes, start_of};

use std::alloc::AllocError;

/// What an input is, by its first bytes.
#[derive(Clone, Copy, Debug, PartialEq, Eq)]
pub enum Start {
    /// Nothing else is known of it.
    Text,
    /// It is packed by gzip.
    Gzip,
    /// It is packed by zstd.
    Zstd,
    /// It begins with the byte order mark of UTF-8.
    ByteOrderMark,
}

/// How many bytes tell what an input is.
pub const TELLING: usize = 4;

/// What an input is that begins with these bytes.
pub fn start_of(bytes: &[u8]) -> Start
    ensures { result ≡ start_of bytes.now }
{
    if bytes.starts_with(b"\x1f\x8b") {
        Start::Gzip
    } else if bytes.starts_with(b"\x28\xb5\x2f\xfd") {
        Start::Zstd
    } else if bytes.starts_with(b"\xef\xbb\xbf") {
        Start::ByteOrderMark
    } else {
        Start::Text
    }
}

/// Keeps what tells an input of more bytes that were read of it.
///
/// # Errors
///
/// If memory was refused; then nothing was kept of them.
pub fn keep_first(kept: &mut Vec<u8>, more: &[u8]) -> Result<(), AllocError>
    ensures { OnOk result (kept.new.items ≡ first_bytes kept.old.items more.now) }
{
    let wanted = TELLING.saturating_sub(kept.len());
    kept.extend_from_slice(&more[..more.len().min(wanted)])
}
