//! The error with which a test ends that returns a `Result`.

use std::alloc::AllocError;
use std::str::Utf8Error;
use thiserror::Error;

/// The reason why a test could not go on.
#[derive(Debug, Drop, Error)]
pub enum Fault {
    /// A request for memory was refused.
    #[error(transparent)]
    Memory(#[from(alloc)] AllocError),
    /// A text that the test made is not UTF-8.
    #[error(transparent)]
    NotUtf8(#[from] Utf8Error),
    /// A call did not give the value that the test needs to go on.
    #[error("a call did not give what the test needs to go on")]
    Unexpected,
}
