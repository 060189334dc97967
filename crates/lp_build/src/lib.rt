//! Builds lines that read back, and writes parsed lines again.
//!
//! The crate uses the types of parsed lines and none of their readers. A change of how lines are read therefore needs no new
//! proof of the builder, and a change of the builder needs no new proof of the readers.
#![tactic(auto)]

pub mod builder;

pub use builder::{LineProtocolBuilder, is_admitted, write_line};
