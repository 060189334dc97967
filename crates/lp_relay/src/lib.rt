//! Relays lines from a reader to three writers as they come, and tells where a text can be cut, so that its parts can be relayed
//! or rebuilt apart.
//!
//! [`relay`] holds a line and a few blocks. By its [`Settings`] it passes over lines that are too long, and lets lines out as
//! they came, or only lines that are as they would be written. By them its faults name lines of the input, or are told on one
//! line each. [`part_ends`] gives the ends of the parts of a text, and [`part_ends_at`] those of a file.
//!
//! It takes each item as `lp_rebuild` does. It is a crate of its own, since the program `lp_rebuild` needs none of it.
#![tactic(auto)]

mod inputs;
pub mod laws;
mod nowhere;
mod outputs;
mod reads;
mod relaying;
mod taking;

pub use inputs::{Inputs, NextInput, relay_inputs};
pub use lp_conditions::field_types::StrictTypes;
pub use lp_conditions::kinds::{KINDS, Kind, KindCounts, Relayed};
pub use lp_conditions::portable::Portable;
pub use lp_conditions::settings::{LineForm, Numbering, Settings, Shard};
pub use lp_conditions::times::{TimeUnit, Times};
pub use lp_cuts::cuts::{part_ends, part_ends_at};
pub use lp_cuts::windows::ReadAt;
pub use lp_escapes::forms::Faults;
pub use lp_escapes::json::put_json_text;
pub use lp_escapes::one_line::tell_bytes;
pub use lp_scan::newlines::newlines_in;
pub use nowhere::Nowhere;
pub use outputs::{Outputs, ThreeWriters};
pub use reads::{Clock, relay_now};
pub use relaying::relay;
