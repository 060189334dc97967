//! What programs over files and streams share: their inputs and outputs, what is refused before anything is opened, and how a run ends.
//!
//! `lp_relay` and `lp_series` are built over it. It is a crate of its own, since a program is no library.
#![tactic(auto)]

pub mod asked;
mod clock;
pub mod relays;
