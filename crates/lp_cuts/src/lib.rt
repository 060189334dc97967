//! Where a text can be cut, so that its parts can be relayed or rebuilt apart.
//!
//! [`part_ends`](cuts::part_ends) gives the ends of the parts of a text, and [`part_ends_at`](cuts::part_ends_at) those of a file.
#![tactic(auto)]

pub mod cuts;
pub mod windows;
