//! Items of a text by offsets, keys of rows and cuts of streams, over the caller's bytes and rows: for the static libraries `lp_c` and `lp_page`.
//!
//! Nothing here asks for memory, so that it can be compiled where there is no heap.
#![tactic(auto)]

pub mod cuts;
pub mod enums;
pub mod faults;
pub mod offsets;
pub mod pieces;
pub mod placed;
mod placing;
pub mod portions;
pub mod row_keys;
