//! Worked lines: for each relation that the headline and the laws name, one example that it covers and one just outside, both proved.
//!
//! The examples stand in `proofs/`. This crate has no code and nothing uses it, so a new example proves no other crate again.
#![tactic(auto)]
