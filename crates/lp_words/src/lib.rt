//! What words say: the options that programs share, the names in them, and what is refused before anything is opened.
//!
//! No module opens a file, and none stands on the crates that read lines. So this crate is proved beside them.
#![tactic(auto)]

pub mod batch_names;
pub mod options;
pub mod paths;
pub mod plain;
pub mod refusals;
pub mod told;
pub mod wrong;
