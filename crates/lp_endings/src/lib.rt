//! How a run ends: what it has counted, why it failed, what is said of that, and its exit status.
#![tactic(auto)]

pub mod arguments;
pub mod endings;
pub mod speaking;
pub mod summary;
pub mod version;
