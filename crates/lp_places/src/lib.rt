//! What the system has in the places of names: files, folders and standard streams, and the locks of what runs make there.
#![tactic(auto)]

pub mod locks;
pub mod opens;
pub mod places;
pub mod streams;
