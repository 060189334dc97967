//! The definitions of line protocol, and the laws that follow from the definitions alone.
//!
//! The contracts of the crates above use these definitions to say how the code answers and what it writes. No definition names a
//! type or a function of the code. A change of the code therefore never needs a new proof of this crate, and a reader can learn
//! what is promised without reading code.
#![tactic(auto)]
