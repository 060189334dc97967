//! The reader for pages and for JavaScript.
//!
//! A text crosses the border as a pointer and a length. The caller owns all memory: what is read lies in what it lends, by offsets. No call
//! keeps anything, asks for memory, ends the program or calls back: so it is compiled for WebAssembly too, where no heap is.
#![tactic(auto)]

mod exports;
mod written;
