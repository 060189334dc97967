//! The library for callers in C.
//!
//! A text crosses the border to C as a pointer and a length. The caller owns all memory: what is read lies in what it lends, and the
//! texts of it are parts of the input or of the lent room. No call keeps anything, ends the program or calls back.
#![tactic(auto)]

mod block_verdicts;
mod blocks;
mod clause_messages;
mod exports;
mod handed;
mod handed_rows;
mod lent;
mod messages;
mod numbers;
mod reading;
mod rebuilding;
mod sure_rows;
mod telling;
mod verdicts;
mod views;
mod writing;
mod writing_rows;
