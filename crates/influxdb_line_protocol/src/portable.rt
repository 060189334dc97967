//! Checks whether a line is portable: whether InfluxDB 1.x and VictoriaMetrics read it as the strict reader does.
//!
//! [`is_portable`] returns true for a portable line. [`verdict_of`] also names the first rule that a text breaks, and
//! [`broken_clauses`] returns all rules that it breaks. [`Limits`] has the limits of the servers, which their options can change.

pub use lp_portable::{
    Broken, Clause, Limits, Servers, Verdict, broken_clauses, is_portable, verdict_of,
};
