//! The servers to which a line must be portable, and the limits that their options change.

ghost use Rattle.std.specs.Prelude.{◌≡◌};
ghost use Rattle.lp_portable.specs.{code.Clauses.limits_of, format.Portable.default_limits};

/// The servers that must read a line as the strict reader does.
#[derive(Clone, Copy, Debug, PartialEq, Eq)]
pub enum Servers {
    /// InfluxDB 1.x.
    Influx1,
    /// VictoriaMetrics.
    Victoria,
    /// Both servers.
    All,
}

/// The limits of servers, which options of the servers change.
#[derive(Clone, Copy, Debug, PartialEq, Eq)]
pub struct Limits {
    /// The most bytes of a line.
    pub line: usize,
    /// The most tags of a line.
    pub tags: usize,
    /// The earliest timestamp that is kept.
    pub earliest: i64,
    /// The latest timestamp that is kept.
    pub latest: i64,
}

impl Limits {
    /// Returns the limits of servers with default options: lines of at most 262,144 bytes, at most 29 tags, and timestamps, in
    /// nanoseconds, from 1,000,000 on.
    ///
    /// ```text
    /// Limits::new().tags  is  29
    /// ```
    pub fn new() -> Limits
        ensures { limits_of result ≡ default_limits }
    {
        Limits {
            line: 262_144,
            tags: 29,
            earliest: 1_000_000,
            latest: i64::MAX,
        }
    }
}
