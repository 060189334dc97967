//! Laws of the definitions. Each law is the contract of a function that does nothing.

ghost use Rattle.lp_influx.specs.laws.InfluxLaws.{InfluxReadsPortableLines};

/// From each line that is portable to InfluxDB 1.x, the reader of InfluxDB 1.x reads the point that the strict reader reads.
///
/// The reader of InfluxDB 1.x is the definition `influx_line`. `checks/influx.sh` compares this definition with the parser of the
/// server: that the two agree is measured, not proved. For example, both readers read the same point from `m,t=x f=1i 5000000`.
pub fn influx_reads_portable_lines()
    ensures alike { InfluxReadsPortableLines }
{}
