//! Laws of the definitions, each the contract of a function that does nothing.
ghost use Rattle.lp_conditions.specs.Differing.{FrontsStopInThePart};
ghost use Rattle.lp_relay.specs.Parts.{FaultsChangeNoLine, PartsGiveLines, PartsGiveRefused};
ghost use Rattle.lp_relay.specs.Shards.{PointsHaveOneShard, SeriesHaveOneShard};
ghost use Rattle.lp_relay.specs.TimeLaws.{TimedPiecesAreReadBack, TimesAreReadBack};

/// Of a line take the front before the first byte in which it differs from what the builder writes. The part that is told as not as
/// written is the one in which reading stops of that front, if a character begins at that byte.
pub fn fronts_stop_in_the_part()
    ensures { FrontsStopInThePart }
{}

/// The parts of a text, as [`part_ends`](crate::part_ends) gives their ends, are relayed apart: their lines, one after another, are those of
/// the text, and so are their refused pieces. What faults name, and how they are told, changes neither, so each part can be relayed with
/// numbers of its own.
pub fn parts_are_relayed_apart()
    ensures lines { PartsGiveLines }
    ensures refused { PartsGiveRefused }
    ensures faults { FaultsChangeNoLine }
{
    influxdb_line_protocol::laws::pieces_join();
}

/// The shards of one count part the series: each line is of exactly one, and all lines of a series, which have one key, are of the same.
pub fn shards_part_the_series()
    ensures one { PointsHaveOneShard }
    ensures same { SeriesHaveOneShard }
{}

/// A line with another time is read as that line with this time: its measurement, tags, fields and series stay. If a newline ends its piece, a
/// newline ends the piece with this time too, and changes nothing of what is read after it.
pub fn times_are_read_back()
    ensures lines { TimesAreReadBack }
    ensures pieces { TimedPiecesAreReadBack }
{}
