//! What a relay is asked for.
ghost use Rattle.std.specs.Prelude.{◌≡◌, ◌<◌, false};
ghost use Rattle.influxdb_line_protocol.specs.format.Bytes.{newline, tab};

use crate::field_types::StrictTypes;
use crate::portable::Portable;
use crate::times::Times;
use influxdb_line_protocol::Dialect;
use lp_escapes::forms::Faults;

/// How the lines of a relay go out.
#[derive(Clone, Copy, Debug, PartialEq, Eq)]
pub enum LineForm {
    /// A line is written again, in one spelling, if its names are admitted, and else it is refused.
    Rebuilt,
    /// A line goes out byte for byte as it came, whatever its names are, with what its piece has before it, and a newline. If that newline
    /// would not end it, as after the last line `m a,b="="` of an input, it is written again as by `Rebuilt`.
    Verbatim,
    /// A line goes out byte for byte as it came, without what its piece has before it, if it is as it would be written again.
    /// Else it is refused: for a name that is not admitted, or with the first part of it that is not so, as in
    /// `not as written: the value of tag 2`.
    Canonical,
    /// A line goes out byte for byte as it came, without what its piece has before it, after the key of its series and a tab, if its names
    /// are admitted, and else it is refused.
    Keyed,
    /// A line goes out as by `Verbatim` if its series is of this shard. Of a line of another shard nothing goes out; it counts as carried.
    OfShard(Shard),
}

/// A part of all series: those whose [`hash`](influxdb_line_protocol::hash_series), modulo `count`, is `number`. A count of 0 is taken as 1.
///
/// So each line is of one shard of so many, and all lines of a series are of the same; `laws::shards_part_the_series` says so.
#[derive(Clone, Copy, Debug, PartialEq, Eq)]
pub struct Shard {
    /// Which shard it is, from 0 on.
    pub number: u64,
    /// How many shards there are.
    pub count: u64,
}

/// What the fault lines of a relay name.
#[derive(Clone, Copy, Debug, PartialEq, Eq)]
pub enum Numbering {
    /// The number of the item, as in `item 5: ..`. Items are counted from `first` of the settings.
    Items,
    /// The line of the input on which the piece of the item begins, as in `line 17: ..`. Lines are counted from `first`
    /// of the settings, one after each newline, also after those within strings and within pieces that are too long or not UTF-8.
    Lines,
}

/// How a relay reads lines and puts them out, and what its fault lines name. By default, it reads them by the rules of the crate,
/// however long they are, writes them again, and names items from 1 on, in fault lines as they are.
#[derive(Clone, Copy, Debug, PartialEq, Eq)]
pub struct Settings<'n> {
    /// The dialect whose rules hold.
    pub dialect: Dialect,
    /// How many bytes a line may have, those of the newlines within its strings too, but without the one that ends it.
    /// `usize::MAX` is no limit.
    pub limit: usize,
    /// What the fault lines name.
    pub numbering: Numbering,
    /// Whether a carriage return at the end of a piece is no byte of its line, as of lines that end with a carriage return and a newline: it
    /// is not read, and does not go out with the line. It counts for the limit, and refused pieces go out with it.
    pub drops_returns: bool,
    /// How lines go out.
    pub lines: LineForm,
    /// To which servers each line that goes out is portable, if it is to be: a line that is not, as it would go out, is refused.
    pub portable: Option<Portable>,
    /// Whether the first type of each field stays: then a line that would go out, and gives a field another type, is refused, and so is one
    /// with a new field beyond the limit. A refused line gives no field a type.
    pub types: Option<StrictTypes>,
    /// With which time each line goes out, if the times of lines are looked at: else each goes out with its own, and one without a time has none.
    pub times: Option<Times>,
    /// The number of the first item, or of the first line, that fault lines name: 2,001 if the input comes after 2,000 others. 0 is
    /// taken as 1.
    pub first: usize,
    /// How fault lines are told.
    pub faults: Faults,
    /// How many faults are told at most, if not all are: the others are counted, and go out as refused, but are not told.
    pub max_faults: Option<usize>,
    /// Whether each piece that is refused goes out too, to a writer of its own: of one that is too long its first bytes, as many as
    /// the limit.
    pub puts_refused: bool,
    /// Whether it is counted for which kind of fault each item is refused.
    pub counts_kinds: bool,
    /// The name of the input, if its faults are to name it: by `Faults::OneLine` before a fault line, as in `a.lp: item 7: ..`, and by
    /// `Faults::Json` as the first member of an object, as in `{"file":"a.lp","item":7,..`. Raw fault lines name none.
    pub file: Option<&'n str>,
    /// Where the input begins in its file, from whose start objects count `offset`: 0 unless it is a part of the file.
    pub first_offset: usize,
}

impl<'n> Default for Settings<'n> {
    fn default() -> Self
        ensures { result ≡ record {
          dialect = Dialect.Crate;
          limit = usize.MAX;
          numbering = Numbering.Items;
          drops_returns = false;
          lines = LineForm.Rebuilt;
          portable = None;
          types = None;
          times = None;
          first = 1;
          faults = Faults.Raw;
          max_faults = None;
          puts_refused = false;
          counts_kinds = false;
          file = None;
          first_offset = 0;
        } }
    {
        Settings {
            dialect: Dialect::Crate,
            limit: usize::MAX,
            numbering: Numbering::Items,
            drops_returns: false,
            lines: LineForm::Rebuilt,
            portable: None,
            types: None,
            times: None,
            first: 1,
            faults: Faults::Raw,
            max_faults: None,
            puts_refused: false,
            counts_kinds: false,
            file: None,
            first_offset: 0,
        }
    }
}
