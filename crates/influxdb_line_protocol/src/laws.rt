//! Laws of the definitions. Each law is the contract of a function that does nothing: call the function where your proof needs
//! the law.

ghost use Rattle.lp_format.specs.laws.Laws.{AdmittedBatchesReadBack, OtherBatchesDoNotReadBack, ItemsHaveReadableNames};
ghost use Rattle.lp_format.specs.laws.Laws.{OtherPointsEndWithBackslash, NamesAreParsed, ParsedNamesAreInLines, StrictFieldsEnd};
ghost use Rattle.lp_format.specs.laws.Laws.{PiecesExist, PiecesAreUnique, PiecesAreTheText, PiecesJoin, AnswersJoin, CommentTextIsIgnored};
ghost use Rattle.lp_format.specs.laws.Laws.{LinesArePieces, LinesAreReadStrictly, LinesJoin, EachLineIsReadAlone, OtherLinesStay};
ghost use Rattle.lp_format.specs.laws.Laws.{StringsAreOnOneLine};
ghost use Rattle.lp_format.specs.laws.PointsOfLines.{LinesArePoints, LinesThatStayAreWritten, WrittenLinesStay};
ghost use Rattle.influxdb_line_protocol.specs.laws.AdmittedLines.{AdmittedLinesAddPoints, EndedLinesAreClosed, EmptyTextIsClosed};
ghost use Rattle.influxdb_line_protocol.specs.laws.GivenEvents.{AllEventsCome, EventsSoFar};
ghost use Rattle.influxdb_line_protocol.specs.laws.GivenItems.{ItemsAreOfPieces, ItemsAreAnswers, ItemsSoFar, GivenLinesWereRead};
ghost use Rattle.lp_lines.specs.laws.BaseLaws.{ClearSeriesHaveBases, SameSeriesHaveOneBase, TagsByKeyAreSorted, OneBaseIsOneSeries};
ghost use Rattle.lp_lines.specs.laws.BaseLaws.{PlainSeriesAreClear, ReadSeriesAreParsed, SafeBasesTellSeries, SameSeriesAreSafeAlike};
ghost use Rattle.lp_lines.specs.laws.KeyLaws.{KeysReadBack, KeysTellSeries};
ghost use Rattle.lp_written.specs.laws.WrittenKeyLaws.{KeysStandInTexts, LinesBeginWithKeys};
ghost use Rattle.lp_format.specs.laws.Meanings.{LogicalIsWithoutEscapes, TheMostIsRead, TheNextHasTheFault, TheFirstMisses};
ghost use Rattle.lp_format.specs.laws.Meanings.{CountIsOfTheMost, FloatFrontIsFloat, FloatFrontIsLongest, WordFrontIsWord};
ghost use Rattle.lp_format.specs.laws.Meanings.{WordFrontIsLongest, TrimmedIsAfterBlanks, TrimmedFrontIsLongest};
ghost use Rattle.lp_format.specs.laws.Meanings.{NameEndsBeforeStop, BodyEndsBeforeQuote};
ghost use Rattle.lp_format.specs.laws.MeaningsOfAnswers.{AnswerIsByRows};
ghost use Rattle.influxdb_line_protocol.specs.laws.StopLaws.{LinesAreReadWhole, StopsAreByRows, StopsAreInText};
ghost use Rattle.influxdb_line_protocol.specs.laws.StreamLaws.{FrontsKeepTheirCuts, TakenIsFirst, RunsGivePieces, RunsEnd};
ghost use Rattle.influxdb_line_protocol.specs.laws.StreamLaws.{StreamsAnswerAll, StreamsGiveAnswers, Utf8ByPieces};
ghost use Rattle.lp_portable.specs.laws.PortableLaws.{LinesAreAnsweredAlike, VictoriaLinesAreReadAlike, InfluxNamesMeanTheSame};
ghost use Rattle.lp_portable.specs.laws.PortableLaws.{PortableLinesAreReadAlike, EscapedBytesAreHeld, BareBytesAreHeld};
ghost use Rattle.lp_portable.specs.laws.PortableLaws.{LinesAreSpelled, SpellingsAreUnique, SpellingsAreRead};
ghost use Rattle.lp_format.specs.format.Lines.{tag, field};

/// A batch of lines that are built from points reads back as these points if all points are admitted, and otherwise does not.
///
/// If there is enough memory and room, a batch built from points, followed by any text, parses to exactly these points in order
/// and then to the items of that text alone, if and only if every name is admitted. In the newline-delimited dialect, no string
/// may hold a newline either. If a point is not admitted, the batch parses to other items. For example, the string `a b` reads
/// back in the newline-delimited dialect, and the string `a⏎b` does not.
///
/// No line has some of these names, so no text parses to a point with such a name: an empty name, a name that ends in a
/// backslash, a measurement that begins with `#`, a name with a tab or a newline that does not come directly after a backslash,
/// and a measurement with a NUL that does not. If the first point that is not admitted has none of these names, its line is
/// answered `EndsWithBackslash` in the place of the point.
pub fn batch_reads_back()
    ensures admitted { AdmittedBatchesReadBack }
    ensures refused { OtherBatchesDoNotReadBack }
    ensures unreadable { ItemsHaveReadableNames }
    ensures in_place { OtherPointsEndWithBackslash }
{}

/// Lines of points that are appended to closed lines add these points and no other item, in each dialect in which all points are
/// admitted, and whatever text comes after them.
///
/// The items are first the items of the closed lines, then these points in order, and then the items of the text. An empty text
/// is closed lines. A text with a newline after it is closed lines if the newline may end the last piece of the text. For
/// example, `m f=1i⏎` is closed lines. `m f=1i` is not: if `m` comes after it, the line becomes a fault.
///
/// Each call of [`write_admitted_line`](crate::write_admitted_line) appends the line of one admitted point or nothing. After any
/// number of calls, a buffer that held closed lines therefore parses to its old items and then to the points that were written.
pub fn admitted_lines_read_back()
    ensures points { AdmittedLinesAddPoints }
    ensures empty { EmptyTextIsClosed }
    ensures ended { EndedLinesAreClosed }
{}

/// A line that was read has names that keep certain rules, and each name that keeps them is a name of some line.
///
/// No name is empty or ends in a backslash, and no measurement begins with `#`. A tab or a newline in a name comes directly after
/// a backslash, as does a NUL in a measurement. Each text that keeps these rules for a kind of name is a name of that kind in
/// some line. The text of that line is UTF-8 if the name is. In the newline-delimited dialect, the name must also hold no
/// newline. In the strict dialect, the last field of a line is followed by a space or by nothing: `m f=1i,` is not a line there.
pub fn parsed_names()
    ensures all { NamesAreParsed }
    ensures each { ParsedNamesAreInLines }
    ensures fields_end { StrictFieldsEnd }
{}

/// Each line that is read gives a point: the line has at least one field, its numbers and its timestamp are in the range of their
/// types, and its floats are literals.
pub fn lines_are_points()
    ensures { LinesArePoints }
{}

/// A text for which [`builder::is_as_written`](crate::builder::is_as_written) is true is read as one line, and written again byte
/// for byte.
///
/// If the text is not cut, the rules of each dialect read it as one line. The builder admits all names of this line, and writes
/// its point as the same text and a newline. The builder writes no other text for the line that is read from it, if its names are
/// admitted. For example, `m f=1i` is written again as it is. `m f=01i` is read, and written as `m f=1i`.
///
/// The law does not say how a text is cut into pieces. In the newline-delimited dialect, a text that holds a newline is more than
/// one piece: the builder writes `m a="x⏎y"`, but in that dialect this text is two pieces, and each of them has a fault.
#[tactic(auto, using(lp_written::proofs::lemmas::points::LinesArePoints::stay_laws))]
pub fn written_lines_stay()
    ensures stay { WrittenLinesStay }
    ensures written { LinesThatStayAreWritten }
{}

/// An iterator of [`parse_lines`](crate::parse_lines) gives one item for each piece that holds more than blanks and comments, in
/// the order of the pieces.
///
/// Each item is the answer for its piece, or `OutOfMemory` in the place of the answer. A light line is never answered
/// `OutOfMemory`. After any number of calls of `next`, the items that came are the items of the pieces before the pieces that are
/// left. Each line among them was read: there is a trimmed text for which this line is the answer.
pub fn items_are_answers()
    ensures pieces { ItemsAreOfPieces }
    ensures answers { ItemsAreAnswers }
    ensures so_far { ItemsSoFar }
    ensures read { GivenLinesWereRead }
{}

/// An iterator of [`parse_events`](crate::parse_events) gives all events that are left, in order, before it gives `None`.
///
/// From `parse_events` on, these are the events of the text, as the contract of `parse_events` says. After any number of calls of
/// `next`, the events that came, followed by the events that are left, are the events that were left at the start. For example,
/// `m f=1i` has three events: a measurement, a field and an end.
#[tactic(auto, using(crate::proofs::lemmas::laws::GivenItems::all_come, crate::proofs::lemmas::laws::GivenItems::so_far))]
pub fn all_events_come()
    ensures so_far { EventsSoFar }
    ensures all { AllEventsCome }
{}

/// Each text has exactly one list of pieces, and the pieces with a newline between each two are the text.
///
/// If a newline stands between two texts, the pieces of the whole are the pieces of the first text and then those of the second
/// text, exactly if the newline may end the last piece of the first text. If so, the answers are joined in the same way. For
/// example, `m f=1i⏎m f=2i` has two pieces, and `m f="a⏎b"` has one piece, because a quote is open at the newline.
///
/// In the strict dialect, other bytes after the `#` of a comment change no other piece and no item.
#[tactic(auto, using(lp_format::proofs::lemmas::split::SplitPieces::piece_laws))]
pub fn pieces_join()
    ensures some { PiecesExist }
    ensures one { PiecesAreUnique }
    ensures text { PiecesAreTheText }
    ensures join { PiecesJoin }
    ensures items { AnswersJoin }
    ensures comment { CommentTextIsIgnored }
{}

/// The first cut of a text is also the first cut of each longer text that begins with it.
pub fn fronts_keep_their_cuts()
    ensures { FrontsKeepTheirCuts }
{}

/// A stream gives the pieces of all that is pushed to it, however the text is divided into parts.
///
/// Whatever text is pushed later, the pieces of the whole are the pieces that the stream gave, followed by the pieces of what the
/// stream holds and of the later text. If nothing more is pushed, what the stream holds is the last piece. The answers for the
/// whole are the answers for each piece alone, in order. For example, a stream to which `m f=1i⏎m f` was pushed gives `m f=1i`.
#[tactic(auto, using(crate::proofs::lemmas::stream::StreamRuns::stream_laws))]
pub fn runs_give_pieces()
    ensures taken { TakenIsFirst }
    ensures runs { RunsGivePieces }
    ensures end { RunsEnd }
    ensures answers { StreamsGiveAnswers }
    ensures all_answers { StreamsAnswerAll }
{}

/// In the newline-delimited dialect, each line is read as if it were alone, whatever the other lines hold.
///
/// The pieces of a text are what its newlines divide, and each piece is read by the strict rules. The pieces of two texts with a
/// newline between them are the pieces of the first text and then those of the second text, even if a quote is open. The answers
/// are the answers for each line alone. If one line is replaced by any bytes without a newline, the answer for each other line
/// stays. No string of a line that is read holds a newline. For example, `m f="a⏎m f=2i` has a fault and a line.
pub fn lines_are_read_alone()
    ensures pieces { LinesArePieces }
    ensures strict { LinesAreReadStrictly }
    ensures join { LinesJoin }
    ensures alone { EachLineIsReadAlone }
    ensures others { OtherLinesStay }
    ensures strings { StringsAreOnOneLine }
{}

/// Two texts with a newline between them are UTF-8 exactly if both texts are UTF-8.
pub fn utf8_by_pieces()
    ensures { Utf8ByPieces }
{}

/// Each text has exactly one logical text, for any set of bytes that a backslash may escape. A backslash is dropped if one of
/// these bytes follows it, and every other byte stays. For example, if a backslash escapes a comma, the logical text of `a\,b` is
/// `a,b`.
#[tactic(auto, using(lp_format::proofs::lemmas::names::NameLemmas::logical_is))]
pub fn logical_text_is_unique()
    ensures { LogicalIsWithoutEscapes }
{}

/// As many tags are read as stand at the start of a text, with commas between them. The law says the same of fields.
///
/// If the next tag after them has a fault, the whole set has this fault. If the first tag cannot be read, no set is read. The
/// number of tags is counted in the same way, even if the next tag has a fault. For example, two tags are read of `a=1,b=2 f=1i`.
pub fn most_are_read()
    ensures tags { TheMostIsRead tag }
    ensures tag_fault { TheNextHasTheFault tag }
    ensures no_tag { TheFirstMisses tag }
    ensures tag_count { CountIsOfTheMost tag }
    ensures fields { TheMostIsRead field }
    ensures field_fault { TheNextHasTheFault field }
    ensures no_field { TheFirstMisses field }
    ensures field_count { CountIsOfTheMost field }
{}

/// Each trimmed text is answered by the first row of the table of answers that holds for it, and by no other row. In addition to
/// its own condition, each row says that the parts before it were read. For example, `,t=x f=1i` is answered
/// `MeasurementValueInvalid`.
#[tactic(auto, using(lp_lines::proofs::lemmas::meanings::AnswerMeaning::answer_is_by_rows))]
pub fn answers_are_by_rows()
    ensures { AnswerIsByRows }
{}

/// Reading stops at the place, and in the part of the line, that the row of the answer names. What is left of the text there is
/// an end of the text. Nothing is left if the text is read as a line. For example, reading of `,t=x f=1i` stops in the
/// measurement.
#[tactic(auto, using(crate::proofs::lemmas::laws::StopEnds::stop_laws))]
pub fn stops_are_by_rows()
    ensures rows { StopsAreByRows }
    ensures end { StopsAreInText }
    ensures whole { LinesAreReadWhole }
{}

/// Trimming a piece drops its longest front of blanks and comments: of spaces, tabs and newlines, and of each `#` with the rest
/// of its line. What follows this front is left. For example, trimming drops `#c⏎` and a space before `m f=1i`.
#[tactic(auto, using(crate::proofs::lemmas::laws::WordsAndKeys::word_laws))]
pub fn longest_blank_front_is_trimmed()
    ensures blanks { TrimmedIsAfterBlanks }
    ensures longest { TrimmedFrontIsLongest }
{}

/// A name ends before the first byte that ends a name of its kind and that no backslash escapes. The name is the whole text if
/// there is no such byte. In the same way, the body of a string ends before the first quote that no backslash escapes. For
/// example, `m` ends before the comma of `m,t=x`.
#[tactic(auto, using(lp_split::proofs::lemmas::split::ScanLemmas::before_stop))]
pub fn first_bare_stop_ends()
    ensures name { NameEndsBeforeStop }
    ensures body { BodyEndsBeforeQuote }
{}

/// A float is read by its longest front: the text that is taken is a literal, and no longer front of the text is a literal. For
/// example, of `1.` only `1` is taken.
pub fn longest_float_is_read()
    ensures literal { FloatFrontIsFloat }
    ensures longest { FloatFrontIsLongest }
{}

/// A boolean is read by its longest word: the text that is taken is one of the words, and no longer front of the text is one of
/// them. For example, of `tru,` the word `t` is taken.
#[tactic(auto, using(crate::proofs::lemmas::laws::WordsAndKeys::word_laws))]
pub fn longest_word_is_read()
    ensures word { WordFrontIsWord }
    ensures longest { WordFrontIsLongest }
{}

/// If no key repeats, the list of tags by their keys holds the same tags in the only order in which the keys rise. For example,
/// the tags `b=2,a=1` become `a=1` and `b=2`.
pub fn tags_by_key_are_sorted()
    ensures { TagsByKeyAreSorted }
{}

/// Two series that were parsed have the same base exactly if they are the same series, under the conditions that follow.
///
/// If a parsed series repeats no key, and spells no name as one known escape alone, it has a base. Two such series have equal
/// bases if their measurements and their sets of tags are equal. If, in addition, no measurement and no tag value holds a comma,
/// and no tag key holds an `=`, their bases are equal only if their measurements and their sets of tags are. A raw text without a
/// backslash meets all conditions on names. The series of each line that is read is a parsed series: it is the front of the line
/// that was read as measurement and tags, and this front alone reads to the same measurement and tags.
///
/// If two parsed series repeat no key, and [`Series::is_base_safe`](crate::Series::is_base_safe) is true of both, their bases are
/// equal exactly if their measurements and their sets of tags are. `is_base_safe` has the same result for all spellings of a
/// series.
///
/// For example, `m,a=1,b=2` and `m,b=2,a=1` have the same base.
pub fn bases_tell_series()
    ensures exist { ClearSeriesHaveBases }
    ensures same { SameSeriesHaveOneBase }
    ensures only { OneBaseIsOneSeries }
    ensures plain { PlainSeriesAreClear }
    ensures read { ReadSeriesAreParsed }
    ensures safe { SafeBasesTellSeries }
    ensures alike { SameSeriesAreSafeAlike }
{}

/// Two series have the same [`Series::key`](crate::Series::key) exactly if they have the same measurement and, for each tag key,
/// the same values in the same order.
///
/// This holds whatever the names are, even names that no line has. If all names are admitted, the key reads back as the series.
/// The line of a point whose tags are in the order of their keys begins with the key of its series. If
/// [`key_of_text`](crate::key_of_text) returns a key, it is the key of the series that is read from the text.
///
/// For example, `m,a=1,b=2` and `m,b=2,a=1` have the same key. `m,a=1,a=2` and `m,a=2,a=1` have two keys.
pub fn keys_tell_series()
    ensures tell { KeysTellSeries }
    ensures read { KeysReadBack }
    ensures begin { LinesBeginWithKeys }
    ensures stand { KeysStandInTexts }
{}

/// A line that is portable to all servers holds no newline, is the only answer for its text in each dialect, and has names that
/// mean the same to other readers.
///
/// These other readers are readers for which a backslash escapes other bytes than it does here. In any name, they may treat a
/// backslash before a backslash in another way; in a measurement and a field key, a backslash before a quote; and in a
/// measurement, a backslash before an equals sign. They may also take each backslash by itself, even after another backslash.
///
/// A line that is portable to VictoriaMetrics alone holds no newline and has the same answer in each dialect. A line that is
/// portable to InfluxDB 1.x alone has names that mean the same to these readers. A line that the strict reader reads has the same
/// answer in the dialect of the crate. The converse is false: the crate's dialect reads `m a=1i,`, which is a fault in the strict
/// dialect.
pub fn portable_lines_are_read_alike()
    ensures dialects { LinesAreAnsweredAlike }
    ensures victoria { VictoriaLinesAreReadAlike }
    ensures influx { InfluxNamesMeanTheSame }
    ensures all { PortableLinesAreReadAlike }
{}

/// Each line that the strict reader reads has exactly one spelling of its names. The logical texts of the spelled names are the
/// names that were read, in order.
///
/// Take readers for which a backslash escapes other bytes than it does here, where the backslash itself may be such a byte. A
/// name means the same to all these readers exactly if it holds none of these bytes escaped. The law also says which bytes of a
/// name are bare. For example, the tag value `x\,y` means the same to such readers, and `x\\y` does not.
pub fn spellings_are_read()
    ensures some { LinesAreSpelled }
    ensures one { SpellingsAreUnique }
    ensures read { SpellingsAreRead }
    ensures escaped { EscapedBytesAreHeld }
    ensures bare { BareBytesAreHeld }
{}
