//! Keys of series that stand in the text of rows by offsets, told in the rows.

ghost use Rattle.std.specs.Prelude.{◌≡◌};
ghost use Rattle.std.specs.List.{AllByRecursion, AllZip};
ghost use Rattle.lp_offsets.specs.RowKeys.{IsKeyLen, IsLineOf, TellsKey, TellsSeries};

use crate::enums::Answer;
use crate::offsets::OffsetRow;
use crate::portions::{Portion, no_portion};
use influxdb_line_protocol::{key_of_text, laws};

// The line of a row, if it has one and the text does at its place.
#[inline(always)]
fn line_of<'a>(portion: &mut Portion<'a>, row: &OffsetRow) -> Option<&'a str>
    ensures text { portion.new.bytes.now ≡ portion.old.bytes.now }
    ensures line { IsLineOf portion.old.bytes.now row.now result }
{
    if row.answer != Answer::Line.number() {
        return None;
    }
    let at = row.line_at as usize;
    let end = row.stop_at as usize;
    if end < at || portion.bytes.len() < end {
        return None;
    }
    portion.next_text(at, end - at)
}

// How many bytes at the start of the line of a row are the key of its series, if it begins with that.
#[inline(always)]
fn key_len(portion: &mut Portion<'_>, row: &OffsetRow) -> u64
    ensures text { portion.new.bytes.now ≡ portion.old.bytes.now }
    ensures len { IsKeyLen portion.old.bytes.now row.now result }
{
    let Some(line) = line_of(portion, row) else {
        return 0;
    };
    match key_of_text(line) {
        Some(key) => key.len() as u64,
        None => 0,
    }
}

/// Tells each row how many bytes at the start of its line are the key of its series, as `lp_line_key` puts it out: `key`. It is 0 if the
/// line does not begin with its key, so that `lp_line_key` must be asked, and where the row has no line.
///
/// A line begins with its key if its tags are in the order of their keys, its names are spelled as the builder writes them, and all
/// names are admitted. `text` is the one of which `lp_offsets_block` filled the rows. It asks for no memory, and leaves all else in the
/// rows as it was. A row that was made in another way is safe too: a place that is not in the text, or in a character, gives 0.
///
/// ```text
/// cpu,az=b,host=a usage=1  ->  15
/// cpu,host=a,az=b usage=1  ->  0: the keys are not in order
/// ```
pub fn tell_keys(text: &[u8], rows: &mut [OffsetRow])
    ensures keys { AllZip (TellsKey text.now) rows.old rows.new }
    ensures series { AllByRecursion (TellsSeries text.now) rows.new }
{
    laws::keys_tell_series();
    laws::bases_tell_series();
    let count = rows.len();
    let mut portion = no_portion(text, 0);
    for at in 0..count {
        portion.texts = count - at;
        let len = key_len(&mut portion, &rows[at]);
        rows[at].key = len;
    }
}
