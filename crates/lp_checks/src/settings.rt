//! Settings of a relay that the caller spells as letters. Without letters they are the default ones.
//!
//! Digits after a letter are its number.
//!
//! | letter | setting |
//! |---|---|
//! | `s` `n` | the strict dialect, or the newline-delimited one |
//! | `v` `c` `y` | lines go out verbatim, or if they are canonical, or after their keys |
//! | `d` `e` | lines of a shard go out verbatim: `d` has the number of shards, and an `e` after it that of the shard, which else is 0 |
//! | `h` | a carriage return at the end of a piece is no byte of its line |
//! | `l` | fault lines name lines |
//! | `f` | the number of the first item or line |
//! | `b` | so many bytes a line may have |
//! | `o` `g` | faults are told on one line, or for editors |
//! | `j` `p` | faults are told as objects of JSON, without their pieces or with them |
//! | `m` | so many faults are told at most |
//! | `r` | refused pieces go out |
//! | `k` | kinds of faults are counted |
//! | `t` | the types of fields stay, of at most so many, or of four |
//!
//! `g`, `j` and `p` have the number of the first line, which else is 1.

use influxdb_line_protocol::Dialect;
use lp_relay::{Faults, LineForm, Numbering, Settings, Shard, StrictTypes};

// Takes a letter and its number.
fn take(settings: &mut Settings<'static>, letter: u8, number: Option<usize>) {
    let first = number.unwrap_or(1);
    let count = number.unwrap_or(0) as u64;
    match letter {
        b's' => settings.dialect = Dialect::Strict,
        b'n' => settings.dialect = Dialect::NewlineDelimited,
        b'v' => settings.lines = LineForm::Verbatim,
        b'c' => settings.lines = LineForm::Canonical,
        b'y' => settings.lines = LineForm::Keyed,
        b'd' => settings.lines = LineForm::OfShard(Shard { number: 0, count }),
        b'e' => {
            if let LineForm::OfShard(shard) = &mut settings.lines {
                shard.number = count;
            }
        }
        b'h' => settings.drops_returns = true,
        b'l' => settings.numbering = Numbering::Lines,
        b'f' => settings.first = first,
        b'b' => settings.limit = number.unwrap_or(usize::MAX),
        b'o' => settings.faults = Faults::OneLine,
        b'g' => settings.faults = Faults::Editor { first_line: first },
        b'j' | b'p' => {
            let has_piece = letter == b'p';
            settings.faults = Faults::Json {
                first_line: first,
                has_piece,
            };
        }
        b'm' => settings.max_faults = number,
        b'r' => settings.puts_refused = true,
        b'k' => settings.counts_kinds = true,
        b't' => {
            let max_fields = number.unwrap_or(4);
            settings.types = Some(StrictTypes { max_fields });
        }
        _ => {}
    }
}

/// The settings that these letters spell. Other letters spell nothing.
pub fn spelled(letters: &[u8]) -> Settings<'static> {
    let mut settings = Settings {
        limit: usize::MAX,
        ..Settings::default()
    };
    let mut letter = b' ';
    let mut number: Option<usize> = None;
    for byte in letters {
        match *byte {
            b'0'..=b'9' => {
                let digit = (*byte - b'0') as usize;
                let tens = number.unwrap_or(0).saturating_mul(10);
                number = Some(tens.saturating_add(digit));
            }
            _ => {
                letter = *byte;
                number = None;
            }
        }
        take(&mut settings, letter, number);
    }
    settings
}
