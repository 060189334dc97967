//! How fault lines are told, and each on one line.
//!
//! A fault line is added as it is, and most are on one line then.
ghost use Rattle.std.specs.Prelude.{◌≡◌, ◌<◌, ◌++◌, ◌∷◌, [], string_bytes, OnOk};
ghost use Rattle.influxdb_line_protocol.specs.format.Bytes.{newline};
ghost use Rattle.lp_faults.specs.FaultsTold.{fault_text, file_before};
ghost use Rattle.lp_faults.specs.Refusals.{wrong_of};
ghost use Rattle.lp_escapes.specs.Told.{on_one_line};

use crate::refusals::Refusal;
use lp_escapes::one_line::{put_number, tell_bytes, tell_from};
use std::alloc::AllocError;

/// Where an item is.
#[derive(Clone, Copy)]
pub struct Place<'n> {
    /// The name of its file, if faults name it.
    pub file: Option<&'n str>,
    /// Its number.
    pub number: usize,
    /// How many items were refused before it.
    pub refused: usize,
    /// The line of the input on which its piece begins, if fault lines name lines.
    pub line: Option<usize>,
    /// How many bytes come before its piece.
    pub offset: usize,
}

// Adds the fault line of an item that is refused, without its newline.
fn put_fault_text(
    faults: &mut String,
    place: Place<'_>,
    refusal: &Refusal<'_>,
) -> Result<(), AllocError>
    ensures { OnOk result (string_bytes faults.new
        ≡ string_bytes faults.old ++ fault_text place.entry (wrong_of refusal.now)) }
{
    match place.line {
        None => {
            faults.push_str("item ")?;
            put_number(faults, place.number)?;
        }
        Some(line) => {
            faults.push_str("line ")?;
            put_number(faults, line)?;
        }
    }
    faults.push_str(": ")?;
    write!(faults, "{refusal}")
}

/// Adds the fault line of an item that is refused.
pub fn put_fault_line(
    faults: &mut String,
    place: Place<'_>,
    refusal: &Refusal<'_>,
) -> Result<(), AllocError>
    ensures { OnOk result (string_bytes faults.new
        ≡ string_bytes faults.old ++ (fault_text place.entry (wrong_of refusal.now) ++ newline ∷ [])) }
{
    put_fault_text(faults, place, refusal)?;
    faults.push_str("\n")
}

// Adds what comes before a fault line that is told on one line: the name of the file, if one is named.
fn put_file(faults: &mut String, file: Option<&str>) -> Result<(), AllocError>
    ensures { OnOk result (string_bytes faults.new ≡ string_bytes faults.old ++ file_before file.entry) }
{
    let Some(name) = file else {
        return Ok(());
    };
    tell_bytes(faults, name.as_bytes())?;
    faults.push_str(": ")
}

/// Adds that fault line on one line, after the name of its file.
pub fn put_on_one_line(
    faults: &mut String,
    place: Place<'_>,
    refusal: &Refusal<'_>,
) -> Result<(), AllocError>
    ensures { OnOk result (string_bytes faults.new ≡ string_bytes faults.old
        ++ (file_before place.entry.file ++ on_one_line (fault_text place.entry (wrong_of refusal.now)) ++ newline ∷ [])) }
{
    put_file(faults, place.file)?;
    let from = faults.len();
    put_fault_text(faults, place, refusal)?;
    tell_from(faults, from)?;
    faults.push_str("\n")
}

// Adds on one line what is wrong with an item.
pub(crate) fn put_wrong_on_one_line(
    faults: &mut String,
    refusal: &Refusal<'_>,
) -> Result<(), AllocError>
    ensures { OnOk result (string_bytes faults.new ≡ string_bytes faults.old ++ on_one_line (wrong_of refusal.now)) }
{
    let from = faults.len();
    write!(faults, "{refusal}")?;
    tell_from(faults, from)
}
