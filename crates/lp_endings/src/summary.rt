//! What a relay tells at its end.
ghost use Rattle.std.specs.Prelude.{Some};
ghost use Rattle.std.specs.Fmt.{DisplaysOnOk};
ghost use Rattle.lp_endings.specs.Summaries.{items_text, kind_members, kinds_from, kinds_text};
ghost use Rattle.lp_conditions.specs.KindCounts.{counts_of};

use lp_conditions::kinds::{KINDS, Kind, KindCounts, Relayed};
use std::fmt;

/// What a relay read, and what came of it, shown as `34 bytes, 4 lines, 3 items: 2 carried, 1 refused: 1 not_utf8`.
#[derive(Clone, Copy)]
pub struct Totals {
    /// How many bytes were read.
    pub bytes: u64,
    /// How many lines were read.
    pub lines: u64,
    /// How many items were carried and refused.
    pub counts: Relayed,
}

// Writes these kinds, each with its count if it has one, and before the first of them a mark.
fn show_kinds<W: fmt::Write>(
    mark: &str,
    kinds: &[Kind],
    counts: &KindCounts,
    f: &mut fmt::Formatter<W>,
) -> fmt::Result
    ensures { DisplaysOnOk W.write_str_gives f.old result (Some (kinds_from mark.now kinds.now (counts_of counts.now))) f.new }
{
    let Some((kind, kinds)) = kinds.split_first() else {
        return Ok(());
    };
    let count = counts.of(*kind);
    if count == 0 {
        return show_kinds(mark, kinds, counts, f);
    }
    let name = kind.name();
    write!(f, "{mark}{count} {name}")?;
    show_kinds(", ", kinds, counts, f)
}

// Writes how many items were refused for each kind of fault, if that was counted, as `: 1 not_utf8, 2 too_long`.
fn show_counts<W: fmt::Write>(counts: &Option<KindCounts>, f: &mut fmt::Formatter<W>) -> fmt::Result
    ensures { DisplaysOnOk W.write_str_gives f.old result (Some (kinds_text counts.now)) f.new }
{
    match counts {
        Some(counts) => show_kinds(": ", KINDS, counts, f),
        None => Ok(()),
    }
}

// Writes how many items there were, as `3 items: 1 carried, 2 refused: 1 not_utf8, 1 too_long`.
fn show_items<W: fmt::Write>(counts: &Relayed, f: &mut fmt::Formatter<W>) -> fmt::Result
    ensures { DisplaysOnOk W.write_str_gives f.old result (Some (items_text counts.now)) f.new }
{
    let carried = counts.carried;
    let refused = counts.refused;
    let items = carried as u128 + refused as u128;
    write!(f, "{items} items: {carried} carried, {refused} refused")?;
    show_counts(&counts.kinds, f)
}

impl fmt::Display for Totals {
    ghost use Rattle.std.specs.Prelude.{Some};
    ghost use Rattle.lp_endings.specs.Summaries.{summary_text};

    ghost output = { λ totals. Some (summary_text totals) };

    fn fmt<W: fmt::Write>(&self, f: &mut fmt::Formatter<W>) -> fmt::Result {
        let bytes = self.bytes;
        let lines = self.lines;
        write!(f, "{bytes} bytes, {lines} lines, ")?;
        show_items(&self.counts, f)
    }
}

// Writes these kinds as members, each with its count if it has one, and before the first of them a mark.
fn show_kind_members<W: fmt::Write>(
    mark: &str,
    kinds: &[Kind],
    counts: &KindCounts,
    f: &mut fmt::Formatter<W>,
) -> fmt::Result
    ensures { DisplaysOnOk W.write_str_gives f.old result (Some (kind_members mark.now kinds.now (counts_of counts.now))) f.new }
{
    let Some((kind, kinds)) = kinds.split_first() else {
        return Ok(());
    };
    let of_kind = counts.of(*kind);
    if of_kind == 0 {
        return show_kind_members(mark, kinds, counts, f);
    }
    let name = kind.name();
    write!(f, "{mark}\"{name}\":{of_kind}")?;
    show_kind_members(",", kinds, counts, f)
}

/// What a relay read, and what came of it, shown as an object, which no clause tells:
/// `{"summary":{"bytes":34,"lines":4,"items":3,"carried":2,"refused":1,"kinds":{"not_utf8":1}}}`.
#[derive(Clone, Copy)]
pub struct AsObject(pub Totals);

impl fmt::Display for AsObject {
    fn fmt<W: fmt::Write>(&self, f: &mut fmt::Formatter<W>) -> fmt::Result {
        let (bytes, lines) = (self.0.bytes, self.0.lines);
        let (carried, refused) = (self.0.counts.carried, self.0.counts.refused);
        let items = carried as u128 + refused as u128;
        write!(f, "{{\"summary\":{{\"bytes\":{bytes},\"lines\":{lines}")?;
        write!(
            f,
            ",\"items\":{items},\"carried\":{carried},\"refused\":{refused}"
        )?;
        if let Some(counts) = &self.0.counts.kinds {
            f.write_str(",\"kinds\":{")?;
            show_kind_members("", KINDS, counts, f)?;
            f.write_str("}")?;
        }
        f.write_str("}}")
    }
}
