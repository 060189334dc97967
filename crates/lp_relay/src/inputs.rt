//! Several inputs, which are relayed one after another, each by itself.
//!
//! One reader reads them all, and a [`NextInput`] turns it to the next one. So what is put before a reader, as a count of its bytes, is
//! put there once.
ghost use Rattle.std.specs.Prelude.{◌≡◌, Option, Some, List, ℕ, map, OnOk};
ghost use Rattle.lp_rebuild.specs.Devices.{CountsFailure};
ghost use Rattle.lp_conditions.specs.FieldTypes.{types_of};
ghost use Rattle.lp_relay.specs.Inputs.{AddsUp, Opens, RelaysInputs, RelaysNext, inputs_told, settings_after, settings_for};

use crate::outputs::ThreeWriters;
use crate::relaying::relay_on;
use influxdb_line_protocol::laws;
use lp_conditions::field_types::KnownTypes;
use lp_conditions::kinds::Relayed;
use lp_conditions::settings::{Numbering, Settings};
use lp_escapes::forms::Faults;
use lp_rebuild::{DeviceFault, RunFault, Source};
use std::alloc::Global;

/// What turns a reader to one input after another.
///
/// For contracts it has one member, `left`: the texts of the inputs that are left, in order, if they are known.
pub trait NextInput<R: Source> {
    ghost left: { Self → Option (List (List ℕ)) };

    /// Turns `reader` to the next input, which has this name: what the reader has left is the text of that then, and no bytes if
    /// no input is left.
    ///
    /// # Errors
    ///
    /// A fault of the reader: the input cannot be opened.
    fn open(&mut self, reader: &mut R, name: &str) -> Result<(), DeviceFault>
        ensures opened { OnOk result (Opens (left self.old) (left self.new) (R.bytes reader.new)) }
        ensures counts { CountsFailure result (R.failures reader.old) (R.failures reader.new) };
}

/// Inputs that are read one after another.
#[derive(Drop)]
pub struct Inputs<R, N> {
    /// What reads the input that is open.
    pub reader: R,
    /// What turns the reader to the next one.
    pub next: N,
}

/// The texts of a slice, one after another, whatever their names are. It never fails.
impl<'a> NextInput<&'a [u8]> for &'a [&'a [u8]] {
    ghost left = { λ texts. Some (map (λ text. text.now) texts.now) };

    fn open(&mut self, reader: &mut &'a [u8], _name: &str) -> Result<(), DeviceFault> {
        let texts: &'a [&'a [u8]] = *self;
        if texts.is_empty() {
            *reader = &[];
            return Ok(());
        }
        *reader = texts[0];
        *self = &texts[1..];
        Ok(())
    }
}

// The settings for an input that comes after items that were counted so: its items are counted on, its lines from 1 on, and of its faults
// fewer are told.
fn settings_after<'n>(settings: Settings<'n>, so_far: Relayed) -> Settings<'n>
    ensures { result ≡ settings_after settings.entry so_far }
{
    let first = match settings.numbering {
        Numbering::Items => {
            let items = so_far.carried.saturating_add(so_far.refused);
            settings.first.max(1).saturating_add(items)
        }
        Numbering::Lines => 1,
    };
    let faults = match settings.faults {
        Faults::Json { has_piece, .. } => Faults::Json {
            first_line: 1,
            has_piece,
        },
        Faults::Editor { .. } => Faults::Editor { first_line: 1 },
        faults => faults,
    };
    let max_faults = match settings.max_faults {
        Some(most) => Some(most.saturating_sub(so_far.refused)),
        None => None,
    };
    Settings {
        first,
        faults,
        max_faults,
        first_offset: 0,
        ..settings
    }
}

// The settings for the input of this name: of several inputs faults name theirs.
fn settings_for<'n>(several: bool, name: &'n str, settings: Settings<'n>) -> Settings<'n>
    ensures { result ≡ settings_for several name.entry settings.entry }
{
    let file = if several { Some(name) } else { settings.file };
    Settings { file, ..settings }
}

// The counts of an input and of what came before it. A sum that no `usize` holds becomes `usize::MAX`.
pub(crate) fn sum_of(so_far: Relayed, counts: Relayed) -> Relayed
    ensures { AddsUp so_far counts result }
{
    let kinds = match (so_far.kinds, counts.kinds) {
        (Some(mut kinds), Some(more)) => {
            kinds.add(&more);
            Some(kinds)
        }
        (_, more) => more,
    };
    Relayed {
        carried: so_far.carried.saturating_add(counts.carried),
        refused: so_far.refused.saturating_add(counts.refused),
        kinds,
    }
}

// Relays the next input, which has this name, after others, of which these types are known.
fn relay_next<R: Source, N: NextInput<R>, O: ThreeWriters>(
    alloc: Global,
    settings: Settings<'_>,
    types: &mut KnownTypes,
    name: &str,
    inputs: &mut Inputs<R, N>,
    outputs: &mut O,
) -> Result<Relayed, RunFault>
    ensures { RelaysNext settings.entry (types_of types.old) (types_of types.new) result
        (inputs_told N.left R.failures inputs.old.next inputs.old.reader)
        (inputs_told N.left R.failures inputs.new.next inputs.new.reader) (O.told outputs.old) (O.told outputs.new) }
{
    laws::pieces_join();
    if inputs.next.open(&mut inputs.reader, name).is_err() {
        return Err(RunFault::Read);
    }
    relay_on(alloc, settings, types, &mut inputs.reader, outputs)
}

/// Relays the inputs of these names, one after another and each by itself, as [`relay`](crate::relay) does, and adds up their counts.
///
/// The first input is relayed by `settings`. Each other one is too, but its items are counted on from those before it, and its lines
/// from 1 on, and `settings.max_faults` holds for all of them. If there are several, `settings.file` is the name of each in turn, so each fault names its input, but not by `Faults::Raw`.
/// A sum that no `usize` holds becomes `usize::MAX`. If `settings.types` says that types stay, those of each input stay for the ones after it.
///
/// # Errors
///
/// After each of them, the inputs before one are written whole, and of that one each writer has a beginning of what was meant for it.
///
/// * `Read` if an input could not be opened or read, and only there.
/// * `OutOfMemory` and `Write` as [`relay`](crate::relay) answers them.
pub fn relay_inputs<'n, R: Source, N: NextInput<R>, O: ThreeWriters>(
    alloc: Global,
    settings: Settings<'n>,
    names: &[&'n str],
    inputs: &mut Inputs<R, N>,
    outputs: &mut O,
) -> Result<Relayed, RunFault>
    ensures { RelaysInputs settings.entry names.entry.now result
        (inputs_told N.left R.failures inputs.old.next inputs.old.reader)
        (inputs_told N.left R.failures inputs.new.next inputs.new.reader) (O.told outputs.old) (O.told outputs.new) }
{
    let several = names.len() > 1;
    let mut total = Relayed {
        carried: 0,
        refused: 0,
        kinds: None,
    };
    let mut types = KnownTypes::none(alloc);
    let mut own = settings;
    for name in names {
        let counts = relay_next(
            alloc,
            settings_for(several, name, own),
            &mut types,
            name,
            inputs,
            outputs,
        )?;
        total = sum_of(total, counts);
        own = settings_after(settings, total);
    }
    Ok(total)
}
