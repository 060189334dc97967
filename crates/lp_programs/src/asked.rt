//! What the words ask for, done.
ghost use Rattle.std.specs.Prelude.{◌≡◌, None, IfOk, IfSome, OnOk};
ghost use Rattle.std.specs.Io.KnownBytes.{Consumes, IsAtEnd, prepend_known};
ghost use Rattle.std.specs.Result.{result_map_both};
ghost use Rattle.influxdb_line_protocol.specs.code.Rules.{rules_of};
ghost use Rattle.lp_cuts.specs.Cuts.{ArePartEnds};
ghost use Rattle.lp_relay.specs.Inputs.{RelaysInputs, inputs_of, inputs_told};
ghost use Rattle.lp_rebuild.specs.Running.{CountsReadFault, reader_told};
ghost use Rattle.lp_relay.specs.Reads.{RelaysNow};
ghost use Rattle.lp_inputs.specs.Counted.{totals_of};
ghost use Rattle.lp_programs.specs.Joined.{JoinsNext, ended, joined};

use influxdb_line_protocol::Dialect;
use lp_endings::summary::Totals;
use lp_inputs::counted::{CountedSource, ends_in_line};
use lp_rebuild::program::read_block;
use lp_rebuild::{DeviceFault, RunFault, Source};
use lp_relay::{
    Clock, Inputs, NextInput, Settings, ThreeWriters, part_ends, relay_inputs, relay_now,
};
use std::alloc::{AllocError, Global};

/// For a reader that begins the next input by itself, with the first read after the end of one.
#[derive(Drop)]
pub struct ReadsOn;

impl<R: Source> NextInput<R> for ReadsOn {
    ghost left = { λ _. None };

    fn open(&mut self, _reader: &mut R, _name: &str) -> Result<(), DeviceFault> {
        Ok(())
    }
}

/// Relays the inputs of these names by these settings, as [`relay_inputs`] does, and tells what was read and what came of it.
///
/// # Errors
///
/// Those of [`relay_inputs`].
pub fn relay_each<'n, R: Source, N: NextInput<CountedSource<R>>, O: ThreeWriters>(
    alloc: Global,
    settings: Settings<'n>,
    names: &[&'n str],
    inputs: &mut Inputs<CountedSource<R>, N>,
    outputs: &mut O,
) -> Result<Totals, RunFault>
    ensures relays { RelaysInputs settings.entry names.entry.now (result_map_both (λ totals. totals.counts) (λ fault. fault) result)
        (inputs_told N.left ⟦<CountedSource<R> as Source>⟧.failures inputs.old.next inputs.old.reader)
        (inputs_told N.left ⟦<CountedSource<R> as Source>⟧.failures inputs.new.next inputs.new.reader)
        (O.told outputs.old) (O.told outputs.new) }
    ensures counted { IfOk result (λ totals. totals ≡ totals_of inputs.new.reader.counts totals.counts) }
{
    let items = relay_inputs(alloc, settings, names, inputs, outputs)?;
    Ok(inputs.reader.totals(items))
}

/// Relays an input by these settings, as [`relay_now`] does, and tells what was read and what came of it.
///
/// # Errors
///
/// Those of [`relay_now`].
pub fn relay_by_clock<R: Source, C: Clock, O: ThreeWriters>(
    alloc: Global,
    settings: Settings<'_>,
    reader: &mut CountedSource<R>,
    clock: &mut C,
    outputs: &mut O,
) -> Result<Totals, RunFault>
    ensures relays { RelaysNow settings.entry (result_map_both (λ totals. totals.counts) (λ fault. fault) result)
        (reader_told ⟦<CountedSource<R> as Source>⟧.bytes ⟦<CountedSource<R> as Source>⟧.failures reader.old)
        (reader_told ⟦<CountedSource<R> as Source>⟧.bytes ⟦<CountedSource<R> as Source>⟧.failures reader.new)
        (C.told clock.old) (C.told clock.new) (O.told outputs.old) (O.told outputs.new) }
    ensures counted { IfOk result (λ totals. totals ≡ totals_of reader.new.counts totals.counts) }
{
    let items = relay_now(alloc, settings, reader, clock, outputs)?;
    Ok(reader.totals(items))
}

// Adds a newline to a text that does not end with one, if it has a byte.
fn end_line(text: &mut Vec<u8>) -> Result<(), AllocError>
    ensures { OnOk result (text.new.items ≡ ended text.old.items) }
{
    if ends_in_line(text.as_slice()) {
        text.push(b'\n')?;
    }
    Ok(())
}

// Adds all bytes that `reader` has left to a text.
fn read_after<R: Source>(reader: &mut R, text: &mut Vec<u8>) -> Result<(), RunFault>
    ensures ok { OnOk result (Consumes (prepend_known text.old.items (R.bytes reader.old)) (R.bytes reader.new) text.new.items) }
    ensures end { OnOk result (IsAtEnd (R.bytes reader.new)) }
    ensures counts { CountsReadFault result (R.failures reader.old) (R.failures reader.new) }
{
    let mut filled = text.len();
    for _ in 0..u64::MAX {
        match read_block(reader, text, filled) {
            Ok(0) => {
                text.truncate(filled);
                return Ok(());
            }
            Ok(n) => filled += n,
            Err(fault) => return Err(fault),
        }
    }
    Err(RunFault::OutOfMemory)
}

// Reads the next input, which has this name, after the text of those before it.
fn read_next<R: Source, N: NextInput<R>>(
    name: &str,
    inputs: &mut Inputs<R, N>,
    text: &mut Vec<u8>,
) -> Result<(), RunFault>
    ensures joins { OnOk result (JoinsNext (N.left inputs.old.next) (N.left inputs.new.next) text.old.items text.new.items) }
    ensures counts { CountsReadFault result (R.failures inputs.old.reader) (R.failures inputs.new.reader) }
{
    if end_line(text).is_err() {
        return Err(RunFault::OutOfMemory);
    }
    if inputs.next.open(&mut inputs.reader, name).is_err() {
        return Err(RunFault::Read);
    }
    read_after(&mut inputs.reader, text)
}

// The inputs of these names as one text.
fn read_joined<R: Source, N: NextInput<R>>(
    alloc: Global,
    names: &[&str],
    inputs: &mut Inputs<R, N>,
) -> Result<Vec<u8>, RunFault>
    ensures text { IfOk result (λ text. IfSome (N.left inputs.old.next) (λ texts. text.items ≡ joined (inputs_of names.now texts))) }
    ensures counts { CountsReadFault result (R.failures inputs.old.reader) (R.failures inputs.new.reader) }
{
    let mut text = Vec::new(alloc);
    for name in names {
        read_next(name, inputs, &mut text)?;
    }
    Ok(text)
}

/// Where the inputs of these names can be cut into so many parts, as [`part_ends`] says, if they are read as one. All of it is held.
///
/// # Errors
///
/// `Read` if an input could not be opened or read, and only there; `OutOfMemory` if memory was refused.
pub fn part_ends_of<R: Source, N: NextInput<R>>(
    alloc: Global,
    dialect: Dialect,
    count: usize,
    names: &[&str],
    inputs: &mut Inputs<R, N>,
) -> Result<Vec<usize>, RunFault>
    ensures ends { IfOk result (λ ends. IfSome (N.left inputs.old.next) (λ texts.
        ArePartEnds (rules_of dialect) (joined (inputs_of names.now texts)) count ends.items)) }
    ensures counts { CountsReadFault result (R.failures inputs.old.reader) (R.failures inputs.new.reader) }
{
    let text = read_joined(alloc, names, inputs)?;
    match part_ends(alloc, dialect, text.as_slice(), count) {
        Ok(ends) => Ok(ends),
        Err(_) => Err(RunFault::OutOfMemory),
    }
}
