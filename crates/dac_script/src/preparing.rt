//! Reads a whole input.

ghost use Rattle.std.specs.Prelude.{◌≡◌, IfOk, IfErr, IfSome, All};
ghost use Rattle.dac_config.specs.Table.{node_count};
ghost use Rattle.dac_script.specs.Actors.{HasActors};
ghost use Rattle.dac_script.specs.Inputs.{HasParts, IsPartsFailure, SaysAll, IsInputFailure, SaysScript, IsFailureOf};
ghost use Rattle.dac_script.specs.Input.{IsReadWithinBound};
ghost use Rattle.dac_script.specs.Sources.{IsReadBy};

use crate::failure::Failure;
use crate::fault::InputFault;
use crate::input::{read_input, split_input};
use crate::line::ScriptLine;
use crate::lines::{ReadsLine, read_lines};
use crate::source::Source;
use dac_config::{Config, read_config};
use std::alloc::Global;
use std::io::Read;

/// Reads the configuration and then the script of a text.
fn parts_of<L: ReadsLine>(alloc: Global, text: &[u8]) -> Result<(Config, Vec<L>), Failure>
    ensures says { IfOk result
        (λ both. HasParts L.spells L.has_fault text.now both.0 both.1.items) }
    ensures actors { IfOk result (λ both. All (L.has_actors (node_count both.0)) both.1.items) }
    ensures fails { IfErr result (IsPartsFailure L.spells L.has_fault text.now) }
{
    let Some((config, script)) = split_input(text) else {
        return Err(Failure::Input(InputFault::NoScript));
    };
    let config = read_config(alloc, config)?;
    let script = read_lines(alloc, &config, script)?;
    Ok((config, script))
}

/// Reads and checks a whole input with any kind of script: its size, its configuration, then its script. Fails with the
/// first fault.
pub fn prepare_lines<L: ReadsLine, R: Read>(
    alloc: Global,
    source: &mut Source<'_, R>,
) -> Result<(Config, Vec<L>), Failure>
    ensures says { IfOk result
        (λ both. IfSome source.old.left
        (λ bytes. SaysAll L.spells L.has_fault bytes both.0 both.1.items)) }
    ensures actors { IfOk result (λ both. All (L.has_actors (node_count both.0)) both.1.items) }
    ensures fails { IfErr result
        (λ why. IfSome source.old.left (λ bytes. IsInputFailure L.spells L.has_fault bytes why)) }
    ensures reads { IsReadBy result source.new }
    // Whatever the result, at most one byte beyond the bound was read.
    ensures bound { IsReadWithinBound source.old.left source.new.left }
    ensures same_reader { source.new.reader ≡ source.old.reader }
{
    let text = read_input(alloc, source)?;
    let both = parts_of(alloc, &text)?;
    Ok(both)
}

/// Reads and checks a whole input of `distac sim`: its size, its configuration, then its script. Fails with the first
/// fault.
pub fn prepare<R: Read>(
    alloc: Global,
    source: &mut Source<'_, R>,
) -> Result<(Config, Vec<ScriptLine>), Failure>
    ensures says { IfOk result
        (λ both. IfSome source.old.left (λ bytes. SaysScript bytes both.0 both.1.items)) }
    ensures actors { IfOk result (λ both. All (HasActors (node_count both.0)) both.1.items) }
    ensures fails { IfErr result (λ why. IfSome source.old.left (λ bytes. IsFailureOf bytes why)) }
    ensures reads { IsReadBy result source.new }
    // Whatever the result, at most one byte beyond the bound was read.
    ensures bound { IsReadWithinBound source.old.left source.new.left }
    ensures same_reader { source.new.reader ≡ source.old.reader }
{
    prepare_lines(alloc, source)
}
