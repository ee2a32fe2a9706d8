//! `distac sim`: plays a script in a world of controllers.

ghost use Rattle.std.specs.Prelude.{◌≡◌, ◌<◌, IfOk, IfSome, OnOk, All, length};
ghost use Rattle.std.specs.Io.KnownBytes.{Appends};
ghost use Rattle.dac_config.specs.Table.{node_count};
ghost use Rattle.dac_core.specs.ModelWorld.{start};
ghost use Rattle.dac_script.specs.Input.{IsReadWithinBound};
ghost use Rattle.dac_script.specs.Actors.{HasActors};
ghost use Rattle.dac_script.specs.declared.line.ScriptLine.TheVariants as says;
ghost use Rattle.dac_play.specs.Play.{script_text, PlaysLine};
ghost use Rattle.dac_play.specs.Endings.{IsLeftAt};
ghost use Rattle.dac_play.specs.Runs.{PlaysRuns};
ghost use Rattle.dac_play.specs.Simulations.{EndsSim};

use crate::answers::{Counts, answer_line};
use crate::ending::{Ending, print, refuse};
use crate::sharing::share;
use crate::states::{bytes_line, compare_line, shown_lines};
use crate::texts::{OUT_OF_MEMORY, shared_line};
use crate::wires::{fed_line, message_line};
use dac_base::NoMemory;
use dac_config::Config;
use dac_core::{World, WorldEvent};
use dac_script::{ScriptLine, Source, prepare};
use std::alloc::Global;
use std::io::{Read, Write};

/// Why a script stopped early.
#[derive(Clone, Copy, Debug, PartialEq, Eq)]
pub enum Stop {
    /// An allocation failed.
    NoMemory,
    /// A write failed.
    Output,
}

impl From<NoMemory> for Stop {
    ghost use Rattle.dac_play.specs.declared.sim.Stop.TheVariants.{NoMemory as WantOfMemory};

    ghost from_gives = { λ _ stop. stop ≡ WantOfMemory };

    fn from(_refused: NoMemory) -> Self {
        Stop::NoMemory
    }
}

/// Runs an event and returns its lines.
fn event_step(
    alloc: Global,
    config: &Config,
    world: &mut World,
    event: &WorldEvent,
) -> Result<Vec<u8>, NoMemory>
    requires actor { event.now.node.0 < node_count config.now }
    requires all { length world.old.nodes ≡ node_count config.now }
    ensures all { length world.new.nodes ≡ node_count config.now }
    ensures plays { IfOk result
        (λ text. PlaysLine config.now world.old (says.Event event.now) text.items world.new) }
{
    let answer = world.step(config, event);
    let counts = Counts {
        operations: world.operations().len(),
        messages: world.messages().len(),
    };
    answer_line(alloc, config, event, &answer, counts)
}

/// Runs an anti-entropy round and returns its line.
fn share_step(alloc: Global, config: &Config, world: &mut World) -> Result<Vec<u8>, NoMemory>
    requires { length world.old.nodes ≡ node_count config.now }
    ensures all { length world.new.nodes ≡ node_count config.now }
    ensures plays { IfOk result
        (λ text. PlaysLine config.now world.old says.Share text.items world.new) }
{
    let before = world.messages().len();
    share(alloc, config, world)?;
    let after = world.messages().len();
    let line = shared_line(alloc, after.saturating_sub(before))?;
    Ok(line)
}

/// Runs a script line and returns its lines.
fn step(
    alloc: Global,
    config: &Config,
    world: &mut World,
    line: &ScriptLine,
) -> Result<Vec<u8>, NoMemory>
    requires actors { HasActors (node_count config.now) line.now }
    requires all { length world.old.nodes ≡ node_count config.now }
    ensures all { length world.new.nodes ≡ node_count config.now }
    ensures plays { IfOk result
        (λ text. PlaysLine config.now world.old line.now text.items world.new) }
{
    match line {
        ScriptLine::Event(event) => event_step(alloc, config, world, event),
        ScriptLine::Share => share_step(alloc, config, world),
        ScriptLine::Page(node) => shown_lines(alloc, config, world, *node),
        ScriptLine::State(node) => bytes_line(alloc, config, world, *node),
        ScriptLine::Same(first, second) => compare_line(alloc, config, world, *first, *second),
        ScriptLine::Bytes(message) => message_line(alloc, config, world.messages(), *message),
        ScriptLine::Feed(bytes) => fed_line(alloc, config, bytes.as_slice()),
    }
}

/// Plays a script from a world in which all nodes are off, and prints the result of each line.
///
/// If an allocation or a write fails, the output can be anything.
pub fn play<W: Write>(
    alloc: Global,
    config: &Config,
    script: &[ScriptLine],
    output: &mut W,
) -> Result<(), Stop>
    requires { All (HasActors (node_count config.now)) script.now }
    ensures prints { OnOk result (Appends (W.contents output.old) (W.contents output.new)
        (script_text config.now (start config.now) script.now)) }
    // Every world that the lines show is that of a run, so the guarantees of every run hold.
    ensures runs { OnOk result (PlaysRuns config.now script.now) }
{
    let mut world = World::new(alloc, config)?;
    for line in script {
        let text = step(alloc, config, &mut world, line)?;
        if output.write_all(&text).is_err() {
            return Err(Stop::Output);
        }
    }
    if output.flush().is_err() {
        return Err(Stop::Output);
    }
    Ok(())
}

/// Reads a configuration and a script, plays the script and prints the result of each line. The whole input is checked
/// first, so that a faulty one prints only the line of its fault.
pub fn simulate_source<R: Read, W: Write>(
    alloc: Global,
    source: &mut Source<'_, R>,
    output: &mut W,
) -> Ending
    ensures ends { IfSome source.old.left
        (λ bytes. EndsSim bytes result (W.contents output.old) (W.contents output.new)) }
    ensures reads { IsLeftAt result source.new }
    // Whatever the result, at most one byte beyond the bound was read.
    ensures bound { IsReadWithinBound source.old.left source.new.left }
    ensures same_reader { source.new.reader ≡ source.old.reader }
{
    let (config, script) = match prepare(alloc, source) {
        Ok(both) => both,
        Err(failure) => return refuse(alloc, failure, output),
    };
    match play(alloc, &config, &script, output) {
        Ok(()) => Ending::Done,
        Err(Stop::Output) => Ending::Stopped,
        Err(Stop::NoMemory) => {
            let _printed = print(OUT_OF_MEMORY.as_bytes(), output);
            Ending::Stopped
        }
    }
}

/// Like [`simulate_source`], with an unread reader.
pub fn simulate<R: Read, W: Write>(alloc: Global, input: &mut R, output: &mut W) -> Ending
    ensures ends { IfSome (R.remaining input.old)
        (λ bytes. EndsSim bytes result (W.contents output.old) (W.contents output.new)) }
    ensures bound { IsReadWithinBound (R.remaining input.old) (R.remaining input.new) }
{
    let mut source = Source::new(input);
    let ending = simulate_source(alloc, &mut source, output);
    let _reader = source.into_reader();
    ending
}
