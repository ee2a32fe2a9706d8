//! Checks that an input of `distac sim` expresses a run.

ghost use Rattle.std.specs.Prelude.{◌≡◌, ◌≢◌, ◌≤◌, ◌↔◌, false, length, map, IfOk, IsTrue};
ghost use Rattle.dac_config.specs.Canonical.{canonical_text};
ghost use Rattle.dac_config.specs.Table.{node_count};
ghost use Rattle.dac_shapes.specs.declared.limits.TheConstants.{MAX_TEXT as MOST};
ghost use Rattle.dac_script.specs.Input.{IsTaken};
ghost use Rattle.dac_placement.specs.Placement.{nodes_of};
ghost use Rattle.dac_script.specs.declared.failure.Failure.TheVariants.{NoMemory as WantOfMemory};
ghost use Rattle.dac_script.specs.declared.line.ScriptLine.TheVariants.{Event as Happens, Page as Shows};
ghost use Rattle.dac_live_play.specs.Recordings.{run_lines, SaysRun};

use dac_base::{NoMemory, NodeId};
use dac_config::Config;
use dac_events::WorldEvent;
use dac_script::laws::accepted_lines_in_words;
use dac_script::{Failure, ScriptLine, read_script, split_input};
use std::alloc::Global;

/// Returns whether the line is this event.
fn says_event(line: &ScriptLine, event: WorldEvent) -> bool
    ensures { IsTrue result ↔ (line.now ≡ Happens event) }
{
    match line {
        ScriptLine::Event(said) => *said == event,
        _ => false,
    }
}

/// Returns whether the line prints this node's page.
fn says_page(line: &ScriptLine, node: NodeId) -> bool
    ensures { IsTrue result ↔ (line.now ≡ Shows node) }
{
    match line {
        ScriptLine::Page(said) => *said == node,
        _ => false,
    }
}

/// Returns whether the lines are these events, in order.
fn say_events(lines: &[ScriptLine], events: &[WorldEvent]) -> bool
    requires { length lines.now ≡ length events.now }
    ensures { IsTrue result ↔ (lines.now ≡ map Happens events.now) }
{
    for place in 0..events.len() {
        if !says_event(&lines[place], events[place]) {
            return false;
        }
    }
    true
}

/// Returns whether the lines print each node's page, in order.
fn say_pages(config: &Config, lines: &[ScriptLine]) -> bool
    requires { length lines.now ≡ node_count config.now }
    ensures { IsTrue result ↔ (lines.now ≡ map Shows (nodes_of config.now)) }
{
    for number in 0..config.nodes() {
        if !says_page(&lines[usize::from(number)], NodeId(number)) {
            return false;
        }
    }
    true
}

/// Returns whether the lines are the run's events, then each node's page.
fn say_run(config: &Config, lines: &[ScriptLine], events: &[WorldEvent]) -> bool
    ensures { IsTrue result ↔ (lines.now ≡ run_lines config.now events.now) }
{
    let nodes = usize::from(config.nodes());
    if lines.len() < events.len() || lines.len() - events.len() != nodes {
        return false;
    }
    let (front, back) = lines.split_at(events.len());
    say_events(front, events) && say_pages(config, back)
}

/// The result for a script that isn't read.
fn unread(failure: Failure) -> Result<bool, NoMemory>
    ensures { IfOk result (λ is. (is ≡ false) × (failure ≢ WantOfMemory)) }
{
    match failure {
        Failure::NoMemory => Err(NoMemory),
        _ => Ok(false),
    }
}

/// Returns whether an input has this configuration, given in canonical form, and expresses the run. False if it's faulty
/// or expresses another run.
pub(crate) fn is_said(
    alloc: Global,
    config: &Config,
    canonical: &[u8],
    text: &[u8],
    events: &[WorldEvent],
) -> Result<bool, NoMemory>
    requires canonical { canonical.now ≡ canonical_text config.now }
    requires few { length canonical.now ≤ MOST }
    requires taken { IsTaken text.now }
    ensures { IfOk result (λ is. IsTrue is ↔ SaysRun text.now config.now events.now) }
{
    let Some((head, script)) = split_input(text) else {
        return Ok(false);
    };
    if head != canonical {
        return Ok(false);
    }
    accepted_lines_in_words();
    match read_script(alloc, config, script) {
        Ok(lines) => Ok(say_run(config, &lines, events)),
        Err(failure) => unread(failure),
    }
}
