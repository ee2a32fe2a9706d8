//! The output of a run.

ghost use Rattle.std.specs.Prelude.{◌≡◌, ◌+◌, ◌<◌, ◌++◌, IfOk, OnOk, map};
ghost use Rattle.std.specs.List.{flat_map};
ghost use Rattle.dac_config.specs.Table.{node_count};
ghost use Rattle.dac_live_play.specs.Phases.{lines_in, AsksAs};
ghost use Rattle.dac_live_play.specs.Texts.{caller_text, callers_text, asked_text, feed_text, phase_text, phases_text, shown_text, last_text, pages_text, run_text};

use crate::texts::{CALLER_NUMBERS, put_feed, put_own};
use dac_base::{NoMemory, NodeId};
use dac_config::Config;
use dac_live::{AnswerList, Line, LineAnswer, LiveReport, Page, Phase};
use dac_script::LiveLine;
use dac_status::{header, page};
use std::alloc::Global;

/// Appends the result lines of one caller in a phase.
fn put_caller(
    alloc: Global,
    text: &mut Vec<u8>,
    config: &Config,
    lines: &[Line],
    answers: &[LineAnswer],
    node: NodeId,
    caller: u8,
) -> Result<(), NoMemory>
    requires { node.0 < node_count config.now }
    ensures { OnOk result (text.new.items
        ≡ text.old.items ++ caller_text config.now lines.now answers.now node caller) }
{
    for place in 0..lines.len().min(answers.len()) {
        put_own(
            alloc,
            text,
            config,
            node,
            caller,
            &lines[place],
            &answers[place],
        )?;
    }
    Ok(())
}

/// Appends the result lines of a node's callers in a phase.
fn put_node(
    alloc: Global,
    text: &mut Vec<u8>,
    config: &Config,
    lines: &[Line],
    answers: &[LineAnswer],
    node: NodeId,
) -> Result<(), NoMemory>
    requires { node.0 < node_count config.now }
    ensures { OnOk result
        (text.new.items ≡ text.old.items ++ callers_text config.now lines.now answers.now node) }
{
    for caller in &CALLER_NUMBERS {
        put_caller(alloc, text, config, lines, answers, node, *caller)?;
    }
    Ok(())
}

/// Appends the result lines of all callers in a phase, by node.
fn put_asked(
    alloc: Global,
    text: &mut Vec<u8>,
    config: &Config,
    lines: &[Line],
    answers: &[LineAnswer],
) -> Result<(), NoMemory>
    ensures { OnOk result
        (text.new.items ≡ text.old.items ++ asked_text config.now lines.now answers.now) }
{
    for number in 0..config.nodes() {
        put_node(alloc, text, config, lines, answers, NodeId(number))?;
    }
    Ok(())
}

/// Appends the result lines of a phase's feeds.
fn put_feeds(
    alloc: Global,
    text: &mut Vec<u8>,
    config: &Config,
    part: &[LiveLine],
) -> Result<(), NoMemory>
    ensures { OnOk result
        (text.new.items ≡ text.old.items ++ flat_map (feed_text config.now) part.now) }
{
    for line in part {
        put_feed(alloc, text, config, line)?;
    }
    Ok(())
}

/// The output of phase `place + 1`.
fn phase_lines(
    alloc: Global,
    config: &Config,
    place: usize,
    part: &[LiveLine],
    lines: &[Line],
    answers: &[LineAnswer],
) -> Result<Vec<u8>, NoMemory>
    requires place { place < usize.MAX }
    requires lines { lines.now ≡ lines_in part.now }
    ensures { IfOk result
        (λ text. text.items ≡ phase_text config.now (place + 1) part.now answers.now) }
{
    let number = place + 1;
    let mut text = format!(in alloc; "phase {number}\n")?.into_bytes();
    put_asked(alloc, &mut text, config, lines, answers)?;
    put_feeds(alloc, &mut text, config, part)?;
    Ok(text)
}

/// Appends the output of all phases.
fn put_phases(
    alloc: Global,
    text: &mut Vec<u8>,
    config: &Config,
    parts: &[&[LiveLine]],
    phases: &[Phase],
    answers: &[AnswerList],
) -> Result<(), NoMemory>
    requires { AsksAs phases.now (map (λ part. part.now) parts.now) }
    ensures { OnOk result (text.new.items
        ≡ text.old.items
        ++ phases_text config.now (map (λ part. part.now) parts.now) answers.now) }
{
    for place in 0..phases.len().min(answers.len()) {
        let lines = &phases[place].lines;
        let told = answers[place].as_slice();
        let lines = phase_lines(alloc, config, place, parts[place], lines, told)?;
        text.extend_from_slice(&lines)?;
    }
    Ok(())
}

/// A node's incarnation and page. A node that is off has no page.
fn shown_lines(
    alloc: Global,
    config: &Config,
    node: NodeId,
    last: &Page,
) -> Result<Vec<u8>, NoMemory>
    requires { node.0 < node_count config.now }
    ensures { IfOk result (λ lines. lines.items ≡ shown_text config.now node last.now) }
{
    let mut lines = header(alloc, config, node, last.origin)?;
    if last.origin.is_some() {
        let page = page(alloc, config, &last.summary)?;
        lines.extend_from_slice(&page)?;
    }
    Ok(lines)
}

/// Appends the output for one node's last page.
fn put_last(
    alloc: Global,
    text: &mut Vec<u8>,
    config: &Config,
    pages: &[Page],
    node: NodeId,
) -> Result<(), NoMemory>
    requires { node.0 < node_count config.now }
    ensures { OnOk result (text.new.items ≡ text.old.items ++ last_text config.now pages.now node) }
{
    if let Some(last) = pages.get(usize::from(node.0)) {
        let lines = shown_lines(alloc, config, node, last)?;
        text.extend_from_slice(&lines)?;
    }
    Ok(())
}

/// Appends the output for all nodes' last pages.
fn put_pages(
    alloc: Global,
    text: &mut Vec<u8>,
    config: &Config,
    pages: &[Page],
) -> Result<(), NoMemory>
    ensures { OnOk result (text.new.items ≡ text.old.items ++ pages_text config.now pages.now) }
{
    for number in 0..config.nodes() {
        put_last(alloc, text, config, pages, NodeId(number))?;
    }
    Ok(())
}

/// The whole output of a run. `phases` must have the callers' lines of `parts`.
pub fn live_lines(
    alloc: Global,
    config: &Config,
    parts: &[&[LiveLine]],
    phases: &[Phase],
    report: &LiveReport,
) -> Result<Vec<u8>, NoMemory>
    requires { AsksAs phases.now (map (λ part. part.now) parts.now) }
    ensures { IfOk result
        (λ text. text.items ≡ run_text config.now (map (λ part. part.now) parts.now) report.now) }
{
    let mut text = Vec::new(alloc);
    put_phases(
        alloc,
        &mut text,
        config,
        parts,
        phases,
        report.answers.as_slice(),
    )?;
    put_pages(alloc, &mut text, config, report.pages.as_slice())?;
    text.extend_from_slice(b"close ok\nweave ok\n")?;
    Ok(text)
}
