//! The line printed for a caller's line.

ghost use Rattle.std.specs.Prelude.{◌≡◌, ◌<◌, ◌++◌, IfOk, OnOk};
ghost use Rattle.dac_config.specs.Table.{node_count};
ghost use Rattle.dac_live_play.specs.Texts.{outcome_text, line_text, own_text, feed_text};

use dac_base::{NoMemory, NodeId};
use dac_config::{Config, printed_name};
use dac_live::{Line, LineAnswer};
use dac_phases::is_of;
use dac_play::{fed_line, refused_line};
use dac_script::LiveLine;
use std::alloc::Global;

/// The numbers of a node's callers.
pub const CALLER_NUMBERS: [u8; 4] = [1, 2, 3, 4];

/// The result of a caller's line.
fn outcome_line(alloc: Global, answer: &LineAnswer) -> Result<Vec<u8>, NoMemory>
    ensures { IfOk result (λ line. line.items ≡ outcome_text answer.now) }
{
    let word = match answer {
        LineAnswer::Done(Ok(_)) => "ok\n",
        LineAnswer::Done(Err(why)) => return refused_line(alloc, why.number(), why.name()),
        LineAnswer::Fresh => "fresh\n",
        LineAnswer::Stale => "stale\n",
    };
    let line = Vec::from_slice(alloc, word.as_bytes())?;
    Ok(line)
}

/// The line for a caller's line: node, caller and result.
fn line_of(
    alloc: Global,
    config: &Config,
    line: &Line,
    answer: &LineAnswer,
) -> Result<Vec<u8>, NoMemory>
    requires { line.now.node.0 < node_count config.now }
    ensures { IfOk result (λ text. text.items ≡ line_text config.now line.now answer.now) }
{
    let mut text = printed_name(alloc, config.node_name(line.node))?;
    let caller = line.caller;
    let number = format!(in alloc; " {caller} ")?;
    text.extend_from_slice(number.as_bytes())?;
    let outcome = outcome_line(alloc, answer)?;
    text.extend_from_slice(&outcome)?;
    Ok(text)
}

/// Appends the line for a caller's line if it belongs to this caller of this node.
pub(crate) fn put_own(
    alloc: Global,
    text: &mut Vec<u8>,
    config: &Config,
    node: NodeId,
    caller: u8,
    line: &Line,
    answer: &LineAnswer,
) -> Result<(), NoMemory>
    requires { node.0 < node_count config.now }
    ensures { OnOk result
        (text.new.items ≡ text.old.items ++ own_text config.now node caller line.now answer.now) }
{
    if !is_of(line, node, caller) {
        return Ok(());
    }
    let line = line_of(alloc, config, line, answer)?;
    text.extend_from_slice(&line)?;
    Ok(())
}

/// Appends the line for a feed. Appends nothing for other lines.
pub(crate) fn put_feed(
    alloc: Global,
    text: &mut Vec<u8>,
    config: &Config,
    line: &LiveLine,
) -> Result<(), NoMemory>
    ensures { OnOk result (text.new.items ≡ text.old.items ++ feed_text config.now line.now) }
{
    if let LiveLine::Feed(bytes) = line {
        let line = fed_line(alloc, config, bytes.as_slice())?;
        text.extend_from_slice(&line)?;
    }
    Ok(())
}
