//! The lines that print pages and states of nodes, and compare states.

ghost use Rattle.std.specs.Prelude.{◌≡◌, ◌<◌, IfOk, length};
ghost use Rattle.std.specs.Option.{option_copied};
ghost use Rattle.dac_config.specs.Table.{node_count, node_name};
ghost use Rattle.dac_play.specs.Play.{state_at, origin_at, shown_text, bytes_text, compare_text};

use crate::texts::{hex_line, same_line};
use dac_base::{NoMemory, NodeId};
use dac_config::Config;
use dac_core::World;
use dac_state::State;
use dac_status::{Summary, header, page};
use std::alloc::Global;

/// The state of a node, or `None` if it's off.
pub fn state_at(world: &World, node: NodeId) -> Option<&State>
    requires { node.0 < length world.now.nodes }
    ensures { option_copied result ≡ state_at world.now node }
{
    world.node(node).state()
}

/// The lines for a node: its incarnation and its page, or that it's off.
pub fn shown_lines(
    alloc: Global,
    config: &Config,
    world: &World,
    node: NodeId,
) -> Result<Vec<u8>, NoMemory>
    requires node { node.0 < node_count config.now }
    requires all { length world.now.nodes ≡ node_count config.now }
    ensures { IfOk result (λ lines. lines.items
        ≡ shown_text config.now node (origin_at world.now node) (state_at world.now node)) }
{
    let mut lines = header(alloc, config, node, world.node(node).origin())?;
    if let Some(state) = state_at(world, node) {
        let summary = Summary::of(config, state);
        let page = page(alloc, config, &summary)?;
        lines.extend_from_slice(&page)?;
    }
    Ok(lines)
}

/// The line for a node's state: its bytes, or that the node is off.
pub fn bytes_line(
    alloc: Global,
    config: &Config,
    world: &World,
    node: NodeId,
) -> Result<Vec<u8>, NoMemory>
    requires node { node.0 < node_count config.now }
    requires all { length world.now.nodes ≡ node_count config.now }
    ensures { IfOk result
        (λ line. line.items ≡ bytes_text (node_name config.now node) (state_at world.now node)) }
{
    let Some(state) = state_at(world, node) else {
        return header(alloc, config, node, None);
    };
    let bytes = state.encode()?;
    let line = hex_line(alloc, &bytes)?;
    Ok(line)
}

/// The line that compares two nodes' states byte by byte, or reports the first of the nodes that is off.
pub fn compare_line(
    alloc: Global,
    config: &Config,
    world: &World,
    first: NodeId,
    second: NodeId,
) -> Result<Vec<u8>, NoMemory>
    requires first { first.0 < node_count config.now }
    requires second { second.0 < node_count config.now }
    requires all { length world.now.nodes ≡ node_count config.now }
    ensures { IfOk result (λ line. line.items
        ≡ compare_text (node_name config.now first) (node_name config.now second)
        (state_at world.now first) (state_at world.now second)) }
{
    let Some(one) = state_at(world, first) else {
        return header(alloc, config, first, None);
    };
    let Some(other) = state_at(world, second) else {
        return header(alloc, config, second, None);
    };
    let one = one.encode()?;
    let other = other.encode()?;
    let line = Vec::from_slice(alloc, same_line(one == other).as_bytes())?;
    Ok(line)
}
