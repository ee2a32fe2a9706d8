//! The lines of nodes.

ghost use Rattle.std.specs.Prelude.{◌≡◌, ◌<◌, ◌++◌, OnOk};
ghost use Rattle.dac_config.specs.Table.{node_count};
ghost use Rattle.dac_status.specs.Texts.{node_text, flag_text, drained_text, life_text, node_line};

use dac_base::{MAX_NODES, NoMemory, NodeId};
use dac_chains::Life;
use dac_config::{Config, put_printed_name};
use dac_lattice::Flag;
use std::alloc::Global;

/// Appends a node by its name, or by its number if the configuration lacks it, which occurs only in forged states.
#[inline(always)]
pub fn put_node(
    alloc: Global,
    text: &mut Vec<u8>,
    config: &Config,
    node: NodeId,
) -> Result<(), NoMemory>
    ensures { OnOk result (text.new.items ≡ text.old.items ++ node_text config.now node) }
{
    if node.0 < config.nodes() {
        return put_printed_name(text, config.node_name(node));
    }
    let number = node.0;
    let digits = format!(in alloc; "{number}")?;
    text.extend_from_slice(digits.as_bytes())?;
    Ok(())
}

fn flag_text(flag: Flag) -> &'static str
    ensures { result.now ≡ flag_text flag }
{
    match flag {
        Flag::Up => " up ",
        Flag::Down => " down ",
    }
}

/// The words after the incarnation of a node that is up and drained.
fn drained_text(flag: Flag, drained: bool) -> &'static str
    ensures { result.now ≡ drained_text flag drained }
{
    match (flag, drained) {
        (Flag::Up, true) => " drained",
        _ => "",
    }
}

/// Appends the line of a node of this name and this life, drained or not.
fn put_life(
    alloc: Global,
    text: &mut Vec<u8>,
    node: &[u8],
    life: Option<Life>,
    drained: bool,
) -> Result<(), NoMemory>
    ensures { OnOk result (text.new.items ≡ text.old.items ++ life_text node.now life drained) }
{
    text.extend_from_slice(b"node ")?;
    put_printed_name(text, node)?;
    match life {
        None => text.extend_from_slice(b" unknown\n")?,
        Some(life) => {
            text.extend_from_slice(flag_text(life.flag).as_bytes())?;
            let incarnation = life.inc;
            let number = format!(in alloc; "{incarnation}")?;
            text.extend_from_slice(number.as_bytes())?;
            text.extend_from_slice(drained_text(life.flag, drained).as_bytes())?;
            text.push(b'\n')?;
        }
    }
    Ok(())
}

/// Appends the line of a node, from the lives of all nodes and whether each is drained.
pub fn put_node_line(
    alloc: Global,
    text: &mut Vec<u8>,
    config: &Config,
    lives: &[Option<Life>; MAX_NODES],
    drained: &[bool; MAX_NODES],
    node: NodeId,
) -> Result<(), NoMemory>
    requires node { node.0 < node_count config.now }
    requires place { node.0 < MAX_NODES }
    ensures { OnOk result
        (text.new.items ≡ text.old.items ++ node_line config.now lives.now drained.now node) }
{
    let life = lives[node.0 as usize];
    let is_drained = drained[node.0 as usize];
    put_life(alloc, text, config.node_name(node), life, is_drained)
}
