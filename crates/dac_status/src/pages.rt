//! The page of a node, and the line above it.

ghost use Rattle.std.specs.Prelude.{◌≡◌, ◌<◌, ◌++◌, IfOk, OnOk};
ghost use Rattle.std.specs.List.{flat_map};
ghost use Rattle.dac_config.specs.Table.{node_count, node_name};
ghost use Rattle.dac_placement.specs.Placement.{nodes_of, apps_of};
ghost use Rattle.dac_status.specs.Texts.{header_text, node_line, app_lines, page_text};

use crate::apps::put_app;
use crate::labels::Labels;
use crate::nodes::put_node_line;
use crate::summary::Summary;
use dac_base::{AppId, NoMemory, NodeId};
use dac_config::{Config, put_printed_name};
use dac_origins::Origin;
use std::alloc::Global;

/// How many bytes to reserve for the lines of one application. A page that needs more grows.
const APP_ROOM: usize = 128;

/// The line above a page: a node and the incarnation as which it runs, or that it is off. A node that is off has no
/// page.
pub fn header(
    alloc: Global,
    config: &Config,
    node: NodeId,
    origin: Option<Origin>,
) -> Result<Vec<u8>, NoMemory>
    requires { node.0 < node_count config.now }
    ensures { IfOk result (λ line. line.items ≡ header_text (node_name config.now node) origin) }
{
    let mut line = Vec::from_slice(alloc, b"node ")?;
    put_printed_name(&mut line, config.node_name(node))?;
    match origin {
        None => line.extend_from_slice(b" off\n")?,
        Some(origin) => {
            let incarnation = origin.inc;
            let rest = format!(in alloc; " {incarnation}\n")?;
            line.extend_from_slice(rest.as_bytes())?;
        }
    }
    Ok(line)
}

/// The page of a node, printed from a summary of its state: how much was heard, and the life of each node in the order
/// of names. Each application follows with two lines, in the order of the configuration file. The first line has its
/// holder and its verdict, the second the mark of each node of its list, by group, then by name.
pub fn page(alloc: Global, config: &Config, summary: &Summary) -> Result<Vec<u8>, NoMemory>
    ensures { IfOk result (λ text. text.items ≡ page_text config.now summary.now) }
{
    let heard = summary.heard;
    let known = summary.known;
    let mut text = format!(in alloc; "heard {heard} known {known}\n")?.into_bytes();
    text.reserve(APP_ROOM * config.apps() as usize)?;
    put_nodes(alloc, &mut text, config, summary)?;
    put_apps(alloc, &mut text, config, summary)?;
    Ok(text)
}

/// Appends the lines of the nodes.
fn put_nodes(
    alloc: Global,
    text: &mut Vec<u8>,
    config: &Config,
    summary: &Summary,
) -> Result<(), NoMemory>
    ensures { OnOk result (text.new.items
        ≡ text.old.items
        ++ flat_map (node_line config.now summary.now.lives summary.now.drained)
        (nodes_of config.now)) }
{
    for number in 0..config.nodes() {
        let node = NodeId(number);
        put_node_line(alloc, text, config, &summary.lives, &summary.drained, node)?;
    }
    Ok(())
}

/// Appends the lines of the applications.
fn put_apps(
    alloc: Global,
    text: &mut Vec<u8>,
    config: &Config,
    summary: &Summary,
) -> Result<(), NoMemory>
    ensures { OnOk result (text.new.items
        ≡ text.old.items ++ flat_map (app_lines config.now summary.now.apps) (apps_of config.now)) }
{
    let labels = Labels::of(alloc, config)?;
    for number in 0..config.apps() {
        put_app(alloc, text, config, &labels, &summary.apps, AppId(number))?;
    }
    Ok(())
}
