//! The labels of nodes before their marks.

ghost use Rattle.std.specs.Prelude.{◌≡◌, ◌<◌, [], IfOk, length, slice_index_or};
ghost use Rattle.dac_config.specs.Table.{node_count};
ghost use Rattle.dac_status.specs.Texts.{label_text, labels_of};

use dac_base::{NoMemory, NodeId};
use dac_config::{Config, put_printed_name};
use std::alloc::Global;
use std::marker::Model;

/// The label of each node before its mark, by the nodes' numbers: its name between a space and `=`. A page prints each
/// label many times, so that it is worth making it once. Contracts see the list.
#[derive(Drop)]
pub(crate) struct Labels {
    labels: Vec<Vec<u8>>,
}

impl Model for Labels {
    ghost use Rattle.std.specs.Prelude.{ℕ, List, map as list_map};

    ghost Value = { List (List ℕ) };

    ghost view = { λ a. list_map (λ label. label.items) a.labels.items };
}

impl Labels {
    /// The labels of a configuration's nodes.
    pub(crate) fn of(alloc: Global, config: &Config) -> Result<Self, NoMemory>
        ensures { IfOk result (λ labels. labels ≡ labels_of config.now) }
    {
        let mut labels = Vec::with_capacity(alloc, config.nodes() as usize)?;
        for number in 0..config.nodes() {
            labels.push(label(alloc, config, NodeId(number))?)?;
        }
        Ok(Labels { labels })
    }

    /// The label of a node.
    pub(crate) fn at(&self, node: NodeId) -> &[u8]
        requires { node.0 < length self.now }
        ensures { result.now ≡ slice_index_or self.now node.0 [] }
    {
        self.labels[node.0 as usize].as_slice()
    }
}

/// The label of a node.
fn label(alloc: Global, config: &Config, node: NodeId) -> Result<Vec<u8>, NoMemory>
    requires { node.0 < node_count config.now }
    ensures { IfOk result (λ label. label.items ≡ label_text config.now node) }
{
    let mut label = Vec::from_slice(alloc, b" ")?;
    put_printed_name(&mut label, config.node_name(node))?;
    label.push(b'=')?;
    Ok(label)
}
