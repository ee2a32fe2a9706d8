//! Sets of nodes.
ghost use Rattle.std.specs.Prelude.{◌≡◌, IfOk, OnOk, OnErr};
ghost use Rattle.std.specs.FinSet as set;

use dac_base::{NoMemory, NodeId};
use dac_origins::keys::{holds_key, insert_key, remove_key};
use std::alloc::Global;
use std::marker::Model;

/// A set of nodes, stored as one sorted list. Contracts see it as a finite set.
#[derive(Drop)]
pub(crate) struct NodeSet {
    nodes: Vec<NodeId>,
}

impl Model for NodeSet {
    ghost use Rattle.std.specs.FinSet as set;
    ghost use Rattle.dac_base.specs.Ids.{node_cmp, coded_node};
    ghost use Rattle.dac_origins.specs.Keys.{IsRising};

    ghost Value = { set.FinSet node_cmp };

    ghost coded = { set.code coded_node };

    ghost view = { λ a. set.from_list a.nodes.items };

    ghost invariant = { λ a. IsRising node_cmp a.nodes.items };
}

impl NodeSet {
    /// The empty set.
    pub(crate) fn new(alloc: Global) -> Self
        ensures { result ≡ set.empty }
    {
        NodeSet {
            nodes: Vec::new(alloc),
        }
    }

    /// Whether the set has a node.
    pub(crate) fn contains(&self, node: NodeId) -> bool
        ensures { result ≡ set.contains self.now node }
    {
        holds_key(&self.nodes, node)
    }

    /// Adds a node. `NoMemory` leaves the set unchanged.
    pub(crate) fn insert(&mut self, node: NodeId) -> Result<(), NoMemory>
        ensures ok { OnOk result (self.new ≡ set.insert self.old node) }
        ensures err { OnErr result (self.new ≡ self.old) }
    {
        insert_key(&mut self.nodes, node)?;
        Ok(())
    }

    /// Removes a node.
    pub(crate) fn remove(&mut self, node: NodeId)
        ensures { self.new ≡ set.remove self.old node }
    {
        remove_key(&mut self.nodes, node);
    }

    /// An equal set that shares nothing with this one.
    pub(crate) fn copy(&self) -> Result<Self, NoMemory>
        ensures { IfOk result (λ copied. copied ≡ self.now) }
    {
        Ok(NodeSet {
            nodes: Vec::from_slice(*self.nodes.allocator(), &self.nodes)?,
        })
    }
}
