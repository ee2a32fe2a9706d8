//! Positions in other nodes' deltas.
ghost use Rattle.std.specs.Prelude.{◌≡◌, IfOk, OnOk, OnErr};
ghost use Rattle.std.specs.FinMap as map;
ghost use Rattle.dac_peers.specs.Peers.{got_after, later};

use dac_base::{NoMemory, NodeId};
use dac_deltas::Entries;
use std::alloc::Global;
use std::marker::Model;

/// A position in the deltas of one incarnation of a node.
#[derive(Clone, Copy, Debug, PartialEq, Eq)]
pub struct Position {
    /// The node's incarnation.
    pub inc: u64,
    /// The delta count before the position.
    pub number: u64,
}

impl Position {
    /// The later of two positions: the one of the greater incarnation, and within an incarnation the greater number.
    pub(crate) fn later(self, new: Position) -> Position
        ensures { result ≡ later self new }
    {
        if self.inc < new.inc {
            return new;
        }
        if self.inc == new.inc {
            return Position {
                inc: self.inc,
                number: self.number.max(new.number),
            };
        }
        self
    }
}

/// A position for each of some nodes. Contracts see it as a finite map from nodes to positions.
#[derive(Drop)]
pub(crate) struct Positions {
    positions: Entries<NodeId, Position>,
}

impl Model for Positions {
    ghost use Rattle.std.specs.FinMap as map;
    ghost use Rattle.dac_base.specs.Ids.{node_cmp, coded_node};
    ghost use Rattle.dac_peers.specs.declared.positions.Position.{Position};
    ghost use Rattle.dac_peers.specs.Peers.{coded_position};

    ghost Value = { map.FinMap node_cmp Position };

    ghost coded = { map.code coded_node coded_position };

    ghost view = { λ a. map.from_entries a.positions };
}

impl Positions {
    /// No positions.
    pub(crate) fn new(alloc: Global) -> Self
        ensures { result ≡ map.empty }
    {
        Positions {
            positions: Entries::new(alloc),
        }
    }

    /// The position of a node, if any.
    pub(crate) fn get(&self, node: NodeId) -> Option<Position>
        ensures { result ≡ map.get self.now node }
    {
        self.positions.get(node)
    }

    /// Records that a node reached a position, unless it was past it. `NoMemory` leaves the positions unchanged.
    pub(crate) fn raise(&mut self, node: NodeId, position: Position) -> Result<(), NoMemory>
        ensures ok { OnOk result
            (self.new ≡ map.insert self.old node (got_after (map.get self.old node) position)) }
        ensures err { OnErr result (self.new ≡ self.old) }
    {
        let latest = match self.get(node) {
            Some(before) => before.later(position),
            None => position,
        };
        self.positions.put(node, latest)?;
        Ok(())
    }

    /// Equal positions that share nothing with these.
    pub(crate) fn copy(&self) -> Result<Self, NoMemory>
        ensures { IfOk result (λ copied. copied ≡ self.now) }
    {
        Ok(Positions {
            positions: self.positions.copy()?,
        })
    }
}
