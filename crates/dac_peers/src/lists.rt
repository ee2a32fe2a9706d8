//! The lists of a peer table.
ghost use Rattle.std.specs.Prelude.{◌≡◌, None, IfOk, OnOk};
ghost use Rattle.std.specs.FinSet as set;
ghost use Rattle.std.specs.FinMap as map;
ghost use Rattle.dac_peers.specs.Peers.{no_peers};
ghost use Rattle.dac_peers.specs.Pending.{ack_done, position_done, answer_done, done};

use crate::acked::Acked;
use crate::nodes::NodeSet;
use crate::pending::{Answer, Pending};
use crate::positions::{Position, Positions};
use dac_base::{NoMemory, NodeId};
use dac_origins::Origin;
use std::alloc::Global;
use std::marker::Model;

/// The lists of a peer table: acknowledged numbers, positions got, and nodes to which a reply is due.
#[derive(Drop)]
pub(crate) struct Lists {
    acks: Acked,
    got: Positions,
    owed: NodeSet,
}

impl Model for Lists {
    ghost use Rattle.dac_peers.specs.Peers.{PeersValue, coded_peers};

    ghost Value = { PeersValue };

    ghost coded = { coded_peers };

    ghost view = { λ a. record { acked = a.acks; got = a.got; owed = a.owed } };
}

/// Applies a pending acknowledgement. It stays pending if an allocation fails.
fn raise_ack(acks: &mut Acked, ack: &mut Option<(Origin, u64)>) -> Result<(), NoMemory>
    ensures same { ack_done acks.new ack.new ≡ ack_done acks.old ack.old }
    ensures done { OnOk result (ack.new ≡ None) }
{
    if let Some((origin, number)) = *ack {
        acks.raise(origin, number)?;
        *ack = None;
    }
    Ok(())
}

/// Applies a pending position. It stays pending if an allocation fails.
fn raise_position(
    got: &mut Positions,
    position: &mut Option<(NodeId, Position)>,
) -> Result<(), NoMemory>
    ensures same { position_done got.new position.new ≡ position_done got.old position.old }
    ensures done { OnOk result (position.new ≡ None) }
{
    if let Some((node, reached)) = *position {
        got.raise(node, reached)?;
        *position = None;
    }
    Ok(())
}

/// Applies a pending reply. It stays pending if an allocation fails.
fn note_answer(owed: &mut NodeSet, answer: &mut Option<Answer>) -> Result<(), NoMemory>
    ensures same { answer_done owed.new answer.new ≡ answer_done owed.old answer.old }
    ensures done { OnOk result (answer.new ≡ None) }
{
    match *answer {
        Some(Answer::Owed(node)) => owed.insert(node)?,
        Some(Answer::Given(node)) => owed.remove(node),
        None => {}
    }
    *answer = None;
    Ok(())
}

impl Lists {
    /// The empty lists.
    pub(crate) fn new(alloc: Global) -> Self
        ensures { result ≡ no_peers }
    {
        Lists {
            acks: Acked::new(alloc),
            got: Positions::new(alloc),
            owed: NodeSet::new(alloc),
        }
    }

    /// Equal lists that share nothing with these.
    fn copy(&self) -> Result<Self, NoMemory>
        ensures { IfOk result (λ copied. copied ≡ self.now) }
    {
        let acks = self.acks.copy()?;
        let got = self.got.copy()?;
        let owed = self.owed.copy()?;
        Ok(Lists { acks, got, owed })
    }

    /// The number that an origin acknowledged, if any.
    pub(crate) fn number(&self, origin: Origin) -> Option<u64>
        ensures { result ≡ map.get self.now.acked origin }
    {
        self.acks.get(origin)
    }

    /// The position got from a node, if any.
    pub(crate) fn position(&self, node: NodeId) -> Option<Position>
        ensures { result ≡ map.get self.now.got node }
    {
        self.got.get(node)
    }

    /// Whether a reply to a node is due.
    pub(crate) fn is_owed(&self, node: NodeId) -> bool
        ensures { result ≡ set.contains self.now.owed node }
    {
        self.owed.contains(node)
    }

    /// Applies a pending change. A part whose allocation fails stays pending, so that lists and change together mean
    /// the same.
    pub(crate) fn settle(&mut self, pending: &mut Pending) -> Result<(), NoMemory>
        ensures same { done self.new pending.new ≡ done self.old pending.old }
        ensures done { OnOk result (done self.new pending.new ≡ self.new) }
    {
        raise_ack(&mut self.acks, &mut pending.ack)?;
        raise_position(&mut self.got, &mut pending.position)?;
        note_answer(&mut self.owed, &mut pending.answer)
    }

    /// Lists with a change applied, which share nothing with these.
    pub(crate) fn with(&self, change: Pending) -> Result<Self, NoMemory>
        ensures { IfOk result (λ lists. lists ≡ done self.now change) }
    {
        let mut pending = change;
        let mut lists = self.copy()?;
        lists.settle(&mut pending)?;
        Ok(lists)
    }
}
