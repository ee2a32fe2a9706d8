//! The peer table of a controller.
ghost use Rattle.std.specs.Prelude.{◌≡◌, IfOk, Some, max};
ghost use Rattle.std.specs.FinSet as set;
ghost use Rattle.std.specs.FinMap as map;
ghost use Rattle.std.specs.Arc.{arc_value};
ghost use Rattle.dac_peers.specs.Peers.{no_peers, acked_at, begins, ack_for, is_up_to_date, shipped_to, counts, lesser, acked_after, got_by, heard_from, number_acked, acked_by_all};
ghost use Rattle.dac_peers.specs.Pending.{done, ack_done, position_done, answer_done};

use crate::lists::Lists;
use crate::pending::{Answer, Pending};
use crate::positions::Position;
use dac_base::{NoMemory, NodeId};
use dac_messages::{Body, Message, State};
use dac_origins::Origin;
use std::alloc::Global;
use std::marker::Model;
use std::sync::Arc;

/// Whether an acknowledgement counts: it names this node's origin and no more deltas than there are.
fn counts(own: Origin, count: u64, origin: Origin, number: u64) -> bool
    ensures { result ≡ counts own count (origin, number) }
{
    origin.node.0 == own.node.0 && origin.inc == own.inc && number <= count
}

/// The lesser of a number and the least before it, if there is one.
fn lesser(least: Option<u64>, number: u64) -> u64
    ensures { Some result ≡ lesser least number }
{
    match least {
        Some(least) => least.min(number),
        None => number,
    }
}

/// Applies a change to unshared lists. The change stays pending if the lists are shared, or partly if an allocation
/// fails.
fn settle_alone(kept: &mut Arc<Lists, Global>, pending: &mut Pending)
    ensures { done (arc_value kept.new) pending.new ≡ done (arc_value kept.old) pending.old }
{
    if let Some(lists) = Arc::get_mut(kept) {
        let _settled = lists.settle(pending);
    }
}

/// The peer table of a controller: how many of its deltas each incarnation of a peer acknowledged, the latest position
/// in each node's deltas that it received, and the nodes to which a reply is due.
///
/// Copies share their lists, so that a copy costs as much as a pointer. The change of one event is stored with the
/// pointer until [`Peers::settle`].
pub struct Peers {
    alloc: Global,
    kept: Option<Arc<Lists, Global>>,
    pending: Pending,
}

/// Written out so that a drop is one call in every proof.
impl Drop for Peers {
    fn drop(self) {
        let Peers {
            alloc: _alloc,
            kept: _kept,
            pending: _pending,
        } = self;
    }
}

impl Model for Peers {
    ghost use Rattle.dac_peers.specs.Peers.{PeersValue, coded_peers};
    ghost use Rattle.dac_peers.specs.Pending.{done, lists_kept};

    ghost Value = { PeersValue };

    ghost coded = { coded_peers };

    ghost view = { λ a. done (lists_kept a.kept) a.pending };
}

impl Peers {
    /// The empty table.
    pub fn new(alloc: Global) -> Self
        ensures { result ≡ no_peers }
    {
        Peers {
            alloc,
            kept: None,
            pending: Pending::none(),
        }
    }

    /// An equal table. It shares its lists with this one, which is safe because shared lists never change.
    pub fn copy(&self) -> Result<Self, NoMemory>
        ensures { IfOk result (λ copied. copied ≡ self.now) }
    {
        let kept = match &self.kept {
            Some(lists) => Some(Arc::try_clone(lists)?),
            None => None,
        };
        Ok(Peers {
            alloc: self.alloc,
            kept,
            pending: self.pending,
        })
    }

    /// Applies the last change to the lists if they are unshared. It stays pending if they are shared or an allocation
    /// fails; contracts see no difference.
    pub fn settle(&mut self)
        ensures { self.new ≡ self.old }
    {
        if self.pending.is_none() {
            return;
        }
        if let Some(kept) = &mut self.kept {
            settle_alone(kept, &mut self.pending);
        }
    }

    /// The lists with the pending change applied, which share nothing with these.
    fn settled(&self) -> Result<Lists, NoMemory>
        ensures { IfOk result (λ lists. lists ≡ self.now) }
    {
        match &self.kept {
            Some(lists) => lists.with(self.pending),
            None => Lists::new(self.alloc).with(self.pending),
        }
    }

    /// The lists with the pending change applied. They are shared if no change is pending.
    fn shared(&self) -> Result<Arc<Lists, Global>, NoMemory>
        ensures { IfOk result (λ lists. arc_value lists ≡ self.now) }
    {
        if self.pending.is_none() {
            if let Some(lists) = &self.kept {
                return Ok(Arc::try_clone(lists)?);
            }
        }
        let settled = self.settled()?;
        Ok(Arc::new(self.alloc, settled)?)
    }

    /// The table after a change.
    #[inline(always)]
    fn with(&self, change: Pending) -> Result<Self, NoMemory>
        ensures { IfOk result (λ peers. peers ≡ done self.now change) }
    {
        if change.is_none() {
            return self.copy();
        }
        let kept = self.shared()?;
        Ok(Peers {
            alloc: self.alloc,
            kept: Some(kept),
            pending: change,
        })
    }

    /// The number of deltas that an origin acknowledged, if any.
    fn number(&self, origin: Origin) -> Option<u64>
        ensures { result ≡ map.get self.now.acked origin }
    {
        let listed = match &self.kept {
            Some(lists) => lists.number(origin),
            None => None,
        };
        self.pending.number(origin, listed)
    }

    /// The latest position got from a node, if any.
    fn position(&self, node: NodeId) -> Option<Position>
        ensures { result ≡ map.get self.now.got node }
    {
        let listed = match &self.kept {
            Some(lists) => lists.position(node),
            None => None,
        };
        self.pending.position(node, listed)
    }

    /// Whether a reply to a node is due.
    fn is_owed(&self, node: NodeId) -> bool
        ensures { result ≡ set.contains self.now.owed node }
    {
        let listed = match &self.kept {
            Some(lists) => lists.is_owed(node),
            None => false,
        };
        self.pending.is_owed(node, listed)
    }

    /// How many deltas a node acknowledged as its present incarnation, that of its greatest life.
    #[inline(always)]
    fn acked_at(&self, state: &State, node: NodeId) -> Option<Position>
        ensures { result ≡ acked_at self.now state.now node }
    {
        let inc = state.lives().greatest_life(node)?.inc;
        let number = self.number(Origin { node, inc })?;
        Some(Position { inc, number })
    }

    /// Where an interval for a node begins, and for which incarnation, if the log has the deltas after number `base`.
    /// Returns `None` if the whole state must be shipped.
    pub fn begins(&self, state: &State, base: u64, to: NodeId) -> Option<Position>
        ensures { result ≡ begins self.now state.now base to }
    {
        let position = self.acked_at(state, to)?;
        if base <= position.number {
            Some(position)
        } else {
            None
        }
    }

    /// The acknowledgement for a node: its latest incarnation from which a state was received, and the greatest delta
    /// count of those messages.
    pub fn ack_for(&self, node: NodeId) -> Option<(Origin, u64)>
        ensures { result ≡ ack_for self.now node }
    {
        let position = self.position(node)?;
        let origin = Origin {
            node,
            inc: position.inc,
        };
        Some((origin, position.number))
    }

    /// Whether nothing needs to be shipped to a node, because it has acknowledged all `count` deltas and no reply to it
    /// is due.
    pub fn is_up_to_date(&self, state: &State, base: u64, count: u64, to: NodeId) -> bool
        ensures { result ≡ is_up_to_date self.now state.now base count to }
    {
        let Some(position) = self.begins(state, base, to) else {
            return false;
        };
        count <= position.number && !self.is_owed(to)
    }

    /// The table after a ship to a node, to which then no reply is due.
    pub fn shipped_to(&self, to: NodeId) -> Result<Self, NoMemory>
        ensures { IfOk result (λ peers. peers ≡ shipped_to self.now to) }
    {
        let answer = if self.is_owed(to) {
            Some(Answer::Given(to))
        } else {
            None
        };
        self.with(Pending {
            ack: None,
            position: None,
            answer,
        })
    }

    /// The table after an incoming message, at the origin `own`, which had `count` deltas before.
    pub fn heard_from(&self, own: Origin, count: u64, message: &Message) -> Result<Self, NoMemory>
        ensures { IfOk result (λ peers. peers ≡ heard_from own count self.now message.now) }
    {
        let ack = self.ack_of(own, count, message);
        let position = self.position_of(message);
        let answer = self.answer_to(message);
        self.with(Pending {
            ack,
            position,
            answer,
        })
    }

    /// The acknowledgement of a message, if its sender acknowledges more than before.
    fn ack_of(&self, own: Origin, count: u64, message: &Message) -> Option<(Origin, u64)>
        ensures { ack_done self.now.acked result
            ≡ acked_after own count self.now.acked message.now.from message.now.ack }
    {
        let (origin, number) = message.ack?;
        if !counts(own, count, origin, number) {
            return None;
        }
        match self.number(message.from) {
            Some(before) if number <= before => None,
            _ => Some((message.from, number)),
        }
    }

    /// The position that a message raises: its sender's, if it carries a state.
    fn position_of(&self, message: &Message) -> Option<(NodeId, Position)>
        ensures { position_done self.now.got result
            ≡ (got_by self.now message.now.from message.now.up_to message.now.body).got }
    {
        if let Body::Nothing = message.body {
            return None;
        }
        let position = Position {
            inc: message.from.inc,
            number: message.up_to,
        };
        Some((message.from.node, position))
    }

    /// The reply that a message makes due: to its sender, if it carries a state, unless one is due already.
    fn answer_to(&self, message: &Message) -> Option<Answer>
        ensures { answer_done self.now.owed result
            ≡ (got_by self.now message.now.from message.now.up_to message.now.body).owed }
    {
        match message.body {
            Body::Whole(_) | Body::Interval(_) => {
                if self.is_owed(message.from.node) {
                    return None;
                }
                Some(Answer::Owed(message.from.node))
            }
            Body::Nothing => None,
        }
    }

    /// How many deltas a node acknowledged, 0 if none.
    fn number_acked(&self, state: &State, node: NodeId) -> u64
        ensures { result ≡ number_acked self.now state.now node }
    {
        match self.acked_at(state, node) {
            Some(position) => position.number,
            None => 0,
        }
    }

    /// The greater of `base` and the number of deltas that every other node acknowledged, which is 0 without other
    /// nodes. It stops at the first node that acknowledged at most `base`.
    pub fn acked_past(&self, state: &State, nodes: u8, own: NodeId, base: u64) -> u64
        ensures { result ≡ max base (acked_by_all self.now state.now nodes own) }
    {
        let mut least = None;
        for number in 0..nodes {
            if number != own.0 {
                let acked = self.number_acked(state, NodeId(number));
                if acked <= base {
                    return base;
                }
                least = Some(lesser(least, acked));
            }
        }
        least.unwrap_or(base)
    }
}
