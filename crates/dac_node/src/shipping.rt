//! Messages sent and received by a running controller.

ghost use Rattle.std.specs.Prelude.{◌≡◌, ◌≤◌, IfOk, IfSome};
ghost use Rattle.dac_meaning.specs.Below.{is_below};
ghost use Rattle.dac_peers.specs.Peers.{is_up_to_date as needs_nothing};
ghost use Rattle.dac_model_node.specs.Transitions.{body_from, message_of};
ghost use Rattle.dac_messages.specs.Bodies.{content_of};
ghost use Rattle.dac_node.specs.ByDots.{IsBelowByDots};

use crate::below::{is_below, is_below_by_dots};
use crate::running::Running;
use dac_base::{NoMemory, NodeId};
use dac_lattice::{Bottom, Lattice};
use dac_messages::{Body, Message};
use dac_peers::Position;
use dac_state::State;

impl Running {
    /// Returns whether nothing needs to be shipped to a node.
    pub(crate) fn is_up_to_date(&self, to: NodeId) -> bool
        ensures { let r = self.now in
            result ≡ needs_nothing r.peers r.state r.kept.base r.kept.count to }
    {
        let base = self.buffer.base();
        self.peers
            .is_up_to_date(&self.state, base, self.buffer.count(), to)
    }

    /// The body of a message from a position: nothing if the node has all, otherwise the interval since the position.
    /// Without a position it is the whole state.
    fn body_from(&self, from: Option<Position>) -> Result<Body, NoMemory>
        requires { IfSome from (λ position. self.now.kept.base ≤ position.number) }
        ensures { IfOk result (λ body. body ≡ body_from self.now from) }
    {
        let Some(position) = from else {
            let state = self.state.copy()?;
            return Ok(Body::Whole(state));
        };
        if self.buffer.count() <= position.number {
            return Ok(Body::Nothing);
        }
        match self.buffer.interval(position.number)? {
            Some(state) => Ok(Body::Interval(state)),
            None => unreachable!(),
        }
    }

    /// The next message to a node.
    pub(crate) fn message_to(&self, to: NodeId) -> Result<Message, NoMemory>
        ensures { IfOk result (λ message. message ≡ message_of self.now to) }
    {
        let from = self.peers.begins(&self.state, self.buffer.base(), to);
        let body = self.body_from(from)?;
        Ok(Message {
            from: self.origin,
            to,
            only: match from {
                Some(position) => Some(position.inc),
                None => None,
            },
            up_to: self.buffer.count(),
            body,
            ack: self.peers.ack_for(to),
        })
    }

    /// Makes the interval of the next message to a node, if it has one that takes joins, and caches it for that message
    /// and for the next node that needs it. If an allocation fails, the message makes it again.
    pub(crate) fn warm(&mut self, to: NodeId)
        ensures { self.new ≡ self.old }
    {
        let base = self.buffer.base();
        if self.buffer.count().saturating_sub(base) < 2 {
            return;
        }
        let Some(position) = self.peers.begins(&self.state, base, to) else {
            return;
        };
        if position.number < self.buffer.count() {
            let _made = self.buffer.warm_from(position.number);
        }
    }

    /// Returns whether the content of a message is below the state.
    pub(crate) fn knows(&self, message: &Message) -> bool
        ensures { result ≡ is_below (content_of message.now.body) self.now.state }
    {
        match message.body.state() {
            Some(state) => is_below(state, &self.state),
            None => is_below(&State::bottom(self.alloc), &self.state),
        }
    }

    /// Returns whether the content of a message is below the state, by comparing heard dots.
    pub(crate) fn knows_by_dots(&self, message: &Message) -> bool
        requires { IsBelowByDots (content_of message.now.body) self.now.state }
        ensures { result ≡ is_below (content_of message.now.body) self.now.state }
    {
        match message.body.state() {
            Some(state) => is_below_by_dots(state, &self.state),
            None => is_below_by_dots(&State::bottom(self.alloc), &self.state),
        }
    }
}
