//! Messages between controllers.

ghost use Rattle.std.specs.Prelude.{◌≡◌, ◌↔◌, IfOk, IsTrue};

use dac_base::{NoMemory, NodeId};
use dac_lattice::Lattice;
use dac_origins::Origin;
use dac_state::State;

/// The content of a message.
#[derive(Drop)]
pub enum Body {
    /// The sender's whole state.
    Whole(State),
    /// A delta interval: the join of the sender's deltas after those that the receiver acknowledged.
    Interval(State),
    /// Nothing, because the receiver acknowledged all deltas of the sender. The message is sent for its
    /// acknowledgement.
    Nothing,
}

impl Body {
    ghost use Rattle.std.specs.Option.{option_copied};
    ghost use Rattle.dac_messages.specs.Bodies.{state_in};

    /// The state that the body carries, if any.
    pub fn state(&self) -> Option<&State>
        ensures { option_copied result ≡ state_in self.now }
    {
        match self {
            Body::Whole(state) | Body::Interval(state) => Some(state),
            Body::Nothing => None,
        }
    }

    /// Whether both are the same body.
    pub fn equal(&self, other: &Self) -> bool
        ensures { IsTrue result ↔ (self.now ≡ other.now) }
    {
        match (self, other) {
            (Body::Whole(state), Body::Whole(other_state))
            | (Body::Interval(state), Body::Interval(other_state)) => state.equal(other_state),
            (Body::Nothing, Body::Nothing) => true,
            _ => false,
        }
    }

    /// An equal body.
    pub fn copy(&self) -> Result<Self, NoMemory>
        ensures { IfOk result (λ body. body ≡ self.now) }
    {
        match self {
            Body::Whole(state) => {
                let state = state.copy()?;
                Ok(Body::Whole(state))
            }
            Body::Interval(state) => {
                let state = state.copy()?;
                Ok(Body::Interval(state))
            }
            Body::Nothing => Ok(Body::Nothing),
        }
    }
}

/// A message from one controller to another. (After the anti-entropy algorithm of Almeida, Shoker and Baquero: a delta
/// interval or the whole state, with an acknowledgement.)
#[derive(Drop)]
pub struct Message {
    /// The sender, an incarnation of a node.
    pub from: Origin,
    /// The receiving node.
    pub to: NodeId,
    /// The receiver's incarnation, if only that one can use the message. A whole state is for any incarnation.
    pub only: Option<u64>,
    /// How many deltas the sender had when it sent the message.
    pub up_to: u64,
    /// The content.
    pub body: Body,
    /// The sender's cumulative acknowledgement: the receiver's latest incarnation from which it received a state, with
    /// the greatest delta count of those messages.
    pub ack: Option<(Origin, u64)>,
}

impl Message {
    /// Whether both are the same message.
    pub fn equal(&self, other: &Self) -> bool
        ensures { IsTrue result ↔ (self.now ≡ other.now) }
    {
        self.from == other.from
            && self.to == other.to
            && self.only == other.only
            && self.up_to == other.up_to
            && self.ack == other.ack
            && self.body.equal(&other.body)
    }

    /// An equal message.
    pub fn copy(&self) -> Result<Self, NoMemory>
        ensures { IfOk result (λ message. message ≡ self.now) }
    {
        let body = self.body.copy()?;
        Ok(Message {
            from: self.from,
            to: self.to,
            only: self.only,
            up_to: self.up_to,
            body,
            ack: self.ack,
        })
    }
}
