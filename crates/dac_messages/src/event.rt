//! Events of a node.

ghost use Rattle.std.specs.Prelude.{◌≡◌, ◌↔◌, IfOk, IsTrue};

use crate::message::Message;
use dac_base::{NoMemory, NodeId};
use dac_events::Command;
use dac_state::Op;

/// An event of a node.
#[derive(Drop)]
pub enum Event {
    /// The node comes up, under the next incarnation number.
    Boot {
        /// The present moment, in milliseconds.
        now: u64,
    },
    /// The node goes down and loses everything but its incarnation number.
    Crash,
    /// The node receives an operator's command.
    Command(Command),
    /// The node re-evaluates placement and claims the applications that it should run.
    Tick {
        /// The present moment, in milliseconds.
        now: u64,
    },
    /// The node sends another node the deltas which that one hasn't acknowledged, or the whole state.
    Ship {
        /// The receiver.
        to: NodeId,
    },
    /// The node receives this message.
    Hear(Message),
    /// The node receives this single operation, even if those that its issuer had heard are missing.
    HearOp(Op),
}

impl Event {
    /// Whether both are the same event.
    pub fn equal(&self, other: &Self) -> bool
        ensures { IsTrue result ↔ (self.now ≡ other.now) }
    {
        match (self, other) {
            (Event::Boot { now }, Event::Boot { now: other_now }) => now == other_now,
            (Event::Crash, Event::Crash) => true,
            (Event::Command(command), Event::Command(other_command)) => command == other_command,
            (Event::Tick { now }, Event::Tick { now: other_now }) => now == other_now,
            (Event::Ship { to }, Event::Ship { to: other_to }) => to == other_to,
            (Event::Hear(message), Event::Hear(other_message)) => message.equal(other_message),
            (Event::HearOp(operation), Event::HearOp(other_operation)) => {
                operation.equal(other_operation)
            }
            _ => false,
        }
    }

    /// An equal event.
    pub fn copy(&self) -> Result<Self, NoMemory>
        ensures { IfOk result (λ event. event ≡ self.now) }
    {
        match self {
            Event::Boot { now } => Ok(Event::Boot { now: *now }),
            Event::Crash => Ok(Event::Crash),
            Event::Command(command) => Ok(Event::Command(*command)),
            Event::Tick { now } => Ok(Event::Tick { now: *now }),
            Event::Ship { to } => Ok(Event::Ship { to: *to }),
            Event::Hear(message) => {
                let message = message.copy()?;
                Ok(Event::Hear(message))
            }
            Event::HearOp(operation) => {
                let operation = operation.copy()?;
                Ok(Event::HearOp(operation))
            }
        }
    }
}
