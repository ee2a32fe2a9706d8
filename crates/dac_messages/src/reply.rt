//! Replies of a node.

ghost use Rattle.std.specs.Prelude.{◌≡◌, ◌↔◌, IfOk, IsTrue};

use crate::lists::{AppList, OpList};
use crate::message::Message;
use dac_base::NoMemory;
use dac_state::Op;

/// The result of an event that a node accepts.
#[derive(Drop)]
pub enum Reply {
    /// The node came up and issued this operation, its boot.
    Booted(Op),
    /// The node went down.
    Crashed,
    /// The node issued this operation for the command.
    Issued(Op),
    /// The node made a pass over its applications.
    Ticked {
        /// The claims that it issued, in the order of the applications' numbers.
        ops: OpList,
        /// The applications that it should have claimed, but whose terms are used up.
        passed: AppList,
    },
    /// The node still waits at its start gate, so that its tick claims nothing.
    Held,
    /// A mandatory node wasn't up in time, so the node went down.
    GaveUp,
    /// The node sends this message.
    Shipped(Message),
    /// The node merged the message or the operation; true if it contained anything new.
    Heard(bool),
}

impl Reply {
    /// Whether both are the same reply.
    pub fn equal(&self, other: &Self) -> bool
        ensures { IsTrue result ↔ (self.now ≡ other.now) }
    {
        match (self, other) {
            (Reply::Booted(operation), Reply::Booted(other_operation))
            | (Reply::Issued(operation), Reply::Issued(other_operation)) => {
                operation.equal(other_operation)
            }
            (Reply::Crashed, Reply::Crashed)
            | (Reply::Held, Reply::Held)
            | (Reply::GaveUp, Reply::GaveUp) => true,
            (
                Reply::Ticked { ops, passed },
                Reply::Ticked {
                    ops: other_ops,
                    passed: other_passed,
                },
            ) => ops.equal(other_ops) && passed.equal(other_passed),
            (Reply::Shipped(message), Reply::Shipped(other_message)) => {
                message.equal(other_message)
            }
            (Reply::Heard(fresh), Reply::Heard(other_fresh)) => fresh == other_fresh,
            _ => false,
        }
    }

    /// An equal reply.
    pub fn copy(&self) -> Result<Self, NoMemory>
        ensures { IfOk result (λ reply. reply ≡ self.now) }
    {
        match self {
            Reply::Booted(operation) => {
                let operation = operation.copy()?;
                Ok(Reply::Booted(operation))
            }
            Reply::Crashed => Ok(Reply::Crashed),
            Reply::Issued(operation) => {
                let operation = operation.copy()?;
                Ok(Reply::Issued(operation))
            }
            Reply::Ticked { ops, passed } => {
                let ops = ops.copy()?;
                let passed = passed.copy()?;
                Ok(Reply::Ticked { ops, passed })
            }
            Reply::Held => Ok(Reply::Held),
            Reply::GaveUp => Ok(Reply::GaveUp),
            Reply::Shipped(message) => {
                let message = message.copy()?;
                Ok(Reply::Shipped(message))
            }
            Reply::Heard(fresh) => Ok(Reply::Heard(*fresh)),
        }
    }
}
