//! Faults of the world of all controllers.

use crate::Refusal;

/// Why an event of the world has no effect. Causes are checked in this order.
#[derive(Clone, Copy, Debug, PartialEq, Eq)]
pub enum WorldFault {
    /// The world has no such node.
    NoSuchNode,
    /// No message of this number was shipped.
    NoSuchMessage,
    /// No operation of this number was issued.
    NoSuchOperation,
    /// The node refuses the event.
    Refused(Refusal),
}
