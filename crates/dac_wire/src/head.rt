//! The head of a message.

use dac_base::NodeId;
use dac_origins::Origin;

/// A message without its state.
#[derive(Clone, Copy)]
pub(crate) struct Head {
    /// The incarnation that sent it.
    pub from: Origin,
    /// The receiving node.
    pub to: NodeId,
    /// The only incarnation of that node that can receive it; `None` if any can.
    pub only: Option<u64>,
    /// The sender's delta count.
    pub up_to: u64,
    /// The sender's acknowledgement, if any: an incarnation of the receiver, and its delta count.
    pub ack: Option<(Origin, u64)>,
}
