//! The units of transfer between controllers.

use dac_messages::Message;
use dac_operations::Op;

/// The maximum length of a packet, in bytes.
pub const MAX_MESSAGE: usize = 4_194_304;

/// The unit that one controller sends to another.
#[derive(Drop)]
pub enum Packet {
    /// A message, with a state or without.
    Msg(Message),
    /// A single operation, without a message.
    Single(Op),
}
