//! Messages between controllers, and a controller's events and replies, as values.
//!
//! A [`Message`] carries the sender's whole state, a delta interval since an acknowledgement, or nothing, and
//! acknowledges the receiver's deltas. An [`Event`] is anything that happens at a node: a boot, a crash, a command, a
//! tick, a ship, or an incoming message or single operation. A [`Reply`] is the result of an accepted event.
//!
//! Each type has `equal`, which returns true exactly when both values are equal, and `copy`, which returns an equal
//! value. Only `copy` allocates. Its only error is `NoMemory`, and its argument stays as it is.
#![tactic(auto)]

pub use dac_state::State;
pub use event::Event;
pub use lists::{AppList, OpList};
pub use message::{Body, Message};
pub use reply::Reply;

mod event;
mod lists;
mod message;
mod reply;
