//! One controller: a node that is off, or runs with a state.
//!
//! A [`Node`] handles one event at a time, by [`Node::step`] or by its two halves. [`Node::prepare`] returns the
//! refusal of the event, or its effect as a [`Change`]. [`Node::apply`] applies the change. It first adds the new deltas
//! to the delta log and to the state, the only part that allocates, so a caller can reserve memory for its own data
//! before anything changes.
//!
//! At a tick a node re-evaluates placement: if its start gate is open, it notes which claims are lost, and claims the
//! applications that it should run. It decides by a board, which it maintains for its state. A ship sends a peer
//! whatever the peer hasn't acknowledged, as an interval of the newest deltas or as the whole state. A received state
//! is joined, in place if the node's state isn't shared, and deltas that all other nodes have acknowledged are dropped.
//!
//! Functions whose result can't carry `NoMemory` allocate nothing but caches, whose failed allocations are no error. A
//! call that fails leaves the node unchanged, and has no error besides `NoMemory` unless it names others. Each `Drop`
//! is written by hand, so that a proof sees it as one call.
//!
//! A caller of two nodes. The second node hears the first one's message as new, and refuses it after a crash. The
//! module `callers` of `controller_tests` runs it.
//!
//! ```
//! let mut sender = Node::off(alloc, 0);
//! let mut receiver = Node::off(alloc, 0);
//! sender.step(&config, main, Event::Boot { now: 0 }).ok()?;
//! receiver.step(&config, spare, Event::Boot { now: 0 }).ok()?;
//! let shipped = sender.step(&config, main, Event::Ship { to: spare });
//! let Ok(Reply::Shipped(message)) = shipped else {
//!     return None;
//! };
//! let again = message.copy().ok()?;
//! let heard = receiver.step(&config, spare, Event::Hear(message)).ok()?;
//! receiver.step(&config, spare, Event::Crash).ok()?;
//! let late = receiver.step(&config, spare, Event::Hear(again));
//! Some((heard.equal(&Reply::Heard(true)), late.err()?))
//! ```
#![tactic(auto)]

pub use change::Change;
pub use dac_events::Refusal;
pub use node::Node;

mod below;
mod change;
mod node;
mod notes;
mod refusals;
mod running;
mod shipping;
mod shown;
mod ticking;
