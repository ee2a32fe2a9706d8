//! The peer table of a controller, which determines its messages to each peer.
//!
//! A controller numbers its own deltas. Each message carries its sender's delta count and a cumulative acknowledgement
//! of the receiver's deltas. [`Peers`] records both by incarnation, because a node that lost its memory has
//! acknowledged nothing. From these it computes where an interval for a node begins, and whether anything must be
//! shipped to it.
//!
//! Functions that don't return `Result<_, NoMemory>` allocate nothing, except [`Peers::settle`], which tolerates a
//! failed allocation. `NoMemory` is the only error, and leaves a public function's arguments unchanged.
#![tactic(auto)]

pub use peers::Peers;
pub use positions::Position;

mod acked;
pub mod laws;
mod lists;
mod nodes;
mod peers;
mod pending;
mod positions;
