//! Ticks: at a tick a controller claims the applications that its node should run now.
//!
//! [`sweep_of`] makes a [`Sweep`], a node's pass over all its applications at one tick, in the order of the configuration
//! file. Each application is evaluated in the state that this tick's earlier claims left, so that a controller sees its
//! own claims, and the load that they bring. The sweep holds the operations to issue, the applications that were passed
//! over, and the state after the claims. The caller carries it out; nothing here changes a state.
//!
//! A tick computes a verdict for each application for which its node is eligible, or up to its first claim reads the
//! verdicts from a board of the state. A controller can maintain one from tick to tick, as a [`KeptBoard`]. A claim
//! costs one delta and one join, and a tick without claims copies no state.
//!
//! Functions that don't return `Result<_, NoMemory>` allocate nothing. `NoMemory` is the only error, and leaves a
//! public function's arguments unchanged.
#![tactic(auto)]

pub use kept::KeptBoard;
pub use sweeping::{Sweep, board_under, sweep_of};

mod kept;
pub mod laws;
mod sweeping;
