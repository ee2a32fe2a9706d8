//! When a controller acts on a verdict: failover timers and the start gate.
//!
//! Each controller measures time at its own ticks. For each application, [`Waits`] records the lost claim that the last
//! tick found, if any, and the moment of the first of the consecutive ticks that found it. [`Waits::due`] returns
//! whether the application's verdict must be carried out now. [`gate`] returns whether a booted node still waits for
//! its mandatory and optional nodes, goes ahead, or gives up. [`Moments`] holds the moments of a node's boot and last
//! tick. Because each controller ticks at its own moments, controllers that heard the same operations can have
//! different waits.
//!
//! Only [`Waits::new`] and [`Waits::copy`] allocate. Their only error is `NoMemory`, which leaves their arguments
//! unchanged.
#![tactic(auto)]

pub mod laws;
mod moments;
mod start_gate;
mod waits;

pub use dac_board::Board;
pub use dac_placement::{Verdict, eligible, load, verdict};
pub use moments::Moments;
pub use start_gate::{Opening, gate};
pub use waits::Waits;
