//! A scheduler that runs workers phase by phase, each in a thread of its own.
//!
//! A [`Worker`] has work in phases, and a part in the serial round after each. [`run_phases`] runs all workers of a
//! phase concurrently and joins their threads. Then it gives each link a turn, one after another, while no thread runs.
//! A fault drops all workers.
#![tactic(auto)]

pub use either::Either;
pub use parting::{joined, parted};
pub use phases::{run_phases, workers_of};
pub use worker::{Side, Stop, Turn, Worker};

mod either;
mod parting;
mod phases;
mod worker;
