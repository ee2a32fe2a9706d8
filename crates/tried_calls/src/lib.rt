//! Calls that allocate, tried while allocations fail.
//!
//! A [`Fixture`](trial::Fixture) is the fixture of a call. [`try_call`](trial::try_call) makes the call and prints the
//! outcome. This crate has the calls of configurations, contexts, lattices, states and messages. The program `growths`
//! has those of nodes, sites and worlds, and the table of all calls.
#![tactic(auto)]

pub mod bytes;
pub mod decisions;
pub mod messages;
pub mod operations;
pub mod pieces;
pub mod sample;
pub mod states;
pub mod together;
pub mod trial;
pub mod values;
