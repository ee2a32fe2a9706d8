//! Settling: with no commands and no membership changes, rounds of ticks settle the placement.
//!
//! A world is ready if all running controllers know the same operations, including who runs. In a round each of them
//! ticks, after the waits of the losses that it has noted, and they share their states. After as many rounds as there
//! are applications, begun in a ready world, no verdict asks for a claim. Liveness isn't proved: nothing here implies
//! that rounds happen.
#![tactic(auto)]

pub use dac_model_world;

pub mod laws;
