//! The meaning of a set of operations: the state that controllers store in its place.
//!
//! The meaning of a set of operations consists of the heard dots, the known dots, the standing permits, start wishes
//! and drains, the life of each node, and the greatest claim of each application. States have an order in which their
//! join is the least upper bound. The join of the meanings of two sets is the meaning of their union. This crate
//! contains only the definitions and these [`laws`], independent of the storage of a state.
#![tactic(auto)]

pub use dac_operations::{Act, Op, OpFault};

pub mod laws;
