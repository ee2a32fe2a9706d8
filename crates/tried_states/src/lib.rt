//! Forged states and messages, and whether every call accepts them.
//!
//! The tests of the controller pass states written by hand, and the program `growths` random ones.
#![tactic(auto)]

pub use bearing::is_borne;

mod bearing;
