//! Tests of bytes: numbers and contexts, states and their pieces, messages and single operations.
//!
//! The crates below are proved, so the tests cover what contracts can't: vectors and faults of the formats, and each
//! public call once with enough memory.
#![tactic(auto)]

#[cfg(test)]
mod bytes;
#[cfg(test)]
mod changes;
#[cfg(test)]
mod great_numbers;
#[cfg(test)]
mod messages;
#[cfg(test)]
mod sample;
#[cfg(test)]
mod state_bytes;
#[cfg(test)]
mod states;
#[cfg(test)]
mod two_faults;
