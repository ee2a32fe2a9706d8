//! The state of a controller: a delta-state CRDT that replaces the operations received.
//!
//! The meaning of a set of operations is a [`State`]: the dots heard, the dots known, the standing permits, start
//! wishes and drains, the life of each node, and the greatest claim of each application. Controllers store only states
//! and none of the operations. The meaning of one operation is its delta ([`State::delta_of`]). The join of the
//! meanings of two sets is the meaning of their union, so that nothing is lost. All values of the type form a lattice.
//!
//! A state has one spelling in bytes ([`State::encode`]), from which it is read ([`State::decode`]). A state without
//! drains also has an older spelling, in version 1 ([`State::decode_1`]).
//!
//! Functions that don't return a `Result` allocate nothing. `NoMemory` is the only error of those that return
//! `Result<_, NoMemory>`, and leaves borrowed arguments unchanged.
#![tactic(auto)]

pub mod laws;

pub use dac_bytes::{ReadFault as StateFault, ReadFaultKind as StateFaultKind};
pub use dac_chains::{Claim, Claims, How, Life, Lives};
pub use dac_meaning::{Act, Op, OpFault};
pub use dac_wishes::{
    DotList, Drains, DrainsRef, Key, Permissions, PermissionsRef, StandingWrites, Wishes, WishesRef,
};
pub use state::State;

mod coding;
mod covering;
mod decoding;
mod delta;
mod heard;
mod parts;
mod state;
