//! The delta log that a replica stores for its peers, and their acknowledgements.
//!
//! A replica numbers the deltas of its state from 0, and stores the newest of them. A peer that acknowledged all deltas
//! below a number receives the join of the later ones, an interval, in place of the whole state. These are the delta
//! intervals of delta-state CRDTs. A [`Buffer`] stores at most [`MAX_DELTAS`] deltas of any lattice with a least value,
//! and [`Acks`] the greatest number that each origin acknowledged.
//!
//! Contracts see a buffer as a count, the least stored number, and the deltas from there on. [`laws`] states that this
//! is the rest of an append-only log, and that an interval is the join of the log's deltas.
//!
//! Functions that don't return `Result<_, NoMemory>` allocate nothing. A public function that fails, only ever with
//! `NoMemory`, leaves its borrowed arguments unchanged as contracts see them. [`Buffer::stage`] alone takes its buffer
//! by value, and if memory runs out it hands the buffer back in place of `NoMemory`.
#![tactic(auto)]

pub use acks::Acks;
pub use buffer::{Buffer, MAX_DELTAS};
pub use entries::Entries;
pub use staged::Staged;

mod acks;
mod blocks;
mod buffer;
mod entries;
pub mod laws;
mod staged;
