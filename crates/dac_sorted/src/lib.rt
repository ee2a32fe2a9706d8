//! Sorted maps whose copies share memory.
//!
//! A [`SortedMap`] stores its entries in blocks that maps share, and the last ones in a list after them; a small map has
//! no blocks, and a map of one entry stores it in one allocation. Contracts treat a map as the list of its entries in key
//! order and say nothing about blocks. One merge ([`SortedMap::merge`]) combines two maps key by key, as a [`Sharing`]
//! says, and shares the blocks that stay. Each block has a [`Digest`] of its entries, by which a merge or a [`Predicate`]
//! of all entries passes over it. A value that no other map shares can change in place ([`SortedMap::alter`]).
//!
//! Functions that don't return `Result<_, NoMemory>` allocate nothing. A function that fails, only ever with
//! `NoMemory`, leaves its borrowed arguments unchanged.
#![tactic(auto)]

pub use appending::ends_below;
pub use chunks::{Chunk, Chunks};
pub use dac_lattice::merging::{Alter, Combine};
pub use dac_origins::{MapKey, NoMemory};
pub use digest::Digest;
pub use entries::Entries;
pub use map::SortedMap;
pub use predicate::Predicate;
pub use sharing::Sharing;

mod appending;
mod block;
mod chunks;
mod counted;
mod digest;
mod entries;
mod map;
mod merging;
mod parts;
mod predicate;
mod sharing;
mod single;
