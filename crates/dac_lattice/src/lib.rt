//! Lattices: types in which any two values have a least upper bound, and maps to such types.
//!
//! A join is commutative, associative and idempotent, so that replicas that merge the same states agree, whatever their
//! order and repetition. The trait [`Lattice`] states the laws. They are proved for the maximum ([`Max`]), a flag that
//! goes down ([`Flag`]), pairs ([`Pair`]), and maps to a lattice ([`MapOf`]). [`merging`] merges maps stored as sorted
//! lists of entries.
//!
//! A [`Piece`] is a lattice to which each operation adds a delta, with a definition of the meaning of a set of
//! operations. Its law is that the joined deltas have that meaning.
//!
//! Functions that don't return `Result<_, NoMemory>` allocate nothing. `NoMemory` is the only error, and leaves
//! borrowed arguments unchanged.
#![tactic(auto)]

pub use chain::Max;
pub use dac_origins::{Dot, MapKey, Origin};
pub use flags::Flag;
pub use lattice::{Bottom, Lattice};
pub use maps::MapOf;
pub use pairs::Pair;
pub use pieces::Piece;

mod chain;
mod flags;
mod lattice;
mod maps;
pub mod merging;
mod pairs;
pub mod pieces;
