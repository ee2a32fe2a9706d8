//! The two parts of a state that only grow along a total order: the life of each node and the greatest claim of each
//! application.
//!
//! An operation reports that a node came up or went down, or that an application was claimed. For each node and each
//! application the piece stores the maximum of all reports, so that replicas with the same operations agree, whatever
//! the order in which they received them. Both parts are lattices and pieces of a state. Contracts treat each as a
//! finite map, and define it from the set of operations.
//!
//! Functions that don't return `Result<_, NoMemory>` allocate nothing. `NoMemory` is the only error, and leaves
//! borrowed arguments unchanged.
#![tactic(auto)]

pub use claims::{Claim, ClaimAct, Claims, How};
pub use lives::{Life, LifeAct, Lives};

mod claims;
mod covering;
pub mod laws;
mod lives;
