//! Dots, the names of operations, and the keys of maps and sets.
//!
//! The dot of an operation is the node, its incarnation, and a counter from 1. Contracts are about finite sets of dots,
//! for which they define an origin's next dot and version vectors.
//!
//! Functions that don't return `Result<_, NoMemory>` allocate nothing.
#![tactic(auto)]

pub use dac_base::NoMemory;
pub use dot::{Dot, Origin};
pub use keys::MapKey;

mod dot;
pub mod keys;
