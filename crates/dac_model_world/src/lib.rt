//! All controllers of a cluster together: the model world, the world of sets, and the properties of every run.
//!
//! The model world contains a node for each controller, every operation issued and every message shipped. In the world
//! of sets each node is off or holds a set of operations, and nothing is merged; it lists each operation with the set
//! that its issuer held, which is the causal order. Every run takes the same steps in both worlds, so that what is
//! proved of sets holds of controllers: see [`laws`]. The definitions and laws here don't depend on the code that
//! implements a world.
#![tactic(auto)]

pub mod laws;
