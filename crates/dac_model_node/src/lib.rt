//! The model node: the rules of one controller as a definition. It keeps everything that it ever issued or heard, and
//! determines which events it refuses and what an accepted event does.
//!
//! Nothing here runs. The crate has definitions, and their laws as clauses of functions that do nothing. The program's
//! controller is proved against them, and the convergence of a world of such nodes is proved from them.
#![tactic(auto)]

pub use dac_commands;
pub use dac_ticks;

pub mod laws;
