//! Operations: the acts of controllers, each named by a dot.
//!
//! Whatever a controller does is an operation, an [`Act`] with a dot that no other operation has. [`Op`] guarantees the
//! rules of every operation, whoever issued it: it doesn't replace itself; the dots that it replaces ascend and are
//! few; counter 1 belongs to the node's coming up; and no node declares itself down. Each piece of a state depends on
//! one part of an operation, which a method of [`Op`] returns.
//!
//! Functions that don't return `Result<_, NoMemory>` allocate nothing. In those that do, `NoMemory` is the only error,
//! and leaves borrowed arguments unchanged.
#![tactic(auto)]

pub use act::Act;
pub use op::{Op, OpFault};

mod act;
mod op;
mod seen;
