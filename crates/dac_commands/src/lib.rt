//! Commands of an operator at a controller, as pure functions of a configuration, the controller's incarnation and its
//! state.
//!
//! [`refusal_of`] returns why a command is refused, and [`operation_of`] the operation that an accepted command issues.
//! [`claim`] returns the operation by which a controller claims an application without a command. Only [`operation_of`]
//! allocates, and its only error is `NoMemory`.
#![tactic(auto)]

pub use causes::refusal_of;
pub use counters::{dots_used_up, terms_used_up};
pub use issue::{claim, operation_of};

mod causes;
mod counters;
mod issue;
mod keys;
mod taking;
