//! Journals: a node with the log of its events and results.
//!
//! A [`Journal`] contains the node itself, so each of its records is a step of that node. Closing it returns a
//! [`Closed`] one.
//!
//! Functions that don't return `Result<_, NoMemory>` allocate nothing. Those that do have no other error, and if they
//! fail everything borrowed is unchanged, as far as contracts see. Each `Drop` is written by hand, so that a proof sees
//! it as one call.
#![tactic(auto)]

pub use answers::{is_answered, is_no_memory, same_answer};
pub use closed::Closed;
pub use dac_model_world::laws::every_list_converges;
pub use dac_node::{Change, Node};
pub use journal::Journal;
pub use limits::MAX_RECORDS;
pub use next::Next;
pub use record::{Answer, Call, Record};

mod answers;
mod closed;
mod journal;
mod limits;
mod next;
mod record;
