//! Merges the journals of sites into one run of the world.
//!
//! A journal records the events of one node. [`weave`] puts the records of all journals into one order, in which each
//! message is delivered after it was shipped, and each operation after it was issued. It returns that order as a list
//! of world events, whose run has at each node exactly the records of its journal, so the guarantees of every run hold
//! for the journals. If no such list exists, a [`WeaveFault`] names the node and the record at which every run stops.
//! [`weave_phases`] also keeps the order of the phases of the journals.
#![tactic(auto)]

pub use fault::WeaveFault;
pub use weaving::{Woven, weave, weave_phases};

mod buckets;
mod cursor;
mod fault;
mod indexed_list;
mod labels;
mod mail;
mod merge;
mod part;
mod replay;
mod unfit;
mod weaving;
