//! Causal contexts: the sets of dots that a replica has received.
//!
//! These are the causal contexts of delta-state CRDTs. Contracts treat a context as a finite set of dots and say
//! nothing about its representation. They promise the laws of sets: the members, equality of sets with the same
//! members, and the next dot of an origin.
//!
//! A context is stored by origin, as spans of consecutive counters, so that the time of calls depends on the number of
//! origins and gaps and not on that of dots. Only listing all dots, or the further counters of a row, takes time for
//! each one. Copies share memory, so a copy only increments a reference count. A context that no copy shares can change
//! in place, together with a target: [`Context::absorb_after`] makes room, takes a [`LastStep`] on the target, and then
//! inserts, so that both change or neither.
//!
//! Public functions that don't return `Result<_, NoMemory>` allocate nothing. One that fails, only ever with
//! [`NoMemory`], leaves its borrowed arguments unchanged.
#![tactic(auto)]

pub use context::Context;
pub use dac_origins::{Dot, MapKey, NoMemory, Origin, keys};
pub use filter::DotFilter;
pub use filtered::FilteredContext;
pub use further::{Further, FurtherIter};
pub use last_step::LastStep;

mod context;
mod counters;
mod filter;
mod filtered;
mod further;
mod last_step;
mod news;
mod rows;
mod spans;
