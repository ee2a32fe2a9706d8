//! Dot stores: values that contain dots, ordered and joined with causal contexts.
//!
//! If a dot is in a replica's context but not in its store, the replica removed it; if it isn't in the context, the
//! replica can still receive it. Therefore stores are joined with their contexts: a dot that only one side has stays
//! unless the other's context contains it. These are the dot stores of delta-state CRDTs. The trait [`DotStore`] states
//! the laws. They are proved for sets of dots ([`DotSet`]), maps from dots to a lattice ([`DotFun`]) and maps from keys
//! to dot stores ([`DotMap`]). A store paired with a context that has all its dots ([`Causal`]) is then a lattice.
//!
//! Stores mostly test whether a context contains a dot; only the join of two sets lists the dots of a context, if they
//! are few. A store and a context that change together ([`absorb_paired`]) do so in place if they can. Maps store their
//! entries in blocks, each with a filter of its dots, so that a join can share the blocks that it is known to leave
//! unchanged. A map that joins another one into itself ([`DotStore::absorb_in`]) changes a single entry in place if it
//! can. No contract mentions blocks: [`Entries`] iterates over the entries of a map.
//!
//! Public functions that don't return `Result<_, NoMemory>` allocate nothing. One that does fails only with `NoMemory`,
//! and then leaves its borrowed arguments unchanged.
#![tactic(auto)]

pub use causal::Causal;
pub use causal_ref::{CausalRef, absorb_paired};
pub use dac_dots::{Context, DotFilter, FilteredContext, LastStep};
pub use digest::StoreFilter;
pub use dot_fun::DotFun;
pub use dot_map::DotMap;
pub use dot_set::DotSet;
pub use dot_store::DotStore;

/// An iterator over the entries of a map of stores, in key order.
pub type Entries<'a, K, S> = dac_sorted::Entries<'a, K, S, StoreFilter>;

mod below;
mod causal;
mod causal_ref;
mod chunk;
mod digest;
mod dot_fun;
mod dot_map;
mod dot_set;
mod dot_store;
mod few;
mod few_entries;
mod joining;
mod predicates;
