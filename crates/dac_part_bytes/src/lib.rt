//! The parts of a state as bytes: permits, start wishes, lives, claims and drains.
//!
//! All numbers are big-endian. A part is a count and its items in ascending order, so that equal parts have equal
//! bytes. An item of permits, start wishes and drains is a key with its standing dots, of which there is at least one.
//! Each `write` function appends exactly the bytes that this crate's `specs/` define for the part. `NoMemory` is its
//! only error, and discards the writer. A count that doesn't fit its field is truncated to its low bits.
//!
//! Each `read` function returns the part and the reader after it, or the first fault from left to right with its
//! offset, exactly as `specs/Reading` defines them, unless it fails with `NoMemory` at 0, which carries no information
//! about the bytes. It accepts only names of the configuration, and only known dots. By its contract a part that is
//! read is well-formed by `specs/ChainForm` and `specs/KeyedForm` and has the bytes read as its spelling, and each
//! well-formed part is read from its spelling; [`laws::parts_have_one_spelling`] states this for all offsets. Items are
//! read one by one, so that a false count can't reserve more memory than the bytes justify. Functions that neither take
//! an allocator nor return a writer allocate nothing.
#![tactic(auto)]

pub use dac_config::Config;
pub use reading_chains::{read_claims, read_lives};
pub use reading_fields::{read_app, read_key, read_manner};
pub use reading_starts::read_wishes;
pub use reading_votes::{read_drains, read_permissions};
pub use writing::{
    write_claims, write_drains, write_key, write_lives, write_manner, write_permissions,
    write_wishes,
};

pub mod laws;
mod reading_chains;
mod reading_fields;
mod reading_starts;
mod reading_votes;
mod writing;
