//! Numbers, origins, dots and causal contexts as bytes: a writer and a reader.
//!
//! All numbers are big-endian. An origin has five bytes and a dot thirteen; in [`Version::Two`] nine and seventeen. A
//! context is a version vector with a cloud: per origin the greatest n such that the counters 1 to n are all in the
//! context, and the further counters. Each call of [`ByteWriter`] appends exactly the bytes that this crate's `specs/`
//! define for the value, so that a value has one spelling. The rows of a context are proved to determine its dots.
//!
//! Each call of [`ByteReader`] returns exactly the value that its bytes spell, or the first fault from left to right
//! with its offset, as the reading functions of `specs/` define them. By the contract of
//! [`laws::fields_have_one_spelling`] a field that is read has the spelling of its value, which is in range, and each
//! value in range is read from its spelling. Therefore each field, and each context, has exactly one spelling that is
//! read.
//!
//! `NoMemory` has offset 0 and carries no information about the bytes. A count that doesn't fit its field is truncated
//! to its low bits. Reading a context reserves nothing for a count, because counts in bytes can be false. Functions
//! that neither take an allocator nor return `Result<_, NoMemory>` allocate nothing.
#![tactic(auto)]

mod context;
mod fault;
pub mod laws;
mod reader;
mod rows;
mod version;
mod writer;

pub use fault::{ReadFault, ReadFaultKind};
pub use reader::ByteReader;
pub use version::Version;
pub use writer::ByteWriter;
