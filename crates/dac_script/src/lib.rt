//! Reads the inputs of `distac sim` and `distac live`: a configuration, a line `--`, and a script.
//!
//! [`prepare`] and [`prepare_live`] read a whole input, or return its first fault: of its size, of its configuration,
//! or the least fault of the first faulty line. Nothing is run or printed here.
//!
//! The first word of a line determines the roles of the other words. One reader reads words by their roles, for both
//! kinds of scripts, and [`laws`] states which lines are accepted. A kind of lines implements [`ReadsLine`], so that
//! the rest of the crate serves both.
//!
//! Functions without an out-of-memory error allocate nothing. A call fails with `NoMemory` only if an allocation fails
//! before it finds a fault, so the error doesn't mean that the input is sound.
#![tactic(auto)]

mod byte_list;
mod failure;
mod fault;
mod input;
pub mod laws;
mod line;
mod lines;
mod live_line;
mod preparing;
mod source;
mod values;
mod verb;
mod words;

pub use byte_list::ByteList;
pub use failure::Failure;
pub use fault::{InputFault, ScriptFault, ScriptFaultKind};
pub use input::{MAX_INPUT, read_input, split_input};
pub use line::{Request, ScriptLine, line_of, read_script};
pub use lines::{ReadsLine, is_said, read_lines};
pub use live_line::{LiveLine, live_line_of, prepare_live, read_live_script};
pub use preparing::{prepare, prepare_lines};
pub use source::{MAX_READS, Progress, Source};
pub use words::{number_in, words_of};
