//! The parser of configuration texts: from tokens to the names and numbers that are written.
//!
//! [`parse_draft`] returns the contents of a text as a [`Draft`], or the first fault in text order. It promises that,
//! unless memory runs out, a text is read exactly if it has at most 65,536 bytes, its tokens form a file by the grammar
//! of OTP's `sys.config`, the file keeps the limits, and it lists at least one application. The draft is then the one
//! that the text spells. No other function here allocates.
//!
//! Which fault is returned is defined by the function `draft_at`, which mirrors the parser. `dac_first_fault` has a law
//! that determines the same fault without mentioning a reader.
//!
//! Of the section `kernel` the parameters `distributed`, `permissions`, `sync_nodes_mandatory`, `sync_nodes_optional`
//! and `sync_nodes_timeout` are read. Any other section or parameter is a pair of a name and a term, which is parsed
//! and ignored. A string in place of a section, in Erlang the name of a file to include, is `Unsupported`.
#![tactic(auto)]

mod apps;
mod draft;
pub mod laws;
mod limits;
mod list;
mod names;
mod nodes;
mod numbers;
mod pairs;
mod param;
mod parser;
mod permissions;
mod reading;
mod sections;
mod terms;

pub use draft::{Draft, DraftApp, Permission, SyncWait};
pub use limits::{MAX_APPS, MAX_NAME, MAX_NODES, MAX_TEXT};
pub use names::is_among;
pub use reading::parse_draft;
