//! The configuration that all controllers of a cluster share: the nodes, the distributed applications with their groups
//! of nodes, and how long a starting node waits for the others.
//!
//! A configuration is read from the text of an Erlang configuration file, whose section `kernel` contains OTP's
//! parameters for distributed applications. Afterwards nodes and applications are numbers. Contracts see a
//! configuration as a `Table`.
//!
//! Functions that don't return a `Result` allocate nothing. [`NoMemory`] is the only error of those that return
//! `Result<_, NoMemory>`, and leaves their arguments unchanged unless a function documents otherwise.
#![tactic(auto)]

mod config;
mod mark;
mod naming;
mod read;
mod sink;

pub use config::Config;
pub use dac_base::{AppId, NoMemory, NodeId};
pub use dac_shapes::SyncWait;
pub use dac_tokens::{ConfigFault, FaultKind};
pub use naming::{is_bare, printed_name, put_printed_name};
pub use read::read_config;
