//! The tokens of a configuration text, and the faults that such a text can have.
//!
//! A configuration is an Erlang term in the form of a `sys.config` file. This crate reads its bytes as a list of
//! tokens, each with the offset of its first byte. It skips blanks and comments, and stops if no token begins. A text
//! is read without fault exactly as the grammar of tokens spells it, and with a fault exactly as the table of token
//! faults states it (clauses of [`Tokens::new`]). `dac_shapes` determines which tokens form a configuration. Nothing
//! here allocates.
#![tactic(auto)]

mod fault;
mod scan;
mod token;
mod tokens;

pub use fault::{ConfigFault, FaultKind};
pub use token::{Located, MAX_DEPTH, Symbol, Token};
pub use tokens::Tokens;
