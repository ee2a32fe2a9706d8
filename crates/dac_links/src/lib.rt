//! Links: bounded FIFO channels that carry letters from one thread to another, each once.
//!
//! A [`Letter`] carries the bytes of a message, or ends a sequence of them. [`link`], the only function that allocates,
//! makes a link with a [`LinkSender`] and a [`LinkReceiver`]. The letters received are a prefix of those sent, which
//! [`LinkSender::compare`] proves.
#![tactic(auto)]

mod ends;
mod letter;
mod rule;

pub use ends::{Gone, LinkReceiver, LinkSender, link};
pub use letter::Letter;
pub use rule::{InOrder, Log};
