//! The first fault of a configuration text, determined by a law that mentions no reader, and the reader of drafts that
//! satisfies it.
//!
//! [`read_draft`] is the reader, and the only function here that allocates. It calls the parser of `dac_shapes`; its
//! contract adds that a fault that it returns is the one that the law admits.
//!
//! [`laws`] determines which fault a text has, if any. The cause is the text's length, an offset at which no token
//! begins, the end of the text, the lack of applications, or one token. In this last case the fault is at the token, or
//! at the bracket that the token closes with nothing between.
//!
//! The tokens before it are a valid prefix: some file begins with them, and some file that keeps the limits begins with
//! those up to the last name. With the token the prefix isn't valid. If the token is a name, no file that keeps the
//! limits begins so; otherwise no file does. Since each prefix of a valid prefix is valid, no other token satisfies the
//! law.
//!
//! A name causes the fault of the first limit, in a fixed order, that it breaks. No file that keeps this limit begins
//! with the tokens up to the name, whatever other limits it breaks. Unless the fault is `BadShape`, some file that
//! keeps the limits before it does.
//!
//! Any other token causes `BadShape`, unless a loose file begins with the tokens up to it. A loose file can have empty
//! lists and tuples of nodes, numbers that are too large, and strings in place of sections. The token then causes the
//! fault of the shape that it spoils.
#![tactic(auto)]

pub mod laws;
mod reading;

pub use reading::read_draft;
