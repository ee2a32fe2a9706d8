//! The limits of a configuration.

pub use dac_base::{MAX_APPS, MAX_NODES};

/// The maximum length of a node's or application's name, in bytes.
pub const MAX_NAME: usize = 255;

/// The maximum length of a configuration text, in bytes.
pub const MAX_TEXT: usize = 65536;
