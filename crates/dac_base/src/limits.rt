//! Limits that more than one crate uses.

/// The greatest number of different nodes in a configuration.
pub const MAX_NODES: usize = 64;

/// The greatest number of applications in a configuration.
pub const MAX_APPS: usize = 64;

/// The greatest number of operations that one operation can replace.
pub const MAX_REPLACED: usize = 1_024;

/// The greatest incarnation of a node.
pub const MAX_INCARNATION: u64 = 1 << 62;

/// The greatest counter of a dot, the greatest term of a claim, and the greatest number of deltas that a buffer counts.
pub const MAX_COUNTER: u64 = 1 << 62;
