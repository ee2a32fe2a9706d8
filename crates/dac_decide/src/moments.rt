//! The moments of a running node.

/// The moments of a running node's boot and last tick, in milliseconds.
#[derive(Clone, Copy, Debug, PartialEq, Eq)]
pub struct Moments {
    /// The moment of the boot.
    pub booted: u64,
    /// The moment of the last accepted tick, or of the boot if there was none.
    pub last: u64,
}
