//! The versions of the bytes.

/// How incarnations are written. Numbers, dots and contexts are otherwise equal in both versions.
#[derive(Clone, Copy, Debug, PartialEq, Eq, Hash)]
pub enum Version {
    /// In four bytes.
    One,
    /// In eight bytes.
    Two,
}
