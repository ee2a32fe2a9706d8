//! A list of bytes as a value of a script line.
ghost use Rattle.std.specs.Prelude.{◌≡◌};

use std::marker::Model;

/// A list of bytes. Contracts see the list.
pub struct ByteList {
    bytes: Vec<u8>,
}

/// Written out so that proofs see each drop as one call.
impl Drop for ByteList {
    fn drop(self) {
        let ByteList { bytes: _bytes } = self;
    }
}

impl Model for ByteList {
    ghost use Rattle.std.specs.Prelude.{List, ℕ};

    ghost Value = { List ℕ };

    ghost view = { λ a. a.bytes.items };
}

impl ByteList {
    /// Wraps a vector.
    pub fn new(bytes: Vec<u8>) -> Self
        ensures { result ≡ bytes.items }
    {
        ByteList { bytes }
    }

    /// The bytes, in order.
    pub fn as_slice(&self) -> &[u8]
        ensures { result.now ≡ self.now }
    {
        self.bytes.as_slice()
    }
}
