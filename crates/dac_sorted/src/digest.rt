//! Digests of blocks.
ghost use Rattle.std.specs.Prelude.{◌≡◌, ◌<◌, ◌^◌, IfOk};

use dac_origins::{MapKey, NoMemory};

/// Knowledge of the entries of a block without a look at them, and how their values are copied.
pub trait Digest<K: MapKey, V: Drop>: Copy {
    /// What a digest says of an entry.
    ghost says: { Self → K → V → Type 0 };

    /// The digest of no entries.
    fn none() -> Self;

    /// Adds an entry. The digest keeps what it says of the others.
    fn put(&mut self, key: K, value: &V)
        ensures own { says self.new key value.now }
        ensures more { (k : K) (v : V) → says self.old k v → says self.new k v };

    /// An equal value.
    fn copy(value: &V) -> Result<V, NoMemory>
        ensures { IfOk result (λ copied. copied ≡ value.now) };

    /// The least size of the blocks that a merge makes. A block has at most twice as many entries.
    fn least() -> usize
        ensures { (0 < result) × (result < 2 ^ 16) };
}
