//! Ways to merge two maps that know which values stay.
ghost use Rattle.std.specs.Prelude.{◌≡◌, true, Some, None, Option};
ghost use Rattle.std.specs.Option.{option_copied};

use crate::digest::Digest;
use dac_lattice::merging::Combine;
use dac_origins::MapKey;

/// A way to combine two maps, and which values of the first one it is known to leave unchanged.
pub trait Sharing<K: MapKey, V: Drop, D: Digest<K, V>>: Combine<K, V> {
    /// What each entry of the first map satisfies, which [`Sharing::leaves`] relies on.
    ghost fits: { Self → K → V → Type 0 };

    /// Whether the first map's value at a key is known to stay, given the second map's there, if any.
    fn stays(&self, key: K, mine: &V, theirs: Option<&V>) -> bool
        ensures { result ≡ true
            → Self.combined self.now key (Some mine.now) (option_copied theirs.entry)
            ≡ Some mine.now };

    /// Whether all values of a block of the first map are known to stay if the second map has none of its keys.
    fn leaves(&self, digest: &D) -> bool
        ensures { result ≡ true → (k : K) (v : V) → D.says digest.now k v → fits self.now k v
            → Self.combined self.now k (Some v) None ≡ Some v };

    /// Whether both values are the same, so that a block with `mine` is worth a comparison. Only the time of a merge
    /// depends on it.
    fn is_same(&self, mine: &V, theirs: &V) -> bool;
}
