//! Predicates of the entries of a map.
ghost use Rattle.std.specs.Prelude.{◌≡◌, ◌↔◌, true, IsTrue, IfSome};
ghost use Rattle.dac_sorted.specs.Digests.{SaysAll};

use crate::chunks::Chunk;
use crate::digest::Digest;
use dac_origins::MapKey;

/// A predicate of entries, which a digest can decide for a whole block.
pub trait Predicate<K: MapKey, V: Drop, D: Digest<K, V>> {
    /// What an entry that passes satisfies.
    ghost holds: { Self → K → V → Type 0 };

    /// Whether an entry passes.
    fn passes(&self, key: K, value: &V) -> bool
        ensures { IsTrue result ↔ holds self.now key value.now };

    /// Whether a digest proves that all entries of its block pass. By default it proves nothing.
    fn all_pass(&self, digest: &D) -> bool
        ensures { result ≡ true → (k : K) (v : V) → D.says digest.now k v → holds self.now k v }
    {
        false
    }
}

/// Whether each entry of a chunk passes.
pub(crate) fn chunk_passes<K: MapKey, V: Drop, D: Digest<K, V>, T: Predicate<K, V, D>>(
    chunk: &Chunk<'_, K, V, D>,
    predicate: &T,
) -> bool
    requires { IfSome chunk.now.digest (λ d. SaysAll (D.says d.now) chunk.now.entries.now) }
    ensures { IsTrue result ↔ SaysAll (T.holds predicate.now) chunk.now.entries.now }
{
    if let Some(digest) = chunk.digest {
        if predicate.all_pass(digest) {
            return true;
        }
    }
    each_passes(chunk.entries, predicate)
}

/// Whether each of these entries passes.
fn each_passes<K: MapKey, V: Drop, D: Digest<K, V>, T: Predicate<K, V, D>>(
    entries: &[(K, V)],
    predicate: &T,
) -> bool
    ensures { IsTrue result ↔ SaysAll (T.holds predicate.now) entries.now }
{
    for (key, value) in entries {
        if !predicate.passes(*key, value) {
            return false;
        }
    }
    true
}
