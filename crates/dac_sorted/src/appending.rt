//! Whether a key can be appended to a list of entries in key order.
ghost use Rattle.std.specs.Prelude.{◌≡◌, ◌-◌, drop, length};
ghost use Rattle.dac_lattice.specs.Search.{IsInOrder};
ghost use Rattle.dac_sorted.specs.Appending.{is_above_entries};

use dac_origins::MapKey;

/// Whether the last key, if any, is below this one.
pub(crate) fn last_is_below<K: MapKey, X>(entries: &[(K, X)], key: K) -> bool
    ensures { result ≡ is_above_entries K.cmp (drop (length entries.now - 1) entries.now) key }
{
    match entries.last() {
        Some(last) => last.0.cmp(&key).is_lt(),
        None => true,
    }
}

/// Whether each key of a sorted list of entries is below this one.
pub fn ends_below<K: MapKey, X>(entries: &[(K, X)], key: K) -> bool
    requires { IsInOrder K.cmp entries.now }
    ensures { result ≡ is_above_entries K.cmp entries.now key }
{
    last_is_below(entries, key)
}
