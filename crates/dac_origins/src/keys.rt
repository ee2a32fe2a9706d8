//! Keys of maps and sets, and sorted lists of keys.
ghost use Rattle.std.specs.Prelude.{◌≡◌, ◌||◌, ◌&&◌, OnOk, OnErr, false, not};
ghost use Rattle.std.specs.Ordering.{eq_by_cmp};
ghost use Rattle.std.proofs.lemmas.Map.Lookups.{CmpEqualImpliesEq};
ghost use Rattle.dac_origins.specs.Keys.{IsRising, has_key};

use dac_base::{AppId, NoMemory, NodeId};

/// A type of keys: `Copy`, with an order in which only equal keys tie. Any order derived from numbers qualifies. It is
/// implemented for integers, `bool`, numbers of nodes and applications, origins, dots, and pairs of keys.
pub trait MapKey: Ord + Copy {
    /// Only equal keys tie.
    ghost exact: { CmpEqualImpliesEq Self.cmp };
}

impl MapKey for u8 {
    ghost use Rattle.std.proofs.lemmas.Map.Lookups.{exact_unsigned};

    ghost exact = { exact_unsigned };
}

impl MapKey for u16 {
    ghost use Rattle.std.proofs.lemmas.Map.Lookups.{exact_unsigned};

    ghost exact = { exact_unsigned };
}

impl MapKey for u32 {
    ghost use Rattle.std.proofs.lemmas.Map.Lookups.{exact_unsigned};

    ghost exact = { exact_unsigned };
}

impl MapKey for u64 {
    ghost use Rattle.std.proofs.lemmas.Map.Lookups.{exact_unsigned};

    ghost exact = { exact_unsigned };
}

impl MapKey for u128 {
    ghost use Rattle.std.proofs.lemmas.Map.Lookups.{exact_unsigned};

    ghost exact = { exact_unsigned };
}

impl MapKey for usize {
    ghost use Rattle.std.proofs.lemmas.Map.Lookups.{exact_unsigned};

    ghost exact = { exact_unsigned };
}

impl MapKey for i8 {
    ghost use Rattle.std.proofs.lemmas.Map.Lookups.{exact_signed};

    ghost exact = { exact_signed };
}

impl MapKey for i16 {
    ghost use Rattle.std.proofs.lemmas.Map.Lookups.{exact_signed};

    ghost exact = { exact_signed };
}

impl MapKey for i32 {
    ghost use Rattle.std.proofs.lemmas.Map.Lookups.{exact_signed};

    ghost exact = { exact_signed };
}

impl MapKey for i64 {
    ghost use Rattle.std.proofs.lemmas.Map.Lookups.{exact_signed};

    ghost exact = { exact_signed };
}

impl MapKey for i128 {
    ghost use Rattle.std.proofs.lemmas.Map.Lookups.{exact_signed};

    ghost exact = { exact_signed };
}

impl MapKey for isize {
    ghost use Rattle.std.proofs.lemmas.Map.Lookups.{exact_signed};

    ghost exact = { exact_signed };
}

impl MapKey for bool {
    ghost use Rattle.dac_origins.specs.laws.Bools.{exact_bools};

    ghost exact = { exact_bools };
}

/// Pairs are ordered by their first component, then by their second.
impl<A: MapKey, B: MapKey> MapKey for (A, B) {
    ghost use Rattle.std.proofs.lemmas.Map.Lookups.{exact_pairs};

    ghost exact = { exact_pairs A.cmp B.cmp A.exact B.exact };
}

impl MapKey for NodeId {
    ghost use Rattle.dac_base.specs.laws.Ids.{exact_nodes};

    ghost exact = { exact_nodes };
}

impl MapKey for AppId {
    ghost use Rattle.dac_base.specs.laws.Ids.{exact_apps};

    ghost exact = { exact_apps };
}

/// Whether a strictly sorted list contains the key.
pub fn holds_key<K: MapKey>(keys: &[K], key: K) -> bool
    requires { IsRising K.cmp keys.now }
    ensures { result ≡ has_key K.cmp keys.now key }
{
    keys.binary_search(&key).is_ok()
}

/// Inserts a key into a strictly sorted list, unless it is there. After [`NoMemory`] the list is unchanged.
pub fn insert_key<K: MapKey>(keys: &mut Vec<K>, key: K) -> Result<(), NoMemory>
    requires { IsRising K.cmp keys.old.items }
    ensures rising { IsRising K.cmp keys.new.items }
    ensures ok { OnOk result ((q : _)
        → has_key K.cmp keys.new.items q
        ≡ (eq_by_cmp K.cmp q key || has_key K.cmp keys.old.items q)) }
    ensures err { OnErr result (keys.new.items ≡ keys.old.items) }
    ensures first { OnErr result (has_key K.cmp keys.old.items key ≡ false) }
{
    if let Err(place) = keys.binary_search(&key) {
        keys.insert(place, key)?;
    }
    Ok(())
}

/// Removes a key from a strictly sorted list, if it is there.
pub fn remove_key<K: MapKey>(keys: &mut Vec<K>, key: K)
    requires { IsRising K.cmp keys.old.items }
    ensures rising { IsRising K.cmp keys.new.items }
    ensures value { (q : _)
        → has_key K.cmp keys.new.items q
        ≡ (not (eq_by_cmp K.cmp q key) && has_key K.cmp keys.old.items q) }
{
    if let Ok(place) = keys.binary_search(&key) {
        keys.remove(place);
    }
}
