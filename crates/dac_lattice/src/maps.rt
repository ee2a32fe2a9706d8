//! Maps to a lattice.
ghost use Rattle.std.specs.Prelude.{◌≡◌, ◌↔◌, ◌<◌, [], ◌∷◌, length, IfOk, IfSome, IsSome, Some};
ghost use Rattle.std.specs.Option.{option_copied};
ghost use Rattle.std.specs.FinMap.{find};
ghost use Rattle.dac_lattice.specs.Lattices.{IsOptionBelow};
ghost use Rattle.dac_lattice.specs.Maps.{IsMap};
ghost use Rattle.dac_lattice.specs.Search.{IsInOrder};

use crate::merging::{Combine, merge, place_near, value_at, value_near};
use crate::{Bottom, Lattice};
use dac_origins::{MapKey, NoMemory};
use std::alloc::Global;
use std::marker::Model;
use std::sync::Arc;

/// A map from keys to values of a lattice, ordered and joined key by key; an absent key counts as least. Contracts
/// treat it as the list of its entries in key order.
///
/// Entries are immutable, so copies share them, and so does a join if this map is empty or the other one is below it.
#[derive(Drop)]
pub struct MapOf<K: MapKey, L: Lattice> {
    alloc: Global,
    kept: Option<Arc<Vec<(K, L)>, Global>>,
}

impl<K: MapKey, L: Lattice> Model for MapOf<K, L> {
    ghost use Rattle.std.specs.Prelude.{List};
    ghost use Rattle.dac_lattice.specs.Maps.{IsMap, entries_kept};

    ghost Value = { List (K × L) };

    ghost view = { λ m. entries_kept m.kept };

    ghost invariant = { λ m. IsMap K.cmp L.is_value (entries_kept m.kept) };
}

impl<K: MapKey, L: Lattice> MapOf<K, L> {
    /// The map with one entry.
    pub fn one(alloc: Global, key: K, value: L) -> Result<Self, NoMemory>
        ensures { IfOk result (λ map. map ≡ (key, value) ∷ []) }
    {
        value.tells_invariant();
        let mut entries = Vec::new(alloc);
        entries.push((key, value))?;
        MapOf::of(alloc, entries)
    }

    /// The map of these entries, which copies will share.
    fn of(alloc: Global, entries: Vec<(K, L)>) -> Result<Self, NoMemory>
        requires { IsMap K.cmp L.is_value entries.items }
        ensures { IfOk result (λ map. map ≡ entries.items) }
    {
        let kept = Arc::new(alloc, entries)?;
        Ok(MapOf {
            alloc,
            kept: Some(kept),
        })
    }

    /// The value at a key, if any.
    pub fn get(&self, key: K) -> Option<&L>
        ensures { option_copied result ≡ find K.cmp key self.now }
    {
        self.tells_invariant();
        value_at(self.entries(), key)
    }

    /// The value at a key, if any. The search tries index `place` first, which only affects its time.
    pub fn get_near(&self, place: usize, key: K) -> Option<&L>
        ensures { option_copied result ≡ find K.cmp key self.now }
    {
        self.tells_invariant();
        value_near(self.entries(), place, key)
    }

    /// The entries in key order.
    pub fn entries(&self) -> &[(K, L)]
        ensures { result.now ≡ self.now }
    {
        match &self.kept {
            Some(entries) => entries.as_slice(),
            None => &[],
        }
    }
}

/// The index of the key if its value is at least `value`. The search tries index `place` first.
fn place_above<K: MapKey, L: Lattice>(
    entries: &[(K, L)],
    place: usize,
    key: K,
    value: &L,
) -> Option<usize>
    requires { IsInOrder K.cmp entries.now }
    ensures above { IsSome result ↔ IsOptionBelow L.below (Some value.now) (find K.cmp key entries.now) }
    ensures place { IfSome result (λ found. found < length entries.now) }
{
    match place_near(entries, place, key) {
        Ok(found) if value.leq(&entries[found].1) => Some(found),
        _ => None,
    }
}

/// Keeps the value of a key that only one map has, and joins the two of a key that both have.
struct JoinValues;

impl<K: MapKey, L: Lattice> Combine<K, L> for JoinValues {
    ghost use Rattle.dac_lattice.specs.Lattices.{join_options};

    ghost combined = { λ _ _. join_options L.join };

    fn left(&self, _key: K, mine: &L) -> Result<Option<L>, NoMemory> {
        Ok(Some(mine.copy()?))
    }

    fn right(&self, _key: K, theirs: &L) -> Result<Option<L>, NoMemory> {
        Ok(Some(theirs.copy()?))
    }

    fn both(&self, _key: K, mine: &L, theirs: &L) -> Result<Option<L>, NoMemory> {
        Ok(Some(mine.join(theirs)?))
    }
}

impl<K: MapKey, L: Lattice> Lattice for MapOf<K, L> {
    ghost use Rattle.dac_lattice.specs.Maps.{IsMap, IsMapBelow, join_maps};
    ghost use Rattle.dac_lattice.specs.laws.Maps.{map_laws};

    ghost is_value = { IsMap K.cmp L.is_value };

    ghost below = { IsMapBelow K.cmp L.below };

    ghost join = { join_maps K.cmp L.join };

    ghost laws = { map_laws K.total K.exact L.laws };

    fn tells_invariant(&self) {
        let _kept = &self.kept;
    }

    fn join(&self, other: &Self) -> Result<Self, NoMemory> {
        self.tells_invariant();
        other.tells_invariant();
        let mine = self.entries();
        let theirs = other.entries();
        if mine.is_empty() {
            return other.copy();
        }
        if other.leq(self) {
            return self.copy();
        }
        let entries = merge(self.alloc, &JoinValues, mine, theirs)?;
        MapOf::of(self.alloc, entries)
    }

    fn leq(&self, other: &Self) -> bool {
        self.tells_invariant();
        other.tells_invariant();
        // Consecutive keys here are mostly consecutive there.
        let mut place = 0;
        for (key, value) in self.entries() {
            let Some(found) = place_above(other.entries(), place, *key, value) else {
                return false;
            };
            place = found + 1;
        }
        true
    }

    fn equal(&self, other: &Self) -> bool {
        let mine = self.entries();
        let theirs = other.entries();
        if mine.len() != theirs.len() {
            return false;
        }
        for i in 0..mine.len() {
            let (x, a) = &mine[i];
            let (y, b) = &theirs[i];
            if x != y || !a.equal(b) {
                return false;
            }
        }
        true
    }

    fn copy(&self) -> Result<Self, NoMemory> {
        let kept = match &self.kept {
            Some(entries) => Some(Arc::try_clone(entries)?),
            None => None,
        };
        Ok(MapOf {
            alloc: self.alloc,
            kept,
        })
    }
}

impl<K: MapKey, L: Lattice> Bottom for MapOf<K, L> {
    ghost bottom = { [] };

    ghost least = { λ x v k. tt };

    ghost bottom_value = { record { in_order = tt; values = λ k. tt } };

    fn bottom(alloc: Global) -> Self {
        MapOf { alloc, kept: None }
    }
}
