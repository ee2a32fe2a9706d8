//! Maps from keys to dot stores.
ghost use Rattle.std.specs.Prelude.{◌≡◌, ◌≤◌, ◌&&◌, [], ◌∷◌, ◌++◌, length, not, false, true, IfOk, IfSome, OnErr, if◌then◌else◌};
ghost use Rattle.std.specs.Option.{option_copied};
ghost use Rattle.std.specs.FinMap.{find};
ghost use Rattle.dac_lattice.specs.Entries.{keep};
ghost use Rattle.dac_sorted.specs.Appending.{is_above_entries};
ghost use Rattle.dac_store.specs.Absorbing.{AreOthersUnheard};
ghost use Rattle.dac_store.specs.DotMaps.{join_keyed};

use crate::chunk::{chunk_below, chunk_first_heard, fill_each};
use crate::digest::StoreFilter;
use crate::joining::{JoinStores, join_at};
use crate::predicates::{Lacks, OtherUnheard, Unheard, Within};
use crate::{DotStore, Entries};
use dac_dots::{Context, DotFilter, FilteredContext};
use dac_origins::{Dot, MapKey, NoMemory};
use dac_sorted::SortedMap;
use std::alloc::Global;
use std::marker::Model;

/// A map from keys to dot stores. A key without dots is absent, so equal maps are equal values. Contracts treat it as
/// the list of its entries in key order.
///
/// Copies share all entries, so a copy only increments a reference count. A join shares the blocks of its own side that
/// it is known to leave unchanged. An empty map needs no allocation.
#[derive(Drop)]
pub struct DotMap<K: MapKey, S: DotStore> {
    map: SortedMap<K, S, StoreFilter>,
}

impl<K: MapKey, S: DotStore> Model for DotMap<K, S> {
    ghost use Rattle.std.specs.Prelude.{List};
    ghost use Rattle.dac_store.specs.DotMaps.{IsKeyed};

    ghost Value = { List (K × S) };

    ghost view = { λ a. a.map };

    ghost invariant = { λ a. IsKeyed K.cmp S.is_store S.is_empty a.map };
}

impl<K: MapKey, S: DotStore> DotMap<K, S> {
    /// The map with one entry, or the empty map if the store has no dots.
    pub fn one(alloc: Global, key: K, store: S) -> Result<Self, NoMemory>
        ensures { IfOk result (λ map. map ≡ (if S.is_empty store then [] else (key, store) ∷ [])) }
    {
        let mut map = Self::empty(alloc);
        map.push(key, store)?;
        Ok(map)
    }

    /// Appends a key with its store if the key is above each key of the map and the store has dots, and returns whether
    /// that was so. Otherwise, and after [`NoMemory`], the map is unchanged.
    pub fn push(&mut self, key: K, store: S) -> Result<bool, NoMemory>
        ensures ok { IfOk result
            (λ pushed. pushed ≡ (is_above_entries K.cmp self.old key && not (S.is_empty store))) }
        ensures new { IfOk result
            (λ pushed. self.new ≡ (if pushed then self.old ++ (key, store) ∷ [] else self.old)) }
        ensures err { OnErr result (self.new ≡ self.old) }
        ensures last { OnErr result
            ((is_above_entries K.cmp self.old key && not (S.is_empty store)) ≡ true) }
    {
        store.tells_invariant();
        if !self.map.ends_below(key) || store.is_empty() {
            return Ok(false);
        }
        self.map.push(key, store)?;
        Ok(true)
    }

    /// The store at a key, if any; it has dots.
    pub fn get(&self, key: K) -> Option<&S>
        ensures { option_copied result ≡ find K.cmp key self.now }
    {
        self.map.get(key)
    }

    /// An iterator over the entries, in key order.
    pub fn entries(&self) -> Entries<'_, K, S>
        ensures { result ≡ self.now }
    {
        self.map.entries()
    }

    /// The number of keys.
    pub fn len(&self) -> usize
        ensures { result ≡ length self.now }
    {
        self.map.len()
    }

    /// Joins the other map into this one by changing one entry, if the other map has at most one key and the join
    /// changes no other entry. Otherwise returns false and changes nothing.
    fn absorb_one(
        &mut self,
        heard: &Context,
        other: &Self,
        other_heard: &Context,
    ) -> Result<bool, NoMemory>
        ensures joined { IfOk result (λ done. done ≡ true
            → self.new
            ≡ join_keyed K.cmp S.nothing S.is_empty S.join self.old heard.now other.now
            other_heard.now) }
        ensures left { IfOk result (λ done. done ≡ false → self.new ≡ self.old) }
        ensures err { OnErr result (self.new ≡ self.old) }
    {
        if other.len() > 1 || self.is_empty() {
            return Ok(false);
        }
        let how = JoinStores {
            alloc: self.allocator(),
            mine: &FilteredContext::of(heard, 1),
            theirs: &FilteredContext::of(other_heard, self.len()),
        };
        match other.key_to_join(self, how.theirs) {
            Some(key) => self.absorb_at(&how, key, other.get(key)),
            None => Ok(false),
        }
    }

    /// The map's only key. If it is empty, the first key of `own` whose store has a dot of this context: an empty map
    /// most often withdraws the dots of one key.
    fn key_to_join(&self, own: &Self, heard: &FilteredContext<'_>) -> Option<K>
        requires { length self.now ≤ 1 }
        ensures { IfSome result (λ key. self.now ≡ keep key (find K.cmp key self.now) []) }
    {
        match self.entries().first() {
            Some((key, _)) => Some(*key),
            None => own.first_heard(heard),
        }
    }

    /// The first key whose store has a dot of the context, if any.
    fn first_heard(&self, heard: &FilteredContext<'_>) -> Option<K> {
        let mut chunks = self.map.chunks();
        while let Some(chunk) = chunks.next() {
            if let Some(key) = chunk_first_heard(&chunk, heard) {
                return Some(key);
            }
        }
        None
    }

    /// Joins a map that has at most this key, and `theirs` there, by changing the entry at that key: the entry is
    /// removed if the joined store has no dots. Returns false, and changes nothing, if the join can change others too.
    fn absorb_at(
        &mut self,
        how: &JoinStores<'_>,
        key: K,
        theirs: Option<&S>,
    ) -> Result<bool, NoMemory>
        ensures joined { IfOk result (λ done. done ≡ true
            → self.new
            ≡ join_keyed K.cmp S.nothing S.is_empty S.join self.old how.now.mine.now
            (keep key (option_copied theirs.entry) []) how.now.theirs.now) }
        ensures left { IfOk result (λ done. done ≡ false → self.new ≡ self.old) }
        ensures err { OnErr result (self.new ≡ self.old) }
    {
        if !self.are_others_unheard(key, how.theirs) {
            return Ok(false);
        }
        let joined = join_at(how, self.get(key), theirs)?;
        joined.tells_invariant();
        if joined.is_empty() {
            self.map.remove(key)?;
            return Ok(true);
        }
        self.map.put(key, joined)?;
        Ok(true)
    }

    /// Whether the context contains no dot of the stores at other keys than this one.
    fn are_others_unheard(&self, key: K, heard: &FilteredContext<'_>) -> bool
        ensures { result ≡ true → AreOthersUnheard K.cmp S.has key heard.now self.now }
    {
        self.map.all(&OtherUnheard { key, heard })
    }
}

impl<K: MapKey, S: DotStore> DotStore for DotMap<K, S> {
    ghost use Rattle.std.specs.Prelude.{[]};
    ghost use Rattle.dac_store.specs.DotFuns.{is_empty_list};
    ghost use Rattle.dac_store.specs.DotMaps.{has_in, IsKeyed, IsKeyedBelow, join_keyed};
    ghost use Rattle.dac_store.specs.laws.DotMaps.{keyed_laws};

    ghost is_store = { IsKeyed K.cmp S.is_store S.is_empty };

    ghost has = { has_in S.has };

    ghost below = { IsKeyedBelow K.cmp S.nothing S.below };

    ghost join = { join_keyed K.cmp S.nothing S.is_empty S.join };

    ghost nothing = { [] };

    ghost is_empty = { is_empty_list };

    ghost laws = { keyed_laws K.total K.exact S.laws };

    fn tells_invariant(&self) {
        let _map = &self.map;
    }

    fn empty(alloc: Global) -> Self {
        DotMap {
            map: SortedMap::empty(alloc),
        }
    }

    fn allocator(&self) -> Global {
        self.map.allocator()
    }

    fn copy(&self) -> Result<Self, NoMemory> {
        let map = self.map.copy()?;
        Ok(DotMap { map })
    }

    fn join_in(
        &self,
        heard: &Context,
        other: &Self,
        other_heard: &Context,
    ) -> Result<Self, NoMemory> {
        self.tells_invariant();
        other.tells_invariant();
        let how = JoinStores {
            alloc: self.allocator(),
            mine: &FilteredContext::of(heard, other.len()),
            theirs: &FilteredContext::of(other_heard, self.len()),
        };
        let map = self.map.merge(&how, &other.map)?;
        Ok(DotMap { map })
    }

    fn absorb_in(
        &mut self,
        heard: &Context,
        other: &Self,
        other_heard: &Context,
    ) -> Result<(), NoMemory> {
        if self.absorb_one(heard, other, other_heard)? {
            return Ok(());
        }
        let joined = self.join_in(heard, other, other_heard)?;
        *self = joined;
        Ok(())
    }

    fn leq_in(&self, heard: &Context, other: &Self, other_heard: &Context) -> bool {
        self.tells_invariant();
        other.tells_invariant();
        let filtered = FilteredContext::of(heard, other.len());
        let mut mine = self.entries();
        let mut chunks = other.map.chunks();
        while let Some(chunk) = chunks.next() {
            if !chunk_below(&mut mine, &filtered, &chunk, other_heard) {
                return false;
            }
        }
        true
    }

    fn has(&self, dot: Dot) -> bool {
        !self.map.all(&Lacks { dot })
    }

    fn within(&self, context: &Context) -> bool {
        self.map.all(&Within { context })
    }

    #[inline(always)]
    fn is_unheard(&self, heard: &FilteredContext<'_>) -> bool {
        self.map.all(&Unheard { heard })
    }

    fn is_same(&self, other: &Self) -> bool {
        if self.len() != other.len() {
            return false;
        }
        let mut mine = self.entries();
        let mut theirs = other.entries();
        while let Some((key, store)) = mine.next() {
            let Some((other_key, other_store)) = theirs.next() else {
                return false;
            };
            if !key.cmp(other_key).is_eq() || !store.is_same(other_store) {
                return false;
            }
        }
        true
    }

    fn fill(&self, filter: &mut DotFilter) {
        let mut chunks = self.map.chunks();
        while let Some(chunk) = chunks.next() {
            fill_each(chunk.entries, filter);
        }
    }

    fn is_empty(&self) -> bool {
        self.len() == 0
    }
}
