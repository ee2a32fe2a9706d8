//! Sorted maps whose copies share memory.
ghost use Rattle.std.specs.Prelude.{◌≡◌, ◌↔◌, ◌<◌, ◌^◌, [], ◌∷◌, ◌++◌, length, true, Some, IsTrue, IfOk, OnOk, OnErr};
ghost use Rattle.std.specs.Arc.{arc_value};
ghost use Rattle.std.specs.List.{flat_map, slice_get};
ghost use Rattle.std.specs.Option.{option_copied};
ghost use Rattle.std.specs.FinMap.{find, put};
ghost use Rattle.dac_lattice.specs.Altered.{IsAlteredIf};
ghost use Rattle.dac_lattice.specs.Entries.{keep, merge_entries};
ghost use Rattle.dac_lattice.specs.Search.{IsInOrder, without};
ghost use Rattle.dac_sorted.specs.Appending.{is_above_entries};
ghost use Rattle.dac_sorted.specs.Digests.{SaysAll};
ghost use Rattle.dac_sorted.specs.Parts.{HaveEntries};

use crate::appending::ends_below;
use crate::block::Block;
use crate::chunks::Chunks;
use crate::counted::Counted;
use crate::digest::Digest;
use crate::entries::Entries;
use crate::merging::merge_parts;
use crate::parts::Parts;
use crate::predicate::{Predicate, chunk_passes};
use crate::sharing::Sharing;
use crate::single::Single;
use dac_lattice::merging::{Alter, value_at};
use dac_origins::{MapKey, NoMemory};
use std::alloc::Global;
use std::marker::Model;
use std::sync::Arc;

/// The entries of a map, which its copies share.
#[derive(Drop)]
enum Kept<K: MapKey, V: Drop, D: Digest<K, V>> {
    /// No entries.
    Nothing,
    /// A single entry, which needs no list.
    One(Arc<Single<(K, V)>, Global>),
    /// A list of entries.
    Many(Arc<Counted<K, V, D>, Global>),
}

/// A map from keys to values. Contracts treat it as the list of its entries in key order.
///
/// Copies share all entries, so a copy only increments a reference count. A change copies what it must and others share:
/// a block, or the entries in no block. An empty map needs no allocation, and one with a single entry needs one.
#[derive(Drop)]
pub struct SortedMap<K: MapKey, V: Drop, D: Digest<K, V>> {
    alloc: Global,
    kept: Kept<K, V, D>,
}

impl<K: MapKey, V: Drop, D: Digest<K, V>> Model for SortedMap<K, V, D> {
    ghost use Rattle.std.specs.Prelude.{List};
    ghost use Rattle.dac_sorted.specs.Kept.{entries_kept};

    ghost Value = { List (K × V) };

    ghost view = { λ a. entries_kept a.kept };
}

impl<K: MapKey, V: Drop, D: Digest<K, V>> SortedMap<K, V, D> {
    /// The empty map.
    pub fn empty(alloc: Global) -> Self
        ensures { result ≡ [] }
    {
        SortedMap {
            alloc,
            kept: Kept::Nothing,
        }
    }

    /// The map of one entry.
    fn one(alloc: Global, key: K, value: V) -> Result<Self, NoMemory>
        ensures { IfOk result (λ map. map ≡ (key, value) ∷ []) }
    {
        let entry = Single::of(alloc, (key, value))?;
        Ok(SortedMap {
            alloc,
            kept: Kept::One(entry),
        })
    }

    /// The map of one entry, in which a value is put at a key.
    fn two(alloc: Global, entry: &(K, V), key: K, value: V) -> Result<Self, NoMemory>
        ensures { IfOk result (λ map. map ≡ put K.cmp key value (entry.now ∷ [])) }
    {
        let (other, kept) = entry;
        if key.cmp(other).is_eq() {
            return Self::one(alloc, *other, value);
        }
        let mut counted = Counted::empty(alloc);
        counted.push(*other, D::copy(kept)?)?;
        counted.put(key, value)?;
        let kept = Arc::new(alloc, counted)?;
        Ok(SortedMap {
            alloc,
            kept: Kept::Many(kept),
        })
    }

    /// The map of these entries.
    fn of(alloc: Global, parts: Parts<K, V, D>) -> Result<Self, NoMemory>
        requires { IsInOrder K.cmp parts }
        ensures { IfOk result (λ map. map ≡ parts) }
    {
        let counted = Counted::of(parts)?;
        if counted.len() == 0 {
            return Ok(Self::empty(alloc));
        }
        let kept = Arc::new(alloc, counted)?;
        Ok(SortedMap {
            alloc,
            kept: Kept::Many(kept),
        })
    }

    /// States that the entries are in key order, for proofs; does nothing at run time.
    pub fn tells_order(&self)
        ensures { IsInOrder K.cmp self.now }
    {
        if let Kept::Many(kept) = &self.kept {
            kept.tells_invariant();
        }
    }

    /// The allocator of the map's memory.
    pub fn allocator(&self) -> Global {
        self.alloc
    }

    /// The same map, which shares the entries.
    pub fn copy(&self) -> Result<Self, NoMemory>
        ensures { IfOk result (λ copied. copied ≡ self.now) }
    {
        let kept = match &self.kept {
            Kept::Nothing => Kept::Nothing,
            Kept::One(entry) => Kept::One(Arc::try_clone(entry)?),
            Kept::Many(kept) => Kept::Many(Arc::try_clone(kept)?),
        };
        Ok(SortedMap {
            alloc: self.alloc,
            kept,
        })
    }

    /// The number of entries.
    pub fn len(&self) -> usize
        ensures value { result ≡ length self.now }
        ensures few { result < 2 ^ 63 }
    {
        match &self.kept {
            Kept::Nothing => 0,
            Kept::One(_) => 1,
            Kept::Many(kept) => kept.len(),
        }
    }

    /// The value at a key, if any.
    pub fn get(&self, key: K) -> Option<&V>
        ensures { option_copied result ≡ find K.cmp key self.now }
    {
        match &self.kept {
            Kept::Nothing => None,
            Kept::One(entry) => value_at(entry.as_slice(), key),
            Kept::Many(kept) => kept.get(key),
        }
    }

    /// The `i`-th entry from 0, if there are so many. The time grows with the number of blocks.
    pub fn nth(&self, i: usize) -> Option<&(K, V)>
        ensures { option_copied result ≡ slice_get self.now i }
    {
        let mut left = i;
        let mut chunks = self.chunks();
        while let Some(chunk) = chunks.next() {
            if left < chunk.entries.len() {
                return chunk.entries.get(left);
            }
            left -= chunk.entries.len();
        }
        None
    }

    /// Whether each key is below this one.
    pub fn ends_below(&self, key: K) -> bool
        ensures { result ≡ is_above_entries K.cmp self.now key }
    {
        match &self.kept {
            Kept::Nothing => true,
            Kept::One(entry) => ends_below(entry.as_slice(), key),
            Kept::Many(kept) => kept.end_below(key),
        }
    }

    /// The blocks, and the entries after them.
    fn pieces(&self) -> (&[Arc<Block<K, V, D>, Global>], &[(K, V)])
        ensures value { self.now ≡ flat_map arc_value result.0.now ++ result.1.now }
        ensures filled { HaveEntries arc_value result.0.now }
    {
        match &self.kept {
            Kept::Nothing => (&[], &[]),
            Kept::One(entry) => (&[], entry.as_slice()),
            Kept::Many(kept) => kept.pieces(),
        }
    }

    /// An iterator over the entries, in key order.
    pub fn entries(&self) -> Entries<'_, K, V, D>
        ensures { result ≡ self.now }
    {
        let (blocks, last) = self.pieces();
        Entries::of(blocks, last)
    }

    /// An iterator over the entries, in key order, some at a time with their digest.
    pub fn chunks(&self) -> Chunks<'_, K, V, D>
        ensures { result ≡ self.now }
    {
        let (blocks, last) = self.pieces();
        Chunks::of(blocks, last)
    }

    /// Whether each entry passes.
    pub fn all<T: Predicate<K, V, D>>(&self, predicate: &T) -> bool
        ensures { IsTrue result ↔ SaysAll (T.holds predicate.now) self.now }
    {
        let mut chunks = self.chunks();
        while let Some(chunk) = chunks.next() {
            if !chunk_passes(&chunk, predicate) {
                return false;
            }
        }
        true
    }

    /// Appends an entry, whose key is above all others. After [`NoMemory`] the map is unchanged.
    pub fn push(&mut self, key: K, value: V) -> Result<(), NoMemory>
        requires { is_above_entries K.cmp self.old key ≡ true }
        ensures ok { OnOk result (self.new ≡ self.old ++ (key, value) ∷ []) }
        ensures err { OnErr result (self.new ≡ self.old) }
    {
        match &mut self.kept {
            Kept::Many(kept) => Arc::make_mut(kept)?.push(key, value),
            _ => self.put(key, value),
        }
    }

    /// Puts a value at a key. After [`NoMemory`] the map is unchanged.
    pub fn put(&mut self, key: K, value: V) -> Result<(), NoMemory>
        ensures ok { OnOk result (self.new ≡ put K.cmp key value self.old) }
        ensures err { OnErr result (self.new ≡ self.old) }
    {
        if let Kept::Many(kept) = &mut self.kept {
            return Arc::make_mut(kept)?.put(key, value);
        }
        let changed = match &self.kept {
            Kept::One(entry) => Self::two(self.alloc, entry.element(), key, value)?,
            _ => Self::one(self.alloc, key, value)?,
        };
        *self = changed;
        Ok(())
    }

    /// Changes the value at a key in place, and a target with it. Returns false, and changes nothing, if the key is
    /// absent, others share its entry, or there is no other entry. After [`NoMemory`] both are unchanged.
    pub fn alter<T, C: Alter<V, T>>(
        &mut self,
        key: K,
        how: &C,
        target: &mut T,
    ) -> Result<bool, NoMemory>
        ensures ok { IfOk result (IsAlteredIf K.cmp (C.does how.now) key self.old target.old
            self.new target.new) }
        ensures err { OnErr result ((self.new ≡ self.old) × (target.new ≡ target.old)) }
    {
        let Kept::Many(kept) = &mut self.kept else {
            return Ok(false);
        };
        match Arc::get_mut(kept) {
            Some(own) => own.alter(key, how, target),
            None => Ok(false),
        }
    }

    /// Removes a key, if it is there. After [`NoMemory`] the map is unchanged.
    pub fn remove(&mut self, key: K) -> Result<(), NoMemory>
        ensures ok { OnOk result (self.new ≡ without K.cmp key self.old) }
        ensures err { OnErr result (self.new ≡ self.old) }
    {
        if let Kept::Many(kept) = &mut self.kept {
            let own = Arc::make_mut(kept)?;
            own.remove(key)?;
            if own.len() == 0 {
                self.kept = Kept::Nothing;
            }
            return Ok(());
        }
        if let Kept::One(entry) = &self.kept {
            if key.cmp(&entry.element().0).is_eq() {
                self.kept = Kept::Nothing;
            }
        }
        Ok(())
    }

    /// The merge of both maps. Blocks of this one that it is known to leave are shared.
    pub fn merge<C: Sharing<K, V, D>>(&self, how: &C, other: &Self) -> Result<Self, NoMemory>
        requires { SaysAll (C.fits how.now) self.now }
        ensures { IfOk result (λ merged.
            merged ≡ merge_entries K.cmp (C.combined how.now) self.now other.now) }
    {
        if let (Kept::One(mine), Kept::One(theirs)) = (&self.kept, &other.kept) {
            let (key, mine) = mine.element();
            let (other, theirs) = theirs.element();
            if key.cmp(other).is_eq() {
                return self.merge_at(how, *key, mine, theirs);
            }
        }
        self.tells_order();
        other.tells_order();
        let (blocks, last) = self.pieces();
        let parts = merge_parts(self.alloc, how, blocks, last, other.entries())?;
        Self::of(self.alloc, parts)
    }

    /// The merge of this map, which has a single entry, with one that has a single entry at the same key.
    fn merge_at<C: Sharing<K, V, D>>(
        &self,
        how: &C,
        key: K,
        mine: &V,
        theirs: &V,
    ) -> Result<Self, NoMemory>
        requires { self.now ≡ (key, mine.now) ∷ [] }
        ensures { IfOk result (λ merged. merged
            ≡ keep key (C.combined how.now key (Some mine.now) (Some theirs.now)) []) }
    {
        if how.stays(key, mine, Some(theirs)) {
            return self.copy();
        }
        match how.both(key, mine, theirs)? {
            Some(value) => Self::one(self.alloc, key, value),
            None => Ok(Self::empty(self.alloc)),
        }
    }
}
