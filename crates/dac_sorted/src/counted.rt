//! The entries of a map, with their number.
ghost use Rattle.std.specs.Prelude.{◌≡◌, ◌+◌, ◌<◌, ◌^◌, [], ◌∷◌, ◌++◌, length, true, IfOk, IfSome, OnOk, OnErr};
ghost use Rattle.std.specs.Arc.{arc_value};
ghost use Rattle.std.specs.List.{flat_map};
ghost use Rattle.std.specs.Option.{option_copied};
ghost use Rattle.std.specs.FinMap.{find, put};
ghost use Rattle.dac_lattice.specs.Altered.{IsAlteredIf};
ghost use Rattle.dac_lattice.specs.Search.{IsInOrder, without};
ghost use Rattle.dac_sorted.specs.Appending.{is_above_entries};
ghost use Rattle.dac_sorted.specs.Parts.{HaveEntries};

use crate::block::Block;
use crate::digest::Digest;
use crate::parts::Parts;
use dac_lattice::merging::Alter;
use dac_origins::{MapKey, NoMemory};
use std::alloc::{AllocError, Global};
use std::marker::Model;
use std::sync::Arc;

/// A map has fewer entries than this.
const LIMIT: usize = 1 << 63;

/// The entries of a map, with their number. Contracts treat them as the list of the entries.
#[derive(Drop)]
pub(crate) struct Counted<K: MapKey, V: Drop, D: Digest<K, V>> {
    count: usize,
    parts: Parts<K, V, D>,
}

impl<K: MapKey, V: Drop, D: Digest<K, V>> Model for Counted<K, V, D> {
    ghost use Rattle.std.specs.Prelude.{List};
    ghost use Rattle.dac_sorted.specs.Parts.{IsCounted};

    ghost Value = { List (K × V) };

    ghost view = { λ a. a.parts };

    ghost invariant = { λ a. IsCounted K.cmp a.parts a.count };
}

/// A clone is a copy, which `Arc::make_mut` requires.
impl<K: MapKey, V: Drop, D: Digest<K, V>> Clone for Counted<K, V, D> {
    ghost use Rattle.std.specs.Prelude.{◌≡◌};

    ghost is_clone = { λ counted copied. copied ≡ counted };

    fn clone(&self) -> Result<Self, AllocError> {
        match self.copy() {
            Ok(copied) => Ok(copied),
            Err(_refused) => Err(AllocError),
        }
    }
}

impl<K: MapKey, V: Drop, D: Digest<K, V>> Counted<K, V, D> {
    /// No entries.
    pub(crate) fn empty(alloc: Global) -> Self
        ensures { result ≡ [] }
    {
        Counted {
            count: 0,
            parts: Parts::empty(alloc),
        }
    }

    /// Counts these entries. Fails with [`NoMemory`] from 2^63 entries on, which no memory has.
    pub(crate) fn of(parts: Parts<K, V, D>) -> Result<Self, NoMemory>
        requires { IsInOrder K.cmp parts }
        ensures { IfOk result (λ counted. counted ≡ parts) }
    {
        match parts.count() {
            Some(count) if count < LIMIT => Ok(Counted { count, parts }),
            _ => Err(NoMemory),
        }
    }

    /// States the entries' invariant for proofs; does nothing at run time.
    pub(crate) fn tells_invariant(&self)
        ensures { IsInOrder K.cmp self.now }
    {
        let _parts = &self.parts;
    }

    /// The same entries, which share the blocks.
    fn copy(&self) -> Result<Self, NoMemory>
        ensures { IfOk result (λ copied. copied ≡ self.now) }
    {
        let parts = self.parts.copy()?;
        Ok(Counted {
            count: self.count,
            parts,
        })
    }

    /// The blocks, and the entries after them.
    pub(crate) fn pieces(&self) -> (&[Arc<Block<K, V, D>, Global>], &[(K, V)])
        ensures value { self.now ≡ flat_map arc_value result.0.now ++ result.1.now }
        ensures filled { HaveEntries arc_value result.0.now }
    {
        self.parts.pieces()
    }

    /// The number of entries.
    pub(crate) fn len(&self) -> usize
        ensures value { result ≡ length self.now }
        ensures few { result < 2 ^ 63 }
    {
        self.count
    }

    /// Whether each key is below this one.
    pub(crate) fn end_below(&self, key: K) -> bool
        ensures { result ≡ is_above_entries K.cmp self.now key }
    {
        self.parts.end_below(key)
    }

    /// The value at a key, if any.
    #[inline(always)]
    pub(crate) fn get(&self, key: K) -> Option<&V>
        ensures { option_copied result ≡ find K.cmp key self.now }
    {
        self.parts.get(key)
    }

    /// Puts a value at a key. After [`NoMemory`] nothing has changed.
    pub(crate) fn put(&mut self, key: K, value: V) -> Result<(), NoMemory>
        ensures ok { OnOk result (self.new ≡ put K.cmp key value self.old) }
        ensures err { OnErr result (self.new ≡ self.old) }
    {
        let Some(count) = self.count_with(key) else {
            return Err(NoMemory);
        };
        self.parts.change(key, Some(value))?;
        self.count = count;
        Ok(())
    }

    /// The number of entries after one is put at this key, or `None` if it is too large.
    fn count_with(&self, key: K) -> Option<usize>
        ensures few { IfSome result (λ count. count < 2 ^ 63) }
        ensures value { IfSome result (λ count. (v : V) → count ≡ length (put K.cmp key v self.now)) }
    {
        match self.get(key) {
            Some(_) => Some(self.count),
            None => one_more(self.count),
        }
    }

    /// Changes the value at a key in place, and a target with it. Returns false, and changes nothing, if the key is
    /// absent or its block is shared. After [`NoMemory`] nothing has changed.
    pub(crate) fn alter<T, C: Alter<V, T>>(
        &mut self,
        key: K,
        how: &C,
        target: &mut T,
    ) -> Result<bool, NoMemory>
        ensures ok { IfOk result (IsAlteredIf K.cmp (C.does how.now) key self.old target.old
            self.new target.new) }
        ensures err { OnErr result ((self.new ≡ self.old) × (target.new ≡ target.old)) }
    {
        self.parts.alter(key, how, target)
    }

    /// Removes a key, if it is there. After [`NoMemory`] nothing has changed.
    pub(crate) fn remove(&mut self, key: K) -> Result<(), NoMemory>
        ensures ok { OnOk result (self.new ≡ without K.cmp key self.old) }
        ensures err { OnErr result (self.new ≡ self.old) }
    {
        let count = self.count_without(key);
        self.parts.change(key, None)?;
        self.count = count;
        Ok(())
    }

    /// The number of entries at other keys than this one.
    fn count_without(&self, key: K) -> usize
        ensures { result ≡ length (without K.cmp key self.now) }
    {
        match self.get(key) {
            Some(_) => self.count.saturating_sub(1),
            None => self.count,
        }
    }

    /// Appends an entry, whose key is above all others. After [`NoMemory`] nothing has changed.
    pub(crate) fn push(&mut self, key: K, value: V) -> Result<(), NoMemory>
        requires { is_above_entries K.cmp self.old key ≡ true }
        ensures ok { OnOk result (self.new ≡ self.old ++ (key, value) ∷ []) }
        ensures err { OnErr result (self.new ≡ self.old) }
    {
        let Some(count) = one_more(self.count) else {
            return Err(NoMemory);
        };
        self.parts.push(key, value)?;
        self.count = count;
        Ok(())
    }
}

/// A number and one, or `None` if that is too large.
fn one_more(count: usize) -> Option<usize>
    ensures { IfSome result (λ more. (more ≡ count + 1) × (more < 2 ^ 63)) }
{
    if count < LIMIT - 1 {
        return Some(count + 1);
    }
    None
}
