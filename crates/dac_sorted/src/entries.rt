//! An iterator over the entries of a map.
ghost use Rattle.std.specs.Prelude.{◌≡◌, [], ◌∷◌, ◌++◌, drop, MatchOption};
ghost use Rattle.std.specs.Arc.{arc_value};
ghost use Rattle.std.specs.List.{flat_map};
ghost use Rattle.std.specs.Option.{option_copied};
ghost use Rattle.std.specs.FinMap.{find};
ghost use Rattle.dac_lattice.specs.Search.{IsInOrder};
ghost use Rattle.dac_sorted.specs.Parts.{HasSameFrom};

use crate::block::Block;
use crate::digest::Digest;
use dac_origins::MapKey;
use std::alloc::Global;
use std::cmp::Ordering;
use std::marker::Model;
use std::sync::Arc;

/// An iterator over the entries of a map, in key order. Contracts treat it as the list of the remaining entries.
#[derive(Drop)]
pub struct Entries<'a, K: MapKey, V: Drop, D: Digest<K, V>> {
    here: &'a [(K, V)],
    blocks: &'a [Arc<Block<K, V, D>, Global>],
    last: &'a [(K, V)],
}

impl<'a, K: MapKey, V: Drop, D: Digest<K, V>> Model for Entries<'a, K, V, D> {
    ghost use Rattle.std.specs.Prelude.{List, ◌≡◌, ◌++◌, []};
    ghost use Rattle.std.specs.List.{flat_map};
    ghost use Rattle.std.specs.Arc.{arc_value};

    ghost Value = { List (K × V) };

    ghost view = { λ a. a.here.now ++ (flat_map arc_value a.blocks.now ++ a.last.now) };

    ghost invariant = { λ a. a.here.now ≡ [] → flat_map arc_value a.blocks.now ++ a.last.now ≡ [] };
}

impl<'a, K: MapKey, V: Drop, D: Digest<K, V>> Entries<'a, K, V, D> {
    /// The entries of these blocks, followed by those of a list.
    pub(crate) fn of(blocks: &'a [Arc<Block<K, V, D>, Global>], last: &'a [(K, V)]) -> Self
        ensures { result ≡ flat_map arc_value blocks.now ++ last.now }
    {
        let mut rest = blocks;
        while let Some((block, others)) = rest.split_first() {
            let here = block.entries();
            if !here.is_empty() {
                return Entries {
                    here,
                    blocks: others,
                    last,
                };
            }
            rest = others;
        }
        Entries {
            here: last,
            blocks: &[],
            last: &[],
        }
    }

    /// Another iterator over the same remaining entries.
    pub(crate) fn again(&self) -> Self
        ensures { result ≡ self.now }
    {
        Entries {
            here: self.here,
            blocks: self.blocks,
            last: self.last,
        }
    }

    /// The number of entries in one slice from the next one on, a hint for reserving room.
    pub(crate) fn at_hand(&self) -> usize {
        self.here.len()
    }

    /// The next entry, if any, without advancing.
    pub fn first(&self) -> Option<&'a (K, V)>
        ensures { MatchOption result (self.now ≡ [])
            (λ entry. self.now ≡ entry.now ∷ drop 1 self.now) }
    {
        self.here.first()
    }

    /// Skips the next entry, if any.
    pub fn pass(&mut self)
        ensures { self.new ≡ drop 1 self.old }
    {
        if self.here.len() > 1 {
            self.here = &self.here[1..];
            return;
        }
        *self = Self::of(self.blocks, self.last);
    }

    /// Returns the next entry, if any, and advances.
    pub fn next(&mut self) -> Option<&'a (K, V)>
        ensures { MatchOption result ((self.old ≡ []) × (self.new ≡ []))
            (λ entry. self.old ≡ entry.now ∷ self.new) }
    {
        let first = self.first();
        self.pass();
        first
    }

    /// The value at a key, if any. Skips the entries below the key, so that searches for ascending keys look at each
    /// entry once.
    pub fn seek(&mut self, key: K) -> Option<&'a V>
        requires { IsInOrder K.cmp self.old }
        ensures found { option_copied result ≡ find K.cmp key self.old }
        ensures in_order { IsInOrder K.cmp self.new }
        ensures same { HasSameFrom K.cmp key self.old self.new }
    {
        while let Some((other, value)) = self.first() {
            match other.cmp(&key) {
                Ordering::Less => self.pass(),
                Ordering::Equal => return Some(value),
                Ordering::Greater => return None,
            }
        }
        None
    }
}
