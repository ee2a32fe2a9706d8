//! An iterator over the blocks of a map and the entries after them.
ghost use Rattle.std.specs.Prelude.{◌≡◌, ◌++◌, [], MatchOption};
ghost use Rattle.std.specs.Arc.{arc_value};
ghost use Rattle.std.specs.List.{flat_map};
ghost use Rattle.dac_sorted.specs.Chunks.{IsChunkOf};
ghost use Rattle.dac_sorted.specs.Parts.{HaveEntries};

use crate::block::Block;
use crate::digest::Digest;
use dac_origins::MapKey;
use std::alloc::Global;
use std::marker::Model;
use std::sync::Arc;

/// Consecutive entries of a map.
#[derive(Drop)]
pub struct Chunk<'a, K: MapKey, V: Drop, D: Digest<K, V>> {
    /// The entries' digest, if they have one.
    pub digest: Option<&'a D>,
    /// The entries.
    pub entries: &'a [(K, V)],
}

/// An iterator over the entries of a map, in key order, some at a time. Contracts treat it as the list of the remaining
/// entries.
#[derive(Drop)]
pub struct Chunks<'a, K: MapKey, V: Drop, D: Digest<K, V>> {
    blocks: &'a [Arc<Block<K, V, D>, Global>],
    last: &'a [(K, V)],
}

impl<'a, K: MapKey, V: Drop, D: Digest<K, V>> Model for Chunks<'a, K, V, D> {
    ghost use Rattle.std.specs.Prelude.{List, ◌++◌};
    ghost use Rattle.std.specs.List.{flat_map};
    ghost use Rattle.std.specs.Arc.{arc_value};
    ghost use Rattle.dac_sorted.specs.Parts.{HaveEntries};

    ghost Value = { List (K × V) };

    ghost view = { λ a. flat_map arc_value a.blocks.now ++ a.last.now };

    ghost invariant = { λ a. HaveEntries arc_value a.blocks.now };
}

impl<'a, K: MapKey, V: Drop, D: Digest<K, V>> Chunks<'a, K, V, D> {
    /// The entries of these blocks, followed by those of a list.
    pub(crate) fn of(blocks: &'a [Arc<Block<K, V, D>, Global>], last: &'a [(K, V)]) -> Self
        requires { HaveEntries arc_value blocks.now }
        ensures { result ≡ flat_map arc_value blocks.now ++ last.now }
    {
        Chunks { blocks, last }
    }

    /// Returns the next entries, at least one, and advances; or `None` at the end.
    pub fn next(&mut self) -> Option<Chunk<'a, K, V, D>>
        ensures { MatchOption result ((self.old ≡ []) × (self.new ≡ []))
            (λ c. IsChunkOf D.says c.digest c.entries.now self.old self.new) }
    {
        if let Some((block, rest)) = self.blocks.split_first() {
            self.blocks = rest;
            return Some(Chunk {
                digest: Some(block.digest()),
                entries: block.entries(),
            });
        }
        let entries = self.last;
        if entries.is_empty() {
            return None;
        }
        self.last = &[];
        Some(Chunk {
            digest: None,
            entries,
        })
    }
}
