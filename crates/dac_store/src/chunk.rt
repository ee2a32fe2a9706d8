//! The dots of the stores in a chunk of a map, whose filter answers most questions.
ghost use Rattle.std.specs.Prelude.{◌≡◌, ◌↔◌, true, IsTrue};
ghost use Rattle.dac_origins.specs.declared.Dot.{Dot};
ghost use Rattle.dac_lattice.specs.Search.{AtEachEntry, IsInOrder};
ghost use Rattle.dac_dots.specs.DotFilters.{may_have};
ghost use Rattle.dac_store.specs.Below.{HasLaterKeys, IsBelowAt};
ghost use Rattle.dac_store.specs.Chunks.{IsTold};
ghost use Rattle.dac_store.specs.DotMaps.{has_in};
ghost use Rattle.dac_store.specs.Stores.{IsUnheard};

use crate::below::are_below;
use crate::digest::StoreFilter;
use crate::{DotStore, Entries};
use dac_dots::{Context, DotFilter, FilteredContext};
use dac_origins::MapKey;
use dac_sorted::Chunk;

/// Whether the filters prove that the context contains no dot of the chunk.
fn is_apart<K: MapKey, S: DotStore>(
    chunk: &Chunk<'_, K, S, StoreFilter>,
    heard: &FilteredContext<'_>,
) -> bool
    requires { IsTold S.has chunk.now.digest chunk.now.entries.now }
    ensures { result ≡ true → IsUnheard (has_in S.has chunk.now.entries.now) heard.now }
{
    match chunk.digest {
        Some(digest) => !digest.filter.meets(heard.filter()),
        None => false,
    }
}

/// The first key whose store has a dot of the context, if any.
pub(crate) fn chunk_first_heard<K: MapKey, S: DotStore>(
    chunk: &Chunk<'_, K, S, StoreFilter>,
    heard: &FilteredContext<'_>,
) -> Option<K>
    requires { IsTold S.has chunk.now.digest chunk.now.entries.now }
{
    if is_apart(chunk, heard) {
        return None;
    }
    for (key, store) in chunk.entries {
        if !store.is_unheard(heard) {
            return Some(*key);
        }
    }
    None
}

/// Whether, at each key of a chunk, the store here is below the one in the chunk. Skips the chunk without a search if
/// the filters prove all its dots unheard.
pub(crate) fn chunk_below<K: MapKey, S: DotStore>(
    left: &mut Entries<'_, K, S>,
    heard: &FilteredContext<'_>,
    chunk: &Chunk<'_, K, S, StoreFilter>,
    other_heard: &Context,
) -> bool
    requires told { IsTold S.has chunk.now.digest chunk.now.entries.now }
    requires left { IsInOrder K.cmp left.old }
    requires part { IsInOrder K.cmp chunk.now.entries.now }
    ensures below { IsTrue result ↔ AtEachEntry
        (IsBelowAt K.cmp S.nothing S.below left.old heard.now other_heard.now)
        chunk.now.entries.now }
    ensures in_order { IsInOrder K.cmp left.new }
    ensures later { result ≡ true → HasLaterKeys K.cmp chunk.now.entries.now left.old left.new }
{
    if is_apart(chunk, heard) {
        return true;
    }
    are_below(left, heard, chunk.entries, other_heard)
}

/// Puts each dot of each store into a filter.
pub(crate) fn fill_each<K: MapKey, S: DotStore>(entries: &[(K, S)], filter: &mut DotFilter)
    ensures own { (x : Dot) → has_in S.has entries.now x ≡ true
        → may_have filter.new.slots x ≡ true }
    ensures more { (x : Dot) → may_have filter.old.slots x ≡ true
        → may_have filter.new.slots x ≡ true }
{
    for (_, store) in entries {
        store.fill(filter);
    }
}
