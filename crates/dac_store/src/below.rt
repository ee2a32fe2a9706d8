//! Whether one map is below another, by one walk through both.
ghost use Rattle.std.specs.Prelude.{◌≡◌, ◌↔◌, true, IsTrue};
ghost use Rattle.std.specs.Option.{option_copied};
ghost use Rattle.dac_origins.specs.Dots.{Dots};
ghost use Rattle.dac_lattice.specs.Search.{AtEachEntry, IsInOrder};
ghost use Rattle.dac_store.specs.Below.{HasLaterKeys, IsBelowAt};
ghost use Rattle.dac_store.specs.DotMaps.{store_at};

use crate::{DotStore, Entries};
use dac_dots::{Context, FilteredContext};
use dac_origins::MapKey;

/// Whether both stores are known to be equal, which means that one is below the other with any contexts.
fn are_known_equal<S: DotStore>(mine: Option<&S>, theirs: &S) -> bool
    ensures { result ≡ true → (c d : Dots)
        → S.below (store_at S.nothing (option_copied mine.entry)) c theirs.now d }
{
    match mine {
        Some(mine) => {
            mine.tells_invariant();
            mine.is_same(theirs)
        }
        None => false,
    }
}

/// Whether the store at a key, or the empty one, is below the other side's store. Called unless both are known to be
/// equal.
fn is_below<S: DotStore>(
    mine: Option<&S>,
    heard: &FilteredContext<'_>,
    theirs: &S,
    other_heard: &Context,
) -> bool
    ensures { IsTrue result ↔ S.below (store_at S.nothing (option_copied mine.entry)) heard.now
        theirs.now other_heard.now }
{
    if theirs.is_unheard(heard) {
        return true;
    }
    let heard = heard.context();
    match mine {
        Some(mine) => mine.leq_in(heard, theirs, other_heard),
        None => S::empty(theirs.allocator()).leq_in(heard, theirs, other_heard),
    }
}

/// Whether, at each key of `part`, the store here is below the one in `part`. Skips the entries below these keys; after
/// false it can have skipped more.
pub(crate) fn are_below<K: MapKey, S: DotStore>(
    left: &mut Entries<'_, K, S>,
    heard: &FilteredContext<'_>,
    part: &[(K, S)],
    other_heard: &Context,
) -> bool
    requires left { IsInOrder K.cmp left.old }
    requires part { IsInOrder K.cmp part.now }
    ensures below { IsTrue result ↔ AtEachEntry
        (IsBelowAt K.cmp S.nothing S.below left.old heard.now other_heard.now) part.now }
    ensures in_order { IsInOrder K.cmp left.new }
    ensures later { result ≡ true → HasLaterKeys K.cmp part.now left.old left.new }
{
    // Stores that differ are mostly adjacent, so after one the test for unheard dots comes first.
    let mut differed = false;
    for (key, theirs) in part {
        if differed && theirs.is_unheard(heard) {
            continue;
        }
        let mine = left.seek(*key);
        let same = are_known_equal(mine, theirs);
        differed = !same;
        if same {
            continue;
        }
        if !is_below(mine, heard, theirs, other_heard) {
            return false;
        }
    }
    true
}
