//! The join of the stores of two maps at a key.
ghost use Rattle.std.specs.Prelude.{◌≡◌, IfOk};
ghost use Rattle.std.specs.Option.{option_copied};
ghost use Rattle.dac_store.specs.DotMaps.{store_at, unless_empty};

use crate::DotStore;
use crate::digest::StoreFilter;
use dac_dots::FilteredContext;
use dac_lattice::merging::Combine;
use dac_origins::{MapKey, NoMemory};
use dac_sorted::Sharing;
use std::alloc::Global;

/// The store, or `None` if it has no dots.
fn unless_empty<S: DotStore>(store: S) -> Option<S>
    ensures { result ≡ unless_empty S.is_empty store }
{
    if store.is_empty() { None } else { Some(store) }
}

/// Joins the two stores of each key with the contexts of both sides, and drops a key without dots.
#[derive(Clone, Copy)]
pub(crate) struct JoinStores<'a> {
    pub(crate) alloc: Global,
    pub(crate) mine: &'a FilteredContext<'a>,
    pub(crate) theirs: &'a FilteredContext<'a>,
}

impl<K: MapKey, S: DotStore> Combine<K, S> for JoinStores<'_> {
    ghost use Rattle.dac_store.specs.DotMaps.{unless_empty, store_at};

    ghost combined = { λ h _ v w. unless_empty S.is_empty
        (S.join (store_at S.nothing v) h.mine.now (store_at S.nothing w) h.theirs.now) };

    fn left(&self, _key: K, mine: &S) -> Result<Option<S>, NoMemory> {
        Ok(unless_empty(mine.join_in(
            self.mine.context(),
            &S::empty(self.alloc),
            self.theirs.context(),
        )?))
    }

    #[inline(always)]
    fn right(&self, _key: K, theirs: &S) -> Result<Option<S>, NoMemory> {
        if theirs.is_unheard(self.mine) {
            theirs.tells_invariant();
            return Ok(unless_empty(theirs.copy()?));
        }
        Ok(unless_empty(S::empty(self.alloc).join_in(
            self.mine.context(),
            theirs,
            self.theirs.context(),
        )?))
    }

    fn both(&self, _key: K, mine: &S, theirs: &S) -> Result<Option<S>, NoMemory> {
        Ok(unless_empty(mine.join_in(self.mine.context(), theirs, self.theirs.context())?))
    }
}

impl<K: MapKey, S: DotStore> Sharing<K, S, StoreFilter> for JoinStores<'_> {
    ghost use Rattle.std.specs.Prelude.{◌≡◌, false};

    ghost fits = { λ _ _ s. S.is_store s × (S.is_empty s ≡ false) };

    #[inline(always)]
    fn stays(&self, _key: K, mine: &S, theirs: Option<&S>) -> bool {
        mine.tells_invariant();
        if mine.is_empty() {
            return false;
        }
        match theirs {
            Some(theirs) => mine.is_same(theirs),
            None => mine.is_unheard(self.theirs),
        }
    }

    fn leaves(&self, digest: &StoreFilter) -> bool {
        !digest.filter.meets(self.theirs.filter())
    }

    fn is_same(&self, mine: &S, theirs: &S) -> bool {
        mine.is_same(theirs)
    }
}

/// The join of the stores at a key, of each side that has it.
pub(crate) fn join_at<S: DotStore>(
    how: &JoinStores<'_>,
    mine: Option<&S>,
    theirs: Option<&S>,
) -> Result<S, NoMemory>
    ensures { IfOk result (λ joined. joined
        ≡ S.join (store_at S.nothing (option_copied mine.entry)) how.now.mine.now
        (store_at S.nothing (option_copied theirs.entry)) how.now.theirs.now) }
{
    let nothing = S::empty(how.alloc);
    let mine = mine.unwrap_or(&nothing);
    let theirs = theirs.unwrap_or(&nothing);
    mine.join_in(how.mine.context(), theirs, how.theirs.context())
}
