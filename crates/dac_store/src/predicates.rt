//! Predicates of the stores of a map, which the filter of a block can decide.

use crate::DotStore;
use crate::digest::StoreFilter;
use dac_dots::{Context, FilteredContext};
use dac_origins::{Dot, MapKey};
use dac_sorted::Predicate;

/// Whether a store lacks a dot.
#[derive(Drop)]
pub(crate) struct Lacks {
    pub(crate) dot: Dot,
}

impl<K: MapKey, S: DotStore> Predicate<K, S, StoreFilter> for Lacks {
    ghost use Rattle.std.specs.Prelude.{◌≡◌, false};

    ghost holds = { λ t _ s. S.has s t.dot ≡ false };

    fn passes(&self, _key: K, store: &S) -> bool {
        !store.has(self.dot)
    }

    fn all_pass(&self, digest: &StoreFilter) -> bool {
        !digest.filter.has(self.dot)
    }
}

/// Whether a context contains each dot of a store.
#[derive(Drop)]
pub(crate) struct Within<'a> {
    pub(crate) context: &'a Context,
}

impl<K: MapKey, S: DotStore> Predicate<K, S, StoreFilter> for Within<'_> {
    ghost use Rattle.dac_store.specs.Stores.{IsHeld};

    ghost holds = { λ t _ s. IsHeld (S.has s) t.context.now };

    fn passes(&self, _key: K, store: &S) -> bool {
        store.within(self.context)
    }
}

/// Whether a context contains no dot of a store.
#[derive(Drop)]
pub(crate) struct Unheard<'a> {
    pub(crate) heard: &'a FilteredContext<'a>,
}

impl<K: MapKey, S: DotStore> Predicate<K, S, StoreFilter> for Unheard<'_> {
    ghost use Rattle.dac_store.specs.Stores.{IsUnheard};

    ghost holds = { λ t _ s. IsUnheard (S.has s) t.heard.now };

    #[inline(always)]
    fn passes(&self, _key: K, store: &S) -> bool {
        store.is_unheard(self.heard)
    }

    fn all_pass(&self, digest: &StoreFilter) -> bool {
        !digest.filter.meets(self.heard.filter())
    }
}

/// Whether a context contains no dot of a store, unless it is at this key.
#[derive(Drop)]
pub(crate) struct OtherUnheard<'a, K: MapKey> {
    pub(crate) key: K,
    pub(crate) heard: &'a FilteredContext<'a>,
}

impl<K: MapKey, S: DotStore> Predicate<K, S, StoreFilter> for OtherUnheard<'_, K> {
    ghost use Rattle.std.specs.Prelude.{Some};
    ghost use Rattle.dac_store.specs.Absorbing.{IsOtherUnheard};

    ghost holds = { λ t k s. IsOtherUnheard K.cmp S.has t.key t.heard.now k (Some s) };

    fn passes(&self, key: K, store: &S) -> bool {
        if key.cmp(&self.key).is_eq() {
            return true;
        }
        store.is_unheard(self.heard)
    }

    fn all_pass(&self, digest: &StoreFilter) -> bool {
        !digest.filter.meets(self.heard.filter())
    }
}
