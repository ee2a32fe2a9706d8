//! The digest of a block of stores: a filter of their dots.

use crate::DotStore;
use dac_dots::DotFilter;
use dac_origins::{MapKey, NoMemory};
use dac_sorted::Digest;

/// A filter of all dots of the stores of a block, by which questions to a map pass over the block.
#[derive(Clone, Copy, Debug)]
pub struct StoreFilter {
    pub(crate) filter: DotFilter,
}

impl<K: MapKey, S: DotStore> Digest<K, S> for StoreFilter {
    ghost use Rattle.dac_store.specs.Chunks.{MayHold};

    ghost says = { λ d _ s. MayHold S.has d.filter.slots s };

    fn none() -> Self {
        StoreFilter {
            filter: DotFilter::none(),
        }
    }

    fn put(&mut self, _key: K, store: &S) {
        store.fill(&mut self.filter);
    }

    fn copy(store: &S) -> Result<S, NoMemory> {
        store.copy()
    }

    fn least() -> usize {
        12
    }
}
