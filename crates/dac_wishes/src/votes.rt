//! The storage of votes, flags written at keys, which permissions and drains share.
ghost use Rattle.std.specs.Prelude.{◌≡◌, [], IfOk};
ghost use Rattle.std.specs.FinMap.{find};
ghost use Rattle.dac_store.specs.DotFuns.{has_dot};
ghost use Rattle.dac_store.specs.DotMaps.{has_in, store_at};
ghost use Rattle.dac_store.specs.Stores.{IsHeld};
ghost use Rattle.dac_wishes.specs.StoredVotes.{stored_vote};

use crate::delta::beside;
use dac_base::NoMemory;
use dac_lattice::Flag;
use dac_origins::{Dot, MapKey};
use dac_store::{Causal, CausalRef, Context, DotFun, DotMap, DotStore};
use std::alloc::Global;

/// The votes stored at a key.
#[inline(always)]
pub(crate) fn kept_at<'a, K: MapKey>(
    causal: &CausalRef<'a, DotMap<K, DotFun<Flag>>>,
    key: K,
) -> &'a [(Dot, Flag)]
    ensures { result.now ≡ store_at [] (find K.cmp key causal.now.store) }
{
    match causal.store().get(key) {
        Some(votes) => votes.entries(),
        None => &[],
    }
}

/// The stored form of a vote, if there is one.
pub(crate) fn kept_alone<K: MapKey>(
    alloc: Global,
    dot: Dot,
    vote: Option<(K, Flag)>,
) -> Result<DotMap<K, DotFun<Flag>>, NoMemory>
    ensures { IfOk result (λ store. store ≡ stored_vote dot vote) }
{
    match vote {
        Some((key, flag)) => {
            let one = DotFun::one(alloc, dot, flag)?;
            let store = DotMap::one(alloc, key, one)?;
            Ok(store)
        }
        None => Ok(DotMap::empty(alloc)),
    }
}

/// The stored delta of one operation: its vote, if any, paired with the context `named`, which contains the vote's dot.
pub(crate) fn stored_delta<K: MapKey>(
    alloc: Global,
    dot: Dot,
    vote: Option<(K, Flag)>,
    named: &Context,
) -> Result<Causal<DotMap<K, DotFun<Flag>>>, NoMemory>
    requires { IsHeld (has_in has_dot (stored_vote dot vote)) named.now }
    ensures { IfOk result
        (λ causal. causal ≡ record { store = stored_vote dot vote; context = named.now }) }
{
    let store = kept_alone(alloc, dot, vote)?;
    let context = named.copy()?;
    let causal = beside(store, context);
    Ok(causal)
}
