//! Parts of deltas.
ghost use Rattle.std.specs.Prelude.{◌≡◌, ◌∷◌, IfOk};
ghost use Rattle.std.specs.FinSet as set;
ghost use Rattle.dac_store.specs.Stores.{IsHeld};

use dac_base::NoMemory;
use dac_origins::Dot;
use dac_store::{Causal, Context, DotStore};
use std::alloc::Global;

/// The dots that an operation names: its own, and those that it replaces.
pub(crate) fn named_by(alloc: Global, dot: Dot, over: &[Dot]) -> Result<Context, NoMemory>
    ensures { IfOk result (λ named. named ≡ set.from_list (dot ∷ over.now)) }
{
    let mut named = Context::empty(alloc);
    named.insert(dot)?;
    for replaced in over {
        named.insert(*replaced)?;
    }
    Ok(named)
}

/// A store paired with a context that contains its dots.
pub(crate) fn beside<S: DotStore>(store: S, context: Context) -> Causal<S>
    requires { IsHeld (S.has store) context }
    ensures { result ≡ record { store = store; context = context } }
{
    Causal::new(store, context).unwrap()
}
