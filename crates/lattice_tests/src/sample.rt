//! Dots that the tests share, and checks of any lattice.
use dac_base::{NoMemory, NodeId};
use dac_dots::Context;
use dac_lattice::{Bottom, Lattice};
use dac_origins::{Dot, Origin};
use std::alloc::Global;

/// A node's first incarnation.
pub fn origin(node: u8) -> Origin {
    Origin {
        node: NodeId(node),
        inc: 1,
    }
}

/// A dot of a node's first incarnation.
pub fn dot(node: u8, n: u64) -> Dot {
    Dot {
        origin: origin(node),
        n,
    }
}

/// The context of these dots of node 0, inserted in this order.
pub fn context_of(alloc: Global, counters: &[u64]) -> Result<Context, NoMemory> {
    let mut context = Context::empty(alloc);
    for n in counters {
        context.insert(dot(0, *n))?;
    }
    Ok(context)
}

/// The context of these dots, each as a node and a counter.
pub fn heard_of(alloc: Global, dots: &[(u8, u64)]) -> Result<Context, NoMemory> {
    let mut heard = Context::empty(alloc);
    for (node, n) in dots {
        heard.insert(dot(*node, *n))?;
    }
    Ok(heard)
}

/// True if order, join, least value and copy agree, called through the bound.
pub fn is_joined_above<L: Bottom>(alloc: Global, low: &L, high: &L) -> Result<bool, NoMemory> {
    Ok(low.leq(high) && is_join(low, high, high)? && is_join(&L::bottom(alloc), low, low)?)
}

/// True if the third value is the join of the others, called through the bound.
pub fn is_join<L: Lattice>(one: &L, other: &L, joined: &L) -> Result<bool, NoMemory> {
    one.tells_invariant();
    Ok(one.join(other)?.equal(&joined.copy()?))
}
