//! The part of an operation that each piece of a state depends on.
ghost use Rattle.std.specs.Prelude.{◌≡◌, IfOk};
ghost use Rattle.dac_operations.specs.Operations.{over_list};
ghost use Rattle.dac_operations.specs.Seen.{drain_in, permit_in, seen_claim, seen_drain, seen_life, seen_permit, seen_wish, wish_in};

use crate::act::Act;
use crate::op::Op;
use dac_base::NoMemory;
use dac_chains::{ClaimAct, LifeAct};
use dac_origins::Origin;
use dac_wishes::{DotList, DrainAct, PermitAct, WishAct};
use std::alloc::Global;

impl Op {
    /// The part of the operation that concerns start wishes: its start, if any, and the dots that it replaces.
    pub fn wish_act(&self, alloc: Global) -> Result<WishAct, NoMemory>
        ensures { IfOk result (λ seen. seen ≡ seen_wish self.now.dot self.now.act) }
    {
        self.tells_invariant();
        let seen = wish_in(alloc, self.act())?;
        Ok(seen)
    }

    /// The part of the operation that concerns permissions: its permit, if any, and the dots that it replaces.
    pub fn permit_act(&self, alloc: Global) -> Result<PermitAct, NoMemory>
        ensures { IfOk result (λ seen. seen ≡ seen_permit self.now.dot self.now.act) }
    {
        self.tells_invariant();
        let seen = permit_in(alloc, self.act())?;
        Ok(seen)
    }

    /// The part of the operation that concerns drains: its drain, if any, and the dots that it replaces.
    pub fn drain_act(&self, alloc: Global) -> Result<DrainAct, NoMemory>
        ensures { IfOk result (λ seen. seen ≡ seen_drain self.now.dot self.now.act) }
    {
        self.tells_invariant();
        let seen = drain_in(alloc, self.act())?;
        Ok(seen)
    }

    /// The part of the operation that concerns lives: its node came up, or it declares a node down.
    pub fn life_act(&self) -> LifeAct
        ensures { result ≡ seen_life self.now.act }
    {
        match self.act() {
            Act::Up => LifeAct::Up,
            Act::Down { node, inc } => LifeAct::Down {
                node: *node,
                inc: *inc,
            },
            _ => LifeAct::Other,
        }
    }

    /// The part of the operation that concerns claims: its claim, if any.
    pub fn claim_act(&self) -> ClaimAct
        ensures { result ≡ seen_claim self.now.act }
    {
        match self.act() {
            Act::Claim {
                app,
                term,
                how,
                from,
            } => ClaimAct::Claim {
                app: *app,
                term: *term,
                how: *how,
                from: *from,
            },
            _ => ClaimAct::Other,
        }
    }
}

/// The part of an act that concerns start wishes.
fn wish_in(alloc: Global, act: &Act) -> Result<WishAct, NoMemory>
    ensures { IfOk result (λ seen. seen ≡ wish_in act.now) }
{
    let over = over_in(alloc, act)?;
    match act {
        Act::Start { key, over: _ } => Ok(WishAct::Start { key: *key, over }),
        _ => Ok(WishAct::Other { over }),
    }
}

/// The part of an act that concerns permissions.
fn permit_in(alloc: Global, act: &Act) -> Result<PermitAct, NoMemory>
    ensures { IfOk result (λ seen. seen ≡ permit_in act.now) }
{
    let over = over_in(alloc, act)?;
    match act {
        Act::Permit {
            key,
            value,
            over: _,
        } => Ok(PermitAct::Permit {
            key: *key,
            value: *value,
            over,
        }),
        _ => Ok(PermitAct::Other { over }),
    }
}

/// The part of an act that concerns drains.
fn drain_in(alloc: Global, act: &Act) -> Result<DrainAct, NoMemory>
    ensures { IfOk result (λ seen. seen ≡ drain_in act.now) }
{
    let over = over_in(alloc, act)?;
    match act {
        Act::Drain {
            node,
            inc,
            value,
            over: _,
        } => Ok(DrainAct::Drain {
            at: Origin {
                node: *node,
                inc: *inc,
            },
            value: *value,
            over,
        }),
        _ => Ok(DrainAct::Other { over }),
    }
}

/// A copy of the list of dots that an act replaces.
fn over_in(alloc: Global, act: &Act) -> Result<DotList, NoMemory>
    ensures { IfOk result (λ over. over ≡ over_list act.now) }
{
    let dots = Vec::from_slice(alloc, act.over())?;
    Ok(DotList::new(dots))
}
