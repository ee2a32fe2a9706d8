//! Drains, borrowed.
ghost use Rattle.std.specs.Prelude.{◌≡◌, ◌↔◌, length, IsTrue};
ghost use Rattle.dac_wishes.specs.DrainsValue.{origin, drains_at, is_drained, IsDrained};

use crate::drains::some_says_drained;
use crate::votes::kept_at;
use dac_base::NodeId;
use dac_lattice::Flag;
use dac_origins::{Dot, Origin};
use dac_store::{CausalRef, Context, DotFun, DotMap, Entries};
use std::marker::Model;

/// Standing drains and the known dots, both borrowed. Contracts see the value of [`Drains`](crate::Drains).
#[derive(Drop)]
pub struct DrainsRef<'a> {
    causal: CausalRef<'a, DotMap<Origin, DotFun<Flag>>>,
}

impl<'a> Model for DrainsRef<'a> {
    ghost use Rattle.dac_wishes.specs.DrainsValue.{DrainsValue, coded_drains};
    ghost use Rattle.dac_wishes.specs.StoredDrains.{drains_of, AreStoredDrains};

    ghost Value = { DrainsValue };

    ghost coded = { coded_drains };

    ghost view = { λ a. drains_of a.causal };

    ghost invariant = { λ a. AreStoredDrains a.causal };
}

impl<'a> DrainsRef<'a> {
    ghost use Rattle.dac_wishes.specs.StoredDrains.{drains_of, drains_by_origin};

    /// The drains of a stored form.
    #[inline(always)]
    pub(crate) fn of(causal: CausalRef<'a, DotMap<Origin, DotFun<Flag>>>) -> Self
        ensures { result ≡ drains_of causal.entry }
    {
        causal.tells_invariant();
        DrainsRef { causal }
    }

    /// The origins with a standing drain, in ascending order, each with the dots of its drains and their values.
    pub fn entries(&self) -> Entries<'a, Origin, DotFun<Flag>>
        ensures { result ≡ drains_by_origin self.now.standing }
    {
        self.causal.store().entries()
    }

    /// The number of origins with a standing drain.
    pub fn len(&self) -> usize
        ensures { result ≡ length (drains_by_origin self.now.standing) }
    {
        self.causal.store().len()
    }

    /// Whether an incarnation of a node is drained: one of its standing drains is true.
    pub fn drained(&self, node: NodeId, inc: u64) -> bool
        ensures value { result ≡ is_drained (origin node inc) self.now }
        ensures cases { IsTrue result ↔ IsDrained (origin node inc) self.now }
    {
        some_says_drained(self.dots(node, inc))
    }

    /// The dots of the incarnation's standing drains, with their values, in ascending order.
    #[inline(always)]
    pub fn dots(&self, node: NodeId, inc: u64) -> &'a [(Dot, Flag)]
        ensures { result.now ≡ drains_at (origin node inc) self.now.standing }
    {
        kept_at(&self.causal, Origin { node, inc })
    }

    /// The known dots: those of the operations, and those that they replace.
    pub fn context(&self) -> &'a Context
        ensures { result.now ≡ self.now.known }
    {
        self.causal.context()
    }
}
