//! The meaning of a set of operations.
ghost use Rattle.std.specs.Prelude.{◌≡◌, ◌∷◌, [], IfOk, OnOk, OnErr};
ghost use Rattle.dac_meaning.specs.StateValue.{drains_of, join, permissions_of, wishes_of};
ghost use Rattle.dac_meaning.specs.Meaning.{meaning_of};

use crate::delta::{claims_by, heard_by, lives_by, standing_by};
use crate::parts::Parts;
use dac_base::NoMemory;
use dac_chains::{Claims, Lives};
use dac_dots::Context;
use dac_lattice::{Bottom, Lattice};
use dac_meaning::{Op, laws};
use dac_wishes::{DrainsRef, PermissionsRef, StandingWrites, WishesRef};
use std::alloc::Global;
use std::marker::Model;
use std::sync::Arc;

/// The state of a controller, which replaces the operations that it has heard. It contains their dots, and the permits,
/// start wishes and drains that none of them replaced, paired with the known dots. It also contains the life of each
/// node and the greatest claim of each application.
///
/// States form a lattice. A join knows the dots known on either side. A permit, wish or drain of one side stands in it
/// unless the other side knows its dot and no longer contains it. Contracts see a state as a record of finite sets and
/// maps, so that states with equal parts are equal.
///
/// Parts are immutable and shared by copies, so that a copy costs as much as a pointer. A copy of the least state has
/// its own parts.
pub struct State {
    kept: KeptParts,
}

/// Written by hand, so that dropping a state is a single call in proofs, rather than the drop of each part.
impl Drop for State {
    fn drop(self) {
        let State { kept: _kept } = self;
    }
}

/// The location of a state's parts.
#[derive(Drop)]
pub(crate) enum KeptParts {
    /// In the state itself, as for the least state, which allocates nothing.
    Here(Parts),
    /// Shared with its copies.
    Shared(Arc<Parts, Global>),
}

impl Model for State {
    ghost use Rattle.dac_meaning.specs.StateValue.{StateValue, coded_state};
    ghost use Rattle.dac_state.specs.Keeping.{kept_in};

    ghost Value = { StateValue };

    ghost coded = { coded_state };

    ghost view = { λ a. kept_in a.kept };
}

impl State {
    /// The delta of an operation: the meaning of the set of this operation only.
    pub fn delta_of(alloc: Global, op: &Op) -> Result<Self, NoMemory>
        ensures { IfOk result (λ state. state ≡ meaning_of (op.now ∷ [])) }
    {
        laws::parts_of_meaning();
        let standing = standing_by(alloc, op)?;
        let heard = heard_by(alloc, op, standing.known())?;
        let lives = lives_by(alloc, op)?;
        let claims = claims_by(alloc, op)?;
        let parts = Parts::beside(alloc, heard, standing, lives, claims);
        let state = State::of(parts)?;
        Ok(state)
    }

    /// The state of these parts, which its copies will share.
    pub(crate) fn of(parts: Parts) -> Result<Self, NoMemory>
        ensures { IfOk result (λ state. state ≡ parts) }
    {
        let shared = Arc::new(parts.allocator(), parts)?;
        Ok(State {
            kept: KeptParts::Shared(shared),
        })
    }

    fn parts(&self) -> &Parts
        ensures { result.now ≡ self.now }
    {
        match &self.kept {
            KeptParts::Here(parts) => parts,
            KeptParts::Shared(parts) => parts,
        }
    }

    /// The allocator of the parts.
    pub(crate) fn allocator(&self) -> Global {
        self.parts().allocator()
    }

    /// Joins another state into this one. Changes the parts in place if no copy shares them. After [`NoMemory`] the
    /// state is unchanged.
    pub fn absorb(&mut self, other: &Self) -> Result<(), NoMemory>
        ensures ok { OnOk result (self.new ≡ join self.old other.now) }
        ensures err { OnErr result (self.new ≡ self.old) }
    {
        if let KeptParts::Shared(shared) = &mut self.kept {
            if let Some(parts) = Arc::get_mut(shared) {
                return parts.absorb(other.parts());
            }
        }
        let joined = self.join(other)?;
        *self = joined;
        Ok(())
    }

    /// The dots of the operations heard.
    pub fn heard(&self) -> &Context
        ensures { result.now ≡ self.now.heard }
    {
        self.parts().heard()
    }

    /// The dots of the operations heard, and those that they replaced.
    pub fn known(&self) -> &Context
        ensures { result.now ≡ self.now.known }
    {
        self.parts().known()
    }

    /// The standing permits, which no heard operation replaced, paired with the known dots.
    pub fn permissions(&self) -> PermissionsRef<'_>
        ensures { result ≡ permissions_of self.now }
    {
        self.parts().permissions()
    }

    /// The standing start wishes, which no heard operation replaced, paired with the known dots.
    pub fn wishes(&self) -> WishesRef<'_>
        ensures { result ≡ wishes_of self.now }
    {
        self.parts().wishes()
    }

    /// The life of each node: its latest reported incarnation, and whether it is up.
    pub fn lives(&self) -> &Lives
        ensures { result.now ≡ self.now.lives }
    {
        self.parts().lives()
    }

    /// The greatest claim of each application.
    pub fn claims(&self) -> &Claims
        ensures { result.now ≡ self.now.claims }
    {
        self.parts().claims()
    }

    /// The standing drains, which no heard operation replaced, paired with the known dots.
    pub fn drains(&self) -> DrainsRef<'_>
        ensures { result ≡ drains_of self.now }
    {
        self.parts().drains()
    }
}

impl Lattice for State {
    ghost use Rattle.dac_meaning.specs.StateValue.{IsState, IsBelow, join};
    ghost use Rattle.dac_meaning.specs.laws.StateLaws.{state_laws};

    ghost is_value = { IsState };

    ghost below = { IsBelow };

    ghost join = { join };

    ghost laws = { state_laws };

    fn tells_invariant(&self) {
        self.parts().tells_invariant();
    }

    fn join(&self, other: &Self) -> Result<Self, NoMemory> {
        let joined = self.parts().join(other.parts())?;
        let state = State::of(joined)?;
        Ok(state)
    }

    fn leq(&self, other: &Self) -> bool {
        self.parts().leq(other.parts())
    }

    fn equal(&self, other: &Self) -> bool {
        self.parts().equal(other.parts())
    }

    fn copy(&self) -> Result<Self, NoMemory> {
        match &self.kept {
            KeptParts::Here(parts) => {
                let state = State::of(parts.copy()?)?;
                Ok(state)
            }
            KeptParts::Shared(parts) => Ok(State {
                kept: KeptParts::Shared(Arc::try_clone(parts)?),
            }),
        }
    }
}

impl Bottom for State {
    ghost use Rattle.dac_meaning.specs.StateValue.{bottom};
    ghost use Rattle.dac_meaning.specs.laws.StateLaws.{bottom_least, bottom_value};

    ghost bottom = { bottom };

    ghost least = { bottom_least };

    ghost bottom_value = { bottom_value };

    fn bottom(alloc: Global) -> Self {
        let parts = Parts::new(
            alloc,
            Context::empty(alloc),
            StandingWrites::nothing(alloc),
            Lives::bottom(alloc),
            Claims::bottom(alloc),
        );
        State {
            kept: KeptParts::Here(parts),
        }
    }
}
