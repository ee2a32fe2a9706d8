//! What stands of a set of operations, with one context.
ghost use Rattle.std.specs.Prelude.{◌≡◌, ◌↔◌, unwrap_or, IsTrue, IfOk, OnOk, OnErr};
ghost use Rattle.std.specs.FinSet as set;
ghost use Rattle.std.specs.FinMap as map;
ghost use Rattle.dac_origins.specs.Dots.{IsSubset};
ghost use Rattle.dac_wishes.specs.StoredStanding.{IsJoinedOr};
ghost use Rattle.dac_wishes.specs.Covering.{drain_act, permit_act, wish_act};
ghost use Rattle.dac_wishes.specs.DrainMeaning.{drain_delta};
ghost use Rattle.dac_wishes.specs.PermitMeaning.{permit_delta};
ghost use Rattle.dac_wishes.specs.WishMeaning.{wish_delta};
ghost use Rattle.dac_wishes.specs.StandingValue.{AreStanding, IsStandingBelow, drains_in, join_standing, permissions_in, standing_of, wishes_in};

use crate::covering::{drain_vote, permit_vote};
use crate::delta::named_by;
use crate::drains::Drains;
use crate::drains_ref::DrainsRef;
use crate::key::Key;
use crate::permissions::Permissions;
use crate::permissions_ref::PermissionsRef;
use crate::votes::kept_alone;
use crate::wishes::{Wishes, start_at};
use crate::wishes_ref::WishesRef;
use dac_base::NoMemory;
use dac_lattice::{Bottom, Flag};
use dac_origins::{Dot, Origin};
use dac_store::{CausalRef, Context, DotFun, DotMap, DotSet, DotStore, LastStep, absorb_paired};
use std::alloc::Global;
use std::marker::Model;

/// The standing permits, start wishes and drains of a set of operations, and the known dots, which are stored once.
pub struct StandingWrites {
    known: Context,
    permits: DotMap<Key, DotFun<Flag>>,
    starts: DotMap<Key, DotSet>,
    drains: DotMap<Origin, DotFun<Flag>>,
}

/// Explicit, so that a proof treats each drop as one call.
impl Drop for StandingWrites {
    fn drop(self) {
        let StandingWrites {
            known: _known,
            permits: _permits,
            starts: _starts,
            drains: _drains,
        } = self;
    }
}

impl Model for StandingWrites {
    ghost use Rattle.dac_wishes.specs.StandingValue.{StandingValue, coded_standing};
    ghost use Rattle.dac_wishes.specs.StoredStanding.{AreStoredBeside, stored_standing};

    ghost Value = { StandingValue };

    ghost coded = { coded_standing };

    ghost view = { λ a. stored_standing a.known a.permits a.starts a.drains };

    ghost invariant = { λ a. AreStoredBeside a.known a.permits a.starts a.drains };
}

impl StandingWrites {
    /// These pieces, which know the same dots.
    pub fn of(permissions: Permissions, wishes: Wishes, drains: Drains) -> Self
        requires alike { permissions.known ≡ wishes.known }
        requires drained { drains.known ≡ wishes.known }
        ensures { result ≡ standing_of permissions wishes drains }
    {
        let (permits, _) = permissions.into_causal().into_parts();
        let (starts, known) = wishes.into_causal().into_parts();
        let (drains, _) = drains.into_causal().into_parts();
        StandingWrites {
            known,
            permits,
            starts,
            drains,
        }
    }

    /// Nothing.
    pub fn nothing(alloc: Global) -> Self
        ensures { result ≡ record {
          known = set.empty;
          permits = map.empty;
          starts = set.empty;
          drains = map.empty;
        } }
    {
        StandingWrites::of(
            Permissions::bottom(alloc),
            Wishes::bottom(alloc),
            Drains::bottom(alloc),
        )
    }

    /// What stands of one operation that replaces these dots: a permit, a start, a drain, or nothing.
    pub fn delta(
        alloc: Global,
        dot: Dot,
        over: &[Dot],
        permit: Option<(Key, bool)>,
        start: Option<Key>,
        drain: Option<(Origin, bool)>,
    ) -> Result<Self, NoMemory>
        ensures permits { IfOk result
            (λ made. permissions_in made ≡ permit_delta dot (permit_act permit over.now)) }
        ensures starts { IfOk result
            (λ made. wishes_in made ≡ wish_delta dot (wish_act start over.now)) }
        ensures drains { IfOk result
            (λ made. drains_in made ≡ drain_delta dot (drain_act drain over.now)) }
    {
        let known = named_by(alloc, dot, over)?;
        let permits = kept_alone(alloc, dot, permit_vote(permit))?;
        let starts = start_at(alloc, dot, start)?;
        let drains = kept_alone(alloc, dot, drain_vote(drain))?;
        Ok(StandingWrites {
            known,
            permits,
            starts,
            drains,
        })
    }

    /// States the type's invariant for proofs; does nothing at run time.
    pub fn tells_invariant(&self)
        ensures { AreStanding self.now }
    {
        let _known = &self.known;
    }

    /// The known dots.
    #[inline(always)]
    pub fn known(&self) -> &Context
        ensures { result.now ≡ self.now.known }
    {
        &self.known
    }

    /// The standing permits.
    #[inline(always)]
    pub fn permissions(&self) -> PermissionsRef<'_>
        ensures { result ≡ permissions_in self.now }
    {
        PermissionsRef::of(CausalRef::of(&self.permits, &self.known))
    }

    /// The standing start wishes.
    #[inline(always)]
    pub fn wishes(&self) -> WishesRef<'_>
        ensures { result ≡ wishes_in self.now }
    {
        WishesRef::of(CausalRef::of(&self.starts, &self.known))
    }

    /// The standing drains.
    #[inline(always)]
    pub fn drains(&self) -> DrainsRef<'_>
        ensures { result ≡ drains_in self.now }
    {
        DrainsRef::of(CausalRef::of(&self.drains, &self.known))
    }

    /// The join with the other one. Takes `union`, the union of the known dots of both.
    pub fn join_with_context(&self, other: &Self, union: Context) -> Result<Self, NoMemory>
        requires { union ≡ set.union self.now.known other.now.known }
        ensures { IfOk result (λ joined. joined ≡ join_standing self.now other.now) }
    {
        let permits = CausalRef::of(&self.permits, &self.known).join_stores(&CausalRef::of(
            &other.permits,
            &other.known,
        ))?;
        let starts = CausalRef::of(&self.starts, &self.known).join_stores(&CausalRef::of(
            &other.starts,
            &other.known,
        ))?;
        let drains = CausalRef::of(&self.drains, &self.known).join_stores(&CausalRef::of(
            &other.drains,
            &other.known,
        ))?;
        Ok(StandingWrites {
            known: union,
            permits,
            starts,
            drains,
        })
    }

    /// Joins the other one into this one, in place where possible. After [`NoMemory`] this one is unchanged.
    ///
    /// Only one of the stores changes in place, the last, because a failure after that could not be undone. It is the
    /// permits if the other side has some, and otherwise the start wishes.
    pub fn absorb(&mut self, other: &Self) -> Result<(), NoMemory>
        ensures ok { OnOk result (self.new ≡ join_standing self.old other.now) }
        ensures err { OnErr result (self.new ≡ self.old) }
    {
        if other.permits.is_empty() {
            self.absorb_starts_last(other)
        } else {
            self.absorb_permits_last(other)
        }
    }

    /// Joins the other one into this one. The start wishes change in place, if they can.
    fn absorb_starts_last(&mut self, other: &Self) -> Result<(), NoMemory>
        ensures ok { OnOk result (self.new ≡ join_standing self.old other.now) }
        ensures err { OnErr result (self.new ≡ self.old) }
    {
        let permits = joined_unless_same(
            &CausalRef::of(&self.permits, &self.known),
            &CausalRef::of(&other.permits, &other.known),
        )?;
        let drains = joined_unless_same(
            &CausalRef::of(&self.drains, &self.known),
            &CausalRef::of(&other.drains, &other.known),
        )?;
        let theirs = CausalRef::of(&other.starts, &other.known);
        absorb_paired(&mut self.starts, &mut self.known, &theirs)?;
        put_if_some(&mut self.permits, permits);
        put_if_some(&mut self.drains, drains);
        Ok(())
    }

    /// Joins the other one into this one. The permits change in place, if they can.
    fn absorb_permits_last(&mut self, other: &Self) -> Result<(), NoMemory>
        ensures ok { OnOk result (self.new ≡ join_standing self.old other.now) }
        ensures err { OnErr result (self.new ≡ self.old) }
    {
        let starts = joined_unless_same(
            &CausalRef::of(&self.starts, &self.known),
            &CausalRef::of(&other.starts, &other.known),
        )?;
        let drains = joined_unless_same(
            &CausalRef::of(&self.drains, &self.known),
            &CausalRef::of(&other.drains, &other.known),
        )?;
        let theirs = CausalRef::of(&other.permits, &other.known);
        absorb_paired(&mut self.permits, &mut self.known, &theirs)?;
        put_if_some(&mut self.starts, starts);
        put_if_some(&mut self.drains, drains);
        Ok(())
    }

    /// Whether this is below the other one, if the other knows each dot that this one knows.
    pub fn leq_with_contexts(&self, other: &Self) -> bool
        requires { IsSubset self.now.known other.now.known }
        ensures { IsTrue result ↔ IsStandingBelow self.now other.now }
    {
        let permits = CausalRef::of(&self.permits, &self.known);
        if !permits.leq_with_contexts(&CausalRef::of(&other.permits, &other.known)) {
            return false;
        }
        let starts = CausalRef::of(&self.starts, &self.known);
        if !starts.leq_with_contexts(&CausalRef::of(&other.starts, &other.known)) {
            return false;
        }
        let drains = CausalRef::of(&self.drains, &self.known);
        drains.leq_with_contexts(&CausalRef::of(&other.drains, &other.known))
    }

    /// Whether both know the same dots.
    pub fn knows_same(&self, other: &Self) -> bool
        ensures { IsTrue result ↔ (self.now.known ≡ other.now.known) }
    {
        self.known.is_subset(&other.known) && other.known.is_subset(&self.known)
    }

    /// Whether both are equal, if both know the same dots.
    pub fn equal_with_contexts(&self, other: &Self) -> bool
        requires { self.now.known ≡ other.now.known }
        ensures { IsTrue result ↔ (self.now ≡ other.now) }
    {
        let starts = CausalRef::of(&self.starts, &self.known);
        if !starts.has_same_store(&CausalRef::of(&other.starts, &other.known)) {
            return false;
        }
        let permits = CausalRef::of(&self.permits, &self.known);
        if !permits.has_same_store(&CausalRef::of(&other.permits, &other.known)) {
            return false;
        }
        let drains = CausalRef::of(&self.drains, &self.known);
        drains.has_same_store(&CausalRef::of(&other.drains, &other.known))
    }

    /// An equal value, which can share immutable memory.
    pub fn copy(&self) -> Result<Self, NoMemory>
        ensures { IfOk result (λ copied. copied ≡ self.now) }
    {
        let known = self.known.copy()?;
        let permits = self.permits.copy()?;
        let starts = self.starts.copy()?;
        let drains = self.drains.copy()?;
        Ok(StandingWrites {
            known,
            permits,
            starts,
            drains,
        })
    }
}

/// The join of the stores, or `None` if this side's is known to stay.
#[inline(always)]
fn joined_unless_same<S: DotStore>(
    mine: &CausalRef<'_, S>,
    theirs: &CausalRef<'_, S>,
) -> Result<Option<S>, NoMemory>
    ensures { IfOk result (λ joined. IsJoinedOr mine.now.store
        (S.join mine.now.store mine.now.context theirs.now.store theirs.now.context) joined) }
{
    if theirs.leaves(mine) {
        mine.tells_invariant();
        return Ok(None);
    }
    Ok(Some(mine.join_stores(theirs)?))
}

/// Replaces a store by another one, if there is one.
fn put_if_some<S: DotStore>(store: &mut S, joined: Option<S>)
    ensures { store.new ≡ unwrap_or joined store.old }
{
    if let Some(joined) = joined {
        *store = joined;
    }
}

/// Joins what stands of another set of operations.
#[derive(Clone, Copy)]
pub struct AbsorbStanding<'a> {
    /// What stands of the other set.
    pub other: &'a StandingWrites,
}

impl LastStep<StandingWrites> for AbsorbStanding<'_> {
    ghost use Rattle.std.specs.Prelude.{◌≡◌};
    ghost use Rattle.dac_wishes.specs.StandingValue.{join_standing};

    ghost steps = { λ a old new. new ≡ join_standing old a.other.now };

    fn take(&self, standing: &mut StandingWrites) -> Result<(), NoMemory> {
        standing.absorb(self.other)
    }
}
