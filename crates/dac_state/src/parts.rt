//! The parts of a state.
ghost use Rattle.std.specs.Prelude.{◌≡◌, ◌↔◌, IsTrue, IfOk, OnOk, OnErr};
ghost use Rattle.dac_meaning.specs.StateValue.{IsState, IsBelow, drains_of, join, permissions_of, wishes_of};
ghost use Rattle.dac_state.specs.Heard.{heard_given};
ghost use Rattle.dac_state.specs.Parts.{state_of_parts};

use crate::heard::Heard;
use dac_base::NoMemory;
use dac_chains::{Claims, Lives};
use dac_dots::Context;
use dac_lattice::Lattice;
use dac_wishes::{DrainsRef, PermissionsRef, StandingWrites, WishesRef};
use std::alloc::Global;
use std::marker::Model;

/// The parts of a state.
#[derive(Drop)]
pub(crate) struct Parts {
    alloc: Global,
    heard: Heard,
    standing: StandingWrites,
    lives: Lives,
    claims: Claims,
}

impl Model for Parts {
    ghost use Rattle.dac_meaning.specs.StateValue.{IsState, StateValue, coded_state};
    ghost use Rattle.dac_state.specs.Heard.{heard_given};
    ghost use Rattle.dac_state.specs.Parts.{state_of_parts};

    ghost Value = { StateValue };

    ghost coded = { coded_state };

    ghost view = { λ a. state_of_parts (heard_given a.heard a.standing.known) a.standing a.lives
        a.claims };

    ghost invariant = { λ a. IsState (state_of_parts (heard_given a.heard a.standing.known)
        a.standing a.lives a.claims) };
}

impl Parts {
    /// The parts of a state, with the dots heard as a context.
    pub(crate) fn new(
        alloc: Global,
        heard: Context,
        standing: StandingWrites,
        lives: Lives,
        claims: Claims,
    ) -> Self
        requires { IsState (state_of_parts heard standing lives claims) }
        ensures { result ≡ state_of_parts heard standing lives claims }
    {
        let heard = Heard::of(heard, standing.known());
        Parts::beside(alloc, heard, standing, lives, claims)
    }

    /// The parts of a state, with the dots heard relative to the known dots.
    pub(crate) fn beside(
        alloc: Global,
        heard: Heard,
        standing: StandingWrites,
        lives: Lives,
        claims: Claims,
    ) -> Self
        requires { IsState (state_of_parts (heard_given heard standing.known) standing lives claims) }
        ensures { result ≡ state_of_parts (heard_given heard standing.known) standing lives claims }
    {
        Parts {
            alloc,
            heard,
            standing,
            lives,
            claims,
        }
    }

    /// The allocator of the parts, for joins and copies.
    pub(crate) fn allocator(&self) -> Global {
        self.alloc
    }

    /// The dots of the operations heard.
    pub(crate) fn heard(&self) -> &Context
        ensures { result.now ≡ self.now.heard }
    {
        self.heard.beside(self.standing.known())
    }

    /// The dots of the operations heard, and those that they replaced.
    pub(crate) fn known(&self) -> &Context
        ensures { result.now ≡ self.now.known }
    {
        self.standing.known()
    }

    /// The standing permits.
    pub(crate) fn permissions(&self) -> PermissionsRef<'_>
        ensures { result ≡ permissions_of self.now }
    {
        self.standing.permissions()
    }

    /// The standing start wishes, whose context is the known dots.
    pub(crate) fn wishes(&self) -> WishesRef<'_>
        ensures { result ≡ wishes_of self.now }
    {
        self.standing.wishes()
    }

    /// The life of each node.
    pub(crate) fn lives(&self) -> &Lives
        ensures { result.now ≡ self.now.lives }
    {
        &self.lives
    }

    /// The greatest claim of each application.
    pub(crate) fn claims(&self) -> &Claims
        ensures { result.now ≡ self.now.claims }
    {
        &self.claims
    }

    /// The standing drains.
    pub(crate) fn drains(&self) -> DrainsRef<'_>
        ensures { result ≡ drains_of self.now }
    {
        self.standing.drains()
    }

    /// Provides the invariant to proofs. It does nothing at run time.
    pub(crate) fn tells_invariant(&self)
        ensures { IsState self.now }
    {
        let _heard = &self.heard;
    }

    /// The join of all parts.
    pub(crate) fn join(&self, other: &Self) -> Result<Self, NoMemory>
        ensures { IfOk result (λ joined. joined ≡ join self.now other.now) }
    {
        let mine = self.standing.known();
        let theirs = other.standing.known();
        let (known, heard) = self.heard.join(mine, &other.heard, theirs)?;
        let standing = self.standing.join_with_context(&other.standing, known)?;
        let lives = self.lives.join(&other.lives)?;
        let claims = self.claims.join(&other.claims)?;
        Ok(Parts {
            alloc: self.alloc,
            heard,
            standing,
            lives,
            claims,
        })
    }

    /// Joins other parts into these, in place where possible. After [`NoMemory`] these are unchanged.
    pub(crate) fn absorb(&mut self, other: &Self) -> Result<(), NoMemory>
        ensures ok { OnOk result (self.new ≡ join self.old other.now) }
        ensures err { OnErr result (self.new ≡ self.old) }
    {
        let lives = self.lives.join(&other.lives)?;
        let claims = self.claims.join(&other.claims)?;
        // This is the last call that can fail, because it changes parts in place.
        self.heard
            .absorb(&mut self.standing, &other.heard, &other.standing)?;
        self.lives = lives;
        self.claims = claims;
        Ok(())
    }

    /// Whether each part is below the other's.
    pub(crate) fn leq(&self, other: &Self) -> bool
        ensures { IsTrue result ↔ IsBelow self.now other.now }
    {
        let known = self.standing.known();
        if !self.heard.leq(known, &other.heard, other.standing.known()) {
            return false;
        }
        if !self.standing.leq_with_contexts(&other.standing) {
            return false;
        }
        self.lives.leq(&other.lives) && self.claims.leq(&other.claims)
    }

    /// Whether the parts are equal. The known dots come first, because they differ most often.
    pub(crate) fn equal(&self, other: &Self) -> bool
        ensures { IsTrue result ↔ (self.now ≡ other.now) }
    {
        if !self.standing.knows_same(&other.standing) {
            return false;
        }
        if !self.heard.equal(&other.heard, self.standing.known()) {
            return false;
        }
        if !self.lives.equal(&other.lives) {
            return false;
        }
        if !self.claims.equal(&other.claims) {
            return false;
        }
        self.standing.equal_with_contexts(&other.standing)
    }

    /// A copy, which can share immutable memory.
    pub(crate) fn copy(&self) -> Result<Self, NoMemory>
        ensures { IfOk result (λ copied. copied ≡ self.now) }
    {
        let heard = self.heard.copy()?;
        let standing = self.standing.copy()?;
        let lives = self.lives.copy()?;
        let claims = self.claims.copy()?;
        Ok(Parts {
            alloc: self.alloc,
            heard,
            standing,
            lives,
            claims,
        })
    }
}
