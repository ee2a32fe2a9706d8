//! The greatest claim of each application.
ghost use Rattle.std.specs.Prelude.{◌≡◌, IfOk};
ghost use Rattle.std.specs.FinMap as map;
ghost use Rattle.dac_chains.specs.Kept.{unwrapped};

use dac_base::{AppId, NoMemory, NodeId};
use dac_lattice::{Bottom, Dot, Lattice, MapKey, MapOf, Max, Origin, Piece};
use std::alloc::Global;
use std::marker::Model;

/// How an application came to the node that claims it. Ordered as declared here.
#[derive(Clone, Copy, Debug, PartialEq, Eq, PartialOrd, Ord, Hash)]
pub enum How {
    /// It was started, or moved by a permission.
    Normal,
    /// It was restarted after the node that ran it went down.
    Failover,
    /// It was taken over from the node that ran it.
    Takeover,
}

/// A record that an incarnation of a node runs an application.
///
/// Claims are ordered by term, then by the claiming node and its incarnation, then by how it came there, and last by
/// the previous node, none first. A later claim has a greater term. Nodes separated by a network partition can make
/// claims with the same term: between those the order of the node names decides.
#[derive(Clone, Copy, Debug, PartialEq, Eq, PartialOrd, Ord, Hash)]
pub struct Claim {
    /// The term (epoch) of the claim among those of the application, from 1.
    pub term: u64,
    /// The incarnation that claims the application.
    pub origin: Origin,
    /// How the application came there.
    pub how: How,
    /// The node that it was taken from, unless it was started or moved.
    pub from: Option<NodeId>,
}

impl MapKey for Claim {
    ghost use Rattle.dac_chains.specs.laws.Claims.{exact_claims};
    ghost use Rattle.dac_chains.specs.laws.Hows.{exact_derived};

    ghost exact = { exact_claims ⟦<How as Ord>⟧.cmp exact_derived };
}

/// The part of an operation that concerns claims.
#[derive(Clone, Copy, Debug, PartialEq, Eq)]
pub enum ClaimAct {
    /// The issuer claims an application.
    Claim {
        /// The application claimed.
        app: AppId,
        /// The term of the claim.
        term: u64,
        /// How the application came there.
        how: How,
        /// The node that it was taken from, unless it was started or moved.
        from: Option<NodeId>,
    },
    /// Concerns no claim.
    Other,
}

/// The greatest claim of each application that was claimed. Contracts treat it as a finite map from applications to
/// claims.
pub struct Claims {
    claims: MapOf<AppId, Max<Claim>>,
}

/// Explicit, so that a proof treats each drop as one call.
impl Drop for Claims {
    fn drop(self) {
        let Claims { claims: _claims } = self;
    }
}

impl Model for Claims {
    ghost use Rattle.std.specs.FinMap as map;
    ghost use Rattle.dac_base.specs.Ids.{app_cmp, coded_app};
    ghost use Rattle.dac_chains.specs.declared.claims.Claim.{Claim};
    ghost use Rattle.dac_chains.specs.Claims.{coded_claim};

    ghost Value = { map.FinMap app_cmp Claim };

    ghost coded = { map.code coded_app coded_claim };

    ghost use Rattle.dac_chains.specs.Kept.{kept};

    ghost view = { λ a. kept a.claims };
}

impl Claims {
    /// A single claim.
    pub fn one(alloc: Global, app: AppId, claim: Claim) -> Result<Self, NoMemory>
        ensures { IfOk result (λ claims. claims ≡ map.insert map.empty app claim) }
    {
        let claims = MapOf::one(alloc, app, Max::new(claim))?;
        Ok(Claims { claims })
    }

    /// The greatest claim of an application, if it was claimed.
    #[inline(always)]
    pub fn greatest(&self, app: AppId) -> Option<Claim>
        ensures { result ≡ map.get self.now app }
    {
        match self.claims.get_near(app.0 as usize, app) {
            Some(greatest) => Some(greatest.value),
            None => None,
        }
    }

    /// The applications that were claimed, in ascending order, each with its greatest claim.
    pub fn entries(&self) -> &[(AppId, Max<Claim>)]
        ensures { unwrapped result.now ≡ map.entries self.now }
    {
        self.claims.tells_invariant();
        self.claims.entries()
    }
}

impl Lattice for Claims {
    ghost use Rattle.dac_base.specs.laws.Ids.{apps_total, exact_apps};
    ghost use Rattle.dac_lattice.specs.Chains.{IsAny};
    ghost use Rattle.dac_chains.specs.Greatest.{AreNotAbove, greater};
    ghost use Rattle.dac_chains.specs.laws.Greatest.{greatest_laws};
    ghost use Rattle.dac_chains.specs.Claims.{how_cmp, claim_cmp};
    ghost use Rattle.dac_chains.specs.laws.Claims.{claims_total, exact_hows, exact_claims};

    ghost is_value = { IsAny };

    ghost below = { AreNotAbove claim_cmp };

    ghost join = { greater claim_cmp };

    ghost laws = { greatest_laws apps_total exact_apps claims_total
        (exact_claims how_cmp exact_hows) };

    fn tells_invariant(&self) {}

    fn join(&self, other: &Self) -> Result<Self, NoMemory> {
        self.claims.tells_invariant();
        other.claims.tells_invariant();
        let claims = self.claims.join(&other.claims)?;
        Ok(Claims { claims })
    }

    fn leq(&self, other: &Self) -> bool {
        self.claims.leq(&other.claims)
    }

    fn equal(&self, other: &Self) -> bool {
        self.claims.tells_invariant();
        other.claims.tells_invariant();
        self.claims.equal(&other.claims)
    }

    fn copy(&self) -> Result<Self, NoMemory> {
        let claims = self.claims.copy()?;
        Ok(Claims { claims })
    }
}

impl Bottom for Claims {
    ghost use Rattle.std.specs.FinMap as map;
    ghost use Rattle.dac_base.specs.laws.Ids.{apps_total, exact_apps};
    ghost use Rattle.dac_chains.specs.laws.Greatest.{empty_is_least};
    ghost use Rattle.dac_chains.specs.Claims.{how_cmp};
    ghost use Rattle.dac_chains.specs.laws.Claims.{claims_total, exact_hows, exact_claims};

    ghost bottom = { map.empty };

    ghost least = { λ claims _. empty_is_least apps_total exact_apps claims_total
        (exact_claims how_cmp exact_hows) claims };

    ghost bottom_value = { tt };

    fn bottom(alloc: Global) -> Self {
        Claims {
            claims: MapOf::bottom(alloc),
        }
    }
}

impl Piece for Claims {
    ghost use Rattle.dac_base.specs.laws.Ids.{apps_total, exact_apps};
    ghost use Rattle.dac_chains.specs.Greatest.{alone};
    ghost use Rattle.dac_chains.specs.laws.Greatest.{greatest_piece};
    ghost use Rattle.dac_chains.specs.Claims.{AreGreatestClaims, how_cmp, claim_report};
    ghost use Rattle.dac_chains.specs.laws.Claims.{claims_total, exact_hows, exact_claims};

    type Act = ClaimAct;

    ghost fits = { λ _ _. Unit {0} };

    ghost delta = { λ dot act. alone (claim_report dot act) };

    ghost means = { AreGreatestClaims };

    ghost piece_laws = { greatest_piece apps_total exact_apps claims_total
        (exact_claims how_cmp exact_hows) claim_report };

    fn delta(alloc: Global, dot: Dot, act: &ClaimAct) -> Result<Self, NoMemory> {
        match act {
            ClaimAct::Claim {
                app,
                term,
                how,
                from,
            } => {
                let claim = Claim {
                    term: *term,
                    origin: dot.origin,
                    how: *how,
                    from: *from,
                };
                let claims = Claims::one(alloc, *app, claim)?;
                Ok(claims)
            }
            ClaimAct::Other => Ok(Claims::bottom(alloc)),
        }
    }
}
