//! Whether a piece already contains the effect of an operation.
ghost use Rattle.std.specs.Prelude.{◌≡◌, ◌↔◌, Some, IsTrue};
ghost use Rattle.std.specs.Ordering.{is_le};
ghost use Rattle.dac_chains.specs.Greatest.{AreNotAbove, alone};
ghost use Rattle.dac_chains.specs.Lives.{life_cmp, life_report};
ghost use Rattle.dac_chains.specs.Claims.{claim_cmp, claim_report};

use crate::claims::{Claim, ClaimAct, Claims};
use crate::lives::{Life, LifeAct, Lives};
use dac_base::{AppId, NodeId};
use dac_lattice::{Dot, Flag};

impl Lives {
    /// Whether the delta of an operation is below these lives, so that joining it would change nothing.
    pub fn covers(&self, dot: Dot, act: LifeAct) -> bool
        ensures { IsTrue result ↔ AreNotAbove life_cmp (alone (life_report dot act)) self.now }
    {
        match act {
            LifeAct::Up => self.reaches(
                dot.origin.node,
                Life {
                    inc: dot.origin.inc,
                    flag: Flag::Up,
                },
            ),
            LifeAct::Down { node, inc } => self.reaches(
                node,
                Life {
                    inc,
                    flag: Flag::Down,
                },
            ),
            LifeAct::Other => true,
        }
    }

    /// Whether the node's life is at least this one.
    fn reaches(&self, node: NodeId, life: Life) -> bool
        ensures { IsTrue result ↔ AreNotAbove life_cmp (alone (Some (node, life))) self.now }
    {
        match self.greatest_life(node) {
            Some(kept) => is_life_within(life, kept),
            None => false,
        }
    }
}

impl Claims {
    /// Whether the delta of an operation is below these claims, so that joining it would change nothing.
    pub fn covers(&self, dot: Dot, act: ClaimAct) -> bool
        ensures { IsTrue result ↔ AreNotAbove claim_cmp (alone (claim_report dot act)) self.now }
    {
        match act {
            ClaimAct::Claim {
                app,
                term,
                how,
                from,
            } => self.reaches(
                app,
                Claim {
                    term,
                    origin: dot.origin,
                    how,
                    from,
                },
            ),
            ClaimAct::Other => true,
        }
    }

    /// Whether the application's claim is at least this one.
    fn reaches(&self, app: AppId, claim: Claim) -> bool
        ensures { IsTrue result ↔ AreNotAbove claim_cmp (alone (Some (app, claim))) self.now }
    {
        match self.greatest(app) {
            Some(kept) => is_claim_within(claim, kept),
            None => false,
        }
    }
}

/// Whether a life is less than or equal to another.
fn is_life_within(life: Life, kept: Life) -> bool
    ensures { result ≡ is_le (life_cmp life kept) }
{
    life.cmp(&kept).is_le()
}

/// Whether a claim is less than or equal to another.
fn is_claim_within(claim: Claim, kept: Claim) -> bool
    ensures { result ≡ is_le (claim_cmp claim kept) }
{
    claim.cmp(&kept).is_le()
}
