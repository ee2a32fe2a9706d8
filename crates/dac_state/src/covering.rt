//! Whether a state is above the delta of one operation.
ghost use Rattle.std.specs.Prelude.{◌≡◌, ◌↔◌, ◌∷◌, [], IsTrue};
ghost use Rattle.dac_origins.specs.Dots.{IsSubset};
ghost use Rattle.dac_chains.specs.Greatest.{AreNotAbove};
ghost use Rattle.dac_chains.specs.Lives.{life_cmp};
ghost use Rattle.dac_chains.specs.Claims.{claim_cmp};
ghost use Rattle.dac_wishes.specs.PermissionsValue.{IsPermissionsBelow};
ghost use Rattle.dac_wishes.specs.WishesValue.{AreWishesBelow};
ghost use Rattle.dac_wishes.specs.DrainsValue.{AreDrainsBelow};
ghost use Rattle.dac_meaning.specs.StateValue.{IsBelow, drains_of, permissions_of, wishes_of};
ghost use Rattle.dac_meaning.specs.Meaning.{drain_vote, meaning_of, permit_vote};
ghost use Rattle.dac_state.specs.Covering.{started_in};

use crate::state::State;
use dac_chains::{Claims, Lives};
use dac_dots::Context;
use dac_meaning::{Act, Op, laws};
use dac_origins::Origin;
use dac_wishes::{DrainsRef, Key, PermissionsRef, WishesRef};

impl State {
    /// Whether the delta of an operation is below the state, so that receiving it would change nothing.
    pub fn covers(&self, op: &Op) -> bool
        ensures { IsTrue result ↔ IsBelow (meaning_of (op.now ∷ [])) self.now }
    {
        if !holds_dot(self.heard(), op) {
            return false;
        }
        if !holds_permit(&self.permissions(), op) {
            return false;
        }
        if !holds_start(&self.wishes(), op) {
            return false;
        }
        if !holds_life(self.lives(), op) {
            return false;
        }
        holds_claim(self.claims(), op) && holds_drain(&self.drains(), op)
    }
}

/// Whether the operation's dot is among those heard.
fn holds_dot(heard: &Context, op: &Op) -> bool
    ensures { IsTrue result ↔ IsSubset (meaning_of (op.now ∷ [])).heard heard.now }
{
    laws::delta_is_meaning();
    heard.contains(op.dot())
}

/// Whether the operation's permit and known dots are below these permissions.
fn holds_permit(permissions: &PermissionsRef<'_>, op: &Op) -> bool
    ensures { IsTrue result
        ↔ IsPermissionsBelow (permissions_of (meaning_of (op.now ∷ []))) permissions.now }
{
    laws::delta_is_meaning();
    op.tells_invariant();
    permissions.covers(op.dot(), permit_in(op.act()), op.act().over())
}

/// Whether the operation's start wish and known dots are below these wishes.
fn holds_start(wishes: &WishesRef<'_>, op: &Op) -> bool
    ensures { IsTrue result ↔ AreWishesBelow (wishes_of (meaning_of (op.now ∷ []))) wishes.now }
{
    laws::delta_is_meaning();
    op.tells_invariant();
    wishes.covers(op.dot(), started_in(op.act()), op.act().over())
}

/// Whether the operation's drain and known dots are below these drains.
fn holds_drain(drains: &DrainsRef<'_>, op: &Op) -> bool
    ensures { IsTrue result ↔ AreDrainsBelow (drains_of (meaning_of (op.now ∷ []))) drains.now }
{
    laws::delta_is_meaning();
    op.tells_invariant();
    drains.covers(op.dot(), drain_in(op.act()), op.act().over())
}

/// Whether the life in the operation's delta is below these lives.
fn holds_life(lives: &Lives, op: &Op) -> bool
    ensures { IsTrue result ↔ AreNotAbove life_cmp (meaning_of (op.now ∷ [])).lives lives.now }
{
    laws::delta_is_meaning();
    lives.covers(op.dot(), op.life_act())
}

/// Whether the operation's claim is below these claims.
fn holds_claim(claims: &Claims, op: &Op) -> bool
    ensures { IsTrue result ↔ AreNotAbove claim_cmp (meaning_of (op.now ∷ [])).claims claims.now }
{
    laws::delta_is_meaning();
    claims.covers(op.dot(), op.claim_act())
}

/// The key and value of a permit; `None` for any other act.
pub(crate) fn permit_in(act: &Act) -> Option<(Key, bool)>
    ensures { result ≡ permit_vote act.now }
{
    match act {
        Act::Permit {
            key,
            value,
            over: _,
        } => Some((*key, *value)),
        _ => None,
    }
}

/// The key of a start wish; `None` for any other act.
pub(crate) fn started_in(act: &Act) -> Option<Key>
    ensures { result ≡ started_in act.now }
{
    match act {
        Act::Start { key, over: _ } => Some(*key),
        _ => None,
    }
}

/// The incarnation and value of a drain; `None` for any other act.
pub(crate) fn drain_in(act: &Act) -> Option<(Origin, bool)>
    ensures { result ≡ drain_vote act.now }
{
    match act {
        Act::Drain {
            node,
            inc,
            value,
            over: _,
        } => {
            let at = Origin {
                node: *node,
                inc: *inc,
            };
            Some((at, *value))
        }
        _ => None,
    }
}
