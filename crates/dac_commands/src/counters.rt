//! The counters of an incarnation's operations and the terms of an application's claims: whether any is left, and the
//! next term.
ghost use Rattle.std.specs.Prelude.{◌≡◌, ◌↔◌, IsTrue, false};
ghost use Rattle.dac_origins.specs.Dots.{IsUsedUp};
ghost use Rattle.dac_commands.specs.Commands.{next_term};
ghost use Rattle.dac_commands.specs.Causes.{terms_used_up, used_up};
ghost use Rattle.dac_commands.specs.Written.{HasLastTerm};

use dac_base::{AppId, MAX_COUNTER};
use dac_origins::Origin;
use dac_placement::State;

/// Whether the counters of an incarnation's operations are used up: one of its known dots has the last counter, 2^62,
/// or a later one.
pub fn dots_used_up(state: &State, own: Origin) -> bool
    ensures value { result ≡ used_up state.now own }
    ensures cases { IsTrue result ↔ IsUsedUp state.now.known own }
{
    state.known().next(own).is_none()
}

/// Whether the terms of an application's claims are used up: its greatest claim has the last term, 2^62, or a later
/// one.
pub fn terms_used_up(state: &State, app: AppId) -> bool
    ensures value { result ≡ terms_used_up state.now app }
    ensures cases { IsTrue result ↔ HasLastTerm state.now app }
{
    match state.claims().greatest(app) {
        Some(claim) => claim.term >= MAX_COUNTER,
        None => false,
    }
}

/// The term of an application's next claim: one more than the greatest claim's, or 1 without claims.
pub(crate) fn next_term(state: &State, app: AppId) -> u64
    requires { terms_used_up state.now app ≡ false }
    ensures { result ≡ next_term state.now app }
{
    match state.claims().greatest(app) {
        Some(claim) => claim.term + 1,
        None => 1,
    }
}
