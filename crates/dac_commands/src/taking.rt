//! Why a takeover is refused.
ghost use Rattle.std.specs.Prelude.{◌≡◌};
ghost use Rattle.dac_commands.specs.Causes.{first, causes_to_take, causes_to_claim};

use crate::counters::{dots_used_up, terms_used_up};
use dac_base::AppId;
use dac_config::Config;
use dac_events::Refusal;
use dac_origins::Origin;
use dac_placement::{State, eligible, is_earlier, runner, runs_at};

/// Why the controller's own node can't take over an application, if it can't.
pub(crate) fn refusal_to_take(
    config: &Config,
    own: Origin,
    state: &State,
    app: AppId,
) -> Option<Refusal>
    ensures { result ≡ first (causes_to_take config.now own state.now app) }
{
    if app.0 >= config.apps() {
        return Some(Refusal::UnknownApp);
    }
    if config.group_of(app, own.node).is_none() {
        return Some(Refusal::NotInList);
    }
    if !eligible(config, state, app, own.node) {
        return Some(Refusal::NotEligible);
    }
    let Some(runner) = runner(config, state, app) else {
        return Some(Refusal::NotRunning);
    };
    if runs_at(config, state, app, own.node) {
        return Some(Refusal::AlreadyHolder);
    }
    if is_earlier(config, app, runner, own.node) {
        return Some(Refusal::LowerPriority);
    }
    refusal_to_claim(own, state, app)
}

/// Why an incarnation can't issue a claim of an application, if it can't.
fn refusal_to_claim(own: Origin, state: &State, app: AppId) -> Option<Refusal>
    ensures { result ≡ first (causes_to_claim own state.now app) }
{
    if terms_used_up(state, app) {
        return Some(Refusal::TermsUsedUp);
    }
    if dots_used_up(state, own) {
        return Some(Refusal::DotsUsedUp);
    }
    None
}
