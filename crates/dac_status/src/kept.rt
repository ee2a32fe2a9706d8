//! Verdicts and runners computed from the marks of nodes, so that a summary searches the state only once.
ghost use Rattle.std.specs.Prelude.{◌≡◌, ◌<◌, ◌==◌, ◌&&◌, false, IfSome};
ghost use Rattle.std.specs.Option.{is_some, option_map_or};
ghost use Rattle.std.specs.FinMap as map;
ghost use Rattle.dac_base.specs.declared.AppId.{AppId as App};
ghost use Rattle.dac_config.specs.Table.{app_count};
ghost use Rattle.dac_meaning.specs.StateValue.{StateValue};
ghost use Rattle.dac_placement.specs.declared.standing.Standing.TheVariants.{Upheld};
ghost use Rattle.dac_placement.specs.Placement.{runner_of, standing_of, verdict_of};
ghost use Rattle.dac_status.specs.Kept.{is_ok, runners_of};
ghost use Rattle.dac_status.specs.Summaries.{lives_of, live_in, marks_of};

use crate::facts::{Marked, Runners};
use crate::marks::Mark;
use dac_base::{AppId, MAX_APPS, MAX_NODES, NodeId};
use dac_chains::{Claim, Life};
use dac_config::Config;
use dac_lattice::Flag;
use dac_origins::Origin;
use dac_placement::{Standing, Verdict, group_held, runner, standing_of, verdict_for};
use dac_state::State;

/// The verdict of an application, from its greatest claim, the nodes' lives, their marks for it, and the runner of each
/// application. That it is upheld at its holder follows from lives and marks alone.
pub(crate) fn verdict_seen(
    config: &Config,
    state: &State,
    app: AppId,
    claim: Option<Claim>,
    lives: &[Option<Life>; MAX_NODES],
    marks: &[Mark; MAX_NODES],
    runners: &[Option<NodeId>; MAX_APPS],
) -> Verdict
    requires app { app.0 < app_count config.now }
    requires claim { claim ≡ map.get state.now.claims app }
    requires lives { lives.now ≡ lives_of config.now state.now }
    requires marks { marks.now ≡ marks_of config.now state.now app }
    requires runners { runners.now ≡ runners_of config.now state.now }
    ensures { result ≡ verdict_of config.now state.now app }
{
    let standing = match upheld_at(config, claim, lives, marks) {
        Some(holder) => Standing::Upheld(holder),
        None => standing_of(config, state, app),
    };
    let late = group_held(config, app, standing);
    let runs = Runners { config, runners };
    let candidates = Marked { config, app, marks };
    verdict_for(&runs, &candidates, app, standing, late)
}

/// The node at which an application runs, if any, from its greatest claim, the nodes' lives and their marks for it.
/// Only a state that no operation produced has a claim of a node outside the configuration.
pub(crate) fn runner_by(
    config: &Config,
    state: &State,
    app: AppId,
    claim: Option<Claim>,
    lives: &[Option<Life>; MAX_NODES],
    marks: &[Mark; MAX_NODES],
) -> Option<NodeId>
    requires app { app.0 < app_count config.now }
    requires claim { claim ≡ map.get state.now.claims app }
    requires lives { lives.now ≡ lives_of config.now state.now }
    requires marks { marks.now ≡ marks_of config.now state.now app }
    ensures { result ≡ runner_of config.now state.now app }
{
    let holder = claim?.origin;
    if holder.node.0 >= config.nodes() {
        return runner(config, state, app);
    }
    let place = holder.node.0 as usize;
    let group = config.group_of(app, holder.node);
    if runs_by(holder, lives[place], marks[place], group) {
        Some(holder.node)
    } else {
        None
    }
}

/// Whether an application runs at its holder, given the life, mark and group of the holder's node.
fn runs_by(holder: Origin, life: Option<Life>, mark: Mark, group: Option<u16>) -> bool
    ensures { result
        ≡ (option_map_or (λ inc. inc == holder.inc) (live_in life) false
        && (is_some group && is_ok mark)) }
{
    match live_in(life) {
        Some(inc) => inc == holder.inc && (group.is_some() && is_ok(mark)),
        None => false,
    }
}

/// The claimer, if it is live at the same incarnation and nothing keeps the application from it.
fn upheld_at(
    config: &Config,
    claim: Option<Claim>,
    lives: &[Option<Life>; MAX_NODES],
    marks: &[Mark; MAX_NODES],
) -> Option<NodeId>
    ensures { (s : StateValue) (app : App) → claim ≡ map.get s.claims app
        → lives.now ≡ lives_of config.now s → marks.now ≡ marks_of config.now s app
        → IfSome result (λ holder. standing_of config.now s app ≡ Upheld holder) }
{
    let holder = claim?.origin;
    if holder.node.0 >= config.nodes() {
        return None;
    }
    let place = holder.node.0 as usize;
    let inc = live_in(lives[place])?;
    if inc == holder.inc && is_ok(marks[place]) {
        Some(holder.node)
    } else {
        None
    }
}

/// Whether nothing keeps the application from a node of this mark.
pub(crate) fn is_ok(mark: Mark) -> bool
    ensures { result ≡ is_ok mark }
{
    match mark {
        Mark::Down | Mark::Barred | Mark::Drained | Mark::Idle => false,
        Mark::Ok => true,
    }
}

/// The incarnation of a life that is up.
pub(crate) fn live_in(life: Option<Life>) -> Option<u64>
    ensures { result ≡ live_in life }
{
    let life = life?;
    match life.flag {
        Flag::Up => Some(life.inc),
        Flag::Down => None,
    }
}
