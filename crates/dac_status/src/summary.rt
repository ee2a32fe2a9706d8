//! Summaries of states.

ghost use Rattle.std.specs.Prelude.{◌≡◌, ◌+◌, ◌<◌};
ghost use Rattle.dac_config.specs.Table.{app_count};
ghost use Rattle.dac_status.specs.Summaries.{mark_at, live_in, drains, marks_of, lives_of, drains_live, drained_of, no_app, app_summaries, summary_of};
ghost use Rattle.dac_status.specs.Kept.{app_begun, apps_begun, runners_of};
ghost use Rattle.dac_status.specs.Walks.{IsBefore, first_key};

use crate::kept::{live_in, runner_by, verdict_seen};
use crate::marks::Mark;
use crate::walk::Walk;
use dac_base::{AppId, MAX_APPS, MAX_NODES, NodeId};
use dac_chains::{Claim, Life};
use dac_config::Config;
use dac_placement::{Verdict, is_drained};
use dac_state::{Key, State};

/// An application in a summary.
#[derive(Clone, Copy, Debug, PartialEq, Eq)]
pub struct AppSummary {
    /// The greatest claim, if there is one.
    pub claim: Option<Claim>,
    /// The verdict.
    pub verdict: Verdict,
    /// The mark of each node by its number, even if the application's list lacks the node. A place past the
    /// configuration's nodes is `Down`.
    pub marks: [Mark; MAX_NODES],
}

/// A summary of a controller's state: plain data of a fixed size.
#[derive(Clone, Copy, Debug, PartialEq, Eq)]
pub struct Summary {
    /// The number of dots heard, which is that of the operations.
    pub heard: u128,
    /// The number of dots known: those of operations heard, and of the operations that these replace.
    pub known: u128,
    /// The greatest life of each node by its number, if any. A place past the configuration's nodes is empty.
    pub lives: [Option<Life>; MAX_NODES],
    /// Whether each node is live and drained, by its number. A place past the configuration's nodes is false.
    pub drained: [bool; MAX_NODES],
    /// Each application by its number. A place past the configuration's applications has no claim, the verdict
    /// `Nobody`, and only marks `Down`.
    pub apps: [AppSummary; MAX_APPS],
}

impl Summary {
    /// The summary of a state under the configuration.
    pub fn of(config: &Config, state: &State) -> Summary
        ensures { result ≡ summary_of config.now state.now }
    {
        let lives = lives_of(config, state);
        let drained = drained_of(config, state);
        let apps = apps_of(config, state, &lives, &drained);
        Summary {
            heard: state.heard().len(),
            known: state.known().len(),
            lives,
            drained,
            apps,
        }
    }
}

/// The life of each node of the configuration, by its number.
fn lives_of(config: &Config, state: &State) -> [Option<Life>; MAX_NODES]
    ensures { result ≡ lives_of config.now state.now }
{
    let mut lives = [None; MAX_NODES];
    for number in 0..config.nodes() {
        lives[number as usize] = state.lives().greatest_life(NodeId(number));
    }
    lives
}

/// Whether a node is live at an incarnation that is drained.
fn drains_live(state: &State, node: NodeId) -> bool
    ensures { result ≡ drains_live state.now node }
{
    match state.lives().live(node) {
        Some(inc) => is_drained(state, node, inc),
        None => false,
    }
}

/// Whether each node of the configuration is live and drained, by its number.
fn drained_of(config: &Config, state: &State) -> [bool; MAX_NODES]
    ensures { result ≡ drained_of config.now state.now }
{
    let mut drained = [false; MAX_NODES];
    for number in 0..config.nodes() {
        drained[number as usize] = drains_live(state, NodeId(number));
    }
    drained
}

/// The mark of a node of this life, drained or not. The walk advances to the next node.
fn mark_by(
    config: &Config,
    walk: &mut Walk<'_>,
    app: AppId,
    node: NodeId,
    life: Option<Life>,
    drained: bool,
) -> Mark
    requires app { app.0 < app_count config.now }
    requires drained { drained ≡ drains walk.old.state node (live_in life) }
    requires before { IsBefore (first_key app.0 node.0) walk.old }
    ensures value { result ≡ mark_at config.now walk.old.state app node (live_in life) }
    ensures state { walk.new.state ≡ walk.old.state }
    ensures before { IsBefore (first_key app.0 (node.0 + 1)) walk.new }
{
    match live_in(life) {
        Some(inc) => walk.mark(config, Key { app, node, inc }, drained),
        None => Mark::Down,
    }
}

/// The mark of each node of the configuration, by its number, given their lives and whether each is drained. The walk
/// advances to the next application.
fn marks_of(
    config: &Config,
    walk: &mut Walk<'_>,
    app: AppId,
    lives: &[Option<Life>; MAX_NODES],
    drained: &[bool; MAX_NODES],
) -> [Mark; MAX_NODES]
    requires app { app.0 < app_count config.now }
    requires lives { lives.now ≡ lives_of config.now walk.old.state }
    requires drained { drained.now ≡ drained_of config.now walk.old.state }
    requires before { IsBefore (first_key app.0 0) walk.old }
    ensures value { result ≡ marks_of config.now walk.old.state app }
    ensures state { walk.new.state ≡ walk.old.state }
    ensures before { IsBefore (first_key (app.0 + 1) 0) walk.new }
{
    let mut marks = [Mark::Down; MAX_NODES];
    for number in 0..config.nodes() {
        let place = number as usize;
        let node = NodeId(number);
        marks[place] = mark_by(config, walk, app, node, lives[place], drained[place]);
    }
    marks
}

/// The greatest claim of an application and the marks of the nodes, without its verdict, given the nodes' lives and
/// whether each is drained. The walk advances to the next application.
fn app_begun(
    config: &Config,
    walk: &mut Walk<'_>,
    app: AppId,
    lives: &[Option<Life>; MAX_NODES],
    drained: &[bool; MAX_NODES],
) -> AppSummary
    requires app { app.0 < app_count config.now }
    requires lives { lives.now ≡ lives_of config.now walk.old.state }
    requires drained { drained.now ≡ drained_of config.now walk.old.state }
    requires before { IsBefore (first_key app.0 0) walk.old }
    ensures value { result ≡ app_begun config.now walk.old.state app }
    ensures state { walk.new.state ≡ walk.old.state }
    ensures before { IsBefore (first_key (app.0 + 1) 0) walk.new }
{
    let marks = marks_of(config, walk, app, lives, drained);
    AppSummary {
        claim: walk.state().claims().greatest(app),
        verdict: Verdict::Nobody,
        marks,
    }
}

/// The value in the place of an application that the configuration lacks.
fn no_app() -> AppSummary
    ensures { result ≡ no_app }
{
    AppSummary {
        claim: None,
        verdict: Verdict::Nobody,
        marks: [Mark::Down; MAX_NODES],
    }
}

/// Each application of the configuration without its verdict, by its number, given the nodes' lives and whether each is
/// drained.
fn apps_begun(
    config: &Config,
    state: &State,
    lives: &[Option<Life>; MAX_NODES],
    drained: &[bool; MAX_NODES],
) -> [AppSummary; MAX_APPS]
    requires lives { lives.now ≡ lives_of config.now state.now }
    requires drained { drained.now ≡ drained_of config.now state.now }
    ensures { result ≡ apps_begun config.now state.now }
{
    let blank = no_app();
    let mut apps = [blank; MAX_APPS];
    let mut walk = Walk::of(state);
    for number in 0..config.apps() {
        apps[number as usize] = app_begun(config, &mut walk, AppId(number), lives, drained);
    }
    apps
}

/// The node at which each application runs, by the applications' numbers, given the nodes' lives and the applications
/// without their verdicts.
fn runners_of(
    config: &Config,
    state: &State,
    lives: &[Option<Life>; MAX_NODES],
    apps: &[AppSummary; MAX_APPS],
) -> [Option<NodeId>; MAX_APPS]
    requires lives { lives.now ≡ lives_of config.now state.now }
    requires apps { apps.now ≡ apps_begun config.now state.now }
    ensures { result ≡ runners_of config.now state.now }
{
    let mut runners = [None; MAX_APPS];
    for number in 0..config.apps() {
        let place = number as usize;
        let begun = &apps[place];
        runners[place] = runner_by(
            config,
            state,
            AppId(number),
            begun.claim,
            lives,
            &begun.marks,
        );
    }
    runners
}

/// The summary of each application of the configuration, by its number, given the nodes' lives and whether each is
/// drained. Runners are found before verdicts, because verdicts need loads.
fn apps_of(
    config: &Config,
    state: &State,
    lives: &[Option<Life>; MAX_NODES],
    drained: &[bool; MAX_NODES],
) -> [AppSummary; MAX_APPS]
    requires lives { lives.now ≡ lives_of config.now state.now }
    requires drained { drained.now ≡ drained_of config.now state.now }
    ensures { result ≡ app_summaries config.now state.now }
{
    let mut apps = apps_begun(config, state, lives, drained);
    let runners = runners_of(config, state, lives, &apps);
    for number in 0..config.apps() {
        let place = number as usize;
        let app = AppId(number);
        let begun = &apps[place];
        let verdict = verdict_seen(
            config,
            state,
            app,
            begun.claim,
            lives,
            &begun.marks,
            &runners,
        );
        apps[place].verdict = verdict;
    }
    apps
}
