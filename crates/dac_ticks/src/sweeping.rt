//! The sweep of a tick.
ghost use Rattle.std.specs.Prelude.{◌≡◌, ◌∷◌, [], ◌+◌, ◌≤◌, ◌<◌, List, IfOk, IfSome, false};
ghost use Rattle.std.specs.Option.{option_copied};
ghost use Rattle.dac_base.specs.declared.limits.TheConstants.{MAX_COUNTER};
ghost use Rattle.dac_config.specs.Table.{Table, app_count};
ghost use Rattle.dac_meaning.specs.StateValue.{StateValue as Value, join};
ghost use Rattle.dac_meaning.specs.Meaning.{meaning_of};
ghost use Rattle.dac_placement.specs.Placement.{apps_of, verdict_of};
ghost use Rattle.dac_board.specs.Boards.{Shows};
ghost use Rattle.dac_decide.specs.FailoverWait.{Note, waits_of};
ghost use Rattle.dac_commands.specs.Commands.{KnowsOwnBoot, greatest_counter, next_operation};
ghost use Rattle.dac_commands.specs.Causes.{terms_used_up, used_up};
ghost use Rattle.dac_ticks.specs.KeptBoards.{IsBoardOf};
ghost use Rattle.dac_ticks.specs.Ticks.{claimed_by, held_by, is_mine_by, sweep_of};
ghost use Rattle.dac_ticks.specs.SweepSoFar.{added, found_of, so_far, IsSparing, IsMade};
ghost use Rattle.dac_ticks.specs.InWords.{IsSweep};

use crate::kept::KeptBoard;
use dac_base::{AppId, NoMemory, NodeId};
use dac_board::Board;
use dac_chains::How;
use dac_commands::{claim, terms_used_up};
use dac_config::Config;
use dac_decide::Waits;
use dac_lattice::Lattice;
use dac_messages::{AppList, OpList};
use dac_operations::Op;
use dac_origins::Origin;
use dac_placement::{State, Verdict, eligible, holder, verdict};
use std::alloc::Global;

/// A sweep: a node's pass over all its applications at one tick, with its result.
#[derive(Drop)]
pub struct Sweep {
    /// The claims to issue, in the order of the applications' numbers.
    pub ops: OpList,
    /// The applications that the node should claim, but whose terms are used up, in the order of their numbers.
    pub passed: AppList,
    /// The state after the claims, if there are any.
    pub left: Option<State>,
}

/// An unfinished sweep.
#[derive(Drop)]
pub(crate) struct SweepSoFar {
    /// The claims so far.
    pub ops: Vec<Op>,
    /// The applications passed over so far.
    pub passed: Vec<AppId>,
    /// The state after the claims, if there are any.
    pub left: Option<State>,
}

/// The decision about one application in a sweep.
#[derive(Drop)]
pub(crate) enum Found {
    /// The application isn't the node's to claim, or not yet.
    Left,
    /// The application is passed over, because its terms are used up.
    Passed,
    /// The application is claimed by this operation, which leaves this state.
    Claimed(Op, State),
}

/// The sweep of a tick at the incarnation `own` with this state, at the moment `now` in milliseconds.
///
/// The applications are taken in the order of the configuration file, each in the state that the earlier claims left.
/// An application whose verdict names the controller's node, and is due, is claimed under its next term and the
/// incarnation's next counter. A failover or takeover names the node that held the application. An application whose
/// terms are used up is passed over. `first`, a board of the state, supplies the verdicts until the first claim. (After
/// OTP's Design Principles, chapter Distributed Applications: applications are started, restarted and moved as nodes
/// come and go. That a controller does so at its ticks, and how it claims them, is this project's own.)
pub fn sweep_of(
    alloc: Global,
    config: &Config,
    own: Origin,
    state: &State,
    first: Option<&Board>,
    waits: &Waits,
    now: u64,
) -> Result<Sweep, NoMemory>
    requires knows { KnowsOwnBoot own state.now }
    // a counter for each application
    requires room { greatest_counter own state.now.known + app_count config.now ≤ MAX_COUNTER }
    requires shows { IfSome (option_copied first) (λ b. Shows config.now b state.now) }
    ensures value { IfOk result
        (IsMade state.now (sweep_of config.now own waits.now now state.now)) }
    ensures words { IfOk result (λ sweep. (notes : List Note) → waits.now ≡ waits_of config.now notes
        → IsSweep config.now own notes now state.now (apps_of config.now) sweep.ops sweep.passed) }
{
    let mut progress = SweepSoFar {
        ops: Vec::new(alloc),
        passed: Vec::new(alloc),
        left: None,
    };
    for number in 0..config.apps() {
        let app = AppId(number);
        let board = progress.board(first);
        let state = progress.state(state);
        let found = found_of(alloc, config, own, state, board, waits, app, now)?;
        progress.add(app, found)?;
    }
    let SweepSoFar { ops, passed, left } = progress;
    Ok(Sweep {
        ops: OpList::new(ops),
        passed: AppList::new(passed),
        left,
    })
}

impl SweepSoFar {
    /// The state after the claims so far, in a tick that began in `first`.
    fn state<'a>(&'a self, first: &'a State) -> &'a State
        ensures { result.now ≡ (so_far first.now self.now).state }
    {
        match &self.left {
            Some(left) => left,
            None => first,
        }
    }

    /// The board of the state after the claims so far: that of the tick's first state if there is no claim, otherwise
    /// none.
    fn board<'a>(&self, first: Option<&'a Board>) -> Option<&'a Board>
        ensures { (t : Table) (s : Value) → IfSome (option_copied first.entry) (λ b. Shows t b s)
            → IfSome (option_copied result) (λ b. Shows t b (so_far s self.now).state) }
    {
        if self.left.is_some() {
            return None;
        }
        first
    }

    /// Adds the decision about an application.
    fn add(&mut self, app: AppId, found: Found) -> Result<(), NoMemory>
        ensures added { IfOk result (λ _. (first : Value)
            → so_far first self.new ≡ added (so_far first self.old) app found) }
        ensures sparing { IfOk result (λ _. IsSparing self.old → IsSparing self.new) }
    {
        match found {
            Found::Left => {}
            Found::Passed => self.passed.push(app)?,
            Found::Claimed(op, after) => {
                self.ops.push(op)?;
                self.left = Some(after);
            }
        }
        Ok(())
    }
}

/// The maintained board, if it shows the same states under this configuration.
pub fn board_under<'a>(kept: Option<&'a KeptBoard>, config: &Config) -> Option<&'a Board>
    ensures { (s : Value) → IfSome (option_copied kept.entry) (λ k. IsBoardOf k s)
        → IfSome (option_copied result) (λ b. Shows config.now b s) }
{
    match kept {
        Some(kept) => kept.under(config),
        None => None,
    }
}

/// The decision about an application: claim it or pass it over if it is this node's to claim, and otherwise leave it.
fn found_of(
    alloc: Global,
    config: &Config,
    own: Origin,
    state: &State,
    board: Option<&Board>,
    waits: &Waits,
    app: AppId,
    now: u64,
) -> Result<Found, NoMemory>
    requires listed { app.0 < app_count config.now }
    requires knows { KnowsOwnBoot own state.now }
    requires left { used_up state.now own ≡ false }
    requires shows { IfSome (option_copied board) (λ b. Shows config.now b state.now) }
    ensures { IfOk result (λ found. found ≡ found_of config.now own waits.now now state.now app) }
{
    // a verdict names only eligible nodes, so that none is needed if this node isn't
    if board.is_none() && !eligible(config, state, app, own.node) {
        return Ok(Found::Left);
    }
    let verdict = verdict_of(config, state, board, app);
    if !is_mine(config, own, state, waits, app, verdict, now) {
        return Ok(Found::Left);
    }
    if terms_used_up(state, app) {
        return Ok(Found::Passed);
    }
    let op = claim_by(own, state, app, verdict);
    let after = join_operation(alloc, state, &op)?;
    Ok(Found::Claimed(op, after))
}

/// The verdict on an application, from the board if there is one.
fn verdict_of(config: &Config, state: &State, board: Option<&Board>, app: AppId) -> Verdict
    requires listed { app.0 < app_count config.now }
    requires shows { IfSome (option_copied board) (λ b. Shows config.now b state.now) }
    ensures { result ≡ verdict_of config.now state.now app }
{
    match board {
        Some(board) => board.verdict(app),
        None => verdict(config, state, app),
    }
}

/// Whether this verdict on an application names the incarnation's node, and is due.
fn is_mine(
    config: &Config,
    own: Origin,
    state: &State,
    waits: &Waits,
    app: AppId,
    verdict: Verdict,
    now: u64,
) -> bool
    requires { app.0 < app_count config.now }
    ensures { result ≡ is_mine_by config.now own waits.now now state.now app verdict }
{
    match verdict.candidate() {
        Some(node) if node == own.node => waits.due_by(config, state, app, verdict, now),
        _ => false,
    }
}

/// The claim of an application by this verdict.
fn claim_by(own: Origin, state: &State, app: AppId, verdict: Verdict) -> Op
    requires knows { KnowsOwnBoot own state.now }
    requires left { used_up state.now own ≡ false }
    requires term { terms_used_up state.now app ≡ false }
    ensures { result ≡ next_operation state.now own (claimed_by state.now app verdict) }
{
    match verdict {
        Verdict::Failover(_) => {
            let from = held_by(state, app);
            claim(own, state, app, How::Failover, from)
        }
        Verdict::Takeover(_) => {
            let from = held_by(state, app);
            claim(own, state, app, How::Takeover, from)
        }
        _ => claim(own, state, app, How::Normal, None),
    }
}

/// The node of an application's greatest claim.
fn held_by(state: &State, app: AppId) -> Option<NodeId>
    ensures { result ≡ held_by state.now app }
{
    let origin = holder(state, app)?;
    Some(origin.node)
}

/// The state after an operation is merged.
fn join_operation(alloc: Global, state: &State, op: &Op) -> Result<State, NoMemory>
    ensures { IfOk result (λ after. after ≡ join state.now (meaning_of (op.now ∷ []))) }
{
    let delta = State::delta_of(alloc, op)?;
    state.join(&delta)
}
