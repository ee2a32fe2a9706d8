//! Failover timers.
ghost use Rattle.std.specs.Prelude.{◌≡◌, ◌↔◌, ◌<◌, ◌∷◌, [], List, length, IsTrue, IfOk};
ghost use Rattle.dac_config.specs.Table.{app_count};
ghost use Rattle.dac_placement.specs.StateValue.{StateValue};
ghost use Rattle.dac_board.specs.Boards.{Shows};
ghost use Rattle.dac_decide.specs.Quiet.{AreQuiet};
ghost use Rattle.dac_decide.specs.FailoverWait.{Note, waits_of, IsDue, is_due, is_due_with, is_due_by, noted_at};
ghost use Rattle.dac_decide.specs.FailoverWait.{lost_in, noted_next, since_of, is_held_at, is_over_at, is_wait_over};

use dac_base::{AppId, NoMemory, NodeId};
use dac_board::Board;
use dac_chains::Claim;
use dac_config::Config;
use dac_placement::{State, Verdict, holder, is_up, verdict};
use std::alloc::Global;
use std::marker::Model;

/// A failover timer: a claim that was found lost, and since when.
#[derive(Clone, Copy, Debug, PartialEq, Eq)]
pub(crate) struct Noted {
    /// The lost claim.
    pub claim: Claim,
    /// The moment, in milliseconds, of the first of the consecutive notes that found it lost.
    pub since: u64,
}

impl Noted {
    ghost use Rattle.std.specs.Prelude.{◌+◌, nat_le};
    ghost use Rattle.dac_decide.specs.FailoverWait.{is_same};

    /// Whether the timer is for this claim.
    fn is_of(self, claim: Claim) -> bool
        ensures { result ≡ is_same self.claim claim }
    {
        self.claim == claim
    }

    /// Whether `wait` milliseconds have passed since the timer started.
    fn has_waited(self, wait: u64, now: u64) -> bool
        ensures { result ≡ nat_le (self.since + wait) now }
    {
        now >= self.since && now - self.since >= wait
    }
}

/// Failover timers: since when each application's claim has been lost, as noted at this controller's ticks.
///
/// A claim is lost if it is its application's greatest and the incarnation that made it isn't live. A controller notes
/// lost claims at each tick. Contracts see, for each application of the configuration in order, the lost claim that the
/// last note found, if any, with the moment of the first of the consecutive notes that found it.
pub struct Waits {
    noted: Vec<Option<Noted>>,
}

/// Written out so that a drop is one call in every proof.
impl Drop for Waits {
    fn drop(self) {
        let Waits { noted: _noted } = self;
    }
}

impl Model for Waits {
    ghost use Rattle.std.specs.Prelude.{List, Option};
    ghost use Rattle.std.specs.Coded.{coded_list, coded_option};
    ghost use Rattle.dac_decide.specs.FailoverWait.{coded_noted};
    ghost use Rattle.dac_decide.specs.declared.waits.Noted.{Noted};

    ghost Value = { List (Option Noted) };

    ghost coded = { coded_list (coded_option coded_noted) };

    ghost view = { λ w. w.noted.items };
}

impl Waits {
    /// Waits before any note.
    pub fn new(alloc: Global, config: &Config) -> Result<Self, NoMemory>
        ensures { IfOk result (λ waits. waits ≡ waits_of config.now []) }
    {
        let mut noted = Vec::new(alloc);
        for _ in 0..config.apps() {
            noted.push(None)?;
        }
        Ok(Waits { noted })
    }

    /// Notes which claims are lost at the moment `now`, in milliseconds. The number of applications stays that of the
    /// configuration for which the waits were made.
    pub fn note(&mut self, config: &Config, state: &State, now: u64)
        ensures value { (notes : List Note) → self.old ≡ waits_of config.now notes
            → self.new ≡ waits_of config.now (record { state = state.now; moment = now } ∷ notes) }
        ensures number { length self.new ≡ length self.old }
    {
        let places = self.noted.len().min(config.apps() as usize);
        for place in 0..places {
            let lost = lost_claim(state, AppId(place as u16));
            self.noted[place] = noted_next(self.noted[place], lost, now);
        }
    }

    /// Whether no timer runs and no claim is lost in the board's state, so that a note of this state changes nothing.
    pub fn are_quiet(&self, config: &Config, board: &Board) -> bool
        ensures cases { (s : StateValue) → Shows config.now board.now s
            → IsTrue result ↔ AreQuiet config.now self.now s }
        ensures stays { (notes : List Note) (note : Note) → self.now ≡ waits_of config.now notes
            → Shows config.now board.now note.state → IsTrue result
            → self.now ≡ waits_of config.now (note ∷ notes) }
    {
        for number in 0..config.apps() {
            let app = AppId(number);
            if self.noted_of(app).is_some() || board.is_lost(app) {
                return false;
            }
        }
        true
    }

    /// Whether an application's verdict must be carried out at the moment `now`, in milliseconds. After OTP's kernel
    /// manual, parameter `distributed`, a failover waits for the application's timeout, unless the lost node is back
    /// and would run the application again. Starts, moves and takeovers don't wait.
    pub fn due(&self, config: &Config, state: &State, app: AppId, now: u64) -> bool
        requires { app.0 < app_count config.now }
        ensures kept { result ≡ is_due_with config.now (noted_at self.now app) state.now app now }
        ensures value { (notes : List Note) → self.now ≡ waits_of config.now notes
            → result ≡ is_due config.now notes state.now app now }
        ensures cases { (notes : List Note) → self.now ≡ waits_of config.now notes
            → IsTrue result ↔ IsDue config.now notes state.now app now }
    {
        let verdict = verdict(config, state, app);
        self.due_by(config, state, app, verdict, now)
    }

    /// [`Waits::due`] for a caller that has computed the application's verdict.
    pub fn due_by(
        &self,
        config: &Config,
        state: &State,
        app: AppId,
        verdict: Verdict,
        now: u64,
    ) -> bool
        requires { app.0 < app_count config.now }
        ensures { result ≡ is_due_by config.now (noted_at self.now app) state.now app now verdict }
    {
        match verdict {
            Verdict::Start(_) | Verdict::Move(_) | Verdict::Takeover(_) => true,
            Verdict::Failover(node) => {
                let noted = self.noted_of(app);
                let held = is_held_at(state, app, node);
                let over = is_wait_over(config, state, app, noted, now);
                held || over
            }
            Verdict::Halted(_) | Verdict::Kept(_) | Verdict::Nobody => false,
        }
    }

    /// The timer of an application, if it has one.
    fn noted_of(&self, app: AppId) -> Option<Noted>
        ensures { result ≡ noted_at self.now app }
    {
        match self.noted.get(app.0 as usize) {
            Some(noted) => *noted,
            None => None,
        }
    }

    /// Equal waits that share nothing with these.
    pub fn copy(&self) -> Result<Self, NoMemory>
        ensures { IfOk result (λ copied. copied ≡ self.now) }
    {
        Ok(Waits {
            noted: self.noted.clone()?,
        })
    }
}

/// The lost claim of an application, if its greatest claim is lost.
fn lost_claim(state: &State, app: AppId) -> Option<Claim>
    ensures { result ≡ lost_in state.now app }
{
    let claim = state.claims().greatest(app)?;
    if is_up(state, claim.origin) {
        None
    } else {
        Some(claim)
    }
}

/// The timer of an application, given the one before and the lost claim, if any.
fn noted_next(before: Option<Noted>, lost: Option<Claim>, now: u64) -> Option<Noted>
    ensures { result ≡ noted_next before lost now }
{
    match lost {
        Some(claim) => Some(since_of(before, now, claim)),
        None => None,
    }
}

/// The timer of a lost claim, given the application's timer before.
fn since_of(before: Option<Noted>, now: u64, claim: Claim) -> Noted
    ensures { result ≡ since_of before now claim }
{
    match before {
        Some(noted) if noted.is_of(claim) => noted,
        _ => Noted { claim, since: now },
    }
}

/// Whether the application's greatest claim was made by this node.
fn is_held_at(state: &State, app: AppId, node: NodeId) -> bool
    ensures { result ≡ is_held_at state.now app node }
{
    match holder(state, app) {
        Some(origin) => origin.node == node,
        None => false,
    }
}

/// Whether the timer is for the application's lost claim, and the timeout has passed.
fn is_wait_over(config: &Config, state: &State, app: AppId, noted: Option<Noted>, now: u64) -> bool
    requires { app.0 < app_count config.now }
    ensures { result ≡ is_wait_over config.now state.now app noted now }
{
    let wait = u64::from(config.timeout(app));
    is_over_at(wait, now, lost_claim(state, app), noted)
}

/// Whether the timer is for this lost claim, and `wait` milliseconds have passed.
fn is_over_at(wait: u64, now: u64, lost: Option<Claim>, noted: Option<Noted>) -> bool
    ensures { result ≡ is_over_at wait now lost noted }
{
    match (lost, noted) {
        (Some(claim), Some(noted)) => noted.is_of(claim) && noted.has_waited(wait, now),
        _ => false,
    }
}
