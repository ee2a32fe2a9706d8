//! What an accepted tick changes at a running controller.

ghost use Rattle.std.specs.Prelude.{◌≡◌, ◌≤◌, ◌∷◌, ℕ, List, IsTrue, IfOk, IfSome, OnOk, OnErr, None, false, unwrap_or};
ghost use Rattle.std.specs.Option.{option_copied};
ghost use Rattle.dac_messages.specs.declared.event.Event.TheVariants.{Tick};
ghost use Rattle.dac_decide.specs.FailoverWait.{Note, waits_of};
ghost use Rattle.dac_model_node.specs.dac_ticks.Boards.{Shows};
ghost use Rattle.dac_model_node.specs.dac_ticks.Ticks.{sweep_of};
ghost use Rattle.dac_model_node.specs.dac_ticks.SweepSoFar.{IsMade};
ghost use Rattle.dac_model_node.specs.EventRefusals.{refusal_to_tick, too_few_left};
ghost use Rattle.dac_model_node.specs.Transitions.{meanings, opening_at};
ghost use Rattle.dac_node.specs.After.{ticked, FitsIn};
ghost use Rattle.dac_node.specs.Changes.{Effect};

use crate::change::{After, Change};
use crate::running::Running;
use dac_base::NoMemory;
use dac_config::Config;
use dac_decide::{Board, Opening, Waits, gate};
use dac_messages::Reply;
use dac_model_node::dac_ticks::{Sweep, board_under, sweep_of};
use dac_state::{Op, State};
use std::alloc::Global;
use std::sync::Arc;

/// What an accepted tick changes at a running controller. Waits and state are given only if they change.
#[derive(Drop)]
pub(crate) struct TickChange {
    pub(crate) now: u64,
    pub(crate) is_open: bool,
    pub(crate) waits: Option<Waits>,
    /// The state after the tick's claims.
    pub(crate) state: Option<State>,
    /// The deltas of the tick's claims.
    pub(crate) deltas: Vec<State>,
}

/// The effect of an accepted tick at a running controller.
pub(crate) fn tick(
    config: &Config,
    last: u64,
    running: &Running,
    now: u64,
) -> Result<Change, NoMemory>
    requires { refusal_to_tick config.now running.now now ≡ None }
    ensures { IfOk result (Effect config.now last running.now (Tick now)) }
{
    match running.opening(config, now) {
        Opening::Shut => {
            let ticks = TickChange {
                now,
                is_open: false,
                waits: None,
                state: None,
                deltas: Vec::new(running.alloc),
            };
            let change = Change::new(running.alloc, last, After::Ticks(ticks), Reply::Held)?;
            Ok(change)
        }
        Opening::GiveUp => Change::new(running.alloc, last, After::Off, Reply::GaveUp),
        Opening::Opened => open_tick(config, last, running, now),
    }
}

/// The effect of an accepted tick that finds the start gate open.
fn open_tick(config: &Config, last: u64, running: &Running, now: u64) -> Result<Change, NoMemory>
    requires accepted { refusal_to_tick config.now running.now now ≡ None }
    requires open { opening_at config.now running.now now ≡ Opening.Opened }
    ensures { IfOk result (Effect config.now last running.now (Tick now)) }
{
    let board = board_under(running.board(), config);
    let waits = running.noted_waits(config, board, now)?;
    let noted = match &waits {
        Some(waits) => waits,
        None => &running.waits,
    };
    let sweep = running.sweep(config, board, noted, now)?;
    let Sweep { ops, passed, left } = sweep;
    let deltas = deltas_of(running.alloc, ops.as_slice())?;
    let ticks = TickChange {
        now,
        is_open: true,
        waits,
        state: left,
        deltas,
    };
    let reply = Reply::Ticked { ops, passed };
    let change = Change::new(running.alloc, last, After::Ticks(ticks), reply)?;
    Ok(change)
}

fn deltas_of(alloc: Global, operations: &[Op]) -> Result<Vec<State>, NoMemory>
    ensures { IfOk result (λ deltas. deltas.items ≡ meanings operations.now) }
{
    let mut deltas = Vec::new(alloc);
    for operation in operations {
        deltas.push(State::delta_of(alloc, operation)?)?;
    }
    Ok(deltas)
}

impl Running {
    /// The start gate at this moment. It stays open after it opens.
    fn opening(&self, config: &Config, now: u64) -> Opening
        requires { self.now.moments.last ≤ now }
        ensures { result ≡ opening_at config.now self.now now }
    {
        self.tells_invariant();
        if self.is_open {
            return Opening::Opened;
        }
        gate(config, &self.state, self.moments.booted, now)
    }

    /// The waits after a note at this moment, unless the board shows that the note changes nothing.
    fn noted_waits(
        &self,
        config: &Config,
        board: Option<&Board>,
        now: u64,
    ) -> Result<Option<Waits>, NoMemory>
        requires { IfSome (option_copied board) (λ b. Shows config.now b self.now.state) }
        ensures { IfOk result (λ noted. (notes : List Note)
            → self.now.waits ≡ waits_of config.now notes
            → unwrap_or noted self.now.waits
            ≡ waits_of config.now (record { state = self.now.state; moment = now } ∷ notes)) }
    {
        if self.are_quiet(config, board) {
            return Ok(None);
        }
        let mut waits = self.waits.copy()?;
        waits.note(config, &self.state, now);
        Ok(Some(waits))
    }

    /// Returns whether the board shows that a note changes nothing.
    fn are_quiet(&self, config: &Config, board: Option<&Board>) -> bool
        requires { IfSome (option_copied board) (λ b. Shows config.now b self.now.state) }
        ensures { IsTrue result → (notes : List Note) (moment : ℕ)
            → self.now.waits ≡ waits_of config.now notes
            → self.now.waits
            ≡ waits_of config.now (record { state = self.now.state; moment = moment } ∷ notes) }
    {
        match board {
            Some(board) => self.waits.are_quiet(config, board),
            None => false,
        }
    }

    /// The claims of a tick at this moment, with these waits.
    fn sweep(
        &self,
        config: &Config,
        board: Option<&Board>,
        waits: &Waits,
        now: u64,
    ) -> Result<Sweep, NoMemory>
        requires room { too_few_left config.now self.now.state self.now.origin ≡ false }
        requires shows { IfSome (option_copied board) (λ b. Shows config.now b self.now.state) }
        ensures { IfOk result (IsMade self.now.state
            (sweep_of config.now self.now.origin waits.now now self.now.state)) }
    {
        sweep_of(
            self.alloc,
            config,
            self.origin,
            &self.state,
            board,
            waits,
            now,
        )
    }

    /// Applies the effect of a tick. If an allocation fails, nothing changes.
    pub(crate) fn tick(&mut self, ticks: TickChange) -> Result<(), NoMemory>
        requires { FitsIn (Some self.old) (After.Ticks ticks) }
        ensures ok { OnOk result (self.new ≡ ticked ticks self.old) }
        ensures err { OnErr result (self.new ≡ self.old) }
    {
        let TickChange {
            now,
            is_open,
            waits,
            state,
            deltas,
        } = ticks;
        if let Some(state) = state {
            let state = Arc::new(self.alloc, state)?;
            self.buffer.push_all(deltas)?;
            self.state = state;
            self.shown.goes_stale();
        }
        if let Some(waits) = waits {
            self.waits = waits;
        }
        self.moments.last = now;
        self.is_open = is_open;
        Ok(())
    }
}
