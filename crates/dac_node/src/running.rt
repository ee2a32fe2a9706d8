//! A running controller.

ghost use Rattle.std.specs.Prelude.{◌≡◌, ◌≤◌, IfOk, IfSome};
ghost use Rattle.std.specs.Option.{option_copied};
ghost use Rattle.dac_model_node.specs.dac_ticks.KeptBoards.{IsBoardOf};
ghost use Rattle.dac_base.specs.declared.limits.TheConstants.{MAX_COUNTER as LAST_NUMBER};
ghost use Rattle.dac_meaning.specs.StateValue.{IsState};
ghost use Rattle.dac_model_node.specs.Step.{up};

use crate::shown::Shown;
use dac_base::NoMemory;
use dac_config::Config;
use dac_decide::{Moments, Waits};
use dac_deltas::Buffer;
use dac_lattice::{Bottom, Lattice};
use dac_model_node::dac_ticks::KeptBoard;
use dac_origins::{Dot, Origin};
use dac_peers::Peers;
use dac_state::{Act, Op, State};
use std::alloc::Global;
use std::marker::Model;
use std::sync::Arc;

/// A running controller, the newest deltas of its state, and a board, which contracts don't see. Its state knows the
/// operation of its own boot, and its last tick isn't before its boot.
pub(crate) struct Running {
    pub(crate) alloc: Global,
    pub(crate) origin: Origin,
    pub(crate) moments: Moments,
    pub(crate) is_open: bool,
    pub(crate) waits: Waits,
    /// Shared with the board, copies of the node, and shipped messages.
    pub(crate) state: Arc<State, Global>,
    pub(crate) peers: Peers,
    pub(crate) buffer: Buffer<State>,
    pub(crate) shown: Shown,
}

impl Drop for Running {
    fn drop(self) {
        let Running {
            alloc: _alloc,
            origin: _origin,
            moments: _moments,
            is_open: _is_open,
            waits: _waits,
            state: _state,
            peers: _peers,
            buffer: _buffer,
            shown: _shown,
        } = self;
    }
}

impl Model for Running {
    ghost use Rattle.std.specs.Prelude.{◌≡◌, true};
    ghost use Rattle.std.specs.Arc.{arc_value};
    ghost use Rattle.dac_model_node.specs.NodeValue.{RunningValue, IsSound, coded_running};

    ghost Value = { RunningValue };

    ghost coded = { coded_running };

    ghost view = { λ a. record {
      origin = a.origin;
      moments = a.moments;
      is_open = a.is_open;
      waits = a.waits;
      state = arc_value a.state;
      kept = a.buffer;
      peers = a.peers;
    } };

    ghost invariant = { λ a. IsSound a.origin a.moments (arc_value a.state)
        × (a.shown.1 ≡ true → a.shown.0 ≡ arc_value a.state) };
}

impl Running {
    ghost use Rattle.dac_model_node.specs.Accepted.{booted, AreNewest};
    ghost use Rattle.dac_model_node.specs.NodeValue.{IsSound};

    /// Shows the invariant to proofs: the state knows the boot and is well formed, and the deltas kept are the newest of
    /// at most 2^62. Does nothing at run time.
    pub(crate) fn tells_invariant(&self)
        ensures sound { IsSound self.now.origin self.now.moments self.now.state }
        ensures newest { AreNewest self.now.kept }
        ensures countable { self.now.kept.count ≤ LAST_NUMBER }
        ensures state { IsState self.now.state }
    {
        self.buffer.tells_invariant();
        let state: &State = &self.state;
        state.tells_invariant();
    }

    pub(crate) fn origin(&self) -> Origin
        ensures { result ≡ self.now.origin }
    {
        self.origin
    }

    pub(crate) fn state(&self) -> &State
        ensures { result.now ≡ self.now.state }
    {
        &self.state
    }

    /// Copies the controller; the state is shared.
    pub(crate) fn copy(&self) -> Result<Self, NoMemory>
        ensures { IfOk result (λ copied. copied ≡ self.now) }
    {
        let waits = self.waits.copy()?;
        let state = Arc::try_clone(&self.state)?;
        let peers = self.peers.copy()?;
        let buffer = self.buffer.copy()?;
        let shown = self.shown.copy()?;
        Ok(Running {
            alloc: self.alloc,
            origin: self.origin,
            moments: self.moments,
            is_open: self.is_open,
            waits,
            state,
            peers,
            buffer,
            shown,
        })
    }

    /// A controller that boots as this incarnation at this moment, and the operation of the boot.
    pub(crate) fn new(
        alloc: Global,
        config: &Config,
        origin: Origin,
        now: u64,
    ) -> Result<(Self, Op), NoMemory>
        ensures running { IfOk result (λ both. both.0 ≡ booted config.now origin now) }
        ensures operation { IfOk result (λ both. both.1 ≡ up origin) }
    {
        let operation = up_of(origin);
        let delta = State::delta_of(alloc, &operation)?;
        let joined = State::bottom(alloc).join(&delta)?;
        let state = Arc::new(alloc, joined)?;
        let mut buffer = Buffer::new(alloc);
        buffer.push(delta)?;
        let waits = Waits::new(alloc, config)?;
        let shown = Shown::new(alloc, config, &state)?;
        let running = Running {
            alloc,
            origin,
            moments: Moments {
                booted: now,
                last: now,
            },
            is_open: false,
            waits,
            state,
            peers: Peers::new(alloc),
            buffer,
            shown,
        };
        Ok((running, operation))
    }

    /// Updates the board for the deltas since its last use. If that fails, the board isn't used.
    pub(crate) fn catch_up(&mut self)
        ensures { self.new ≡ self.old }
    {
        let _caught_up = self.shown.catch_up(&self.state);
    }

    /// The board, if it shows the present state.
    pub(crate) fn board(&self) -> Option<&KeptBoard>
        ensures { IfSome (option_copied result) (λ board. IsBoardOf board self.now.state) }
    {
        self.shown.board()
    }
}

/// The operation of a boot.
fn up_of(origin: Origin) -> Op
    ensures { result ≡ up origin }
{
    Op::new(Dot { origin, n: 1 }, Act::Up).unwrap()
}
