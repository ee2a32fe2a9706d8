//! The board of a running controller.

ghost use Rattle.std.specs.Prelude.{◌≡◌, IfOk, IfSome, true, false};
ghost use Rattle.std.specs.Arc.{arc_value};
ghost use Rattle.std.specs.Option.{option_copied};
ghost use Rattle.dac_model_node.specs.dac_ticks.KeptBoards.{IsBoardOf};

use dac_base::NoMemory;
use dac_config::Config;
use dac_model_node::dac_ticks::KeptBoard;
use dac_state::State;
use std::alloc::Global;
use std::marker::Model;
use std::sync::Arc;

/// The board of a running controller, and the state that it shows: the controller's present state, or an earlier one.
/// In that case the next tick updates the board.
pub(crate) struct Shown {
    board: KeptBoard,
    state: Arc<State, Global>,
    is_fresh: bool,
}

impl Drop for Shown {
    fn drop(self) {
        let Shown {
            board: _board,
            state: _state,
            is_fresh: _is_fresh,
        } = self;
    }
}

impl Model for Shown {
    ghost use Rattle.std.specs.Prelude.{Bool};
    ghost use Rattle.std.specs.Arc.{arc_value};
    ghost use Rattle.dac_meaning.specs.StateValue.{StateValue};
    ghost use Rattle.dac_model_node.specs.dac_ticks.KeptBoards.{IsBoardOf};

    // the state that the board shows, and whether it is the controller's
    ghost Value = { StateValue × Bool };

    ghost use Rattle.std.specs.Coded.{coded×, coded_bool};
    ghost use Rattle.dac_meaning.specs.StateValue.{coded_state};

    ghost coded = { coded× coded_state coded_bool };

    ghost view = { λ a. (arc_value a.state, a.is_fresh) };

    ghost invariant = { λ a. IsBoardOf a.board (arc_value a.state) };
}

impl Shown {
    pub(crate) fn new(
        alloc: Global,
        config: &Config,
        state: &Arc<State, Global>,
    ) -> Result<Self, NoMemory>
        ensures { IfOk result (λ shown. shown ≡ (arc_value state.now, true)) }
    {
        let board = KeptBoard::new(alloc, config, state)?;
        let shown = Arc::try_clone(state)?;
        Ok(Shown {
            board,
            state: shown,
            is_fresh: true,
        })
    }

    /// Copies the board; the state is shared.
    pub(crate) fn copy(&self) -> Result<Self, NoMemory>
        ensures { IfOk result (λ copied. copied ≡ self.now) }
    {
        let board = self.board.copy()?;
        let state = Arc::try_clone(&self.state)?;
        Ok(Shown {
            board,
            state,
            is_fresh: self.is_fresh,
        })
    }

    /// Marks the board as out of date, because the state has changed.
    pub(crate) fn goes_stale(&mut self)
        ensures { self.new ≡ (self.old.0, false) }
    {
        self.is_fresh = false;
    }

    /// Updates the board to show this state.
    pub(crate) fn catch_up(&mut self, state: &Arc<State, Global>) -> Result<(), NoMemory>
        requires { self.old.1 ≡ true → self.old.0 ≡ arc_value state.now }
        ensures { self.new.1 ≡ true → self.new.0 ≡ arc_value state.now }
    {
        if self.is_fresh {
            return Ok(());
        }
        let now = Arc::try_clone(state)?;
        self.board.absorb(&self.state, &now);
        self.state = now;
        self.is_fresh = true;
        Ok(())
    }

    /// The board, if it is up to date.
    pub(crate) fn board(&self) -> Option<&KeptBoard>
        ensures { IfSome (option_copied result)
            (λ board. (self.now.1 ≡ true) × IsBoardOf board self.now.0) }
    {
        if self.is_fresh {
            Some(&self.board)
        } else {
            None
        }
    }
}
