//! A board that is maintained from tick to tick.
ghost use Rattle.std.specs.Prelude.{◌≡◌, ◌<◌, ◌↔◌, IsTrue, IsSome, IfOk, IfSome, true};
ghost use Rattle.std.specs.Option.{option_copied};
ghost use Rattle.dac_config.specs.Table.{app_count};
ghost use Rattle.dac_meaning.specs.StateValue.{StateValue as Value};
ghost use Rattle.dac_board.specs.Boards.{Shows};
ghost use Rattle.dac_ticks.specs.KeptBoards.{IsBoardOf, AreAlike, AreAlikeFor, GoesFor};

use dac_base::{AppId, NoMemory, NodeId};
use dac_board::Board;
use dac_config::Config;
use dac_placement::State;
use std::alloc::Global;
use std::marker::Model;

/// A board, and the configuration under which it shows a state.
///
/// A controller that keeps one passes the board to its ticks, if it also shows the state under the tick's
/// configuration.
pub struct KeptBoard {
    config: Config,
    board: Board,
}

/// Written out so that a drop is one call in every proof.
impl Drop for KeptBoard {
    fn drop(self) {
        let KeptBoard {
            config: _config,
            board: _board,
        } = self;
    }
}

impl Model for KeptBoard {
    ghost use Rattle.dac_ticks.specs.KeptBoards.{KeptBoardValue};

    ghost Value = { KeptBoardValue };

    ghost view = { λ a. record { config = a.config; board = a.board } };
}

impl KeptBoard {
    /// The board of a state.
    pub fn new(alloc: Global, config: &Config, state: &State) -> Result<Self, NoMemory>
        ensures { IfOk result (λ kept. IsBoardOf kept state.now) }
    {
        let board = Board::new(alloc, config, state)?;
        let config = config.copy()?;
        Ok(KeptBoard { config, board })
    }

    /// Updates the board after the state that it shows grew from `old` to `new`.
    pub fn absorb(&mut self, old: &State, new: &State)
        ensures { IsBoardOf self.old old.now → IsBoardOf self.new new.now }
    {
        let KeptBoard { config, board } = self;
        board.absorb(config, old, new, new);
    }

    /// An equal board that shares nothing with this one.
    pub fn copy(&self) -> Result<Self, NoMemory>
        ensures { IfOk result (λ copied. copied ≡ self.now) }
    {
        let config = self.config.copy()?;
        let board = self.board.copy()?;
        Ok(KeptBoard { config, board })
    }

    /// The board, if it shows the same states under this configuration.
    pub fn under(&self, config: &Config) -> Option<&Board>
        ensures shows { (s : Value) → IsBoardOf self.now s
            → IfSome (option_copied result) (λ board. Shows config.now board s) }
        ensures some { AreAlike self.now.config config.now → IsSome (option_copied result) }
    {
        if are_alike(&self.config, config) {
            Some(&self.board)
        } else {
            None
        }
    }
}

/// Whether boards under two configurations are the same: the same number of nodes and of applications, and for each
/// application the same groups and the same default permission.
fn are_alike(one: &Config, other: &Config) -> bool
    ensures alike { IsTrue result ↔ AreAlike one.now other.now }
    ensures goes { IsTrue result → GoesFor one.now other.now }
{
    if one.nodes() != other.nodes() {
        return false;
    }
    if one.apps() != other.apps() {
        return false;
    }
    for number in 0..one.apps() {
        if !are_alike_for(one, other, AppId(number)) {
            return false;
        }
    }
    true
}

/// Whether two configurations have the same group of each node and the same default permission for an application.
fn are_alike_for(one: &Config, other: &Config, app: AppId) -> bool
    requires one { app.0 < app_count one.now }
    requires other { app.0 < app_count other.now }
    ensures { IsTrue result ↔ AreAlikeFor one.now other.now app }
{
    // A running cluster's configuration is constant, so that one walk over its list mostly decides.
    if one.lists_alike(other, app) {
        return true;
    }
    if one.default_permission(app) != other.default_permission(app) {
        return false;
    }
    for number in 0..one.nodes() {
        let node = NodeId(number);
        if one.group_of(app, node) != other.group_of(app, node) {
            return false;
        }
    }
    true
}
