//! Boards.
ghost use Rattle.std.specs.Prelude.{◌≡◌, ◌<◌, ◌≤◌, ◌+◌, ◌^◌, IfOk, IsTrue, ◌↔◌, Some, None, length};
ghost use Rattle.dac_base.specs.declared.AppId.{AppId as App};
ghost use Rattle.dac_base.specs.declared.NodeId.{NodeId as Named};
ghost use Rattle.dac_config.specs.Table.{Table, app_count, group_of};
ghost use Rattle.dac_meaning.specs.StateValue.{StateValue, join};
ghost use Rattle.dac_placement.specs.Placement.{verdict_of, load_of, standing_of};
ghost use Rattle.dac_board.specs.Boards.{Shows};
ghost use Rattle.dac_board.specs.Boards.{is_lost_at};
ghost use Rattle.dac_board.specs.Rows.{row_verdict};
ghost use Rattle.dac_board.specs.Touched.{touched, is_touched, IsTouched};

use crate::facts::{Rows, Spots};
use crate::moving::{Grown, moved_by, moves_nodes, nodes_moved};
use crate::row::Row;
use dac_base::{AppId, NoMemory, NodeId};
use dac_config::Config;
use dac_lattice::Lattice;
use dac_placement::{Standing, State, Verdict, first_choice_by, load_by, verdict_on};
use std::alloc::Global;
use std::marker::Model;

/// The verdicts and loads of a state, maintained while the state grows.
///
/// A board stores which nodes are eligible for each application and its standing at its holder. When the state merges a
/// delta, the board re-evaluates only the pairs of an application and a node that the delta touches. Contracts say
/// which states a board shows under a configuration; for these it returns the verdicts and the loads.
#[derive(Drop)]
pub struct Board {
    rows: Vec<Row>,
    looked: u64,
}

impl Model for Board {
    ghost use Rattle.std.specs.Prelude.{◌<◌, ◌^◌, length};
    ghost use Rattle.dac_board.specs.Boards.{BoardValue};

    ghost Value = { BoardValue };

    ghost view = { λ a. record { rows = a.rows.items; looked = a.looked } };

    ghost invariant = { λ a. length a.rows.items < 2 ^ 16 };
}

impl Board {
    /// The board of a state.
    pub fn new(alloc: Global, config: &Config, state: &State) -> Result<Self, NoMemory>
        ensures { IfOk result (λ board. Shows config.now board state.now) }
    {
        let mut looked = 0;
        let mut rows = Vec::new(alloc);
        for number in 0..config.apps() {
            let row = Row::new(alloc, config, state, AppId(number), &mut looked)?;
            rows.push(row)?;
        }
        Ok(Board { rows, looked })
    }

    /// The verdict of an application in the state shown.
    pub fn verdict(&self, app: AppId) -> Verdict
        ensures value { (table : Table) (s : StateValue) → Shows table self.now s
            → app.0 < app_count table → result ≡ verdict_of table s app }
    {
        row_verdict(&self.rows, app)
    }

    /// How many other applications run at a node in the state shown.
    pub fn load(&self, app: AppId, node: NodeId) -> u32
        ensures { (table : Table) (s : StateValue) → Shows table self.now s
            → result ≡ load_of table s app node }
    {
        load_by(&Rows { rows: &self.rows }, app, node)
    }

    /// Whether an application's holder is lost in the state shown.
    pub fn is_lost(&self, app: AppId) -> bool
        ensures { (table : Table) (s : StateValue) → Shows table self.now s → app.0 < app_count table
            → result ≡ is_lost_at (standing_of table s app) }
    {
        match self.rows.get(app.0 as usize) {
            Some(row) => is_lost_at(row.standing()),
            None => false,
        }
    }

    /// How many times a pair of an application and a node was evaluated since the board was made; the count saturates
    /// at the greatest number.
    pub fn looked(&self) -> u64
        ensures { result ≡ self.now.looked }
    {
        self.looked
    }

    /// Updates the board, which shows `old`, after `old` was joined with `delta`, which gave `new`. If `old` is below
    /// `new`, `new` itself can be passed for `delta`. It walks once through both states' standing operations, and
    /// evaluates each touched pair of an application and a node once.
    pub fn absorb(&mut self, config: &Config, old: &State, new: &State, delta: &State)
        ensures shows { Shows config.now self.old old.now → new.now ≡ join old.now delta.now
            → Shows config.now self.new new.now }
        // Whatever the new state is, the board shows it.
        ensures all { Shows config.now self.old old.now → Shows config.now self.new new.now }
        ensures few { self.new.looked ≤ self.old.looked + touched config.now old.now new.now }
        ensures rises { self.old.looked ≤ self.new.looked }
        // the definition of the pairs that are counted
        ensures pairs { (app : App) (node : Named)
            → IsTrue (is_touched config.now old.now new.now app node)
            ↔ IsTouched config.now old.now new.now app node }
        ensures outside { (app : App) (node : Named) → group_of config.now app node ≡ None
            → IsTrue (is_touched config.now old.now new.now app node) → ⊥ }
    {
        let moved = moved_by(old, new);
        let is_still = !moves_nodes(old, new);
        let nodes = nodes_moved(old, new, is_still, config.nodes() as usize);
        let is_claimed_alike = old.claims().equal(new.claims());
        let _delta = delta;
        let mut looked = self.looked;
        let places = self.rows.len().min(config.apps() as usize);
        for place in 0..places {
            let change = Grown {
                old,
                new,
                nodes: &nodes,
                pairs: moved[place],
                is_still,
                is_claimed_alike,
            };
            let row = &mut self.rows[place];
            row.absorb(config, &change, AppId(place as u16), &mut looked);
        }
        self.looked = looked;
    }

    /// An equal board that shares nothing with this one.
    pub fn copy(&self) -> Result<Self, NoMemory>
        ensures { IfOk result (λ copied. copied ≡ self.now) }
    {
        let mut rows = Vec::new(*self.rows.allocator());
        for row in &self.rows {
            rows.push(row.copy()?)?;
        }
        Ok(Board {
            rows,
            looked: self.looked,
        })
    }
}

/// The verdict of an application, by its row and those of the others. Loads are computed only if two eligible nodes
/// share the first group and the verdict depends on which one is first.
fn row_verdict(rows: &[Row], app: AppId) -> Verdict
    requires { length rows.now < 2 ^ 16 }
    ensures { result ≡ row_verdict rows.now app }
{
    match rows.get(app.0 as usize) {
        Some(row) => match row.settled() {
            Some(verdict) => verdict,
            None => {
                let candidates = Spots { spots: row.spots() };
                let first = first_choice_by(&Rows { rows }, &candidates, app);
                verdict_on(row.standing(), row.group(), first)
            }
        },
        None => Verdict::Nobody,
    }
}

/// Whether this is the standing of an application whose holder isn't live.
fn is_lost_at(standing: Standing) -> bool
    ensures { result ≡ is_lost_at standing }
{
    match standing {
        Standing::Lost => true,
        _ => false,
    }
}
