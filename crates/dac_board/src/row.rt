//! The row of one application on a board.
ghost use Rattle.std.specs.Prelude.{◌≡◌, ◌<◌, ◌≤◌, ◌+◌, ◌^◌, IfOk, length, true, false};
ghost use Rattle.dac_base.specs.declared.limits.TheConstants.{MAX_NODES as MOST_NODES};
ghost use Rattle.dac_config.specs.Table.{app_count};
ghost use Rattle.dac_placement.specs.Placement.{group_held, standing_of};
ghost use Rattle.dac_board.specs.Boards.{row_of, spots_of};
ghost use Rattle.dac_board.specs.Rows.{row_runs};
ghost use Rattle.dac_board.specs.Touched.{is_touched, touched_of};
ghost use Rattle.dac_board.specs.Settled.{IsSettled};
ghost use Rattle.dac_board.specs.Grown.{IsGrown};

use crate::facts::Spots;
use crate::moving::{Grown, is_claimed_anew, is_marked};
use crate::spot::{Spot, look};
use crate::touching::is_touched;
use dac_base::{AppId, NoMemory, NodeId};
use dac_config::Config;
use dac_placement::{Standing, State, Verdict, group_held, settled_verdict, standing_of};
use std::alloc::Global;
use std::marker::Model;

/// One application: its eligible nodes, node by node, its standing, and the holder's group if the holder is upheld.
#[derive(Drop)]
pub(crate) struct Row {
    spots: Vec<Option<Spot>>,
    standing: Standing,
    group: Option<u16>,
    /// The verdict if it doesn't depend on loads.
    settled: Option<Verdict>,
}

impl Model for Row {
    ghost use Rattle.dac_board.specs.Boards.{RowValue};

    ghost Value = { RowValue };

    ghost view = { λ a. record { spots = a.spots.items; standing = a.standing; group = a.group } };

    ghost use Rattle.std.specs.Prelude.{◌<◌, ◌^◌, length};
    ghost use Rattle.dac_board.specs.Settled.{IsSettled};

    ghost invariant = { λ a. IsSettled a.settled a.standing a.group a.spots.items
        × (length a.spots.items < 2 ^ 8) };
}

impl Row {
    /// The row of an application in a state.
    pub(crate) fn new(
        alloc: Global,
        config: &Config,
        state: &State,
        app: AppId,
        looked: &mut u64,
    ) -> Result<Self, NoMemory>
        requires { app.0 < app_count config.now }
        ensures { IfOk result (λ row. row ≡ row_of config.now state.now app) }
    {
        let mut spots = Vec::with_capacity(alloc, config.nodes() as usize)?;
        for number in 0..config.nodes() {
            let spot = look(config, state, app, NodeId(number), looked);
            spots.push(spot)?;
        }
        let standing = standing_of(config, state, app);
        let group = group_held(config, app, standing);
        let settled = settle(&spots, standing, group);
        Ok(Row {
            spots,
            standing,
            group,
            settled,
        })
    }

    /// Updates the row after a change of state. Nodes that the change doesn't touch aren't evaluated.
    pub(crate) fn absorb(
        &mut self,
        config: &Config,
        change: &Grown<'_>,
        app: AppId,
        looked: &mut u64,
    )
        requires { app.0 < app_count config.now }
        ensures shows { IsGrown change.entry.now app
            → self.old ≡ row_of config.now change.entry.now.old.now app
            → self.new ≡ row_of config.now change.entry.now.new.now app }
        ensures few { looked.new ≤ looked.old
            + touched_of config.now change.entry.now.old.now change.entry.now.new.now app }
        ensures rises { looked.old ≤ looked.new }
    {
        if change.pairs == 0 && change.is_still {
            if !change.is_claimed_alike && is_claimed_anew(change.old, change.new, app) {
                self.set_standing(config, change.new, app);
            }
            return;
        }
        look_again(&mut self.spots, config, change, app, looked);
        self.standing = standing_of(config, change.new, app);
        self.group = group_held(config, app, self.standing);
        self.settled = settle(&self.spots, self.standing, self.group);
    }

    /// Recomputes the standing, the holder's group and the settled verdict.
    fn set_standing(&mut self, config: &Config, state: &State, app: AppId)
        requires { app.0 < app_count config.now }
        ensures spots { self.new.spots ≡ self.old.spots }
        ensures standing { self.new.standing ≡ standing_of config.now state.now app }
        ensures group { self.new.group
            ≡ group_held config.now app (standing_of config.now state.now app) }
    {
        self.standing = standing_of(config, state, app);
        self.group = group_held(config, app, self.standing);
        self.settled = settle(&self.spots, self.standing, self.group);
    }

    /// The eligible nodes, node by node; `None` for any other.
    pub(crate) fn spots(&self) -> &[Option<Spot>]
        ensures spots { result.now ≡ self.now.spots }
        ensures few { length result.now < 2 ^ 8 }
    {
        self.spots.as_slice()
    }

    /// The verdict if it doesn't depend on loads.
    pub(crate) fn settled(&self) -> Option<Verdict>
        ensures { IsSettled result self.now.standing self.now.group self.now.spots }
    {
        self.settled
    }

    /// The application's standing at its holder.
    pub(crate) fn standing(&self) -> Standing
        ensures { result ≡ self.now.standing }
    {
        self.standing
    }

    /// The group of the holder if it is upheld.
    pub(crate) fn group(&self) -> Option<u16>
        ensures { result ≡ self.now.group }
    {
        self.group
    }

    /// Whether the application runs at a node.
    pub(crate) fn runs(&self, node: NodeId) -> bool
        ensures { result ≡ row_runs node self.now }
    {
        match self.standing {
            Standing::Upheld(holder) => holder == node && self.group.is_some(),
            _ => false,
        }
    }

    /// An equal row that shares nothing with this one.
    pub(crate) fn copy(&self) -> Result<Self, NoMemory>
        ensures { IfOk result (λ copied. copied ≡ self.now) }
    {
        Ok(Row {
            spots: self.spots.clone()?,
            standing: self.standing,
            group: self.group,
            settled: self.settled,
        })
    }
}

/// Re-evaluates the nodes that a change of state touches.
fn look_again(
    spots: &mut Vec<Option<Spot>>,
    config: &Config,
    change: &Grown<'_>,
    app: AppId,
    looked: &mut u64,
)
    requires { app.0 < app_count config.now }
    ensures long { length spots.new.items ≡ length spots.old.items }
    ensures shows { IsGrown change.entry.now app
        → spots.old.items ≡ spots_of config.now change.entry.now.old.now app
        → spots.new.items ≡ spots_of config.now change.entry.now.new.now app }
    ensures few { looked.new ≤ looked.old
        + touched_of config.now change.entry.now.old.now change.entry.now.new.now app }
    ensures rises { looked.old ≤ looked.new }
{
    let places = spots.len().min(config.nodes() as usize);
    for place in 0..places {
        let node = NodeId(place as u8);
        if is_touched_by(config, change, app, node) {
            spots[place] = look(config, change.new, app, node, looked);
        }
    }
}

/// Whether a change of state touches a node. A node that the change leaves unmarked isn't evaluated.
fn is_touched_by(config: &Config, change: &Grown<'_>, app: AppId, node: NodeId) -> bool
    requires listed { app.0 < app_count config.now }
    requires few { node.0 < MOST_NODES }
    ensures sound { result ≡ true
        → is_touched config.now change.entry.now.old.now change.entry.now.new.now app node ≡ true }
    ensures whole { IsGrown change.entry.now app → result ≡ false
        → is_touched config.now change.entry.now.old.now change.entry.now.new.now app node ≡ false }
{
    if !is_marked(change.pairs, node.0) && !change.nodes[node.0 as usize] {
        return false;
    }
    is_touched(config, change.old, change.new, app, node)
}

/// The verdict if it doesn't depend on loads.
fn settle(spots: &[Option<Spot>], standing: Standing, group: Option<u16>) -> Option<Verdict>
    requires { length spots.now < 2 ^ 8 }
    ensures { IsSettled result standing group spots.now }
{
    settled_verdict(&Spots { spots }, standing, group)
}
