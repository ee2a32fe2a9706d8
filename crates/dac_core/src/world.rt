//! The world of all controllers.

ghost use Rattle.std.specs.Prelude.{◌≡◌, ◌<◌, IfOk, OnErr, length};

use crate::cluster::Cluster;
use dac_base::{NoMemory, NodeId};
use dac_config::Config;
use dac_events::{WorldEvent, WorldFault};
use dac_messages::{Message, Reply};
use dac_node::Node;
use dac_settle::dac_model_world::laws;
use dac_settle::laws::rounds_settle;
use dac_state::Op;
use std::alloc::Global;
use std::marker::Model;

/// All controllers of a configuration, every operation that they issued and every message that they
/// shipped. A message can be delivered late, twice, after its sender's crash or never.
///
/// States and messages mean operations that were issued, no two of which have the same dot. Therefore a controller
/// compares an incoming message with its state by heard dots alone.
pub struct World {
    cluster: Cluster,
}

/// Written out so that proofs see each drop as one call.
impl Drop for World {
    fn drop(self) {
        let World { cluster: _cluster } = self;
    }
}

impl Model for World {
    ghost use Rattle.dac_settle.specs.dac_model_world.WorldValue.{WorldValue};
    ghost use Rattle.dac_settle.specs.dac_model_world.Made.{IsMade};

    ghost Value = { WorldValue };

    ghost use Rattle.dac_operations.specs.contracts.op.Op as operation;
    ghost use Rattle.dac_messages.specs.contracts.message.Message as message;
    ghost use Rattle.dac_settle.specs.dac_model_world.WorldValue.{coded_world};

    ghost coded = { coded_world operation.the_row.coded message.the_row.coded };

    ghost view = { λ a. a.cluster };

    ghost invariant = { λ a. IsMade a.cluster };
}

impl World {
    ghost use Rattle.std.specs.Prelude.{Some, slice_get};
    ghost use Rattle.dac_config.specs.Table.{node_count};
    ghost use Rattle.dac_settle.specs.dac_model_world.ModelWorld.{Shows, start, Follows, RanAs, happens};
    ghost use Rattle.dac_settle.specs.dac_model_world.Converges.{Converges};
    ghost use Rattle.dac_settle.specs.WorldRounds.{Settles};
    ghost use Rattle.dac_settle.specs.dac_model_world.AtNode.{HearsIn};
    ghost use Rattle.dac_core.specs.Passing.{Passes};

    /// All controllers of the configuration, off and never booted.
    pub fn new(alloc: Global, config: &Config) -> Result<Self, NoMemory>
        ensures { IfOk result (Shows config.now (start config.now)) }
    {
        let cluster = Cluster::new(alloc, config)?;
        Ok(World { cluster })
    }

    /// A whole run: these events in sequence in a new world, with the result of each. An event whose result is
    /// `NoMemory` changes nothing. The run itself fails with `NoMemory` if the world or the list of results can't be
    /// allocated, before any event; no clause covers that.
    pub fn run(
        alloc: Global,
        config: &Config,
        events: &[WorldEvent],
    ) -> Result<(World, Vec<Result<Reply, WorldFault>>), NoMemory>
        ensures run { IfOk result (λ both. RanAs config.now events.now both.1.items both.0) }
        ensures answers { IfOk result (λ both. length both.1.items ≡ length events.now) }
        ensures count { IfOk result (λ both. length both.0.nodes ≡ node_count config.now) }
        // Convergence. Each running controller's state is the meaning of the issued operations whose dots it has heard.
        // Therefore controllers that heard the same set hold equal states and bytes, and name the same holder and the same
        // next candidate. The record also covers operations, messages, results, causality and histories.
        ensures converges { IfOk result
            (λ both. Converges config.now events.now both.1.items both.0) }
        // Settling. If the events end in as many rounds as there are applications, begun in a ready world, then no running
        // controller has anything left to do about any application.
        ensures settles { IfOk result (λ both. Settles config.now events.now both.1.items both.0) }
    {
        let mut world = World::new(alloc, config)?;
        let mut answers = Vec::with_capacity(alloc, events.len())?;
        for event in events {
            let answer = world.step(config, event);
            let _ = answers.push(answer);
        }
        // The laws hold of every run, so they hold of this one.
        laws::runs_converge();
        rounds_settle();
        Ok((world, answers))
    }

    /// One event of the world. A fault changes nothing.
    pub fn step(&mut self, config: &Config, event: &WorldEvent) -> Result<Reply, WorldFault>
        ensures follows { Follows config.now self.old (λ w. happens config.now w event.now) result
            self.new }
        // The node's heard dots grow by exactly those that its event brings, and no other node changes.
        ensures heard { IfOk result (λ reply. HearsIn self.old event.now reply self.new) }
        ensures unchanged { OnErr result (self.new ≡ self.old) }
        ensures count { length self.new.nodes ≡ length self.old.nodes }
    {
        self.cluster.step(config, event)
    }

    /// One event of the world as in [`World::step`], without the reply, so that operations and messages are moved rather
    /// than copied.
    pub fn pass(&mut self, config: &Config, event: &WorldEvent) -> Result<(), WorldFault>
        ensures passes { Passes config.now self.old event.now result self.new }
        ensures unchanged { OnErr result (self.new ≡ self.old) }
        ensures count { length self.new.nodes ≡ length self.old.nodes }
    {
        self.cluster.pass(config, event)
    }

    /// The controller of a node.
    pub fn node(&self, node: NodeId) -> &Node
        requires { node.0 < length self.now.nodes }
        ensures { slice_get self.now.nodes node.0 ≡ Some result.now }
    {
        &self.cluster.nodes[node.0 as usize]
    }

    /// All issued operations, in the order of issue.
    pub fn operations(&self) -> &[Op]
        ensures { result.now ≡ self.now.operations }
    {
        self.cluster.operations.as_slice()
    }

    /// All shipped messages, in the order of shipping.
    pub fn messages(&self) -> &[Message]
        ensures { result.now ≡ self.now.messages }
    {
        self.cluster.messages.as_slice()
    }
}
