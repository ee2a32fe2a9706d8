//! All controllers of a configuration, with the operations that they issued and the messages that they shipped.

ghost use Rattle.std.specs.Prelude.{◌≡◌, ◌<◌, ◌≤◌, ◌+◌, ◌++◌, [], true, IfOk, IfErr, OnOk, OnErr, Ok, List, length, vec_len, vec_capacity};
ghost use Rattle.dac_operations.specs.Operations.{Operation};
ghost use Rattle.std.specs.Option.{option_copied};
ghost use Rattle.dac_settle.specs.dac_model_world.ModelWorld.{counted, event_of, issued_by, shipped_by};
ghost use Rattle.dac_settle.specs.dac_model_world.WorldChanges.{NodeChanges};
ghost use Rattle.dac_node.specs.Changes.{changed};
ghost use Rattle.dac_core.specs.ByItself.{IsByItself};
ghost use Rattle.dac_core.specs.Ready.{IsReadyAt};

use dac_base::{NoMemory, NodeId};
use dac_config::Config;
use dac_events::{What, WorldEvent, WorldFault};
use dac_messages::{Event, Message, Reply};
use dac_node::{Change, Node, Refusal};
use dac_settle::dac_model_world::laws;
use dac_state::Op;
use std::alloc::Global;
use std::marker::Model;

/// All controllers of a configuration, every operation that they issued and every message that they shipped, without the
/// invariant of a [`World`](crate::World), so that a step can go through states between two events.
pub struct Cluster {
    pub(crate) nodes: Vec<Node>,
    pub(crate) operations: Vec<Op>,
    pub(crate) messages: Vec<Message>,
}

/// Written out so that proofs see each drop as one call.
impl Drop for Cluster {
    fn drop(self) {
        let Cluster {
            nodes: _nodes,
            operations: _operations,
            messages: _messages,
        } = self;
    }
}

impl Model for Cluster {
    ghost use Rattle.dac_settle.specs.dac_model_world.WorldValue.{WorldValue};

    ghost Value = { WorldValue };

    ghost use Rattle.dac_operations.specs.contracts.op.Op as operation;
    ghost use Rattle.dac_messages.specs.contracts.message.Message as message;
    ghost use Rattle.dac_settle.specs.dac_model_world.WorldValue.{coded_world};

    ghost coded = { coded_world operation.the_row.coded message.the_row.coded };

    ghost view = { λ a. record {
      nodes = a.nodes.items;
      operations = a.operations.items;
      messages = a.messages.items;
    } };
}

impl Cluster {
    ghost use Rattle.std.specs.Prelude.{◌≡◌, ◌<◌, IfOk, IfErr, OnErr, Some, Ok, Err, length};
    ghost use Rattle.dac_settle.specs.dac_model_world.ModelWorld.{Shows, start, Follows, happens, event_of, heard_by, handed_by, counted, out_of_memory};
    ghost use Rattle.dac_settle.specs.dac_model_world.Made.{IsMade};
    ghost use Rattle.dac_settle.specs.dac_model_world.AtNode.{HearsIn, HappensAt};
    ghost use Rattle.dac_settle.specs.dac_model_world.WorldChanges.{Goes};
    ghost use Rattle.dac_core.specs.Ready.{IsPreparedAt};
    ghost use Rattle.dac_core.specs.Passing.{Passes};

    /// All controllers of the configuration, off and never booted.
    pub(crate) fn new(alloc: Global, config: &Config) -> Result<Self, NoMemory>
        ensures { IfOk result (Shows config.now (start config.now)) }
    {
        let mut nodes = Vec::new(alloc);
        for _node in 0..config.nodes() {
            nodes.push(Node::off(alloc, 0))?;
        }
        Ok(Cluster {
            nodes,
            operations: Vec::new(alloc),
            messages: Vec::new(alloc),
        })
    }

    /// One event of the world. A fault changes nothing. States and messages still mean issued operations afterwards.
    pub(crate) fn step(&mut self, config: &Config, event: &WorldEvent) -> Result<Reply, WorldFault>
        requires { IsMade self.old }
        ensures made { IsMade self.new }
        ensures follows { Follows config.now self.old (λ w. happens config.now w event.now) result
            self.new }
        ensures heard { IfOk result (λ reply. HearsIn self.old event.now reply self.new) }
        ensures unchanged { OnErr result (self.new ≡ self.old) }
        ensures count { length self.new.nodes ≡ length self.old.nodes }
    {
        if event.node.0 as usize >= self.nodes.len() {
            return Err(WorldFault::NoSuchNode);
        }
        match self.prepare_at(config, event.node, event.what) {
            Ok(change) => self.go_on(event.node, change),
            Err(fault) => Err(fault),
        }
    }

    /// One event of the world as in [`Cluster::step`], without the reply, so that operations and messages are moved rather
    /// than copied.
    pub(crate) fn pass(&mut self, config: &Config, event: &WorldEvent) -> Result<(), WorldFault>
        requires { IsMade self.old }
        ensures made { IsMade self.new }
        ensures passes { Passes config.now self.old event.now result self.new }
        ensures unchanged { OnErr result (self.new ≡ self.old) }
        ensures count { length self.new.nodes ≡ length self.old.nodes }
    {
        if event.node.0 as usize >= self.nodes.len() {
            return Err(WorldFault::NoSuchNode);
        }
        match self.prepare_at(config, event.node, event.what) {
            Ok(change) => self.pass_on(event.node, change),
            Err(fault) => Err(fault),
        }
    }

    /// Prepares an event's change at its node, without applying it.
    fn prepare_at(
        &mut self,
        config: &Config,
        node: NodeId,
        what: What,
    ) -> Result<Change, WorldFault>
        requires inside { node.0 < length self.old.nodes }
        requires made { IsMade self.old }
        ensures prepared { IfOk result (IsPreparedAt config.now self.old.nodes node
            (event_of self.old.operations self.old.messages what)) }
        ensures fault { IfErr result (λ fault. HappensAt config.now self.old node
            (event_of self.old.operations self.old.messages what) (Err fault) self.old) }
        ensures unchanged { self.new ≡ self.old }
    {
        match what {
            What::Deliver(number) => self.deliver(config, node, number),
            What::Hand(number) => self.hand(config, node, number),
            _ => self.happen_by_itself(config, node, &event_by_itself(what)),
        }
    }

    /// Prepares an event that needs no message or operation of the world, after the node has filled its caches for it.
    #[inline(always)]
    fn happen_by_itself(
        &mut self,
        config: &Config,
        node: NodeId,
        event: &Event,
    ) -> Result<Change, WorldFault>
        requires { node.0 < length self.old.nodes }
        ensures prepared { IfOk result
            (IsPreparedAt config.now self.old.nodes node (Ok event.now)) }
        ensures fault { IfErr result
            (λ fault. HappensAt config.now self.old node (Ok event.now) (Err fault) self.old) }
        ensures unchanged { self.new ≡ self.old }
    {
        self.warm(node, event);
        self.happen(config, node, event)
    }

    /// Fills the caches of a node that the event uses.
    fn warm(&mut self, node: NodeId, event: &Event)
        requires { node.0 < length self.old.nodes }
        ensures { self.new ≡ self.old }
    {
        self.nodes[node.0 as usize].warm(event);
    }

    /// Prepares an event of a node.
    fn happen(&self, config: &Config, node: NodeId, event: &Event) -> Result<Change, WorldFault>
        requires { node.0 < length self.now.nodes }
        ensures prepared { IfOk result
            (IsPreparedAt config.now self.now.nodes node (Ok event.now)) }
        ensures fault { IfErr result
            (λ fault. HappensAt config.now self.now node (Ok event.now) (Err fault) self.now) }
    {
        match self.nodes[node.0 as usize].prepare(config, node, event) {
            Ok(change) => Ok(change),
            Err(why) => Err(WorldFault::Refused(why)),
        }
    }

    /// Prepares the delivery of the message of this number to a node.
    fn deliver(&self, config: &Config, node: NodeId, number: u64) -> Result<Change, WorldFault>
        requires inside { node.0 < length self.now.nodes }
        requires made { IsMade self.now }
        ensures prepared { IfOk result (IsPreparedAt config.now self.now.nodes node
            (heard_by (counted self.now.messages number))) }
        ensures fault { IfErr result (λ fault. HappensAt config.now self.now node
            (heard_by (counted self.now.messages number)) (Err fault) self.now) }
    {
        laws::heard_dots_are_order();
        let Some(message) = item_of(self.messages.as_slice(), number) else {
            return Err(WorldFault::NoSuchMessage);
        };
        match self.nodes[node.0 as usize].prepare_hear_by_dots(config, message) {
            Ok(change) => Ok(change),
            Err(why) => Err(WorldFault::Refused(why)),
        }
    }

    /// Prepares the delivery of the operation of this number to a node, without a message.
    fn hand(&self, config: &Config, node: NodeId, number: u64) -> Result<Change, WorldFault>
        requires inside { node.0 < length self.now.nodes }
        requires made { IsMade self.now }
        ensures prepared { IfOk result (IsPreparedAt config.now self.now.nodes node
            (handed_by (counted self.now.operations number))) }
        ensures fault { IfErr result (λ fault. HappensAt config.now self.now node
            (handed_by (counted self.now.operations number)) (Err fault) self.now) }
    {
        laws::heard_dots_are_order();
        let Some(operation) = item_of(self.operations.as_slice(), number) else {
            return Err(WorldFault::NoSuchOperation);
        };
        match self.nodes[node.0 as usize].prepare_hear_op_by_dot(operation) {
            Ok(change) => Ok(change),
            Err(why) => Err(WorldFault::Refused(why)),
        }
    }

    /// Applies a prepared change and returns its reply. A crash never fails, because it allocates nothing.
    fn go_on(&mut self, node: NodeId, mut change: Change) -> Result<Reply, WorldFault>
        requires inside { node.0 < length self.old.nodes }
        requires ready { IsReadyAt self.old.nodes node change }
        ensures ok { IfOk result
            (λ reply. Goes self.old node (λ v. changed v change) change.reply reply self.new) }
        ensures err { IfErr result (λ fault. Err fault ≡ out_of_memory) }
        ensures crash { IfErr result (λ _. change.reply ≡ Reply.Crashed → ⊥) }
        ensures unchanged { OnErr result (self.new ≡ self.old) }
    {
        match self.change(node, &mut change) {
            Ok(()) => Ok(change.into_reply()),
            Err(NoMemory) => Err(WorldFault::Refused(Refusal::NoMemory)),
        }
    }

    /// Applies a prepared change, and leaves the reply in it. All allocations precede the first effect.
    fn change(&mut self, node: NodeId, change: &mut Change) -> Result<(), NoMemory>
        requires inside { node.0 < length self.old.nodes }
        requires ready { IsReadyAt self.old.nodes node change.old }
        ensures ok { OnOk result (Goes self.old node (λ v. changed v change.old) change.old.reply
            change.new.reply self.new) }
        ensures crash { IfErr result (λ _. change.old.reply ≡ Reply.Crashed → ⊥) }
        ensures unchanged { OnErr result (self.new ≡ self.old) }
    {
        if notes_nothing(change) {
            return change_node(&mut self.nodes, node, change);
        }
        make_room(&mut self.operations, &mut self.messages, change)?;
        let noted = change.copy_reply()?;
        change_node(&mut self.nodes, node, change)?;
        note(&mut self.operations, &mut self.messages, noted);
        Ok(())
    }

    /// Applies a prepared change like [`Cluster::go_on`], without the reply.
    fn pass_on(&mut self, node: NodeId, change: Change) -> Result<(), WorldFault>
        requires inside { node.0 < length self.old.nodes }
        requires ready { IsReadyAt self.old.nodes node change }
        ensures ok { OnOk result
            (Goes self.old node (λ v. changed v change) change.reply change.reply self.new) }
        ensures err { IfErr result (λ fault. fault ≡ WorldFault.Refused Refusal.NoMemory) }
        ensures crash { IfErr result (λ _. change.reply ≡ Reply.Crashed → ⊥) }
        ensures unchanged { OnErr result (self.new ≡ self.old) }
    {
        match self.change_by(node, change) {
            Ok(()) => Ok(()),
            Err(NoMemory) => Err(WorldFault::Refused(Refusal::NoMemory)),
        }
    }

    /// Applies a prepared change like [`Cluster::change`], and moves the operations and messages of its reply.
    fn change_by(&mut self, node: NodeId, mut change: Change) -> Result<(), NoMemory>
        requires inside { node.0 < length self.old.nodes }
        requires ready { IsReadyAt self.old.nodes node change }
        ensures ok { OnOk result
            (Goes self.old node (λ v. changed v change) change.reply change.reply self.new) }
        ensures crash { IfErr result (λ _. change.reply ≡ Reply.Crashed → ⊥) }
        ensures unchanged { OnErr result (self.new ≡ self.old) }
    {
        if notes_nothing(&change) {
            return change_node(&mut self.nodes, node, &mut change);
        }
        make_room(&mut self.operations, &mut self.messages, &change)?;
        change_node(&mut self.nodes, node, &mut change)?;
        note(
            &mut self.operations,
            &mut self.messages,
            change.into_reply(),
        );
        Ok(())
    }
}

/// The item of this number, counted from 1.
fn item_of<T>(items: &[T], number: u64) -> Option<&T>
    ensures { option_copied result ≡ counted items.now number }
{
    if number == 0 || number > items.len() as u64 {
        return None;
    }
    Some(&items[number as usize - 1])
}

/// The node's event, if it needs no message or operation of the world.
fn event_by_itself(what: What) -> Event
    requires { IsByItself what }
    ensures { (operations : List Operation) (messages : List Message)
        → event_of operations messages what ≡ Ok result }
{
    match what {
        What::Boot { now } => Event::Boot { now },
        What::Crash => Event::Crash,
        What::Command(command) => Event::Command(command),
        What::Tick { now } => Event::Tick { now },
        What::Ship { to } => Event::Ship { to },
        What::Deliver(_) | What::Hand(_) => unreachable!(),
    }
}

/// Whether a prepared change issues and ships nothing, as a crash or an incoming message.
fn notes_nothing(change: &Change) -> bool
    ensures issues { result ≡ true → issued_by change.now.reply ≡ [] }
    ensures ships { result ≡ true → shipped_by change.now.reply ≡ [] }
    ensures crash { change.now.reply ≡ Reply.Crashed → result ≡ true }
{
    match change.reply() {
        None => true,
        Some(reply) => matches!(reply, Reply::Crashed | Reply::Heard(_)),
    }
}

/// Applies a prepared change to its node, and leaves the reply in it.
fn change_node(nodes: &mut Vec<Node>, node: NodeId, change: &mut Change) -> Result<(), NoMemory>
    requires inside { node.0 < length nodes.old.items }
    requires ready { IsReadyAt nodes.old.items node change.old }
    ensures reply { change.new.reply ≡ change.old.reply }
    ensures nodes { OnOk result
        (NodeChanges nodes.old.items node (λ v. changed v change.old) nodes.new.items) }
    ensures crash { IfErr result (λ _. change.old.reply ≡ Reply.Crashed → ⊥) }
    ensures unchanged { OnErr result (nodes.new.items ≡ nodes.old.items) }
{
    nodes[node.0 as usize].perform(change)
}

/// The number of operations that a change issues.
fn issued_count(change: &Change) -> usize
    ensures { result ≡ length (issued_by change.now.reply) }
{
    match change.reply() {
        Some(Reply::Booted(_) | Reply::Issued(_)) => 1,
        Some(Reply::Ticked { ops, passed: _ }) => ops.as_slice().len(),
        _ => 0,
    }
}

/// Reserves room for the operations and the message of a change.
#[inline(always)]
fn make_room(
    operations: &mut Vec<Op>,
    messages: &mut Vec<Message>,
    change: &Change,
) -> Result<(), NoMemory>
    ensures operations { operations.new.items ≡ operations.old.items }
    ensures messages { messages.new.items ≡ messages.old.items }
    ensures operations_room { OnOk result
        (vec_len operations.new + length (issued_by change.now.reply)
        ≤ vec_capacity operations.new) }
    ensures messages_room { OnOk result (vec_len messages.new < vec_capacity messages.new) }
{
    operations.reserve(issued_count(change))?;
    messages.reserve(1)?;
    Ok(())
}

/// Appends the operations and the message of a reply to the lists, which have room for them.
#[inline(always)]
fn note(operations: &mut Vec<Op>, messages: &mut Vec<Message>, reply: Reply)
    requires operations_room { vec_len operations.old + length (issued_by reply)
        ≤ vec_capacity operations.old }
    requires messages_room { vec_len messages.old < vec_capacity messages.old }
    ensures operations { operations.new.items ≡ operations.old.items ++ issued_by reply }
    ensures messages { messages.new.items ≡ messages.old.items ++ shipped_by reply }
{
    match reply {
        Reply::Booted(operation) => {
            let _ = operations.push(operation);
        }
        Reply::Issued(operation) => {
            let _ = operations.push(operation);
        }
        Reply::Ticked { ops, passed: _ } => {
            let mut claims = ops.into_vec();
            let _ = operations.append(&mut claims);
        }
        Reply::Shipped(message) => {
            let _ = messages.push(message);
        }
        _ => {}
    }
}
