//! One controller.

ghost use Rattle.std.specs.Prelude.{◌≡◌, IfOk, IfErr, IfSome, MatchResult, OnOk, OnErr, Some, None, unwrap_or};
ghost use Rattle.std.specs.Option.{option_copied, option_map};
ghost use Rattle.dac_config.specs.Table.{Table};
ghost use Rattle.dac_meaning.specs.StateValue.{StateValue, join};
ghost use Rattle.dac_messages.specs.Bodies.{content_of};
ghost use Rattle.dac_model_node.specs.EventRefusals.{refusal_off as refused_off};
ghost use Rattle.dac_model_node.specs.Transitions.{moment_of};

use crate::below::covers_by_dot;
use crate::change::{After, Change, Outcome};
use crate::running::Running;
use dac_base::{MAX_INCARNATION, NoMemory, NodeId};
use dac_config::Config;
use dac_events::Refusal;
use dac_lattice::Lattice;
use dac_messages::{Event, Message, Reply};
use dac_origins::Origin;
use dac_state::{Op, State};
use std::alloc::Global;
use std::marker::Model;
use std::mem::replace;

/// A controller, which is off or running. While it is off it keeps only the number of its last incarnation.
///
/// An incarnation number is never reused. After a reboot a controller has lost its state and takes the next number, so
/// no dot is issued twice. A running controller has its state, the moments of its boot and its last tick, whether its
/// start gate is open, how long each failover has waited, the newest deltas of its state, and its peer table.
pub struct Node {
    alloc: Global,
    last: u64,
    running: Option<Running>,
}

impl Drop for Node {
    fn drop(self) {
        let Node {
            alloc: _alloc,
            last: _last,
            running: _running,
        } = self;
    }
}

impl Model for Node {
    ghost use Rattle.dac_model_node.specs.NodeValue.{NodeValue, coded_node_value};

    ghost Value = { NodeValue };

    ghost coded = { coded_node_value };

    ghost view = { λ a. record { last = a.last; running = a.running } };
}

impl Node {
    ghost use Rattle.dac_model_node.specs.NodeValue.{off, origin_of, state_of};
    ghost use Rattle.dac_model_node.specs.EventRefusals.{refusal_of};
    ghost use Rattle.dac_model_node.specs.Step.{Steps, IsShown};
    ghost use Rattle.dac_model_node.specs.Writing.{Writes};
    ghost use Rattle.dac_model_node.specs.Keeping.{Keeps};
    ghost use Rattle.dac_model_node.specs.Effect.{HasEffect};
    ghost use Rattle.dac_model_node.specs.Shipping.{ShipsSo};
    ghost use Rattle.dac_node.specs.ByDots.{IsBelowByDots, IsBelowByDot};
    ghost use Rattle.dac_node.specs.Changes.{changed, Fits, Prepared};
    ghost use Rattle.dac_node.specs.After.{running_after, FitsIn};
    ghost use Rattle.dac_model_node.specs.Hearing.{HearsExactly};
    ghost use Rattle.dac_model_node.specs.Refused.{IsAnsweredBy, IsFree};

    /// A controller that is off and whose last incarnation had this number; 0 if it never booted.
    pub fn off(alloc: Global, last: u64) -> Self
        ensures value { result ≡ off last }
        // Under each configuration some model node shows as it, so the clauses about such nodes aren't vacuous.
        ensures shown { (t : Table) → IsShown t result }
    {
        Node {
            alloc,
            last,
            running: None,
        }
    }

    /// The state, if the controller runs.
    pub fn state(&self) -> Option<&State>
        ensures { option_copied result ≡ state_of self.now }
    {
        match &self.running {
            None => None,
            Some(running) => Some(running.state()),
        }
    }

    /// The present incarnation, if the controller runs: the origin of its operations.
    pub fn origin(&self) -> Option<Origin>
        ensures { result ≡ origin_of self.now }
    {
        match &self.running {
            None => None,
            Some(running) => Some(running.origin()),
        }
    }

    /// Returns an equal controller.
    pub fn copy(&self) -> Result<Self, NoMemory>
        ensures { IfOk result (λ copied. copied ≡ self.now) }
    {
        let running = match &self.running {
            None => None,
            Some(running) => {
                let running = running.copy()?;
                Some(running)
            }
        };
        Ok(Node {
            alloc: self.alloc,
            last: self.last,
            running,
        })
    }

    /// Handles one event. A controller that boots is node `self_id` until it is off again. Fails with the first cause
    /// that holds, and with `NoMemory` only if no other does. A crash allocates nothing, so a running controller can
    /// always go down.
    pub fn step(&mut self, config: &Config, self_id: NodeId, event: Event) -> Result<Reply, Refusal>
        ensures err { IfErr result
            (λ why. why ≡ unwrap_or (refusal_of config.now self.old event) Refusal.NoMemory) }
        // A refusal is the least cause that holds; no cause holds of an accepted event.
        ensures cases { MatchResult result (λ _. IsFree config.now self.old event)
            (IsAnsweredBy config.now self.old event) }
        ensures crash { IfErr result (λ why. event ≡ Event.Crash → why ≡ Refusal.Off) }
        ensures unchanged { OnErr result (self.new ≡ self.old) }
        ensures ok { IfOk result
            (λ reply. Steps config.now self_id self.old event self.new (Ok reply)) }
        // A refusal other than `NoMemory` is also a step of the model, which changes nothing.
        ensures refused { IfErr result (λ why. (why ≡ Refusal.NoMemory → ⊥)
            → Steps config.now self_id self.old event self.new (Err why)) }
        // A command issues its operation, with the next dot and at the key of the live incarnation, which replaces
        // exactly what stands there. A tick issues claims of exactly the applications that are due to this node. Except
        // for a boot, no other event issues anything. A message or operation is reported as new if and only if it isn't
        // below the state.
        ensures writes { IfOk result (λ reply. Writes config.now self_id self.old event reply) }
        // A ship sends the message that the delta log determines: the whole state if there is no position where an
        // interval can begin, and otherwise the deltas since that position, or nothing.
        ensures ships { IfOk result (λ reply. ShipsSo config.now self.old event reply) }
        // A boot starts the next incarnation. A running node keeps its incarnation, unless it goes off by a crash or a
        // start gate that gives up. Its start gate stays open after it opens, and each tick that finds it open adds a
        // note. State, deltas and peer table grow exactly by what the event brings.
        ensures keeps { IfOk result
            (λ reply. Keeps config.now self_id self.old event reply self.new) }
        // A command takes effect in the resulting state. An application claimed by a tick is kept at this node to the
        // end of the tick, and runs there. A claim's term is above that of each claim of its application that the node
        // has heard.
        ensures effect { IfOk result (λ reply. HasEffect config.now self.old event reply self.new) }
        // The node hears exactly the dots that the event brings.
        ensures heard { IfOk result (λ reply. HearsExactly self.old event reply self.new) }
        // If some model node shows as the old value, one shows as the new value.
        ensures shown { IsShown config.now self.old → IsShown config.now self.new }
    {
        self.warm(&event);
        let change = self.prepare(config, self_id, &event)?;
        let reply = self.apply(change)?;
        Ok(reply)
    }

    /// The refusal of an event, if it is refused.
    fn refusal(&self, config: &Config, event: &Event) -> Option<Refusal>
        ensures { result ≡ refusal_of config.now self.now event.now }
    {
        match &self.running {
            None => refusal_off(self.last, event),
            Some(running) => running.refusal(config, event),
        }
    }

    /// Prepares caches for an event, so that [`Node::prepare`] is faster. Contracts see no change, and a failed
    /// allocation is no error.
    pub fn warm(&mut self, event: &Event)
        ensures { self.new ≡ self.old }
    {
        if let Some(running) = &mut self.running {
            match event {
                Event::Ship { to } => running.warm(*to),
                Event::Tick { now: _ } => running.catch_up(),
                _ => {}
            }
        }
    }

    /// The effect of an event at node `self_id`, or its refusal. Nothing changes yet. A crash allocates nothing.
    pub fn prepare(
        &self,
        config: &Config,
        self_id: NodeId,
        event: &Event,
    ) -> Result<Change, Refusal>
        ensures ok { IfOk result (λ change. Prepared config.now self_id self.now event.now change) }
        ensures fits { IfOk result (λ change. Fits self.now change) }
        ensures err { IfErr result
            (λ why. why ≡ unwrap_or (refusal_of config.now self.now event.now) Refusal.NoMemory) }
        ensures crash { IfErr result (λ why. event.now ≡ Event.Crash → why ≡ Refusal.Off) }
    {
        match self.refusal(config, event) {
            Some(why) => Err(why),
            None => self.accept(config, self_id, event),
        }
    }

    /// The effect of an accepted event at node `self_id`. Its only error is [`Refusal::NoMemory`]. A crash allocates
    /// nothing.
    fn accept(&self, config: &Config, self_id: NodeId, event: &Event) -> Result<Change, Refusal>
        requires { refusal_of config.now self.now event.now ≡ None }
        ensures ok { IfOk result (λ change. Prepared config.now self_id self.now event.now change) }
        ensures fits { IfOk result (λ change. Fits self.now change) }
        ensures err { IfErr result (λ why. why ≡ Refusal.NoMemory) }
        ensures crash { IfErr result (λ _. event.now ≡ Event.Crash → ⊥) }
    {
        match &self.running {
            None => {
                let now = moment_of(event);
                Ok(Change::boot(self.alloc, config, self_id, self.last, now)?)
            }
            Some(running) => {
                running.tells_invariant();
                Ok(Change::of(config, self.last, running, event)?)
            }
        }
    }

    /// The effect of hearing a message, as [`Node::prepare`] computes it, but by a borrowed message. The error is the
    /// event's refusal, or `NoMemory` if it has none. Instead of states it compares heard dots, which requires that
    /// these decide the order of body and state. They do in a world, but not for a forged message.
    pub fn prepare_hear_by_dots(
        &self,
        config: &Config,
        message: &Message,
    ) -> Result<Change, Refusal>
        requires { IfSome (state_of self.now) (IsBelowByDots (content_of message.now.body)) }
        ensures ok { IfOk result (λ change. (me : NodeId)
            → Prepared config.now me self.now (Event.Hear message.now) change) }
        ensures fits { IfOk result (λ change. Fits self.now change) }
        ensures err { IfErr result (λ why. (t : Table)
            → why ≡ unwrap_or (refusal_of t self.now (Event.Hear message.now)) Refusal.NoMemory) }
    {
        let Some(running) = &self.running else {
            return Err(Refusal::Off);
        };
        if let Some(why) = running.refusal_to_hear(message) {
            return Err(why);
        }
        running.tells_invariant();
        let is_known = running.knows_by_dots(message);
        Ok(Change::hear(config, self.last, running, message, is_known)?)
    }

    /// The effect of hearing a single operation, as [`Node::prepare`] computes it, but by a borrowed operation. The
    /// error is the event's refusal, or `NoMemory` if it has none. It looks for the operation's dot among the heard
    /// ones, which requires that this decides whether the state covers the operation, as in a world.
    pub fn prepare_hear_op_by_dot(&self, operation: &Op) -> Result<Change, Refusal>
        requires { IfSome (state_of self.now) (IsBelowByDot operation.now) }
        ensures ok { IfOk result (λ change. (t : Table) (me : NodeId)
            → Prepared t me self.now (Event.HearOp operation.now) change) }
        ensures fits { IfOk result (λ change. Fits self.now change) }
        ensures err { IfErr result (λ why. (t : Table)
            → why
            ≡ unwrap_or (refusal_of t self.now (Event.HearOp operation.now)) Refusal.NoMemory) }
    {
        let Some(running) = &self.running else {
            return Err(Refusal::Off);
        };
        if let Some(why) = running.refusal_to_hear_op(operation) {
            return Err(why);
        }
        running.tells_invariant();
        let is_known = covers_by_dot(running.state(), operation);
        Ok(Change::hear_op(self.last, running, operation, is_known)?)
    }

    /// Applies a prepared change, and returns the reply. This is a step for the event, if this node prepared the change
    /// and hasn't changed since. A node that goes off allocates nothing.
    pub fn apply(&mut self, mut change: Change) -> Result<Reply, NoMemory>
        requires { Fits self.old change }
        ensures new { OnOk result (self.new ≡ changed self.old change) }
        ensures reply { IfOk result (λ reply. reply ≡ change.reply) }
        ensures unchanged { OnErr result (self.new ≡ self.old) }
        ensures off { IfErr result (λ _. (changed self.old change).running ≡ None → ⊥) }
    {
        self.perform(&mut change)?;
        Ok(change.into_reply())
    }

    /// Applies a prepared change as [`Node::apply`] does, but leaves the reply in it. The rest of the change can't be
    /// used after that.
    pub fn perform(&mut self, change: &mut Change) -> Result<(), NoMemory>
        requires { Fits self.old change.old }
        ensures new { OnOk result (self.new ≡ changed self.old change.old) }
        ensures reply { change.new.reply ≡ change.old.reply }
        ensures unchanged { OnErr result (self.new ≡ self.old) }
        ensures off { IfErr result (λ _. (changed self.old change.old).running ≡ None → ⊥) }
    {
        let Change { last, outcome } = change;
        let Some(outcome) = outcome else {
            self.go_off();
            self.last = *last;
            return Ok(());
        };
        self.replace_running(outcome)?;
        self.last = *last;
        Ok(())
    }

    /// The state after a prepared change, if the controller then runs. It is computed if the change brings a delta, and
    /// otherwise copied.
    pub fn state_after(&self, change: &Change) -> Result<Option<State>, NoMemory>
        ensures { IfOk result (λ state. state ≡ state_of (changed self.now change.now)) }
    {
        let Some(outcome) = &change.outcome else {
            return Ok(None);
        };
        match &outcome.after {
            After::Off => Ok(None),
            After::Boots(running) => copied(Some(running.state())),
            After::Ticks(ticks) => match (&self.running, &ticks.state) {
                (Some(_running), Some(state)) => copied(Some(state)),
                _ => copied(self.state()),
            },
            After::Notes(notes) => match &notes.delta {
                Some(delta) => joined(self.state(), delta),
                None => copied(self.state()),
            },
        }
    }

    /// The incarnation after a prepared change, if the controller then runs.
    pub fn origin_after(&self, change: &Change) -> Option<Origin>
        ensures { result ≡ origin_of (changed self.now change.now) }
    {
        let Some(outcome) = &change.outcome else {
            return None;
        };
        match &outcome.after {
            After::Off => None,
            After::Boots(running) => Some(running.origin()),
            After::Ticks(_) | After::Notes(_) => self.origin(),
        }
    }

    /// Replaces the running value by the outcome's. The reply stays in the outcome.
    fn replace_running(&mut self, outcome: &mut Outcome) -> Result<(), NoMemory>
        requires numbers { FitsIn self.old.running outcome.old.after }
        ensures new { OnOk result (self.new ≡ record {
          last = self.old.last;
          running = running_after outcome.old.after self.old.running;
        }) }
        ensures reply { outcome.new.reply ≡ outcome.old.reply }
        ensures unchanged { OnErr result (self.new ≡ self.old) }
        ensures off { IfErr result
            (λ _. running_after outcome.old.after self.old.running ≡ None → ⊥) }
    {
        match replace(&mut outcome.after, After::Off) {
            After::Off => self.go_off(),
            After::Boots(running) => self.come_up(running),
            After::Ticks(ticks) => {
                if let Some(running) = &mut self.running {
                    running.tick(ticks)?;
                }
            }
            After::Notes(notes) => {
                if let Some(running) = &mut self.running {
                    running.note(notes)?;
                }
            }
        }
        Ok(())
    }

    fn go_off(&mut self)
        ensures { self.new ≡ record { last = self.old.last; running = None } }
    {
        self.running = None;
    }

    fn come_up(&mut self, running: Box<Running, Global>)
        ensures { self.new ≡ record { last = self.old.last; running = Some running.value } }
    {
        self.running = Some(Box::into_inner(running));
    }
}

/// A copy of a state, if there is one.
fn copied(state: Option<&State>) -> Result<Option<State>, NoMemory>
    ensures { IfOk result (λ copied. copied ≡ option_copied state.entry) }
{
    match state {
        None => Ok(None),
        Some(state) => Ok(Some(state.copy()?)),
    }
}

/// The join of a state, if there is one, with a delta.
fn joined(state: Option<&State>, delta: &State) -> Result<Option<State>, NoMemory>
    ensures { IfOk result (λ joined. joined
        ≡ option_map (λ (s : StateValue). join s delta.now) (option_copied state.entry)) }
{
    match state {
        None => Ok(None),
        Some(state) => Ok(Some(state.join(delta)?)),
    }
}

/// The refusal of an event by a controller that is off, if it is refused.
fn refusal_off(last: u64, event: &Event) -> Option<Refusal>
    ensures { result ≡ refused_off last event.now }
{
    match event {
        Event::Boot { now: _ } if last >= MAX_INCARNATION => Some(Refusal::IncarnationsUsedUp),
        Event::Boot { now: _ } => None,
        _ => Some(Refusal::Off),
    }
}

/// The moment of an event; 0 if it has none.
fn moment_of(event: &Event) -> u64
    ensures { result ≡ moment_of event.now }
{
    match event {
        Event::Boot { now } | Event::Tick { now } => *now,
        _ => 0,
    }
}
