//! The effect of an accepted event, prepared before anything changes.

ghost use Rattle.std.specs.Prelude.{◌≡◌, ◌<◌, ◌∷◌, [], IfOk, IfErr, MatchOption, None};
ghost use Rattle.dac_base.specs.declared.limits.TheConstants.{MAX_INCARNATION};
ghost use Rattle.dac_config.specs.Table.{Table};
ghost use Rattle.dac_meaning.specs.Below.{is_below};
ghost use Rattle.dac_meaning.specs.Meaning.{meaning_of};
ghost use Rattle.dac_messages.specs.Bodies.{content_of};
ghost use Rattle.dac_model_node.specs.EventRefusals.{refusal_on, refusal_to_obey};

use crate::below::covers;
use crate::notes::NoteChange;
use crate::running::Running;
use crate::ticking::{TickChange, tick};
use dac_base::{NoMemory, NodeId};
use dac_config::Config;
use dac_events::Command;
use dac_messages::{Event, Message, Reply};
use dac_origins::Origin;
use dac_state::Op;
use std::alloc::Global;
use std::marker::Model;

/// The running value after a change.
#[derive(Drop)]
pub(crate) enum After {
    /// The node is off.
    Off,
    /// The node boots. The value is boxed to keep other changes small, because changes are moved.
    Boots(Box<Running, Global>),
    /// The running node ticks.
    Ticks(TickChange),
    /// The running node notes another event.
    Notes(NoteChange),
}

/// The running value after an event other than a crash, and the reply.
#[derive(Drop)]
pub(crate) struct Outcome {
    pub(crate) after: After,
    pub(crate) reply: Reply,
}

/// The effect of an accepted event: the number of the last incarnation, the running value, and the reply.
///
/// [`Node::prepare`](crate::Node::prepare) makes it, and [`Node::apply`](crate::Node::apply) applies it. The outcome is
/// boxed to keep the change small. A crash has no outcome, because it allocates nothing.
#[derive(Drop)]
pub struct Change {
    pub(crate) last: u64,
    pub(crate) outcome: Option<Box<Outcome, Global>>,
}

impl Model for Change {
    ghost use Rattle.dac_messages.specs.contracts.reply.Reply as reply_row;
    ghost use Rattle.dac_node.specs.contracts.change.After as after_row;
    ghost use Rattle.dac_node.specs.Changes.{ChangeValue, coded_change};
    ghost use Rattle.dac_node.specs.Outcomes.{after_of, reply_of};

    ghost Value = { ChangeValue };

    ghost coded = { coded_change after_row.the_row.coded reply_row.the_row.coded };

    ghost view = { λ a. record {
      last = a.last;
      after = after_of a.outcome;
      reply = reply_of a.outcome;
    } };
}

impl Change {
    ghost use Rattle.dac_node.specs.Changes.{BootsBy, Effect};
    ghost use Rattle.dac_node.specs.After.{news, noting};

    /// Borrows the reply to the event. A crash has none to borrow; its reply is [`Reply::Crashed`].
    pub fn reply(&self) -> Option<&Reply>
        ensures { MatchOption result (self.now.reply ≡ Reply.Crashed)
            (λ reply. reply.now ≡ self.now.reply) }
    {
        match &self.outcome {
            None => None,
            Some(outcome) => Some(&outcome.reply),
        }
    }

    /// Copies the reply to the event.
    pub fn copy_reply(&self) -> Result<Reply, NoMemory>
        ensures { IfOk result (λ reply. reply ≡ self.now.reply) }
    {
        match &self.outcome {
            None => Ok(Reply::Crashed),
            Some(outcome) => outcome.reply.copy(),
        }
    }

    /// The reply to the event, after the change is applied.
    #[inline(always)]
    pub fn into_reply(self) -> Reply
        ensures { result ≡ self.reply }
    {
        match self.outcome {
            None => Reply::Crashed,
            Some(outcome) => Box::into_inner(outcome).reply,
        }
    }

    /// A crash: the node goes off.
    fn crash(last: u64) -> Self
        ensures { result ≡ record { last = last; after = After.Off; reply = Reply.Crashed } }
    {
        Change {
            last,
            outcome: None,
        }
    }

    /// A change to this running value, with this reply.
    #[inline(always)]
    pub(crate) fn new(
        alloc: Global,
        last: u64,
        after: After,
        reply: Reply,
    ) -> Result<Self, NoMemory>
        ensures { IfOk result
            (λ change. change ≡ record { last = last; after = after; reply = reply }) }
    {
        let outcome = Box::new(alloc, Outcome { after, reply })?;
        Ok(Change {
            last,
            outcome: Some(outcome),
        })
    }

    /// The boot of a controller, as this node at this moment.
    pub(crate) fn boot(
        alloc: Global,
        config: &Config,
        node: NodeId,
        last: u64,
        now: u64,
    ) -> Result<Self, NoMemory>
        requires { last < MAX_INCARNATION }
        ensures { IfOk result (BootsBy config.now node last now) }
    {
        let origin = Origin {
            node,
            inc: last + 1,
        };
        let (running, operation) = Running::new(alloc, config, origin, now)?;
        let running = Box::new(alloc, running)?;
        let change = Change::new(
            alloc,
            last + 1,
            After::Boots(running),
            Reply::Booted(operation),
        )?;
        Ok(change)
    }

    /// The effect of an accepted event at a running controller. A crash allocates nothing.
    #[inline(always)]
    pub(crate) fn of(
        config: &Config,
        last: u64,
        running: &Running,
        event: &Event,
    ) -> Result<Self, NoMemory>
        requires { refusal_on config.now running.now event.now ≡ None }
        ensures effect { IfOk result (Effect config.now last running.now event.now) }
        ensures crash { IfErr result (λ _. event.now ≡ Event.Crash → ⊥) }
    {
        match event {
            Event::Boot { now: _ } => unreachable!(),
            Event::Crash => Ok(Change::crash(last)),
            Event::Command(command) => Change::command_effect(config, last, running, *command),
            Event::Tick { now } => tick(config, last, running, *now),
            Event::Ship { to } => Change::ship(last, running, *to),
            Event::Hear(message) => {
                let is_known = running.knows(message);
                Change::hear(config, last, running, message, is_known)
            }
            Event::HearOp(operation) => {
                let is_known = covers(running.state(), operation);
                Change::hear_op(last, running, operation, is_known)
            }
        }
    }

    /// The effect of an accepted command at a running controller.
    fn command_effect(
        config: &Config,
        last: u64,
        running: &Running,
        command: Command,
    ) -> Result<Self, NoMemory>
        requires { refusal_to_obey config.now running.now command ≡ None }
        ensures { IfOk result (Effect config.now last running.now (Event.Command command)) }
    {
        let (notes, operation) = running.command(config, command)?;
        let reply = Reply::Issued(operation);
        let change = Change::new(running.alloc, last, After::Notes(notes), reply)?;
        Ok(change)
    }

    /// The effect of an accepted ship at a running controller.
    fn ship(last: u64, running: &Running, to: NodeId) -> Result<Self, NoMemory>
        ensures { IfOk result
            (λ change. (t : Table) → Effect t last running.now (Event.Ship to) change) }
    {
        let message = running.message_to(to)?;
        let notes = running.shipping(to)?;
        let reply = Reply::Shipped(message);
        let change = Change::new(running.alloc, last, After::Notes(notes), reply)?;
        Ok(change)
    }

    /// The effect of an accepted message at a running controller. The caller passes whether its content is already
    /// known.
    pub(crate) fn hear(
        config: &Config,
        last: u64,
        running: &Running,
        message: &Message,
        is_known: bool,
    ) -> Result<Self, NoMemory>
        requires { is_known ≡ is_below (content_of message.now.body) running.now.state }
        ensures { IfOk result (Effect config.now last running.now (Event.Hear message.now)) }
    {
        let notes = running.hearing(config, message, is_known)?;
        let reply = Reply::Heard(!is_known);
        let change = Change::new(running.alloc, last, After::Notes(notes), reply)?;
        Ok(change)
    }

    /// The effect of a single operation handed to a running controller. The caller passes whether it is already known.
    pub(crate) fn hear_op(
        last: u64,
        running: &Running,
        operation: &Op,
        is_known: bool,
    ) -> Result<Self, NoMemory>
        requires { is_known ≡ is_below (meaning_of (operation.now ∷ [])) running.now.state }
        ensures effect { IfOk result (λ change. (t : Table)
            → Effect t last running.now (Event.HearOp operation.now) change) }
        ensures after { IfOk result (λ change. change.after
            ≡ After.Notes (noting running.now.peers
            (news running.now.state (meaning_of (operation.now ∷ []))))) }
    {
        let notes = running.hearing_op(operation, is_known)?;
        let reply = Reply::Heard(!is_known);
        let change = Change::new(running.alloc, last, After::Notes(notes), reply)?;
        Ok(change)
    }
}
