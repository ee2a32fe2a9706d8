//! The refusals of events by a running controller.

ghost use Rattle.std.specs.Prelude.{◌≡◌, ◌≤◌, ◌∷◌, [], ◌^◌};
ghost use Rattle.dac_messages.specs.Bodies.{content_of};
ghost use Rattle.dac_model_node.specs.dac_commands.Causes.{first};
ghost use Rattle.dac_model_node.specs.EventRefusals.{refusal_to_tick as refused_tick, refusal_to_ship as refused_ship, refusal_to_hear as refused_hear, refusal_to_obey as refused_command_here, refusal_to_hear_op as refused_hear_op, refusal_on, is_for, needed, overflows, too_few_left, too_many_deltas};

use crate::below::{covers, is_below};
use crate::running::Running;
use dac_base::{MAX_COUNTER, NodeId};
use dac_config::Config;
use dac_events::{Command, Refusal};
use dac_lattice::Bottom;
use dac_messages::{Event, Message};
use dac_model_node::dac_commands::refusal_of;
use dac_origins::Origin;
use dac_placement::is_up;
use dac_state::{Op, State};

impl Running {
    /// Returns whether this many more deltas would exceed the last number.
    fn lacks_numbers(&self, more: u64) -> bool
        requires { more ≤ 2 ^ 16 }
        ensures { result ≡ too_many_deltas self.now more }
    {
        self.buffer.tells_invariant();
        self.buffer.count() + more > MAX_COUNTER
    }

    /// Returns whether adding a state needs a delta number and none is left.
    fn overflows(&self, body: &State) -> bool
        ensures { result ≡ overflows self.now body.now }
    {
        // This order avoids most comparisons of states.
        self.lacks_numbers(1) && !is_below(body, &self.state)
    }

    /// The refusal of the event, if it is refused.
    pub(crate) fn refusal(&self, config: &Config, event: &Event) -> Option<Refusal>
        ensures { result ≡ refusal_on config.now self.now event.now }
    {
        match event {
            Event::Boot { now: _ } => Some(Refusal::AlreadyOn),
            Event::Crash => None,
            Event::Command(command) => self.refusal_to_obey(config, *command),
            Event::Tick { now } => self.refusal_to_tick(config, *now),
            Event::Ship { to } => self.refusal_to_ship(config, *to),
            Event::Hear(message) => self.refusal_to_hear(message),
            Event::HearOp(operation) => self.refusal_to_hear_op(operation),
        }
    }

    /// The refusal of a command, if it is refused.
    fn refusal_to_obey(&self, config: &Config, command: Command) -> Option<Refusal>
        ensures { result ≡ refused_command_here config.now self.now command }
    {
        match refusal_of(config, self.origin, &self.state, command) {
            Some(why) => Some(why),
            None => self.refusal_to_push(),
        }
    }

    /// The refusal of a tick at this moment, if it is refused.
    fn refusal_to_tick(&self, config: &Config, now: u64) -> Option<Refusal>
        ensures { result ≡ refused_tick config.now self.now now }
    {
        if !is_up(&self.state, self.origin) {
            return Some(Refusal::DeclaredDown);
        }
        if now < self.moments.last {
            return Some(Refusal::MomentBack);
        }
        if has_too_few(config, self.origin, &self.state) || self.lacks_numbers(tick_need(config)) {
            return Some(Refusal::DotsUsedUp);
        }
        None
    }

    /// The refusal of a ship to a node, if it is refused.
    fn refusal_to_ship(&self, config: &Config, to: NodeId) -> Option<Refusal>
        ensures { result ≡ refused_ship config.now self.now to }
    {
        if to.0 >= config.nodes() {
            return Some(Refusal::UnknownNode);
        }
        if to == self.origin.node {
            return Some(Refusal::OnSelf);
        }
        if self.is_up_to_date(to) {
            return Some(Refusal::UpToDate);
        }
        None
    }

    /// The refusal of a message, if it is refused. A message is for this incarnation if it is for its node and isn't
    /// bound to another incarnation.
    #[inline(always)]
    pub(crate) fn refusal_to_hear(&self, message: &Message) -> Option<Refusal>
        ensures { result ≡ refused_hear self.now message.now }
    {
        let own = self.origin;
        if message.from.node == own.node {
            return Some(Refusal::OnSelf);
        }
        if !is_for(own, message) {
            return Some(Refusal::NotForMe);
        }
        if self.overflows_by(message) {
            return Some(Refusal::DotsUsedUp);
        }
        None
    }

    /// Returns whether adding a message's content needs a delta number and none is left.
    fn overflows_by(&self, message: &Message) -> bool
        ensures { result ≡ overflows self.now (content_of message.now.body) }
    {
        match message.body.state() {
            Some(state) => self.overflows(state),
            None => self.overflows(&State::bottom(self.alloc)),
        }
    }

    /// The refusal of a single operation handed, if it is refused.
    pub(crate) fn refusal_to_hear_op(&self, operation: &Op) -> Option<Refusal>
        ensures { result ≡ refused_hear_op self.now operation.now }
    {
        // This order avoids most look-ups in the state.
        if self.lacks_numbers(1) && !covers(&self.state, operation) {
            Some(Refusal::DotsUsedUp)
        } else {
            None
        }
    }

    /// The refusal if no delta number is left.
    fn refusal_to_push(&self) -> Option<Refusal>
        ensures { result ≡ first ((too_many_deltas self.now 1, Refusal.DotsUsedUp) ∷ []) }
    {
        if self.lacks_numbers(1) {
            Some(Refusal::DotsUsedUp)
        } else {
            None
        }
    }
}

/// Returns whether a message is for this incarnation.
fn is_for(own: Origin, message: &Message) -> bool
    ensures { result ≡ is_for own message.now }
{
    let for_all = match message.only {
        Some(inc) => inc == own.inc,
        None => true,
    };
    message.to == own.node && for_all
}

/// The number of counters, and of delta numbers, that a tick is assumed to need.
fn tick_need(config: &Config) -> u64
    ensures needed { result ≡ needed config.now }
    ensures few { result ≤ 2 ^ 16 }
{
    u64::from(config.apps()).max(1)
}

/// Returns whether an incarnation has fewer counters left than a tick is assumed to need.
fn has_too_few(config: &Config, own: Origin, state: &State) -> bool
    ensures { result ≡ too_few_left config.now state.now own }
{
    match state.known().next(own) {
        Some(next) => next.n - 1 + u64::from(config.apps()) > MAX_COUNTER,
        None => true,
    }
}
