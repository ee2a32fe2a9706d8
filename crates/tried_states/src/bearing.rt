//! Checks that every call accepts forged states and messages: well-formed ones that no run of a world contains. A state is
//! joined, compared, encoded, decided on and printed. Each of three nodes receives it, whole and in forged messages, then
//! ticks, ships and takes every command.
use dac_base::{AppId, MAX_COUNTER, MAX_INCARNATION, NodeId};
use dac_config::Config;
use dac_core::{Body, Command, Event, Message, Node, Refusal, Reply};
use dac_decide::{Waits, gate};
use dac_lattice::{Bottom, Lattice};
use dac_origins::Origin;
use dac_placement::{eligible, load, verdict};
use dac_state::State;
use dac_status::{Summary, page};
use dac_wire::{Packet, decode, encode};
use std::alloc::Global;

/// True if the states command_effect the laws of a lattice.
fn are_ordered(alloc: Global, state: &State, other: &State) -> Option<bool> {
    let both = state.join(other).ok()?;
    let turned = other.join(state).ok()?;
    let again = both.join(state).ok()?;
    Some(
        both.equal(&turned)
            && again.equal(&both)
            && state.leq(&both)
            && other.leq(&both)
            && State::bottom(alloc).leq(state),
    )
}

/// True if decoding the state's bytes returns it.
fn is_spelled(alloc: Global, config: &Config, state: &State) -> Option<bool> {
    let bytes = state.encode().ok()?;
    let read = State::decode(alloc, config, bytes.as_slice()).ok()?;
    Some(read.equal(state))
}

/// Runs every decision about a configured application, now and later.
fn decides(config: &Config, state: &State, waits: &Waits, app: AppId) {
    if app.0 >= config.apps() {
        return;
    }
    let _verdict = verdict(config, state, app);
    let _due = waits.due(config, state, app, 9_000);
    for node in 0..config.nodes() {
        let _eligible = eligible(config, state, app, NodeId(node));
        let _load = load(config, state, app, NodeId(node));
    }
}

/// True if the state can be decided on and printed.
fn is_shown(alloc: Global, config: &Config, state: &State) -> Option<bool> {
    let mut waits = Waits::new(alloc, config).ok()?;
    waits.note(config, state, 3);
    for app in 0..config.apps() {
        decides(config, state, &waits, AppId(app));
    }
    let _opening = gate(config, state, 0, 9);
    let text = page(alloc, config, &Summary::of(config, state)).ok()?;
    Some(!text.as_slice().is_empty())
}

/// True if the step returns any result but `NoMemory`.
fn is_answered(config: &Config, node: &mut Node, me: NodeId, event: Event) -> bool {
    node.step(config, me, event).err() != Some(Refusal::NoMemory)
}

/// True if no command about a node and an application fails with `NoMemory`.
fn takes_commands(config: &Config, node: &mut Node, me: NodeId, app: AppId, about: NodeId) -> bool {
    [
        Command::Permit {
            app,
            node: about,
            value: false,
        },
        Command::Start { app, node: about },
        Command::Takeover { app },
        Command::Stop { app, node: about },
        Command::Drain {
            node: about,
            value: true,
        },
        Command::Down { node: about },
    ]
    .iter()
    .all(|command| is_answered(config, node, me, Event::Command(*command)))
}

/// True if the message that the node ships, if any, can be decoded.
fn ships(alloc: Global, config: &Config, node: &mut Node, me: NodeId, to: NodeId) -> Option<bool> {
    match node.step(config, me, Event::Ship { to }) {
        Ok(Reply::Shipped(message)) => {
            let bytes = encode(alloc, config, &Packet::Msg(message)).ok()?;
            Some(decode(alloc, config, bytes.as_slice()).is_ok())
        }
        Ok(_reply) => Some(false),
        Err(why) => Some(why != Refusal::NoMemory),
    }
}

/// The body of a message, without its state.
enum Carried {
    Whole,
    Interval,
    Nothing,
}

/// A message whose sender never shipped it.
struct Forged {
    carried: Carried,
    /// The only incarnation of the receiver that it is for.
    only: Option<u64>,
    /// How many deltas the sender claims to have had.
    up_to: u64,
    /// The receiver's incarnation that is acknowledged, and the number of its deltas.
    acked: Option<(u64, u64)>,
}

/// A whole state as after a first contact, acknowledged up to the first delta.
const FIRST: Forged = Forged {
    carried: Carried::Whole,
    only: None,
    up_to: 7,
    acked: Some((1, 1)),
};

/// Messages in an order in which no sender ships them: intervals precede the whole state, delta counts fall, and
/// acknowledgements name deltas and incarnations that the receiver never had.
const FORGED: &[Forged] = &[
    Forged {
        carried: Carried::Interval,
        only: Some(1),
        up_to: MAX_COUNTER,
        acked: Some((1, MAX_COUNTER)),
    },
    Forged {
        carried: Carried::Interval,
        only: None,
        up_to: 0,
        acked: None,
    },
    Forged {
        carried: Carried::Whole,
        only: Some(1),
        up_to: 1,
        acked: Some((MAX_INCARNATION, 1)),
    },
    Forged {
        carried: Carried::Nothing,
        only: Some(1),
        up_to: MAX_COUNTER,
        acked: Some((1, 0)),
    },
    Forged {
        carried: Carried::Interval,
        only: Some(MAX_INCARNATION),
        up_to: 3,
        acked: Some((0, 7)),
    },
    Forged {
        carried: Carried::Interval,
        only: Some(1),
        up_to: 2,
        acked: Some((1, 2)),
    },
];

/// The forged message with this state, from another node.
fn message(forged: &Forged, state: &State, to: NodeId) -> Option<Message> {
    let body = match forged.carried {
        Carried::Whole => Body::Whole(state.copy().ok()?),
        Carried::Interval => Body::Interval(state.copy().ok()?),
        Carried::Nothing => Body::Nothing,
    };
    let ack = match forged.acked {
        Some((inc, count)) => Some((Origin { node: to, inc }, count)),
        None => None,
    };
    Some(Message {
        from: Origin {
            node: NodeId(to.0.wrapping_add(1) % 3),
            inc: 1,
        },
        to,
        only: forged.only,
        up_to: forged.up_to,
        body,
        ack,
    })
}

/// True if a booted node returns from each forged message, and then ships messages that can be decoded.
fn hears_forged(alloc: Global, config: &Config, state: &State, me: NodeId) -> Option<bool> {
    let mut node = Node::off(alloc, 0);
    let _up = node.step(config, me, Event::Boot { now: 0 }).ok()?;
    let mut all = true;
    for forged in FORGED {
        let event = Event::Hear(message(forged, state, me)?);
        all = is_answered(config, &mut node, me, event) && all;
        all = ships(
            alloc,
            config,
            &mut node,
            me,
            NodeId(me.0.wrapping_add(1) % 3),
        )? && all;
    }
    all = is_answered(config, &mut node, me, Event::Tick { now: 9_000 }) && all;
    Some(all && is_spelled(alloc, config, node.state()?)?)
}

/// True if a booted node accepts the state and returns from every event after it.
fn hears(alloc: Global, config: &Config, state: &State, me: NodeId) -> Option<bool> {
    let mut node = Node::off(alloc, 0);
    let _up = node.step(config, me, Event::Boot { now: 0 }).ok()?;
    let heard = node.step(config, me, Event::Hear(message(&FIRST, state, me)?));
    let mut all = heard.is_ok();
    for now in [10u64, 20, 9_000] {
        all = all && is_answered(config, &mut node, me, Event::Tick { now });
    }
    for about in 0..3u8 {
        let about = NodeId(about);
        all = all && ships(alloc, config, &mut node, me, about)?;
        all = all && takes_commands(config, &mut node, me, AppId(0), about);
        all = all && takes_commands(config, &mut node, me, AppId(1), about);
    }
    Some(all && is_spelled(alloc, config, node.state()?)?)
}

/// Whether every call accepts a state together with another one, under a configuration of three nodes and two applications.
/// `None` if memory ran out.
pub fn is_borne(alloc: Global, config: &Config, state: &State, other: &State) -> Option<bool> {
    let mut all = are_ordered(alloc, state, other)? && is_spelled(alloc, config, state)?;
    all = all && is_shown(alloc, config, state)?;
    for me in 0..3u8 {
        all = all && hears(alloc, config, state, NodeId(me))?;
        all = all && hears_forged(alloc, config, state, NodeId(me))?;
    }
    Some(all)
}
