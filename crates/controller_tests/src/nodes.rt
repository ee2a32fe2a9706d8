//! Nodes: their incarnations, and their refusals at the limits of dots, counters and terms.
use crate::steps::dot;
use dac_base::{AppId, NoMemory, NodeId};
use dac_config::{Config, read_config};
use dac_core::{Body, Command, Event, Message, Node, Refusal, Reply};
use dac_origins::Dot;
use dac_state::{Act, DotList, How, Key, Op, State};
use std::alloc::Global;

/// One application with two nodes, in order.
pub const ONE: &[u8] = b"[{kernel,[{distributed,[{a,[c1@h,c2@h]}]}]}].";

const APP: AppId = AppId(0);

/// The node whose operations are delivered.
pub const FIRST: NodeId = NodeId(0);

/// The node that receives them.
pub const SECOND: NodeId = NodeId(1);

const DOWN: Command = Command::Down { node: FIRST };

const PERMIT: Command = Command::Permit {
    app: APP,
    node: SECOND,
    value: true,
};

const START: Command = Command::Start {
    app: APP,
    node: SECOND,
};

const STOP: Command = Command::Stop {
    app: APP,
    node: SECOND,
};

const DRAIN: Command = Command::Drain {
    node: SECOND,
    value: true,
};

const TAKEOVER: Command = Command::Takeover { app: APP };

/// One application with two nodes of equal priority.
const PEERS: &[u8] = b"[{kernel,[{distributed,[{a,[{c1@h,c2@h}]}]}]}].";

const LAST_TERM: u64 = 1 << 62;

/// The application at the second node.
const KEY: Key = Key {
    app: APP,
    node: SECOND,
    inc: 1,
};

/// The application at the first node.
const OTHER_KEY: Key = Key {
    app: APP,
    node: FIRST,
    inc: 1,
};

fn start_at(alloc: Global, key: Key) -> Act {
    let over = DotList::new(Vec::new(alloc));
    Act::Start { key, over }
}

fn start(alloc: Global) -> Act {
    start_at(alloc, KEY)
}

fn permit(alloc: Global) -> Act {
    let over = DotList::new(Vec::new(alloc));
    Act::Permit {
        key: KEY,
        value: true,
        over,
    }
}

fn drain(alloc: Global) -> Act {
    let over = DotList::new(Vec::new(alloc));
    Act::Drain {
        node: SECOND,
        inc: 1,
        value: true,
        over,
    }
}

/// The result of an event at the second node.
pub fn step(config: &Config, node: &mut Node, event: Event) -> Result<Reply, Refusal> {
    node.step(config, SECOND, event)
}

/// Delivers an operation to the node. True if it's accepted.
fn hears(config: &Config, node: &mut Node, dot: Dot, act: Act) -> bool {
    match Op::new(dot, act) {
        Ok(op) => step(config, node, Event::HearOp(op)).is_ok(),
        Err(_) => false,
    }
}

/// True if a copy of the node refuses the command with `why`.
fn refuses(config: &Config, node: &Node, command: Command, why: Refusal) -> bool {
    match node.copy() {
        Ok(mut copied) => step(config, &mut copied, Event::Command(command)).err() == Some(why),
        Err(_) => false,
    }
}

/// True if a copy of the node accepts the command.
fn accepts(config: &Config, node: &Node, command: Command) -> bool {
    match node.copy() {
        Ok(mut copied) => step(config, &mut copied, Event::Command(command)).is_ok(),
        Err(_) => false,
    }
}

/// True if the node refuses every command with `why`.
fn refuses_all(config: &Config, node: &Node, why: Refusal) -> bool {
    [DOWN, PERMIT, START, STOP, DRAIN]
        .iter()
        .all(|command| refuses(config, node, *command, why))
}

/// The second node in its first incarnation.
pub fn boot_second(alloc: Global, config: &Config) -> Option<Node> {
    let mut node = Node::off(alloc, 0);
    let _reply = step(config, &mut node, Event::Boot { now: 0 }).ok()?;
    Some(node)
}

/// True if the node accepts starts by the first node with the counters from 2 up to but without `end`.
pub fn hears_starts(alloc: Global, config: &Config, node: &mut Node, end: u64) -> bool {
    for n in 2..end {
        if !hears(config, node, dot(0, 1, n), start(alloc)) {
            return false;
        }
    }
    true
}

/// True if the node accepts permits by the first node with the counters from 2 up to but without `end`.
fn hears_permits(alloc: Global, config: &Config, node: &mut Node, end: u64) -> bool {
    for n in 2..end {
        if !hears(config, node, dot(0, 1, n), permit(alloc)) {
            return false;
        }
    }
    true
}

/// True if the node accepts drains by the first node with the counters from 2 up to but without `end`.
fn hears_drains(alloc: Global, config: &Config, node: &mut Node, end: u64) -> bool {
    for n in 2..end {
        if !hears(config, node, dot(0, 1, n), drain(alloc)) {
            return false;
        }
    }
    true
}

/// True if a stop can replace 1,024 starts, and not one more.
fn starts_are_too_many(alloc: Global) -> Option<bool> {
    let config = read_config(alloc, ONE).ok()?;
    let mut node = boot_second(alloc, &config)?;
    let most = hears_starts(alloc, &config, &mut node, 1_026) && accepts(&config, &node, STOP);
    let more = hears(&config, &mut node, dot(0, 1, 1_026), start(alloc));
    Some(
        most && more
            && refuses(&config, &node, START, Refusal::TooManyDots)
            && refuses(&config, &node, STOP, Refusal::TooManyDots)
            && accepts(&config, &node, PERMIT),
    )
}

#[test]
fn too_many_starts(rt: HostRuntime) {
    assert!(rt; starts_are_too_many(rt.alloc()) == Some(true));
}

/// True if a permit can replace 1,024 permits, and not one more.
fn permits_are_too_many(alloc: Global) -> Option<bool> {
    let config = read_config(alloc, ONE).ok()?;
    let mut node = boot_second(alloc, &config)?;
    let most = hears_permits(alloc, &config, &mut node, 1_026) && accepts(&config, &node, PERMIT);
    let more = hears(&config, &mut node, dot(0, 1, 1_026), permit(alloc));
    Some(
        most && more
            && refuses(&config, &node, PERMIT, Refusal::TooManyDots)
            && accepts(&config, &node, START),
    )
}

#[test]
fn too_many_permits(rt: HostRuntime) {
    assert!(rt; permits_are_too_many(rt.alloc()) == Some(true));
}

/// True if a drain can replace 1,024 drains, and not one more.
fn drains_are_too_many(alloc: Global) -> Option<bool> {
    let config = read_config(alloc, ONE).ok()?;
    let mut node = boot_second(alloc, &config)?;
    let most = hears_drains(alloc, &config, &mut node, 1_026) && accepts(&config, &node, DRAIN);
    let more = hears(&config, &mut node, dot(0, 1, 1_026), drain(alloc));
    Some(
        most && more
            && refuses(&config, &node, DRAIN, Refusal::TooManyDots)
            && accepts(&config, &node, PERMIT),
    )
}

#[test]
fn too_many_drains(rt: HostRuntime) {
    assert!(rt; drains_are_too_many(rt.alloc()) == Some(true));
}

/// True if a node that received an operation of its own with the last counter refuses every command.
fn is_used_up(alloc: Global) -> Option<bool> {
    let config = read_config(alloc, ONE).ok()?;
    let mut node = boot_second(alloc, &config)?;
    let up = hears(&config, &mut node, dot(0, 1, 1), Act::Up);
    let last = hears(&config, &mut node, dot(1, 1, 1 << 62), start(alloc));
    Some(up && last && refuses_all(&config, &node, Refusal::DotsUsedUp))
}

#[test]
fn no_counter_is_left(rt: HostRuntime) {
    assert!(rt; is_used_up(rt.alloc()) == Some(true));
}

/// True if a node ticks after it received an operation of its own with this counter, false if it has no counter left.
fn ticks_after(alloc: Global, counter: u64) -> Option<bool> {
    let config = read_config(alloc, ONE).ok()?;
    let mut node = boot_second(alloc, &config)?;
    if !hears(&config, &mut node, dot(1, 1, counter), start(alloc)) {
        return None;
    }
    match step(&config, &mut node, Event::Tick { now: 0 }) {
        Ok(_reply) => Some(true),
        Err(Refusal::DotsUsedUp) => Some(false),
        Err(_why) => None,
    }
}

#[test]
fn a_tick_needs_a_counter_for_each_application(rt: HostRuntime) {
    assert!(rt; ticks_after(rt.alloc(), (1 << 62) - 1) == Some(true));
    assert!(rt; ticks_after(rt.alloc(), 1 << 62) == Some(false));
}

/// The second node, started, after it heard that the first is up and started and claims the application at this term.
fn with_claim(alloc: Global, config: &Config, term: u64) -> Option<Node> {
    let mut node = boot_second(alloc, config)?;
    let claim = Act::Claim {
        app: APP,
        term,
        how: How::Normal,
        from: None,
    };
    let up = hears(config, &mut node, dot(0, 1, 1), Act::Up);
    let started = hears(config, &mut node, dot(0, 1, 2), start_at(alloc, OTHER_KEY));
    let claimed = hears(config, &mut node, dot(0, 1, 3), claim);
    let _reply = step(config, &mut node, Event::Command(START)).ok()?;
    if up && started && claimed {
        Some(node)
    } else {
        None
    }
}

/// True if a takeover is refused at the last term, and accepted at the one before.
fn terms_end(alloc: Global) -> Option<bool> {
    let config = read_config(alloc, PEERS).ok()?;
    let last = with_claim(alloc, &config, LAST_TERM)?;
    let before = with_claim(alloc, &config, LAST_TERM - 1)?;
    let refused = refuses(&config, &last, TAKEOVER, Refusal::TermsUsedUp);
    Some(refused && accepts(&config, &before, TAKEOVER))
}

#[test]
fn no_term_is_left(rt: HostRuntime) {
    assert!(rt; terms_end(rt.alloc()) == Some(true));
}

/// How many applications a tick claims and passes, after the first node claimed the application at this term and went
/// down.
fn tick_counts(alloc: Global, config: &Config, term: u64) -> Option<(usize, usize)> {
    let mut node = with_claim(alloc, config, term)?;
    let _down = step(config, &mut node, Event::Command(DOWN)).ok()?;
    match step(config, &mut node, Event::Tick { now: 0 }).ok()? {
        Reply::Ticked { ops, passed } => Some((ops.as_slice().len(), passed.as_slice().len())),
        _ => None,
    }
}

/// True if the application is passed at the last term, and claimed at the one before.
fn ticks_pass(alloc: Global) -> Option<bool> {
    let config = read_config(alloc, PEERS).ok()?;
    let passed = tick_counts(alloc, &config, LAST_TERM) == Some((0, 1));
    Some(passed && tick_counts(alloc, &config, LAST_TERM - 1) == Some((1, 0)))
}

#[test]
fn ticks_pass_what_has_no_term_left(rt: HostRuntime) {
    assert!(rt; ticks_pass(rt.alloc()) == Some(true));
}

/// True if a node refuses every command after the first node declared it down.
fn is_declared_down(alloc: Global) -> Option<bool> {
    let config = read_config(alloc, ONE).ok()?;
    let mut node = boot_second(alloc, &config)?;
    let down = Act::Down {
        node: SECOND,
        inc: 1,
    };
    let told = hears(&config, &mut node, dot(0, 1, 2), down);
    Some(told && refuses_all(&config, &node, Refusal::DeclaredDown))
}

#[test]
fn declared_down_by_another(rt: HostRuntime) {
    assert!(rt; is_declared_down(rt.alloc()) == Some(true));
}

/// The incarnation of a boot after incarnation `last`, or its refusal.
fn next(alloc: Global, config: &Config, last: u64) -> Result<Option<u64>, Refusal> {
    let mut node = Node::off(alloc, last);
    let _reply = step(config, &mut node, Event::Boot { now: 0 })?;
    match node.origin() {
        Some(origin) => Ok(Some(origin.inc)),
        None => Ok(None),
    }
}

/// True if incarnations increase by one, and end at 2^62.
fn go_on_and_end(alloc: Global) -> Option<bool> {
    let config = read_config(alloc, ONE).ok()?;
    let ended = next(alloc, &config, 1 << 62) == Err(Refusal::IncarnationsUsedUp);
    let wide = next(alloc, &config, 4_294_967_295) == Ok(Some(4_294_967_296));
    Some(ended && wide && next(alloc, &config, 4) == Ok(Some(5)))
}

#[test]
fn incarnations_go_on_and_end(rt: HostRuntime) {
    assert!(rt; go_on_and_end(rt.alloc()) == Some(true));
}

/// A message from the first node to the second, with the first one's boot.
pub fn message(alloc: Global) -> Option<Message> {
    let up = Op::new(dot(0, 1, 1), Act::Up).ok()?;
    Some(Message {
        from: up.dot().origin,
        to: SECOND,
        only: None,
        up_to: 0,
        body: Body::Whole(State::delta_of(alloc, &up).ok()?),
        ack: None,
    })
}

/// True if the event's copy delivers an equal message.
fn is_heard(event: &Event, message: &Message) -> Result<bool, NoMemory> {
    match event.copy()? {
        Event::Hear(heard) => Ok(heard.equal(message)),
        _ => Ok(false),
    }
}

/// True if copies of a message and of its delivery are equal to it.
fn is_copied(alloc: Global) -> Option<bool> {
    let message = message(alloc)?;
    let copied = message.copy().ok()?;
    is_heard(&Event::Hear(message), &copied).ok()
}

#[test]
fn messages_are_copied(rt: HostRuntime) {
    assert!(rt; is_copied(rt.alloc()) == Some(true));
}

/// True if a refusal has this number and name, and is printed by the name.
fn is_shown(alloc: Global, why: Refusal, number: u8, name: &str) -> Option<bool> {
    let shown = format!(in alloc; "{why}").ok()?;
    Some(why.number() == number && why.name() == name && shown.as_str() == name)
}

const SHOWN: &[(Refusal, u8, &str)] = &[
    (Refusal::MomentBack, 8, "MomentBack"),
    (Refusal::NotForMe, 15, "NotForMe"),
    (Refusal::TooManyDots, 17, "TooManyDots"),
    (Refusal::TermsUsedUp, 18, "TermsUsedUp"),
    (Refusal::DotsUsedUp, 19, "DotsUsedUp"),
    (Refusal::IncarnationsUsedUp, 20, "IncarnationsUsedUp"),
];

#[test]
fn refusals_are_shown_by_their_names(rt: HostRuntime) {
    for (why, number, name) in SHOWN {
        assert!(rt;
            is_shown(rt.alloc(), *why, *number, name) == Some(true),
            "{name}"
        );
    }
}
