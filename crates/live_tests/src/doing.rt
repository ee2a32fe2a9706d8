//! A site that accepts and refuses each kind of event, with the reply, place and page of each.
ghost use Rattle.dac_sites.specs.Sites.{IsBlankOf};

use crate::sites::{EXAMPLE, closed_with_none};
use dac_base::{AppId, NodeId};
use dac_config::read_config;
use dac_events::{Command, Refusal};
use dac_messages::{Body, Event, Message, Reply, State};
use dac_origins::{Dot, Origin};
use dac_sites::{
    Closed, LiveFault, PageReader, Receipt, Seat, Site, SiteBlank, SiteName, blank_site, open_site,
};
use dac_state::{Act, DotList, How, Key, Op};
use std::alloc::Global;
use std::marker::Brand;
use std::sync::Wait;
use std::test::Fail;

const APP: AppId = AppId(0);

const ME: NodeId = NodeId(0);

const Q: NodeId = NodeId(1);

const R: NodeId = NodeId(2);

const LAST: u64 = 1 << 62;

/// An operation of another node's first incarnation, each kind with its own counter.
#[derive(Clone, Copy, Debug, PartialEq, Eq)]
enum Issued {
    /// The node comes up.
    Up,
    /// A start of the application at the node itself.
    Start,
    /// A claim of the application at this term.
    Claim(u64),
}

/// The body of a message: the delta of one operation of its sender, or nothing.
#[derive(Clone, Copy, Debug, PartialEq, Eq)]
enum Brings {
    Whole(Issued),
    Interval(Issued),
    Nothing,
}

/// An event at the first node.
#[derive(Clone, Copy)]
enum Comes {
    Boot(u64),
    Crash,
    Asked(Command),
    Tick(u64),
    Ship(NodeId),
    /// A message's sender, receiver and body, and how many deltas of this node's first incarnation it acknowledges; 0
    /// for no acknowledgement.
    Message(NodeId, NodeId, Brings, u64),
    /// A single operation of a node.
    Single(NodeId, Issued),
}

/// The dot of an operation.
fn dot(node: NodeId, issued: Issued) -> Dot {
    let n = match issued {
        Issued::Up => 1,
        Issued::Start => 2,
        Issued::Claim(term) => { if term < 10 { 3 + term } else { 20 } }
    };
    Dot {
        origin: Origin { node, inc: 1 },
        n,
    }
}

/// The operation of a node.
fn operation(alloc: Global, node: NodeId, issued: Issued) -> Option<Op> {
    let act = match issued {
        Issued::Up => Act::Up,
        Issued::Start => Act::Start {
            key: Key {
                app: APP,
                node,
                inc: 1,
            },
            over: DotList::new(Vec::new(alloc)),
        },
        Issued::Claim(term) => Act::Claim {
            app: APP,
            term,
            how: How::Normal,
            from: None,
        },
    };
    Op::new(dot(node, issued), act).ok()
}

/// The delta of one operation.
fn meaning(alloc: Global, node: NodeId, issued: Issued) -> Option<State> {
    State::delta_of(alloc, &operation(alloc, node, issued)?).ok()
}

fn message(alloc: Global, from: NodeId, to: NodeId, brings: Brings, acks: u64) -> Option<Event> {
    let body = match brings {
        Brings::Whole(issued) => Body::Whole(meaning(alloc, from, issued)?),
        Brings::Interval(issued) => Body::Interval(meaning(alloc, from, issued)?),
        Brings::Nothing => Body::Nothing,
    };
    let only = match brings {
        Brings::Whole(_) => None,
        Brings::Interval(_) | Brings::Nothing => Some(1),
    };
    let ack = if acks == 0 {
        None
    } else {
        Some((Origin { node: ME, inc: 1 }, acks))
    };
    Some(Event::Hear(Message {
        from: Origin { node: from, inc: 1 },
        to,
        only,
        up_to: 9,
        body,
        ack,
    }))
}

fn event(alloc: Global, comes: Comes) -> Option<Event> {
    match comes {
        Comes::Boot(now) => Some(Event::Boot { now }),
        Comes::Crash => Some(Event::Crash),
        Comes::Asked(command) => Some(Event::Command(command)),
        Comes::Tick(now) => Some(Event::Tick { now }),
        Comes::Ship(to) => Some(Event::Ship { to }),
        Comes::Message(from, to, brings, acks) => message(alloc, from, to, brings, acks),
        Comes::Single(node, issued) => Some(Event::HearOp(operation(alloc, node, issued)?)),
    }
}

/// A short form of a call's result: an operation's counter, how many applications a tick claimed and passed, or the
/// kind of a message's body.
#[derive(Clone, Copy, Debug, PartialEq, Eq)]
enum Told {
    Booted(u64),
    Crashed,
    Issued(u64),
    Ticked(usize, usize),
    Held,
    GaveUp,
    Whole,
    Interval,
    Nothing,
    Heard(bool),
    Refused(Refusal),
    /// A call that wasn't recorded.
    Fault(LiveFault),
}

fn of_body(body: &Body) -> Told {
    match body {
        Body::Whole(_) => Told::Whole,
        Body::Interval(_) => Told::Interval,
        Body::Nothing => Told::Nothing,
    }
}

fn of_reply(reply: &Reply) -> Told {
    match reply {
        Reply::Booted(op) => Told::Booted(op.dot().n),
        Reply::Crashed => Told::Crashed,
        Reply::Issued(op) => Told::Issued(op.dot().n),
        Reply::Ticked { ops, passed } => {
            Told::Ticked(ops.as_slice().len(), passed.as_slice().len())
        }
        Reply::Held => Told::Held,
        Reply::GaveUp => Told::GaveUp,
        Reply::Shipped(message) => of_body(&message.body),
        Reply::Heard(is_new) => Told::Heard(*is_new),
    }
}

/// The place of a result, and its short form.
fn of_answer<L: SiteName>(answer: &Result<Receipt<L>, LiveFault>) -> (u64, Told) {
    match answer {
        Ok(receipt) => (receipt.place, of_reply(&receipt.reply)),
        Err(LiveFault::Refused { place, why }) => (*place, Told::Refused(*why)),
        Err(fault) => (0, Told::Fault(*fault)),
    }
}

const PERMIT: Comes = Comes::Asked(Command::Permit {
    app: APP,
    node: ME,
    value: true,
});

const START: Comes = Comes::Asked(Command::Start { app: APP, node: ME });

const STOP: Comes = Comes::Asked(Command::Stop { app: APP, node: ME });

const DRAIN: Comes = Comes::Asked(Command::Drain {
    node: ME,
    value: true,
});

const DOWN: Comes = Comes::Asked(Command::Down { node: Q });

const TAKEOVER: Comes = Comes::Asked(Command::Takeover { app: APP });

/// An event and its result.
type Row = (Comes, Told);

const OFF: Told = Told::Refused(Refusal::Off);

/// All events, in order, with their results. The start gate waits for both other nodes.
const ROWS: &[Row] = &[
    // A node that is off refuses everything but a boot.
    (Comes::Crash, OFF),
    (PERMIT, OFF),
    (START, OFF),
    (STOP, OFF),
    (DRAIN, OFF),
    (DOWN, OFF),
    (TAKEOVER, OFF),
    (Comes::Tick(0), OFF),
    (Comes::Ship(Q), OFF),
    (Comes::Message(Q, ME, Brings::Whole(Issued::Up), 0), OFF),
    (Comes::Single(Q, Issued::Up), OFF),
    (Comes::Boot(0), Told::Booted(1)),
    (Comes::Boot(0), Told::Refused(Refusal::AlreadyOn)),
    // The gate waits, and opens after both others are known.
    (Comes::Tick(1), Told::Held),
    (Comes::Tick(0), Told::Refused(Refusal::MomentBack)),
    (Comes::Single(Q, Issued::Up), Told::Heard(true)),
    (Comes::Single(Q, Issued::Up), Told::Heard(false)),
    (
        Comes::Message(R, ME, Brings::Whole(Issued::Up), 0),
        Told::Heard(true),
    ),
    (
        Comes::Message(R, ME, Brings::Whole(Issued::Up), 0),
        Told::Heard(false),
    ),
    (
        Comes::Message(R, Q, Brings::Whole(Issued::Up), 0),
        Told::Refused(Refusal::NotForMe),
    ),
    (
        Comes::Message(ME, ME, Brings::Nothing, 0),
        Told::Refused(Refusal::OnSelf),
    ),
    // The application starts here, another node claims it, and it's taken back.
    (PERMIT, Told::Issued(2)),
    (TAKEOVER, Told::Refused(Refusal::NotEligible)),
    (START, Told::Issued(3)),
    (TAKEOVER, Told::Refused(Refusal::NotRunning)),
    (Comes::Tick(2), Told::Ticked(1, 0)),
    (Comes::Tick(2), Told::Ticked(0, 0)),
    (TAKEOVER, Told::Refused(Refusal::AlreadyHolder)),
    (Comes::Single(Q, Issued::Start), Told::Heard(true)),
    (Comes::Single(Q, Issued::Claim(2)), Told::Heard(true)),
    (TAKEOVER, Told::Issued(5)),
    // Each kind of body is shipped and received.
    (Comes::Ship(R), Told::Whole),
    (Comes::Ship(ME), Told::Refused(Refusal::OnSelf)),
    (
        Comes::Message(R, ME, Brings::Nothing, 2),
        Told::Heard(false),
    ),
    (Comes::Ship(R), Told::Interval),
    (
        Comes::Message(R, ME, Brings::Interval(Issued::Start), 9),
        Told::Heard(true),
    ),
    (Comes::Ship(R), Told::Interval),
    (
        Comes::Message(R, ME, Brings::Whole(Issued::Up), 10),
        Told::Heard(false),
    ),
    (Comes::Ship(R), Told::Nothing),
    (Comes::Ship(R), Told::Refused(Refusal::UpToDate)),
    // The other node claims at the last term and is lost. There's no term left for a failover, which is passed.
    (Comes::Single(Q, Issued::Claim(LAST)), Told::Heard(true)),
    (DOWN, Told::Issued(6)),
    (DOWN, Told::Refused(Refusal::NotLive)),
    (
        Comes::Asked(Command::Permit {
            app: APP,
            node: Q,
            value: true,
        }),
        Told::Refused(Refusal::NotLive),
    ),
    (
        Comes::Asked(Command::Start { app: APP, node: Q }),
        Told::Refused(Refusal::NotLive),
    ),
    (Comes::Tick(3), Told::Ticked(0, 0)),
    (Comes::Tick(5_003), Told::Ticked(0, 1)),
    // The node's own start ends, and the node is drained.
    (STOP, Told::Issued(7)),
    (
        Comes::Asked(Command::Stop {
            app: AppId(1),
            node: ME,
        }),
        Told::Refused(Refusal::UnknownApp),
    ),
    (DRAIN, Told::Issued(8)),
    (
        Comes::Asked(Command::Drain {
            node: NodeId(3),
            value: false,
        }),
        Told::Refused(Refusal::UnknownNode),
    ),
    // A crash, and a boot after which the gate gives up.
    (Comes::Crash, Told::Crashed),
    (Comes::Boot(10), Told::Booted(1)),
    (Comes::Tick(5_009), Told::Held),
    (Comes::Tick(5_010), Told::GaveUp),
    (Comes::Crash, OFF),
];

/// A row with another result: its index, the result, the page read, and the number of calls.
#[derive(Clone, Copy, Debug, PartialEq, Eq)]
struct Wrong {
    row: usize,
    place: u64,
    told: Told,
    page: Option<u64>,
    calls: usize,
}

/// The first row whose result, place, page or number of calls differs.
fn wrong_row<L: SiteName, R: Wait>(
    rt: &R,
    alloc: Global,
    site: &Site<L>,
    seat: &mut Seat<L>,
    reader: &mut PageReader<L>,
) -> Option<Wrong> {
    for row in 0..ROWS.len() {
        let (comes, wanted) = ROWS[row];
        let event = event(alloc, comes)?;
        let (place, told) = of_answer(&site.call(rt, seat, event));
        let page = match reader.read() {
            Some(page) => Some(page.place),
            None => None,
        };
        let next = row as u64 + 1;
        let calls = seat.calls().len();
        if place != next || told != wanted || page != Some(next) || calls != row + 1 {
            return Some(Wrong {
                row,
                place,
                told,
                page,
                calls,
            });
        }
    }
    None
}

/// True if the journal has these results.
fn are_recorded(closed: &Closed) -> bool {
    let records = closed.records();
    if records.len() != ROWS.len() {
        return false;
    }
    for i in 0..records.len() {
        let told = match &records[i].answer {
            Ok(reply) => of_reply(reply),
            Err(why) => Told::Refused(*why),
        };
        if told != ROWS[i].1 {
            return false;
        }
    }
    true
}

/// Opens a site with a seat and a reader, and runs all events. Returns the first wrong row, and whether the closed
/// journal has these results.
fn open_and_ask<L: SiteName, R: Wait>(
    rt: &R,
    alloc: Global,
    blank: SiteBlank,
) -> Option<(Option<Wrong>, bool)>
    requires { IsBlankOf blank L.name L.parts L.seats L.beginning }
{
    let (site, mut seats, mut readers) = open_site::<L, R>(rt, blank).ok()?;
    let (Some(seat), Some(reader)) = (seats.first_mut(), readers.first_mut()) else {
        return closed_with_none(rt, alloc, site);
    };
    let wrong = wrong_row(rt, alloc, &site, seat, reader);
    let closed = site.close(rt, seats).ok()?;
    Some((wrong, are_recorded(&closed)))
}

fn all_is_done<R: Wait>(rt: &R, alloc: Global) -> Option<(Option<Wrong>, bool)> {
    let config = read_config(alloc, EXAMPLE).ok()?;
    let blank = blank_site(rt, alloc, &config, ME, 0, 1, 1).ok()?;
    open_and_ask::<Brand, R>(rt, alloc, blank)
}

#[test]
fn a_site_does_everything(rt: HostRuntime) -> Result<(), Fail> {
    assert_eq!(rt; all_is_done(&rt, rt.alloc()), Some((None, true)));
    Ok(())
}
