//! Seats and link ends of the workers of a site.

ghost use Rattle.std.specs.Prelude.{◌≡◌, IfOk, OnOk};
ghost use Rattle.crossbeam_channel.specs.Ends.{sends_on, ruled_capacity};
ghost use Rattle.dac_crews.specs.Rooms.{HaveRoom};

use crate::assignments::{Assignment, Shared};
use crate::tasks::{Caller, LinkWorker, Shipper, Task};
use dac_base::{NoMemory, NodeId};
use dac_links::{LinkReceiver, LinkSender, link};
use dac_workers::{CloseFault, PageReader, RunFault, Seat, SiteName, Watch};
use std::alloc::Global;

/// The number of callers of each node.
pub const CALLERS: u8 = 4;

/// The number of letters that a link can hold.
pub const ROOM: usize = 64;

/// The link ends of one node.
#[derive(Drop)]
pub(crate) struct LinkEnds {
    /// The ends of the links to each other node, in order of name.
    outs: Vec<(NodeId, LinkSender)>,
    /// The ends of the links from each other node, in order of name.
    ins: Vec<(NodeId, LinkReceiver)>,
}

/// Makes the links between this many nodes. Returns the ends for each node, in order of name.
pub(crate) fn all_links(alloc: Global, nodes: u8) -> Result<Vec<LinkEnds>, RunFault>
    ensures { IfOk result (λ all. HaveRoom all.items) }
{
    let mut all = Vec::new(alloc);
    for _node in 0..nodes {
        all.push(LinkEnds {
            outs: Vec::new(alloc),
            ins: Vec::new(alloc),
        })?;
    }
    for from in 0..nodes {
        put_links_of(alloc, &mut all, nodes, NodeId(from))?;
    }
    Ok(all)
}

/// Makes the links from this node to each other one.
fn put_links_of(
    alloc: Global,
    all: &mut Vec<LinkEnds>,
    nodes: u8,
    from: NodeId,
) -> Result<(), RunFault>
    requires { HaveRoom all.old.items }
    ensures { OnOk result (HaveRoom all.new.items) }
{
    for to in 0..nodes {
        if from.0 != to {
            put_link(alloc, all, from, NodeId(to))?;
        }
    }
    Ok(())
}

/// Makes a link, and gives its ends to the two nodes.
fn put_link(
    alloc: Global,
    all: &mut Vec<LinkEnds>,
    from: NodeId,
    to: NodeId,
) -> Result<(), RunFault>
    requires { HaveRoom all.old.items }
    ensures { OnOk result (HaveRoom all.new.items) }
{
    let Ok((out, into)) = link(alloc, ROOM) else {
        return Err(RunFault::NoMemory);
    };
    put_out(all, from, to, out)?;
    put_in(all, from, to, into)
}

/// Gives the sending end to the node that ships, or fails with `LinkLost` if there is none.
fn put_out(
    all: &mut Vec<LinkEnds>,
    from: NodeId,
    to: NodeId,
    out: LinkSender,
) -> Result<(), RunFault>
    requires all { HaveRoom all.old.items }
    requires one { ruled_capacity (sends_on out.end) ≡ 64 }
    ensures { OnOk result (HaveRoom all.new.items) }
{
    match all.get_mut(usize::from(from.0)) {
        Some(ends) => {
            ends.outs.push((to, out))?;
            Ok(())
        }
        None => Err(RunFault::LinkLost { from, to }),
    }
}

/// Gives the receiving end to the node that hears, or fails with `LinkLost` if there is none.
fn put_in(
    all: &mut Vec<LinkEnds>,
    from: NodeId,
    to: NodeId,
    into: LinkReceiver,
) -> Result<(), RunFault>
    requires { HaveRoom all.old.items }
    ensures { OnOk result (HaveRoom all.new.items) }
{
    match all.get_mut(usize::from(to.0)) {
        Some(ends) => {
            ends.ins.push((from, into))?;
            Ok(())
        }
        None => Err(RunFault::LinkLost { from, to }),
    }
}

/// Takes the next seat, the last of the list.
fn next_seat<L: SiteName>(node: NodeId, seats: &mut Vec<Seat<L>>) -> Result<Seat<L>, RunFault> {
    match seats.pop() {
        Some(seat) => Ok(seat),
        None => {
            let why = CloseFault::SeatMissing;
            Err(RunFault::Close { node, why })
        }
    }
}

/// A caller with the next seat and the next reader.
fn caller_of<'a, L: SiteName>(
    assignment: &'a Assignment<'a, L>,
    seats: &mut Vec<Seat<L>>,
    readers: &mut Vec<PageReader<L>>,
) -> Result<Caller<'a, L>, RunFault> {
    let seat = next_seat(assignment.node, seats)?;
    match readers.pop() {
        Some(reader) => Ok(Caller {
            assignment,
            seat,
            reader,
            last: None,
            reads: Vec::new(assignment.alloc),
        }),
        None => Err(RunFault::NoPage {
            node: assignment.node,
        }),
    }
}

/// A shipper to another node, with the next seat.
fn shipper_of<'a, L: SiteName>(
    assignment: &'a Assignment<'a, L>,
    seats: &mut Vec<Seat<L>>,
    to: NodeId,
    out: LinkSender,
) -> Result<Shipper<'a, L>, RunFault> {
    let seat = next_seat(assignment.node, seats)?;
    Ok(Shipper {
        assignment,
        to,
        seat,
        out,
    })
}

/// A link worker for the other node, with the next seat. Without a link end it fails with `LinkLost`.
fn link_worker_of<'a, L: SiteName, H: Watch>(
    assignment: &'a Assignment<'a, L>,
    watch: &'a H,
    seats: &mut Vec<Seat<L>>,
    other: NodeId,
    end: Option<(NodeId, LinkReceiver)>,
) -> Result<LinkWorker<'a, L, H>, RunFault> {
    let seat = next_seat(assignment.node, seats)?;
    match end {
        Some((from, link)) => Ok(LinkWorker {
            assignment,
            watch,
            from,
            seat,
            link,
        }),
        None => Err(RunFault::LinkLost {
            from: other,
            to: assignment.node,
        }),
    }
}

/// The callers of a site, with the first seats and a reader each.
fn callers_of<'a, L: SiteName, H: Watch>(
    assignment: &'a Assignment<'a, L>,
    seats: &mut Vec<Seat<L>>,
    readers: &mut Vec<PageReader<L>>,
) -> Result<Vec<Task<'a, L, H>>, RunFault> {
    let mut tasks = Vec::new(assignment.alloc);
    for _count in 0..CALLERS {
        let caller = caller_of(assignment, seats, readers)?;
        tasks.push(Task::Call(caller))?;
    }
    Ok(tasks)
}

/// The link workers and the shippers for the other nodes, in order of name, with the seats after the callers'.
fn link_tasks_of<'a, L: SiteName, H: Watch>(
    assignment: &'a Assignment<'a, L>,
    watch: &'a H,
    seats: &mut Vec<Seat<L>>,
    ends: LinkEnds,
) -> Result<(Vec<Task<'a, L, H>>, Vec<Task<'a, L, H>>), RunFault> {
    let LinkEnds { outs, mut ins } = ends;
    ins.reverse();
    let mut hears = Vec::new(assignment.alloc);
    let mut ships = Vec::new(assignment.alloc);
    for (to, out) in outs {
        let shipper = shipper_of(assignment, seats, to, out)?;
        ships.push(Task::Ship(shipper))?;
        let listener = link_worker_of(assignment, watch, seats, to, ins.pop())?;
        hears.push(Task::Hear(listener))?;
    }
    Ok((hears, ships))
}

fn one_list<T: Drop>(
    mut all: Vec<T>,
    mut second: Vec<T>,
    mut third: Vec<T>,
) -> Result<Vec<T>, NoMemory> {
    all.append(&mut second)?;
    all.append(&mut third)?;
    Ok(all)
}

/// The tasks of a site: link workers, shippers, callers. The last of several causes is reported, so a caller's wins.
fn tasks_of_all<'a, L: SiteName, H: Watch>(
    assignment: &'a Assignment<'a, L>,
    watch: &'a H,
    mut seats: Vec<Seat<L>>,
    readers: &mut Vec<PageReader<L>>,
    ends: LinkEnds,
) -> Result<Vec<Task<'a, L, H>>, RunFault> {
    seats.reverse();
    let callers = callers_of(assignment, &mut seats, readers)?;
    let (hears, ships) = link_tasks_of(assignment, watch, &mut seats, ends)?;
    let tasks = one_list(hears, ships, callers)?;
    Ok(tasks)
}

/// The tasks of a site, with the last link ends in the list, because sites are opened from the last node to the first.
pub(crate) fn tasks_of<'a, L: SiteName, H: Watch>(
    shared: &Shared<'a, H>,
    assignment: &'a Assignment<'a, L>,
    seats: Vec<Seat<L>>,
    readers: &mut Vec<PageReader<L>>,
    all: &mut Vec<LinkEnds>,
) -> Result<Vec<Task<'a, L, H>>, RunFault> {
    match all.pop() {
        Some(ends) => tasks_of_all(assignment, shared.watch, seats, readers, ends),
        None => Err(RunFault::NoPage {
            node: assignment.node,
        }),
    }
}
