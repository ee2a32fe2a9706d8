//! Opens up to four sites, each under a name of its own, runs them, and ends them.
//!
//! Each node has three functions, because each name is a type parameter. `at_first` makes the blank of its site and
//! names it. `with_first` opens the site and ends it. `run_at_first` runs all workers while the site is open;
//! `run_at_second` and later ones open the site of the node before theirs instead. So the last node's site is opened
//! first and ended last.

ghost use Rattle.dac_workers.specs.Sites.{IsBlankOf};

use crate::assignments::{Assignment, Shared};
use crate::endings::{Back, back_of, end_site};
use crate::phases::{Outcome, Phase};
use crate::setup::{CALLERS, LinkEnds, all_links, tasks_of};
use crate::tasks::{Nobody, Task};
use dac_base::NodeId;
use dac_config::Config;
use dac_run::{Either, Stop, Worker, joined, run_phases};
use dac_workers::{
    Gate, Gated, PageReader, RunFault, Seat, Site, SiteBlank, SiteName, Watch, blank_site,
    open_site,
};
use std::alloc::Global;
use std::marker::Brand;
use std::sync::Wait;
use std::thread::Threads;

/// The maximum number of nodes of a run.
pub const MAX_SITES: u8 = 4;

/// The blank of this node's site: a seat for each caller, two for each other node, and a reader for each caller and for
/// the final page.
fn blank_of<H: Watch, R: Wait>(
    rt: &R,
    shared: &Shared<'_, H>,
    node: NodeId,
) -> Result<SiteBlank, RunFault> {
    let others = u16::from(shared.nodes).saturating_sub(1);
    let seats = u16::from(CALLERS) + 2 * others;
    let readers = u16::from(CALLERS) + 1;
    match blank_site(rt, shared.alloc, shared.config, node, 0, seats, readers) {
        Ok(blank) => Ok(blank),
        Err(fault) => Err(RunFault::Open(fault)),
    }
}

fn fault_of(stop: Stop<RunFault>) -> RunFault {
    match stop {
        Stop::NoThread => RunFault::NoThread,
        Stop::NoMemory => RunFault::NoMemory,
        Stop::Fault(fault) => fault,
    }
}

/// The workers of the other sites, followed by the tasks of this one.
fn with_tasks<'a, L: SiteName, H: Watch, W: Drop>(
    shared: &Shared<'a, H>,
    assignment: &'a Assignment<'a, L>,
    seats: Vec<Seat<L>>,
    readers: &mut Vec<PageReader<L>>,
    ends: &mut Vec<LinkEnds>,
    rest: Vec<W>,
) -> Result<Vec<Either<W, Task<'a, L, H>>>, RunFault> {
    let tasks = tasks_of(shared, assignment, seats, readers, ends)?;
    let all = joined(shared.alloc, rest, tasks)?;
    Ok(all)
}

/// Runs all phases with all workers. The outcome is still empty.
fn run_all<W: Worker<Fault = RunFault>, H: Watch, R: Threads + Wait + Sync>(
    rt: &R,
    shared: &Shared<'_, H>,
    workers: Vec<W>,
) -> Result<(Vec<W>, Outcome), RunFault> {
    let alloc = shared.alloc;
    let outcome = Outcome {
        closed: Vec::new(alloc),
        pages: Vec::new(alloc),
        seen: Vec::new(alloc),
    };
    match run_phases(rt, alloc, shared.nodes, shared.phases.len(), workers) {
        Ok(workers) => Ok((workers, outcome)),
        Err(stop) => Err(fault_of(stop)),
    }
}

fn run_at_first<
    L: SiteName + Send + Sync,
    W: Worker<Fault = RunFault>,
    H: Watch + Sync,
    R: Threads + Wait + Sync,
>(
    rt: &R,
    shared: &Shared<'_, H>,
    site: &Site<L>,
    seats: Vec<Seat<L>>,
    readers: &mut Vec<PageReader<L>>,
    mut ends: Vec<LinkEnds>,
    rest: Vec<W>,
) -> Result<Back<L, W>, RunFault> {
    let assignment = Assignment::at(shared, NodeId(0), site);
    let all = with_tasks(shared, &assignment, seats, readers, &mut ends, rest)?;
    let (all, outcome) = run_all(rt, shared, all)?;
    back_of(shared.alloc, NodeId(0), all, outcome)
}

fn with_first<
    L: SiteName + Send + Sync,
    W: Worker<Fault = RunFault>,
    H: Watch + Sync,
    R: Threads + Wait + Sync,
>(
    rt: &R,
    shared: &Shared<'_, H>,
    blank: SiteBlank,
    ends: Vec<LinkEnds>,
    rest: Vec<W>,
) -> Result<(Vec<W>, Outcome), RunFault>
    requires { IsBlankOf blank L.name L.parts L.seats L.beginning }
{
    let (site, seats, mut readers) = open_site::<L, R>(rt, blank)?;
    let back = run_at_first(rt, shared, &site, seats, &mut readers, ends, rest);
    end_site(rt, shared, NodeId(0), site, readers.pop(), back)
}

fn at_first<W: Worker<Fault = RunFault>, H: Watch + Sync, R: Threads + Wait + Sync>(
    rt: &R,
    shared: &Shared<'_, H>,
    ends: Vec<LinkEnds>,
    rest: Vec<W>,
) -> Result<(Vec<W>, Outcome), RunFault> {
    let blank = blank_of(rt, shared, NodeId(0))?;
    with_first::<Brand, W, H, R>(rt, shared, blank, ends, rest)
}

fn run_at_second<
    L: SiteName + Send + Sync,
    W: Worker<Fault = RunFault>,
    H: Watch + Sync,
    R: Threads + Wait + Sync,
>(
    rt: &R,
    shared: &Shared<'_, H>,
    site: &Site<L>,
    seats: Vec<Seat<L>>,
    readers: &mut Vec<PageReader<L>>,
    mut ends: Vec<LinkEnds>,
    rest: Vec<W>,
) -> Result<Back<L, W>, RunFault> {
    let assignment = Assignment::at(shared, NodeId(1), site);
    let all = with_tasks(shared, &assignment, seats, readers, &mut ends, rest)?;
    let (all, outcome) = at_first(rt, shared, ends, all)?;
    back_of(shared.alloc, NodeId(1), all, outcome)
}

fn with_second<
    L: SiteName + Send + Sync,
    W: Worker<Fault = RunFault>,
    H: Watch + Sync,
    R: Threads + Wait + Sync,
>(
    rt: &R,
    shared: &Shared<'_, H>,
    blank: SiteBlank,
    ends: Vec<LinkEnds>,
    rest: Vec<W>,
) -> Result<(Vec<W>, Outcome), RunFault>
    requires { IsBlankOf blank L.name L.parts L.seats L.beginning }
{
    let (site, seats, mut readers) = open_site::<L, R>(rt, blank)?;
    let back = run_at_second(rt, shared, &site, seats, &mut readers, ends, rest);
    end_site(rt, shared, NodeId(1), site, readers.pop(), back)
}

fn at_second<W: Worker<Fault = RunFault>, H: Watch + Sync, R: Threads + Wait + Sync>(
    rt: &R,
    shared: &Shared<'_, H>,
    ends: Vec<LinkEnds>,
    rest: Vec<W>,
) -> Result<(Vec<W>, Outcome), RunFault> {
    let blank = blank_of(rt, shared, NodeId(1))?;
    with_second::<Brand, W, H, R>(rt, shared, blank, ends, rest)
}

fn run_at_third<
    L: SiteName + Send + Sync,
    W: Worker<Fault = RunFault>,
    H: Watch + Sync,
    R: Threads + Wait + Sync,
>(
    rt: &R,
    shared: &Shared<'_, H>,
    site: &Site<L>,
    seats: Vec<Seat<L>>,
    readers: &mut Vec<PageReader<L>>,
    mut ends: Vec<LinkEnds>,
    rest: Vec<W>,
) -> Result<Back<L, W>, RunFault> {
    let assignment = Assignment::at(shared, NodeId(2), site);
    let all = with_tasks(shared, &assignment, seats, readers, &mut ends, rest)?;
    let (all, outcome) = at_second(rt, shared, ends, all)?;
    back_of(shared.alloc, NodeId(2), all, outcome)
}

fn with_third<
    L: SiteName + Send + Sync,
    W: Worker<Fault = RunFault>,
    H: Watch + Sync,
    R: Threads + Wait + Sync,
>(
    rt: &R,
    shared: &Shared<'_, H>,
    blank: SiteBlank,
    ends: Vec<LinkEnds>,
    rest: Vec<W>,
) -> Result<(Vec<W>, Outcome), RunFault>
    requires { IsBlankOf blank L.name L.parts L.seats L.beginning }
{
    let (site, seats, mut readers) = open_site::<L, R>(rt, blank)?;
    let back = run_at_third(rt, shared, &site, seats, &mut readers, ends, rest);
    end_site(rt, shared, NodeId(2), site, readers.pop(), back)
}

fn at_third<W: Worker<Fault = RunFault>, H: Watch + Sync, R: Threads + Wait + Sync>(
    rt: &R,
    shared: &Shared<'_, H>,
    ends: Vec<LinkEnds>,
    rest: Vec<W>,
) -> Result<(Vec<W>, Outcome), RunFault> {
    let blank = blank_of(rt, shared, NodeId(2))?;
    with_third::<Brand, W, H, R>(rt, shared, blank, ends, rest)
}

fn run_at_fourth<
    L: SiteName + Send + Sync,
    W: Worker<Fault = RunFault>,
    H: Watch + Sync,
    R: Threads + Wait + Sync,
>(
    rt: &R,
    shared: &Shared<'_, H>,
    site: &Site<L>,
    seats: Vec<Seat<L>>,
    readers: &mut Vec<PageReader<L>>,
    mut ends: Vec<LinkEnds>,
    rest: Vec<W>,
) -> Result<Back<L, W>, RunFault> {
    let assignment = Assignment::at(shared, NodeId(3), site);
    let all = with_tasks(shared, &assignment, seats, readers, &mut ends, rest)?;
    let (all, outcome) = at_third(rt, shared, ends, all)?;
    back_of(shared.alloc, NodeId(3), all, outcome)
}

fn with_fourth<
    L: SiteName + Send + Sync,
    W: Worker<Fault = RunFault>,
    H: Watch + Sync,
    R: Threads + Wait + Sync,
>(
    rt: &R,
    shared: &Shared<'_, H>,
    blank: SiteBlank,
    ends: Vec<LinkEnds>,
    rest: Vec<W>,
) -> Result<(Vec<W>, Outcome), RunFault>
    requires { IsBlankOf blank L.name L.parts L.seats L.beginning }
{
    let (site, seats, mut readers) = open_site::<L, R>(rt, blank)?;
    let back = run_at_fourth(rt, shared, &site, seats, &mut readers, ends, rest);
    end_site(rt, shared, NodeId(3), site, readers.pop(), back)
}

fn at_fourth<W: Worker<Fault = RunFault>, H: Watch + Sync, R: Threads + Wait + Sync>(
    rt: &R,
    shared: &Shared<'_, H>,
    ends: Vec<LinkEnds>,
    rest: Vec<W>,
) -> Result<(Vec<W>, Outcome), RunFault> {
    let blank = blank_of(rt, shared, NodeId(3))?;
    with_fourth::<Brand, W, H, R>(rt, shared, blank, ends, rest)
}

/// Runs the phases at the sites of all nodes. Fails with `TooManyNodes` if there are more than four, with `NoThread` if
/// a thread can't be spawned, and otherwise with the fault of a site or of a worker.
pub fn run_sites<G: Gate, R: Threads + Wait + Sync>(
    rt: &R,
    alloc: Global,
    config: &Config,
    phases: &[Phase],
    gate: &G,
) -> Result<Outcome, RunFault> {
    let nodes = config.nodes();
    if nodes > MAX_SITES {
        return Err(RunFault::TooManyNodes);
    }
    let ends = all_links(alloc, nodes)?;
    let watch = Gated { gate };
    let shared = Shared {
        alloc,
        config,
        phases,
        watch: &watch,
        nodes,
    };
    let none: Vec<Nobody> = Vec::new(alloc);
    let (_none, outcome) = match nodes {
        4 => at_fourth(rt, &shared, ends, none)?,
        3 => at_third(rt, &shared, ends, none)?,
        2 => at_second(rt, &shared, ends, none)?,
        _ => at_first(rt, &shared, ends, none)?,
    };
    Ok(outcome)
}
