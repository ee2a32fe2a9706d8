//! A phase of all workers, and the serial round after it.

ghost use Rattle.std.specs.Prelude.{◌≡◌, ◌⊎◌, true, false, map, None, Ok, IfOk, IfErr, IfSome};
ghost use Rattle.std.specs.Thread.{IsSend};
ghost use Rattle.dac_run.specs.Told.{IsTold};
ghost use Rattle.dac_run.specs.declared.worker.Stop.TheVariants.{Fault, NoMemory as WantOfMemory};

use crate::worker::{Side, Stop, Turn, Worker};
use dac_base::{NoMemory, NodeId};
use std::alloc::Global;
use std::sync::Wait;
use std::thread;
use std::thread::{JoinHandle, Scope, Threads};

#[derive(Drop)]
enum Started<W: Worker> {
    /// It has no work in this phase, and no thread.
    Idle(W),
    /// It works in this thread.
    Busy(JoinHandle<Result<W, W::Fault>>),
}

/// Spawns the worker's thread, if it has work in this phase.
fn start<'s, E, W: Worker + 's, R: Threads + Wait + Sync>(
    scope: &Scope<'s, E>,
    rt: &'s R,
    phase: usize,
    worker: W,
) -> Result<Started<W>, Stop<W::Fault>> {
    if !worker.works_in(phase) {
        return Ok(Started::Idle(worker));
    }
    match scope.spawn(move || worker.work(rt, phase)) {
        Ok(handle) => Ok(Started::Busy(handle)),
        Err(_) => Err(Stop::NoThread),
    }
}

fn start_all<'s, E, W: Worker + 's, R: Threads + Wait + Sync>(
    scope: &Scope<'s, E>,
    rt: &'s R,
    alloc: Global,
    phase: usize,
    workers: Vec<W>,
) -> Result<Vec<Started<W>>, Stop<W::Fault>> {
    let mut all = Vec::new(alloc);
    for worker in workers {
        let started = start(scope, rt, phase, worker)?;
        all.push(started)?;
    }
    Ok(all)
}

fn ended<W: Worker, R: Threads + Wait>(rt: &R, started: Started<W>) -> Result<W, W::Fault> {
    match started {
        Started::Idle(worker) => Ok(worker),
        Started::Busy(handle) => handle.join(rt),
    }
}

/// The fault to report after one more: a cause replaces the fault so far, and a consequence doesn't.
fn louder<W: Worker>(told: Option<W::Fault>, fault: W::Fault) -> W::Fault
    ensures cause { W.is_cause fault ≡ true → result ≡ fault }
    ensures kept { W.is_cause fault ≡ false → IfSome told (λ before. result ≡ before) }
    ensures alone { told ≡ None → result ≡ fault }
{
    match told {
        Some(before) if !W::is_cause(&fault) => before,
        _ => fault,
    }
}

/// The workers of a phase, in order, if none of them failed. Of several faults it returns the last cause, or the first
/// fault if none is a cause, so that whether a cause is returned doesn't depend on the order of the workers.
///
/// Fails with `NoMemory` if the list of workers can't grow, and never with `NoThread`.
pub fn workers_of<W: Worker>(
    alloc: Global,
    outcomes: Vec<Result<W, W::Fault>>,
) -> Result<Vec<W>, Stop<W::Fault>>
    ensures ok { IfOk result (λ workers. map Ok workers.items ≡ outcomes.items) }
    ensures err { IfErr result (λ stop. (stop ≡ WantOfMemory) ⊎ ((fault : _)
        × (stop ≡ Fault fault) × IsTold W.is_cause outcomes.items fault)) }
{
    let mut workers = Vec::new(alloc);
    let mut told = None;
    for outcome in outcomes {
        match outcome {
            Ok(worker) => workers.push(worker)?,
            Err(fault) => told = Some(louder::<W>(told, fault)),
        }
    }
    match told {
        Some(fault) => Err(Stop::Fault(fault)),
        None => Ok(workers),
    }
}

fn join_all<W: Worker, R: Threads + Wait>(
    rt: &R,
    alloc: Global,
    all: Vec<Started<W>>,
) -> Result<Vec<Result<W, W::Fault>>, NoMemory> {
    let mut outcomes = Vec::new(alloc);
    outcomes.reserve(all.len())?;
    for started in all {
        outcomes.push(ended(rt, started))?;
    }
    Ok(outcomes)
}

/// Runs all workers with work concurrently, each in its own thread, and joins them.
fn run_phase<W: Worker, R: Threads + Wait + Sync>(
    rt: &R,
    alloc: Global,
    phase: usize,
    workers: Vec<W>,
) -> Result<Vec<W>, Stop<W::Fault>> {
    thread::scope(
        thread::scope_env(),
        rt,
        |scope|
            requires { IsSend W.row }
        {
            let all = start_all(scope, rt, alloc, phase, workers)?;
            let outcomes = join_all(rt, alloc, all)?;
            workers_of(alloc, outcomes)
        },
    )
}

/// Gives the turn to the workers that have a part in it.
fn take<W: Worker, R: Wait>(
    rt: &R,
    workers: &mut Vec<W>,
    turn: Turn,
) -> Result<(), Stop<W::Fault>> {
    for worker in workers {
        match worker.take_turn(rt, turn) {
            Ok(()) => {}
            Err(fault) => return Err(Stop::Fault(fault)),
        }
    }
    Ok(())
}

/// The two turns of a link: it ships, then it hears.
fn take_both<W: Worker, R: Wait>(
    rt: &R,
    workers: &mut Vec<W>,
    from: NodeId,
    to: NodeId,
) -> Result<(), Stop<W::Fault>> {
    let side = Side::Ship;
    take(rt, workers, Turn { from, to, side })?;
    let side = Side::Hear;
    take(rt, workers, Turn { from, to, side })
}

/// The serial round after a phase: the links of all ordered pairs of nodes, in order of name.
fn last_round<W: Worker, R: Wait>(
    rt: &R,
    nodes: u8,
    workers: &mut Vec<W>,
) -> Result<(), Stop<W::Fault>> {
    for from in 0..nodes {
        for to in 0..nodes {
            if from != to {
                take_both(rt, workers, NodeId(from), NodeId(to))?;
            }
        }
    }
    Ok(())
}

/// Runs this many phases, each with the serial round after it, and returns the workers in order.
///
/// Fails with `NoThread` if a thread can't be spawned, with `NoMemory` if the list of workers can't grow, and with
/// `Fault` if a worker does.
pub fn run_phases<W: Worker, R: Threads + Wait + Sync>(
    rt: &R,
    alloc: Global,
    nodes: u8,
    phases: usize,
    workers: Vec<W>,
) -> Result<Vec<W>, Stop<W::Fault>> {
    let mut workers = workers;
    for phase in 0..phases {
        workers = run_phase(rt, alloc, phase, workers)?;
        last_round(rt, nodes, &mut workers)?;
    }
    Ok(workers)
}
