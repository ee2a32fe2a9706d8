//! Journals that can be woven.
use crate::journals::{ask, close_all, example, journal, tell};
use dac_base::{AppId, NodeId};
use dac_events::{Command, What, WorldEvent};
use dac_journal::{Answer, Closed, Journal};
use dac_messages::{Event, Reply};
use dac_weave::weave;
use std::alloc::Global;
use std::test::Fail;

/// An anti-entropy round of three nodes.
fn tell_all(p: &mut Journal, q: &mut Journal, r: &mut Journal) -> Option<()> {
    tell(p, q, 1)?;
    tell(p, r, 2)?;
    tell(q, p, 0)?;
    tell(q, r, 2)?;
    tell(r, p, 0)?;
    tell(r, q, 1)
}

/// The ships of a phase: five rounds.
fn ship_phase(p: &mut Journal, q: &mut Journal, r: &mut Journal) -> Option<()> {
    for _time in 0..5u32 {
        tell_all(p, q, r)?;
    }
    Some(())
}

fn command(journal: &mut Journal, command: Command) -> Option<()> {
    let _answer = ask(journal, Event::Command(command))?;
    Some(())
}

fn start(journal: &mut Journal, node: u8) -> Option<()> {
    command(
        journal,
        Command::Start {
            app: AppId(0),
            node: NodeId(node),
        },
    )
}

fn permit(journal: &mut Journal, node: u8, value: bool) -> Option<()> {
    command(
        journal,
        Command::Permit {
            app: AppId(0),
            node: NodeId(node),
            value,
        },
    )
}

/// Boots each of three nodes at time 0.
fn boot_all(p: &mut Journal, q: &mut Journal, r: &mut Journal) -> Option<()> {
    let _up = ask(p, Event::Boot { now: 0 })?;
    let _up = ask(q, Event::Boot { now: 0 })?;
    let _up = ask(r, Event::Boot { now: 0 })?;
    Some(())
}

/// Starts the application at each of three nodes, and permits or forbids it at each.
fn wish_all(p: &mut Journal, q: &mut Journal, r: &mut Journal) -> Option<()> {
    start(p, 0)?;
    permit(p, 2, true)?;
    start(q, 1)?;
    permit(q, 1, false)?;
    start(r, 2)?;
    permit(r, 0, true)
}

/// The journals of the script `PHASES` of `program_tests` in one order of its threads: three nodes boot, are commanded,
/// and two of them tick.
fn three_phases(alloc: Global) -> Option<Vec<Closed>> {
    let mut p = journal(alloc, 0, 0)?;
    let mut q = journal(alloc, 1, 0)?;
    let mut r = journal(alloc, 2, 0)?;
    boot_all(&mut p, &mut q, &mut r)?;
    ship_phase(&mut p, &mut q, &mut r)?;
    wish_all(&mut p, &mut q, &mut r)?;
    ship_phase(&mut p, &mut q, &mut r)?;
    let _tick = ask(&mut p, Event::Tick { now: 100 })?;
    let _tick = ask(&mut q, Event::Tick { now: 100 })?;
    ship_phase(&mut p, &mut q, &mut r)?;
    close_all(alloc, [r, p, q])
}

/// The number of records in the three journals, and of events woven from them.
fn count_three(alloc: Global) -> Option<(usize, usize)> {
    let config = example(alloc)?;
    let journals = three_phases(alloc)?;
    let mut records = 0usize;
    for journal in &journals {
        records = records.saturating_add(journal.records().len());
    }
    let events = weave(alloc, &config, journals.as_slice()).ok()?;
    Some((records, events.len()))
}

/// The events of two nodes, the receiver's journal first. It receives the other's message, and the operation of its
/// boot on its own.
fn two_nodes(alloc: Global) -> Option<Vec<WorldEvent>> {
    let config = example(alloc)?;
    let mut p = journal(alloc, 0, 0)?;
    let mut q = journal(alloc, 1, 0)?;
    let _up = ask(&mut q, Event::Boot { now: 5 })?;
    let booted = ask(&mut p, Event::Boot { now: 3 })?;
    tell(&mut p, &mut q, 1)?;
    hand(&mut q, &booted)?;
    let journals = close_all(alloc, [q, p])?;
    weave(alloc, &config, journals.as_slice()).ok()
}

/// Delivers the operation of a boot on its own.
fn hand(journal: &mut Journal, booted: &Answer) -> Option<()> {
    if let Ok(Reply::Booted(operation)) = booted {
        let copied = operation.copy().ok()?;
        let _heard = ask(journal, Event::HearOp(copied))?;
        return Some(());
    }
    None
}

fn event(node: u8, what: What) -> WorldEvent {
    WorldEvent {
        node: NodeId(node),
        what,
    }
}

/// True if these are the wanted events, in order: the weave stays with a journal as long as possible.
fn are_five(events: &[WorldEvent]) -> bool {
    let wanted = [
        event(1, What::Boot { now: 5 }),
        event(0, What::Boot { now: 3 }),
        event(0, What::Ship { to: NodeId(1) }),
        event(1, What::Deliver(1)),
        event(1, What::Hand(2)),
    ];
    if events.len() != wanted.len() {
        return false;
    }
    for i in 0..wanted.len() {
        if events[i] != wanted[i] {
            return false;
        }
    }
    true
}

#[test]
fn three_journals(rt: HostRuntime) -> Result<(), Fail> {
    assert_eq!(rt; count_three(rt.alloc()), Some((136, 136)));
    Ok(())
}

#[test]
fn two_journals(rt: HostRuntime) -> Result<(), Fail> {
    let events = two_nodes(rt.alloc());
    let right = match &events {
        Some(events) => are_five(events.as_slice()),
        None => false,
    };
    assert!(rt; right);
    Ok(())
}
