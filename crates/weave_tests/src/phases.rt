//! Journals in phases.

ghost use Rattle.std.specs.Prelude.{IfOk};
ghost use Rattle.dac_weave.specs.Cut.{rows_of, AreEnds};

use crate::copies::{delivered, hear, shipped};
use crate::journals::{ask, ask_as, close_all, example, journal, tell};
use dac_base::{NoMemory, NodeId};
use dac_events::WorldEvent;
use dac_journal::Closed;
use dac_messages::Event;
use dac_weave::{WeaveFault, Woven, weave, weave_phases};
use std::alloc::Global;
use std::test::Fail;

/// The ends of two phases: the first one has this many records of each journal, if there are so many.
fn two_ends(
    alloc: Global,
    journals: &[Closed],
    first: [usize; 2],
) -> Result<Vec<Vec<usize>>, NoMemory>
    ensures { IfOk result (λ ends. AreEnds journals.now (rows_of ends.items)) }
{
    let mut early = Vec::new(alloc);
    let mut whole = Vec::new(alloc);
    for i in 0..journals.len() {
        let count = journals[i].records().len();
        let end = match first.get(i) {
            Some(end) => *end,
            None => 0,
        };
        early.push(count.min(end))?;
        whole.push(count)?;
    }
    let mut ends = Vec::new(alloc);
    ends.push(early)?;
    ends.push(whole)?;
    Ok(ends)
}

/// Weaves two journals in two phases, of which the first one has this many records of each.
fn woven(alloc: Global, journals: &[Closed], first: [usize; 2]) -> Result<Woven, WeaveFault> {
    let Some(config) = example(alloc) else {
        return Err(WeaveFault::NoMemory);
    };
    let ends = two_ends(alloc, journals, first)?;
    weave_phases(alloc, &config, journals, &ends)
}

/// Two nodes boot and tick, each by a seat of its own.
fn two_tick(alloc: Global) -> Option<Vec<Closed>> {
    let mut p = journal(alloc, 0, 0)?;
    let mut q = journal(alloc, 1, 0)?;
    let _up = ask_as(&mut p, 2, Event::Boot { now: 0 })?;
    let _up = ask_as(&mut q, 3, Event::Boot { now: 0 })?;
    let _tick = ask_as(&mut p, 4, Event::Tick { now: 10 })?;
    let _tick = ask_as(&mut q, 1, Event::Tick { now: 10 })?;
    close_all(alloc, [p, q])
}

/// Two nodes boot, and the second receives a message of the first.
fn one_tells(alloc: Global) -> Option<Vec<Closed>> {
    let mut p = journal(alloc, 0, 0)?;
    let mut q = journal(alloc, 1, 0)?;
    let _up = ask(&mut p, Event::Boot { now: 0 })?;
    let _up = ask(&mut q, Event::Boot { now: 0 })?;
    tell(&mut p, &mut q, 1)?;
    close_all(alloc, [p, q])
}

/// The nodes of four events.
fn nodes_of(events: &[WorldEvent]) -> Option<[u8; 4]> {
    match events {
        [a, b, c, d] => Some([a.node.0, b.node.0, c.node.0, d.node.0]),
        _ => None,
    }
}

fn four_of(seats: &[u16]) -> Option<[u16; 4]> {
    match seats {
        [a, b, c, d] => Some([*a, *b, *c, *d]),
        _ => None,
    }
}

fn two_of(bounds: &[usize]) -> Option<[usize; 2]> {
    match bounds {
        [a, b] => Some([*a, *b]),
        _ => None,
    }
}

/// The nodes of the events, their seats, and the bounds of the phases, in which both nodes boot and both tick.
fn both_phases(alloc: Global) -> Option<([u8; 4], [u16; 4], [usize; 2])> {
    let journals = two_tick(alloc)?;
    let run = woven(alloc, journals.as_slice(), [1, 1]).ok()?;
    let nodes = nodes_of(run.events.as_slice())?;
    let seats = four_of(run.seats.as_slice())?;
    let bounds = two_of(run.bounds.as_slice())?;
    Some((nodes, seats, bounds))
}

/// The nodes of the events without phases.
fn no_phases(alloc: Global) -> Option<[u8; 4]> {
    let config = example(alloc)?;
    let journals = two_tick(alloc)?;
    let events = weave(alloc, &config, journals.as_slice()).ok()?;
    nodes_of(events.as_slice())
}

/// The fault if the message is received in the first phase, and shipped in the second.
fn heard_too_early(alloc: Global) -> Option<WeaveFault> {
    let journals = one_tells(alloc)?;
    woven(alloc, journals.as_slice(), [1, 2]).err()
}

/// The bounds if the message is received in the second phase, and shipped in the first.
fn heard_later(alloc: Global) -> Option<[usize; 2]> {
    let journals = one_tells(alloc)?;
    let run = woven(alloc, journals.as_slice(), [2, 1]).ok()?;
    two_of(run.bounds.as_slice())
}

/// A node ships `ships` equal messages, and another one hears the first of them twice. Returns the numbers that are
/// delivered if the first phase has these records.
fn equal_ones(alloc: Global, ships: usize, first: [usize; 2]) -> Option<[u64; 4]> {
    let mut p = journal(alloc, 0, 0)?;
    let mut q = journal(alloc, 1, 0)?;
    let _up = ask(&mut p, Event::Boot { now: 0 })?;
    let _up = ask(&mut q, Event::Boot { now: 0 })?;
    let message = shipped(&mut p, 1)?;
    for _time in 1..ships {
        if !shipped(&mut p, 1)?.equal(&message) {
            return None;
        }
    }
    hear(&mut q, &message)?;
    hear(&mut q, &message)?;
    let journals = close_all(alloc, [p, q])?;
    let run = woven(alloc, journals.as_slice(), first).ok()?;
    delivered(&run.events, 1)
}

#[test]
fn phases_follow_each_other(rt: HostRuntime) -> Result<(), Fail> {
    let found = both_phases(rt.alloc());
    assert_eq!(rt; found, Some(([0, 1, 0, 1], [2, 3, 4, 1], [2, 4])));
    assert_eq!(rt; no_phases(rt.alloc()), Some([0, 0, 1, 1]));
    Ok(())
}

#[test]
fn a_message_of_a_later_phase_is_heard_too_early(rt: HostRuntime) -> Result<(), Fail> {
    let fault = WeaveFault::Unwoven {
        node: NodeId(1),
        place: 2,
    };
    assert_eq!(rt; heard_too_early(rt.alloc()), Some(fault));
    assert_eq!(rt; heard_later(rt.alloc()), Some([3, 4]));
    Ok(())
}

#[test]
fn a_later_phase_goes_on_with_the_copies(rt: HostRuntime) -> Result<(), Fail> {
    assert_eq!(rt; equal_ones(rt.alloc(), 2, [2, 2]), Some([1, 2, 0, 0]));
    assert_eq!(rt; equal_ones(rt.alloc(), 2, [3, 2]), Some([1, 2, 0, 0]));
    assert_eq!(rt; equal_ones(rt.alloc(), 1, [2, 2]), Some([1, 1, 0, 0]));
    assert_eq!(rt; equal_ones(rt.alloc(), 2, [2, 3]), Some([1, 1, 0, 0]));
    Ok(())
}
