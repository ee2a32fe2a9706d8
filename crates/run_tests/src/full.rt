//! The fault of a run in which a journal is full.
use crate::runs::{Open, boot, ran, tick};
use dac_base::NodeId;
use dac_live::{Ask, Line, LiveFault, Phase, RunFault};
use std::alloc::Global;
use std::sync::Wait;
use std::test::Fail;
use std::thread::Threads;

const TWO: &[u8] = b"[{kernel,[{distributed,[{a,[a@h,b@h]}]}]}].";

/// Enough ticks to leave less room in a journal than the links need. Each run has one more tick than the one before, so
/// that the journal fills at another ship of a phase, or at the one in the last round.
const TICKS: u64 = 65_500;

/// Enough phases for the links to fill it.
const PHASES: u32 = 12;

/// A line of caller 1.
fn line(node: u8, what: Ask) -> Line {
    Line {
        node: NodeId(node),
        caller: 1,
        what,
    }
}

/// Both nodes boot, ticks nearly fill `node`'s journal, and the links of further phases fill it.
fn filling(alloc: Global, node: u8, ticks: u64) -> Option<Vec<Phase>> {
    let mut lines = Vec::new(alloc);
    lines.push(line(0, boot(0))).ok()?;
    lines.push(line(1, boot(0))).ok()?;
    for _time in 0..ticks {
        lines.push(line(node, tick(0))).ok()?;
    }
    let mut phases = Vec::new(alloc);
    phases.push(Phase { lines }).ok()?;
    for _time in 0..PHASES {
        phases
            .push(Phase {
                lines: Vec::new(alloc),
            })
            .ok()?;
    }
    Some(phases)
}

/// Whether each of `times` runs reports the full journal, and not the link that is lost because of it.
fn all_say_full<R: Threads + Wait + Sync>(
    rt: &R,
    alloc: Global,
    node: u8,
    times: u64,
) -> Option<bool> {
    let full = RunFault::Site {
        node: NodeId(node),
        why: LiveFault::JournalFull,
    };
    for time in 0..times {
        let phases = filling(alloc, node, TICKS.saturating_add(time))?;
        match ran(rt, alloc, TWO, phases.as_slice(), &Open)? {
            Err(fault) if fault == full => {}
            _ => return Some(false),
        }
    }
    Some(true)
}

#[test]
fn a_full_journal_is_told_before_a_lost_link(rt: HostRuntime) -> Result<(), Fail> {
    assert_eq!(rt; all_say_full(&rt, rt.alloc(), 1, 10), Some(true));
    Ok(())
}

/// The other node's workers precede those of the first one, so the first fault found is often a lost link.
#[test]
fn a_full_journal_of_the_first_node_is_told_before_a_lost_link(
    rt: HostRuntime,
) -> Result<(), Fail> {
    assert_eq!(rt; all_say_full(&rt, rt.alloc(), 0, 3), Some(true));
    Ok(())
}

/// One node, so that only its caller fills the journal.
const ONE: &[u8] = b"[{kernel,[{distributed,[{a,[a@h]}]}]}].";

/// The result of a run in which a caller boots its node and ticks `ticks` times.
fn fault_of_caller<R: Threads + Wait + Sync>(
    rt: &R,
    alloc: Global,
    ticks: u64,
) -> Option<Result<usize, RunFault>> {
    let mut lines = Vec::new(alloc);
    lines.push(line(0, boot(0))).ok()?;
    for _time in 0..ticks {
        lines.push(line(0, tick(0))).ok()?;
    }
    let mut phases = Vec::new(alloc);
    phases.push(Phase { lines }).ok()?;
    match ran(rt, alloc, ONE, phases.as_slice(), &Open)? {
        Ok(report) => Some(Ok(report.closed.as_slice().len())),
        Err(fault) => Some(Err(fault)),
    }
}

#[test]
fn a_caller_fills_a_journal(rt: HostRuntime) -> Result<(), Fail> {
    let full = RunFault::Site {
        node: NodeId(0),
        why: LiveFault::JournalFull,
    };
    assert!(rt; matches!(fault_of_caller(&rt, rt.alloc(), 65_535), Some(Ok(1))));
    assert!(rt; fault_of_caller(&rt, rt.alloc(), 65_536) == Some(Err(full)));
    Ok(())
}
