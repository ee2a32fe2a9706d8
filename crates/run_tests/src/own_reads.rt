//! Each line gets the page that its own caller read, at its turn.
use crate::runs::{Open, boot, ran, tick};
use dac_base::NodeId;
use dac_live::{Ask, Line, LiveReport, Phase};
use std::alloc::Global;
use std::sync::Wait;
use std::test::Fail;
use std::thread::Threads;

/// One node without links, so that its journal contains only the callers' records.
const ONE: &[u8] = b"[{kernel,[{distributed,[{a,[a@h]}]}]}].";

/// A phase with one line.
fn phase(alloc: Global, caller: u8, what: Ask) -> Option<Phase> {
    let mut lines = Vec::new(alloc);
    lines
        .push(Line {
            node: NodeId(0),
            caller,
            what,
        })
        .ok()?;
    Some(Phase { lines })
}

/// Three callers read, each in a phase of its own, while a fourth one extends the journal.
fn three_reads(alloc: Global) -> Option<Vec<Phase>> {
    let mut phases = Vec::new(alloc);
    phases.push(phase(alloc, 4, boot(0))?).ok()?;
    for caller in [2, 1, 3] {
        phases.push(phase(alloc, caller, Ask::Read)?).ok()?;
        phases.push(phase(alloc, 4, tick(0))?).ok()?;
    }
    Some(phases)
}

/// Whether the pages of the lines are at places 1, 2 and 3, in line order.
fn are_in_order(report: &LiveReport) -> bool {
    let mut next = 1u64;
    for lines in report.reads.as_slice() {
        for read in lines.as_slice() {
            if let Some(page) = read {
                if page.page().place != next {
                    return false;
                }
                next = next.saturating_add(1);
            }
        }
    }
    next == 4
}

/// Whether each line got the last page of its phase. The callers' numbers differ from the order of the phases, so a
/// page of another caller's line would be at another place.
fn read_their_own<R: Threads + Wait + Sync>(rt: &R, alloc: Global) -> Option<bool> {
    let phases = three_reads(alloc)?;
    let report = ran(rt, alloc, ONE, phases.as_slice(), &Open)?.ok()?;
    Some(are_in_order(&report))
}

#[test]
fn lines_have_the_pages_that_their_callers_read(rt: HostRuntime) -> Result<(), Fail> {
    assert_eq!(rt; read_their_own(&rt, rt.alloc()), Some(true));
    Ok(())
}

/// One caller boots, reads, ticks, reads, and ticks again, in one phase.
fn reads_between_calls(alloc: Global) -> Option<Vec<Phase>> {
    let mut lines = Vec::new(alloc);
    for what in [boot(0), Ask::Read, tick(0), Ask::Read, tick(0)] {
        lines
            .push(Line {
                node: NodeId(0),
                caller: 1,
                what,
            })
            .ok()?;
    }
    let mut phases = Vec::new(alloc);
    phases.push(Phase { lines }).ok()?;
    Some(phases)
}

/// The places of the pages that lines read, in line order, if there are two.
fn places_read(report: &LiveReport) -> Option<[u64; 2]> {
    let mut places = [0u64; 2];
    let mut count = 0usize;
    for lines in report.reads.as_slice() {
        for read in lines.as_slice() {
            if let Some(page) = read {
                *places.get_mut(count)? = page.page().place;
                count = count.saturating_add(1);
            }
        }
    }
    if count == 2 { Some(places) } else { None }
}

/// The places of the pages read between the calls of one caller, the only one of its node.
fn between_calls<R: Threads + Wait + Sync>(rt: &R, alloc: Global) -> Option<[u64; 2]> {
    let phases = reads_between_calls(alloc)?;
    let report = ran(rt, alloc, ONE, phases.as_slice(), &Open)?.ok()?;
    places_read(&report)
}

#[test]
fn a_line_reads_what_precedes_it(rt: HostRuntime) -> Result<(), Fail> {
    assert_eq!(rt; between_calls(&rt, rt.alloc()), Some([1, 2]));
    Ok(())
}
