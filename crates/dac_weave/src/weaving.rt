//! The weave.

ghost use Rattle.std.specs.Prelude.{◌≡◌, IfOk, IfErr, OnOk};
ghost use Rattle.dac_weave.specs.Woven.{AllFit, Gives};
ghost use Rattle.dac_weave.specs.Recording.{IsRecorded};
ghost use Rattle.dac_weave.specs.Faults.{IsTrueFault, IsRefusal};
ghost use Rattle.dac_weave.specs.Converging.{IsConverged};
ghost use Rattle.dac_weave.specs.Copies.{NamesCopies};
ghost use Rattle.dac_weave.specs.Cut.{cut, rows_of, lengths_of, AreEnds};
ghost use Rattle.dac_weave.specs.Seats.{HaveSeats};
ghost use Rattle.dac_weave.specs.Phased.{GivesPhases, IsPhaseFault};
ghost use Rattle.dac_weave.specs.Placing.{Weaves, AllWhole, Continues, Rests, PrecedesRow};

use crate::fault::WeaveFault;
use crate::merge::Merge;
use crate::part::{Part, cut};
use crate::unfit::unfit;
use dac_base::NoMemory;
use dac_config::Config;
use dac_events::WorldEvent;
use dac_journal::{Closed, every_list_converges};
use std::alloc::Global;

/// A run that reproduces journals.
#[derive(Drop)]
pub struct Woven {
    /// The events, in order.
    pub events: Vec<WorldEvent>,
    /// For each event the seat of its record.
    pub seats: Vec<u16>,
    /// For each phase the number of events up to its end.
    pub bounds: Vec<usize>,
}

/// Places the records of these journals that aren't placed yet.
fn weave_parts<'a>(
    merge: &mut Merge<'a>,
    config: &Config,
    parts: &[Part<'a>],
) -> Result<(), WeaveFault>
    requires { Weaves config.now parts.now merge.old }
    ensures fit { OnOk result (AllFit parts.now) }
    ensures weaves { OnOk result (Weaves config.now parts.now merge.new) }
    ensures whole { OnOk result (AllWhole parts.now merge.new.cursors.items) }
    ensures continues { OnOk result (Continues merge.old merge.new) }
    ensures unwoven { IfErr result (IsTrueFault config.now parts.now) }
    ensures complete { IfErr result (IsRefusal config.now parts.now) }
{
    if let Some(i) = unfit(parts) {
        return Err(WeaveFault::Unwoven {
            node: parts[i].node(),
            place: 0,
        });
    }
    merge.weave(config, parts)?;
    match merge.first_left(parts) {
        None => Ok(()),
        Some((node, place)) => Err(WeaveFault::Unwoven { node, place }),
    }
}

/// Places the records of one more phase.
fn weave_up_to<'a>(
    merge: &mut Merge<'a>,
    alloc: Global,
    config: &Config,
    journals: &'a [Closed],
    row: &[usize],
) -> Result<(), WeaveFault>
    requires { PrecedesRow config.now journals.now row.now merge.old }
    ensures rests { OnOk result (Rests config.now journals.now row.now merge.new) }
    ensures gives { OnOk result
        (Gives config.now (cut journals.now row.now) merge.new.events.items) }
    ensures continues { OnOk result (Continues merge.old merge.new) }
    ensures unwoven { IfErr result (IsTrueFault config.now (cut journals.now row.now)) }
    ensures complete { IfErr result (IsRefusal config.now (cut journals.now row.now)) }
{
    let parts = cut(alloc, journals, row)?;
    weave_parts(merge, config, parts.as_slice())?;
    Ok(())
}

/// Like [`weave`], with the phases of the journals, whose ends are given: `ends[p][i]` is the number of records of the
/// i-th journal in the phases up to `p`, counted from 0. No event precedes one of an earlier phase. If there is no such
/// run, fails with the node and the record at which every run of some phase, after the phases before it, stops.
pub fn weave_phases(
    alloc: Global,
    config: &Config,
    journals: &[Closed],
    ends: &[Vec<usize>],
) -> Result<Woven, WeaveFault>
    // There is a phase, the ends rise, and the last ones are the journals' lengths.
    requires { AreEnds journals.now (rows_of ends.now) }
    // The run reproduces each journal, in order, with its results, and has no event at another node.
    ensures woven { IfOk result (λ woven. Gives config.now journals.now woven.events.items) }
    // Up to each bound it reproduces the journals up to the end of a phase.
    ensures phases { IfOk result (λ woven.
        GivesPhases config.now journals.now woven.events.items (rows_of ends.now) woven.bounds.items) }
    // Each delivery names the first of equal messages that no earlier one names, or one again if each is named.
    ensures copies { IfOk result (λ woven. NamesCopies config.now woven.events.items) }
    // Each event has the seat of its record.
    ensures seats { IfOk result (λ woven. HaveSeats journals.now woven.events.items woven.seats.items) }
    // Therefore each journal is what its node records in the run.
    ensures recorded { IfOk result (λ woven. IsRecorded config.now journals.now woven.events.items) }
    // The guarantees of every run hold, and each journal's history ends in the state in which the run leaves its node.
    ensures converges { IfOk result (λ woven. IsConverged config.now journals.now woven.events.items) }
    // Every run of the journals up to the end of some phase stops at the node and the record that the fault names, and
    // no run records them.
    ensures unwoven { IfErr result (IsPhaseFault config.now journals.now (rows_of ends.now)) }
{
    every_list_converges();
    let mut merge = Merge::new(alloc, config, journals)?;
    let mut bounds = Vec::new(alloc);
    for row in ends {
        weave_up_to(&mut merge, alloc, config, journals, row.as_slice())?;
        bounds.push(merge.events.len())?;
    }
    Ok(Woven {
        events: merge.events,
        seats: merge.seats,
        bounds,
    })
}

/// The journals' lengths.
fn lengths(alloc: Global, journals: &[Closed]) -> Result<Vec<usize>, NoMemory>
    ensures { IfOk result (λ row. row.items ≡ lengths_of journals.now) }
{
    let mut row = Vec::new(alloc);
    for journal in journals {
        row.push(journal.records().len())?;
    }
    Ok(row)
}

/// Returns world events whose run reproduces the journals: at each journal's node its records, in order, with their
/// results, and nothing at any other node. If there is no such run, fails with the node and the record at which every
/// run stops.
///
/// Of equal messages a delivery names the first one that no other delivery names. It names one again only if no record
/// can be placed without that.
///
/// The journals are replayed under `config`, so journals of another configuration are woven only up to the first result
/// that differs. Fails with [`WeaveFault::NoMemory`] if an allocation fails before the merge ends.
pub fn weave(
    alloc: Global,
    config: &Config,
    journals: &[Closed],
) -> Result<Vec<WorldEvent>, WeaveFault>
    // The run reproduces each journal, in order, with its results, and has no event at another node.
    ensures woven { IfOk result (λ events. Gives config.now journals.now events.items) }
    // Each delivery names the first of equal messages that no earlier one names, or one again if each is named.
    ensures copies { IfOk result (λ events. NamesCopies config.now events.items) }
    // Therefore each journal is what its node records in the run.
    ensures recorded { IfOk result (λ events. IsRecorded config.now journals.now events.items) }
    // The guarantees of every run hold, and each journal's history ends in the state in which the run leaves its node.
    ensures converges { IfOk result (λ events. IsConverged config.now journals.now events.items) }
    // Every run stops at the node and the record that the fault names.
    ensures unwoven { IfErr result (IsTrueFault config.now journals.now) }
    // No run records these journals, not even one with events that name no node, message or operation.
    ensures complete { IfErr result (IsRefusal config.now journals.now) }
{
    let mut ends = Vec::new(alloc);
    ends.push(lengths(alloc, journals)?)?;
    let woven = weave_phases(alloc, config, journals, &ends)?;
    Ok(woven.events)
}
