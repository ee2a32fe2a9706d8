//! The ends of phases in journals.

ghost use Rattle.std.specs.Prelude.{◌≡◌, ◌≤◌, All, IfOk, length, map};
ghost use Rattle.dac_base.specs.declared.limits.TheConstants.{MAX_NODES};
ghost use Rattle.dac_phases.specs.Ends.{ends_before, rows_of, EndPhases, HasCallers};
ghost use Rattle.dac_phases.specs.Pairs.{SeatsHold};
ghost use Rattle.dac_phases.specs.Phases.{FallIntoPhases};

use crate::phases::{parted, records_of};
use dac_base::NoMemory;
use dac_crews::{Closed, Phase, Record};
use std::alloc::Global;

/// The number of records of each journal before its rest.
fn ends_before(
    alloc: Global,
    closed: &[Closed],
    rests: &[&[Record]],
) -> Result<Vec<usize>, NoMemory>
    requires { length rests.now ≡ length closed.now }
    ensures { IfOk result (λ row. row.items
        ≡ ends_before (map (λ j. j.records) closed.now) (map (λ r. r.now) rests.now)) }
{
    let mut row = Vec::new(alloc);
    for i in 0..closed.len() {
        let all = closed[i].records().len();
        row.push(all.saturating_sub(rests[i].len()))?;
    }
    Ok(row)
}

/// The ends of the phases in journals that consist of them: for each phase the number of records of each journal up to
/// its end.
pub fn phase_ends(
    alloc: Global,
    phases: &[Phase],
    closed: &[Closed],
) -> Result<Vec<Vec<usize>>, NoMemory>
    requires few { length closed.now ≤ MAX_NODES }
    requires callers { All HasCallers phases.now }
    requires seats { SeatsHold closed.now }
    requires falls { FallIntoPhases phases.now closed.now }
    ensures { IfOk result (λ ends. EndPhases phases.now closed.now (rows_of ends.items)) }
{
    let mut journals = records_of(alloc, closed)?;
    let mut ends = Vec::new(alloc);
    for i in 0..phases.len() {
        let phase = &phases[i];
        let (_parts, rests) = parted(alloc, phase, journals.as_slice())?;
        let row = ends_before(alloc, closed, rests.as_slice())?;
        ends.push(row)?;
        journals = rests;
    }
    Ok(ends)
}
