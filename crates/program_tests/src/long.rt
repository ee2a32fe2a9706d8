//! A live run of many phases.
use crate::running::lives;
use std::alloc::{AllocError, Global};

const THREE: &str = "[{kernel,[{distributed,[{a,[a@h,b@h,c@h]}]}]}].\n";

/// Enough phases for some 4,000 records: each phase has some 30 ships and as many hearings.
const PHASES: u32 = 64;

/// The lines of each phase after the first, so that each link has something to ship.
const LINES: &str =
    "phase\n1 permit a@h a a@h true\n2 permit b@h a b@h true\n3 permit c@h a c@h true\n3 read c@h\n";

/// All nodes boot, and each has a line in every further phase.
fn script(alloc: Global) -> Result<String, AllocError> {
    let mut text = String::from_str(alloc, "1 boot a@h 0\n2 boot b@h 0\n3 boot c@h 0\n")?;
    for _phase in 1..PHASES {
        text.push_str(LINES)?;
    }
    Ok(text)
}

/// The final pages.
const PAGES: &str =
    "node a@h 1\nheard 192 known 192\nnode a@h up 1\nnode b@h up 1\nnode c@h up 1\napp a holder none verdict nobody\nlist a@h=idle b@h=idle c@h=idle\nnode b@h 1\nheard 192 known 192\nnode a@h up 1\nnode b@h up 1\nnode c@h up 1\napp a holder none verdict nobody\nlist a@h=idle b@h=idle c@h=idle\nnode c@h 1\nheard 192 known 192\nnode a@h up 1\nnode b@h up 1\nnode c@h up 1\napp a holder none verdict nobody\nlist a@h=idle b@h=idle c@h=idle\nclose ok\nweave ok\n";

/// The whole output.
fn printed(alloc: Global) -> Result<String, AllocError> {
    let mut text = String::from_str(alloc, "phase 1\na@h 1 ok\nb@h 2 ok\nc@h 3 ok\n")?;
    for phase in 2..=PHASES {
        let lines = format!(in alloc;
            "phase {phase}\na@h 1 ok\nb@h 2 ok\nc@h 3 ok\nc@h 3 fresh\n"
        )?;
        text.push_str(&lines)?;
    }
    text.push_str(PAGES)?;
    Ok(text)
}

#[test]
fn runs_many_phases_in_threads(rt: HostRuntime) -> Result<(), AllocError> {
    let script = script(rt.alloc())?;
    let printed = printed(rt.alloc())?;
    assert!(rt; lives(&rt, rt.alloc(), THREE, &script, 0, &printed));
    Ok(())
}
