//! Which faults are causes.

ghost use Rattle.std.specs.Prelude.{◌≡◌};
ghost use Rattle.dac_crews.specs.Causes.{is_cause};

use dac_workers::RunFault;

/// Returns whether a fault is a cause. A lost link isn't, because a worker that fails for its own reason drops its ends
/// of links, and the workers at their other ends then find them lost.
pub(crate) fn is_cause(fault: &RunFault) -> bool
    ensures { result ≡ is_cause fault.now }
{
    match fault {
        RunFault::LinkLost { from: _, to: _ } => false,
        _ => true,
    }
}
