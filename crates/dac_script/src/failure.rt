//! Errors of reading an input.

ghost use Rattle.std.specs.Prelude.{◌≡◌};
ghost use Rattle.dac_script.specs.declared.failure.Failure.TheVariants.{NoMemory as WantOfMemory};

use crate::fault::{InputFault, ScriptFault};
use dac_base::NoMemory;
use dac_tokens::{ConfigFault, FaultKind};
use std::alloc::{AllocError, AllocFailed};

/// Why an input isn't run. Input, configuration and script are checked in this order, and the first fault is reported.
#[derive(Clone, Copy, Debug, PartialEq, Eq)]
pub enum Failure {
    /// The input as a whole is faulty.
    Input(InputFault),
    /// The configuration is faulty.
    Config(ConfigFault),
    /// The script is faulty.
    Script(ScriptFault),
    /// An allocation failed, whether the input is faulty or not.
    NoMemory,
}

impl From<ConfigFault> for Failure {
    ghost use Rattle.dac_script.specs.Failures.{failure_of_kind};

    ghost from_gives = { λ fault failure. failure ≡ failure_of_kind fault.kind fault };

    fn from(fault: ConfigFault) -> Self {
        match fault.kind {
            FaultKind::NoMemory => Failure::NoMemory,
            _ => Failure::Config(fault),
        }
    }
}

impl From<NoMemory> for Failure {
    ghost from_gives = { λ _ failure. failure ≡ WantOfMemory };

    fn from(_refused: NoMemory) -> Self {
        Failure::NoMemory
    }
}

impl From<AllocError> for Failure {
    ghost from_gives = { λ _ failure. failure ≡ WantOfMemory };

    fn from(_error: AllocError) -> Self {
        Failure::NoMemory
    }
}

impl<T: Drop> From<AllocFailed<T>> for Failure {
    ghost from_gives = { λ _ failure. failure ≡ WantOfMemory };

    fn from(_failed: AllocFailed<T>) -> Self {
        Failure::NoMemory
    }
}
