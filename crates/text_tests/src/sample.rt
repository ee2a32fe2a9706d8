//! Shared samples.
use dac_config::{Config, ConfigFault, FaultKind, read_config};
use std::alloc::Global;

/// The example of OTP's manual on distributed applications.
pub const EXAMPLE: &[u8] =
    b"[{kernel,\n [{distributed, [{myapp, 5000, [cp1@cave, {cp2@cave, cp3@cave}]}]},\n {sync_nodes_mandatory, [cp2@cave, cp3@cave]},\n {sync_nodes_timeout, 5000}\n ]\n }\n].";

/// A configuration, or `None` if it's refused.
pub fn config(alloc: Global, text: &[u8]) -> Option<Config> {
    read_config(alloc, text).ok()
}

/// True if the fault has this kind and place.
pub fn is_fault(fault: Option<ConfigFault>, kind: FaultKind, at: usize) -> bool {
    fault == Some(ConfigFault { kind, at })
}
