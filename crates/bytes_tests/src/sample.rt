//! Dots and a configuration that the tests share.
use dac_base::NodeId;
use dac_config::{Config, read_config};
use dac_origins::{Dot, Origin};
use std::alloc::Global;

/// The example of OTP's manual on distributed applications.
pub const EXAMPLE: &[u8] =
    b"[{kernel,\n [{distributed, [{myapp, 5000, [cp1@cave, {cp2@cave, cp3@cave}]}]},\n {sync_nodes_mandatory, [cp2@cave, cp3@cave]},\n {sync_nodes_timeout, 5000}\n ]\n }\n].";

/// A configuration, or `None` if it's refused.
pub fn config(alloc: Global, text: &[u8]) -> Option<Config> {
    read_config(alloc, text).ok()
}

/// An incarnation of a node.
pub fn origin(node: u8, inc: u64) -> Origin {
    Origin {
        node: NodeId(node),
        inc,
    }
}

/// A dot of a node's incarnation.
pub fn dot(node: u8, inc: u64, n: u64) -> Dot {
    Dot {
        origin: origin(node, inc),
        n,
    }
}
