//! `dac_config`.
use dac_config::{AppId, Config, ConfigFault, FaultKind, NoMemory, NodeId, SyncWait, read_config};
use std::alloc::Global;

/// Two nodes and an application.
pub const TWO: &[u8] = b"[{kernel,[{distributed,[{a,[x@h,y@h]}]}]}].";

/// True if the first node has these properties.
fn node_is_told(config: &Config) -> bool {
    let node = NodeId(0);
    let name: &[u8] = b"x@h";
    config.nodes() == 2
        && config.node_name(node) == name
        && config.node_named(name) == Some(node)
        && !config.mandatory(node)
        && !config.optional(node)
}

/// True if the application has these properties.
fn application_is_told(config: &Config) -> bool {
    let app = AppId(0);
    let name: &[u8] = b"a";
    config.apps() == 1
        && config.app_name(app) == name
        && config.app_named(name) == Some(app)
        && config.group_of(app, NodeId(1)) == Some(1u16)
        && config.timeout(app) == 0u32
        && config.default_permission(app)
}

/// True if a configuration and its copy have the same text and mark.
fn has_one_text(config: &Config) -> Result<bool, NoMemory> {
    let copy: Config = config.copy()?;
    let text: Vec<u8> = config.canonical_text()?;
    let mark: u64 = copy.mark();
    Ok(copy.canonical_text()?.as_slice() == text.as_slice() && mark == config.mark())
}

/// True if the configuration `TWO` has all of this.
fn is_told(alloc: Global) -> Option<bool> {
    let config = read_config(alloc, TWO).ok()?;
    let waits = match config.sync_wait() {
        SyncWait::NoSync => true,
        SyncWait::Forever => false,
        SyncWait::Ms(_moments) => false,
    };
    Some(
        waits
            && node_is_told(&config)
            && application_is_told(&config)
            && has_one_text(&config).ok()?,
    )
}

/// The fault of an incomplete configuration.
fn fault_of(alloc: Global) -> Option<(FaultKind, usize)> {
    match read_config(alloc, b"[{kernel,[") {
        Ok(_config) => None,
        Err(ConfigFault { kind, at }) => Some((kind, at)),
    }
}

#[test]
fn configurations(rt: HostRuntime) {
    assert!(rt; is_told(rt.alloc()) == Some(true));
    assert!(rt; fault_of(rt.alloc()) == Some((FaultKind::BadShape, 10)));
}
