//! Configurations: their queries, canonical text and mark.
use crate::sample::{EXAMPLE, config};
use dac_base::{AppId, NoMemory, NodeId};
use dac_config::{Config, SyncWait, is_bare, printed_name, read_config};
use std::alloc::Global;

const EXAMPLE_WITH_A_COMMENT: &[u8] =
    b"%% cp1.config\n[{kernel,\n [{distributed, [{myapp, 5000, [cp1@cave, {cp3@cave, cp2@cave}]}]},\n {sync_nodes_mandatory, [cp2@cave, cp3@cave]},\n {sync_nodes_timeout, 5000}\n ]\n }\n].";

const TWO_APPLICATIONS: &[u8] =
    b"[{kernel,[{distributed,[{b,5000,[c1@h,{c3@h,c2@h}]},{a,[c2@h]}]},{sync_nodes_optional,[b@h,c1@h]}]}].";

const PERMISSIONS: &[u8] =
    b"[{kernel,[{distributed,[{a,4294967295,[b@h]},{'b-1',[{d@h,c@h}]},{c,[b@h]}]},{permissions,[{c,true},{'b-1',false},{c,false},{x,false},{a,false}]},{sync_nodes_timeout,infinity}]}].";

const EXAMPLE_IN_ONE_LINE: &[u8] =
    b"[{kernel,[{distributed,[{myapp,5000,[cp1@cave,{cp2@cave,cp3@cave}]}]},{permissions,[]},{sync_nodes_mandatory,[cp2@cave,cp3@cave]},{sync_nodes_optional,[]},{sync_nodes_timeout,5000}]}].\n";

const TWO_APPLICATIONS_IN_ONE_LINE: &[u8] =
    b"[{kernel,[{distributed,[{b,5000,[c1@h,{c2@h,c3@h}]},{a,0,[c2@h]}]},{permissions,[]},{sync_nodes_mandatory,[]},{sync_nodes_optional,[b@h,c1@h]}]}].\n";

const PERMISSIONS_IN_ONE_LINE: &[u8] =
    b"[{kernel,[{distributed,[{a,4294967295,[b@h]},{'b-1',0,[{c@h,d@h}]},{c,0,[b@h]}]},{permissions,[{a,false},{'b-1',false}]},{sync_nodes_mandatory,[]},{sync_nodes_optional,[]},{sync_nodes_timeout,infinity}]}].\n";

const MARK_OF_EXAMPLE: u64 = 15451059380765602643;

/// Name of each node of the example, whether it's mandatory, and whether it's optional.
const NODES: &[(&[u8], bool, bool)] = &[
    (b"cp1@cave", false, false),
    (b"cp2@cave", true, false),
    (b"cp3@cave", true, false),
];

/// True if a node has these properties.
fn is_node(config: &Config, node: NodeId, name: &[u8], mandatory: bool, optional: bool) -> bool {
    node.0 < config.nodes()
        && config.node_name(node) == name
        && config.mandatory(node) == mandatory
        && config.optional(node) == optional
}

/// True if the example's nodes are found by name.
fn are_nodes(config: &Config) -> bool {
    for (name, mandatory, optional) in NODES {
        let Some(node) = config.node_named(name) else {
            return false;
        };
        if !is_node(config, node, name, *mandatory, *optional) {
            return false;
        }
    }
    config.node_named(b"cp3").is_none() && config.nodes() == 3
}

#[test]
fn nodes_by_name(rt: HostRuntime) {
    match config(rt.alloc(), EXAMPLE) {
        Some(config) => assert!(rt; are_nodes(&config)),
        None => assert!(rt; false),
    }
}

/// True if an application has these properties.
fn is_app(config: &Config, app: AppId, name: &[u8], timeout: u32, permitted: bool) -> bool {
    app.0 < config.apps()
        && config.app_name(app) == name
        && config.timeout(app) == timeout
        && config.default_permission(app) == permitted
}

/// Text, and number, name, timeout and default permission of one of its applications.
const APPS: &[(&[u8], u16, &[u8], u32, bool)] = &[
    (TWO_APPLICATIONS, 0, b"b", 5000, true),
    (TWO_APPLICATIONS, 1, b"a", 0, true),
    (PERMISSIONS, 0, b"a", 4294967295, false),
    (PERMISSIONS, 1, b"b-1", 0, false),
    (PERMISSIONS, 2, b"c", 0, true),
];

/// True if a copy of the configuration has this application and finds it by name.
fn has_app(
    config: &Config,
    app: AppId,
    name: &[u8],
    timeout: u32,
    permitted: bool,
) -> Result<bool, NoMemory> {
    let copied = config.copy()?;
    Ok(is_app(&copied, app, name, timeout, permitted) && copied.app_named(name) == Some(app))
}

#[test]
fn applications_by_place(rt: HostRuntime) {
    for (text, app, name, timeout, permitted) in APPS {
        match config(rt.alloc(), text) {
            Some(config) => {
                let has = has_app(&config, AppId(*app), name, *timeout, *permitted);
                assert!(rt; matches!(has, Ok(true)));
            }
            None => assert!(rt; false),
        }
    }
}

/// Application, node, and the node's group in the application's list.
const GROUPS: &[(u16, u8, Option<u16>)] = &[
    (0, 0, None),
    (0, 1, Some(0)),
    (0, 2, Some(1)),
    (0, 3, Some(1)),
    (1, 1, None),
    (1, 2, Some(0)),
];

/// True if each node is in its group.
fn are_groups(config: &Config) -> bool {
    for (app, node, group) in GROUPS {
        if *app >= config.apps() || config.group_of(AppId(*app), NodeId(*node)) != *group {
            return false;
        }
    }
    let is_like_itself = config.apps() > 0 && config.lists_alike(config, AppId(0));
    is_like_itself && config.sync_wait() == SyncWait::NoSync
}

#[test]
fn groups_of_a_list(rt: HostRuntime) {
    match config(rt.alloc(), TWO_APPLICATIONS) {
        Some(config) => assert!(rt; are_groups(&config)),
        None => assert!(rt; false),
    }
}

/// Text and canonical text.
const TEXTS: &[(&[u8], &[u8])] = &[
    (EXAMPLE, EXAMPLE_IN_ONE_LINE),
    (EXAMPLE_WITH_A_COMMENT, EXAMPLE_IN_ONE_LINE),
    (EXAMPLE_IN_ONE_LINE, EXAMPLE_IN_ONE_LINE),
    (TWO_APPLICATIONS, TWO_APPLICATIONS_IN_ONE_LINE),
    (TWO_APPLICATIONS_IN_ONE_LINE, TWO_APPLICATIONS_IN_ONE_LINE),
    (PERMISSIONS, PERMISSIONS_IN_ONE_LINE),
    (PERMISSIONS_IN_ONE_LINE, PERMISSIONS_IN_ONE_LINE),
];

/// True if the text's configuration has this canonical text.
fn is_canonical(alloc: Global, text: &[u8], wanted: &[u8]) -> Option<bool> {
    let canonical = config(alloc, text)?.canonical_text().ok()?;
    Some(canonical.as_slice() == wanted)
}

#[test]
fn one_text(rt: HostRuntime) {
    for (text, wanted) in TEXTS {
        assert!(rt; is_canonical(rt.alloc(), text, wanted) == Some(true));
    }
}

fn mark(alloc: Global, text: &[u8]) -> Option<u64> {
    Some(config(alloc, text)?.mark())
}

#[test]
fn one_mark(rt: HostRuntime) {
    assert!(rt; mark(rt.alloc(), EXAMPLE) == Some(MARK_OF_EXAMPLE));
    assert!(rt; mark(rt.alloc(), EXAMPLE_WITH_A_COMMENT) == Some(MARK_OF_EXAMPLE));
}

#[test]
fn refused_without_nodes(rt: HostRuntime) {
    assert!(rt; read_config(rt.alloc(), b"[].").is_err());
}

/// Name and printed form.
const NAMES: &[(&[u8], &[u8])] = &[
    (b"n-1@h.example", b"'n-1@h.example'"),
    (b"cp1@cave", b"cp1@cave"),
    (b"fun", b"'fun'"),
];

/// True if a name is printed like this, unquoted exactly if it's a bare atom.
fn is_printed(alloc: Global, name: &[u8], wanted: &[u8]) -> Result<bool, NoMemory> {
    let printed = printed_name(alloc, name)?;
    Ok(printed.as_slice() == wanted && is_bare(name) == (name == wanted))
}

#[test]
fn names_as_atoms(rt: HostRuntime) {
    for (name, wanted) in NAMES {
        assert!(rt; matches!(is_printed(rt.alloc(), name, wanted), Ok(true)));
    }
}
