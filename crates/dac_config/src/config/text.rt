//! Writes the canonical text in pieces.

ghost use Rattle.std.specs.Prelude.{◌≡◌, ◌<◌, not, codes, map, filter, All};
ghost use Rattle.std.specs.Fmt.{decimal};
ghost use Rattle.dac_config.specs.Sinks.{Gains};
ghost use Rattle.dac_config.specs.Canonical.{name_text, separated_after, parted, node_name_text, group_text, app_text, forbidden_text, wait_texts, param_texts};
ghost use Rattle.dac_config.specs.Table.{node_count};
ghost use Rattle.dac_config.specs.ConfigView.{node_row, named_row, HasMembersBelow, is_in};

use super::{App, Config, Node};
use crate::SyncWait;
use crate::naming::put_name;
use crate::sink::Sink;
use dac_base::{AppId, NodeId};

/// The decimal digits of a number.
fn put_number<S: Sink>(sink: &mut S, number: u32)
    ensures { Gains S.holds sink.old sink.new (decimal number) }
{
    if number >= 10 {
        put_number(sink, number / 10);
    }
    sink.put(&[b'0' + (number % 10) as u8]);
}

fn put_node<S: Sink>(sink: &mut S, config: &Config, node: NodeId)
    requires { node.0 < node_count config.now }
    ensures { Gains S.holds sink.old sink.new (node_name_text config.now.nodes node.0) }
{
    put_name(sink, config.node_name(node));
}

/// The names of nodes, separated by commas.
fn put_members<S: Sink>(sink: &mut S, config: &Config, group: &[u8])
    requires { All (λ number. number < node_count config.now) group.now }
    ensures { Gains S.holds sink.old sink.new
        (parted (map (node_name_text config.now.nodes) group.now)) }
{
    let mut before: &[u8] = b"";
    for number in group {
        sink.put(before);
        put_node(sink, config, NodeId(*number));
        before = b",";
    }
}

fn put_group<S: Sink>(sink: &mut S, config: &Config, group: &[u8])
    requires { All (λ number. number < node_count config.now) group.now }
    ensures { Gains S.holds sink.old sink.new (group_text config.now.nodes group.now) }
{
    match group {
        [number] => put_node(sink, config, NodeId(*number)),
        _ => {
            sink.put(b"{");
            put_members(sink, config, group);
            sink.put(b"}");
        }
    }
}

/// The groups of an application, separated by commas.
fn put_groups<S: Sink>(sink: &mut S, config: &Config, groups: &[Vec<u8>])
    requires { All (λ group. All (λ number. number < node_count config.now) group.items)
        groups.now }
    ensures { Gains S.holds sink.old sink.new
        (parted (map (group_text config.now.nodes) (map (λ group. group.items) groups.now))) }
{
    let mut before: &[u8] = b"";
    for group in groups {
        sink.put(before);
        put_group(sink, config, group);
        before = b",";
    }
}

fn put_app<S: Sink>(sink: &mut S, config: &Config, name: &[u8], app: &App)
    requires { HasMembersBelow (node_count config.now) app.now }
    ensures { Gains S.holds sink.old sink.new
        (app_text config.now.nodes (named_row name.now app.now)) }
{
    sink.put(b"{");
    put_name(sink, name);
    sink.put(b",");
    put_number(sink, app.timeout);
    sink.put(b",[");
    put_groups(sink, config, &app.groups);
    sink.put(b"]}");
}

/// The applications with their groups, separated by commas.
fn put_apps<S: Sink>(sink: &mut S, config: &Config)
    ensures { Gains S.holds sink.old sink.new
        (parted (map (app_text config.now.nodes) config.now.apps)) }
{
    let mut before: &[u8] = b"";
    for at in 0..config.apps() {
        let (name, app) = config.entry(AppId(at));
        sink.put(before);
        put_app(sink, config, name, app);
        before = b",";
    }
}

/// The applications that aren't permitted by default, separated by commas.
fn put_forbidden<S: Sink>(sink: &mut S, config: &Config)
    ensures { Gains S.holds sink.old sink.new (parted
        (map (λ row. forbidden_text row.name) (filter (λ row. not row.permission) config.now.apps))) }
{
    let mut before: &[u8] = b"";
    for at in 0..config.apps() {
        let (name, app) = config.entry(AppId(at));
        if app.permission {
            continue;
        }
        sink.put(before);
        sink.put(b"{");
        put_name(sink, name);
        sink.put(b",false}");
        before = b",";
    }
}

/// The two lists of nodes that a starting node waits for.
#[derive(Clone, Copy)]
enum SyncList {
    Mandatory,
    Optional,
}

fn is_in(list: SyncList, node: &Node) -> bool
    ensures { result ≡ is_in list (node_row node.now) }
{
    match list {
        SyncList::Mandatory => node.mandatory,
        SyncList::Optional => node.optional,
    }
}

/// The names of the nodes in this list, separated by commas.
fn put_sync_list<S: Sink>(sink: &mut S, config: &Config, list: SyncList)
    ensures { Gains S.holds sink.old sink.new
        (parted (map (λ row. name_text row.name) (filter (is_in list) config.now.nodes))) }
{
    let mut before: &[u8] = b"";
    for at in 0..config.nodes() {
        let node = config.node(NodeId(at));
        if !is_in(list, node) {
            continue;
        }
        sink.put(before);
        put_name(sink, &node.name);
        before = b",";
    }
}

fn put_wait<S: Sink>(sink: &mut S, wait: SyncWait)
    ensures { Gains S.holds sink.old sink.new (separated_after (codes ",") (wait_texts wait)) }
{
    match wait {
        SyncWait::NoSync => {}
        SyncWait::Forever => sink.put(b",{sync_nodes_timeout,infinity}"),
        SyncWait::Ms(milliseconds) => {
            sink.put(b",{sync_nodes_timeout,");
            put_number(sink, milliseconds);
            sink.put(b"}");
        }
    }
}

/// The parameters, separated by commas.
fn put_params<S: Sink>(sink: &mut S, config: &Config)
    ensures { Gains S.holds sink.old sink.new (parted (param_texts config.now)) }
{
    sink.put(b"{distributed,[");
    put_apps(sink, config);
    sink.put(b"]},{permissions,[");
    put_forbidden(sink, config);
    sink.put(b"]},{sync_nodes_mandatory,[");
    put_sync_list(sink, config, SyncList::Mandatory);
    sink.put(b"]},{sync_nodes_optional,[");
    put_sync_list(sink, config, SyncList::Optional);
    sink.put(b"]}");
    put_wait(sink, config.sync_wait());
}

impl Config {
    ghost use Rattle.dac_config.specs.Canonical.{canonical_text};

    /// Writes the canonical text to a sink in pieces, so that a mark needs no memory.
    pub(super) fn put<S: Sink>(&self, sink: &mut S)
        ensures { Gains S.holds sink.old sink.new (canonical_text self.now) }
    {
        sink.put(b"[{kernel,[");
        put_params(sink, self);
        sink.put(b"]}].\n");
    }
}
