//! The tables of a configuration, and their readers.
ghost use Rattle.std.specs.Prelude.{◌≡◌, ◌<◌, ◌≤◌, Some, slice_get, length, All, IfOk};
ghost use Rattle.dac_config.specs.Table.{node_count, app_count};

mod alike;
mod number;
mod text;

use crate::SyncWait;
use crate::mark::Mark;
use crate::sink::Text;
use dac_base::{AppId, MAX_APPS, MAX_NODES, NoMemory, NodeId};
use dac_shapes::MAX_TEXT;
use indexmap::IndexMap;
use std::alloc::Global;
use std::marker::Model;
use std::sync::Arc;

#[derive(Drop)]
struct Node {
    name: Vec<u8>,
    mandatory: bool,
    optional: bool,
}

#[derive(Drop)]
struct App {
    timeout: u32,
    groups: Vec<Vec<u8>>,
    /// For each node number, the index of its group, or MAX_NODES if no group contains the node.
    places: Vec<u8>,
    permission: bool,
}

/// The tables of a configuration. They never change, so that its copies share them.
struct Tables {
    nodes: Vec<Node>,
    apps: IndexMap<Vec<u8>, App>,
    sync_wait: SyncWait,
}

/// Written by hand, so that each drop is a single call in proofs.
impl Drop for Tables {
    fn drop(self) {
        let Tables {
            nodes: _nodes,
            apps: _apps,
            sync_wait: _sync_wait,
        } = self;
    }
}

/// A configuration: the data that all controllers of a cluster share from the start.
///
/// A node's number is its index among the names of all nodes in byte order, an application's its index in the file;
/// both count from 0. A copy costs as much as a pointer.
pub struct Config {
    tables: Arc<Tables, Global>,
}

/// Written by hand, so that each drop is a single call in proofs.
impl Drop for Config {
    fn drop(self) {
        let Config { tables: _tables } = self;
    }
}

impl Model for Config {
    ghost use Rattle.dac_config.specs.Table.{Table};

    ghost Value = { Table };

    ghost use Rattle.std.specs.Arc.{arc_value};
    ghost use Rattle.dac_config.specs.ConfigView.{table_of, IsKept};

    ghost view = { λ c. table_of (arc_value c.tables) };

    ghost invariant = { λ c. IsKept (arc_value c.tables) };
}

impl Config {
    ghost use Rattle.dac_config.specs.Table.{node_name, app_name, node_named, app_named, group_of, timeout_of, default_permission, is_mandatory, is_optional};
    ghost use Rattle.dac_config.specs.ConfigView.{node_row, named_row, groups_in, table_of, ArePlaces, IsKept};
    ghost use Rattle.dac_config.specs.Canonical.{canonical_text};
    ghost use Rattle.dac_config.specs.Says.{IsConfigOf};
    ghost use Rattle.dac_config.specs.Mark.{fnv1a};

    /// The tables, which copies share.
    fn tables(&self) -> &Tables
        ensures view { table_of result.now ≡ self.now }
        ensures kept { IsKept result.now }
    {
        &self.tables
    }

    /// The number of nodes, at most 64.
    pub fn nodes(&self) -> u8
        ensures count { result ≡ node_count self.now }
        ensures few { result ≤ MAX_NODES }
    {
        self.tables().nodes.len() as u8
    }

    /// The number of applications, at most 64.
    pub fn apps(&self) -> u16
        ensures count { result ≡ app_count self.now }
        ensures few { result ≤ MAX_APPS }
        // Each application has few groups, whose members are nodes of this configuration.
        ensures groups { All (λ app. length app.groups ≤ MAX_NODES) self.now.apps }
        ensures members { All
            (λ app. All (λ group. All (λ node. node < node_count self.now) group) app.groups)
            self.now.apps }
    {
        self.tables().apps.len() as u16
    }

    fn node(&self, node: NodeId) -> &Node
        requires { node.0 < node_count self.now }
        ensures { slice_get self.now.nodes node.0 ≡ Some (node_row result.now) }
    {
        &self.tables().nodes[node.0 as usize]
    }

    /// The name of a node, without quotes.
    pub fn node_name(&self, node: NodeId) -> &[u8]
        requires { node.0 < node_count self.now }
        ensures { result.now ≡ node_name self.now node }
    {
        &self.node(node).name
    }

    /// The name of an application and its row.
    fn entry(&self, app: AppId) -> (&[u8], &App)
        requires { app.0 < app_count self.now }
        ensures row { slice_get self.now.apps app.0 ≡ Some (named_row result.0.now result.1.now) }
        ensures places { ArePlaces result.1.now.places.items (groups_in result.1.now) }
    {
        let (name, row) = self.tables().apps.get_index(app.0 as usize).unwrap();
        (name, row)
    }

    /// The name of an application, without quotes.
    pub fn app_name(&self, app: AppId) -> &[u8]
        requires { app.0 < app_count self.now }
        ensures { result.now ≡ app_name self.now app }
    {
        self.entry(app).0
    }

    /// The node with this name, or `None`.
    pub fn node_named(&self, name: &[u8]) -> Option<NodeId>
        ensures { result ≡ node_named self.now name.now }
    {
        for at in 0..self.nodes() {
            let node = NodeId(at);
            if name == self.node_name(node) {
                return Some(node);
            }
        }
        None
    }

    /// The application with this name, or `None`.
    pub fn app_named(&self, name: &[u8]) -> Option<AppId>
        ensures { result ≡ app_named self.now name.now }
    {
        let at = self.tables().apps.get_index_of(name)?;
        Some(AppId(at as u16))
    }

    /// The group of the node in the application's list, 0 for the most preferred one, or `None` if the list doesn't
    /// contain the node. By OTP's kernel manual, parameter `distributed`, the list contains nodes and tuples of nodes
    /// in order of priority.
    pub fn group_of(&self, app: AppId, node: NodeId) -> Option<u16>
        requires { app.0 < app_count self.now }
        ensures { result ≡ group_of self.now app node }
    {
        let (_, row) = self.entry(app);
        let place = *row.places.get(node.0 as usize)?;
        if (place as usize) < MAX_NODES {
            Some(u16::from(place))
        } else {
            None
        }
    }

    /// The failover timeout of the application, in milliseconds; 0 if the file has none.
    pub fn timeout(&self, app: AppId) -> u32
        requires { app.0 < app_count self.now }
        ensures { result ≡ timeout_of self.now app }
    {
        self.entry(app).1.timeout
    }

    /// Whether a starting node waits for this node and gives up without it (OTP's kernel manual, parameter
    /// `sync_nodes_mandatory`).
    pub fn mandatory(&self, node: NodeId) -> bool
        requires { node.0 < node_count self.now }
        ensures { result ≡ is_mandatory self.now node }
    {
        self.node(node).mandatory
    }

    /// Whether a starting node waits for this node and continues without it (OTP's kernel manual, parameter
    /// `sync_nodes_optional`).
    pub fn optional(&self, node: NodeId) -> bool
        requires { node.0 < node_count self.now }
        ensures { result ≡ is_optional self.now node }
    {
        self.node(node).optional
    }

    /// How long a starting node waits for its mandatory and optional nodes.
    pub fn sync_wait(&self) -> SyncWait
        ensures { result ≡ self.now.sync_wait }
    {
        self.tables().sync_wait
    }

    /// Whether the application is permitted at a node until a command changes this (OTP's kernel manual, parameter
    /// `permissions`).
    pub fn default_permission(&self, app: AppId) -> bool
        requires { app.0 < app_count self.now }
        ensures { result ≡ default_permission self.now app }
    {
        self.entry(app).1.permission
    }

    /// The canonical text of this configuration: a line that is read as an equal configuration and contains every
    /// timeout. It has no spaces outside names. The nodes of a tuple and of a sync list are ordered by name. It can be
    /// longer than the original text, and even too long to be read.
    pub fn canonical_text(&self) -> Result<Vec<u8>, NoMemory>
        ensures bytes { IfOk result (λ text. text.items ≡ canonical_text self.now) }
        // The text is read again as an equal configuration, unless it is too long.
        ensures read_again { IfOk result
            (λ text. length text.items ≤ MAX_TEXT → IsConfigOf text.items self.now) }
    {
        let mut text = Text::new(*self.tables().nodes.allocator());
        self.put(&mut text);
        text.finish()
    }

    /// The fingerprint of the configuration: the 64-bit FNV-1a hash of its canonical text. It doesn't distinguish
    /// configurations with equal hashes.
    pub fn mark(&self) -> u64
        ensures { result ≡ fnv1a (canonical_text self.now) }
    {
        let mut mark = Mark::new();
        self.put(&mut mark);
        mark.value
    }

    /// A copy that shares the tables.
    pub fn copy(&self) -> Result<Config, NoMemory>
        ensures { IfOk result (λ copy. copy ≡ self.now) }
    {
        let tables = Arc::try_clone(&self.tables)?;
        Ok(Config { tables })
    }
}
