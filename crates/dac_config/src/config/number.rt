//! Replaces names by numbers.
ghost use Rattle.std.specs.Prelude.{◌≡◌, ◌<◌, ◌≤◌, ◌==◌, ℕ, false, List, [], ◌∷◌, ◌++◌, map, length, position, All, IfOk, IfSome, OnOk};
ghost use Rattle.std.specs.List.{list_any};
ghost use Rattle.dac_shapes.specs.Views.{names_of, groups_of, app_of, permissions_of, draft_of};
ghost use Rattle.dac_shapes.specs.Limits.{is_among};
ghost use Rattle.dac_shapes.specs.Grammar.{IsTextOf};
ghost use Rattle.dac_shapes.specs.Within.{IsWithinLimits};
ghost use Rattle.dac_config.specs.Numbering.{in_byte_order, numbers_from, numbered_node, permitted, numbered_app, numbered};
ghost use Rattle.dac_config.specs.ConfigView.{node_row, app_row, place_by, table_of, ArePlaces, IsKept, IsPlaced};
ghost use Rattle.dac_config.specs.Table.{group_among};

use super::{App, Config, Node, Tables};
use dac_base::{MAX_NODES, NoMemory};
use dac_shapes::{Draft, DraftApp, Permission, is_among};
use indexmap::IndexMap;
use std::alloc::Global;
use std::sync::Arc;

/// Sorts the names in byte order and removes duplicates.
fn in_byte_order(names: &mut Vec<&[u8]>)
    ensures { names_of names.new.items ≡ in_byte_order (names_of names.old.items) }
{
    names.sort_unstable();
    names.dedup();
}

/// The row of the node with this name.
fn node_of(alloc: Global, draft: &Draft<'_>, name: &[u8]) -> Result<Node, NoMemory>
    ensures { IfOk result (λ node. node_row node ≡ numbered_node (draft_of draft.now) name.now) }
{
    let mandatory = is_among(name, &draft.mandatory);
    let optional = is_among(name, &draft.optional);
    let name = name.to_vec(alloc)?;
    Ok(Node {
        name,
        mandatory,
        optional,
    })
}

/// The rows of the nodes, in the order of the draft.
fn nodes_of(alloc: Global, draft: &Draft<'_>) -> Result<Vec<Node>, NoMemory>
    ensures { IfOk result (λ nodes. map node_row nodes.items
        ≡ map (numbered_node (draft_of draft.now)) (draft_of draft.now).nodes) }
{
    let mut nodes = Vec::new(alloc);
    for name in &draft.nodes {
        nodes.push(node_of(alloc, draft, name)?)?;
    }
    Ok(nodes)
}

/// The numbers of the nodes in a group.
fn numbers_of(alloc: Global, nodes: &[Node], group: &[&[u8]]) -> Result<Vec<u8>, NoMemory>
    requires { length nodes.now ≤ MAX_NODES }
    ensures { IfOk result
        (λ numbers. numbers.items ≡ numbers_from 0 (map node_row nodes.now) (names_of group.now)) }
{
    let mut numbers = Vec::new(alloc);
    for (number, node) in nodes.iter().enumerate() {
        if is_among(&node.name, group) {
            numbers.push(number as u8)?;
        }
    }
    Ok(numbers)
}

/// The groups with node numbers for names.
fn groups_of(alloc: Global, nodes: &[Node], groups: &[Vec<&[u8]>]) -> Result<Vec<Vec<u8>>, NoMemory>
    requires { length nodes.now ≤ MAX_NODES }
    ensures { IfOk result (λ numbered. map (λ group. group.items) numbered.items
        ≡ map (numbers_from 0 (map node_row nodes.now)) (groups_of groups.now)) }
{
    let mut numbered = Vec::new(alloc);
    for group in groups {
        numbered.push(numbers_of(alloc, nodes, group)?)?;
    }
    Ok(numbered)
}

/// The index of the first group that contains the node.
fn place_of_group(groups: &[Vec<u8>], node: u8) -> Option<usize>
    ensures place { result
        ≡ position (λ group. list_any (λ other. other == node) group.items) groups.now }
    ensures within { IfSome result (λ at. at < length groups.now) }
{
    groups.iter().position(|group| group.contains(&node))
}

/// The index of the first group that contains the node, or MAX_NODES if none does.
fn place_of(groups: &[Vec<u8>], node: u8) -> u8
    requires { length groups.now ≤ MAX_NODES }
    ensures { place_by result ≡ group_among (map (λ group. group.items) groups.now) node }
{
    match place_of_group(groups, node) {
        Some(place) => place as u8,
        None => MAX_NODES as u8,
    }
}

/// For each node number below `nodes`, the index of the first group that contains it.
fn places_of(alloc: Global, nodes: usize, groups: &[Vec<u8>]) -> Result<Vec<u8>, NoMemory>
    requires nodes { nodes ≤ MAX_NODES }
    requires groups { length groups.now ≤ MAX_NODES }
    requires members { All (λ group. All (λ number. number < nodes) group)
        (map (λ group. group.items) groups.now) }
    ensures { IfOk result
        (λ places. ArePlaces places.items (map (λ group. group.items) groups.now)) }
{
    let mut places = Vec::new(alloc);
    for node in 0..nodes {
        places.push(place_of(groups, node as u8))?;
    }
    Ok(places)
}

/// Whether an application of this name is permitted: by the first permission of its name, or true if there is none.
fn is_permitted(permissions: &[Permission<'_>], name: &[u8]) -> bool
    ensures { result ≡ permitted (permissions_of permissions.now) name.now }
{
    for permission in permissions {
        if permission.name == name {
            return permission.value;
        }
    }
    true
}

/// Adds an application, with the next number.
fn add_app(
    alloc: Global,
    draft: &Draft<'_>,
    nodes: &[Node],
    app: &DraftApp<'_>,
    numbered: &mut IndexMap<Vec<u8>, App>,
) -> Result<(), NoMemory>
    requires few { length nodes.now ≤ MAX_NODES }
    requires groups { length (app_of app.now).groups ≤ MAX_NODES }
    requires new { is_among app.now.name.now
        (map (λ row. row.name) (map app_row numbered.old.entries)) ≡ false }
    ensures rows { OnOk result (map app_row numbered.new.entries
        ≡ map app_row numbered.old.entries
        ++ numbered_app (draft_of draft.now).permissions (map node_row nodes.now)
        (app_of app.now) ∷ []) }
    ensures places { OnOk result
        (All IsPlaced numbered.old.entries → All IsPlaced numbered.new.entries) }
{
    let groups = groups_of(alloc, nodes, &app.groups)?;
    let places = places_of(alloc, nodes.len(), &groups)?;
    let name = app.name.to_vec(alloc)?;
    let permission = is_permitted(&draft.permissions, app.name);
    numbered.insert(
        name,
        App {
            timeout: app.timeout,
            groups,
            places,
            permission,
        },
    )?;
    Ok(())
}

impl Tables {
    /// The tables of a draft, whose nodes it sorts in place.
    fn of_draft(alloc: Global, draft: &mut Draft<'_>) -> Result<Self, NoMemory>
        requires limits { IsWithinLimits (draft_of draft.old) }
        requires said { (text : List ℕ) × IsTextOf text (draft_of draft.old) }
        ensures value { IfOk result (λ tables. table_of tables ≡ numbered (draft_of draft.old)) }
        ensures kept { IfOk result IsKept }
    {
        in_byte_order(&mut draft.nodes);
        let nodes = nodes_of(alloc, draft)?;
        let mut apps = IndexMap::new(alloc);
        for app in &draft.apps {
            add_app(alloc, draft, &nodes, app, &mut apps)?;
        }
        Ok(Tables {
            nodes,
            apps,
            sync_wait: draft.sync_wait,
        })
    }
}

impl Config {
    /// The configuration of a draft, whose nodes it sorts in place.
    pub(crate) fn of_draft(alloc: Global, draft: &mut Draft<'_>) -> Result<Config, NoMemory>
        requires limits { IsWithinLimits (draft_of draft.old) }
        requires said { (text : List ℕ) × IsTextOf text (draft_of draft.old) }
        ensures { IfOk result (λ config. config ≡ numbered (draft_of draft.old)) }
    {
        let tables = Tables::of_draft(alloc, draft)?;
        let tables = Arc::new(alloc, tables)?;
        Ok(Config { tables })
    }
}
