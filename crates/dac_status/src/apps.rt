//! The lines of applications.

ghost use Rattle.std.specs.Prelude.{◌≡◌, ◌<◌, ◌≤◌, ◌++◌, ℕ, Some, None, slice_index_or, OnOk};
ghost use Rattle.dac_config.specs.Table.{app_count, node_count};
ghost use Rattle.dac_status.specs.Texts.{node_text, how_text, from_text, claim_text, holder_text, verdict_text, standing_text, mark_text, labels_of, groups_of, group_in, list_text, summary_text, app_lines};
ghost use Rattle.dac_status.specs.Chains.{AreChains};

use crate::chains::{Chains, MAX_GROUPS, chains_of};
use crate::labels::Labels;
use crate::marks::Mark;
use crate::nodes::put_node;
use crate::numbers::put_number;
use crate::summary::AppSummary;
use dac_base::{AppId, MAX_APPS, MAX_NODES, NoMemory, NodeId};
use dac_chains::{Claim, How};
use dac_config::{Config, put_printed_name};
use dac_placement::Verdict;
use std::alloc::Global;

/// How an application came to the node that claims it, after a space.
pub fn how_text(how: How) -> &'static str
    ensures { result.now ≡ how_text how }
{
    match how {
        How::Normal => " normal",
        How::Failover => " failover",
        How::Takeover => " takeover",
    }
}

/// Appends the node from which an application was taken, if any.
pub fn put_from(
    alloc: Global,
    text: &mut Vec<u8>,
    config: &Config,
    from: Option<NodeId>,
) -> Result<(), NoMemory>
    ensures { OnOk result (text.new.items ≡ text.old.items ++ from_text config.now from) }
{
    let Some(node) = from else {
        return Ok(());
    };
    text.extend_from_slice(b" from ")?;
    put_node(alloc, text, config, node)
}

/// Appends a claim: its node and incarnation, its term, and how the application came there.
fn put_claim(
    alloc: Global,
    text: &mut Vec<u8>,
    config: &Config,
    claim: Claim,
) -> Result<(), NoMemory>
    ensures { OnOk result (text.new.items ≡ text.old.items ++ claim_text config.now claim) }
{
    put_node(alloc, text, config, claim.origin.node)?;
    let incarnation = claim.origin.inc;
    let term = claim.term;
    text.push(b' ')?;
    put_number(text, incarnation)?;
    text.extend_from_slice(b" term ")?;
    put_number(text, term)?;
    text.extend_from_slice(how_text(claim.how).as_bytes())?;
    put_from(alloc, text, config, claim.from)
}

/// Appends the holder of an application, if any.
fn put_holder(
    alloc: Global,
    text: &mut Vec<u8>,
    config: &Config,
    claim: Option<Claim>,
) -> Result<(), NoMemory>
    ensures { OnOk result (text.new.items ≡ text.old.items ++ holder_text config.now claim) }
{
    match claim {
        Some(claim) => put_claim(alloc, text, config, claim),
        None => {
            text.extend_from_slice(b"none")?;
            Ok(())
        }
    }
}

/// Appends a word and a node.
fn put_at_node(
    alloc: Global,
    text: &mut Vec<u8>,
    config: &Config,
    word: &[u8],
    node: NodeId,
) -> Result<(), NoMemory>
    ensures { OnOk result
        (text.new.items ≡ text.old.items ++ (word.now ++ node_text config.now node)) }
{
    text.extend_from_slice(word)?;
    put_node(alloc, text, config, node)
}

/// Appends a verdict, with the node that it names.
fn put_verdict(
    alloc: Global,
    text: &mut Vec<u8>,
    config: &Config,
    verdict: Verdict,
) -> Result<(), NoMemory>
    ensures { OnOk result (text.new.items ≡ text.old.items ++ verdict_text config.now verdict) }
{
    match verdict {
        Verdict::Start(node) => put_at_node(alloc, text, config, b"start ", node),
        Verdict::Failover(node) => put_at_node(alloc, text, config, b"failover ", node),
        Verdict::Halted(node) => put_at_node(alloc, text, config, b"halted ", node),
        Verdict::Move(node) => put_at_node(alloc, text, config, b"move ", node),
        Verdict::Takeover(node) => put_at_node(alloc, text, config, b"takeover ", node),
        Verdict::Kept(node) => put_at_node(alloc, text, config, b"kept ", node),
        Verdict::Nobody => {
            text.extend_from_slice(b"nobody")?;
            Ok(())
        }
    }
}

/// Appends the first line of an application: its holder and the verdict.
fn put_standing(
    alloc: Global,
    text: &mut Vec<u8>,
    config: &Config,
    app: AppId,
    claim: Option<Claim>,
    verdict: Verdict,
) -> Result<(), NoMemory>
    requires { app.0 < app_count config.now }
    ensures { OnOk result
        (text.new.items ≡ text.old.items ++ standing_text config.now app claim verdict) }
{
    text.extend_from_slice(b"app ")?;
    put_printed_name(text, config.app_name(app))?;
    text.extend_from_slice(b" holder ")?;
    put_holder(alloc, text, config, claim)?;
    text.extend_from_slice(b" verdict ")?;
    put_verdict(alloc, text, config, verdict)?;
    text.push(b'\n')?;
    Ok(())
}

/// The word for a mark.
fn mark_text(mark: Mark) -> &'static str
    ensures { result.now ≡ mark_text mark }
{
    match mark {
        Mark::Down => "down",
        Mark::Barred => "barred",
        Mark::Drained => "drained",
        Mark::Idle => "idle",
        Mark::Ok => "ok",
    }
}

/// Appends a label and a mark.
fn put_marked(text: &mut Vec<u8>, label: &[u8], mark: Mark) -> Result<(), NoMemory>
    ensures { OnOk result (text.new.items ≡ text.old.items ++ (label.now ++ mark_text mark)) }
{
    text.extend_from_slice(label)?;
    text.extend_from_slice(mark_text(mark).as_bytes())?;
    Ok(())
}

/// The group of each node in an application's list, by the nodes' numbers.
fn groups_of(config: &Config, app: AppId) -> [Option<u16>; MAX_NODES]
    requires { app.0 < app_count config.now }
    ensures { result ≡ groups_of config.now app }
{
    let mut groups = [None; MAX_NODES];
    for number in 0..config.nodes() {
        groups[number as usize] = config.group_of(app, NodeId(number));
    }
    groups
}

/// How many groups there are, given the count so far and the group of one more node.
fn counted_group(count: u16, group: Option<u16>) -> u16
    requires { count ≤ MAX_NODES }
    ensures grows { count ≤ result }
    ensures few { result ≤ MAX_NODES }
    ensures has { (number : ℕ) → number < MAX_NODES → group ≡ Some number → number < result }
{
    let Some(group) = group else {
        return count;
    };
    if count <= group && group < MAX_GROUPS {
        group + 1
    } else {
        count
    }
}

/// How many groups there are up to the last one that has a node, given the group of each node.
fn group_count(config: &Config, groups: &[Option<u16>; MAX_NODES]) -> u16
    ensures few { result ≤ MAX_NODES }
    ensures has { (node group : ℕ) → node < node_count config.now → group < MAX_NODES
        → slice_index_or groups.now node None ≡ Some group → group < result }
{
    let mut count = 0;
    for number in 0..config.nodes() {
        count = counted_group(count, groups[number as usize]);
    }
    count
}

/// Appends the nodes of a group with their marks, given the group of each node and the chains of the groups.
fn put_group(
    text: &mut Vec<u8>,
    config: &Config,
    labels: &Labels,
    groups: &[Option<u16>; MAX_NODES],
    chains: &Chains,
    marks: &[Mark; MAX_NODES],
    group: u16,
) -> Result<(), NoMemory>
    requires labels { labels.now ≡ labels_of config.now }
    requires place { group < MAX_NODES }
    requires chains { AreChains groups.now (node_count config.now) 0 chains.now.first chains.now.next }
    ensures { OnOk result (text.new.items
        ≡ text.old.items ++ group_in config.now labels.now groups.now marks.now group) }
{
    let _groups = groups;
    let mut number = chains.first[group as usize];
    while number < config.nodes() {
        put_marked(text, labels.at(NodeId(number)), marks[number as usize])?;
        number = chains.next[number as usize];
    }
    Ok(())
}

/// Appends the line of an application's list: the nodes group by group, each with its mark.
fn put_list(
    text: &mut Vec<u8>,
    config: &Config,
    labels: &Labels,
    app: AppId,
    marks: &[Mark; MAX_NODES],
) -> Result<(), NoMemory>
    requires app { app.0 < app_count config.now }
    requires labels { labels.now ≡ labels_of config.now }
    ensures { OnOk result (text.new.items ≡ text.old.items ++ list_text config.now app marks.now) }
{
    text.extend_from_slice(b"list")?;
    let groups = groups_of(config, app);
    let chains = chains_of(config, &groups);
    for group in 0..group_count(config, &groups) {
        put_group(text, config, labels, &groups, &chains, marks, group)?;
    }
    text.push(b'\n')?;
    Ok(())
}

/// Appends the two lines of an application.
fn put_summary(
    alloc: Global,
    text: &mut Vec<u8>,
    config: &Config,
    labels: &Labels,
    app: AppId,
    summary: &AppSummary,
) -> Result<(), NoMemory>
    requires app { app.0 < app_count config.now }
    requires labels { labels.now ≡ labels_of config.now }
    ensures { OnOk result
        (text.new.items ≡ text.old.items ++ summary_text config.now app summary.now) }
{
    put_standing(alloc, text, config, app, summary.claim, summary.verdict)?;
    put_list(text, config, labels, app, &summary.marks)
}

/// Appends the two lines of an application, from the summaries of all.
#[tactic(auto, unfolding(crate::specs::Texts::app_lines))]
pub(crate) fn put_app(
    alloc: Global,
    text: &mut Vec<u8>,
    config: &Config,
    labels: &Labels,
    apps: &[AppSummary; MAX_APPS],
    app: AppId,
) -> Result<(), NoMemory>
    requires app { app.0 < app_count config.now }
    requires place { app.0 < MAX_APPS }
    requires labels { labels.now ≡ labels_of config.now }
    ensures { OnOk result (text.new.items ≡ text.old.items ++ app_lines config.now apps.now app) }
{
    put_summary(alloc, text, config, labels, app, &apps[app.0 as usize])
}
