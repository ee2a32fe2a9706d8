//! The journals and the pages of all nodes.

ghost use Rattle.std.specs.Prelude.{◌≡◌, ◌≤◌, All, IfOk, length, map};
ghost use Rattle.std.specs.List.Sorted.{IsPermutation};
ghost use Rattle.dac_base.specs.declared.limits.TheConstants.{MAX_NODES};
ghost use Rattle.dac_config.specs.Table.{node_count};
ghost use Rattle.dac_crews.specs.Journals.{beginning_of};
ghost use Rattle.dac_live.specs.Nodes.{AreNodes, IsFirstOf, PagesHold, IsTrueOf, AreTrueOf, last_page_of};
ghost use Rattle.dac_live.specs.Reads.{AreNoted, IsPageOf, PagesAreRead, pages_read};

use crate::lists::ReadList;
use crate::pages::last_page;
use crate::reads::pages_read;
use dac_base::{NoMemory, NodeId};
use dac_config::Config;
use dac_crews::{Closed, Page, Phase, RunFault};
use std::alloc::Global;

/// The pages read by lines of this node, sorted by place.
fn pages_by_place<'a>(
    alloc: Global,
    phases: &[Phase],
    reads: &'a [ReadList],
    node: NodeId,
) -> Result<Vec<&'a Page>, NoMemory>
    requires { AreNoted phases.now reads.now }
    ensures { IfOk result (λ all.
        IsPermutation (pages_read node.0 phases.now reads.now) (map (λ p. p.now) all.items)) }
{
    let mut all = pages_read(alloc, phases, reads, node)?;
    all.sort_unstable_by_key(|page| page.place);
    Ok(all)
}

/// The final page of a node, if it is the one after the whole journal, and if the pages read by lines of the node are
/// of this journal too.
fn page_of(
    alloc: Global,
    config: &Config,
    me: NodeId,
    phases: &[Phase],
    reads: &[ReadList],
    closed: &Closed,
    read: &Page,
) -> Result<Page, RunFault>
    requires { AreNoted phases.now reads.now }
    ensures page { IfOk result (λ page. page ≡ last_page_of config.now closed.now) }
    ensures read { IfOk result (λ page. page ≡ read.now) }
    ensures reads { IfOk result
        (λ _. All (IsPageOf (beginning_of config.now me 0) closed.now.records)
        (pages_read me.0 phases.now reads.now)) }
    ensures history { IfOk result (λ _. IsTrueOf config.now closed.now) }
    ensures named { IfOk result (λ _. IsFirstOf me.0 closed.now) }
{
    let all = pages_by_place(alloc, phases, reads, me)?;
    match last_page(alloc, config, me, closed, read, all.as_slice())? {
        Some(page) => Ok(page),
        None => Err(RunFault::NoPage { node: me }),
    }
}

/// The fault of the first node missing after this many.
fn missing(found: usize, nodes: u8) -> RunFault {
    let node = NodeId(found.min(usize::from(nodes)) as u8);
    RunFault::NoPage { node }
}

/// The final pages, if each is the one after all records of its node's journal, and each page read by a line is the one
/// after as many of them as its place says.
///
/// Fails with `NoPage` of the first node whose journal is missing; otherwise of the first whose final page is missing;
/// otherwise of the first whose journal or one of whose pages is wrong. Its only other error is
/// [`NoMemory`](RunFault::NoMemory).
pub fn last_pages(
    alloc: Global,
    config: &Config,
    phases: &[Phase],
    reads: &[ReadList],
    closed: &[Closed],
    read: &[Page],
) -> Result<Vec<Page>, RunFault>
    // There is an entry for each line: the page read, or none.
    requires { AreNoted phases.now reads.now }
    ensures pages { IfOk result (λ all. PagesHold config.now closed.now all.items) }
    ensures read { IfOk result (λ all. all.items ≡ read.now) }
    ensures reads { IfOk result (λ _. PagesAreRead config.now phases.now reads.now closed.now) }
    ensures histories { IfOk result (λ _. AreTrueOf config.now closed.now) }
    ensures nodes { IfOk result (λ _. AreNodes (node_count config.now) closed.now) }
    ensures few { IfOk result (λ _. length closed.now ≤ MAX_NODES) }
{
    let nodes = usize::from(config.nodes());
    if closed.len() != nodes {
        return Err(missing(closed.len(), config.nodes()));
    }
    if read.len() != nodes {
        return Err(missing(read.len(), config.nodes()));
    }
    let mut all = Vec::new(alloc);
    for i in 0..closed.len() {
        let one = &closed[i];
        let node = NodeId(i as u8);
        let page = page_of(alloc, config, node, phases, reads, one, &read[i])?;
        all.push(page)?;
    }
    Ok(all)
}
