//! Replays a journal once, and checks its results, the pages read, and the page after it.

ghost use Rattle.std.specs.Prelude.{◌≡◌, ◌≤◌, true, All, IfOk, IfSome, length, map};
ghost use Rattle.std.specs.List.{AllWithin};
ghost use Rattle.dac_crews.specs.Paged.{page_of, page_after};
ghost use Rattle.dac_journal.specs.Journals.{beginning_of, AreHistory};
ghost use Rattle.dac_journal.specs.Step.{Steps};
ghost use Rattle.dac_live.specs.Reads.{IsPageOf};

use crate::same_pages::same_page;
use dac_base::{NoMemory, NodeId};
use dac_config::Config;
use dac_crews::{Page, Record};
use dac_journal::{Node, is_answered, same_answer};
use dac_sites::page_of;
use std::alloc::Global;

/// Handles the event of a record, and returns whether the node's result is the record's.
fn repeats(config: &Config, me: NodeId, node: &mut Node, one: &Record) -> Result<bool, NoMemory>
    ensures { IfOk result
        (λ same. same ≡ true → Steps config.now me node.old one.now.event node.new one.now.answer) }
{
    let event = one.event.copy()?;
    node.warm(&event);
    let answer = node.step(config, me, event);
    is_answered(&answer)?;
    Ok(same_answer(&answer, &one.answer))
}

/// Skips the pages with this place, in a list sorted by place. Returns the next index, or `None` if one of them isn't
/// the node's page.
fn passed(
    alloc: Global,
    config: &Config,
    place: u64,
    node: &Node,
    reads: &[&Page],
    from: usize,
) -> Option<usize>
    requires { from ≤ length reads.now }
    ensures { IfSome result (λ to. (to ≤ length reads.now)
        × AllWithin (λ p. p.now ≡ page_of config.now place node.now) reads.now from to) }
{
    if from >= reads.len() || reads[from].place != place {
        return Some(from);
    }
    let there = page_of(alloc, config, place, node);
    for i in from..reads.len() {
        if reads[i].place != place {
            return Some(i);
        }
        if !same_page(&there, reads[i]) {
            return None;
        }
    }
    Some(reads.len())
}

/// The page after all records, or `None` unless they are a history of this node, from before its first boot, and each
/// of the pages is the one after as many of them as its place says. The pages are sorted by place.
pub fn page_of_history(
    alloc: Global,
    config: &Config,
    me: NodeId,
    records: &[Record],
    reads: &[&Page],
) -> Result<Option<Page>, NoMemory>
    ensures page { IfOk result
        (λ o. IfSome o (λ page. page ≡ page_after (beginning_of config.now me 0) records.now)) }
    ensures history { IfOk result
        (λ o. IfSome o (λ _. AreHistory (beginning_of config.now me 0) records.now)) }
    ensures reads { IfOk result (λ o. IfSome o (λ _.
        All (IsPageOf (beginning_of config.now me 0) records.now) (map (λ p. p.now) reads.now))) }
{
    let mut node = Node::off(alloc, 0);
    let mut next = 0;
    for i in 0..records.len() {
        let one = &records[i];
        match passed(alloc, config, i as u64, &node, reads, next) {
            Some(to) => next = to,
            None => return Ok(None),
        }
        let same = repeats(config, me, &mut node, one)?;
        if !same {
            return Ok(None);
        }
    }
    match passed(alloc, config, records.len() as u64, &node, reads, next) {
        Some(to) if to == reads.len() => {
            Ok(Some(page_of(alloc, config, records.len() as u64, &node)))
        }
        _ => Ok(None),
    }
}
