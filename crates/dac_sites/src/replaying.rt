//! The page after some records, computed by replaying them.

ghost use Rattle.std.specs.Prelude.{◌≡◌, IfOk, OnOk};
ghost use Rattle.dac_journal.specs.Journals.{beginning_of};
ghost use Rattle.dac_sites.specs.Paged.{page_after};
ghost use Rattle.dac_sites.specs.Replayed.{GoesOn};

use crate::paged::page_of;
use dac_base::{NoMemory, NodeId};
use dac_config::Config;
use dac_journal::{Node, Record, is_answered};
use dac_messages::Event;
use dac_pages::Page;
use std::alloc::Global;

/// Handles the event at the node. A refusal other than `NoMemory` is no error.
fn go_on(config: &Config, me: NodeId, node: &mut Node, event: &Event) -> Result<(), NoMemory>
    ensures { OnOk result (GoesOn config.now me node.old event.now node.new) }
{
    let event = event.copy()?;
    node.warm(&event);
    let answer = node.step(config, me, event);
    is_answered(&answer)?;
    Ok(())
}

/// The page after these records, of a node whose last incarnation before them was `last`.
pub fn replay(
    alloc: Global,
    config: &Config,
    me: NodeId,
    last: u64,
    records: &[Record],
) -> Result<Page, NoMemory>
    ensures { IfOk result
        (λ page. page ≡ page_after (beginning_of config.now me last) records.now) }
{
    let mut node = Node::off(alloc, last);
    for i in 0..records.len() {
        let one = &records[i];
        go_on(config, me, &mut node, &one.event)?;
    }
    Ok(page_of(alloc, config, records.len() as u64, &node))
}
