//! The final page of a closed journal.

ghost use Rattle.std.specs.Prelude.{◌≡◌, All, IfOk, IfSome, map};
ghost use Rattle.dac_crews.specs.Journals.{beginning_of, AreHistory};
ghost use Rattle.dac_crews.specs.Paged.{page_after};
ghost use Rattle.dac_live.specs.Reads.{IsPageOf};

use crate::histories::page_of_history;
use crate::same_pages::same_page;
use dac_base::{NoMemory, NodeId};
use dac_config::Config;
use dac_crews::{Closed, Page};
use std::alloc::Global;

/// The final page, if it is the one after all records of the journal, which begins before the node's first boot. The
/// replay also compares the pages read by lines of the node, which must be sorted by place.
///
/// `None` if one of the pages is wrong, if they aren't sorted, or if the journal is another node's, begins later, or is
/// no history of the node.
pub fn last_page(
    alloc: Global,
    config: &Config,
    me: NodeId,
    closed: &Closed,
    read: &Page,
    reads: &[&Page],
) -> Result<Option<Page>, NoMemory>
    ensures page { IfOk result (λ o. IfSome o
        (λ page. page ≡ page_after (beginning_of config.now me 0) closed.now.records)) }
    ensures read { IfOk result (λ o. IfSome o (λ page. page ≡ read.now)) }
    ensures history { IfOk result
        (λ o. IfSome o (λ _. AreHistory (beginning_of config.now me 0) closed.now.records)) }
    ensures reads { IfOk result (λ o. IfSome o (λ _. All
        (IsPageOf (beginning_of config.now me 0) closed.now.records) (map (λ p. p.now) reads.now))) }
    ensures named { IfOk result
        (λ o. IfSome o (λ _. (closed.now.beginning.node ≡ me) × (closed.now.beginning.last ≡ 0))) }
{
    if closed.node() != me || closed.last() != 0 {
        return Ok(None);
    }
    let there = page_of_history(alloc, config, me, closed.records(), reads)?;
    match there {
        Some(there) if same_page(&there, read) => Ok(Some(there)),
        _ => Ok(None),
    }
}
