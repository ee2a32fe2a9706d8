//! The pairs of nodes in an anti-entropy round.

ghost use Rattle.std.specs.Prelude.{◌≡◌, ◌++◌, IfOk, OnOk};
ghost use Rattle.dac_play.specs.Pairs.{pairs_of, pairs};

use dac_base::{NoMemory, NodeId};
use std::alloc::Global;

/// Appends the pairs of a node with every other one.
fn push_pairs(
    pairs: &mut Vec<(NodeId, NodeId)>,
    from: NodeId,
    nodes: &[NodeId],
) -> Result<(), NoMemory>
    ensures { OnOk result (pairs.new.items ≡ pairs.old.items ++ pairs_of nodes.now from) }
{
    for to in nodes {
        if *to != from {
            pairs.push((from, *to))?;
        }
    }
    Ok(())
}

/// Every ordered pair of two of these nodes.
pub fn all_pairs(alloc: Global, nodes: &[NodeId]) -> Result<Vec<(NodeId, NodeId)>, NoMemory>
    ensures { IfOk result (λ all. all.items ≡ pairs nodes.now) }
{
    let mut all = Vec::new(alloc);
    for from in nodes {
        push_pairs(&mut all, *from, nodes)?;
    }
    Ok(all)
}
